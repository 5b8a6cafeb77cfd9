//! How often objects were referenced and dereferenced, by tag or by stack.

use crate::slot::Count;

/// How often objects were referenced and dereferenced, under one tag or with one stack.
#[derive(Debug, PartialEq, Eq, Drop)]
pub struct Balance<By> {
    /// The tag, or the stack.
    pub by: By,
    /// References and dereferences of all objects.
    pub count: Count,
    /// The number of objects: of a tag those on which it doesn't balance, of a stack those that it
    /// referenced or dereferenced.
    pub objects: u64,
}
