//! What the program reads from.

ghost use Rattle.std.specs.Prelude.{◌≡◌, [], None};

use std::alloc::Global;

/// What the program has opened, as far as it was read.
#[derive(Drop)]
pub struct Inputs<R> {
    /// The files in the order of their names, or standard input where neither a file nor a saved state
    /// is named.
    pub files: Vec<R>,
    /// Standard input as the lines of a dialogue.
    pub questions: Option<R>,
}

impl<R: Drop> Inputs<R> {
    /// Nothing was opened.
    pub fn new(alloc: Global) -> Inputs<R>
        ensures files { result.files.items ≡ [] }
        ensures questions { result.questions ≡ None }
    {
        Inputs {
            files: Vec::new(alloc),
            questions: None,
        }
    }
}
