//! The hand that refuses allocations: `.ci/refuse.c`, which stands between the program and the C
//! library.
//!
//! The program can't call it. What reaches it is each allocation, and each variable of the
//! environment that is asked for, so variables of two names say when a call begins and when it has
//! ended.

use crate::refusal::Refusal;
use std::alloc::Global;
use std::rt::Env;

/// What refuses allocations, if anything does.
#[derive(Drop)]
pub struct Hand<'a, R> {
    pub rt: &'a R,
}

impl<'a, R: Env + Alloc<A = Global>> Hand<'a, R> {
    /// The allocation of this number, counted from here on and from 1, is refused.
    pub fn refuse(&self, allocation: u64) -> Result<(), Refusal> {
        let name = format!(in self.rt.alloc(); "REFUSE_ALLOCATION_{allocation}")?;
        let _ = self.rt.var(&name, &mut [0; 8]);
        Ok(())
    }

    /// None is refused any more. The answer is whether one was, if anybody refuses allocations.
    pub fn release(&self) -> Option<bool> {
        let mut answer = [0; 8];
        match self.rt.var("ALLOCATION_REFUSED", &mut answer) {
            Ok(_) => Some(answer[0] == b'y'),
            Err(_) => None,
        }
    }
}
