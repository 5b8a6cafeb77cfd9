//! A fault in words, as a person reads it after the fault's line.
//!
//! `explanation.rt` puts together what the fault of a run is about, what is wrong and what to do, and
//! `stopped.rt` does it for a dialogue that stopped. `task.rt` has what the program was doing, which
//! gives the files their names; `side.rt` has the two segments that a fault may be about, and
//! `meaning.rt` what is wrong.

mod explanation;
mod meaning;
mod side;
mod stopped;
mod task;

pub use explanation::Explanation;
pub use stopped::Stopped;
pub use task::Task;
