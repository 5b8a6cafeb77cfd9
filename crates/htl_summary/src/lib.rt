//! Answers about all processes and all objects, over several parts (`htl_answers::Part`): what each
//! part folded, and the lists of events that it still holds. They are the processes and objects of a
//! summary, the stacks that left handles open in any process (sites), and the balances of tags over
//! all objects.
//!
//! The parts' tables become one table of each kind. One list says how often each slot came
//! (`htl_answers::slot_sums`), and its sums are added up for each process, each object and each tag.
//! So no process and no object needs a pass of its own. For sites the stack and the process of each
//! open handle are sorted, so that those of one stack are neighbours. The stacks of a tag are added up
//! from the rows of the one tree of all parts (`htl_answers::whole_tree`).
//!
//! Files, in reading order: `summarizing.rt`, `by_process.rt` and `by_object.rt` (the answers: both,
//! about processes and about objects), `by_stack.rt` (sites), `balancing.rt` (the balances of tags,
//! and of the stacks of a tag), `tables.rt` (the tables of all parts), `usage.rt` and `tags.rt` (the
//! rows of a process and of an object that a slot gives), `rows.rt` (adds these up for each owner),
//! `ranking.rt` (rows in order, the greatest number first), `laws.rt` and `balance_laws.rt` (what sites
//! and balances have to do with other answers). In `proofs/`, `ProcessRows`, `ObjectRows`, `SiteRows`,
//! `TagRows` and `StackRows` show that rows are those of the definitions.
#![tactic(auto)]

pub mod balance_laws;
mod balancing;
mod by_object;
mod by_process;
mod by_stack;
pub mod laws;
mod ranking;
mod rows;
mod summarizing;
mod tables;
mod tags;
mod usage;

pub use balancing::{TagBalances, tag_balances, tag_stacks};
pub use by_object::{Objects, balances};
pub use by_process::processes;
pub use by_stack::sites;
pub use summarizing::{Summary, summarize};
