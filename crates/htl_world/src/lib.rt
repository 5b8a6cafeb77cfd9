//! A world: what a program asks of the machine, and the inputs that it opens there.
//!
//! A contract can't say which bytes a file of the machine has. So all that the program opens is asked
//! of a `World`, whose clauses say what each name holds where that is known, as it is of a world in
//! memory, and that there is nothing for a name. A world may also keep a log of what it was asked for,
//! so that contracts say what is opened, how often and in which order. Questions, conversions
//! (`htl_program`) and dialogues (`htl_ask`) are proved for every world.
//!
//! Files, in reading order: `world.rt` (what is opened), `opening.rt` (how inputs and a table of
//! symbols are opened).
//!
//! `specs/` is read in the order of `specs/Lib`: `Worlds` (what names hold, and what a world was
//! asked for), `Rounds` (how often inputs are opened, and in which order), `Endings` (how a run ends
//! that can't open all of them), `Readings` (how inputs that were opened are read), `Openings` (what
//! the calls here give).
#![tactic(auto)]

mod opening;
mod world;

pub use opening::{as_bytes, open_all, open_files, open_inputs, open_named};
pub use world::{OpenFault, World};
