//! Tests of cases and of exchanges.
//!
//! `cases` has cases that grow, and `plays` lists of steps. `exchanges` has worked exchanges and
//! surveys with threads that wait for one another, and in `schedules` desks take turns in threads
//! of their own. `rows` has what tests of a table assert of each row.
#![tactic(auto)]

#[cfg(test)]
mod cases;
#[cfg(test)]
mod exchanges;
#[cfg(test)]
mod plays;
#[cfg(test)]
mod rows;
#[cfg(test)]
mod schedules;
