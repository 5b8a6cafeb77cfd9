//! Tests of whole runs: what they print, and what they do with hostile devices and hostile bytes.
//!
//! `printed` has runs over whole inputs (`rows`), `summaries` those for a summary, and `moments`
//! those as of a moment. In `devices` sources and sinks give or take a few bytes, or fail.
//! `commands` has a trace in two inputs and each command's text over it: in `reads` and `writes` the
//! devices of such a run fail at each of
//! their calls in turn, and in `texts` those of runs that dump and encode. In `folding` sources are
//! folded one after another, also such as have a fault. In `changes` each bit of
//! generated bundles (`bundles`) is turned, and they are cut at each byte: what the readers of the
//! format answer is compared with `plain`, a reader that was written from the description of the
//! format alone. In `programs` the whole program runs over a world of memory (`worlds`).
//! `comparison` has what the tests assert of each row.
#![tactic(auto)]

#[cfg(test)]
mod bundles;
#[cfg(test)]
mod changes;
#[cfg(test)]
mod commands;
#[cfg(test)]
mod comparison;
#[cfg(test)]
mod devices;
#[cfg(test)]
mod folding;
#[cfg(test)]
mod moments;
#[cfg(test)]
mod pieces;
#[cfg(test)]
mod plain;
#[cfg(test)]
mod printed;
#[cfg(test)]
mod programs;
#[cfg(test)]
mod reads;
#[cfg(test)]
mod rows;
#[cfg(test)]
mod summaries;
#[cfg(test)]
mod texts;
#[cfg(test)]
mod worlds;
#[cfg(test)]
mod writes;
