//! Events of handle and reference traces, and what is asked of a list of them.
//!
//! `specs/` has the definitions, which everything above cites; `specs/Lib` names them in reading
//! order: events as values (`Events`), what an event counts (`Slots`), the orders of slots and of
//! stacks (`SlotOrder`, `Stacks`), the ranges of an event's numbers (`Ranges`), lists of the
//! members of a set (`Members`), which handles are outstanding and what a handle's listing is
//! (`Handles`), how often a slot came (`Tallies`), the rows of a summary (`Summaries`), which stacks
//! left handles open in any process (`Sites`), which tags don't balance over all objects
//! (`Balances`), each over events as a set or as a flat list, the events as of a moment
//! (`Moments`), how many handles were open as of several (`Growth`), the events that a question asks
//! about (`Interests`), the words of kinds (`Words`), and what follows from all these (`Laws`). The
//! code has little more than the types: only the making of a shared stack takes memory.
//!
//! Files, in reading order: `kind.rt` and `event.rt` (an event), `stack.rt` and `shared_stack.rt`
//! (its stack, of its own or shared), `slot.rt` (what it is counted under), `event_list.rt` (lists
//! of events), `interest.rt` (the events that a question asks about), `since.rt` (since when handles
//! count), `summary.rt` (rows of a summary), `growth.rt` (the span and the points of a growth),
//! `site.rt` (a stack that left handles open), `balance.rt` (how often a tag or a stack was used),
//! `until.rt` (the events of a list up to a moment), `memory.rt` (the error for refused memory),
//! `laws.rt` (the laws of the definitions).
//!
//! In `proofs/`, `Members`, `Orders` and `Ordered` are on lists of members in order, `EventTests`
//! and `EventsEqual` on tests of one event and of two, `Untils` on the events until a moment,
//! `WantedLists` on those that are asked about; `Determined`, `Unions`, `Counts`, `Sums`,
//! `Summarized`, `Balanced`, `Wanted` and `WantedSummaries` show the laws. `ComputedHandles`,
//! `ComputedCounts` and `ComputedSites` have a function for each answer, with the lemma that its
//! value is the answer, and `RowsHandles`, `RowsCounts` and `RowsSites` worked answers by it.
#![tactic(auto)]

mod balance;
mod event;
mod event_list;
mod growth;
mod interest;
mod kind;
pub mod laws;
mod memory;
mod shared_stack;
mod since;
mod site;
mod slot;
mod stack;
mod summary;
mod until;

ghost use Rattle.std.specs.Prelude.{◌≡◌};
ghost use Rattle.htl_event.specs.Slots.{base_of};

pub use balance::Balance;
pub use event::{Event, SharedEvent};
pub use event_list::{EventList, number_of_events};
pub use growth::{Point, Span};
pub use interest::Interest;
pub use kind::Kind;
pub use memory::NoMemory;
pub use shared_stack::SharedStack;
pub use since::Since;
pub use site::Site;
pub use slot::{Count, Sign, Slot};
pub use stack::{MAX_FRAMES, Stack};
pub use summary::{ObjectRow, ProcessRow};
pub use until::Until;

/// A handle with its low two bits cleared: the entry of the handle table that it names. That
/// Windows ignores the low two bits of a handle is this project's own rule for traces.
pub fn base(handle: u32) -> u32
    ensures { result ≡ base_of handle }
{
    handle & !3
}
