//! A state as plain rows.

use htl_event::{Count, Kind, SharedStack, Slot};
use htl_segment::Segment;
use std::marker::Model;

/// How often a slot came with a stack, which is named by its place in the table of stacks.
#[derive(Clone, Copy, Debug, PartialEq, Eq)]
pub struct CountRow {
    pub stack: u32,
    pub slot: Slot,
    pub count: Count,
}

/// The latest open or close of a handle of a process. Its stack is named by its place in the table.
#[derive(Clone, Copy, Debug, PartialEq, Eq)]
pub struct LatestRow {
    pub sequence: u64,
    pub kind: Kind,
    pub process: u32,
    pub thread: u32,
    /// The handle as written.
    pub handle: u32,
    pub stack: u32,
}

/// What a state keeps of one processor.
#[derive(Debug, Drop)]
pub struct PartRows {
    /// All segments with lower numbers were folded.
    pub front: u32,
    /// The greatest sequence of the folded events, or 0.
    pub last_sequence: u64,
    /// The number of the folded events.
    pub events: u64,
    /// The counts that aren't zero, by stack and then by slot.
    pub counts: Vec<CountRow>,
    /// The latest event of each handle, by process and then by handle without its low two bits.
    pub latest: Vec<LatestRow>,
    /// The last snapshot mark of each process, as the process and the sequence, by process.
    pub marks: Vec<(u32, u64)>,
    /// The last exit of each process, in the same form.
    pub exits: Vec<(u32, u64)>,
    /// The segments that wait above the front, by number.
    pub held: Vec<Segment>,
}

impl Model for PartRows {
    ghost use Rattle.htl_state.specs.Rows.{Part, part};

    ghost Value = { Part };

    ghost view = { λ p. part p.front p.last_sequence p.events p.counts.items p.latest.items
        p.marks.items p.exits.items p.held.items };
}

/// A state: the id of its trace, the table of the stacks that its rows name, and a part for each
/// processor.
#[derive(Debug, Drop)]
pub struct StateRows {
    pub trace_id: u64,
    /// All stacks, each once, in stack order.
    pub stacks: Vec<SharedStack>,
    pub parts: Vec<PartRows>,
}

impl Model for StateRows {
    ghost use Rattle.htl_state.specs.Rows.{State, state};

    ghost Value = { State };

    ghost view = { λ s. state s.trace_id s.stacks.items s.parts.items };
}

/// What rows of a part are tested against: the trace, the processor and the front of the part, and
/// the number of stacks in the table.
#[derive(Clone, Copy, Debug)]
pub struct Setting {
    pub trace_id: u64,
    pub processors: u64,
    pub processor: u64,
    pub front: u64,
    pub stacks: u64,
}
