//! Questions to an analyst, and their answers.

use htl_event::{Count, ObjectRow, ProcessRow, SharedEvent, SharedStack, Slot, Stack};
use htl_taken::Gap;

/// The questions to an analyst. Each question has the name of the call that answers it, but for
/// `Tally`, which looks one count up in the whole tree.
#[derive(Debug, Drop)]
pub enum AnalystQuestion {
    /// Whether the analyst has taken a segment.
    Has { processor: u16, number: u32 },
    /// The number of segments that the analyst has taken.
    Taken,
    /// The number of events of the segments that the analyst has taken.
    Events,
    /// The segments that are missing.
    Gaps,
    /// The latest open or close of a handle of a process.
    Latest { process: u32, handle: u32 },
    /// The sequence of the latest snapshot of a process.
    Mark { process: u32 },
    /// The handles of a process that are open.
    Outstanding { process: u32 },
    /// The handles of a process that are open, and were opened after a sequence.
    Diff { process: u32, since: u64 },
    /// The stacks that opened handles of a process which are still open.
    Leaks { process: u32 },
    /// The references of a process to invalid handles.
    Bad { process: u32 },
    /// The references and dereferences of an object under each tag.
    Tags { object: u64 },
    /// The stacks behind a tag of an object. The tag's bytes are in the order in which they are
    /// shown.
    Stacks { object: u64, tag: [u8; 4] },
    /// How often a slot came with exactly one stack.
    Tally { slot: Slot, stack: Stack },
    /// How often a slot came with a stack that begins with a path, read from the outermost frame.
    Under { path: Vec<u64>, slot: Slot },
    /// The numbers of handles of each process.
    Processes,
    /// The number of objects that were referenced or dereferenced, and those that don't balance.
    Objects,
}

/// The answer to the question of the same name.
#[derive(Debug, Drop)]
pub enum AnalystAnswer {
    Has(bool),
    Taken(u64),
    Events(u64),
    Gaps(Vec<Gap>),
    Latest(Option<SharedEvent>),
    Mark(u64),
    Outstanding(Vec<SharedEvent>),
    Diff(Vec<SharedEvent>),
    /// Each stack, and how many of the handles that it opened are still open.
    Leaks(Vec<(SharedStack, u64)>),
    /// The handle as written, the stack, and how often it came.
    Bad(Vec<(u32, SharedStack, u64)>),
    Tags(Vec<([u8; 4], Count)>),
    Stacks(Vec<(SharedStack, Count)>),
    Tally(Count),
    Under(Count),
    Processes(Vec<ProcessRow>),
    Objects {
        number: u64,
        unbalanced: Vec<ObjectRow>,
    },
}
