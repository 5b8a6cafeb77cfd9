//! Picks: what a question needs of segments.

ghost use Rattle.std.specs.Prelude.{◌≡◌, ◌++◌, IfOk};
ghost use Rattle.htl_segment.specs.Picks.{events_in};

use crate::keeper::{JoiningKeeper, Keeper};
use crate::outline::Outline;
use crate::seen::Seen;
use crate::segment_bytes::SegmentBytes;
use crate::stack_cache::StackCache;
use htl_event::{Interest, NoMemory, SharedEvent};
use std::alloc::Global;

/// The most events of a list, which take 12 MiB.
const LIST_LEN: usize = 1 << 18;

/// What a question needs of segments: their outlines, the events that it asks about, and the
/// sequences of all events.
#[derive(Debug, Drop)]
pub struct Picks {
    interest: Interest,
    cache: StackCache,
    /// The outlines of the segments, in the order in which they were read.
    pub outlines: Vec<Outline>,
    /// The events that the question asks about, in the order in which they were read. They are in
    /// lists of at most `LIST_LEN`, so that few are moved while a list grows, and none where the picks
    /// of several workers are joined.
    pub lists: Vec<Vec<SharedEvent>>,
    /// The sequences of all events.
    pub seen: Seen,
}

impl Picks {
    ghost use Rattle.std.specs.Prelude.{[]};
    ghost use Rattle.htl_segment.specs.Picks.{ArePicksOf};

    /// Picks of no segment.
    pub fn new(alloc: Global, interest: Interest) -> Picks
        ensures { ArePicksOf interest result [] }
    {
        Picks {
            interest,
            cache: StackCache::new(alloc),
            outlines: Vec::new(alloc),
            lists: Vec::new(alloc),
            seen: Seen::new(alloc),
        }
    }
}

impl Keeper for Picks {
    ghost use Rattle.htl_segment.specs.Picks.{ArePicksOf};

    ghost gathers = { λ kind now segments. ArePicksOf kind.interest now segments };

    fn take(&mut self, alloc: Global, found: &SegmentBytes<'_>) -> Result<(), NoMemory> {
        let mut list = take_last(alloc, &mut self.lists, found.number_of_events())?;
        let last = found.pick_with(
            alloc,
            &mut self.cache,
            self.interest,
            &mut self.seen,
            &mut list,
        )?;
        self.lists.push(list)?;
        self.outlines.push(found.outline(last))?;
        Ok(())
    }
}

impl JoiningKeeper for Picks {
    fn another(&self, alloc: Global) -> Picks {
        Picks::new(alloc, self.interest)
    }

    fn append(&mut self, other: &mut Picks) -> Result<(), NoMemory> {
        self.outlines.append(&mut other.outlines)?;
        self.lists.append(&mut other.lists)?;
        self.seen.append(&mut other.seen)?;
        Ok(())
    }
}

/// Takes off the last list, or gives an empty one where there is none, or where the last would be too
/// long with this many events more. Then the new one is likely to be as long, and has room for that.
fn take_last(
    alloc: Global,
    lists: &mut Vec<Vec<SharedEvent>>,
    more: usize,
) -> Result<Vec<SharedEvent>, NoMemory>
    ensures { IfOk result (λ last.
        events_in lists.old.items ≡ events_in lists.new.items ++ last.items) }
{
    match lists.pop() {
        Some(list) if list.len().saturating_add(more) <= LIST_LEN => Ok(list),
        Some(list) => {
            lists.push(list)?;
            Ok(Vec::with_capacity(alloc, LIST_LEN)?)
        }
        None => Ok(Vec::new(alloc)),
    }
}
