//! Keepers: they take segments as these are read, and make something of them.

use crate::segment::Segment;
use crate::segment_bytes::SegmentBytes;
use crate::stack_cache::StackCache;
use htl_event::NoMemory;
use std::alloc::Global;

/// Takes segments one after the other, as they are read, and makes something of them.
pub trait Keeper {
    ghost use Rattle.std.specs.Prelude.{◌++◌, ◌∷◌, List, [], OnOk};
    ghost use Rattle.htl_segment.specs.Content.{Content};

    // The second keeper is of the first one's kind, and took these segments.
    ghost gathers: { Self → Self → List Content → Type 0 };

    /// Takes the next segment.
    fn take(&mut self, alloc: Global, found: &SegmentBytes<'_>) -> Result<(), NoMemory>
        ensures { (kind : Self) (segments : List Content) → gathers kind self.old segments
            → OnOk result (gathers kind self.new (segments ++ found.now ∷ [])) };
}

/// A keeper whose work several workers can do: each has another of its kind, and one takes over what the
/// others took.
pub trait JoiningKeeper: Keeper {
    ghost use Rattle.std.specs.Prelude.{◌++◌, [], List, OnOk};
    ghost use Rattle.htl_segment.specs.Content.{Content};

    /// A new keeper of this kind. It took no segment yet.
    fn another(&self, alloc: Global) -> Self
        ensures { (kind : Self) (segments : List Content) → Self.gathers kind self.now segments
            → Self.gathers kind result [] };

    /// Takes over the segments that another keeper took, behind its own. The other one has none then.
    fn append(&mut self, other: &mut Self) -> Result<(), NoMemory>
        ensures taken { (kind : Self) (segments more : List Content)
            → Self.gathers kind self.old segments → Self.gathers kind other.old more
            → OnOk result (Self.gathers kind self.new (segments ++ more)) }
        ensures emptied { (kind : Self) (more : List Content) → Self.gathers kind other.old more
            → OnOk result (Self.gathers kind other.new []) };
}

/// Whole segments, in the order in which they were read.
#[derive(Debug, Drop)]
pub struct Segments {
    /// Stacks that were met lately, so that segments share equal ones.
    pub cache: StackCache,
    /// The segments that it took.
    pub list: Vec<Segment>,
}

impl Segments {
    ghost use Rattle.std.specs.Prelude.{◌≡◌, []};

    /// A keeper that took no segment yet.
    pub fn new(alloc: Global) -> Segments
        ensures { result.list.items ≡ [] }
    {
        Segments {
            cache: StackCache::new(alloc),
            list: Vec::new(alloc),
        }
    }
}

impl Keeper for Segments {
    ghost use Rattle.std.specs.Prelude.{◌≡◌};

    ghost gathers = { λ _ now segments. now.list.items ≡ segments };

    fn take(&mut self, alloc: Global, found: &SegmentBytes<'_>) -> Result<(), NoMemory> {
        let segment = found.to_segment_with(alloc, &mut self.cache)?;
        self.list.push(segment)?;
        Ok(())
    }
}

impl JoiningKeeper for Segments {
    fn another(&self, alloc: Global) -> Segments {
        Segments::new(alloc)
    }

    fn append(&mut self, other: &mut Segments) -> Result<(), NoMemory> {
        self.list.append(&mut other.list)?;
        Ok(())
    }
}
