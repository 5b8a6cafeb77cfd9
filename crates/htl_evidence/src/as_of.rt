//! A case as of a moment.

ghost use Rattle.std.specs.Prelude.{◌≡◌};
ghost use Rattle.htl_evidence.specs.Bases.{span_until};

use crate::evidence::Evidence;
use crate::extent::Extent;
use crate::owner::Owner;
use crate::unfolded::Unfolded;
use htl_case::Case;
use htl_event::{EventList, NoMemory, Span};
use std::alloc::Global;
use std::marker::Model;
use std::slice::from_ref;

/// A case of which events count up to a moment, or all where none is given: all of these, or those of
/// one process, object or handle.
#[derive(Drop)]
pub struct AsOf<'a, E: EventList> {
    case: &'a Case,
    until: Option<u64>,
    /// Whose events these are, where they aren't all.
    owner: Option<Owner>,
    part: Unfolded<'a, E>,
}

impl<'a, E: EventList> Model for AsOf<'a, E> {
    ghost use Rattle.std.specs.Prelude.{◌≡◌, flat_map};
    ghost use Rattle.htl_event.specs.Moments.{counted_events};
    ghost use Rattle.htl_segment.specs.Traces.{all_events};
    ghost use Rattle.htl_case.specs.Cases.{IsCase};
    ghost use Rattle.htl_evidence.specs.Kept.{contents_of, unfolded};
    ghost use Rattle.htl_evidence.specs.Told.{AsOf, as_of, own_events};

    ghost Value = { AsOf };

    ghost view = { λ e. as_of e.case.now e.until e.owner };

    ghost invariant = { λ e. IsCase e.case.now × (contents_of e.part.tree e.part.latest
        e.part.marks e.part.exits (flat_map E.events_of e.part.held.now) ≡ unfolded
        (own_events e.owner (counted_events e.until (all_events e.case.now.segments)))) };
}

impl<'a, E: EventList> AsOf<'a, E> {
    ghost use Rattle.std.specs.Prelude.{◌≡◌, flat_map};
    ghost use Rattle.htl_evidence.specs.Told.{as_of, own_events};
    ghost use Rattle.htl_event.specs.Moments.{counted_events};
    ghost use Rattle.htl_segment.specs.Traces.{all_events};

    /// The case with lists of the events until the moment (`Case::until`), or of those of a process,
    /// object or handle.
    pub fn new(
        alloc: Global,
        case: &'a Case,
        until: Option<u64>,
        owner: Option<Owner>,
        lists: &'a [E],
    ) -> AsOf<'a, E>
        requires { flat_map E.events_of lists.now
            ≡ own_events owner (counted_events until (all_events case.now.segments)) }
        ensures { result ≡ as_of case.now until owner }
    {
        // For the proof: what every case is.
        let _segments = case.segments();
        AsOf {
            case,
            until,
            owner,
            part: Unfolded::new(alloc, lists),
        }
    }
}

impl<'a, E: EventList> Evidence for AsOf<'a, E> {
    ghost use Rattle.std.specs.Prelude.{◌≡◌, true};
    ghost use Rattle.htl_evidence.specs.Kept.{one_by_one};
    ghost use Rattle.htl_evidence.specs.Told.{IsOfCase, counted_own};

    type Part = Unfolded<'a, E>;

    ghost keeps_events = { true };

    ghost kept = { λ e. one_by_one (counted_own e) };

    ghost tells = { λ e question T until. IsOfCase e question T until };

    fn parts(&self) -> &[Unfolded<'a, E>] {
        from_ref(&self.part)
    }

    fn events(&self) -> Result<u64, NoMemory> {
        self.part.number()
    }

    fn span(&self) -> Option<Span> {
        span_until(self.until, self.case.span())
    }

    fn extent(&self, alloc: Global) -> Result<Extent, NoMemory> {
        let outlines = self.case.outlines(alloc)?;
        Extent::of_outlines(alloc, self.case.processors(), &outlines)
    }
}

/// The part of the span up to a moment, or none if the moment is before its first sequence.
pub(crate) fn span_until(until: Option<u64>, span: Option<Span>) -> Option<Span>
    ensures { result ≡ span_until until span }
{
    match (until, span) {
        (Some(moment), Some(span)) if moment < span.first => None,
        (Some(moment), Some(Span { first, last })) => Some(Span {
            first,
            last: moment.min(last),
        }),
        (_, span) => span,
    }
}
