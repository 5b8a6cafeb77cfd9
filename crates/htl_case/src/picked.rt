//! Picked cases: they have only the events that one question asks about.

ghost use Rattle.std.specs.Prelude.{◌≡◌};
ghost use Rattle.htl_event.specs.Moments.{events_until};
ghost use Rattle.htl_segment.specs.Picks.{events_in};

use crate::outlines::{key_comes_twice, processors_of, sort_by_key};
use crate::rising::falling;
use htl_event::SharedEvent;
use htl_segment::{Outline, Picks};
use std::marker::Model;

/// A case, as far as one question needs it: an outline of each segment, and the lists of the events
/// that are asked about.
#[derive(Debug, Drop)]
pub struct PickedCase {
    processors: u16,
    outlines: Vec<Outline>,
    lists: Vec<Vec<SharedEvent>>,
}

impl Model for PickedCase {
    ghost use Rattle.htl_segment.specs.Picks.{events_in};
    ghost use Rattle.htl_case.specs.Picked.{Picked, picked};

    ghost Value = { Picked };

    ghost view = { λ c. picked c.processors c.outlines.items (events_in c.lists.items) };
}

impl PickedCase {
    ghost use Rattle.std.specs.Prelude.{◌≡◌, List, All, IfSome, IfNone};
    ghost use Rattle.htl_event.specs.Moments.{counted_events};
    ghost use Rattle.htl_event.specs.declared.interest.Interest.{Interest};
    ghost use Rattle.htl_segment.specs.Content.{Content, Fits};
    ghost use Rattle.htl_segment.specs.Picks.{ArePicksOf, events_in};
    ghost use Rattle.htl_segment.specs.Traces.{Trace};
    ghost use Rattle.htl_case.specs.Cases.{IsCaseOf};
    ghost use Rattle.htl_case.specs.Picked.{picked, IsPickedOf, IsPickedUntil, NeedsWhole};

    /// The case of what was picked of segments, which may come in any order. It takes no memory.
    /// There is none if a key comes twice or the segments don't form a case; which of these it is,
    /// only whole segments tell.
    pub fn of(picks: Picks) -> Option<PickedCase>
        ensures some { IfSome result (λ case.
            (interest : Interest) (segments : List Content)
            → ArePicksOf interest picks segments → All Fits segments
            → (T : Trace) × IsCaseOf segments T × IsPickedOf interest T case) }
        ensures none { IfNone result
            ((interest : Interest) (segments : List Content)
            → ArePicksOf interest picks segments → All Fits segments → NeedsWhole segments) }
    {
        let Picks {
            mut outlines,
            lists,
            seen,
            ..
        } = picks;
        let processors = processors_of(&outlines)?;
        sort_by_key(&mut outlines);
        if key_comes_twice(&outlines) || seen.comes_twice() || falling(&outlines).is_some() {
            return None;
        }
        Some(PickedCase {
            processors,
            outlines,
            lists,
        })
    }

    /// Drops the events after the moment, where one is given. Nothing else changes.
    pub fn keep_until(&mut self, until: Option<u64>)
        ensures value { self.new
            ≡ picked self.old.processors self.old.outlines (counted_events until self.old.events) }
        ensures until { (interest : Interest) (T : Trace) → IsPickedOf interest T self.old
            → IsPickedUntil interest T until self.new }
    {
        if let Some(moment) = until {
            drop_all_after(&mut self.lists, moment);
        }
    }

    /// The number of processors of the trace.
    pub fn processors(&self) -> u16
        ensures { result ≡ self.now.processors }
    {
        self.processors
    }

    /// The outlines of all segments, by processor, then by number.
    pub fn outlines(&self) -> &[Outline]
        ensures { result.now ≡ self.now.outlines }
    {
        self.outlines.as_slice()
    }

    /// The lists of the events in hand, in any order: those that the question asks about, less what
    /// was dropped.
    pub fn lists(&self) -> &[Vec<SharedEvent>]
        ensures { events_in result.now ≡ self.now.events }
    {
        self.lists.as_slice()
    }
}

/// Drops the events after the moment from lists.
fn drop_all_after(lists: &mut Vec<Vec<SharedEvent>>, moment: u64)
    ensures { events_in lists.new.items ≡ events_until moment (events_in lists.old.items) }
{
    for list in lists.iter_mut() {
        drop_after(list, moment);
    }
}

/// Drops the events after the moment.
fn drop_after(events: &mut Vec<SharedEvent>, moment: u64)
    ensures { events.new.items ≡ events_until moment events.old.items }
{
    events.retain(|event| event.sequence <= moment);
}
