//! What was picked of a case.

use crate::as_of::span_until;
use crate::evidence::Evidence;
use crate::extent::Extent;
use crate::unfolded::Unfolded;
use htl_answers::Part;
use htl_case::PickedCase;
use htl_event::{NoMemory, SharedEvent, Span};
use std::alloc::Global;
use std::marker::Model;
use std::slice::from_ref;

/// What was picked of a case, of which events count up to a moment, or all where none is given.
#[derive(Drop)]
pub struct Picks<'a> {
    case: &'a PickedCase,
    until: Option<u64>,
    part: Unfolded<'a, Vec<SharedEvent>>,
}

impl<'a> Model for Picks<'a> {
    ghost use Rattle.std.specs.Prelude.{◌≡◌};
    ghost use Rattle.htl_evidence.specs.Kept.{unfolded};
    ghost use Rattle.htl_evidence.specs.Told.{PicksUntil, picks_until};

    ghost Value = { PicksUntil };

    ghost view = { λ e. picks_until e.case.now e.until };

    ghost invariant = { λ e. ⟦<Unfolded<'static, Vec<SharedEvent>> as Part>⟧.contents e.part
        ≡ unfolded e.case.now.events };
}

impl<'a> Picks<'a> {
    ghost use Rattle.std.specs.Prelude.{◌≡◌};
    ghost use Rattle.htl_evidence.specs.Told.{picks_until};

    /// What was picked, of which nothing is later than the moment (`PickedCase::keep_until`).
    pub fn new(alloc: Global, case: &'a PickedCase, until: Option<u64>) -> Picks<'a>
        ensures { result ≡ picks_until case.now until }
    {
        Picks {
            case,
            until,
            part: Unfolded::new(alloc, case.lists()),
        }
    }
}

impl<'a> Evidence for Picks<'a> {
    ghost use Rattle.std.specs.Prelude.{true};
    ghost use Rattle.htl_evidence.specs.Kept.{one_by_one};
    ghost use Rattle.htl_evidence.specs.Told.{ArePicksFor};

    type Part = Unfolded<'a, Vec<SharedEvent>>;

    ghost keeps_events = { true };

    ghost kept = { λ e. one_by_one e.picked.events };

    ghost tells = { λ e question T until. ArePicksFor e question T until };

    #[tactic(auto, using(crate::proofs::TellLaws::told_picks))]
    fn parts(&self) -> &[Unfolded<'a, Vec<SharedEvent>>] {
        from_ref(&self.part)
    }

    fn events(&self) -> Result<u64, NoMemory> {
        self.part.number()
    }

    fn span(&self) -> Option<Span> {
        span_until(self.until, self.case.span())
    }

    fn extent(&self, alloc: Global) -> Result<Extent, NoMemory> {
        Extent::of_outlines(alloc, self.case.processors(), self.case.outlines())
    }
}
