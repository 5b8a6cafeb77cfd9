//! What an analyst folded.

use crate::evidence::Evidence;
use crate::extent::Extent;
use htl_analyst::{Analyst, Part};
use htl_event::{NoMemory, Span};
use std::alloc::Global;

/// What an analyst folded of the segments that it took.
#[derive(Drop)]
pub struct Folds<'a> {
    pub analyst: &'a Analyst<Global>,
}

impl Evidence for Folds<'_> {
    ghost use Rattle.std.specs.Prelude.{false};
    ghost use Rattle.htl_evidence.specs.Told.{AreFoldsOf, folds};

    type Part = Part<Global>;

    ghost keeps_events = { false };

    ghost kept = { λ e. folds e.analyst.now };

    ghost tells = { λ e question T until. AreFoldsOf e.analyst.now question T until };

    #[tactic(auto, using(crate::proofs::TellLaws::told_folds))]
    fn parts(&self) -> &[Part<Global>] {
        self.analyst.parts()
    }

    fn events(&self) -> Result<u64, NoMemory> {
        // For the proof: the counts of its parts fit.
        let _parts = self.analyst.parts();
        Ok(self.analyst.events())
    }

    fn span(&self) -> Option<Span> {
        None
    }

    fn extent(&self, alloc: Global) -> Result<Extent, NoMemory> {
        Extent::of_analyst(alloc, self.analyst)
    }
}
