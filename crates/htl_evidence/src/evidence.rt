//! What a question is answered from.

use crate::extent::Extent;
use htl_answers::Part;
use htl_event::{NoMemory, Span};
use std::alloc::Global;

/// What is kept of a trace, from which questions are answered: its events in parts, and how much
/// there is of it.
pub trait Evidence {
    ghost use Rattle.std.specs.Prelude.{◌≡◌, ◌<◌, ◌^◌, ℕ, Bool, true, map, IfOk, OnOk, Option};
    ghost use Rattle.htl_answers.specs.Parts.{size_of_all};
    ghost use Rattle.htl_segment.specs.Traces.{Trace};
    ghost use Rattle.htl_question.specs.declared.question.Question.{Question};
    ghost use Rattle.htl_question.specs.declared.question.Question.TheVariants as questions;
    ghost use Rattle.htl_evidence.specs.Bases.{IsExtentOf, IsSpanUntil};
    ghost use Rattle.htl_evidence.specs.Kept.{Kept, Tells};
    ghost use Rattle.htl_evidence.specs.Outlines.{extent_of};

    /// What is kept of some of the events.
    type Part: Part<Alloc = Global>;

    // Whether all events are kept one by one.
    ghost keeps_events: { Bool };

    ghost kept: { Self → Kept };

    // What is kept tells the answer to the question over the trace, as of the moment.
    ghost tells: { Self → Question → Trace → Option ℕ → Type 0 };

    /// What is kept of the events.
    fn parts(&self) -> &[Self::Part]
        ensures parts { map Self.Part.contents result.now ≡ (kept self.now).parts }
        ensures told { (question : Question) (T : Trace) (until : Option ℕ)
            → tells self.now question T until
            → Tells keeps_events (kept self.now) question T until };

    /// The number of the events. More than a `u64` can count would fit in no memory.
    fn events(&self) -> Result<u64, NoMemory>
        ensures value { IfOk result (λ number. number ≡ (kept self.now).number) }
        ensures few { OnOk result (size_of_all (kept self.now).parts < 2 ^ 64) };

    /// The moments from the first event of the trace to the last one that counts, where all events
    /// are kept.
    fn span(&self) -> Option<Span>
        ensures { (process points : ℕ) (T : Trace) (until : Option ℕ) → keeps_events ≡ true
            → tells self.now (questions.Growth process points) T until
            → IsSpanUntil T until result };

    /// How much there is of the trace.
    fn extent(&self, alloc: Global) -> Result<Extent, NoMemory>
        ensures { IfOk result (λ extent. (T : Trace) (until : Option ℕ)
            → tells self.now questions.Summary T until → IsExtentOf T (extent_of extent)) };
}
