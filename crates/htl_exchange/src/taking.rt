//! Taking in what a desk has in hand.
ghost use Rattle.std.specs.Prelude.{◌↔◌, ◌⊎◌, ℕ, Some, OnOk, IfErr, Contains};
ghost use Rattle.htl_segment.specs.Traces.{Trace};
ghost use Rattle.htl_analyst.specs.Keys.{HasTaken};
ghost use Rattle.htl_analyst.specs.Right.{IsRight, KeysAreIn};
ghost use Rattle.htl_exchange.specs.Parcels.{Brings, IsOf, HasSegment};
ghost use Rattle.htl_exchange.specs.Collects.{IsLeftInHand};
ghost use Rattle.htl_segment.specs.Content.{Content};

use crate::parcel::Parcel;
use htl_analyst::{Analyst, MergeFault, TakeFault};
use htl_segment::Segment;
use std::alloc::Global;

/// Takes in a parcel of the trace that the analyst is right about. What of it isn't taken in when
/// memory is refused comes back.
pub(crate) fn take_parcel(analyst: &mut Analyst<Global>, parcel: Parcel) -> Result<(), Parcel>
    requires { (T : Trace) × IsRight analyst.old T × IsOf T parcel }
    ensures grows { KeysAreIn analyst.old analyst.new }
    ensures right { (T : Trace) → IsRight analyst.old T → IsOf T parcel → IsRight analyst.new T }
    ensures taken { OnOk result ((p n : ℕ) → HasTaken analyst.new p n
        ↔ (HasTaken analyst.old p n ⊎ Brings parcel p n)) }
    ensures rest { IfErr result (λ rest. (T : Trace) → IsOf T parcel → IsOf T rest) }
    ensures left { IfErr result (λ rest. (p n : ℕ) → (HasTaken analyst.new p n ⊎ Brings rest p n)
        ↔ (HasTaken analyst.old p n ⊎ Brings parcel p n)) }
    ensures refused { IfErr result (λ rest. IsLeftInHand analyst.old analyst.new (Some rest)) }
{
    match parcel {
        Parcel::Run(segments, case) => match take_run(analyst, segments) {
            Ok(()) => Ok(()),
            Err(rest) => Err(Parcel::Run(rest, case)),
        },
        Parcel::State(state) => match analyst.absorb(state) {
            Ok(()) => Ok(()),
            Err((MergeFault::NoMemory, state)) => Err(Parcel::State(state)),
            // Both are right about one trace.
            Err(_) => unreachable!(),
        },
    }
}

// Takes segments, the last first. The rest comes back where one is refused.
fn take_run(analyst: &mut Analyst<Global>, segments: Vec<Segment>) -> Result<(), Vec<Segment>>
    requires { (T : Trace) × IsRight analyst.old T
        × ((s : Content) → Contains segments.items s → Contains T.segments s) }
    ensures grows { KeysAreIn analyst.old analyst.new }
    ensures right { (T : Trace) → IsRight analyst.old T
        → ((s : Content) → Contains segments.items s → Contains T.segments s)
        → IsRight analyst.new T }
    ensures taken { OnOk result ((p n : ℕ) → HasTaken analyst.new p n
        ↔ (HasTaken analyst.old p n ⊎ HasSegment segments.items p n)) }
    ensures rest { IfErr result (λ rest. (s : Content) → Contains rest.items s
        → Contains segments.items s) }
    ensures left { IfErr result (λ rest. (p n : ℕ) → (HasTaken analyst.new p n
        ⊎ HasSegment rest.items p n)
        ↔ (HasTaken analyst.old p n ⊎ HasSegment segments.items p n)) }
    ensures refused { IfErr result (λ rest. (s : Content) × Contains rest.items s
        × (HasTaken analyst.new s.processor s.number → ⊥)) }
{
    let mut rest = segments;
    while let Some(segment) = rest.pop() {
        match analyst.take(segment) {
            Ok(_) => {}
            Err((TakeFault::NoMemory, segment)) => {
                rest.push_reserved(segment);
                return Err(rest);
            }
            // The segment is one of the trace that the analyst is right about.
            Err(_) => unreachable!(),
        }
    }
    Ok(())
}
