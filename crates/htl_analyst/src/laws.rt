//! Laws of analysts that are right about one trace. Each function's contract is the law; none does
//! anything when it runs. `take_twice` shows what a caller knows by the contract of `take` alone.

ghost use Rattle.std.specs.Prelude.{◌≡◌, ◌≤◌, ◌+◌};
ghost use Rattle.htl_analyst.specs.Keys.{number_taken};
ghost use Rattle.htl_analyst.specs.Laws.{IsDetermined, IsCommutative, IsAssociative, IsIdempotent};
ghost use Rattle.htl_analyst.specs.Laws.{IsLeastMerge, AreEqualOnceCompacted, Agree, UnitesKeys};
ghost use Rattle.htl_analyst.specs.Laws.{NothingComesLater, TracesAreCollections, AreMadeAgain};

use crate::analyst::Analyst;
use htl_segment::Segment;
use std::alloc::Allocator;

/// Fronts and loose numbers determine what an analyst knows.
pub fn states_are_determined()
    ensures { IsDetermined }
{}

/// A merge is commutative: either of two analysts may be merged into the other.
pub fn merge_is_commutative()
    ensures { IsCommutative }
{}

/// A merge is associative: any two of three analysts may be merged first.
pub fn merge_is_associative()
    ensures { IsAssociative }
{}

/// A merge is idempotent: an analyst merged with itself knows what it knew.
pub fn merge_is_idempotent()
    ensures { IsIdempotent }
{}

/// A merge is the least state above both.
pub fn merge_is_least()
    ensures { IsLeastMerge }
{}

/// A merge has the segments of both, and no other.
pub fn merge_unites_keys()
    ensures { UnitesKeys }
{}

/// Analysts that took the same segments are the same once compacted.
pub fn equal_once_compacted()
    ensures { AreEqualOnceCompacted }
{}

/// Analysts that took the same segments agree: every answer is the definition's over the same
/// events.
pub fn analysts_agree()
    ensures { Agree }
{}

/// No later take or merge brings an event at or below the moment up to which an analyst is
/// complete.
pub fn nothing_comes_later()
    ensures { NothingComesLater }
{}

/// Every trace is a collection, so what holds of states that are right about a collection holds for
/// traces.
pub fn traces_are_collections()
    ensures { TracesAreCollections }
{}

/// An analyst is made again of what it has folded and what it holds: `Analyst::of_parts` refuses
/// its folds only if memory is refused, and `take` takes each held segment after it as a new one.
pub fn analysts_are_made_again()
    ensures { AreMadeAgain }
{}

// A segment that is taken twice counts once at most.
fn take_twice<A: Allocator>(analyst: &mut Analyst<A>, segment: Segment, again: Segment)
    requires { again ≡ segment }
    ensures { number_taken analyst.new ≤ number_taken analyst.old + 1 }
{
    let _first = analyst.take(segment);
    let _second = analyst.take(again);
}
