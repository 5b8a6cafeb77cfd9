//! Laws of sets of taken segments. Each function's contract is the law; none does anything when it
//! runs.

ghost use Rattle.htl_taken.specs.Laws.{UnitesKeys, IsUnionCommutative, IsUnionAssociative};
ghost use Rattle.htl_taken.specs.Laws.{IsUnionIdempotent};
ghost use Rattle.htl_taken.specs.Laws.{SettlesOnce, IsDetermined, CountsNumbers};
ghost use Rattle.htl_taken.specs.Gaps.{GapsAreDetermined};

/// `a.union(b)` has the segments of `a` and of `b`, and no other.
pub fn union_unites_keys()
    ensures { UnitesKeys }
{}

/// `a.union(b)` equals `b.union(a)`.
pub fn union_is_commutative()
    ensures { IsUnionCommutative }
{}

/// `a.union(b).union(c)` equals `a.union(b.union(c))`.
pub fn union_is_associative()
    ensures { IsUnionAssociative }
{}

/// `a.union(a)` equals `a`.
pub fn union_is_idempotent()
    ensures { IsUnionIdempotent }
{}

/// A front that was settled stays where it is when it is settled again.
pub fn settling_once_is_enough()
    ensures { SettlesOnce }
{}

/// Once every processor is settled, the segments alone determine fronts and loose numbers.
pub fn settled_sets_are_determined()
    ensures { IsDetermined }
{}

/// A processor's size is the number of its taken numbers.
pub fn size_counts_numbers()
    ensures { CountsNumbers }
{}

/// The gaps of a set are one list, and depend on its segments alone.
pub fn gaps_are_determined()
    ensures { GapsAreDetermined }
{}
