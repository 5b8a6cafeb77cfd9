//! What is compared: what a call was made on, and what it answers.

ghost use Rattle.std.specs.Prelude.{◌≡◌, IsTrue};
ghost use Rattle.allocation_trials.specs.Lists.{AreSame};

use crate::refusal::Refusal;
use htl_analyst::Analyst;
use htl_case::Case;
use htl_segment::{Segment, Splitter};
use htl_tables::{EventKind, Greatest, Latest};
use htl_taken::Taken;
use htl_tree::StackTree;
use std::alloc::Global;

/// What can be compared with another one.
pub trait Same {
    // What holds of two that are the same.
    ghost IsSame: { Self → Self → Type 0 };

    /// Whether the two are the same. A trial fails by itself where two that are the same are taken
    /// for different ones, but never where two different ones are taken for the same: that is what
    /// the clause rules out.
    fn same(&self, other: &Self) -> bool
        ensures { IsTrue result → IsSame self.now other.now };

    /// Whether a call that was refused left this as it has to. `before` is what the call was made
    /// on: mostly nothing may have changed.
    fn is_kept(&self, before: &Self) -> bool {
        self.same(before)
    }
}

/// What compares by `==`.
#[derive(Drop)]
pub struct Equal<T>(pub T);

impl<T> Equal<T> {
    /// What a call answered, or why it gave no answer.
    pub fn of<E>(answered: Result<T, E>) -> Result<Equal<T>, Refusal>
    where
        Refusal: From<E>,
    {
        Ok(Equal(answered?))
    }
}

impl<T: PartialEq> Same for Equal<T> {
    ghost IsSame = { λ one two. IsTrue (T.eq one.0 two.0) };

    fn same(&self, other: &Equal<T>) -> bool {
        self.0 == other.0
    }
}

/// What a call only reads: its type says that it stays as it is, so there is nothing to compare.
#[derive(Drop)]
pub struct Lent<T>(pub T);

impl<T> Same for Lent<T> {
    ghost use Rattle.std.specs.Prelude.{⊤};

    ghost IsSame = { λ _ _. ⊤ };

    fn same(&self, _other: &Lent<T>) -> bool {
        true
    }
}

/// What a call takes for good, one for each time that it is made: nothing of it is left to compare
/// but their number, of which a second try takes one more.
#[derive(Drop)]
pub struct Spent<T>(pub Vec<T>);

impl<T> Same for Spent<T> {
    ghost use Rattle.std.specs.Prelude.{⊤};

    ghost IsSame = { λ _ _. ⊤ };

    fn same(&self, _other: &Spent<T>) -> bool {
        true
    }
}

impl<T: Same> Same for Vec<T> {
    ghost IsSame = { λ one two. AreSame T.IsSame one.items two.items };

    fn same(&self, other: &Vec<T>) -> bool {
        are_same(self, other)
    }
}

/// Whether two lists are of one length and the same at each place.
fn are_same<T: Same>(these: &[T], others: &[T]) -> bool
    ensures { IsTrue result → AreSame T.IsSame these.now others.now }
{
    if these.len() != others.len() {
        return false;
    }
    for (place, this) in these.iter().enumerate() {
        if !this.same(&others[place]) {
            return false;
        }
    }
    true
}

impl<T: Same> Same for Option<T> {
    ghost use Rattle.std.specs.Prelude.{None, IsSomeAnd, MatchOption};

    ghost IsSame = { λ one two. MatchOption one (two ≡ None) (λ a. IsSomeAnd two (T.IsSame a)) };

    fn same(&self, other: &Option<T>) -> bool {
        match (self, other) {
            (Some(one), Some(two)) => one.same(two),
            (None, None) => true,
            _ => false,
        }
    }

    fn is_kept(&self, before: &Option<T>) -> bool {
        match (self, before) {
            (Some(one), Some(two)) => one.is_kept(two),
            (None, None) => true,
            _ => false,
        }
    }
}

impl<A: Same, B: Same> Same for (A, B) {
    ghost IsSame = { λ one two. A.IsSame one.0 two.0 × B.IsSame one.1 two.1 };

    fn same(&self, other: &(A, B)) -> bool {
        self.0.same(&other.0) && self.1.same(&other.1)
    }
}

impl Same for Segment {
    ghost IsSame = { λ one two. one ≡ two };

    fn same(&self, other: &Segment) -> bool {
        Segment::same(self, other)
    }
}

/// A splitter says how many bytes it was fed. What it holds of them shows in what it answers next.
impl Same for Splitter {
    ghost IsSame = { λ one two. one.fed ≡ two.fed };

    fn same(&self, other: &Splitter) -> bool {
        self.fed() == other.fed()
    }
}

impl Same for StackTree<Global> {
    ghost IsSame = { λ one two. one ≡ two };

    fn same(&self, other: &StackTree<Global>) -> bool {
        StackTree::same(self, other) && self.total() == other.total()
    }
}

impl Same for Latest<Global> {
    ghost IsSame = { λ one two. one ≡ two };

    fn same(&self, other: &Latest<Global>) -> bool {
        Latest::same(self, other)
    }
}

impl<K: EventKind> Same for Greatest<K, Global> {
    ghost IsSame = { λ one two. one ≡ two };

    fn same(&self, other: &Greatest<K, Global>) -> bool {
        Greatest::same(self, other)
    }
}

impl Same for Taken<Global> {
    ghost IsSame = { λ one two. one ≡ two };

    fn same(&self, other: &Taken<Global>) -> bool {
        Taken::same(self, other)
    }
}

impl Same for Analyst<Global> {
    ghost use Rattle.htl_analyst.specs.Same.{IsSame as IsSameState};

    ghost IsSame = { IsSameState };

    fn same(&self, other: &Analyst<Global>) -> bool {
        Analyst::same(self, other)
    }
}

impl Same for Case {
    ghost IsSame = { λ one two. one ≡ two };

    fn same(&self, other: &Case) -> bool {
        if self.trace_id() != other.trace_id() || self.processors() != other.processors() {
            return false;
        }
        are_same(self.segments(), other.segments())
    }
}
