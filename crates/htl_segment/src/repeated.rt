//! The least number that comes twice in a list.

ghost use Rattle.std.specs.Prelude.{ℕ, ◌<◌, ◌≤◌, MatchOption};
ghost use Rattle.std.specs.List.Sorted.{IsNonDecreasing};
ghost use Rattle.htl_event.specs.Members.{IsLeastSuch};
ghost use Rattle.htl_segment.specs.Repeated.{times};

/// The least number that comes twice. The numbers must not fall.
pub fn first_repeated(numbers: &[u64]) -> Option<u64>
    requires { IsNonDecreasing numbers.now }
    ensures { MatchOption result
        ((x : ℕ) → times x numbers.now ≤ 1)
        (IsLeastSuch ◌<◌ (λ x. 2 ≤ times x numbers.now)) }
{
    let (first, rest) = numbers.split_first()?;
    let mut last = *first;
    for number in rest {
        if *number == last {
            return Some(last);
        }
        last = *number;
    }
    None
}
