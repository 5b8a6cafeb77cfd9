//! Rows in order, the greatest number first.

ghost use Rattle.std.specs.Prelude.{◌≡◌, ◌≢◌, ◌↔◌, Contains, filter, map, nat_lt};
ghost use Rattle.std.specs.declared.cmp.Ordering.TheVariants.{Less};
ghost use Rattle.htl_event.specs.Members.{IsRising};
ghost use Rattle.htl_summary.specs.Ranking.{rank_cmp};

use std::cmp::Ordering;

/// A row with a number, by which it stands in an answer, and with a key of its own.
pub(crate) trait Ranked: Drop {
    ghost use Rattle.std.specs.Prelude.{◌≡◌, ℕ};
    ghost use Rattle.std.specs.declared.cmp.Ordering.TheVariants.{Equal};

    type Key: Ord;

    ghost number_of: { Self → ℕ };

    ghost key_of: { Self → Self.Key };

    fn number(&self) -> u64
        ensures { result ≡ number_of self.now };

    fn key(&self) -> &Self::Key
        ensures { result.now ≡ key_of self.now };

    /// Keys that tie are equal.
    ghost proper: { (x y : Self.Key) → Self.Key.cmp x y ≡ Equal → x ≡ y };
}

/// Keeps the rows whose number isn't 0.
pub(crate) fn keep_counted<R: Ranked>(rows: &mut Vec<R>)
    ensures { rows.new.items ≡ filter (λ (row : R). nat_lt 0 (R.number_of row)) rows.old.items }
{
    rows.retain(|row| row.number() > 0);
}

/// Puts rows of different keys in order: those with the greatest number first, and then by key.
pub(crate) fn put_most_first<R: Ranked>(rows: &mut Vec<R>)
    requires { IsRising (λ x y. x ≢ y) (map R.key_of rows.old.items) }
    ensures rising { IsRising (λ a b. rank_cmp R.Key.cmp R.number_of R.key_of a b ≡ Less)
        rows.new.items }
    ensures members { (row : R) → Contains rows.new.items row ↔ Contains rows.old.items row }
{
    rows.sort_unstable_by(|one, other| by_rank(one, other));
}

fn by_rank<R: Ranked>(one: &R, other: &R) -> Ordering
    ensures { result ≡ rank_cmp R.Key.cmp R.number_of R.key_of one.now other.now }
{
    other
        .number()
        .cmp(&one.number())
        .then(one.key().cmp(other.key()))
}
