//! Rows in order.

ghost use Rattle.std.specs.Prelude.{◌≡◌, ◌↔◌, Contains};
ghost use Rattle.std.specs.declared.cmp.Ordering.TheVariants.{Less, Equal};
ghost use Rattle.htl_event.specs.Members.{IsRising};

/// Sorts rows, and leaves each in once.
pub fn put_in_order<T: Ord>(rows: &mut Vec<T>)
where
    T: Drop,
    requires { (x y : T) → T.cmp x y ≡ Equal → x ≡ y }
    ensures rising { IsRising (λ a b. T.cmp a b ≡ Less) rows.new.items }
    ensures members { (row : T) → Contains rows.new.items row ↔ Contains rows.old.items row }
{
    rows.sort_unstable();
    rows.dedup();
}
