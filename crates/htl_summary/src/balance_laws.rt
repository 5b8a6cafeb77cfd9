//! Laws of balances. Each function's contract is the law; none does anything when it runs.

ghost use Rattle.std.specs.Prelude.{List};
ghost use Rattle.htl_event.specs.Events.{Event};
ghost use Rattle.htl_summary.specs.BalanceLaws.{BalancesAddUp, TagIsSumOfObjects};

/// The references and dereferences under a tag are the sum of its balances on all objects.
#[tactic(auto, using(crate::proofs::BalanceLaws::tag_is_sum_of_objects))]
pub fn tag_is_sum_of_objects()
    ensures { TagIsSumOfObjects }
{}

/// The sum of the objects of all balances is the sum of the unbalanced tags of all objects, whether
/// or not tags that balance are listed.
pub fn balances_add_up()
    ensures { (events : List Event) → BalancesAddUp events }
{}
