//! Laws of the definitions. Each function's contract is the law; none does anything when it runs.

ghost use Rattle.std.specs.Prelude.{List, ℕ};
ghost use Rattle.std.specs.List.Sorted.{IsPermutation};
ghost use Rattle.htl_event.specs.Balances.{BalancesAreDetermined};
ghost use Rattle.htl_event.specs.Events.{Event};
ghost use Rattle.htl_event.specs.Interests.{HaveSameOpenHandles, ProcessNeedsItsOwn};
ghost use Rattle.htl_event.specs.Interests.{ListingNeedsItsHandle, ObjectNeedsItsOwn, SitesNeedHandles};
ghost use Rattle.htl_event.specs.Interests.{SummaryNeedsNoStack, wanted};
ghost use Rattle.htl_event.specs.Interests.{BalancesNeedNoStack, StacksNeedTheirTag};
ghost use Rattle.htl_event.specs.Laws.{HaveSame, HandlesAreDetermined};
ghost use Rattle.htl_event.specs.Laws.{CountsAreDetermined, CountsAddUp, IsUnion};
ghost use Rattle.htl_event.specs.Laws.{LaterOfBoth, PrefixTallyIsSum, BalanceIsSum};
ghost use Rattle.htl_event.specs.Slots.{base_of};
ghost use Rattle.htl_event.specs.Summaries.{SummariesAreDetermined};

use crate::interest::Interest;

/// Each answer about handles is the only one, and depends on which events there are and not on
/// their order. Only for the latest event this needs that no two events have one sequence.
pub fn handles_are_determined()
    ensures { (xs ys : List Event) → HaveSame xs ys → HandlesAreDetermined xs ys }
{}

/// Each answer about counts is the only one, and depends on how often each event is there, and not
/// on their order.
pub fn counts_are_determined()
    ensures { (xs ys : List Event) → IsPermutation xs ys → CountsAreDetermined xs ys }
{}

/// Each answer of a summary is the only one, and depends on how often each event is there, and not
/// on their order.
pub fn summaries_are_determined()
    ensures { (xs ys : List Event) → IsPermutation xs ys → SummariesAreDetermined xs ys }
{}

/// Each answer about balances over all objects is the only one, and depends on how often each event
/// is there, and not on their order.
pub fn balances_are_determined()
    ensures { (xs ys : List Event) → IsPermutation xs ys → BalancesAreDetermined xs ys }
{}

/// Counts over two lists put together are the sums of the counts over each.
pub fn counts_add_up()
    ensures { (xs ys : List Event) → CountsAddUp xs ys }
{}

/// The latest event, mark, last exit and greatest sequence over a union of two lists are the later
/// and the greater of those over each, also where they have events in common.
pub fn later_of_both()
    ensures { (xs ys zs : List Event) → IsUnion xs ys zs → LaterOfBoth xs ys zs }
{}

/// The prefix tally is the sum of the tally over all stacks that begin with the path.
pub fn prefix_tally_is_sum()
    ensures { PrefixTallyIsSum }
{}

/// The balance of a tag is the sum of its tally over all stacks.
pub fn balance_is_sum()
    ensures { BalanceIsSum }
{}

/// An answer about a process, a handle or an object over all events is the one over its own events
/// alone, in whatever order these are. An answer about a process's open handles needs its opens,
/// closes, snapshots and exits alone, and the stacks of opens, and sites need those of all
/// processes. A summary needs all events, but none of their stacks.
pub fn answers_need_what_is_wanted()
    ensures process { (process : ℕ) (events own : List Event)
        → IsPermutation (wanted (Interest.Process process) events) own
        → ProcessNeedsItsOwn process events own }
    ensures handle { (process handle : ℕ) (events own : List Event)
        → IsPermutation (wanted (Interest.Handle process (base_of handle)) events) own
        → ListingNeedsItsHandle process handle events own }
    ensures open_handles { (process : ℕ) (events own : List Event)
        → IsPermutation (wanted (Interest.OpenHandles process) events) own
        → HaveSameOpenHandles process events own }
    ensures all_handles { (events own : List Event)
        → IsPermutation (wanted Interest.AllHandles events) own
        → SitesNeedHandles events own }
    ensures object { (object : ℕ) (events own : List Event)
        → IsPermutation (wanted (Interest.Object object) events) own
        → ObjectNeedsItsOwn object events own }
    ensures summary { (events own : List Event)
        → IsPermutation (wanted Interest.AllEvents events) own
        → SummaryNeedsNoStack events own }
    ensures balances { (events own : List Event)
        → IsPermutation (wanted Interest.AllEvents events) own
        → BalancesNeedNoStack events own }
    ensures tag { (tag : List ℕ) (events own : List Event)
        → IsPermutation (wanted (Interest.Tag tag) events) own
        → StacksNeedTheirTag tag events own }
{}
