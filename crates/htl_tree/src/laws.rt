//! Laws of trees. Each function's contract is the law; none does anything when it runs.

ghost use Rattle.std.specs.Prelude.{◌≡◌, ◌<◌, ◌^◌, ℕ, List, [], map};
ghost use Rattle.htl_event.specs.Events.{Event};
ghost use Rattle.htl_event.specs.declared.slot.Slot.{Slot};
ghost use Rattle.htl_event.specs.declared.slot.Slot.TheVariants.{Tagged};
ghost use Rattle.htl_event.specs.declared.slot.Count.{Count};
ghost use Rattle.htl_event.specs.Tallies.{balance, IsStacks};
ghost use Rattle.htl_tree.specs.Trees.{Tree, IsTree, IsSameTally, HasTally, count_under, ListsRows};
ghost use Rattle.htl_tree.specs.Trees.{ListsRowsOf, IsTally, total_count, by_stack};
ghost use Rattle.htl_tree.specs.declared.slots.Slots.TheVariants.{All};

/// Canonical form: trees that count the same are one tree.
pub fn equal_tallies_have_one_tree()
    ensures { (tree other : Tree) → IsTree tree → IsTree other
        → IsSameTally tree other → tree ≡ other }
{}

/// The sum of a slot of references over all stacks is the balance of its tag over the tree's
/// events.
pub fn sums_are_balances()
    ensures { (tree : Tree) (events : List Event) → IsTree tree → HasTally tree events
        → (object : ℕ) (tag : List ℕ)
        → count_under tree [] (Tagged object tag) ≡ balance events object tag }
{}

/// The rows of a slot of references are the reference stacks over the tree's events.
pub fn rows_are_reference_stacks()
    ensures { (tree : Tree) (events : List Event) → HasTally tree events
        → (object : ℕ) (tag : List ℕ) (rows : List (List ℕ × Count))
        → ListsRows tree (Tagged object tag) rows
        → IsStacks events object tag rows }
{}

/// There and back: all rows that `rows_of` lists of a tree are a tally, and `of_rows` makes the same
/// tree of them.
pub fn all_rows_make_their_tree()
    ensures { (tree : Tree) (rows : List ((Slot × List ℕ) × Count)) → IsTree tree
        → total_count tree < 2 ^ 64 → ListsRowsOf tree All rows
        → IsTally rows × (map by_stack rows ≡ tree) }
{}
