//! The balances of tags, and of the stacks of a tag, over all objects. The balances of each object are
//! added up by tag or by stack.

ghost use Rattle.std.specs.Prelude.{◌≡◌, ◌<◌, ◌^◌, List, map, IfOk};
ghost use Rattle.std.specs.List.{filter_map};
ghost use Rattle.std.specs.declared.cmp.Ordering.TheVariants.{Equal};
ghost use Rattle.htl_event.specs.Events.{Event};
ghost use Rattle.htl_event.specs.declared.slot.Slot.{Slot};
ghost use Rattle.htl_event.specs.declared.slot.Count.{Count};
ghost use Rattle.htl_event.specs.Summaries.{IsNumberOfObjects};
ghost use Rattle.htl_event.specs.Balances.{AreBalances, AreTagStacks};
ghost use Rattle.htl_answers.specs.Parts.{AreEventsOf, size_of_all};
ghost use Rattle.htl_summary.specs.Balancing.{tag_balance, listed, is_tagged, stack_balance};
ghost use Rattle.htl_summary.specs.Balancing.{AreAdded, Fit, IsAdded};

use crate::by_object::balances_of_slots;
use crate::ranking::{Ranked, keep_counted, put_most_first};
use htl_answers::{Part, slot_sums, whole_tree};
use htl_event::{Balance, Count, NoMemory, SharedStack, Slot};
use htl_tree::Slots;
use std::alloc::{AllocError, Global};

/// The balances of tags over all objects.
#[derive(Drop)]
pub struct TagBalances {
    /// The number of objects with an event.
    pub objects: u64,
    /// The rows of tags, those that don't balance on the most objects first, and then by their bytes.
    pub tags: Vec<Balance<[u8; 4]>>,
}

/// The tags that don't balance on some object, or all that an event names: how often objects were
/// referenced and dereferenced under each, and on how many of them it doesn't balance.
pub fn tag_balances<P: Part>(alloc: Global, parts: &[P], all: bool) -> Result<TagBalances, NoMemory>
    requires { size_of_all (map P.contents parts.now) < 2 ^ 64 }
    ensures objects { IfOk result (λ balances. (events : List Event)
        → AreEventsOf (map P.contents parts.now) events
        → IsNumberOfObjects events balances.objects) }
    ensures tags { IfOk result (λ balances. (events : List Event)
        → AreEventsOf (map P.contents parts.now) events
        → AreBalances events all balances.tags.items) }
{
    let sums = slot_sums(alloc, parts)?;
    let objects = balances_of_slots(alloc, &sums)?.number;
    let mut tags = each_balance(alloc, &sums)?;
    add_up(&mut tags);
    keep_listed(&mut tags, all);
    put_most_first(&mut tags);
    Ok(TagBalances { objects, tags })
}

/// The balance of each tag of each object.
fn each_balance(alloc: Global, sums: &[(Slot, Count)]) -> Result<Vec<Balance<[u8; 4]>>, AllocError>
    ensures { IfOk result (λ rows. rows.items
        ≡ filter_map (λ (sum : Slot × Count). tag_balance sum.0 sum.1) sums.now) }
{
    sums.iter()
        .filter_map(|(slot, count)| tag_balance(*slot, *count))
        .collect(alloc)
}

/// The balance of the slot's tag, if it has one.
fn tag_balance(slot: Slot, count: Count) -> Option<Balance<[u8; 4]>>
    ensures { result ≡ tag_balance slot count }
{
    match slot {
        Slot::Tagged { tag, .. } => Some(Balance {
            by: tag,
            count,
            objects: if count.plus == count.minus { 0 } else { 1 },
        }),
        Slot::Handles { .. } | Slot::Bad { .. } => None,
    }
}

/// Keeps the rows of tags that don't balance on some object, or all.
fn keep_listed(rows: &mut Vec<Balance<[u8; 4]>>, all: bool)
    ensures { rows.new.items ≡ listed all rows.old.items }
{
    if !all {
        keep_counted(rows);
    }
}

/// The stacks that referenced or dereferenced an object under the tag, in stack order: how often
/// they did so, and how many objects each did it to. The one tree of all parts, which is made under
/// `tree_alloc`, lists them.
pub fn tag_stacks<P: Part>(
    alloc: Global,
    tree_alloc: &P::Alloc,
    parts: &[P],
    tag: [u8; 4],
) -> Result<Vec<Balance<SharedStack>>, NoMemory>
    requires { size_of_all (map P.contents parts.now) < 2 ^ 64 }
    ensures { IfOk result (λ rows. (events : List Event)
        → AreEventsOf (map P.contents parts.now) events
        → AreTagStacks events tag rows.items) }
{
    let tree = whole_tree(tree_alloc, parts)?;
    let sums = tree.rows_of(alloc, Slots::All)?;
    let mut rows = each_stack_balance(alloc, sums, tag)?;
    add_up(&mut rows);
    Ok(rows)
}

/// The balance of each stack under the tag of each object.
fn each_stack_balance(
    alloc: Global,
    sums: Vec<((Slot, SharedStack), Count)>,
    tag: [u8; 4],
) -> Result<Vec<Balance<SharedStack>>, AllocError>
    ensures { IfOk result (λ rows. rows.items ≡ filter_map (stack_balance tag) sums.items) }
{
    sums.into_iter()
        .filter_map(|sum| stack_balance(tag, sum))
        .collect(alloc)
}

/// The balance of the stack, where the slot is the tag's.
fn stack_balance(tag: [u8; 4], sum: ((Slot, SharedStack), Count)) -> Option<Balance<SharedStack>>
    ensures { result ≡ stack_balance tag sum }
{
    let ((slot, stack), count) = sum;
    if is_tagged(slot, tag) {
        Some(Balance {
            by: stack,
            count,
            objects: 1,
        })
    } else {
        None
    }
}

/// Whether the slot is the tag's, of whatever object.
fn is_tagged(slot: Slot, tag: [u8; 4]) -> bool
    ensures { result ≡ is_tagged tag slot }
{
    match slot {
        Slot::Tagged { tag: its, .. } => its == tag,
        Slot::Handles { .. } | Slot::Bad { .. } => false,
    }
}

/// Sorts the balances by their keys, and makes those of each key one.
pub(crate) fn add_up<K: Ord>(rows: &mut Vec<Balance<K>>)
where
    K: Drop,
    requires proper { (x y : K) → K.cmp x y ≡ Equal → x ≡ y }
    requires fits { Fit rows.old.items }
    ensures { AreAdded K.cmp rows.old.items rows.new.items }
{
    rows.sort_unstable_by(|one, other| one.by.cmp(&other.by));
    rows.dedup_by(|row, sum| is_added(row, sum));
}

/// Adds the balance to the sum, if that has its key.
fn is_added<K: Ord>(row: &Balance<K>, sum: &mut Balance<K>) -> bool
    ensures { IsAdded K.cmp row.now sum.old result sum.new }
{
    if row.by.cmp(&sum.by).is_ne() {
        return false;
    }
    sum.count = Count {
        plus: sum.count.plus.saturating_add(row.count.plus),
        minus: sum.count.minus.saturating_add(row.count.minus),
    };
    sum.objects = sum.objects.saturating_add(row.objects);
    true
}

impl Ranked for Balance<[u8; 4]> {
    ghost use Rattle.htl_summary.specs.Balancing.{tag_same};

    type Key = [u8; 4];

    ghost number_of = { λ row. row.objects };

    ghost key_of = { λ row. row.by };

    ghost proper = { tag_same };

    fn number(&self) -> u64 {
        self.objects
    }

    fn key(&self) -> &[u8; 4] {
        &self.by
    }
}
