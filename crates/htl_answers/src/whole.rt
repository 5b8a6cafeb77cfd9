//! The one tree of all parts.

ghost use Rattle.std.specs.Prelude.{◌<◌, ◌≤◌, ◌^◌, ◌++◌, List, map, IfOk};
ghost use Rattle.htl_event.specs.Events.{Event};
ghost use Rattle.htl_tree.specs.Trees.{HasTally, total_count};
ghost use Rattle.htl_answers.specs.Parts.{AreEventsOf, size_of, size_of_all};

use crate::part::Part;
use htl_event::NoMemory;
use htl_tree::StackTree;

/// The tree of the events of all parts. The trees of parts are added in pairs.
pub fn whole_tree<P: Part>(alloc: &P::Alloc, parts: &[P]) -> Result<StackTree<P::Alloc>, NoMemory>
    requires { size_of_all (map P.contents parts.now) < 2 ^ 64 }
    ensures tally { IfOk result (λ tree. (events : List Event)
        → AreEventsOf (map P.contents parts.now) events
        → HasTally tree events) }
    ensures total { IfOk result (λ tree.
        total_count tree ≤ size_of_all (map P.contents parts.now)) }
{
    if parts.len() < 2 {
        return match parts.first() {
            None => Ok(StackTree::new(alloc.clone()?)),
            Some(part) => tree_of_part(alloc, part),
        };
    }
    let (front, back) = parts.split_at(parts.len() / 2);
    let left = whole_tree(alloc, front)?;
    let right = whole_tree(alloc, back)?;
    left.plus(&right)
}

/// The tree of the events of one part: the held events and the folded ones.
fn tree_of_part<P: Part>(alloc: &P::Alloc, part: &P) -> Result<StackTree<P::Alloc>, NoMemory>
    requires { size_of (P.contents part.now) < 2 ^ 64 }
    ensures tally { IfOk result (λ tree. (folded : List Event)
        → HasTally (P.contents part.now).tree folded
        → HasTally tree (folded ++ (P.contents part.now).held)) }
    ensures total { IfOk result (λ tree. total_count tree ≤ size_of (P.contents part.now)) }
{
    let held = StackTree::of(alloc.clone()?, part.held())?;
    held.plus(part.tree())
}
