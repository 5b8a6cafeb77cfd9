//! The rows of objects, made of their tags.

use crate::rows::OwnedRow;
use htl_event::{Count, ObjectRow, Slot};

impl OwnedRow for ObjectRow {
    ghost use Rattle.htl_summary.specs.ObjectTags.{FitObjects, both_objects, tag_of};

    ghost owner_of = { λ row. row.object };

    ghost can_join = { FitObjects };

    ghost joined = { both_objects };

    ghost row_of_sum = { tag_of };

    fn owner(&self) -> u64 {
        self.object
    }

    fn plus(&self, other: &ObjectRow) -> ObjectRow {
        ObjectRow {
            object: self.object,
            tags: self.tags + other.tags,
            unbalanced: self.unbalanced + other.unbalanced,
            refs: self.refs + other.refs,
            derefs: self.derefs + other.derefs,
        }
    }

    /// The sum of a tag as the row of an object that has this tag alone.
    fn from_sum(slot: Slot, count: Count) -> Option<ObjectRow> {
        match slot {
            Slot::Tagged { object, .. } => Some(ObjectRow {
                object,
                tags: 1,
                unbalanced: if count.plus == count.minus { 0 } else { 1 },
                refs: count.plus,
                derefs: count.minus,
            }),
            Slot::Handles { .. } | Slot::Bad { .. } => None,
        }
    }
}
