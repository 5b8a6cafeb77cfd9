//! The slots that a question asks for.

ghost use Rattle.std.specs.Prelude.{◌≡◌};
ghost use Rattle.htl_tree.specs.HasSlot.{has_slot};

use htl_event::Slot;

/// The slots that a question asks for.
#[derive(Clone, Copy)]
pub enum Slots {
    /// Every slot.
    All,
    /// This slot alone.
    One(Slot),
    /// References and dereferences of the object, under whatever tag.
    OfObject(u64),
    /// Bad references of the process, to whatever handle.
    BadOf(u32),
}

impl Slots {
    /// Whether the question asks for the slot.
    pub fn contains(&self, slot: Slot) -> bool
        ensures { result ≡ has_slot self.now slot }
    {
        match (*self, slot) {
            (Slots::All, _) => true,
            (Slots::One(one), _) => one == slot,
            (Slots::OfObject(object), Slot::Tagged { object: its, .. }) => its == object,
            (Slots::BadOf(process), Slot::Bad { process: its, .. }) => its == process,
            (Slots::OfObject(_) | Slots::BadOf(_), _) => false,
        }
    }
}
