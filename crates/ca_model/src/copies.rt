//! Copies. Each takes its memory where the original has its own, once and no more than it needs.

ghost use Rattle.std.specs.Prelude.{◌≡◌, IfOk};

use crate::heap::Heap;
use crate::value::{Object, Slot, Slots, Values};
use std::alloc::AllocError;

impl Values {
    /// The same values once more.
    pub fn copy(&self) -> Result<Values, AllocError>
        ensures { IfOk result (λ values. values ≡ self.now) }
    {
        Ok(Values {
            items: self.items.clone()?,
        })
    }
}

impl Slot {
    /// The same slot once more.
    pub fn copy(&self) -> Result<Slot, AllocError>
        ensures { IfOk result (λ slot. slot ≡ self.now) }
    {
        match self {
            Slot::One(value) => Ok(Slot::One(*value)),
            Slot::Many(values) => Ok(Slot::Many(values.copy()?)),
        }
    }
}

impl Slots {
    /// The same slots once more.
    pub fn copy(&self) -> Result<Slots, AllocError>
        ensures { IfOk result (λ slots. slots ≡ self.now) }
    {
        let slots = self.items.as_slice();
        let mut items = Vec::with_capacity(*self.items.allocator(), slots.len())?;
        for slot in slots {
            items.push(slot.copy()?)?;
        }
        Ok(Slots { items })
    }
}

impl Object {
    /// The same object once more.
    pub fn copy(&self) -> Result<Object, AllocError>
        ensures { IfOk result (λ object. object ≡ self.now) }
    {
        Ok(Object {
            class: self.class,
            slots: self.slots.copy()?,
        })
    }
}

impl Heap {
    /// The same heap once more. The copy's objects to come are served by the same allocator.
    pub fn copy(&self) -> Result<Heap, AllocError>
        ensures { IfOk result (λ heap. heap ≡ self.now) }
    {
        let objects = self.objects.as_slice();
        let mut copies = Vec::with_capacity(self.alloc, objects.len())?;
        for object in objects {
            copies.push(object.copy()?)?;
        }
        Ok(Heap {
            alloc: self.alloc,
            objects: copies,
            values: self.values,
        })
    }
}
