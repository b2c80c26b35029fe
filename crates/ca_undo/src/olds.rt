//! The values that an object had before puts.

ghost use Rattle.std.specs.Prelude.{◌≡◌, ◌<◌, ◌∷◌, ◌++◌, [], false, true, List, IfOk, OnErr, MatchOption, Some, reverse, slice_get};
ghost use Rattle.ca_model.specs.declared.value.Slot.{Slot};
ghost use Rattle.ca_model.specs.declared.value.Slot.TheVariants.{One};
ghost use Rattle.ca_model.specs.declared.value.Value.TheVariants.{Long};
ghost use Rattle.ca_model.specs.Slots.{put_slot, HasItem};
ghost use Rattle.ca_undo.specs.declared.olds.Old.{Old};
ghost use Rattle.ca_undo.specs.Olds.{put_back, AllThere, Marks, has_old, item_in, is_found, is_of, olds_after};

use ca_model::{Slot, Slots, Value};
use std::alloc::{AllocError, Global};
use std::marker::Model;

/// The value that an item of a field had before a put.
#[derive(Clone, Copy)]
pub struct Old {
    pub field: u32,
    pub item: u32,
    pub value: Value,
}

/// The old values, the last one first, and of which of the first 64 fields there is one of item 0: bit f tells it of field f.
#[derive(Drop)]
pub struct Olds {
    items: Vec<Old>,
    marks: u64,
}

impl Model for Olds {
    ghost use Rattle.std.specs.Prelude.{List, reverse};
    ghost use Rattle.ca_undo.specs.declared.olds.Old.{Old};

    ghost Value = { List Old };

    ghost view = { λ s. reverse s.items.items };

    ghost use Rattle.ca_undo.specs.Olds.{Marks};

    ghost invariant = { λ s. Marks s.marks (reverse s.items.items) };
}

/// Whether the marks tell that there is an old value of item 0 of a field.
#[inline(always)]
fn is_marked(marks: u64, field: u32) -> bool
    requires { field < 64 }
    ensures { (olds : List Old) → Marks marks olds → result ≡ has_old olds field 0 }
{
    marks & (1 << field) != 0
}

/// The marks with one old value more.
#[inline(always)]
fn marks_with(marks: u64, old: Old) -> u64
    ensures { (olds : List Old) → Marks marks olds → Marks result (old ∷ olds) }
{
    if old.field < 64 && old.item == 0 {
        return marks | (1 << old.field);
    }
    marks
}

/// The last one, taken away.
#[inline(always)]
fn last_of(items: &mut Vec<Old>) -> Option<Old>
    ensures { MatchOption result ((reverse items.old.items ≡ []) × (reverse items.new.items ≡ [])) (λ x. reverse items.old.items ≡ x ∷ reverse items.new.items) }
{
    items.pop()
}

/// Puts old values back, the last one first, and forgets them.
fn put_all_back(items: &mut Vec<Old>, slots: &mut Slots)
    requires { AllThere (reverse items.old.items) slots.old }
    ensures slots { slots.new ≡ put_back (reverse items.old.items) slots.old }
    ensures none { reverse items.new.items ≡ [] }
{
    'olds: while let Some(old) = last_of(items) {
        slots.put(old.field, old.item, old.value);
    }
}

impl Olds {
    /// None. It takes no memory.
    pub fn new(alloc: Global) -> Self
        ensures { result ≡ [] }
    {
        Olds {
            items: Vec::new(alloc),
            marks: 0,
        }
    }

    // It asks for memory only where the vector is full.
    #[inline(always)]
    fn add(&mut self, old: Old) -> Result<(), AllocError>
        ensures added { IfOk result (λ _. self.new ≡ old ∷ self.old) }
        ensures kept { OnErr result (self.new ≡ self.old) }
    {
        if self.items.len() == self.items.capacity() {
            self.items.reserve(1)?;
        }
        self.items.push_reserved(old);
        self.marks = marks_with(self.marks, old);
        Ok(())
    }

    /// The same without asking for memory, where there is room.
    #[inline(always)]
    fn add_at_hand(&mut self, old: Old) -> bool
        ensures added { result ≡ true → self.new ≡ old ∷ self.old }
        ensures kept { result ≡ false → self.new ≡ self.old }
    {
        if self.items.len() == self.items.capacity() {
            return false;
        }
        self.items.push_reserved(old);
        self.marks = marks_with(self.marks, old);
        true
    }

    /// The same of item 0 of one of the first 64 fields.
    #[inline(always)]
    fn add_first(&mut self, old: Old) -> bool
        requires field { old.field < 64 }
        requires first { old.item ≡ 0 }
        ensures added { result ≡ true → self.new ≡ old ∷ self.old }
        ensures kept { result ≡ false → self.new ≡ self.old }
    {
        if self.items.len() == self.items.capacity() {
            return false;
        }
        self.items.push_reserved(old);
        self.marks |= 1 << old.field;
        true
    }

    /// Whether the last old value is of this place.
    #[inline(always)]
    #[tactic(auto, using(crate::proofs::Back::first_is_last))]
    fn is_last(&self, field: u32, item: u32) -> bool
        ensures { result ≡ is_of (slice_get self.now 0) field item }
    {
        match self.items.last() {
            Some(old) => old.field == field && old.item == item,
            None => false,
        }
    }

    /// Whether there is an old value of item 0 of one of the first 64 fields.
    #[inline(always)]
    fn has_first(&self, field: u32) -> bool
        requires { field < 64 }
        ensures { result ≡ has_old self.now field 0 }
    {
        is_marked(self.marks, field)
    }

    /// Whether an old value of this place is found.
    #[inline(always)]
    fn finds(&self, field: u32, item: u32) -> bool
        ensures { result ≡ is_found self.now field item }
    {
        if field < 64 && item == 0 {
            return self.has_first(field);
        }
        self.is_last(field, item)
    }

    /// Keeps the value of an item, but where an old one of the same place is found.
    #[inline(always)]
    fn keep(&mut self, slots: &Slots, field: u32, item: u32) -> Result<(), AllocError>
        requires { HasItem (slice_get slots.now field) item }
        ensures keeps { IfOk result (λ _. self.new ≡ olds_after self.old slots.now field item) }
        ensures kept { OnErr result (self.new ≡ self.old) }
    {
        if self.finds(field, item) {
            return Ok(());
        }
        let value = value_of(slots, field, item);
        self.add(Old { field, item, value })
    }

    /// The same without asking for memory, where there is room.
    #[inline(always)]
    fn keep_at_hand(&mut self, slots: &Slots, field: u32, item: u32) -> bool
        requires { HasItem (slice_get slots.now field) item }
        ensures keeps { result ≡ true → self.new ≡ olds_after self.old slots.now field item }
        ensures kept { result ≡ false → self.new ≡ self.old }
    {
        let again = self.finds(field, item);
        if again {
            return true;
        }
        let value = value_of(slots, field, item);
        self.add_at_hand(Old { field, item, value })
    }

    /// Puts a value into an item, and keeps the one that was there, but where an old value of the same place is
    /// found: then that one is what is put back. Whatever comes of it, putting back gives what it gave before.
    #[inline(always)]
    #[tactic(auto, using(crate::proofs::Back::back_kept, crate::proofs::Back::there_kept))]
    pub fn put(
        &mut self,
        slots: &mut Slots,
        field: u32,
        item: u32,
        value: Value,
    ) -> Result<(), AllocError>
        requires { HasItem (slice_get slots.old field) item }
        ensures put { IfOk result (λ _. slots.new ≡ put_slot slots.old field item value) }
        ensures keeps { IfOk result (λ _. self.new ≡ olds_after self.old slots.old field item) }
        ensures back { put_back self.new slots.new ≡ put_back self.old slots.old }
        ensures there { AllThere self.old slots.old → AllThere self.new slots.new }
        ensures kept { OnErr result ((self.new ≡ self.old) × (slots.new ≡ slots.old)) }
    {
        self.keep(slots, field, item)?;
        slots.put(field, item, value);
        Ok(())
    }

    /// The same without asking for memory. Where there is no room for the old value nothing is done.
    #[inline(always)]
    pub fn put_at_hand(&mut self, slots: &mut Slots, field: u32, item: u32, value: Value) -> bool
        requires { HasItem (slice_get slots.old field) item }
        ensures put { result ≡ true → slots.new ≡ put_slot slots.old field item value }
        ensures keeps { result ≡ true → self.new ≡ olds_after self.old slots.old field item }
        ensures back { put_back self.new slots.new ≡ put_back self.old slots.old }
        ensures there { AllThere self.old slots.old → AllThere self.new slots.new }
        ensures kept { result ≡ false → slots.new ≡ slots.old }
        ensures olds { result ≡ false → self.new ≡ self.old }
    {
        if self.keep_at_hand(slots, field, item) {
            slots.put(field, item, value);
            return true;
        }
        false
    }

    /// Keeps a number that stands in a single value of one of the first 64 fields, without asking for memory, where there is room, but
    /// where an old value of the same place is there.
    #[inline(always)]
    fn keep_number(&mut self, field: u32, old: i64) -> bool
        ensures keeps { result ≡ true → (slots : List Slot) → slice_get slots field ≡ Some (One (Long old)) → self.new ≡ olds_after self.old slots field 0 }
        ensures kept { result ≡ false → self.new ≡ self.old }
    {
        if field >= 64 {
            return false;
        }
        let again = self.has_first(field);
        if again {
            return true;
        }
        self.add_first(Old {
            field,
            item: 0,
            value: Value::Long(old),
        })
    }

    /// Puts a number in the place of one, as `put_at_hand` does, where the field is one of the first 64. Else nothing is done.
    #[inline(always)]
    pub fn put_number(&mut self, slots: &mut Slots, field: u32, old: i64, n: i64) -> bool
        requires { slice_get slots.old field ≡ Some (One (Long old)) }
        ensures put { result ≡ true → slots.new ≡ put_slot slots.old field 0 (Long n) }
        ensures keeps { result ≡ true → self.new ≡ olds_after self.old slots.old field 0 }
        ensures back { put_back self.new slots.new ≡ put_back self.old slots.old }
        ensures there { AllThere self.old slots.old → AllThere self.new slots.new }
        ensures kept { result ≡ false → slots.new ≡ slots.old }
        ensures olds { result ≡ false → self.new ≡ self.old }
    {
        slots.put(field, 0, Value::Long(n));
        if self.keep_number(field, old) {
            return true;
        }
        slots.put(field, 0, Value::Long(old));
        false
    }

    /// Puts a value into a single value of one of the first 64 fields of which an old one is there, if it is such a one. Nothing is kept
    /// then, and no memory is asked for.
    #[inline(always)]
    pub fn put_again(&self, slots: &mut Slots, field: u32, value: Value) -> bool
        ensures put { result ≡ true → slots.new ≡ put_slot slots.old field 0 value }
        ensures back { put_back self.now slots.new ≡ put_back self.now slots.old }
        ensures there { AllThere self.now slots.old → AllThere self.now slots.new }
        ensures kept { result ≡ false → slots.new ≡ slots.old }
    {
        if field >= 64 {
            return false;
        }
        if self.has_first(field) && holds_one(slots, field) {
            slots.put(field, 0, value);
            return true;
        }
        false
    }

    /// Moves those of a later section to these, as the first ones to be put back, and keeps the memory of both. Without
    /// memory for it both are as before.
    #[tactic(auto, using(crate::proofs::Moved::moved, crate::proofs::Moved::stays))]
    pub fn add_later(&mut self, later: &mut Olds) -> Result<(), AllocError>
        ensures added { IfOk result (λ _. self.new ≡ later.old ++ self.old) }
        ensures none { IfOk result (λ _. later.new ≡ []) }
        ensures kept { OnErr result ((self.new ≡ self.old) × (later.new ≡ later.old)) }
    {
        self.items.append(&mut later.items)?;
        self.marks |= later.marks;
        later.marks = 0;
        Ok(())
    }

    /// Forgets all, and keeps the memory.
    pub fn forget(&mut self)
        ensures { self.new ≡ [] }
    {
        self.items.clear();
        self.marks = 0;
    }

    /// Puts all old values back, and forgets them.
    pub fn put_back(&mut self, slots: &mut Slots)
        requires { AllThere self.old slots.old }
        ensures slots { slots.new ≡ put_back self.old slots.old }
        ensures none { self.new ≡ [] }
    {
        put_all_back(&mut self.items, slots);
        self.marks = 0;
    }
}

/// Whether a field holds a single value.
#[inline(always)]
fn holds_one(slots: &Slots, field: u32) -> bool
    ensures { result ≡ true → HasItem (slice_get slots.now field) 0 }
{
    match slots.get(field) {
        Some(Slot::One(_)) => true,
        _ => false,
    }
}

/// The value of an item.
#[inline(always)]
pub fn value_of(slots: &Slots, field: u32, item: u32) -> Value
    ensures { result ≡ item_in (slice_get slots.now field) item }
{
    match slots.get(field) {
        Some(slot) => match slot {
            Slot::One(value) => *value,
            Slot::Many(values) => match values.get(item as usize) {
                Some(value) => value,
                None => Value::Null,
            },
        },
        None => Value::Null,
    }
}
