//! Values, slots, objects and traps.

ghost use Rattle.std.specs.Prelude.{◌≡◌, ◌<◌, ◌≤◌, ◌↔◌, [], ◌∷◌, ◌++◌, length, slice_get, slice_set, IsTrue, IfOk, OnErr, MatchOption, option_copied, replicate};
ghost use Rattle.ca_model.specs.Slots.{slot_len, slots_len, HasItem, put_item, start_of, start_slot, start_slots};

use ca_program::{ClassId, FieldInfo, ValueType};
use std::alloc::{AllocError, Global};
use std::marker::Model;

/// A value. `Ref` has the number of an object.
#[derive(Clone, Copy, PartialEq, Eq)]
pub enum Value {
    Long(i64),
    Bool(bool),
    Null,
    Ref(u32),
}

impl Default for Value {
    fn default() -> Value {
        Value::Null
    }
}

/// A list of values.
#[derive(Drop)]
pub struct Values {
    pub(crate) items: Vec<Value>,
}

impl Model for Values {
    ghost use Rattle.std.specs.Prelude.{List};
    ghost use Rattle.ca_model.specs.declared.value.Value.{Value as Datum};

    ghost Value = { List Datum };

    ghost view = { λ s. s.items.items };
}

impl Values {
    /// No values. It takes no memory.
    pub fn new(alloc: Global) -> Self
        ensures { result ≡ [] }
    {
        Values {
            items: Vec::new(alloc),
        }
    }

    /// As many copies of a value.
    pub fn filled(alloc: Global, value: Value, count: usize) -> Result<Self, AllocError>
        ensures { IfOk result (λ values. values ≡ replicate count value) }
    {
        Ok(Values {
            items: vec![in alloc; value; count]?,
        })
    }

    /// Adds a value at the end. Without memory for it the values are as before.
    pub fn push(&mut self, value: Value) -> Result<(), AllocError>
        ensures added { IfOk result (λ _. self.new ≡ self.old ++ value ∷ []) }
        ensures kept { OnErr result (self.new ≡ self.old) }
    {
        self.items.push(value)?;
        Ok(())
    }

    /// How many values there are.
    pub fn len(&self) -> usize
        ensures { result ≡ length self.now }
    {
        self.items.len()
    }

    /// The value at a place, if there is one.
    pub fn get(&self, index: usize) -> Option<Value>
        ensures { result ≡ slice_get self.now index }
    {
        self.items.get(index).copied()
    }

    /// Puts a value at a place in the place of the old one.
    pub fn set(&mut self, index: usize, value: Value)
        requires { index < length self.old }
        ensures { self.new ≡ slice_set self.old index value }
    {
        self.items[index] = value;
    }

    /// All values.
    pub fn as_slice(&self) -> &[Value]
        ensures { result.now ≡ self.now }
    {
        self.items.as_slice()
    }
}

/// What a field holds: one value, or the items of an array.
#[derive(Drop)]
pub enum Slot {
    One(Value),
    Many(Values),
}

impl Slot {
    /// Whether it holds such an item. A single value is item 0.
    pub fn has(&self, item: u32) -> bool
        ensures { IsTrue result ↔ (item < slot_len self.now) }
    {
        match self {
            Slot::One(_) => item == 0,
            Slot::Many(values) => (item as usize) < values.len(),
        }
    }

    /// Puts the value into an item.
    pub fn put(&mut self, item: u32, value: Value)
        requires { item < slot_len self.old }
        ensures { self.new ≡ put_item self.old item value }
    {
        match self {
            Slot::One(old) => *old = value,
            Slot::Many(values) => values.set(item as usize, value),
        }
    }
}

/// The slots of an object, in the order of its fields.
#[derive(Drop)]
pub struct Slots {
    pub(crate) items: Vec<Slot>,
}

impl Model for Slots {
    ghost use Rattle.std.specs.Prelude.{List};
    ghost use Rattle.ca_model.specs.declared.value.Slot.{Slot};

    ghost Value = { List Slot };

    ghost view = { λ s. s.items.items };
}

impl Slots {
    ghost use Rattle.ca_model.specs.Slots.{put_slot};

    /// What the fields of an object start with.
    pub fn start(alloc: Global, fields: &[FieldInfo]) -> Result<Slots, AllocError>
        ensures { IfOk result (λ slots. slots ≡ start_slots fields.now) }
    {
        let mut items = Vec::with_capacity(alloc, fields.len())?;
        for field in fields {
            items.push(start_slot(alloc, field)?)?;
        }
        Ok(Slots { items })
    }

    /// How many slots there are.
    pub fn len(&self) -> usize
        ensures { result ≡ length self.now }
    {
        self.items.len()
    }

    /// All slots.
    pub fn as_slice(&self) -> &[Slot]
        ensures { result.now ≡ self.now }
    {
        self.items.as_slice()
    }

    /// The slot of a field.
    pub fn get(&self, field: u32) -> Option<&Slot>
        ensures { option_copied result ≡ slice_get self.now field }
    {
        self.items.get(field as usize)
    }

    /// Whether there is such a field, and it has such an item.
    pub fn has(&self, field: u32, item: u32) -> bool
        ensures { IsTrue result ↔ HasItem (slice_get self.now field) item }
    {
        match self.get(field) {
            Some(slot) => slot.has(item),
            None => false,
        }
    }

    /// Puts the value into an item of a field.
    pub fn put(&mut self, field: u32, item: u32, value: Value)
        requires { HasItem (slice_get self.old field) item }
        ensures { self.new ≡ put_slot self.old field item value }
    {
        let slot = &mut self.items[field as usize];
        slot.put(item, value);
    }
}

/// What a field starts with.
fn start_slot(alloc: Global, field: &FieldInfo) -> Result<Slot, AllocError>
    ensures { IfOk result (λ slot. slot ≡ start_slot field.now.ty field.now.length) }
{
    let value = start_of(field.ty);
    match field.length {
        None => Ok(Slot::One(value)),
        Some(count) => Ok(Slot::Many(Values::filled(alloc, value, count as usize)?)),
    }
}

/// What a field or a local of the type starts with.
pub fn start_of(ty: ValueType) -> Value
    ensures { result ≡ start_of ty }
{
    match ty {
        ValueType::Long => Value::Long(0),
        ValueType::Bool => Value::Bool(false),
        ValueType::Pointer(_) => Value::Null,
    }
}

/// How many values an object of these fields holds, if no more than there is room for.
pub(crate) fn size_within(fields: &[FieldInfo], room: u32) -> Option<u32>
    ensures { MatchOption result (room < slots_len (start_slots fields.now)) (λ size. (size ≡ slots_len (start_slots fields.now)) × (size ≤ room)) }
{
    let mut total: u32 = 0;
    for field in fields {
        let more = field.length.unwrap_or(1);
        if more > room - total {
            return None;
        }
        total += more;
    }
    Some(total)
}

/// An object of a class.
#[derive(Drop)]
pub struct Object {
    pub class: ClassId,
    pub slots: Slots,
}

/// Why a run traps.
#[derive(Clone, Copy, PartialEq, Eq)]
pub enum TrapKind {
    NullPointer,
    OutOfRange,
    ZeroDivisor,
    HeapFull,
}

/// A trap, with the line of the innermost statement that was being executed.
#[derive(Clone, Copy, PartialEq, Eq)]
pub struct Trap {
    pub line: u32,
    pub kind: TrapKind,
}
