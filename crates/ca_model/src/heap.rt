//! The heap: all objects, found by their numbers.

ghost use Rattle.std.specs.Prelude.{◌≡◌, ◌<◌, ◌≤◌, ◌↔◌, [], length, slice_get, slice_set, IsTrue, IfOk, OnErr};
ghost use Rattle.ca_program.specs.View.{program_view};
ghost use Rattle.ca_model.specs.declared.value.Object.{Object};
ghost use Rattle.ca_model.specs.Heaps.{HasSlot, created, is_full, most_objects, starts_of, stored, values_in};
ghost use Rattle.ca_model.specs.Counted.{IsLike};
ghost use Rattle.ca_model.specs.Slots.{start_slots};

use crate::value::{Object, Slots, Value, size_within};
use ca_program::{ClassId, FieldInfo, Program};
use std::alloc::Global;
use std::marker::Model;
use std::mem;

/// The most objects that a heap holds.
const MOST_OBJECTS: usize = 1_000_000;

/// The most values that all objects of a heap hold together.
const MOST_VALUES: u32 = 4_000_000;

/// Why no object was made: the heap has no room for it, or memory runs out.
#[derive(Clone, Copy, PartialEq, Eq, Debug)]
pub enum CreateError {
    Full,
    Memory,
}

/// The fields of a class; none where the program has no such class.
fn fields_of(program: &Program, class: ClassId) -> &[FieldInfo]
    ensures { start_slots result.now ≡ starts_of (program_view program.now) class }
{
    if (class.0 as usize) < program.classes.len() {
        program.class(class).fields.as_slice()
    } else {
        &[]
    }
}

/// All objects, in the order of their creation. An object's number is its place.
#[derive(Drop)]
pub struct Heap {
    pub(crate) alloc: Global,
    pub(crate) objects: Vec<Object>,
    pub(crate) values: u32,
}

impl Model for Heap {
    ghost use Rattle.std.specs.Prelude.{List};
    ghost use Rattle.ca_model.specs.declared.value.Object.{Object};
    ghost use Rattle.ca_model.specs.Counted.{Counted};

    ghost Value = { List Object };

    ghost view = { λ h. h.objects.items };

    ghost invariant = { λ h. Counted h.objects.items h.values };
}

impl Heap {
    /// The heap without objects. It takes no memory. The allocator serves the objects to come.
    pub fn new(alloc: Global) -> Heap
        ensures { result ≡ [] }
    {
        Heap {
            alloc,
            objects: Vec::new(alloc),
            values: 0,
        }
    }

    /// Adds an object of starting values and gives its number. After an error the heap is as before.
    /// A class that the program doesn't have has no fields.
    pub fn create(&mut self, program: &Program, class: ClassId) -> Result<u32, CreateError>
        ensures made { IfOk result (λ id. (id ≡ length self.old) × (self.new ≡ created (program_view program.now) class self.old)) }
        ensures kept { OnErr result (self.new ≡ self.old) }
        ensures full { result ≡ Err CreateError.Full → IsTrue (is_full self.old (starts_of (program_view program.now) class)) }
        ensures always_full { IsTrue (is_full self.old (starts_of (program_view program.now) class)) → result ≡ Err CreateError.Full }
    {
        let fields = fields_of(program, class);
        if self.objects.len() >= MOST_OBJECTS {
            return Err(CreateError::Full);
        }
        let Some(size) = size_within(fields, MOST_VALUES - self.values) else {
            return Err(CreateError::Full);
        };
        let Ok(slots) = Slots::start(self.alloc, fields) else {
            return Err(CreateError::Memory);
        };
        let id = self.objects.len() as u32;
        let Ok(()) = self.objects.push(Object { class, slots }) else {
            return Err(CreateError::Memory);
        };
        self.values += size;
        Ok(id)
    }

    /// How many objects there are.
    pub fn len(&self) -> u32
        ensures value { result ≡ length self.now }
        ensures few { length self.now ≤ most_objects }
    {
        self.objects.len() as u32
    }

    /// How many values all objects hold together.
    pub fn values(&self) -> u32
        ensures { result ≡ values_in self.now }
    {
        self.values
    }

    /// The object of this number.
    pub fn get(&self, id: u32) -> &Object
        requires { id < length self.now }
        ensures { slice_get self.now id ≡ Some result.now }
    {
        &self.objects[id as usize]
    }

    /// The object at this place.
    #[inline]
    pub fn at(&self, place: usize) -> &Object
        requires { place < length self.now }
        ensures { slice_get self.now place ≡ Some result.now }
    {
        &self.objects[place]
    }

    /// Whether there is such an object, and it has such an item.
    pub fn has_slot(&self, id: u32, field: u32, item: u32) -> bool
        ensures { IsTrue result ↔ HasSlot (slice_get self.now id) field item }
    {
        match self.objects.get(id as usize) {
            Some(object) => object.slots.has(field, item),
            None => false,
        }
    }

    /// Puts the value into an item of a field of an object. A single value is item 0.
    pub fn store(&mut self, id: u32, field: u32, item: u32, value: Value)
        requires { HasSlot (slice_get self.old id) field item }
        ensures { self.new ≡ stored self.old id field item value }
    {
        let object = &mut self.objects[id as usize];
        object.slots.put(field, item, value);
    }

    /// Puts the object in the place of one of the same class and slot lengths, and gives the old one back.
    pub fn replace(&mut self, id: u32, object: Object) -> Object
        requires { IsLike (slice_get self.old id) object }
        ensures new { self.new ≡ slice_set self.old id object }
        ensures old { slice_get self.old id ≡ Some result }
    {
        mem::replace(&mut self.objects[id as usize], object)
    }
}
