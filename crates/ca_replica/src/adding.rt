//! Sums, added to a heap, or to objects that stand beside it.

ghost use Rattle.std.specs.Prelude.{◌≡◌, ◌<◌, ◌+ℤ◌, length, IfOk};
ghost use Rattle.std.specs.Int.{int_wrap, w64};
ghost use Rattle.ca_beside.specs.Beside.{present, IsAbsent};
ghost use Rattle.ca_replica.specs.Adding.{added_number, added_field, added_object, added, sum_at, summed_field, sums_in, Once, IsWholeOf, AreWhole};

use crate::zeroing::number_in;
use ca_beside::{Beside, Change, Changed};
use ca_model::{Heap, Object, Slots, Value};
use ca_program::FieldId;
use std::alloc::AllocError;

/// The sum of two numbers, wrapping.
fn sum(a: i64, b: i64) -> i64
    ensures { result ≡ int_wrap w64 (a +ℤ b) }
{
    a.wrapping_add(b)
}

/// Adds a sum to the number of an object.
fn add_number(heap: &mut Heap, number: u32, sums: &Slots, field: u32)
    ensures { heap.new ≡ added_number sums.now number field heap.old }
{
    if number >= heap.len() {
        return;
    }
    let Some(a) = number_in(&heap.get(number).slots, field) else {
        return;
    };
    let Some(b) = number_in(sums, field) else {
        return;
    };
    heap.store(number, field, 0, Value::Long(sum(a, b)));
}

/// Adds a sum, if the field is of the copy's class.
fn add_field(heap: &mut Heap, number: u32, copy: &Object, field: FieldId)
    ensures { heap.new ≡ added_field number copy.now field heap.old }
{
    if field.class.0 == copy.class.0 {
        add_number(heap, number, &copy.slots, field.field);
    }
}

/// Adds all sums of a copy.
fn add_object(heap: &mut Heap, number: u32, copy: &Object, written: &[FieldId])
    ensures { heap.new ≡ added_object written.now number copy.now heap.old }
{
    'fields: for field in written {
        add_field(heap, number, copy, *field);
    }
}

/// Adds all sums of all copies.
pub(crate) fn add_copies(heap: &mut Heap, copies: &[Changed], written: &[FieldId])
    ensures { heap.new ≡ added written.now copies.now heap.old }
{
    'copies: for copy in copies {
        add_object(heap, copy.number, &copy.object, written);
    }
}

/// Adds a sum to the number of a field.
fn add_slot(slots: &mut Slots, sums: &Slots, field: u32)
    ensures { slots.new ≡ sum_at field sums.now slots.old }
{
    let Some(a) = number_in(slots, field) else {
        return;
    };
    let Some(b) = number_in(sums, field) else {
        return;
    };
    slots.put(field, 0, Value::Long(sum(a, b)));
}

/// Adds a sum, if the field is of the copy's class.
fn add_field_to(slots: &mut Slots, copy: &Object, field: FieldId)
    ensures { slots.new ≡ summed_field field copy.now.class copy.now.slots slots.old }
{
    if field.class.0 == copy.class.0 {
        add_slot(slots, &copy.slots, field.field);
    }
}

/// Adds all sums of a copy to the slots of its object.
fn add_slots(slots: &mut Slots, copy: &Object, written: &[FieldId])
    ensures { slots.new ≡ sums_in written.now copy.now.class copy.now.slots slots.old }
{
    'fields: for field in written {
        add_field_to(slots, copy, *field);
    }
}

/// The sums of a copy, which its object gets.
#[derive(Clone, Copy)]
struct Sums<'a> {
    copy: &'a Object,
    written: &'a [FieldId],
}

impl<'a> Change for Sums<'a> {
    ghost makes = { λ s o. record { class = o.class; slots = sums_in s.written.now s.copy.now.class s.copy.now.slots o.slots } };

    fn apply(&self, object: &mut Object) {
        add_slots(&mut object.slots, self.copy, self.written);
    }
}

/// Adds all sums of a copy to its object as that is now, beside the heap.
fn add_one_beside(
    heap: &Heap,
    beside: &mut Beside,
    copy: &Changed,
    written: &[FieldId],
) -> Result<(), AllocError>
    ensures { IfOk result (λ _. present heap.now beside.new ≡ added_object written.now copy.now.number copy.now.object (present heap.now beside.old)) }
{
    let number = copy.number;
    if number >= heap.len() {
        return Ok(());
    }
    let sums = Sums {
        copy: &copy.object,
        written,
    };
    beside.alter(heap, number, &sums)
}

/// Takes a copy for its object, which has not changed before: with the object's numbers added, it is the object with the
/// copy's sums. So nothing is copied.
fn take_over(
    heap: &Heap,
    beside: &mut Beside,
    copy: Changed,
    written: &[FieldId],
) -> Result<(), AllocError>
    requires inside { copy.number < length heap.now }
    requires absent { IsAbsent beside.old copy.number }
    requires once { Once written.now }
    requires whole { IsWholeOf written.now heap.now copy }
    ensures { IfOk result (λ _. present heap.now beside.new ≡ added_object written.now copy.number copy.object (present heap.now beside.old)) }
{
    let Changed { number, mut object } = copy;
    add_slots(&mut object.slots, heap.get(number), written);
    beside.add(number, object)?;
    Ok(())
}

/// Adds all sums of a copy to its object, and keeps the copy's memory.
fn add_and_keep(
    heap: &Heap,
    beside: &mut Beside,
    copy: Changed,
    written: &[FieldId],
) -> Result<(), AllocError>
    ensures { IfOk result (λ _. present heap.now beside.new ≡ added_object written.now copy.number copy.object (present heap.now beside.old)) }
{
    add_one_beside(heap, beside, &copy, written)?;
    beside.keep_memory(copy.object);
    Ok(())
}

/// Adds all sums of a copy that is handed over to its object as that is now, beside the heap.
fn take_copy(
    heap: &Heap,
    beside: &mut Beside,
    copy: Changed,
    written: &[FieldId],
) -> Result<(), AllocError>
    requires once { Once written.now }
    requires whole { IsWholeOf written.now heap.now copy }
    ensures { IfOk result (λ _. present heap.now beside.new ≡ added_object written.now copy.number copy.object (present heap.now beside.old)) }
{
    let number = copy.number;
    if number >= heap.len() {
        return Ok(());
    }
    match beside.find(number) {
        Some(_) => add_and_keep(heap, beside, copy, written),
        None => take_over(heap, beside, copy, written),
    }
}

/// Adds all sums of copies that are handed over to the objects as they are now, beside the heap.
pub(crate) fn take_copies(
    heap: &Heap,
    beside: &mut Beside,
    copies: Vec<Changed>,
    written: &[FieldId],
) -> Result<(), AllocError>
    requires once { Once written.now }
    requires whole { AreWhole written.now heap.now copies.items }
    ensures { IfOk result (λ _. present heap.now beside.new ≡ added written.now copies.items (present heap.now beside.old)) }
{
    let mut left = copies;
    left.reverse();
    'copies: while let Some(copy) = left.pop() {
        take_copy(heap, beside, copy, written)?;
    }
    Ok(())
}
