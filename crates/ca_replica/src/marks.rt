//! Which fields an extent writes, by their numbers, so that most fields are told at once.

ghost use Rattle.std.specs.Prelude.{◌≡◌, ◌≢◌, ◌≤◌, ◌<◌, ◌⊎◌, ℕ, List, Contains, IfOk, Some, true, false, length, slice_get};
ghost use Rattle.ca_program.specs.declared.program.ClassId.{ClassId};
ghost use Rattle.ca_program.specs.declared.program.FieldId.{FieldId};
ghost use Rattle.ca_model.specs.declared.value.Object.{Object};
ghost use Rattle.ca_section.specs.Offences.{is_written};
ghost use Rattle.ca_replica.specs.declared.marks.FieldMark.TheVariants.{Of};
ghost use Rattle.ca_replica.specs.Calls.{IsMarked, Marks};
ghost use Rattle.ca_replica.specs.InPlace.{mark_in};

use crate::deciding::is_written;
use ca_extent::Extent;
use ca_model::Heap;
use ca_program::{ClassId, FieldId};
use std::alloc::{AllocError, Global};

/// Which fields with a number are written: none, those of one class, or of several.
#[derive(Clone, Copy)]
pub enum FieldMark {
    Free,
    Of(ClassId),
    Several,
}

/// Makes room for so many marks. Those that are there stay, and no others come.
fn widen(marks: &mut Vec<FieldMark>, room: usize) -> Result<(), AllocError>
    ensures kept { (n : ℕ) (c : ClassId) → IsMarked c (slice_get marks.old.items n) → IsMarked c (slice_get marks.new.items n) }
    ensures only { (n : ℕ) (c : ClassId) → slice_get marks.new.items n ≡ Some (Of c) → slice_get marks.old.items n ≡ Some (Of c) }
    ensures room { IfOk result (λ _. room ≤ length marks.new.items) }
{
    'places: while marks.len() < room {
        marks.push(FieldMark::Free)?;
    }
    Ok(())
}

/// Marks a place that has one class with another.
fn mark_more(marks: &mut Vec<FieldMark>, place: usize, one: ClassId, class: ClassId)
    requires within { place < length marks.old.items }
    requires there { slice_get marks.old.items place ≡ Some (Of one) }
    ensures kept { (n : ℕ) (c : ClassId) → IsMarked c (slice_get marks.old.items n) → IsMarked c (slice_get marks.new.items n) }
    ensures only { (n : ℕ) (c : ClassId) → slice_get marks.new.items n ≡ Some (Of c) → slice_get marks.old.items n ≡ Some (Of c) }
    ensures marked { IsMarked class (slice_get marks.new.items place) }
{
    if one.0 != class.0 {
        marks[place] = FieldMark::Several;
    }
}

/// Marks a place with one class more.
fn mark_at(marks: &mut Vec<FieldMark>, place: usize, class: ClassId)
    requires { place < length marks.old.items }
    ensures kept { (n : ℕ) (c : ClassId) → IsMarked c (slice_get marks.old.items n) → IsMarked c (slice_get marks.new.items n) }
    ensures only { (n : ℕ) (c : ClassId) → slice_get marks.new.items n ≡ Some (Of c) → (slice_get marks.old.items n ≡ Some (Of c)) ⊎ ((n ≡ place) × (c ≡ class)) }
    ensures marked { IsMarked class (slice_get marks.new.items place) }
{
    let there = marks[place];
    match there {
        FieldMark::Free => marks[place] = FieldMark::Of(class),
        FieldMark::Of(one) => mark_more(marks, place, one, class),
        FieldMark::Several => {}
    }
}

/// Marks the number of a field.
fn mark_field(marks: &mut Vec<FieldMark>, field: FieldId) -> Result<(), AllocError>
    ensures kept { IfOk result (λ _. (n : ℕ) (c : ClassId) → IsMarked c (slice_get marks.old.items n) → IsMarked c (slice_get marks.new.items n)) }
    ensures only { IfOk result (λ _. (n : ℕ) (c : ClassId) → slice_get marks.new.items n ≡ Some (Of c) → (slice_get marks.old.items n ≡ Some (Of c)) ⊎ ((n ≡ field.field) × (c ≡ field.class))) }
    ensures marked { IfOk result (λ _. IsMarked field.class (slice_get marks.new.items field.field)) }
{
    let place = field.field as usize;
    widen(marks, place + 1)?;
    mark_at(marks, place, field.class);
    Ok(())
}

/// Marks the number of each field of a list.
fn mark_all(alloc: Global, fields: &[FieldId]) -> Result<Vec<FieldMark>, AllocError>
    ensures { IfOk result (λ marks. Marks fields.now marks.items) }
{
    let mut marks = Vec::new(alloc);
    'fields: for field in fields {
        mark_field(&mut marks, *field)?;
    }
    Ok(marks)
}

/// Marks the number of each field that an extent writes.
pub fn marks_of(alloc: Global, extent: &Extent) -> Result<Vec<FieldMark>, AllocError>
    ensures { IfOk result (λ marks. Marks extent.now.written marks.items) }
{
    mark_all(alloc, extent.written())
}

/// What stands at a number.
#[inline(always)]
fn mark_there(marks: &[FieldMark], number: u32) -> Option<FieldMark>
    ensures { result ≡ slice_get marks.now number }
{
    marks.get(number as usize).copied()
}

/// The mark at a number.
#[inline(always)]
fn mark_of(marks: &[FieldMark], number: u32) -> FieldMark
    ensures { result ≡ mark_in (slice_get marks.now number) }
{
    match mark_there(marks, number) {
        Some(mark) => mark,
        None => FieldMark::Free,
    }
}

/// Whether a field with this number is written, of the class of object n.
fn is_of(extent: &Extent, frozen: &Heap, n: usize, field: u32) -> bool
    requires { n < length frozen.now }
    ensures { (o : Object) → slice_get frozen.now n ≡ Some o → result ≡ is_written extent.now.written (record { class = o.class; field = field }) }
{
    let class = frozen.at(n).class;
    is_written(extent.written(), FieldId { class, field })
}

/// Whether object n is of a class.
#[inline(always)]
fn is_class(frozen: &Heap, n: usize, class: ClassId) -> bool
    requires { n < length frozen.now }
    ensures is { result ≡ true → (o : Object) → slice_get frozen.now n ≡ Some o → class.0 ≡ o.class.0 }
    ensures isnt { result ≡ false → (o : Object) → slice_get frozen.now n ≡ Some o → o.class.0 ≢ class.0 }
{
    let there = frozen.at(n).class;
    if there.0 == class.0 {
        return true;
    }
    false
}

/// Whether object n is of another class, if there is one.
#[inline(always)]
fn is_else(frozen: &Heap, n: usize, class: ClassId) -> bool
    ensures { result ≡ true → (o : Object) → slice_get frozen.now n ≡ Some o → o.class.0 ≢ class.0 }
{
    if n >= frozen.len() as usize {
        return true;
    }
    !is_class(frozen, n, class)
}

/// Whether no field with this number is written, of the class of object n, if there is one.
#[cold]
#[inline(never)]
fn is_of_none(extent: &Extent, frozen: &Heap, n: usize, field: u32) -> bool
    ensures { result ≡ true → (o : Object) → slice_get frozen.now n ≡ Some o → ¬ Contains extent.now.written (record { class = o.class; field = field }) }
{
    if n >= frozen.len() as usize {
        return true;
    }
    !is_of(extent, frozen, n, field)
}

/// Whether the field of object n is surely none that is written, where there is such an object. It is told at once where the fields
/// with its number that are written are of one class.
#[inline(always)]
pub(crate) fn stays(
    marks: &[FieldMark],
    extent: &Extent,
    frozen: &Heap,
    n: usize,
    field: u32,
) -> bool
    ensures { result ≡ true → Marks extent.now.written marks.now → (o : Object) → slice_get frozen.now n ≡ Some o → ¬ Contains extent.now.written (record { class = o.class; field = field }) }
{
    match mark_of(marks, field) {
        FieldMark::Free => true,
        FieldMark::Of(class) => is_else(frozen, n, class),
        FieldMark::Several => is_of_none(extent, frozen, n, field),
    }
}

/// Whether a class is another one.
#[inline(always)]
fn is_other(one: ClassId, class: ClassId) -> bool
    ensures { result ≡ true → class.0 ≢ one.0 }
{
    if one.0 == class.0 {
        return false;
    }
    true
}

/// Whether a field is surely none that is written, where those with its number that are written are of one class, or there are none.
#[inline(always)]
fn is_free(marks: &[FieldMark], class: ClassId, field: u32) -> bool
    ensures { result ≡ true → (written : List FieldId) → Marks written marks.now → ¬ Contains written (record { class = class; field = field }) }
{
    match mark_of(marks, field) {
        FieldMark::Free => true,
        FieldMark::Of(one) => is_other(one, class),
        FieldMark::Several => false,
    }
}

// Whether there is such an object is asked first, as those ask who read it then: so it is asked once.
/// The same of object n, where there is such an object.
#[inline(always)]
pub(crate) fn stays_at_once(marks: &[FieldMark], frozen: &Heap, n: u32, field: u32) -> bool
    ensures { result ≡ true → (written : List FieldId) → Marks written marks.now → (o : Object) → slice_get frozen.now n ≡ Some o → ¬ Contains written (record { class = o.class; field = field }) }
{
    if n >= frozen.len() {
        return true;
    }
    let class = frozen.get(n).class;
    is_free(marks, class, field)
}

/// Whether the field of object n is surely none that is written, where there is such an object, told out of line.
#[cold]
#[inline(never)]
pub(crate) fn stays_slowly(
    marks: &[FieldMark],
    extent: &Extent,
    frozen: &Heap,
    n: u32,
    field: u32,
) -> bool
    ensures { result ≡ true → Marks extent.now.written marks.now → (o : Object) → slice_get frozen.now n ≡ Some o → ¬ Contains extent.now.written (record { class = o.class; field = field }) }
{
    stays(marks, extent, frozen, n as usize, field)
}

/// Whether the field of object n is surely one that is written. It is told at once where the fields with its number that are written
/// are of one class.
#[inline(always)]
pub(crate) fn is_put(
    marks: &[FieldMark],
    extent: &Extent,
    frozen: &Heap,
    n: u32,
    field: u32,
) -> bool
    requires { n < length frozen.now }
    ensures { result ≡ true → Marks extent.now.written marks.now → (o : Object) → slice_get frozen.now n ≡ Some o → Contains extent.now.written (record { class = o.class; field = field }) }
{
    match mark_of(marks, field) {
        FieldMark::Free => false,
        FieldMark::Of(class) => is_class(frozen, n as usize, class),
        FieldMark::Several => is_of(extent, frozen, n as usize, field),
    }
}

/// Whether two classes are one.
#[inline(always)]
fn is_same(one: ClassId, class: ClassId) -> bool
    ensures { result ≡ true → one.0 ≡ class.0 }
{
    if one.0 == class.0 {
        return true;
    }
    false
}

/// Whether a field is surely one that is written, where those with its number that are written are of one class.
#[inline(always)]
pub(crate) fn is_put_at_once(marks: &[FieldMark], class: ClassId, field: u32) -> bool
    ensures { result ≡ true → (written : List FieldId) → Marks written marks.now → Contains written (record { class = class; field = field }) }
{
    match mark_of(marks, field) {
        FieldMark::Free => false,
        FieldMark::Of(one) => is_same(one, class),
        FieldMark::Several => false,
    }
}
