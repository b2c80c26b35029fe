//! The numbers of objects as the sums have them, read, put and put back.

ghost use Rattle.std.specs.Prelude.{◌≡◌, ◌<◌, ◌∷◌, ℕ, ℤ, List, Some, IfNone, IfSome, length, slice_get, true, false};
ghost use Rattle.ca_program.specs.declared.program.FieldId.{FieldId};
ghost use Rattle.ca_model.specs.declared.value.Object.{Object};
ghost use Rattle.ca_model.specs.declared.value.Value.TheVariants.{Long};
ghost use Rattle.ca_model.specs.Heaps.{stored};
ghost use Rattle.ca_meaning.specs.Expressions.{one_in, slot_of, slots_in};
ghost use Rattle.ca_beside.specs.declared.beside.Changed.{Changed};
ghost use Rattle.ca_beside.specs.Beside.{present, IsPlace};
ghost use Rattle.ca_undo.specs.Puts.{put_back, restored};
ghost use Rattle.ca_undo.specs.declared.puts.Put.{Put};
ghost use Rattle.ca_steps.specs.Telling.{Adds, Looks};
ghost use Rattle.ca_replica.specs.Applied.{sums};
ghost use Rattle.ca_replica.specs.InPlace.{AllHave, AllWritten, HasCopy, HasNumber, IsWritten, Keeps, zero_value};
ghost use Rattle.ca_replica.specs.Zeroed.{zeroed};

use crate::deciding::is_written;
use crate::ground::Ground;
use crate::marks::{is_put, is_put_at_once, stays, stays_at_once, stays_slowly};
use crate::replica::place_of;
use ca_beside::Beside;
use ca_model::{Heap, Object, Slot, Slots, Value};
use ca_program::FieldId;
use ca_steps::{Look, field_of, look_at, sum_of};
use ca_undo::{OldSums, Put, value_of};

/// The single value of a field, and null where there is none.
#[inline(always)]
pub(crate) fn one_of(slots: &Slots, field: u32) -> Value
    ensures { result ≡ one_in (slice_get slots.now field) }
{
    match slots.get(field) {
        Some(slot) => match slot {
            Slot::One(value) => *value,
            Slot::Many(_) => Value::Null,
        },
        None => Value::Null,
    }
}

/// 0 in the place of a number.
fn zero_of(value: Value) -> Value
    ensures { result ≡ zero_value value }
{
    match value {
        Value::Long(_) => Value::Long(0),
        Value::Bool(b) => Value::Bool(b),
        Value::Null => Value::Null,
        Value::Ref(n) => Value::Ref(n),
    }
}

/// The single value of a field of an object in which the numbers that are written are 0.
fn zeroed_value(object: &Object, written: &[FieldId], field: u32) -> Value
    ensures { result ≡ one_in (slice_get (slots_in (Some (zeroed written.now object.now))) field) }
{
    let value = one_of(&object.slots, field);
    let class = object.class;
    if is_written(written, FieldId { class, field }) {
        return zero_of(value);
    }
    value
}

/// The single value of a field of object n, as the sums have it.
fn value_in(copies: &Beside, written: &[FieldId], frozen: &Heap, n: u32, f: FieldId) -> Value
    ensures { result ≡ one_in (slot_of (sums written.now frozen.now copies.now) n f) }
{
    if n >= frozen.len() {
        return Value::Null;
    }
    copies.know_apart();
    match copies.find(n) {
        Some(place) => one_of(&copies.object_at(place).slots, f.field),
        None => zeroed_value(frozen.get(n), written, f.field),
    }
}

/// The single value of a field of object n, as the sums have it, read in the frozen heap where it surely isn't written.
#[cold]
#[inline(never)]
fn any_value(ground: &Ground<'_>, copies: &Beside, n: u32, f: FieldId) -> Value
    ensures { (olds : List Put) → Keeps ground.now.extent.now.written ground.now.frozen.now ground.now.marks.now copies.now olds → result ≡ one_in (slot_of (sums ground.now.extent.now.written ground.now.frozen.now copies.now) n f) }
{
    let frozen = ground.frozen;
    if stays(ground.marks, ground.extent, frozen, n as usize, f.field) {
        return field_of(frozen, n, f);
    }
    value_in(copies, ground.extent.written(), frozen, n, f)
}

/// The same. Room for the value is made here, so none is made where it is told at once.
#[inline(always)]
pub(crate) fn own_slowly(ground: &Ground<'_>, copies: &Beside, n: u32, f: FieldId) -> Value
    ensures { (olds : List Put) → Keeps ground.now.extent.now.written ground.now.frozen.now ground.now.marks.now copies.now olds → result ≡ one_in (slot_of (sums ground.now.extent.now.written ground.now.frozen.now copies.now) n f) }
{
    any_value(ground, copies, n, f)
}

/// The same, where it is told at once.
#[inline(always)]
pub(crate) fn told_at_once(ground: &Ground<'_>, n: u32, f: FieldId) -> Option<Value>
    ensures { IfSome result (λ v. (copies : List Changed) (olds : List Put) → Keeps ground.now.extent.now.written ground.now.frozen.now ground.now.marks.now copies olds → one_in (slot_of (sums ground.now.extent.now.written ground.now.frozen.now copies) n f) ≡ v) }
{
    let frozen = ground.frozen;
    if stays_at_once(ground.marks, frozen, n, f.field) {
        return Some(field_of(frozen, n, f));
    }
    None
}

/// What an index finds in a field of object n, as the sums have it. An item is told at once, since no array is written.
#[inline(always)]
pub(crate) fn own_look(ground: &Ground<'_>, n: u32, f: FieldId, index: i64) -> Look
    ensures { (copies : List Changed) (olds : List Put) → Keeps ground.now.extent.now.written ground.now.frozen.now ground.now.marks.now copies olds → (line k : ℕ) → Looks line (slot_of (sums ground.now.extent.now.written ground.now.frozen.now copies) n f) index k result }
{
    let look = look_at(ground.frozen, n, f, index);
    match look {
        Look::Holds(place, value) => Look::Holds(place, value),
        Look::Outside => {
            if stays_slowly(ground.marks, ground.extent, ground.frozen, n, f.field) {
                Look::Outside
            } else {
                Look::Unknown
            }
        }
        Look::Unknown => Look::Unknown,
    }
}

/// Puts a value into an item of a field of the copy at a place, if there is one, and keeps the old value. Whatever comes of it,
/// putting back gives what it gave before.
#[inline(always)]
fn put_at(
    copies: &mut Beside,
    olds: &mut OldSums,
    place: usize,
    n: u32,
    field: u32,
    item: u32,
    value: Value,
) -> bool
    requires { IsPlace copies.old place n }
    ensures put { result ≡ true → (h : List Object) → present h copies.new ≡ stored (present h copies.old) n field item value }
    ensures same { result ≡ false → copies.new ≡ copies.old }
    ensures before { (h : List Object) → n < length h → restored olds.new (present h copies.new) ≡ restored olds.old (present h copies.old) }
    ensures there { AllHave olds.old copies.old → AllHave olds.new copies.new }
    ensures puts { (written : List FieldId) (frozen : List Object) → IsWritten written frozen n field → AllWritten written frozen olds.old → AllWritten written frozen olds.new }
{
    copies.know_apart();
    let object = copies.object_at(place);
    if !object.slots.has(field, item) {
        return false;
    }
    let there = value_of(&object.slots, field, item);
    let old = Put {
        object: n,
        field,
        item,
        value: there,
    };
    if !olds.keep(old) {
        return false;
    }
    copies.store_at(place, field, item, value);
    true
}

/// Puts a value into an item of a field of object n that is written, in its copy, which is made where there is none, and keeps the
/// old value. Whatever comes of it, putting back gives what it gave before.
#[cold]
#[inline(never)]
pub(crate) fn put_sum(
    ground: &Ground<'_>,
    copies: &mut Beside,
    olds: &mut OldSums,
    n: u32,
    field: u32,
    item: u32,
    value: Value,
) -> bool
    ensures put { result ≡ true → sums ground.now.extent.now.written ground.now.frozen.now copies.new ≡ stored (sums ground.now.extent.now.written ground.now.frozen.now copies.old) n field item value }
    ensures before { restored olds.new (sums ground.now.extent.now.written ground.now.frozen.now copies.new) ≡ restored olds.old (sums ground.now.extent.now.written ground.now.frozen.now copies.old) }
    ensures keeps { Keeps ground.now.extent.now.written ground.now.frozen.now ground.now.marks.now copies.old olds.old → Keeps ground.now.extent.now.written ground.now.frozen.now ground.now.marks.now copies.new olds.new }
{
    if n >= ground.frozen.len() {
        return false;
    }
    if !is_put(ground.marks, ground.extent, ground.frozen, n, field) {
        return false;
    }
    let Ok(place) = place_of(copies, ground.extent, ground.frozen, n) else {
        return false;
    };
    put_at(copies, olds, place, n, field, item, value)
}

/// The number in a field of the copy of object n at a place, if it is one.
#[inline(always)]
fn number_there(copies: &Beside, place: usize, n: u32, field: u32) -> Option<i64>
    requires { IsPlace copies.now place n }
    ensures { IfSome result (λ a. HasNumber copies.now place n field a) }
{
    copies.know_apart();
    let object = copies.object_at(place);
    let own = one_of(&object.slots, field);
    let Value::Long(a) = own else {
        return None;
    };
    Some(a)
}

/// Adds a number to that of a field of object n that is written, in its copy, which is made where there is none, tells the sum, and
/// keeps the old number. Whatever comes of it, putting back gives what it gave before.
#[cold]
#[inline(never)]
fn add_sum(
    ground: &Ground<'_>,
    copies: &mut Beside,
    olds: &mut OldSums,
    n: u32,
    f: FieldId,
    more: i64,
) -> Option<i64>
    ensures adds { IfSome result (λ m. Adds (one_in (slot_of (sums ground.now.extent.now.written ground.now.frozen.now copies.old) n f)) more m) }
    ensures put { IfSome result (λ m. sums ground.now.extent.now.written ground.now.frozen.now copies.new ≡ stored (sums ground.now.extent.now.written ground.now.frozen.now copies.old) n f.field 0 (Long m)) }
    ensures before { restored olds.new (sums ground.now.extent.now.written ground.now.frozen.now copies.new) ≡ restored olds.old (sums ground.now.extent.now.written ground.now.frozen.now copies.old) }
    ensures keeps { Keeps ground.now.extent.now.written ground.now.frozen.now ground.now.marks.now copies.old olds.old → Keeps ground.now.extent.now.written ground.now.frozen.now ground.now.marks.now copies.new olds.new }
{
    if n >= ground.frozen.len() {
        return None;
    }
    if !is_put(ground.marks, ground.extent, ground.frozen, n, f.field) {
        return None;
    }
    let Ok(place) = place_of(copies, ground.extent, ground.frozen, n) else {
        return None;
    };
    let Some(a) = number_there(copies, place, n, f.field) else {
        return None;
    };
    let sum = sum_of(a, more);
    if put_at(copies, olds, place, n, f.field, 0, Value::Long(sum)) {
        Some(sum)
    } else {
        None
    }
}

/// Puts a number in the place of the one in a field of the copy of object n at a place.
#[inline(always)]
fn put_number(copies: &mut Beside, place: usize, n: u32, field: u32, number: i64)
    requires { (a : ℤ) × HasNumber copies.old place n field a }
    ensures put { (h : List Object) → present h copies.new ≡ stored (present h copies.old) n field 0 (Long number) }
    ensures at { IsPlace copies.new place n }
    ensures has { (m : ℕ) → HasCopy copies.old m → HasCopy copies.new m }
{
    copies.store_at(place, field, 0, Value::Long(number));
}

/// Puts an old value back into the copy at a place, where it has such an item.
fn put_back_at(copies: &mut Beside, place: usize, old: Put)
    requires { IsPlace copies.old place old.object }
    ensures back { (h : List Object) → present h copies.new ≡ put_back old (present h copies.old) }
    ensures has { (n : ℕ) → HasCopy copies.old n → HasCopy copies.new n }
{
    copies.know_apart();
    let object = copies.object_at(place);
    if object.slots.has(old.field, old.item) {
        copies.store_at(place, old.field, old.item, old.value);
    }
}

/// Puts a number back into a field of the copy of object n at a place, where it has one.
#[cold]
#[inline(never)]
fn put_number_back(copies: &mut Beside, place: usize, n: u32, field: u32, number: i64)
    requires { IsPlace copies.old place n }
    ensures back { (h : List Object) → present h copies.new ≡ put_back (record { object = n; field = field; item = 0; value = Long number }) (present h copies.old) }
    ensures has { (m : ℕ) → HasCopy copies.old m → HasCopy copies.new m }
{
    let old = Put {
        object: n,
        field,
        item: 0,
        value: Value::Long(number),
    };
    put_back_at(copies, place, old);
}

// The number is put first: behind the stores of an old value the copy would be read again.
/// Puts a number in the place of the old one in a field of the copy of object n at a place, and keeps the old one, if there is room.
/// Else all is as before.
#[inline(always)]
fn put_and_keep(
    copies: &mut Beside,
    olds: &mut OldSums,
    place: usize,
    n: u32,
    field: u32,
    was: i64,
    number: i64,
) -> bool
    requires { HasNumber copies.old place n field was }
    ensures put { result ≡ true → (h : List Object) → present h copies.new ≡ stored (present h copies.old) n field 0 (Long number) }
    ensures same { result ≡ false → (h : List Object) → present h copies.new ≡ present h copies.old }
    ensures none { result ≡ false → olds.new ≡ olds.old }
    ensures before { (h : List Object) → restored olds.new (present h copies.new) ≡ restored olds.old (present h copies.old) }
    ensures has { (m : ℕ) → HasCopy copies.old m → HasCopy copies.new m }
    ensures there { AllHave olds.old copies.old → AllHave olds.new copies.new }
    ensures puts { (written : List FieldId) (frozen : List Object) → IsWritten written frozen n field → AllWritten written frozen olds.old → AllWritten written frozen olds.new }
{
    put_number(copies, place, n, field, number);
    let old = Put {
        object: n,
        field,
        item: 0,
        value: Value::Long(was),
    };
    if olds.keep_at_once(old) {
        return true;
    }
    put_number_back(copies, place, n, field, was);
    false
}

/// Adds a number to that of a field of object n that is written, and tells the sum, where nothing has to be made: there is a copy, and
/// the old number is the one that was kept last, or there is room for it. Else all is as before.
#[inline(always)]
fn add_at_once(
    ground: &Ground<'_>,
    copies: &mut Beside,
    olds: &mut OldSums,
    n: u32,
    f: FieldId,
    more: i64,
) -> Option<i64>
    ensures adds { IfSome result (λ m. Keeps ground.now.extent.now.written ground.now.frozen.now ground.now.marks.now copies.old olds.old → Adds (one_in (slot_of (sums ground.now.extent.now.written ground.now.frozen.now copies.old) n f)) more m) }
    ensures put { IfSome result (λ m. sums ground.now.extent.now.written ground.now.frozen.now copies.new ≡ stored (sums ground.now.extent.now.written ground.now.frozen.now copies.old) n f.field 0 (Long m)) }
    ensures before { restored olds.new (sums ground.now.extent.now.written ground.now.frozen.now copies.new) ≡ restored olds.old (sums ground.now.extent.now.written ground.now.frozen.now copies.old) }
    ensures keeps { Keeps ground.now.extent.now.written ground.now.frozen.now ground.now.marks.now copies.old olds.old → Keeps ground.now.extent.now.written ground.now.frozen.now ground.now.marks.now copies.new olds.new }
    ensures same { IfNone result ((sums ground.now.extent.now.written ground.now.frozen.now copies.new ≡ sums ground.now.extent.now.written ground.now.frozen.now copies.old) × (olds.new ≡ olds.old)) }
{
    let Some(place) = copies.find(n) else {
        return None;
    };
    let Some(a) = number_there(copies, place, n, f.field) else {
        return None;
    };
    let sum = sum_of(a, more);
    if olds.is_last(n, f.field) {
        put_number(copies, place, n, f.field, sum);
        return Some(sum);
    }
    if n >= ground.frozen.len() {
        return None;
    }
    let class = copies.object_at(place).class;
    if !is_put_at_once(ground.marks, class, f.field) {
        return None;
    }
    if put_and_keep(copies, olds, place, n, f.field, a, sum) {
        Some(sum)
    } else {
        None
    }
}

/// The same in any case.
#[inline(always)]
pub(crate) fn add_any(
    ground: &Ground<'_>,
    copies: &mut Beside,
    olds: &mut OldSums,
    n: u32,
    f: FieldId,
    more: i64,
) -> Option<i64>
    ensures adds { IfSome result (λ m. Keeps ground.now.extent.now.written ground.now.frozen.now ground.now.marks.now copies.old olds.old → Adds (one_in (slot_of (sums ground.now.extent.now.written ground.now.frozen.now copies.old) n f)) more m) }
    ensures put { IfSome result (λ m. sums ground.now.extent.now.written ground.now.frozen.now copies.new ≡ stored (sums ground.now.extent.now.written ground.now.frozen.now copies.old) n f.field 0 (Long m)) }
    ensures before { restored olds.new (sums ground.now.extent.now.written ground.now.frozen.now copies.new) ≡ restored olds.old (sums ground.now.extent.now.written ground.now.frozen.now copies.old) }
    ensures keeps { Keeps ground.now.extent.now.written ground.now.frozen.now ground.now.marks.now copies.old olds.old → Keeps ground.now.extent.now.written ground.now.frozen.now ground.now.marks.now copies.new olds.new }
{
    let sum = add_at_once(ground, copies, olds, n, f, more);
    match sum {
        Some(_) => sum,
        None => add_sum(ground, copies, olds, n, f, more),
    }
}

/// Puts an old value back into its copy.
fn put_back(copies: &mut Beside, old: Put)
    requires { HasCopy copies.old old.object }
    ensures back { (h : List Object) → present h copies.new ≡ put_back old (present h copies.old) }
    ensures has { (n : ℕ) → HasCopy copies.old n → HasCopy copies.new n }
{
    match copies.find(old.object) {
        Some(place) => put_back_at(copies, place, old),
        None => {}
    }
}

/// Puts all old values back into copies, the last one first, and forgets them. It takes no memory.
pub(crate) fn put_all_back(copies: &mut Beside, olds: &mut OldSums)
    requires { AllHave olds.old copies.old }
    ensures { (h : List Object) → present h copies.new ≡ restored olds.old (present h copies.old) }
{
    'olds: while let Some(old) = olds.last() {
        put_back(copies, old);
    }
}
