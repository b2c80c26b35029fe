//! Objects with 0 in the numbers that an extent writes.

ghost use Rattle.std.specs.Prelude.{◌≡◌, slice_get};
ghost use Rattle.ca_replica.specs.Zeroed.{number_at, zeroed, zeroed_field, zeroed_slot};

use ca_model::{Object, Slot, Slots, Value};
use ca_program::FieldId;

/// The number that a field holds.
pub(crate) fn number_in(slots: &Slots, field: u32) -> Option<i64>
    ensures { result ≡ number_at (slice_get slots.now field) }
{
    match slots.get(field) {
        Some(slot) => match slot {
            Slot::One(value) => match *value {
                Value::Long(n) => Some(n),
                Value::Bool(_) => None,
                Value::Null => None,
                Value::Ref(_) => None,
            },
            Slot::Many(_) => None,
        },
        None => None,
    }
}

/// Puts 0 in the place of a number.
fn zero_slot(slots: &mut Slots, field: u32)
    ensures { slots.new ≡ zeroed_slot field slots.old }
{
    if number_in(slots, field).is_some() {
        slots.put(field, 0, Value::Long(0));
    }
}

/// Puts 0 in the place of a number, if the field is of the object's class.
fn zero_field(object: &mut Object, field: FieldId)
    ensures { object.new ≡ zeroed_field field object.old }
{
    if field.class.0 == object.class.0 {
        zero_slot(&mut object.slots, field.field);
    }
}

/// Puts 0 in the place of each number that is written.
pub(crate) fn zero(object: &mut Object, written: &[FieldId])
    ensures { object.new ≡ zeroed written.now object.old }
{
    'fields: for field in written {
        zero_field(object, *field);
    }
}
