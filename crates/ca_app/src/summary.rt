//! What is told of a run: the sum of what it left.

ghost use Rattle.std.specs.Prelude.{◌≡◌, ◌+ℤ◌};
ghost use Rattle.std.specs.Int.{int_wrap, w64};
ghost use Rattle.ca_base.specs.Devices.{HasCause, Writes};
ghost use Rattle.ca_app.specs.Summary.{number_in, sum_of, values_in, fields_of, total_of, summary_text};

use ca_base::{Failed, Sink};
use ca_model::line::write_line;
use ca_model::{Heap, Slot, Value};
use itoa::Buffer;

/// Writes the line of a run: how many objects it left, how many steps it took, and the total of the heap.
pub fn write_summary<K: Sink>(heap: &Heap, steps: u64, sink: &mut K) -> Result<(), Failed>
    ensures bytes { Writes (K.written sink.old) (K.written sink.new) result (summary_text heap.now steps) }
    ensures cause { HasCause (K.faults sink.old) (K.faults sink.new) result }
{
    let mut objects = Buffer::new();
    let objects = objects.format(heap.len());
    let mut taken = Buffer::new();
    let taken = taken.format(steps);
    let mut total = Buffer::new();
    let total = total.format(total_of(heap));
    write_line(
        &[
            b"load objects=",
            objects.as_bytes(),
            b" steps=",
            taken.as_bytes(),
            b" total=",
            total.as_bytes(),
            b"\n",
        ],
        sink,
    )
}

/// The sum of all numbers in all fields of all objects, as a signed number of 64 bits.
fn total_of(heap: &Heap) -> i64
    ensures { result ≡ total_of heap.now }
{
    let mut total = 0;
    for id in 0..heap.len() {
        total = add_fields(total, heap.get(id).slots.as_slice());
    }
    total
}

/// The total with the numbers in these fields.
fn add_fields(so_far: i64, slots: &[Slot]) -> i64
    ensures { result ≡ int_wrap w64 (so_far +ℤ sum_of (fields_of slots.now)) }
{
    let mut total = so_far;
    for slot in slots {
        total = add_field(total, slot);
    }
    total
}

/// The total with the numbers in a field, of an array each item.
fn add_field(so_far: i64, slot: &Slot) -> i64
    ensures { result ≡ int_wrap w64 (so_far +ℤ sum_of (values_in slot.now)) }
{
    match slot {
        Slot::One(value) => add_value(so_far, *value),
        Slot::Many(values) => add_values(so_far, values.as_slice()),
    }
}

/// The total with the numbers among these values.
fn add_values(so_far: i64, values: &[Value]) -> i64
    ensures { result ≡ int_wrap w64 (so_far +ℤ sum_of values.now) }
{
    let mut total = so_far;
    for value in values {
        total = add_value(total, *value);
    }
    total
}

/// The total with a value, if that is a number.
fn add_value(so_far: i64, value: Value) -> i64
    ensures { result ≡ int_wrap w64 (so_far +ℤ number_in value) }
{
    match value {
        Value::Long(number) => so_far.wrapping_add(number),
        Value::Bool(_) | Value::Null | Value::Ref(_) => so_far,
    }
}
