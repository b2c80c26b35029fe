//! Writes values and the heap as text: `value_text` and `heap_text` of `specs/Texts.antt`.

ghost use Rattle.std.specs.Prelude.{◌≡◌, ◌++◌, ◌∷◌, [], codes, option_copied, slice_get};
ghost use Rattle.ca_base.specs.Devices.{HasCause, Writes};
ghost use Rattle.ca_program.specs.View.{program_view};
ghost use Rattle.ca_model.specs.Lines.{Adds};
ghost use Rattle.ca_model.specs.Texts.{value_text, values_text, further_values_text, slot_text, field_text, fields_text, class_text, object_text, heap_text};

use crate::heap::Heap;
use crate::line::Line;
use crate::value::{Object, Slot, Value};
use ca_base::{Failed, Sink, write_all};
use ca_program::{Class, ClassId, FieldInfo, Program};
use itoa::Buffer;

/// Heaps of at most so many objects go out in three writes a line. The lines of larger ones go out together.
const FEW_OBJECTS: u32 = 64;

/// Adds the text of a value to a line: a number in decimal, `true` or `false`, `null`, or `#` and the number
/// of an object. It goes out when the line is flushed, or before, with what was pending, where the line's
/// buffer is full.
///
/// After `Failed` a beginning of what was pending and the text was written.
pub fn add_value<K: Sink>(value: Value, line: &mut Line, sink: &mut K) -> Result<(), Failed>
    ensures bytes { Adds (K.written sink.old) (K.written sink.new) line.old line.new result (value_text value) }
    ensures cause { HasCause (K.faults sink.old) (K.faults sink.new) result }
{
    match value {
        Value::Long(number) => line.add(sink, Buffer::new().format(number).as_bytes()),
        Value::Bool(true) => line.add(sink, b"true"),
        Value::Bool(false) => line.add(sink, b"false"),
        Value::Null => line.add(sink, b"null"),
        Value::Ref(id) => {
            if let Err(failed) = line.add(sink, b"#") {
                return Err(failed);
            }
            line.add(sink, Buffer::new().format(id).as_bytes())
        }
    }
}

/// Adds a comma and the text of a value.
fn add_further_value<K: Sink>(value: Value, line: &mut Line, sink: &mut K) -> Result<(), Failed>
    ensures bytes { Adds (K.written sink.old) (K.written sink.new) line.old line.new result (codes "," ++ value_text value) }
    ensures cause { HasCause (K.faults sink.old) (K.faults sink.new) result }
{
    if let Err(failed) = line.add(sink, b",") {
        return Err(failed);
    }
    add_value(value, line, sink)
}

/// Adds the texts of values, each after a comma.
fn add_further_values<K: Sink>(
    values: &[Value],
    line: &mut Line,
    sink: &mut K,
) -> Result<(), Failed>
    ensures bytes { Adds (K.written sink.old) (K.written sink.new) line.old line.new result (further_values_text values.now) }
    ensures cause { HasCause (K.faults sink.old) (K.faults sink.new) result }
{
    for value in values {
        if let Err(failed) = add_further_value(*value, line, sink) {
            return Err(failed);
        }
    }
    Ok(())
}

/// Adds the texts of values, with commas between them.
fn add_values<K: Sink>(values: &[Value], line: &mut Line, sink: &mut K) -> Result<(), Failed>
    ensures bytes { Adds (K.written sink.old) (K.written sink.new) line.old line.new result (values_text values.now) }
    ensures cause { HasCause (K.faults sink.old) (K.faults sink.new) result }
{
    match values {
        [] => Ok(()),
        [first, further @ ..] => {
            if let Err(failed) = add_value(*first, line, sink) {
                return Err(failed);
            }
            add_further_values(further, line, sink)
        }
    }
}

/// Adds the text of a slot.
fn add_slot<K: Sink>(slot: &Slot, line: &mut Line, sink: &mut K) -> Result<(), Failed>
    ensures bytes { Adds (K.written sink.old) (K.written sink.new) line.old line.new result (slot_text slot.now) }
    ensures cause { HasCause (K.faults sink.old) (K.faults sink.new) result }
{
    match slot {
        Slot::One(value) => add_value(*value, line, sink),
        Slot::Many(values) => {
            if let Err(failed) = line.add(sink, b"[") {
                return Err(failed);
            }
            if let Err(failed) = add_values(values.as_slice(), line, sink) {
                return Err(failed);
            }
            line.add(sink, b"]")
        }
    }
}

/// Adds a space, the field's name, `=` and the text of its slot.
fn add_field<K: Sink>(
    field: &FieldInfo,
    slot: &Slot,
    line: &mut Line,
    sink: &mut K,
) -> Result<(), Failed>
    ensures bytes { Adds (K.written sink.old) (K.written sink.new) line.old line.new result (field_text field.now slot.now) }
    ensures cause { HasCause (K.faults sink.old) (K.faults sink.new) result }
{
    if let Err(failed) = line.add_name(sink, field.name.as_bytes()) {
        return Err(failed);
    }
    add_slot(slot, line, sink)
}

/// Adds the texts of the fields with their slots.
fn add_fields<K: Sink>(
    fields: &[FieldInfo],
    slots: &[Slot],
    line: &mut Line,
    sink: &mut K,
) -> Result<(), Failed>
    ensures bytes { Adds (K.written sink.old) (K.written sink.new) line.old line.new result (fields_text fields.now slots.now) }
    ensures cause { HasCause (K.faults sink.old) (K.faults sink.new) result }
{
    let count = fields.len().min(slots.len());
    for i in 0..count {
        if let Err(failed) = add_field(&fields[i], &slots[i], line, sink) {
            return Err(failed);
        }
    }
    Ok(())
}

/// The class of this number, if there is one.
fn class_at(program: &Program, id: ClassId) -> Option<&Class>
    ensures { option_copied result ≡ slice_get program.now.classes.items id.0 }
{
    program.classes.get(id.0 as usize)
}

/// Adds a space, the name of the object's class, and the texts of its fields.
fn add_class<K: Sink>(
    program: &Program,
    object: &Object,
    line: &mut Line,
    sink: &mut K,
) -> Result<(), Failed>
    ensures bytes { Adds (K.written sink.old) (K.written sink.new) line.old line.new result (class_text (slice_get (program_view program.now).classes object.now.class.0) object.now.slots) }
    ensures cause { HasCause (K.faults sink.old) (K.faults sink.new) result }
{
    let Some(class) = class_at(program, object.class) else {
        return Ok(());
    };
    if let Err(failed) = line.add(sink, b" ") {
        return Err(failed);
    }
    if let Err(failed) = line.add(sink, class.name.as_bytes()) {
        return Err(failed);
    }
    add_fields(class.fields.as_slice(), object.slots.as_slice(), line, sink)
}

/// Adds the line of an object.
fn add_object<K: Sink>(
    program: &Program,
    id: u32,
    object: &Object,
    line: &mut Line,
    sink: &mut K,
) -> Result<(), Failed>
    ensures bytes { Adds (K.written sink.old) (K.written sink.new) line.old line.new result (object_text (program_view program.now) id object.now) }
    ensures cause { HasCause (K.faults sink.old) (K.faults sink.new) result }
{
    if let Err(failed) = line.add(sink, b"#") {
        return Err(failed);
    }
    if let Err(failed) = line.add(sink, Buffer::new().format(id).as_bytes()) {
        return Err(failed);
    }
    if let Err(failed) = add_class(program, object, line, sink) {
        return Err(failed);
    }
    line.add(sink, b"\n")
}

/// Adds the lines of all objects, in their order. As many whole lines go out together as fit the buffer.
fn add_objects<K: Sink>(
    program: &Program,
    heap: &Heap,
    line: &mut Line,
    sink: &mut K,
) -> Result<(), Failed>
    ensures bytes { Adds (K.written sink.old) (K.written sink.new) line.old line.new result (heap_text (program_view program.now) heap.now) }
    ensures cause { HasCause (K.faults sink.old) (K.faults sink.new) result }
{
    for id in 0..heap.len() {
        if let Err(failed) = add_object(program, id, heap.get(id), line, sink) {
            return Err(failed);
        }
        if let Err(failed) = line.settle(sink) {
            return Err(failed);
        }
    }
    Ok(())
}

/// Adds the lines of all objects to an empty buffer, and writes it whenever it is full and at the end.
fn write_together<K: Sink>(program: &Program, heap: &Heap, sink: &mut K) -> Result<(), Failed>
    ensures bytes { Writes (K.written sink.old) (K.written sink.new) result (heap_text (program_view program.now) heap.now) }
    ensures cause { HasCause (K.faults sink.old) (K.faults sink.new) result }
{
    let mut line = Line::new();
    if let Err(failed) = add_objects(program, heap, &mut line, sink) {
        return Err(failed);
    }
    line.flush(sink)
}

/// Writes what stands behind the number in the line of an object: in one write where it fits the buffer.
fn write_rest<K: Sink>(program: &Program, object: &Object, sink: &mut K) -> Result<(), Failed>
    ensures bytes { Writes (K.written sink.old) (K.written sink.new) result (class_text (slice_get (program_view program.now).classes object.now.class.0) object.now.slots ++ 10 ∷ []) }
    ensures cause { HasCause (K.faults sink.old) (K.faults sink.new) result }
{
    let mut line = Line::new();
    if let Err(failed) = add_class(program, object, &mut line, sink) {
        return Err(failed);
    }
    if let Err(failed) = line.add(sink, b"\n") {
        return Err(failed);
    }
    line.flush(sink)
}

/// Writes the line of an object: the `#`, the number and the rest in writes of their own.
fn write_object<K: Sink>(
    program: &Program,
    id: u32,
    object: &Object,
    sink: &mut K,
) -> Result<(), Failed>
    ensures bytes { Writes (K.written sink.old) (K.written sink.new) result (object_text (program_view program.now) id object.now) }
    ensures cause { HasCause (K.faults sink.old) (K.faults sink.new) result }
{
    if let Err(failed) = write_all(sink, b"#") {
        return Err(failed);
    }
    if let Err(failed) = write_all(sink, Buffer::new().format(id).as_bytes()) {
        return Err(failed);
    }
    write_rest(program, object, sink)
}

/// Writes the lines of all objects, in their order, each in writes of its own.
fn write_apart<K: Sink>(program: &Program, heap: &Heap, sink: &mut K) -> Result<(), Failed>
    ensures bytes { Writes (K.written sink.old) (K.written sink.new) result (heap_text (program_view program.now) heap.now) }
    ensures cause { HasCause (K.faults sink.old) (K.faults sink.new) result }
{
    for id in 0..heap.len() {
        if let Err(failed) = write_object(program, id, heap.get(id), sink) {
            return Err(failed);
        }
    }
    Ok(())
}

/// Writes the heap's text: a line for each object, in their order. It takes no memory.
///
/// Of a heap of at most 64 objects the `#`, the number and the rest of each line go out in writes of their
/// own, so a line makes at least three writes. The lines of a larger heap go out together.
///
/// After `Failed` a beginning of the text was written.
pub fn print_heap<K: Sink>(program: &Program, heap: &Heap, sink: &mut K) -> Result<(), Failed>
    ensures bytes { Writes (K.written sink.old) (K.written sink.new) result (heap_text (program_view program.now) heap.now) }
    ensures cause { HasCause (K.faults sink.old) (K.faults sink.new) result }
{
    if heap.len() <= FEW_OBJECTS {
        return write_apart(program, heap, sink);
    }
    write_together(program, heap, sink)
}
