//! Names of operations and fields, and words of verdicts, as parts of a line.

ghost use Rattle.std.specs.Prelude.{◌≡◌, slice_get};
ghost use Rattle.ca_program.specs.View.{program_view};
ghost use Rattle.ca_model.specs.Heaps.{fields_of};
ghost use Rattle.ca_plan.specs.Texts.{class_name, field_name, class_part, colons_part, name_part, mode_text, why_text};

use ca_program::{ClassId, FieldId, Program};
use ca_section::Why;

/// The name of a class, and nothing where there is none.
fn class_name(program: &Program, class: ClassId) -> &[u8]
    ensures { result.now ≡ class_name (slice_get (program_view program.now).classes class.0) }
{
    if (class.0 as usize) < program.classes.len() {
        program.class(class).name.as_bytes()
    } else {
        b""
    }
}

/// The name of the class of an operation.
pub(crate) fn class_part(program: &Program, op: usize) -> &[u8]
    ensures { result.now ≡ class_part (program_view program.now) (slice_get (program_view program.now).ops op) }
{
    if op < program.ops.len() {
        class_name(program, program.ops[op].class)
    } else {
        b""
    }
}

/// The colons between the name of the class and that of the operation.
pub(crate) fn colons_part(program: &Program, op: usize) -> &[u8]
    ensures { result.now ≡ colons_part (slice_get (program_view program.now).ops op) }
{
    if op < program.ops.len() { b"::" } else { b"" }
}

/// The name of an operation.
pub(crate) fn name_part(program: &Program, op: usize) -> &[u8]
    ensures { result.now ≡ name_part (slice_get (program_view program.now).ops op) }
{
    if op < program.ops.len() {
        program.ops[op].name.as_bytes()
    } else {
        b""
    }
}

/// The name of a field, and nothing where there is none.
pub(crate) fn field_part(program: &Program, field: FieldId) -> &[u8]
    ensures { result.now ≡ field_name (slice_get (fields_of (slice_get (program_view program.now).classes field.class.0)) field.field) }
{
    if (field.class.0 as usize) >= program.classes.len() {
        return b"";
    }
    let fields = program.class(field.class).fields.as_slice();
    if (field.field as usize) < fields.len() {
        fields[field.field as usize].name.as_bytes()
    } else {
        b""
    }
}

/// The word of an offence.
pub(crate) fn why_part(why: &Why) -> &[u8]
    ensures { result.now ≡ why_text why.now }
{
    match why {
        Why::AccessAfterCall => b"AccessAfterCall",
        Why::ForeignRead => b"ForeignRead",
        Why::FunctionRead => b"FunctionRead",
        Why::Creates => b"Creates",
        Why::Prints => b"Prints",
        Why::DividesByVariable => b"DividesByVariable",
    }
}

/// The end of a line: whether what it names runs in parallel.
pub(crate) fn mode_part(parallel: &bool) -> &[u8]
    ensures { result.now ≡ mode_text parallel.now }
{
    if *parallel {
        b" parallel\n"
    } else {
        b" serial\n"
    }
}
