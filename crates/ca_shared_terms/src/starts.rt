//! The sorts of what types and fields hold.

ghost use Rattle.std.specs.Prelude.{◌≡◌, slice_get};
ghost use Rattle.ca_program.specs.View.{program_view};
ghost use Rattle.ca_model.specs.Heaps.{fields_of};
ghost use Rattle.ca_shared_terms.specs.Starts.{sort_of_type, sort_of_slot};

use ca_norm::Sort;
use ca_program::{ClassId, FieldInfo, Program, ValueType};

/// The group of the atoms that stand for what the fields hold at the start.
pub const FIELDS: u32 = 3;

/// The fields of a class; none where the program has no such class.
pub fn fields_of(program: &Program, class: ClassId) -> &[FieldInfo]
    ensures { result.now ≡ fields_of (slice_get (program_view program.now).classes class.0) }
{
    if (class.0 as usize) < program.classes.len() {
        program.class(class).fields.as_slice()
    } else {
        &[]
    }
}

/// The sort of a value of a type.
pub fn sort_of_type(ty: ValueType) -> Sort
    ensures { result ≡ sort_of_type ty }
{
    match ty {
        ValueType::Long => Sort::Long,
        ValueType::Bool => Sort::Bool,
        ValueType::Pointer(_) => Sort::Pointer,
    }
}

/// The sort of what a field holds.
pub fn sort_of_slot(field: &FieldInfo) -> Sort
    ensures { result ≡ sort_of_slot field.now.ty field.now.length }
{
    match (field.length, field.ty) {
        (None, ty) => sort_of_type(ty),
        (Some(_), ValueType::Long) => Sort::LongArray,
        (Some(_), ValueType::Bool) => Sort::BoolArray,
        (Some(_), ValueType::Pointer(_)) => Sort::PointerArray,
    }
}
