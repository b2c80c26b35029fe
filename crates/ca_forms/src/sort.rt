//! The sorts of values that terms and forms stand for: one for each kind of field, scalar or array.

/// What kind of value a term stands for.
#[derive(Clone, Copy, PartialEq, Eq)]
pub enum Sort {
    Long,
    Bool,
    Pointer,
    LongArray,
    BoolArray,
    PointerArray,
}
