//! Values in slots.

ghost use Rattle.std.specs.Prelude.{◌≡◌, IfNone, IfSome};
ghost use Rattle.ca_model.specs.declared.value.Value.TheVariants.{Ref};
ghost use Rattle.ca_code.specs.Seen.{kind_seen};
ghost use Rattle.ca_code_laws.specs.Words.{has_kind, read_as, word};
ghost use Rattle.ca_steps.specs.Stands.{IsUntold};

use ca_code::Kind;
use ca_model::Value;

/// The number of a pointer to an object.
#[inline(always)]
pub(crate) fn name_of(id: u32) -> i64
    ensures { result ≡ word (Ref id) }
{
    id as i64 + 1
}

/// The number of a value.
#[inline(always)]
pub fn word(v: Value) -> i64
    ensures { result ≡ word v }
{
    match v {
        Value::Long(n) => n,
        Value::Bool(true) => 1,
        Value::Bool(false) => 0,
        Value::Null => 0,
        Value::Ref(id) => name_of(id),
    }
}

/// What a number is read as. A pointer to an object that no heap has isn't told.
#[inline(always)]
pub fn read_as(kind: Kind, n: i64) -> Option<Value>
    ensures some { IfSome result (λ v. v ≡ read_as (kind_seen kind) n) }
    ensures none { IfNone result (IsUntold (kind_seen kind) n) }
{
    match kind {
        Kind::Long => Some(Value::Long(n)),
        Kind::Truth => Some(Value::Bool(n != 0)),
        Kind::Pointer => {
            if n <= 0 {
                return Some(Value::Null);
            }
            if n > u32::MAX as i64 {
                return None;
            }
            Some(Value::Ref((n - 1) as u32))
        }
    }
}

/// Whether a value is of a kind.
#[inline(always)]
pub fn has_kind(kind: Kind, v: Value) -> bool
    ensures { result ≡ has_kind (kind_seen kind) v }
{
    match kind {
        Kind::Long => matches!(v, Value::Long(_)),
        Kind::Truth => matches!(v, Value::Bool(_)),
        Kind::Pointer => match v {
            Value::Null => true,
            Value::Ref(_) => true,
            Value::Long(_) => false,
            Value::Bool(_) => false,
        },
    }
}
