//! From values to what an operator makes of them: `operated`, `signed` and `assigned` of `specs/Operators.antt`.

ghost use Rattle.std.specs.Prelude.{◌≡◌, IfErr};
ghost use Rattle.ca_model.specs.declared.value.TrapKind.TheVariants.{ZeroDivisor};
ghost use Rattle.ca_meaning.specs.Operators.{DividesByZero, operated, operated_longs, operated_truths, operated_others, signed, assigned, assigned_longs, assigned_others};

use ca_model::{TrapKind, Value};
use ca_tree::{AssignOp, BinaryOp, UnaryOp};

/// What the operator gives for the values of its two sides. It errs exactly where a number is divided by
/// zero, for the quotient or the remainder, and then by `ZeroDivisor`.
pub fn operate(op: BinaryOp, a: Value, b: Value) -> Result<Value, TrapKind>
    ensures value { result ≡ operated op a b }
    ensures only { result ≡ Err ZeroDivisor → DividesByZero op a b }
    ensures always { DividesByZero op a b → result ≡ Err ZeroDivisor }
    ensures no_other { IfErr result (λ kind. kind ≡ ZeroDivisor) }
{
    match (a, b) {
        (Value::Long(a), Value::Long(b)) => operate_longs(op, a, b),
        (Value::Bool(a), Value::Bool(b)) => Ok(operate_truths(op, a, b)),
        _ => Ok(operate_others(op, a, b)),
    }
}

fn operate_longs(op: BinaryOp, a: i64, b: i64) -> Result<Value, TrapKind>
    ensures { result ≡ operated_longs op a b }
{
    match op {
        BinaryOp::Plus => Ok(Value::Long(a.wrapping_add(b))),
        BinaryOp::Minus => Ok(Value::Long(a.wrapping_sub(b))),
        BinaryOp::Times => Ok(Value::Long(a.wrapping_mul(b))),
        BinaryOp::Divide => {
            if b == 0 {
                Err(TrapKind::ZeroDivisor)
            } else {
                Ok(Value::Long(a.wrapping_div(b)))
            }
        }
        BinaryOp::Remainder => {
            if b == 0 {
                Err(TrapKind::ZeroDivisor)
            } else {
                Ok(Value::Long(a.wrapping_rem(b)))
            }
        }
        BinaryOp::Less => Ok(Value::Bool(a < b)),
        BinaryOp::Greater => Ok(Value::Bool(a > b)),
        BinaryOp::LessEqual => Ok(Value::Bool(a <= b)),
        BinaryOp::GreaterEqual => Ok(Value::Bool(a >= b)),
        BinaryOp::Equal => Ok(Value::Bool(a == b)),
        BinaryOp::NotEqual => Ok(Value::Bool(a != b)),
        BinaryOp::And | BinaryOp::Or => Ok(Value::Null),
        BinaryOp::BitAnd => Ok(Value::Long(a & b)),
        BinaryOp::BitOr => Ok(Value::Long(a | b)),
        BinaryOp::BitXor => Ok(Value::Long(a ^ b)),
        BinaryOp::Max => Ok(Value::Long(a.max(b))),
        BinaryOp::Min => Ok(Value::Long(a.min(b))),
    }
}

fn operate_truths(op: BinaryOp, a: bool, b: bool) -> Value
    ensures { result ≡ operated_truths op a b }
{
    match op {
        BinaryOp::And => Value::Bool(a && b),
        BinaryOp::Or => Value::Bool(a || b),
        BinaryOp::Equal => Value::Bool(a == b),
        BinaryOp::NotEqual => Value::Bool(a != b),
        _ => Value::Null,
    }
}

fn operate_others(op: BinaryOp, a: Value, b: Value) -> Value
    ensures { result ≡ operated_others op a b }
{
    match op {
        BinaryOp::Equal => Value::Bool(a == b),
        BinaryOp::NotEqual => Value::Bool(a != b),
        _ => Value::Null,
    }
}

/// What minus or not gives for a value.
pub fn operate_unary(op: UnaryOp, value: Value) -> Value
    ensures { result ≡ signed op value }
{
    match (op, value) {
        (UnaryOp::Minus, Value::Long(number)) => Value::Long(number.wrapping_neg()),
        (UnaryOp::Not, Value::Bool(truth)) => Value::Bool(!truth),
        _ => Value::Null,
    }
}

/// What an assignment stores, from the old value of its target and the value of its right side.
pub fn assign(op: AssignOp, old: Value, right: Value) -> Value
    ensures { result ≡ assigned op old right }
{
    match (old, right) {
        (Value::Long(old), Value::Long(right)) => Value::Long(assign_longs(op, old, right)),
        _ => assign_others(op, right),
    }
}

fn assign_longs(op: AssignOp, old: i64, right: i64) -> i64
    ensures { result ≡ assigned_longs op old right }
{
    match op {
        AssignOp::Put => right,
        AssignOp::Add => old.wrapping_add(right),
        AssignOp::Sub => old.wrapping_sub(right),
        AssignOp::Mul => old.wrapping_mul(right),
        AssignOp::BitAnd => old & right,
        AssignOp::BitOr => old | right,
        AssignOp::BitXor => old ^ right,
    }
}

fn assign_others(op: AssignOp, value: Value) -> Value
    ensures { result ≡ assigned_others op value }
{
    match op {
        AssignOp::Put => value,
        _ => Value::Null,
    }
}
