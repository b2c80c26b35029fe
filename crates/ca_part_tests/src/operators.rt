//! The operators, at the edges of 64 bits.

use ca_meaning::{assign, operate, operate_unary};
use ca_model::{TrapKind, Value};
use ca_tree::{AssignOp, BinaryOp, UnaryOp};
use std::process::Abort;

#[test]
fn gives_values(rt: HostRuntime) {
    let least = Value::Long(i64::MIN);
    let one = Value::Long(1);
    let seven = Value::Long(-7);
    let two = Value::Long(2);
    let given = operate(BinaryOp::Minus, least, one) == Ok(Value::Long(i64::MAX))
        && operate(BinaryOp::Divide, seven, two) == Ok(Value::Long(-3))
        && operate(BinaryOp::Remainder, seven, two) == Ok(Value::Long(-1))
        && operate(BinaryOp::Less, seven, two) == Ok(Value::Bool(true))
        && operate(BinaryOp::Divide, two, Value::Long(0)) == Err(TrapKind::ZeroDivisor)
        && operate_unary(UnaryOp::Minus, least) == least
        && assign(AssignOp::Sub, two, seven) == Value::Long(9);
    assert!(rt; given);
}

/// Operators whose operands may stand in any order, each with two numbers and what it gives for them.
const VALUES: &str = "& 6 3 2
| 6 3 7
^ 6 3 5
max -1 2 2
min -1 2 -1
& -4 7 4
| -4 3 -1
^ -4 3 -1
^ -1 0 -1
max -1 0 0
min 0 -1 -1
& -9223372036854775808 9223372036854775807 0
| -9223372036854775808 9223372036854775807 -1
^ -9223372036854775808 9223372036854775807 -1
max -9223372036854775808 9223372036854775807 9223372036854775807
min -9223372036854775808 9223372036854775807 -9223372036854775808
& 9223372036854775807 -1 9223372036854775807
| 4294967296 1 4294967297
^ 12884901888 4294967297 8589934593
max 4294967296 4294967295 4294967296
min 7 7 7";

/// The operator that a text stands for, and its assignment; `max` and `min` have none.
fn operator(text: &str) -> (BinaryOp, Option<AssignOp>) {
    match text {
        "&" => (BinaryOp::BitAnd, Some(AssignOp::BitAnd)),
        "|" => (BinaryOp::BitOr, Some(AssignOp::BitOr)),
        "^" => (BinaryOp::BitXor, Some(AssignOp::BitXor)),
        "max" => (BinaryOp::Max, None),
        _ => (BinaryOp::Min, None),
    }
}

/// The number of a word.
fn number<R: Abort>(rt: &R, word: Option<&str>) -> Value {
    let word = word.expect(rt, "a word");
    Value::Long(word.parse().expect(rt, "a number"))
}

/// Whether the operator of a row, and its assignment, give what the row tells, with the sides in both orders.
fn is_given<R: Abort>(rt: &R, row: &str) -> bool {
    let mut words = row.split_whitespace();
    let (op, put) = operator(words.next().expect(rt, "an operator"));
    let left = number(rt, words.next());
    let right = number(rt, words.next());
    let value = number(rt, words.next());
    let is_put = match put {
        Some(put) => assign(put, left, right) == value && assign(put, right, left) == value,
        None => true,
    };
    is_put && operate(op, left, right) == Ok(value) && operate(op, right, left) == Ok(value)
}

#[test]
fn gives_bits_and_greatest_values(rt: HostRuntime) {
    for row in VALUES.lines() {
        assert!(rt; is_given(&rt, row), "{row}");
    }
}
