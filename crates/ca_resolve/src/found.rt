//! What expressions come to.

use crate::types::{Callee, Ty};
use ca_program::{Expr, FieldId, LocalId};

/// What an expression is: a value, or a whole array field of an object.
#[derive(Drop)]
pub enum Found<'a> {
    Value(Expr, Ty<'a>),
    Array(Expr, FieldId, Ty<'a>),
}

/// What a statement may put to: a local, an own field, or an item of an own array field.
#[derive(Drop)]
pub enum Target {
    Local(LocalId),
    Field(FieldId),
    Item(FieldId, Expr),
}

/// A call: whose method it is, which one, and with which arguments.
#[derive(Drop)]
pub struct Invocation<'a> {
    pub receiver: Expr,
    pub callee: Callee<'a>,
    pub arguments: Vec<Expr>,
}
