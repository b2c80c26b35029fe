//! Instructions. What each does stands with the definitions of the machine.

ghost use Rattle.std.specs.Prelude.{◌≡◌};
ghost use Rattle.ca_program.specs.Kinds.{kind_type};
ghost use Rattle.ca_code.specs.Seen.{kind_seen};

use ca_program::{
    AssignOp, BinaryOp, ClassId, FieldId, FunctionId, OpId, Stmt, UnaryOp, ValueType,
};

/// What a slot is read as.
#[derive(Clone, Copy, PartialEq, Eq)]
pub enum Kind {
    Long,
    Truth,
    Pointer,
}

/// What a value of a type is read as.
pub fn kind_type(ty: ValueType) -> Kind
    ensures { kind_seen result ≡ kind_type ty }
{
    match ty {
        ValueType::Long => Kind::Long,
        ValueType::Bool => Kind::Truth,
        ValueType::Pointer(_) => Kind::Pointer,
    }
}

/// An instruction. Slots and distances are numbers of 32 bits, in the order of the definition, where each is explained. A loop
/// that is handed on stands with its instruction, and so do the types of the locals of its body.
#[derive(Clone, Copy)]
pub enum Ins<'a> {
    Constant(u32, i64),
    Receiver(u32),
    Move(u32, u32),
    Own(u32, Kind, FieldId),
    OwnItem(u32, Kind, FieldId, u32),
    Field(u32, u32, Kind, FieldId),
    Item(u32, u32, Kind, FieldId, u32),
    Unary(u32, UnaryOp, u32),
    Binary(u32, BinaryOp, Kind, Kind, u32, u32),
    Update(u32, AssignOp, Kind, u32),
    Check(u32),
    CheckItem(FieldId, u32),
    Decide(u32, BinaryOp, u32, u32),
    Jump(u32),
    Unless(u32, u32),
    Turn(u32, u32),
    Call(FunctionId, u32, u32),
    Return(u32),
    Lack,
    Leave,
    PutField(FieldId, AssignOp, Kind, u32),
    PutItem(FieldId, u32, AssignOp, Kind, u32),
    NewLocal(u32, ClassId),
    NewField(FieldId, ClassId),
    NewItem(FieldId, u32, ClassId),
    Print(Kind, u32),
    Invoke(OpId, u32),
    Heed(OpId, u32),
    Hand(OpId, u32),
    Begin(u32, &'a Stmt, &'a [ValueType]),
}

/// One more than the greatest of these slots.
#[inline(always)]
fn past(a: u32, b: u32) -> u32 {
    a.max(b).saturating_add(1)
}

/// One more than the greatest slot that an instruction names. No clause reads it: where a frame has too few slots the machine
/// wants memory.
#[inline(always)]
pub(crate) fn reach(ins: Ins<'_>) -> u32 {
    match ins {
        Ins::Constant(d, _) => past(d, d),
        Ins::Receiver(d) => past(d, d),
        Ins::Move(d, a) => past(d, a),
        Ins::Own(d, _, _) => past(d, d),
        Ins::OwnItem(d, _, _, a) => past(d, a),
        Ins::Field(d, a, _, _) => past(d, a),
        Ins::Item(d, a, _, _, b) => past(d, a.max(b)),
        Ins::Unary(d, _, a) => past(d, a),
        Ins::Binary(d, _, _, _, a, b) => past(d, a.max(b)),
        Ins::Update(l, _, _, a) => past(l, a),
        Ins::Check(a) => past(a, a),
        Ins::CheckItem(_, a) => past(a, a),
        Ins::Decide(d, _, a, _) => past(d, a),
        Ins::Unless(a, _) => past(a, a),
        Ins::Turn(a, _) => past(a, a),
        Ins::Call(_, first, to) => past(first, to),
        Ins::Return(a) => past(a, a),
        Ins::PutField(_, _, _, a) => past(a, a),
        Ins::PutItem(_, i, _, _, a) => past(i, a),
        Ins::NewLocal(l, _) => past(l, l),
        Ins::NewItem(_, i, _) => past(i, i),
        Ins::Print(_, a) => past(a, a),
        Ins::Invoke(_, first) => past(first, first),
        Ins::Heed(_, first) => past(first, first),
        Ins::Hand(_, first) => past(first, first),
        Ins::Jump(_) | Ins::Lack | Ins::Leave | Ins::NewField(_, _) | Ins::Begin(_, _, _) => 0,
    }
}

/// An instruction with the line of its statement.
#[derive(Clone, Copy)]
pub struct Row<'a> {
    pub ins: Ins<'a>,
    pub line: u32,
}
