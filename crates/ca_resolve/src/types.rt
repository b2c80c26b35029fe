//! Types of values, and which of them agree.

ghost use Rattle.std.specs.Prelude.{◌≡◌};
ghost use Rattle.ca_resolve.specs.Rules as rules;
ghost use Rattle.ca_resolve.specs.LocalView.{ty_view};

use ca_program::{ClassId, FunctionId, OpId};
use ca_tree::{BinaryOp, Name, UnaryOp};

/// The type of a value: of a pointer by its class, of a pointer to a class that isn't defined by the
/// name, and of `nullptr` one of its own.
#[derive(Clone, Copy)]
pub enum Ty<'a> {
    Long,
    Truth,
    Pointer(ClassId),
    Undefined(&'a Name),
    NoObject,
}

/// A method that a call may name: an operation, or a value method with the type of its values.
#[derive(Clone, Copy)]
pub enum Callee<'a> {
    Operation(OpId),
    Function(FunctionId, Ty<'a>),
}

impl Ty<'_> {
    /// Whether it is the type of numbers.
    pub fn is_long(&self) -> bool
        ensures { result ≡ rules.is_long (ty_view self.now) }
    {
        matches!(self, Ty::Long)
    }

    /// Whether it is the type of truth values.
    pub fn is_truth(&self) -> bool
        ensures { result ≡ rules.is_truth (ty_view self.now) }
    {
        matches!(self, Ty::Truth)
    }

    fn is_no_object(&self) -> bool
        ensures { result ≡ rules.is_no_object (ty_view self.now) }
    {
        matches!(self, Ty::NoObject)
    }

    fn is_pointer(&self) -> bool
        ensures { result ≡ rules.is_pointer (ty_view self.now) }
    {
        matches!(self, Ty::Pointer(_) | Ty::Undefined(_))
    }

    fn is_same(&self, other: &Ty) -> bool
        ensures { result ≡ rules.same_ty (ty_view self.now) (ty_view other.now) }
    {
        match self {
            Ty::Long => other.is_long(),
            Ty::Truth => other.is_truth(),
            Ty::Pointer(class) => match other {
                Ty::Pointer(second) => class.0 == second.0,
                _ => false,
            },
            Ty::Undefined(name) => match other {
                Ty::Undefined(second) => name.as_bytes() == second.as_bytes(),
                _ => false,
            },
            Ty::NoObject => other.is_no_object(),
        }
    }

    /// Whether a target of this type can hold a value of the other.
    pub fn can_hold(&self, value: &Ty) -> bool
        ensures { result ≡ rules.can_hold (ty_view self.now) (ty_view value.now) }
    {
        if value.is_no_object() {
            self.is_pointer()
        } else {
            self.is_same(value)
        }
    }

    /// Whether `==` and `!=` take values of the two types.
    fn can_compare(&self, other: &Ty) -> bool
        ensures { result ≡ rules.can_compare (ty_view self.now) (ty_view other.now) }
    {
        if self.is_no_object() {
            other.is_no_object() || other.is_pointer()
        } else {
            self.can_hold(other)
        }
    }
}

/// Whether the operator takes an operand of the type.
pub(crate) fn takes_unary(op: UnaryOp, operand: &Ty) -> bool
    ensures { result ≡ rules.takes_unary op (ty_view operand.now) }
{
    match op {
        UnaryOp::Minus => operand.is_long(),
        UnaryOp::Not => operand.is_truth(),
    }
}

/// Whether the operator takes operands of the types.
pub(crate) fn takes_binary(op: BinaryOp, left: &Ty, right: &Ty) -> bool
    ensures { result ≡ rules.takes_binary op (ty_view left.now) (ty_view right.now) }
{
    match op {
        BinaryOp::Or | BinaryOp::And => left.is_truth() && right.is_truth(),
        BinaryOp::Equal | BinaryOp::NotEqual => left.can_compare(right),
        BinaryOp::Less
        | BinaryOp::Greater
        | BinaryOp::LessEqual
        | BinaryOp::GreaterEqual
        | BinaryOp::Plus
        | BinaryOp::Minus
        | BinaryOp::Times
        | BinaryOp::Divide
        | BinaryOp::Remainder
        | BinaryOp::BitAnd
        | BinaryOp::BitOr
        | BinaryOp::BitXor
        | BinaryOp::Max
        | BinaryOp::Min => left.is_long() && right.is_long(),
    }
}

/// The type of the operator's value.
pub(crate) fn unary_ty<'a>(op: UnaryOp) -> Ty<'a>
    ensures { ty_view result ≡ rules.unary_ty op }
{
    match op {
        UnaryOp::Minus => Ty::Long,
        UnaryOp::Not => Ty::Truth,
    }
}

/// The type of the operator's value.
pub(crate) fn binary_ty<'a>(op: BinaryOp) -> Ty<'a>
    ensures { ty_view result ≡ rules.binary_ty op }
{
    match op {
        BinaryOp::Plus
        | BinaryOp::Minus
        | BinaryOp::Times
        | BinaryOp::Divide
        | BinaryOp::Remainder
        | BinaryOp::BitAnd
        | BinaryOp::BitOr
        | BinaryOp::BitXor
        | BinaryOp::Max
        | BinaryOp::Min => Ty::Long,
        BinaryOp::Or
        | BinaryOp::And
        | BinaryOp::Equal
        | BinaryOp::NotEqual
        | BinaryOp::Less
        | BinaryOp::Greater
        | BinaryOp::LessEqual
        | BinaryOp::GreaterEqual => Ty::Truth,
    }
}
