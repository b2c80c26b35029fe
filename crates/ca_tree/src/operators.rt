//! How tightly the operators bind, and by which signs and key words they are written.

ghost use Rattle.std.specs.Prelude.{◌≡◌, ◌<◌, ◌+◌};
ghost use Rattle.ca_tree.specs.Operators.{level, unary_level, writing, binary_of_sign, binary_of_word, unary_sign, assign_sign};

use crate::token::{Keyword, Sign};
use crate::tree::{AssignOp, BinaryOp, UnaryOp};

/// The number of levels of binary operators, which are numbered from 0, the weakest.
pub const LEVELS: usize = 9;

/// How a binary operator is written.
#[derive(Clone, Copy, PartialEq, Eq)]
pub enum Writing {
    /// By a sign between its sides.
    Between(Sign),
    /// By a key word before both sides in round brackets.
    Before(Keyword),
}

impl BinaryOp {
    /// The level of the operator: a greater one binds more tightly. One that is written before its
    /// sides binds as a literal does, more tightly than unary operators.
    pub fn level(self) -> usize
        ensures level { result ≡ level self }
        ensures below { result < LEVELS + 2 }
    {
        match self {
            BinaryOp::Or => 0,
            BinaryOp::And => 1,
            BinaryOp::BitOr => 2,
            BinaryOp::BitXor => 3,
            BinaryOp::BitAnd => 4,
            BinaryOp::Equal | BinaryOp::NotEqual => 5,
            BinaryOp::Less | BinaryOp::Greater | BinaryOp::LessEqual | BinaryOp::GreaterEqual => 6,
            BinaryOp::Plus | BinaryOp::Minus => 7,
            BinaryOp::Times | BinaryOp::Divide | BinaryOp::Remainder => 8,
            BinaryOp::Max | BinaryOp::Min => LEVELS + 1,
        }
    }

    /// How the operator is written.
    pub fn writing(self) -> Writing
        ensures { result ≡ writing self }
    {
        match self {
            BinaryOp::Or => Writing::Between(Sign::Or),
            BinaryOp::And => Writing::Between(Sign::And),
            BinaryOp::Equal => Writing::Between(Sign::Equal),
            BinaryOp::NotEqual => Writing::Between(Sign::NotEqual),
            BinaryOp::Less => Writing::Between(Sign::Less),
            BinaryOp::Greater => Writing::Between(Sign::Greater),
            BinaryOp::LessEqual => Writing::Between(Sign::LessEqual),
            BinaryOp::GreaterEqual => Writing::Between(Sign::GreaterEqual),
            BinaryOp::Plus => Writing::Between(Sign::Plus),
            BinaryOp::Minus => Writing::Between(Sign::Minus),
            BinaryOp::Times => Writing::Between(Sign::Times),
            BinaryOp::Divide => Writing::Between(Sign::Divide),
            BinaryOp::Remainder => Writing::Between(Sign::Remainder),
            BinaryOp::BitAnd => Writing::Between(Sign::BitAnd),
            BinaryOp::BitOr => Writing::Between(Sign::BitOr),
            BinaryOp::BitXor => Writing::Between(Sign::BitXor),
            BinaryOp::Max => Writing::Before(Keyword::Max),
            BinaryOp::Min => Writing::Before(Keyword::Min),
        }
    }
}

impl Keyword {
    /// The binary operator that is written by the key word.
    pub fn binary(self) -> Option<BinaryOp>
        ensures { result ≡ binary_of_word self }
    {
        match self {
            Keyword::Max => Some(BinaryOp::Max),
            Keyword::Min => Some(BinaryOp::Min),
            _ => None,
        }
    }
}

impl Sign {
    /// The binary operator that is written by the sign.
    pub fn binary(self) -> Option<BinaryOp>
        ensures { result ≡ binary_of_sign self }
    {
        match self {
            Sign::Or => Some(BinaryOp::Or),
            Sign::And => Some(BinaryOp::And),
            Sign::Equal => Some(BinaryOp::Equal),
            Sign::NotEqual => Some(BinaryOp::NotEqual),
            Sign::Less => Some(BinaryOp::Less),
            Sign::Greater => Some(BinaryOp::Greater),
            Sign::LessEqual => Some(BinaryOp::LessEqual),
            Sign::GreaterEqual => Some(BinaryOp::GreaterEqual),
            Sign::Plus => Some(BinaryOp::Plus),
            Sign::Minus => Some(BinaryOp::Minus),
            Sign::Times => Some(BinaryOp::Times),
            Sign::Divide => Some(BinaryOp::Divide),
            Sign::Remainder => Some(BinaryOp::Remainder),
            Sign::BitAnd => Some(BinaryOp::BitAnd),
            Sign::BitOr => Some(BinaryOp::BitOr),
            Sign::BitXor => Some(BinaryOp::BitXor),
            _ => None,
        }
    }
}

impl UnaryOp {
    /// The level of the operator, above those of all binary ones.
    pub fn level(self) -> usize
        ensures { result ≡ unary_level }
    {
        LEVELS
    }

    /// The sign by which the operator is written.
    pub fn sign(self) -> Sign
        ensures { result ≡ unary_sign self }
    {
        match self {
            UnaryOp::Minus => Sign::Minus,
            UnaryOp::Not => Sign::Not,
        }
    }
}

impl AssignOp {
    /// The sign by which the assignment is written.
    pub fn sign(self) -> Sign
        ensures { result ≡ assign_sign self }
    {
        match self {
            AssignOp::Put => Sign::Assign,
            AssignOp::Add => Sign::PlusAssign,
            AssignOp::Sub => Sign::MinusAssign,
            AssignOp::Mul => Sign::TimesAssign,
            AssignOp::BitAnd => Sign::BitAndAssign,
            AssignOp::BitOr => Sign::BitOrAssign,
            AssignOp::BitXor => Sign::BitXorAssign,
        }
    }
}
