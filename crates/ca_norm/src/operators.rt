//! Terms by their operators.

ghost use Rattle.std.specs.Prelude.{◌≡◌, IfOk, IsOkAnd, box_value};
ghost use Rattle.ca_norm.specs.Terms.{shape};
ghost use Rattle.ca_norm.specs.Operators.{over_one, over_two, over_three};

use crate::term::Term;
use ca_folds::FoldOp;
use std::alloc::AllocError;

/// An operator on one term.
#[derive(Clone, Copy, PartialEq, Eq)]
pub enum Unary {
    Neg,
    Not,
    Divide(i64),
    Remainder(i64),
}

/// An operator on two terms.
#[derive(Clone, Copy, PartialEq, Eq)]
pub enum Binary {
    Add,
    Sub,
    Mul,
    Less,
    LessEqual,
    Same,
    And,
    Or,
    Select,
    Fold(FoldOp),
}

/// An operator on three terms.
#[derive(Clone, Copy, PartialEq, Eq)]
pub enum Ternary {
    Choose,
    Put,
    AddAt,
}

impl Term {
    /// The term over this one, if it is there.
    #[inline(never)]
    pub fn unary(
        operator: Unary,
        operand: Result<Box<Term>, AllocError>,
    ) -> Result<Term, AllocError>
        ensures { IfOk result (λ t. IsOkAnd operand (λ a. shape t ≡ over_one operator (shape (box_value a)))) }
    {
        let a = operand?;
        match operator {
            Unary::Neg => Ok(Term::Neg(a)),
            Unary::Not => Ok(Term::Not(a)),
            Unary::Divide(n) => Ok(Term::Divide(a, n)),
            Unary::Remainder(n) => Ok(Term::Remainder(a, n)),
        }
    }

    /// The term over these two, if they are there.
    #[inline(never)]
    pub fn binary(
        operator: Binary,
        operands: Result<(Box<Term>, Box<Term>), AllocError>,
    ) -> Result<Term, AllocError>
        ensures { IfOk result (λ t. IsOkAnd operands (λ p. shape t ≡ over_two operator (shape (box_value p.0)) (shape (box_value p.1)))) }
    {
        let (a, b) = operands?;
        match operator {
            Binary::Add => Ok(Term::Add(a, b)),
            Binary::Sub => Ok(Term::Sub(a, b)),
            Binary::Mul => Ok(Term::Mul(a, b)),
            Binary::Less => Ok(Term::Less(a, b)),
            Binary::LessEqual => Ok(Term::LessEqual(a, b)),
            Binary::Same => Ok(Term::Same(a, b)),
            Binary::And => Ok(Term::And(a, b)),
            Binary::Or => Ok(Term::Or(a, b)),
            Binary::Select => Ok(Term::Select(a, b)),
            Binary::Fold(o) => Ok(Term::Fold(o, a, b)),
        }
    }

    /// The term over these three, if they are there.
    #[inline(never)]
    pub fn ternary(
        operator: Ternary,
        operands: Result<(Box<Term>, (Box<Term>, Box<Term>)), AllocError>,
    ) -> Result<Term, AllocError>
        ensures { IfOk result (λ t. IsOkAnd operands (λ p. shape t ≡ over_three operator (shape (box_value p.0)) (shape (box_value p.1.0)) (shape (box_value p.1.1)))) }
    {
        let (a, (b, c)) = operands?;
        match operator {
            Ternary::Choose => Ok(Term::Choose(a, b, c)),
            Ternary::Put => Ok(Term::Put(a, b, c)),
            Ternary::AddAt => Ok(Term::AddAt(a, b, c)),
        }
    }
}
