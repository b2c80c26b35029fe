//! Terms over the atoms of two operations and a receiver.

ghost use Rattle.std.specs.Prelude.{◌≡◌, IfOk};
ghost use Rattle.ca_forms.specs.declared.sort.Sort.{Sort};
ghost use Rattle.ca_norm.specs.Terms.{PlainTerm, add, sub, shape, sort_of, item_sort};

use ca_folds::FoldOp;
use ca_forms::Sort;
use ca_forms::parts::two_boxes;
use std::alloc::{AllocError, Global};

/// A term. An atom has a sort, a group and a number in the group. Group 0 is the receiver, 1 and 2
/// are the parameters of the first and of the second operation, and 3 is what the receiver's fields
/// hold at the start. Truth values are 1 and 0 in a normal form, and numbers wrap round at 64 bits.
#[derive(Drop)]
pub enum Term {
    Number(i64),
    Truth(bool),
    Null,
    Atom(Sort, u32, u32),
    Add(Box<Term>, Box<Term>),
    Sub(Box<Term>, Box<Term>),
    Neg(Box<Term>),
    Mul(Box<Term>, Box<Term>),
    /// Rounded towards zero; the divisor isn't 0.
    Divide(Box<Term>, i64),
    /// With the sign of what is divided; the divisor isn't 0.
    Remainder(Box<Term>, i64),
    Less(Box<Term>, Box<Term>),
    LessEqual(Box<Term>, Box<Term>),
    /// Of two numbers, two truth values or two pointers.
    Same(Box<Term>, Box<Term>),
    Not(Box<Term>),
    And(Box<Term>, Box<Term>),
    Or(Box<Term>, Box<Term>),
    /// The second where the first is true, else the third.
    Choose(Box<Term>, Box<Term>, Box<Term>),
    /// A field of another object: its sort, the object, the field's class and number.
    Read(Sort, Box<Term>, u32, u32),
    /// The same of a field that is an array, at an index.
    ReadAt(Sort, Box<Term>, u32, u32, Box<Term>),
    /// What a value method gives: its sort, its number, the receiver and the arguments.
    Result(Sort, u32, Box<Term>, Vec<Term>),
    /// The item of an array at an index.
    Select(Box<Term>, Box<Term>),
    /// An array with another item at an index.
    Put(Box<Term>, Box<Term>, Box<Term>),
    /// An array of numbers with an addend at the item at an index.
    AddAt(Box<Term>, Box<Term>, Box<Term>),
    /// An operator on two numbers, of those whose operands may stand in any order.
    Fold(FoldOp, Box<Term>, Box<Term>),
    /// An array of numbers with an addend at each item from a number up to but not including another.
    Sweep(Box<Term>, Box<Term>, Box<Term>, Box<Term>),
}

impl Term {
    /// The sum of two terms.
    pub fn add(alloc: Global, a: Term, b: Term) -> Result<Term, AllocError>
        ensures { IfOk result (λ t. shape t ≡ add (shape a) (shape b)) }
    {
        let (a, b) = two_boxes(alloc, Ok(a), Ok(b))?;
        Ok(Term::Add(a, b))
    }

    /// The difference of two terms.
    pub fn sub(alloc: Global, a: Term, b: Term) -> Result<Term, AllocError>
        ensures { IfOk result (λ t. shape t ≡ sub (shape a) (shape b)) }
    {
        let (a, b) = two_boxes(alloc, Ok(a), Ok(b))?;
        Ok(Term::Sub(a, b))
    }

    /// The sort of what the term stands for.
    pub fn sort(&self) -> Sort
        ensures { result ≡ sort_of (shape self.now) }
    {
        match self {
            Term::Number(_) | Term::Neg(_) | Term::Divide(_, _) | Term::Remainder(_, _) =>
                Sort::Long,
            Term::Add(_, _) | Term::Sub(_, _) | Term::Mul(_, _) | Term::Fold(_, _, _) => Sort::Long,
            Term::Truth(_) | Term::Not(_) | Term::And(_, _) | Term::Or(_, _) => Sort::Bool,
            Term::Less(_, _) | Term::LessEqual(_, _) | Term::Same(_, _) => Sort::Bool,
            Term::Null => Sort::Pointer,
            Term::Atom(sort, _, _) => *sort,
            Term::Read(sort, _, _, _) => *sort,
            Term::ReadAt(sort, _, _, _, _) => *sort,
            Term::Result(sort, _, _, _) => *sort,
            Term::Choose(_, a, _) => a.sort(),
            Term::Put(a, _, _) => a.sort(),
            Term::AddAt(a, _, _) => a.sort(),
            Term::Sweep(a, _, _, _) => a.sort(),
            Term::Select(a, _) => item_sort(a.sort()),
        }
    }
}

/// The sort of the items of an array.
pub fn item_sort(sort: Sort) -> Sort
    ensures { result ≡ item_sort sort }
{
    match sort {
        Sort::LongArray => Sort::Long,
        Sort::BoolArray => Sort::Bool,
        Sort::PointerArray => Sort::Pointer,
        other => other,
    }
}
