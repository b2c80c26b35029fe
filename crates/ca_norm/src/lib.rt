//! Terms, their weight and their normal forms, for whoever compares what two orders of operations
//! leave behind.
//!
//! A term is what an expression comes to over the atoms of two operations and a receiver;
//! `specs/Terms.antt` has it without its places in memory. Its weight bounds the work on it, and `normal`
//! promises the normal form of each term of at most `MOST_WEIGHT`, unless memory runs out, and `Large` for each
//! other.
//! What a term and a form mean under a valuation of the atoms stands in `specs/Meanings.antt`.
//!
//! The laws say that a form means what its term means, and that terms of equal formal polynomials
//! have equal forms: so equal forms are equal values, and `same` finds each equation of sums and products.
//!
//! Whoever reads the public clauses must believe each file of `specs/`.
#![tactic(auto)]

pub mod gather;
pub mod items;
pub mod laws;
pub mod operators;
mod term;
mod weigh;

ghost use Rattle.std.specs.Prelude.{◌≡◌, ◌<◌, ◌↔◌, Err, IfOk, IsTrue};
ghost use Rattle.ca_norm.specs.declared.NormalError.TheVariants.{Large, Memory};
ghost use Rattle.ca_norm.specs.Terms.{shape};
ghost use Rattle.ca_norm.specs.Weights.{weight_of};
ghost use Rattle.ca_norm.specs.Forms.{norm};

use crate::gather::{array_of, pointer_of, polynomial_of};
pub use crate::term::{Term, item_sort};
pub use crate::weigh::{Measure, weight};
use ca_forms::polynomial::Scalar;
pub use ca_forms::{Normal, Sort};
use std::alloc::{AllocError, Global};
use thiserror::Error;

/// The most that a term may weigh that is given a normal form.
pub const MOST_WEIGHT: u64 = 65_536;

/// Why a term has been given no normal form.
#[derive(Debug, Drop, Error)]
pub enum NormalError {
    /// The term weighs more than `MOST_WEIGHT`.
    #[error("term too heavy")]
    Large,
    #[error("out of memory")]
    Memory,
}

impl From<AllocError> for NormalError {
    ghost from_gives = { λ _ e. e ≡ Memory };

    fn from(_e: AllocError) -> NormalError {
        NormalError::Memory
    }
}

/// The normal form of a term. A term that is too heavy is refused before anything is made.
pub fn normal(alloc: Global, term: &Term) -> Result<Normal, NormalError>
    ensures form { IfOk result (λ n. n ≡ norm (shape term.now)) }
    ensures large { result ≡ Err Large → 65536 < weight_of (shape term.now) }
    ensures heavy { 65536 < weight_of (shape term.now) → result ≡ Err Large }
{
    let heavy = weight(term) > MOST_WEIGHT;
    if heavy {
        return Err(NormalError::Large);
    }
    Ok(form_of(alloc, term)?)
}

/// The normal form of a term, whatever it weighs.
fn form_of(alloc: Global, term: &Term) -> Result<Normal, AllocError>
    ensures { IfOk result (λ n. n ≡ norm (shape term.now)) }
{
    match term.sort() {
        Sort::Long => Ok(Normal::Scalar(Scalar::number(polynomial_of(alloc, term)?))),
        Sort::Bool => Ok(Normal::Scalar(Scalar::truth(polynomial_of(alloc, term)?))),
        Sort::Pointer => Ok(Normal::Scalar(Scalar::pointer(pointer_of(alloc, term)?))),
        _ => Ok(Normal::Array(array_of(alloc, term)?)),
    }
}

/// Whether two normal forms are equal. It takes no memory.
pub fn same(a: &Normal, b: &Normal) -> bool
    ensures { IsTrue result ↔ (a.now ≡ b.now) }
{
    match (a, b) {
        (Normal::Scalar(x), Normal::Scalar(y)) => x.same(y),
        (Normal::Array(x), Normal::Array(y)) => x.same(y),
        _ => false,
    }
}
