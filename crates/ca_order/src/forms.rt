//! Forms under an order.

ghost use Rattle.std.specs.Prelude.{◌≡◌, IfOk};
ghost use Rattle.ca_norm.specs.Terms.{shape};
ghost use Rattle.ca_norm.specs.Forms.{norm};
ghost use Rattle.ca_order.specs.Under.{under};
ghost use Rattle.ca_order.specs.Asked.{place_in};

use crate::gather::{array_of, pointer_of, polynomial_of};
use crate::places::{Place, has_form};
use ca_forms::polynomial::{Polynomial, Scalar};
use ca_norm::{Normal, Sort, Term};
use std::alloc::{AllocError, Global};

/// The form of a term under an order.
pub(crate) fn form_of(alloc: Global, places: &[Place], term: &Term) -> Result<Normal, AllocError>
    ensures { IfOk result (λ n. n ≡ norm (under places.now (shape term.now))) }
{
    match term.sort() {
        Sort::Long => Ok(Normal::Scalar(Scalar::number(polynomial_of(alloc, places, term)?))),
        Sort::Bool => Ok(Normal::Scalar(Scalar::truth(polynomial_of(alloc, places, term)?))),
        Sort::Pointer => Ok(Normal::Scalar(Scalar::pointer(pointer_of(alloc, places, term)?))),
        Sort::LongArray => Ok(Normal::Array(array_of(alloc, places, term)?)),
        Sort::BoolArray => Ok(Normal::Array(array_of(alloc, places, term)?)),
        Sort::PointerArray => Ok(Normal::Array(array_of(alloc, places, term)?)),
    }
}

/// The place of the first point that has a form.
pub(crate) fn place_of_form(places: &[Place], form: &Polynomial) -> Option<usize>
    ensures { result ≡ place_in places.now form.now }
{
    for at in 0..places.len() {
        if has_form(&places[at], form) {
            return Some(at);
        }
    }
    None
}
