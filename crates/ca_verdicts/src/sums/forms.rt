//! The forms that were made last, so that a term which comes again is not brought into its form again.

ghost use Rattle.std.specs.Prelude.{◌≡◌, IfOk, IfSome};
ghost use Rattle.ca_forms.specs.Rules.{gathered};
ghost use Rattle.ca_norm.specs.Forms.{expand, scalar_of};

use ca_forms::parts::{add, both};
use ca_forms::polynomial::{Polynomial, Scalar};
use ca_norm::Sort;
use ca_shared_terms::LightTerm;
use std::alloc::{AllocError, Global};

/// How many forms are kept at most.
const MOST_KEPT: usize = 8;

/// A number or a truth value, and its form.
#[derive(Drop)]
struct Kept {
    term: LightTerm,
    form: Polynomial,
    ghost is_form: { form ≡ gathered (expand term) },
}

/// The forms that were made last.
#[derive(Drop)]
pub struct LastForms {
    kept: Vec<Kept>,
}

/// The form that is kept of a term.
fn known<'a>(kept: &'a [Kept], term: &LightTerm) -> Option<&'a Polynomial>
    ensures { IfSome result (λ f. f.now ≡ gathered (expand term.now)) }
{
    for entry in kept {
        if entry.term.is_same(term) {
            return Some(&entry.form);
        }
    }
    None
}

impl LastForms {
    /// None. It takes no memory.
    pub fn new(alloc: Global) -> LastForms {
        LastForms {
            kept: Vec::new(alloc),
        }
    }

    /// Keeps the form of a term, and lets the others go where there would be too many.
    fn keep(&mut self, alloc: Global, term: &LightTerm, form: &Polynomial) -> Result<(), AllocError>
        requires { form.now ≡ gathered (expand term.now) }
    {
        let (term, form) = both(term.share(), form.copy(alloc))?;
        if self.kept.len() >= MOST_KEPT {
            self.kept = Vec::new(alloc);
        }
        add(&mut self.kept, Ok(Kept { term, form }))
    }

    /// The form of a number or a truth value.
    pub fn polynomial(&mut self, alloc: Global, term: &LightTerm) -> Result<Polynomial, AllocError>
        ensures { IfOk result (λ f. f ≡ gathered (expand term.now)) }
    {
        if let Some(form) = known(self.kept.as_slice(), term) {
            return form.copy(alloc);
        }
        let form = term.polynomial(alloc)?;
        self.keep(alloc, term, &form)?;
        Ok(form)
    }

    /// The form of a number, a truth value or a pointer; that of a pointer isn't kept.
    pub fn scalar(&mut self, alloc: Global, term: &LightTerm) -> Result<Scalar, AllocError>
        ensures { IfOk result (λ x. x ≡ scalar_of term.now) }
    {
        match term.sort() {
            Sort::Long => Ok(Scalar::number(self.polynomial(alloc, term)?)),
            Sort::Bool => Ok(Scalar::truth(self.polynomial(alloc, term)?)),
            _ => term.scalar(alloc),
        }
    }
}
