//! The normal forms of terms that are not too heavy.

ghost use Rattle.std.specs.Prelude.{◌≡◌, map, box_value, IfOk};
ghost use Rattle.ca_forms.specs.Rules.{gathered};
ghost use Rattle.ca_norm.specs.Terms.{shape, terms_of};
ghost use Rattle.ca_norm.specs.Forms.{expand, scalar_of, pointer_of, array_of};

use crate::light::{Arguments, LightTerm, Node};
use crate::operands::Operands;
use ca_forms::array::Array;
use ca_forms::parts::{both, longer, one_box};
use ca_forms::polynomial::{Pointer, Polynomial, Scalar};
use ca_norm::Term;
use ca_norm::gather::{array_of, pointer_of, polynomial_of, scalar_of};
use std::alloc::{AllocError, Global};

impl LightTerm {
    /// The form of a number, a truth value or a pointer.
    pub fn scalar(&self, alloc: Global) -> Result<Scalar, AllocError>
        ensures { IfOk result (λ x. x ≡ scalar_of self.now) }
    {
        let term = self.boxed(alloc)?;
        scalar_of(alloc, &term)
    }

    /// The polynomial of a number or a truth value.
    pub fn polynomial(&self, alloc: Global) -> Result<Polynomial, AllocError>
        ensures { IfOk result (λ f. f ≡ gathered (expand self.now)) }
    {
        let term = self.boxed(alloc)?;
        polynomial_of(alloc, &term)
    }

    /// The form of a pointer.
    pub(crate) fn pointer(&self, alloc: Global) -> Result<Pointer, AllocError>
        ensures { IfOk result (λ p. p ≡ pointer_of self.now) }
    {
        let term = self.boxed(alloc)?;
        pointer_of(alloc, &term)
    }

    /// The form of an array.
    pub(crate) fn array(&self, alloc: Global) -> Result<Array, AllocError>
        ensures { IfOk result (λ a. a ≡ array_of self.now) }
    {
        let term = self.boxed(alloc)?;
        array_of(alloc, &term)
    }

    /// The term with no part shared: of at most `MOST_WEIGHT` nodes.
    pub fn term(&self, alloc: Global) -> Result<Box<Term>, AllocError>
        ensures { IfOk result (λ b. shape (box_value b) ≡ self.now) }
    {
        self.boxed(alloc)
    }

    /// The term with no part shared. It recurses as deep as the term is, so kinds that
    /// need room have functions of their own.
    #[cycle(unshared)]
    #[inline(never)]
    fn unshared(&self, alloc: Global) -> Result<Term, AllocError>
        ensures { IfOk result (λ t. shape t ≡ self.now) }
    {
        match self.operands() {
            Operands::One(f, a) => Term::unary(f, a.boxed(alloc)),
            Operands::Two(f, a, b) => Term::binary(f, both(a.boxed(alloc), b.boxed(alloc))),
            Operands::Three(f, a, b, c) => {
                let sides = both(b.boxed(alloc), c.boxed(alloc));
                Term::ternary(f, both(a.boxed(alloc), sides))
            }
            Operands::Other => self.unshared_other(alloc),
        }
    }

    /// A literal, an atom, a read, the result of a call or a sweep.
    #[cycle(unshared)]
    #[inline(never)]
    fn unshared_other(&self, alloc: Global) -> Result<Term, AllocError>
        ensures { IfOk result (λ t. shape t ≡ self.now) }
    {
        match &*self.node {
            Node::Number(n) => Ok(Term::Number(*n)),
            Node::Truth(b) => Ok(Term::Truth(*b)),
            Node::Null => Ok(Term::Null),
            Node::Atom(sort, group, number) => Ok(Term::Atom(*sort, *group, *number)),
            Node::Read(sort, p, class, field) => {
                let object = p.boxed(alloc)?;
                Ok(Term::Read(*sort, object, *class, *field))
            }
            Node::ReadAt(sort, p, class, field, i) => {
                let (object, index) = both(p.boxed(alloc), i.boxed(alloc))?;
                Ok(Term::ReadAt(*sort, object, *class, *field, index))
            }
            Node::Result(sort, method, p, args) => {
                let (receiver, args) = both(p.boxed(alloc), args.unshared(alloc))?;
                Ok(Term::Result(*sort, *method, receiver, args))
            }
            Node::Sweep(a, f, t, x) => {
                let bounds = both(f.boxed(alloc), t.boxed(alloc));
                let sides = both(a.boxed(alloc), x.boxed(alloc));
                let ((from, to), (array, addend)) = both(bounds, sides)?;
                Ok(Term::Sweep(array, from, to, addend))
            }
            _ => Err(AllocError),
        }
    }

    /// The same in a box, so that no terms stay in the frames.
    #[cycle(unshared)]
    #[inline(never)]
    fn boxed(&self, alloc: Global) -> Result<Box<Term>, AllocError>
        ensures { IfOk result (λ b. shape (box_value b) ≡ self.now) }
    {
        one_box(alloc, self.unshared(alloc))
    }
}

impl Arguments {
    #[cycle(unshared)]
    fn unshared(&self, alloc: Global) -> Result<Vec<Term>, AllocError>
        ensures { IfOk result (λ v. terms_of (map shape v.items) ≡ self.now) }
    {
        let mut terms = Vec::new(alloc);
        for item in &self.items {
            let (so_far, term) = both(Ok(terms), item.unshared(alloc))?;
            terms = longer(so_far, term)?;
        }
        Ok(terms)
    }
}
