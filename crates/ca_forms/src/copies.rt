//! From a form to a copy that is the same value (`specs/Plain.antt`).

ghost use Rattle.std.specs.Prelude.{◌≡◌, IfOk, IsOkAnd};
ghost use Rattle.ca_forms.specs.Seen.{over};

use crate::parts::{add, both, one_box, two_boxes};
use crate::polynomial::{
    Monomial, Node, Operands, Part, Pointer, PointerNode, Polynomial, Power, Product, Scalar,
    ScalarNode, Scalars, Unary,
};
use std::alloc::{AllocError, Global};

impl Part {
    /// The same part once more.
    #[cycle(copy)]
    #[inline(never)]
    pub fn copy(&self, alloc: Global) -> Result<Part, AllocError>
        ensures { IfOk result (λ p. p ≡ self.now) }
    {
        match &self.node {
            Node::Variable(s, g, n) => Ok(Node::Variable(*s, *g, *n).part()),
            Node::Over(_, _) | Node::Less(_, _) => self.copy_operation(alloc),
            Node::SamePointer(_, _) => self.copy_equation(alloc),
            Node::Field(_, _, _, _) | Node::Item(_, _, _, _, _) => self.copy_read(alloc),
            Node::Result(_, _, _, _) | Node::Fold(_, _, _) => self.copy_result(alloc),
        }
    }

    /// A comparison of numbers, or what is asked of one, once more. Each kind has a function of its own, so that
    /// `copy`, which recurses, keeps no parts in its frame.
    #[cycle(copy)]
    #[inline(never)]
    fn copy_operation(&self, alloc: Global) -> Result<Part, AllocError>
        ensures { IfOk result (λ p. p ≡ self.now) }
    {
        match &self.node {
            Node::Over(f, a) => over(*f, a.copy(alloc)),
            Node::Less(a, b) => {
                let (first, second) = both(a.copy(alloc), b.copy(alloc))?;
                Ok(Node::Less(first, second).part())
            }
            _ => Err(AllocError),
        }
    }

    #[cycle(copy)]
    #[inline(never)]
    fn copy_equation(&self, alloc: Global) -> Result<Part, AllocError>
        ensures { IfOk result (λ p. p ≡ self.now) }
    {
        match &self.node {
            Node::SamePointer(p, q) => {
                let (first, second) = both(p.copy(alloc), q.copy(alloc))?;
                Ok(Node::SamePointer(first, second).part())
            }
            _ => Err(AllocError),
        }
    }

    #[cycle(copy)]
    #[inline(never)]
    fn copy_read(&self, alloc: Global) -> Result<Part, AllocError>
        ensures { IfOk result (λ p. p ≡ self.now) }
    {
        match &self.node {
            Node::Field(s, p, c, f) => Ok(Node::Field(*s, p.copy(alloc)?, *c, *f).part()),
            Node::Item(s, p, c, f, i) => {
                let (object, index) = both(p.copy(alloc), i.copy(alloc))?;
                Ok(Node::Item(*s, object, *c, *f, index).part())
            }
            _ => Err(AllocError),
        }
    }

    #[cycle(copy)]
    #[inline(never)]
    fn copy_result(&self, alloc: Global) -> Result<Part, AllocError>
        ensures { IfOk result (λ p. p ≡ self.now) }
    {
        match &self.node {
            Node::Result(s, m, p, xs) => {
                let (receiver, args) = both(p.copy(alloc), xs.copy(alloc))?;
                Ok(Node::Result(*s, *m, receiver, args).part())
            }
            Node::Fold(o, w, xs) => Ok(Node::Fold(*o, *w, xs.copy(alloc)?).part()),
            _ => Err(AllocError),
        }
    }
}

/// What is asked of a number that was copied.
#[inline(never)]
fn over(f: Unary, copy: Result<Polynomial, AllocError>) -> Result<Part, AllocError>
    ensures { IfOk result (λ p. IsOkAnd copy (λ a. p ≡ over f a)) }
{
    Ok(Node::Over(f, copy?).part())
}

impl Power {
    /// The same power once more.
    #[cycle(copy)]
    pub fn copy(&self, alloc: Global) -> Result<Power, AllocError>
        ensures { IfOk result (λ p. p ≡ self.now) }
    {
        let part = self.part.copy(alloc)?;
        Ok(Power {
            part,
            exponent: self.exponent,
        })
    }
}

impl Monomial {
    /// The same monomial once more.
    #[cycle(copy)]
    pub fn copy(&self, alloc: Global) -> Result<Monomial, AllocError>
        ensures { IfOk result (λ m. m ≡ self.now) }
    {
        let powers = copy_powers(alloc, &self.powers)?;
        Ok(Monomial { powers })
    }
}

#[cycle(copy)]
fn copy_powers(alloc: Global, powers: &[Power]) -> Result<Vec<Power>, AllocError>
    ensures { IfOk result (λ v. v.items ≡ powers.now) }
{
    let mut copies = Vec::with_capacity(alloc, powers.len())?;
    for power in powers {
        add(&mut copies, power.copy(alloc))?;
    }
    Ok(copies)
}

impl Product {
    #[cycle(copy)]
    fn copy(&self, alloc: Global) -> Result<Product, AllocError>
        ensures { IfOk result (λ p. p ≡ self.now) }
    {
        let monomial = self.monomial.copy(alloc)?;
        Ok(Product {
            monomial,
            coefficient: self.coefficient,
        })
    }
}

impl Polynomial {
    /// The same polynomial once more.
    #[cycle(copy)]
    pub fn copy(&self, alloc: Global) -> Result<Polynomial, AllocError>
        ensures { IfOk result (λ f. f ≡ self.now) }
    {
        let products = copy_products(alloc, &self.products)?;
        Ok(Polynomial { products })
    }
}

#[cycle(copy)]
fn copy_products(alloc: Global, products: &[Product]) -> Result<Vec<Product>, AllocError>
    ensures { IfOk result (λ v. v.items ≡ products.now) }
{
    let mut copies = Vec::with_capacity(alloc, products.len())?;
    for product in products {
        add(&mut copies, product.copy(alloc))?;
    }
    Ok(copies)
}

impl Pointer {
    /// The same pointer once more.
    #[cycle(copy)]
    #[inline(never)]
    pub fn copy(&self, alloc: Global) -> Result<Pointer, AllocError>
        ensures { IfOk result (λ p. p ≡ self.now) }
    {
        match &self.node {
            PointerNode::Null => Ok(PointerNode::Null.pointer()),
            PointerNode::Part(part) => {
                let part = one_box(alloc, part.copy(alloc))?;
                Ok(PointerNode::Part(part).pointer())
            }
            PointerNode::Choice(a, p, q) => {
                let sides = two_boxes(alloc, p.copy(alloc), q.copy(alloc));
                let (condition, (first, second)) = both(one_box(alloc, a.copy(alloc)), sides)?;
                Ok(PointerNode::Choice(condition, first, second).pointer())
            }
        }
    }
}

impl Scalar {
    /// The same form once more.
    #[cycle(copy)]
    #[inline(never)]
    pub fn copy(&self, alloc: Global) -> Result<Scalar, AllocError>
        ensures { IfOk result (λ x. x ≡ self.now) }
    {
        match &self.node {
            ScalarNode::Number(a) => Ok(ScalarNode::Number(a.copy(alloc)?).scalar()),
            ScalarNode::Truth(a) => Ok(ScalarNode::Truth(a.copy(alloc)?).scalar()),
            ScalarNode::Pointer(p) => Ok(ScalarNode::Pointer(p.copy(alloc)?).scalar()),
        }
    }
}

impl Scalars {
    #[cycle(copy)]
    fn copy(&self, alloc: Global) -> Result<Scalars, AllocError>
        ensures { IfOk result (λ xs. xs ≡ self.now) }
    {
        let items = copy_scalars(alloc, &self.items)?;
        Ok(Scalars { items })
    }
}

impl Operands {
    #[cycle(copy)]
    fn copy(&self, alloc: Global) -> Result<Operands, AllocError>
        ensures { IfOk result (λ xs. xs ≡ self.now) }
    {
        let items = copy_scalars(alloc, &self.items)?;
        Ok(Operands { items })
    }
}

#[cycle(copy)]
#[inline(never)]
fn copy_scalars(alloc: Global, scalars: &[Scalar]) -> Result<Vec<Scalar>, AllocError>
    ensures { IfOk result (λ v. v.items ≡ scalars.now) }
{
    let mut copies = Vec::with_capacity(alloc, scalars.len())?;
    for scalar in scalars {
        add(&mut copies, scalar.copy(alloc))?;
    }
    Ok(copies)
}
