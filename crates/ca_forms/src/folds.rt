//! The forms of operators whose operands may stand in any order.

ghost use Rattle.std.specs.Prelude.{◌≡◌, ◌∷◌, [], List, ℕ, Some, is_some, IfOk};
ghost use Rattle.ca_folds.specs.declared.operator.FoldOp.{FoldOp};
ghost use Rattle.ca_folds.specs.Operands.{parts_of, formed};
ghost use Rattle.ca_forms.specs.Plain.{PlainScalar, number_form};
ghost use Rattle.ca_forms.specs.Lists.{polynomial_of, monomial_of};
ghost use Rattle.ca_forms.specs.Rules.{constancy};
ghost use Rattle.ca_forms.specs.Folds.{items_of, part_made, monomial_made, made_in, word_form, alone_form, word_scalar, fold_scalar, number_in, fold_form};

use crate::operands::joined;
use crate::parts::{add, both, let_go};
use crate::polynomial::{
    Monomial, Node, Operands, Part, Polynomial, Power, Product, Scalar, ScalarNode,
};
use crate::sums::products_in;
use ca_folds::FoldOp;
use std::alloc::{AllocError, Global};

impl Part {
    /// Whether the operator made it of operands.
    fn is_fold_of(&self, op: FoldOp) -> bool
        ensures { result ≡ is_some (part_made op self.now) }
    {
        match &self.node {
            Node::Fold(o, _, _) => op.number() == o.number(),
            _ => false,
        }
    }
}

/// Whether powers are one such part, once.
fn is_made_power(op: FoldOp, powers: &[Power]) -> bool
    ensures { result ≡ is_some (monomial_made op (monomial_of powers.now)) }
{
    if powers.len() != 1 {
        return false;
    }
    let power = &powers[0];
    if power.exponent != 1 {
        return false;
    }
    power.part.is_fold_of(op)
}

impl Monomial {
    fn is_made(&self, op: FoldOp) -> bool
        ensures { result ≡ is_some (monomial_made op self.now) }
    {
        is_made_power(op, &self.powers)
    }
}

/// Whether products are one such product, with the coefficient 1.
fn is_made_product(op: FoldOp, products: &[Product]) -> bool
    ensures { result ≡ is_some (made_in op (polynomial_of products.now)) }
{
    if products.len() != 1 {
        return false;
    }
    let product = &products[0];
    if product.coefficient != 1 {
        return false;
    }
    product.monomial.is_made(op)
}

impl Polynomial {
    /// Whether the operator made it of operands.
    fn is_made(&self, op: FoldOp) -> bool
        ensures { result ≡ is_some (made_in op self.now) }
    {
        is_made_product(op, &self.products)
    }
}

/// What an operator made a part of.
fn opened_part(alloc: Global, part: Part) -> (u64, Operands)
    ensures { (op : FoldOp) (s : ℕ × List PlainScalar) → part_made op part ≡ Some s → (result.0, items_of result.1) ≡ s }
{
    match part.node {
        Node::Fold(_, word, others) => (word, others),
        other => {
            let_go(other.part());
            (0, Operands::empty(alloc))
        }
    }
}

fn opened_product(alloc: Global, product: Product) -> (u64, Operands)
    ensures { (op : FoldOp) (s : ℕ × List PlainScalar) → monomial_made op product.0 ≡ Some s → (result.0, items_of result.1) ≡ s }
{
    let Product {
        monomial,
        coefficient: _,
    } = product;
    let Monomial { powers } = monomial;
    let mut rest = powers;
    match rest.pop() {
        Some(power) => {
            let Power { part, exponent: _ } = power;
            opened_part(alloc, part)
        }
        None => (0, Operands::empty(alloc)),
    }
}

/// What an operator made a number of.
fn opened(alloc: Global, f: Polynomial) -> (u64, Operands)
    ensures { (op : FoldOp) (s : ℕ × List PlainScalar) → made_in op f ≡ Some s → (result.0, items_of result.1) ≡ s }
{
    let mut products = products_in(f);
    match products.pop() {
        Some(product) => opened_product(alloc, product),
        None => (0, Operands::empty(alloc)),
    }
}

/// A number as a word and operands in order.
fn parted(alloc: Global, op: FoldOp, f: Polynomial) -> Result<(u64, Operands), AllocError>
    ensures { IfOk result (λ s. (s.0, items_of s.1) ≡ parts_of op (constancy f) (made_in op f) (number_form f)) }
{
    if let Some(n) = f.constant() {
        return Ok((n, Operands::empty(alloc)));
    }
    let made = f.is_made(op);
    if made {
        return Ok(opened(alloc, f));
    }
    let mut one = Vec::new(alloc);
    add(&mut one, Ok(Scalar::number(f)))?;
    Ok((op.neutral(), Operands::rising(one)))
}

/// A word as a number.
fn word_form(alloc: Global, n: u64) -> Result<Polynomial, AllocError>
    ensures { IfOk result (λ f. f ≡ word_form n) }
{
    let mut products = Vec::new(alloc);
    if n != 0 {
        let monomial = Monomial {
            powers: Vec::new(alloc),
        };
        products.push(Product {
            monomial,
            coefficient: n,
        })?;
    }
    Ok(Polynomial { products })
}

/// A part alone as a number.
fn alone_form(alloc: Global, part: Part) -> Result<Polynomial, AllocError>
    ensures { IfOk result (λ f. f ≡ alone_form part) }
{
    let mut powers = Vec::new(alloc);
    powers.push(Power { part, exponent: 1 })?;
    let mut products = Vec::new(alloc);
    products.push(Product {
        monomial: Monomial { powers },
        coefficient: 1,
    })?;
    Ok(Polynomial { products })
}

/// The number that an operand is.
fn number_in(alloc: Global, operand: Scalar) -> Polynomial
    ensures { result ≡ number_in operand }
{
    match operand.node {
        ScalarNode::Number(f) => f,
        ScalarNode::Truth(f) => f,
        ScalarNode::Pointer(p) => {
            let_go(p);
            Polynomial {
                products: Vec::new(alloc),
            }
        }
    }
}

/// The number that an operand is which stands alone.
fn only_number(alloc: Global, operands: Operands) -> Polynomial
    ensures { (x : PlainScalar) → items_of operands ≡ x ∷ [] → result ≡ number_in x }
{
    let mut rest = operands.into_items();
    match rest.pop() {
        Some(only) => number_in(alloc, only),
        None => Polynomial {
            products: Vec::new(alloc),
        },
    }
}

/// The form of a word and operands in order.
fn formed(alloc: Global, op: FoldOp, word: u64, others: Operands) -> Result<Polynomial, AllocError>
    ensures { IfOk result (λ h. h ≡ number_in (formed op word_scalar (fold_scalar op) word (items_of others))) }
{
    let count = others.count();
    let single = count == 1 && word == op.neutral();
    if count == 0 {
        let_go(others);
        return word_form(alloc, word);
    }
    if single {
        return Ok(only_number(alloc, others));
    }
    alone_form(alloc, Node::Fold(op, word, others).part())
}

/// The form of the operator on two numbers: operands that it made of others are taken apart, words become one word, and
/// an operand that stands several times stands once, or goes with its like.
#[inline(never)]
pub fn fold_form(
    alloc: Global,
    op: FoldOp,
    f: Polynomial,
    g: Polynomial,
) -> Result<Polynomial, AllocError>
    ensures { IfOk result (λ h. h ≡ fold_form op f g) }
{
    let ((m, xs), (n, ys)) = both(parted(alloc, op, f), parted(alloc, op, g))?;
    let word = op.folded(m, n);
    let absorbs = op.is_absorbing(word);
    if absorbs {
        let_go((xs, ys));
        return word_form(alloc, word);
    }
    let all = joined(alloc, op, xs, ys)?;
    formed(alloc, op, word, all)
}
