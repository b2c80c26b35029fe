//! From two monomials to their product: `times` of `specs/Products.antt`.

ghost use Rattle.std.specs.Prelude.{◌≡◌, ◌<◌, ◌++◌, length, drop, IfOk, OnOk};
ghost use Rattle.ca_forms.specs.clauses.Next.{IsNext};
ghost use Rattle.ca_forms.specs.Plain.{no_products};
ghost use Rattle.ca_forms.specs.Seen.{over};
ghost use Rattle.ca_forms.specs.Products.{is_truth, is_truth_sort, joined, merge, times};

use crate::parts::add;
use crate::polynomial::{Monomial, Node, Part, Power, Unary};
use crate::sort::Sort;
use std::alloc::{AllocError, Global};
use std::cmp::Ordering;

fn is_truth_sort(sort: Sort) -> bool
    ensures { result ≡ is_truth_sort sort }
{
    match sort {
        Sort::Bool => true,
        _ => false,
    }
}

impl Part {
    /// Whether the part is a truth value.
    fn is_truth(&self) -> bool
        ensures { result ≡ is_truth self.now }
    {
        match &self.node {
            Node::Variable(s, _, _) => is_truth_sort(*s),
            Node::Over(f, _) => f.is_truth(),
            Node::Less(_, _) => true,
            Node::SamePointer(_, _) => true,
            Node::Field(s, _, _, _) => is_truth_sort(*s),
            Node::Item(s, _, _, _, _) => is_truth_sort(*s),
            Node::Result(s, _, _, _) => is_truth_sort(*s),
            Node::Fold(_, _, _) => false,
        }
    }
}

impl Unary {
    /// Whether what is asked of a number is a truth value.
    fn is_truth(self) -> bool
        ensures { result ≡ is_truth (over self no_products) }
    {
        match self {
            Unary::Zero => true,
            Unary::Quotient(_) => false,
            Unary::Modulus(_) => false,
            Unary::OwnItem(s, _, _) => is_truth_sort(s),
        }
    }
}

/// Two powers of one part. An exponent that has no room in 64 bits counts as out of memory.
fn joined(alloc: Global, a: &Power, b: &Power) -> Result<Power, AllocError>
    ensures { IfOk result (λ p. p ≡ joined a.now b.now) }
{
    let exponent = if a.part.is_truth() {
        a.exponent
    } else {
        match a.exponent.checked_add(b.exponent) {
            Some(sum) => sum,
            None => return Err(AllocError),
        }
    };
    let part = a.part.copy(alloc)?;
    Ok(Power { part, exponent })
}

/// The powers of a list from a place on, behind others.
fn add_powers(
    alloc: Global,
    powers: &mut Vec<Power>,
    list: &[Power],
    place: usize,
) -> Result<(), AllocError>
    ensures { OnOk result (powers.new.items ≡ powers.old.items ++ drop place list.now) }
{
    let mut i = place;
    while i < list.len() {
        add(powers, list[i].copy(alloc))?;
        i += 1;
    }
    Ok(())
}

/// The next power of the product of what stands from two places on, and the places behind it.
fn next(
    alloc: Global,
    a: &[Power],
    i: usize,
    b: &[Power],
    j: usize,
) -> (Result<Power, AllocError>, usize, usize)
    requires { (i < length a.now) × (j < length b.now) }
    ensures { IsNext a.now i b.now j result }
{
    let x = &a[i];
    let y = &b[j];
    match x.part.compare(&y.part) {
        Ordering::Less => (x.copy(alloc), i + 1, j),
        Ordering::Equal => (joined(alloc, x, y), i + 1, j + 1),
        Ordering::Greater => (y.copy(alloc), i, j + 1),
    }
}

/// The powers of both, by rising parts.
fn merged(alloc: Global, a: &[Power], b: &[Power]) -> Result<Vec<Power>, AllocError>
    ensures { IfOk result (λ v. v.items ≡ merge a.now b.now) }
{
    let mut powers = Vec::with_capacity(alloc, a.len().saturating_add(b.len()))?;
    let mut i = 0;
    let mut j = 0;
    while i < a.len() && j < b.len() {
        let (power, after_i, after_j) = next(alloc, a, i, b, j);
        add(&mut powers, power)?;
        i = after_i;
        j = after_j;
    }
    let first = add_powers(alloc, &mut powers, a, i);
    let both = first.and(add_powers(alloc, &mut powers, b, j));
    both.and(Ok(powers))
}

impl Monomial {
    /// The product of two monomials.
    #[inline(never)]
    pub fn times(&self, alloc: Global, other: &Monomial) -> Result<Monomial, AllocError>
        ensures { IfOk result (λ m. m ≡ times self.now other.now) }
    {
        let powers = merged(alloc, &self.powers, &other.powers)?;
        Ok(Monomial { powers })
    }
}
