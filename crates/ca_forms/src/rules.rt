//! The rules of normal forms of numbers and truth values, on sums that are gathered in an ordered map. Each
//! adds what a term comes to, times a factor, from the polynomials of its parts.

ghost use Rattle.std.specs.Prelude.{◌≡◌, OnOk};
ghost use Rattle.ca_sums.specs.Sums.{NoZero, AddsSum};
ghost use Rattle.ca_forms.specs.Lists.{polynomial_of, products_of};
ghost use Rattle.ca_forms.specs.Rules.{alone, constant, truth_sum, chosen, either, is_one, constancy, is_below, less_sum, zero_sum, same_numbers, same_truths, divided, left_over, quotient_sum, modulus_sum};

use crate::polynomial::{Monomial, Node, Part, Polynomial, Power, Product, Unary};
use crate::sums::{add_polynomial, add_product, add_product_of, apart, difference, smaller_sign};
use std::alloc::{AllocError, Global};
use std::cmp::Ordering;
use std::collections::BTreeMap;

impl Polynomial {
    /// The word that the polynomial is, if it is a number.
    pub(crate) fn constant(&self) -> Option<u64>
        ensures { result ≡ constancy self.now }
    {
        constant_of(&self.products)
    }
}

fn constant_of(products: &[Product]) -> Option<u64>
    ensures { result ≡ constancy (polynomial_of products.now) }
{
    if products.len() == 0 {
        return Some(0);
    }
    let first = &products[0];
    if products.len() == 1 && first.monomial.is_one() {
        Some(first.coefficient)
    } else {
        None
    }
}

impl Monomial {
    /// Whether no power stands in it.
    fn is_one(&self) -> bool
        ensures { result ≡ is_one self.now }
    {
        self.powers.len() == 0
    }
}

/// Whether a word is less than another, both read as signed numbers.
fn is_below(m: u64, n: u64) -> bool
    ensures { result ≡ is_below m n }
{
    m.cast_signed() < n.cast_signed()
}

/// Adds a number, times the factor.
#[inline(never)]
pub fn add_number(
    alloc: Global,
    form: &mut BTreeMap<Monomial, u64>,
    n: u64,
    factor: u64,
) -> Result<(), AllocError>
    requires { NoZero form.old.entries }
    ensures nonzero { NoZero form.new.entries }
    ensures added { OnOk result (AddsSum form.old.entries form.new.entries factor (constant n)) }
{
    let one = Monomial {
        powers: Vec::new(alloc),
    };
    add_product(form, one, factor.wrapping_mul(n))
}

/// Adds a truth value, times the factor.
#[inline(never)]
pub fn add_truth(
    alloc: Global,
    form: &mut BTreeMap<Monomial, u64>,
    value: bool,
    factor: u64,
) -> Result<(), AllocError>
    requires { NoZero form.old.entries }
    ensures nonzero { NoZero form.new.entries }
    ensures added { OnOk result (AddsSum form.old.entries form.new.entries factor (truth_sum value)) }
{
    if value {
        let one = Monomial {
            powers: Vec::new(alloc),
        };
        add_product(form, one, factor)?;
    }
    Ok(())
}

/// Adds a part alone, times the factor.
#[inline(never)]
pub fn add_part(
    alloc: Global,
    form: &mut BTreeMap<Monomial, u64>,
    part: Part,
    factor: u64,
) -> Result<(), AllocError>
    requires { NoZero form.old.entries }
    ensures nonzero { NoZero form.new.entries }
    ensures added { OnOk result (AddsSum form.old.entries form.new.entries factor (alone part)) }
{
    let mut powers = Vec::new(alloc);
    powers.push(Power { part, exponent: 1 })?;
    add_product(form, Monomial { powers }, factor)
}

/// Adds whether one polynomial is less than another, times the factor.
#[inline(never)]
pub fn add_less(
    alloc: Global,
    form: &mut BTreeMap<Monomial, u64>,
    f: Polynomial,
    g: Polynomial,
    factor: u64,
) -> Result<(), AllocError>
    requires { NoZero form.old.entries }
    ensures nonzero { NoZero form.new.entries }
    ensures added { OnOk result (AddsSum form.old.entries form.new.entries factor (less_sum f g)) }
{
    if let Some(m) = f.constant() {
        if let Some(n) = g.constant() {
            return add_truth(alloc, form, is_below(m, n), factor);
        }
    }
    match f.compare(&g) {
        Ordering::Equal => Ok(()),
        _ => add_part(alloc, form, Node::Less(f, g).part(), factor),
    }
}

/// Adds whether a number is zero, times the factor.
#[inline(never)]
fn add_zero(
    alloc: Global,
    form: &mut BTreeMap<Monomial, u64>,
    f: Polynomial,
    factor: u64,
) -> Result<(), AllocError>
    requires { NoZero form.old.entries }
    ensures nonzero { NoZero form.new.entries }
    ensures added { OnOk result (AddsSum form.old.entries form.new.entries factor (zero_sum f)) }
{
    match f.constant() {
        Some(n) => add_truth(alloc, form, n == 0, factor),
        None => {
            let nearer = smaller_sign(alloc, f)?;
            add_part(alloc, form, Node::Over(Unary::Zero, nearer).part(), factor)
        }
    }
}

/// Adds whether two numbers are equal, times the factor.
#[inline(never)]
pub fn add_same(
    alloc: Global,
    form: &mut BTreeMap<Monomial, u64>,
    f: Polynomial,
    g: Polynomial,
    factor: u64,
) -> Result<(), AllocError>
    requires { NoZero form.old.entries }
    ensures nonzero { NoZero form.new.entries }
    ensures added { OnOk result (AddsSum form.old.entries form.new.entries factor (same_numbers (products_of f) (products_of g))) }
{
    let between = apart(alloc, f, g)?;
    add_zero(alloc, form, between, factor)
}

/// Adds whether two truth values are equal, times the factor.
#[inline(never)]
pub fn add_same_truths(
    alloc: Global,
    form: &mut BTreeMap<Monomial, u64>,
    f: &Polynomial,
    g: &Polynomial,
    factor: u64,
) -> Result<(), AllocError>
    requires { NoZero form.old.entries }
    ensures nonzero { NoZero form.new.entries }
    ensures added { OnOk result (AddsSum form.old.entries form.new.entries factor (same_truths (products_of f.now) (products_of g.now))) }
{
    let minus = factor.wrapping_mul(u64::MAX);
    let one = add_truth(alloc, form, true, factor);
    let first = one.and(add_polynomial(alloc, form, f, minus));
    let second = first.and(add_polynomial(alloc, form, g, minus));
    second.and(add_product_of(alloc, form, f, g, factor.wrapping_mul(2)))
}

/// Adds whether one of two truth values holds, times the factor.
#[inline(never)]
pub fn add_either(
    alloc: Global,
    form: &mut BTreeMap<Monomial, u64>,
    f: &Polynomial,
    g: &Polynomial,
    factor: u64,
) -> Result<(), AllocError>
    requires { NoZero form.old.entries }
    ensures nonzero { NoZero form.new.entries }
    ensures added { OnOk result (AddsSum form.old.entries form.new.entries factor (either (products_of f.now) (products_of g.now))) }
{
    let first = add_polynomial(alloc, form, f, factor);
    let second = first.and(add_polynomial(alloc, form, g, factor));
    second.and(add_product_of(alloc, form, f, g, factor.wrapping_mul(u64::MAX)))
}

/// Adds the second where the first holds, and else the third, times the factor.
#[inline(never)]
pub fn add_chosen(
    alloc: Global,
    form: &mut BTreeMap<Monomial, u64>,
    f: &Polynomial,
    g: &Polynomial,
    h: &Polynomial,
    factor: u64,
) -> Result<(), AllocError>
    requires { NoZero form.old.entries }
    ensures nonzero { NoZero form.new.entries }
    ensures added { OnOk result (AddsSum form.old.entries form.new.entries factor (chosen (products_of f.now) (products_of g.now) (products_of h.now))) }
{
    let apart = difference(alloc, g, h)?;
    add_polynomial(alloc, form, h, factor)?;
    add_product_of(alloc, form, f, &apart, factor)
}

fn divided(m: u64, n: i64) -> u64
    ensures { result ≡ divided m n }
{
    if n == 0 {
        0
    } else {
        m.cast_signed().wrapping_div(n).cast_unsigned()
    }
}

fn left_over(m: u64, n: i64) -> u64
    ensures { result ≡ left_over m n }
{
    if n == 0 {
        0
    } else {
        m.cast_signed().wrapping_rem(n).cast_unsigned()
    }
}

/// Adds a number divided by another and rounded towards zero, times the factor.
#[inline(never)]
pub fn add_quotient(
    alloc: Global,
    form: &mut BTreeMap<Monomial, u64>,
    f: Polynomial,
    n: i64,
    factor: u64,
) -> Result<(), AllocError>
    requires { NoZero form.old.entries }
    ensures nonzero { NoZero form.new.entries }
    ensures added { OnOk result (AddsSum form.old.entries form.new.entries factor (quotient_sum f n)) }
{
    match f.constant() {
        Some(m) => add_number(alloc, form, divided(m, n), factor),
        None => add_part(
            alloc,
            form,
            Node::Over(Unary::Quotient(n.cast_unsigned()), f).part(),
            factor,
        ),
    }
}

/// Adds what that division leaves, times the factor.
#[inline(never)]
pub fn add_modulus(
    alloc: Global,
    form: &mut BTreeMap<Monomial, u64>,
    f: Polynomial,
    n: i64,
    factor: u64,
) -> Result<(), AllocError>
    requires { NoZero form.old.entries }
    ensures nonzero { NoZero form.new.entries }
    ensures added { OnOk result (AddsSum form.old.entries form.new.entries factor (modulus_sum f n)) }
{
    match f.constant() {
        Some(m) => add_number(alloc, form, left_over(m, n), factor),
        None => add_part(
            alloc,
            form,
            Node::Over(Unary::Modulus(n.cast_unsigned()), f).part(),
            factor,
        ),
    }
}
