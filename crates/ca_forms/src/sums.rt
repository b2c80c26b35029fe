//! Sums of products, gathered in an ordered map. What is added is told by what becomes of every total, so no
//! clause names an order of adding.

ghost use Rattle.std.specs.Prelude.{◌≡◌, ◌+◌, ◌*◌, ◌-◌, ◌%◌, ◌^◌, ◌++◌, IfOk, OnOk};
ghost use Rattle.std.specs.Option.{unwrap_or};
ghost use Rattle.std.specs.Map.{lookup};
ghost use Rattle.std.specs.BTreeMap.{is_at, IsOrdered};
ghost use Rattle.ca_sums.specs.Sums.{NoZero, Adds, AddsSum, scale};
ghost use Rattle.ca_sums.specs.Products.{row, product};
ghost use Rattle.ca_forms.specs.Lists.{polynomial_of, products_of};
ghost use Rattle.ca_forms.specs.Compare.{monomial_cmp, polynomial_cmp};
ghost use Rattle.ca_forms.specs.Products.{times};
ghost use Rattle.ca_forms.specs.Rules.{gathered, minus, opposite, smaller};
ghost use Rattle.ca_forms.specs.ArrayRules.{weighed};

use crate::polynomial::{Monomial, Polynomial, Product};
use std::alloc::{AllocError, Global};
use std::cmp::Ordering;
use std::collections::BTreeMap;

fn sum_at(form: &BTreeMap<Monomial, u64>, monomial: &Monomial, coefficient: u64) -> u64
    ensures { result ≡ (unwrap_or (lookup (is_at (monomial_cmp monomial.now)) form.now.entries) 0 + coefficient) % (2 ^ 64) }
{
    match form.get(monomial) {
        Some(old) => old.wrapping_add(coefficient),
        None => coefficient,
    }
}

/// Adds one product to a gathered sum, to its like if there is one. It stands apart from the recursions that
/// call it, whose frames are to be small.
#[inline(never)]
pub fn add_product(
    form: &mut BTreeMap<Monomial, u64>,
    monomial: Monomial,
    coefficient: u64,
) -> Result<(), AllocError>
    requires { NoZero form.old.entries }
    ensures nonzero { NoZero form.new.entries }
    ensures added { OnOk result (Adds form.old.entries form.new.entries monomial coefficient) }
{
    let sum = sum_at(form, &monomial, coefficient);
    if sum == 0 {
        form.remove(&monomial);
    } else {
        form.insert(monomial, sum)?;
    }
    Ok(())
}

/// Adds one product times each of the others, times the factor.
fn add_row(
    alloc: Global,
    form: &mut BTreeMap<Monomial, u64>,
    one: &Product,
    others: &[Product],
    factor: u64,
) -> Result<(), AllocError>
    requires { NoZero form.old.entries }
    ensures nonzero { NoZero form.new.entries }
    ensures added { OnOk result (AddsSum form.old.entries form.new.entries factor (row times one.now others.now)) }
{
    let first = factor.wrapping_mul(one.coefficient);
    for other in others {
        let monomial = one.monomial.times(alloc, &other.monomial)?;
        add_product(form, monomial, first.wrapping_mul(other.coefficient))?;
    }
    Ok(())
}

/// Adds the product of two sums, times the factor.
fn add_products(
    alloc: Global,
    form: &mut BTreeMap<Monomial, u64>,
    a: &[Product],
    b: &[Product],
    factor: u64,
) -> Result<(), AllocError>
    requires { NoZero form.old.entries }
    ensures nonzero { NoZero form.new.entries }
    ensures added { OnOk result (AddsSum form.old.entries form.new.entries factor (product times a.now b.now)) }
{
    for one in a {
        add_row(alloc, form, one, b, factor)?;
    }
    Ok(())
}

/// Adds the product of two polynomials, times the factor.
#[inline(never)]
pub fn add_product_of(
    alloc: Global,
    form: &mut BTreeMap<Monomial, u64>,
    f: &Polynomial,
    g: &Polynomial,
    factor: u64,
) -> Result<(), AllocError>
    requires { NoZero form.old.entries }
    ensures nonzero { NoZero form.new.entries }
    ensures added { OnOk result (AddsSum form.old.entries form.new.entries factor (product times (products_of f.now) (products_of g.now))) }
{
    add_products(alloc, form, &f.products, &g.products, factor)
}

/// The polynomial of gathered products.
#[inline(never)]
pub fn finish(alloc: Global, form: BTreeMap<Monomial, u64>) -> Result<Polynomial, AllocError>
    requires { NoZero form.entries }
    ensures value { IfOk result (λ f. f ≡ polynomial_of form.entries) }
    ensures ordered { IsOrdered monomial_cmp form }
{
    // Asked for its clause, that the entries are in order.
    let _count = form.len();
    let products = form
        .into_iter()
        .map(|(monomial, coefficient)| Product {
            monomial,
            coefficient,
        })
        .collect(alloc)?;
    Ok(Polynomial { products })
}

/// Adds products, times the factor.
fn add_all(
    alloc: Global,
    form: &mut BTreeMap<Monomial, u64>,
    products: &[Product],
    factor: u64,
) -> Result<(), AllocError>
    requires { NoZero form.old.entries }
    ensures nonzero { NoZero form.new.entries }
    ensures added { OnOk result (AddsSum form.old.entries form.new.entries factor products.now) }
{
    for product in products {
        let monomial = product.monomial.copy(alloc)?;
        add_product(form, monomial, factor.wrapping_mul(product.coefficient))?;
    }
    Ok(())
}

/// Adds a polynomial, times the factor.
#[inline(never)]
pub fn add_polynomial(
    alloc: Global,
    form: &mut BTreeMap<Monomial, u64>,
    f: &Polynomial,
    factor: u64,
) -> Result<(), AllocError>
    requires { NoZero form.old.entries }
    ensures nonzero { NoZero form.new.entries }
    ensures added { OnOk result (AddsSum form.old.entries form.new.entries factor (products_of f.now)) }
{
    add_all(alloc, form, &f.products, factor)
}

/// The difference of two polynomials.
#[inline(never)]
pub fn difference(alloc: Global, f: &Polynomial, g: &Polynomial) -> Result<Polynomial, AllocError>
    ensures { IfOk result (λ d. d ≡ gathered (products_of f.now ++ minus (products_of g.now))) }
{
    let mut form = BTreeMap::new(alloc);
    let first = add_polynomial(alloc, &mut form, f, 1);
    let both = first.and(add_polynomial(alloc, &mut form, g, u64::MAX));
    both.and(finish(alloc, form))
}

pub(crate) fn products_in(f: Polynomial) -> Vec<Product>
    ensures { result.items ≡ products_of f }
{
    f.products
}

/// Adds products, times the factor, without a copy.
fn add_owned(
    form: &mut BTreeMap<Monomial, u64>,
    products: Vec<Product>,
    factor: u64,
) -> Result<(), AllocError>
    requires { NoZero form.old.entries }
    ensures nonzero { NoZero form.new.entries }
    ensures added { OnOk result (AddsSum form.old.entries form.new.entries factor products.items) }
{
    let mut rest = products;
    while let Some(product) = rest.pop() {
        let Product {
            monomial,
            coefficient,
        } = product;
        add_product(form, monomial, factor.wrapping_mul(coefficient))?;
    }
    Ok(())
}

/// Adds a polynomial that is not needed any more, times the factor. Nothing is copied: a chain of operands would else be
/// copied once a level.
#[inline(never)]
pub fn add_whole(
    form: &mut BTreeMap<Monomial, u64>,
    f: Polynomial,
    factor: u64,
) -> Result<(), AllocError>
    requires { NoZero form.old.entries }
    ensures nonzero { NoZero form.new.entries }
    ensures added { OnOk result (AddsSum form.old.entries form.new.entries factor (products_of f)) }
{
    add_owned(form, products_in(f), factor)
}

/// A polynomial and a multiple of another, which are not needed any more. Nothing is copied: a chain of comparisons
/// would else be copied once a level.
#[inline(never)]
fn with_multiple(
    alloc: Global,
    f: Polynomial,
    g: Polynomial,
    factor: u64,
) -> Result<Polynomial, AllocError>
    ensures { IfOk result (λ s. s ≡ gathered (products_of f ++ scale factor (products_of g))) }
{
    let mut form = BTreeMap::new(alloc);
    let first = add_owned(&mut form, products_in(f), 1);
    let both = first.and(add_owned(&mut form, products_in(g), factor));
    both.and(finish(alloc, form))
}

/// The difference of two polynomials that are not needed any more.
pub fn apart(alloc: Global, f: Polynomial, g: Polynomial) -> Result<Polynomial, AllocError>
    ensures { IfOk result (λ d. d ≡ gathered (products_of f ++ minus (products_of g))) }
{
    with_multiple(alloc, f, g, u64::MAX)
}

/// The sum of two polynomials that are not needed any more.
pub fn together(alloc: Global, f: Polynomial, g: Polynomial) -> Result<Polynomial, AllocError>
    ensures { IfOk result (λ s. s ≡ gathered (products_of f ++ products_of g)) }
{
    with_multiple(alloc, f, g, 1)
}

/// The factor times the product of two polynomials.
#[inline(never)]
pub fn weighed(
    alloc: Global,
    f: &Polynomial,
    g: &Polynomial,
    factor: u64,
) -> Result<Polynomial, AllocError>
    ensures { IfOk result (λ p. p ≡ weighed factor f.now g.now) }
{
    let mut form = BTreeMap::new(alloc);
    add_product_of(alloc, &mut form, f, g, factor)?;
    finish(alloc, form)
}

fn turned(product: Product) -> Product
    ensures { result ≡ (product.0, (product.1 * (2 ^ 64 - 1)) % (2 ^ 64)) }
{
    let Product {
        monomial,
        coefficient,
    } = product;
    Product {
        monomial,
        coefficient: coefficient.wrapping_mul(u64::MAX),
    }
}

fn opposite(alloc: Global, f: Polynomial) -> Result<Polynomial, AllocError>
    ensures { IfOk result (λ g. g ≡ opposite f) }
{
    let products = products_in(f)
        .into_iter()
        .map(|product| turned(product))
        .collect(alloc)?;
    Ok(Polynomial { products })
}

/// How a polynomial compares with its negation: both have the same monomials.
fn against_opposite(products: &[Product]) -> Ordering
    ensures { result ≡ polynomial_cmp (polynomial_of products.now) (opposite (polynomial_of products.now)) }
{
    for product in products {
        let negated = product.coefficient.wrapping_mul(u64::MAX);
        match product.coefficient.cmp(&negated) {
            Ordering::Equal => {}
            order => return order,
        }
    }
    Ordering::Equal
}

/// The smaller of a polynomial and its negation.
#[inline(never)]
pub fn smaller_sign(alloc: Global, f: Polynomial) -> Result<Polynomial, AllocError>
    ensures { IfOk result (λ g. g ≡ smaller f (opposite f)) }
{
    match against_opposite(&f.products) {
        Ordering::Greater => opposite(alloc, f),
        _ => Ok(f),
    }
}
