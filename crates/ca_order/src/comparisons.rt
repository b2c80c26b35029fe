//! Atoms and comparisons under an order.

ghost use Rattle.std.specs.Prelude.{◌≡◌, IfOk, OnOk};
ghost use Rattle.ca_sums.specs.Sums.{NoZero, AddsSum};
ghost use Rattle.ca_norm.specs.Terms.{shape};
ghost use Rattle.ca_norm.specs.Forms.{expand, pointer_of, array_of};
ghost use Rattle.ca_forms.specs.Rules.{negated, less_sum};
ghost use Rattle.ca_order.specs.Points.{point_term};
ghost use Rattle.ca_order.specs.Under.{atom_under};
ghost use Rattle.ca_order.specs.clauses.Gathered.{less_known, less_equal_known, same_known};

use crate::places::{Place, leader, rank_of_form, term_of};
use crate::point::Point;
use ca_forms::array::Array;
use ca_forms::polynomial::{Monomial, Part, Pointer, Polynomial};
use ca_forms::rules::{add_less, add_number, add_part, add_same, add_truth};
use ca_norm::gather::opposite;
use ca_norm::{Sort, Term};
use std::alloc::{AllocError, Global};
use std::collections::BTreeMap;

/// The term of an atom.
pub(crate) fn atom_under(places: &[Place], sort: Sort, group: u32, number: u32) -> Term
    ensures { shape result ≡ atom_under places.now sort group number }
{
    match sort {
        Sort::Long => term_of(leader(places, Point::Atom(group, number))),
        other => Term::Atom(other, group, number),
    }
}

/// The pointer that an atom is.
#[inline(never)]
pub(crate) fn atom_pointer(
    alloc: Global,
    places: &[Place],
    sort: Sort,
    group: u32,
    number: u32,
) -> Result<Pointer, AllocError>
    ensures { IfOk result (λ p. p ≡ pointer_of (atom_under places.now sort group number)) }
{
    let term = atom_under(places, sort, group, number);
    ca_norm::gather::pointer_of(alloc, &term)
}

/// The array that an atom is.
#[inline(never)]
pub(crate) fn atom_array(
    alloc: Global,
    places: &[Place],
    sort: Sort,
    group: u32,
    number: u32,
) -> Result<Array, AllocError>
    ensures { IfOk result (λ p. p ≡ array_of (atom_under places.now sort group number)) }
{
    let term = atom_under(places, sort, group, number);
    ca_norm::gather::array_of(alloc, &term)
}

/// Adds a point, times the factor.
fn add_point(
    alloc: Global,
    form: &mut BTreeMap<Monomial, u64>,
    point: Point,
    factor: u64,
) -> Result<(), AllocError>
    requires { NoZero form.old.entries }
    ensures nonzero { NoZero form.new.entries }
    ensures added { OnOk result (AddsSum form.old.entries form.new.entries factor (expand (point_term point))) }
{
    match point {
        Point::Number(n) => add_number(alloc, form, n.cast_unsigned(), factor),
        Point::Atom(group, number) => add_part(
            alloc,
            form,
            Part::atom(Sort::Long, group, number),
            factor,
        ),
    }
}

/// Adds an atom, times the factor.
#[inline(never)]
pub(crate) fn add_atom(
    alloc: Global,
    form: &mut BTreeMap<Monomial, u64>,
    places: &[Place],
    sort: Sort,
    group: u32,
    number: u32,
    factor: u64,
) -> Result<(), AllocError>
    requires { NoZero form.old.entries }
    ensures nonzero { NoZero form.new.entries }
    ensures added { OnOk result (AddsSum form.old.entries form.new.entries factor (expand (atom_under places.now sort group number))) }
{
    match sort {
        Sort::Long => add_point(
            alloc,
            form,
            leader(places, Point::Atom(group, number)),
            factor,
        ),
        other => add_part(alloc, form, Part::atom(other, group, number), factor),
    }
}

/// Adds whether a number is less than another, decided where both are points, times the factor.
#[inline(never)]
pub(crate) fn add_less_under(
    alloc: Global,
    form: &mut BTreeMap<Monomial, u64>,
    places: &[Place],
    f: Polynomial,
    g: Polynomial,
    factor: u64,
) -> Result<(), AllocError>
    requires { NoZero form.old.entries }
    ensures nonzero { NoZero form.new.entries }
    ensures added { OnOk result (AddsSum form.old.entries form.new.entries factor (less_known places.now f g)) }
{
    match (rank_of_form(places, &f), rank_of_form(places, &g)) {
        (Some(m), Some(n)) => add_truth(alloc, form, m < n, factor),
        _ => add_less(alloc, form, f, g, factor),
    }
}

/// The same of at most.
#[inline(never)]
pub(crate) fn add_less_equal_under(
    alloc: Global,
    form: &mut BTreeMap<Monomial, u64>,
    places: &[Place],
    f: Polynomial,
    g: Polynomial,
    factor: u64,
) -> Result<(), AllocError>
    requires { NoZero form.old.entries }
    ensures nonzero { NoZero form.new.entries }
    ensures added { OnOk result (AddsSum form.old.entries form.new.entries factor (less_equal_known places.now f g)) }
{
    match (rank_of_form(places, &f), rank_of_form(places, &g)) {
        (Some(m), Some(n)) => add_truth(alloc, form, m <= n, factor),
        _ => add_not_less(alloc, form, g, f, factor),
    }
}

/// Adds whether a number is not less than another, times the factor.
fn add_not_less(
    alloc: Global,
    form: &mut BTreeMap<Monomial, u64>,
    f: Polynomial,
    g: Polynomial,
    factor: u64,
) -> Result<(), AllocError>
    requires { NoZero form.old.entries }
    ensures nonzero { NoZero form.new.entries }
    ensures added { OnOk result (AddsSum form.old.entries form.new.entries factor (negated (less_sum f g))) }
{
    add_truth(alloc, form, true, factor)?;
    add_less(alloc, form, f, g, opposite(factor))
}

/// The same of equal.
#[inline(never)]
pub(crate) fn add_same_under(
    alloc: Global,
    form: &mut BTreeMap<Monomial, u64>,
    places: &[Place],
    f: Polynomial,
    g: Polynomial,
    factor: u64,
) -> Result<(), AllocError>
    requires { NoZero form.old.entries }
    ensures nonzero { NoZero form.new.entries }
    ensures added { OnOk result (AddsSum form.old.entries form.new.entries factor (same_known places.now f g)) }
{
    match (rank_of_form(places, &f), rank_of_form(places, &g)) {
        (Some(m), Some(n)) => add_truth(alloc, form, m == n, factor),
        _ => add_same(alloc, form, f, g, factor),
    }
}
