//! The places of points that a term compares under an order.

ghost use Rattle.std.specs.Prelude.{◌≡◌, map, OnOk};
ghost use Rattle.ca_norm.specs.Terms.{shape, sort_of, terms_of};
ghost use Rattle.ca_order.specs.Asked.{has_pair, with_pair, with_sides, with_equal, asked, all_asked};

use crate::forms::place_of_form;
use crate::gather::polynomial_of;
use crate::places::Place;
use ca_forms::parts::both;
use ca_norm::{Sort, Term};
use std::alloc::{AllocError, Global};

/// Whether a pair stands in a list.
fn has_pair(first: usize, second: usize, pairs: &[(usize, usize)]) -> bool
    ensures { result ≡ has_pair first second pairs.now }
{
    for pair in pairs {
        if first == pair.0 && second == pair.1 {
            return true;
        }
    }
    false
}

/// A pair of places more, unless it is there.
fn add_pair(
    pairs: &mut Vec<(usize, usize)>,
    first: Option<usize>,
    second: Option<usize>,
) -> Result<(), AllocError>
    ensures { OnOk result (pairs.new.items ≡ with_pair first second pairs.old.items) }
{
    match (first, second) {
        (Some(i), Some(j)) => {
            if has_pair(i, j, pairs.as_slice()) {
                return Ok(());
            }
            pairs.push((i, j))?;
            Ok(())
        }
        _ => Ok(()),
    }
}

/// The places of the forms of two sides, which are formed once more.
fn add_sides(
    alloc: Global,
    pairs: &mut Vec<(usize, usize)>,
    places: &[Place],
    a: &Term,
    b: &Term,
) -> Result<(), AllocError>
    ensures { OnOk result (pairs.new.items ≡ with_sides places.now (shape a.now) (shape b.now) pairs.old.items) }
{
    let (f, g) = both(
        polynomial_of(alloc, places, a),
        polynomial_of(alloc, places, b),
    )?;
    let (first, second) = (place_of_form(places, &f), place_of_form(places, &g));
    add_pair(pairs, first, second)
}

/// The same where they are numbers.
fn add_equal(
    alloc: Global,
    pairs: &mut Vec<(usize, usize)>,
    places: &[Place],
    a: &Term,
    b: &Term,
) -> Result<(), AllocError>
    ensures { OnOk result (pairs.new.items ≡ with_equal places.now (sort_of (shape a.now)) (shape a.now) (shape b.now) pairs.old.items) }
{
    match a.sort() {
        Sort::Long => add_sides(alloc, pairs, places, a, b),
        _ => Ok(()),
    }
}

/// The places of the points that a term compares. It recurses as deep as the term is.
#[cycle(asked)]
#[inline(never)]
pub(crate) fn add_asked(
    alloc: Global,
    pairs: &mut Vec<(usize, usize)>,
    places: &[Place],
    term: &Term,
) -> Result<(), AllocError>
    ensures { OnOk result (pairs.new.items ≡ asked places.now (shape term.now) pairs.old.items) }
{
    match term {
        Term::Number(_) | Term::Truth(_) | Term::Null | Term::Atom(_, _, _) => Ok(()),
        Term::Neg(a) => add_asked(alloc, pairs, places, a),
        Term::Not(a) => add_asked(alloc, pairs, places, a),
        Term::Divide(a, _) => add_asked(alloc, pairs, places, a),
        Term::Remainder(a, _) => add_asked(alloc, pairs, places, a),
        Term::Read(_, a, _, _) => add_asked(alloc, pairs, places, a),
        Term::Add(a, b) => {
            add_asked(alloc, pairs, places, a)?;
            add_asked(alloc, pairs, places, b)
        }
        Term::Sub(a, b) => {
            add_asked(alloc, pairs, places, a)?;
            add_asked(alloc, pairs, places, b)
        }
        Term::Mul(a, b) => {
            add_asked(alloc, pairs, places, a)?;
            add_asked(alloc, pairs, places, b)
        }
        Term::And(a, b) => {
            add_asked(alloc, pairs, places, a)?;
            add_asked(alloc, pairs, places, b)
        }
        Term::Or(a, b) => {
            add_asked(alloc, pairs, places, a)?;
            add_asked(alloc, pairs, places, b)
        }
        Term::Select(a, b) => {
            add_asked(alloc, pairs, places, a)?;
            add_asked(alloc, pairs, places, b)
        }
        Term::Fold(_, a, b) => {
            add_asked(alloc, pairs, places, a)?;
            add_asked(alloc, pairs, places, b)
        }
        Term::ReadAt(_, a, _, _, b) => {
            add_asked(alloc, pairs, places, a)?;
            add_asked(alloc, pairs, places, b)
        }
        Term::Less(a, b) => {
            add_asked(alloc, pairs, places, a)?;
            add_asked(alloc, pairs, places, b)?;
            add_sides(alloc, pairs, places, a, b)
        }
        Term::LessEqual(a, b) => {
            add_asked(alloc, pairs, places, a)?;
            add_asked(alloc, pairs, places, b)?;
            add_sides(alloc, pairs, places, a, b)
        }
        Term::Same(a, b) => {
            add_asked(alloc, pairs, places, a)?;
            add_asked(alloc, pairs, places, b)?;
            add_equal(alloc, pairs, places, a, b)
        }
        Term::Choose(a, b, c) => {
            add_asked(alloc, pairs, places, a)?;
            add_asked(alloc, pairs, places, b)?;
            add_asked(alloc, pairs, places, c)
        }
        Term::Put(a, b, c) => {
            add_asked(alloc, pairs, places, a)?;
            add_asked(alloc, pairs, places, b)?;
            add_asked(alloc, pairs, places, c)
        }
        Term::AddAt(a, b, c) => {
            add_asked(alloc, pairs, places, a)?;
            add_asked(alloc, pairs, places, b)?;
            add_asked(alloc, pairs, places, c)
        }
        Term::Sweep(a, b, c, d) => {
            add_asked(alloc, pairs, places, a)?;
            add_asked(alloc, pairs, places, b)?;
            add_asked(alloc, pairs, places, c)?;
            add_asked(alloc, pairs, places, d)
        }
        Term::Result(_, _, p, args) => {
            add_asked(alloc, pairs, places, p)?;
            add_all(alloc, pairs, places, args.as_slice())
        }
    }
}

/// The same of the arguments of a call.
#[cycle(asked)]
#[inline(never)]
fn add_all(
    alloc: Global,
    pairs: &mut Vec<(usize, usize)>,
    places: &[Place],
    terms: &[Term],
) -> Result<(), AllocError>
    ensures { OnOk result (pairs.new.items ≡ all_asked places.now (terms_of (map shape terms.now)) pairs.old.items) }
{
    for term in terms {
        add_asked(alloc, pairs, places, term)?;
    }
    Ok(())
}
