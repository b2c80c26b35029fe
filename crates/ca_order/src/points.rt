//! The points of two terms.

ghost use Rattle.std.specs.Prelude.{◌≡◌, map, IfOk, OnOk};
ghost use Rattle.ca_norm.specs.Terms.{shape, terms_of};
ghost use Rattle.ca_order.specs.OrderSame.{with_point, points_of};
ghost use Rattle.ca_order.specs.clauses.Added.{added_side, added_atom, added, added_all};

use crate::point::Point;
use ca_norm::{Sort, Term};
use std::alloc::{AllocError, Global};
use std::collections::BTreeSet;

/// One point more.
#[inline(never)]
fn add_point(set: &mut BTreeSet<Point>, point: Point) -> Result<(), AllocError>
    ensures { OnOk result (set.new.keys ≡ with_point point set.old.keys) }
{
    set.insert(point)?;
    Ok(())
}

/// An atom that is a number.
#[inline(never)]
fn add_atom(
    set: &mut BTreeSet<Point>,
    sort: Sort,
    group: u32,
    number: u32,
) -> Result<(), AllocError>
    ensures { OnOk result (set.new.keys ≡ added_atom sort group number set.old.keys) }
{
    match sort {
        Sort::Long => add_point(set, Point::Atom(group, number)),
        _ => Ok(()),
    }
}

/// A side of a comparison that is a number.
#[inline(never)]
fn add_side(set: &mut BTreeSet<Point>, term: &Term) -> Result<(), AllocError>
    ensures { OnOk result (set.new.keys ≡ added_side (shape term.now) set.old.keys) }
{
    match term {
        Term::Number(n) => add_point(set, Point::Number(*n)),
        _ => Ok(()),
    }
}

/// Sides of a comparison, the second first.
#[inline(never)]
fn add_sides(set: &mut BTreeSet<Point>, a: &Term, b: &Term) -> Result<(), AllocError>
    ensures { OnOk result (set.new.keys ≡ added_side (shape a.now) (added_side (shape b.now) set.old.keys)) }
{
    add_side(set, b)?;
    add_side(set, a)
}

/// The points of a term, the last first. It recurses as deep as the term is.
#[cycle(points)]
#[inline(never)]
fn add_points(set: &mut BTreeSet<Point>, term: &Term) -> Result<(), AllocError>
    ensures { OnOk result (set.new.keys ≡ added (shape term.now) set.old.keys) }
{
    match term {
        Term::Number(_) | Term::Truth(_) | Term::Null => Ok(()),
        Term::Atom(sort, group, number) => add_atom(set, *sort, *group, *number),
        Term::Neg(a) => add_points(set, a),
        Term::Not(a) => add_points(set, a),
        Term::Divide(a, _) => add_points(set, a),
        Term::Remainder(a, _) => add_points(set, a),
        Term::Read(_, a, _, _) => add_points(set, a),
        Term::Add(a, b) => {
            add_points(set, b)?;
            add_points(set, a)
        }
        Term::Sub(a, b) => {
            add_points(set, b)?;
            add_points(set, a)
        }
        Term::Mul(a, b) => {
            add_points(set, b)?;
            add_points(set, a)
        }
        Term::And(a, b) => {
            add_points(set, b)?;
            add_points(set, a)
        }
        Term::Or(a, b) => {
            add_points(set, b)?;
            add_points(set, a)
        }
        Term::Select(a, b) => {
            add_points(set, b)?;
            add_points(set, a)
        }
        Term::Fold(_, a, b) => {
            add_points(set, b)?;
            add_points(set, a)
        }
        Term::ReadAt(_, a, _, _, b) => {
            add_points(set, b)?;
            add_points(set, a)
        }
        Term::Less(a, b) => {
            add_points(set, b)?;
            add_points(set, a)?;
            add_sides(set, a, b)
        }
        Term::LessEqual(a, b) => {
            add_points(set, b)?;
            add_points(set, a)?;
            add_sides(set, a, b)
        }
        Term::Same(a, b) => {
            add_points(set, b)?;
            add_points(set, a)?;
            add_sides(set, a, b)
        }
        Term::Choose(a, b, c) => {
            add_points(set, c)?;
            add_points(set, b)?;
            add_points(set, a)
        }
        Term::Put(a, b, c) => {
            add_points(set, c)?;
            add_points(set, b)?;
            add_points(set, a)
        }
        Term::AddAt(a, b, c) => {
            add_points(set, c)?;
            add_points(set, b)?;
            add_points(set, a)
        }
        Term::Sweep(a, b, c, d) => {
            add_points(set, d)?;
            add_points(set, c)?;
            add_points(set, b)?;
            add_points(set, a)
        }
        Term::Result(_, _, p, args) => {
            add_all(set, args.as_slice())?;
            add_points(set, p)
        }
    }
}

/// The points of the arguments of a call, the last first.
#[cycle(points)]
#[inline(never)]
fn add_all(set: &mut BTreeSet<Point>, terms: &[Term]) -> Result<(), AllocError>
    ensures { OnOk result (set.new.keys ≡ added_all (terms_of (map shape terms.now)) set.old.keys) }
{
    let mut left = terms.len();
    while left > 0 {
        left -= 1;
        add_points(set, &terms[left])?;
    }
    Ok(())
}

/// What stands in a set, in order.
fn listed(alloc: Global, set: BTreeSet<Point>) -> Result<Vec<Point>, AllocError>
    ensures { IfOk result (λ v. v.items ≡ set.keys) }
{
    Ok(set.into_iter().collect(alloc)?)
}

/// The numbers that are sides of comparisons in two terms, by value, and their atoms that are numbers, by group and number.
pub fn points(alloc: Global, first: &Term, second: &Term) -> Result<Vec<Point>, AllocError>
    ensures { IfOk result (λ v. v.items ≡ points_of (shape first.now) (shape second.now)) }
{
    let mut set = BTreeSet::new(alloc);
    add_points(&mut set, second)?;
    add_points(&mut set, first)?;
    listed(alloc, set)
}
