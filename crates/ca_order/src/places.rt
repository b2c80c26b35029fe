//! An order of points: each with its rank and its form.

ghost use Rattle.std.specs.Prelude.{◌≡◌, IfOk};
ghost use Rattle.std.specs.Ordering.{is_eq};
ghost use Rattle.ca_forms.specs.Compare.{polynomial_cmp};
ghost use Rattle.ca_norm.specs.Terms.{shape};
ghost use Rattle.ca_order.specs.Points.{point_term, form_of, same_point};
ghost use Rattle.ca_order.specs.Rankings.{ranked};
ghost use Rattle.ca_order.specs.Under.{rank_of, first_of_rank, leader, rank_of_form};

use crate::point::Point;
use ca_forms::parts::add;
use ca_forms::polynomial::Polynomial;
use ca_norm::gather::polynomial_of;
use ca_norm::{Sort, Term};
use std::alloc::{AllocError, Global};
use std::marker::Model;

/// A point with its rank in an order.
#[derive(Drop)]
pub struct Place {
    pub(crate) point: Point,
    pub(crate) rank: u32,
    pub(crate) form: Polynomial,
}

impl Model for Place {
    ghost use Rattle.std.specs.Prelude.{ℕ};
    ghost use Rattle.ca_order.specs.declared.point.Point.{Point as PlainPoint};
    ghost use Rattle.ca_order.specs.Codes.{coded_entry};

    ghost Value = { PlainPoint × ℕ };

    ghost coded = { coded_entry };

    ghost view = { λ a. (a.point, a.rank) };

    ghost use Rattle.std.specs.Prelude.{◌≡◌};
    ghost use Rattle.ca_order.specs.Points.{form_of};

    ghost invariant = { λ a. a.form ≡ form_of a.point };
}

/// Whether two points are one.
fn is_point(one: Point, other: Point) -> bool
    ensures { result ≡ same_point one other }
{
    match (one, other) {
        (Point::Number(m), Point::Number(n)) => m == n,
        (Point::Atom(g, m), Point::Atom(h, n)) => g == h && m == n,
        _ => false,
    }
}

/// The term of a point.
pub(crate) fn term_of(point: Point) -> Term
    ensures { shape result ≡ point_term point }
{
    match point {
        Point::Number(n) => Term::Number(n),
        Point::Atom(group, n) => Term::Atom(Sort::Long, group, n),
    }
}

/// The rank of a point.
fn rank_of(places: &[Place], point: Point) -> Option<u32>
    ensures { result ≡ rank_of places.now point }
{
    for place in places {
        if is_point(point, place.point) {
            return Some(place.rank);
        }
    }
    None
}

/// The first point of a rank, and else the point that is given.
fn first_of_rank(places: &[Place], point: Point, rank: u32) -> Point
    ensures { result ≡ first_of_rank places.now point rank }
{
    for place in places {
        if place.rank == rank {
            return place.point;
        }
    }
    point
}

/// The first point of the rank of a point.
pub(crate) fn leader(places: &[Place], point: Point) -> Point
    ensures { result ≡ leader places.now point }
{
    match rank_of(places, point) {
        Some(rank) => first_of_rank(places, point, rank),
        None => point,
    }
}

/// Whether the place is that of a point.
pub(crate) fn is_at(place: &Place, point: Point) -> bool
    ensures { result ≡ same_point point place.now.0 }
{
    is_point(point, place.point)
}

/// The form of a place's point.
pub(crate) fn own_form<'a>(place: &'a Place) -> &'a Polynomial
    ensures { result.now ≡ form_of place.now.0 }
{
    &place.form
}

/// Whether the form is that of a point.
pub(crate) fn has_form(place: &Place, form: &Polynomial) -> bool
    ensures { result ≡ is_eq (polynomial_cmp form.now (form_of place.now.0)) }
{
    form.compare(&place.form).is_eq()
}

/// The rank of the point that has the form.
pub(crate) fn rank_of_form(places: &[Place], form: &Polynomial) -> Option<u32>
    ensures { result ≡ rank_of_form places.now form.now }
{
    for place in places {
        if has_form(place, form) {
            return Some(place.rank);
        }
    }
    None
}

/// A point in an order.
fn point_at(alloc: Global, point: Point, rank: u32) -> Result<Place, AllocError>
    ensures { IfOk result (λ p. p ≡ (point, rank)) }
{
    let term = term_of(point);
    let form = polynomial_of(alloc, &term)?;
    Ok(Place { point, rank, form })
}

/// An order: points with their ranks.
pub(crate) fn order_of(
    alloc: Global,
    points: &[Point],
    ranks: &[u32],
) -> Result<Vec<Place>, AllocError>
    ensures { IfOk result (λ v. v.items ≡ ranked points.now ranks.now) }
{
    let mut items = Vec::new(alloc);
    let mut at = 0;
    while at < points.len() && at < ranks.len() {
        add(&mut items, point_at(alloc, points[at], ranks[at]))?;
        at += 1;
    }
    Ok(items)
}
