//! Forms under an order that need not be made: those of terms that come to one of the points by comparisons of points and
//! choices between these.

ghost use Rattle.std.specs.Prelude.{◌≡◌, Some, IfSome, IsTrue};
ghost use Rattle.ca_forms.specs.declared.form.Normal.TheVariants.{Scalar};
ghost use Rattle.ca_forms.specs.Plain.{number_form};
ghost use Rattle.ca_forms.specs.Rules.{gathered};
ghost use Rattle.ca_norm.specs.Terms.{shape, truth};
ghost use Rattle.ca_norm.specs.Forms.{expand, norm};
ghost use Rattle.ca_order.specs.Points.{form_of};
ghost use Rattle.ca_order.specs.Under.{under, atom_under, rank_of_term};

use crate::places::{Place, is_at, leader, own_form, rank_of_form};
use crate::point::Point;
use ca_forms::polynomial::Polynomial;
use ca_norm::{Sort, Term};

/// The form of a point that has a place.
fn form_at<'a>(places: &'a [Place], point: Point) -> Option<&'a Polynomial>
    ensures { IfSome result (λ f. f.now ≡ form_of point) }
{
    for place in places {
        if is_at(place, point) {
            return Some(own_form(place));
        }
    }
    None
}

/// The form of an atom.
fn atom_form<'a>(places: &'a [Place], sort: Sort, group: u32, number: u32) -> Option<&'a Polynomial>
    ensures { IfSome result (λ f. f.now ≡ gathered (expand (atom_under places.now sort group number))) }
{
    match sort {
        Sort::Long => form_at(places, leader(places, Point::Atom(group, number))),
        _ => None,
    }
}

/// The form of a term under an order, where it is that of a point. It recurses as deep as choices and comparisons are.
#[cycle(short)]
#[inline(never)]
fn known_form<'a>(places: &'a [Place], term: &Term) -> Option<&'a Polynomial>
    ensures { IfSome result (λ f. f.now ≡ gathered (expand (under places.now (shape term.now)))) }
{
    match term {
        Term::Number(n) => form_at(places, Point::Number(*n)),
        Term::Atom(sort, group, number) => atom_form(places, *sort, *group, *number),
        Term::Choose(c, a, b) => match known_truth(places, c) {
            Some(holds) => if holds {
                known_form(places, a)
            } else {
                known_form(places, b)
            },
            None => None,
        },
        _ => None,
    }
}

/// The rank of a term under an order, where its form is that of a point.
#[cycle(short)]
#[inline(never)]
fn known_rank(places: &[Place], term: &Term) -> Option<u32>
    ensures { IfSome result (λ k. rank_of_term places.now (under places.now (shape term.now)) ≡ Some k) }
{
    match known_form(places, term) {
        Some(form) => rank_of_form(places, form),
        None => None,
    }
}

/// What a comparison comes to under an order, where both sides come to points.
#[cycle(short)]
#[inline(never)]
fn known_truth(places: &[Place], term: &Term) -> Option<bool>
    ensures { IfSome result (λ b. under places.now (shape term.now) ≡ truth b) }
{
    match term {
        Term::Less(a, b) => match (known_rank(places, a), known_rank(places, b)) {
            (Some(m), Some(n)) => Some(m < n),
            _ => None,
        },
        Term::LessEqual(a, b) => match (known_rank(places, a), known_rank(places, b)) {
            (Some(m), Some(n)) => Some(m <= n),
            _ => None,
        },
        _ => None,
    }
}

/// Whether two forms are one.
fn is_one(one: &Polynomial, other: &Polynomial) -> bool
    ensures { IsTrue result → one.now ≡ other.now }
{
    one.compare(other).is_eq()
}

/// The form of a number under an order, where it is that of a point.
fn long_form<'a>(places: &'a [Place], term: &Term) -> Option<&'a Polynomial>
    ensures { IfSome result (λ f. norm (under places.now (shape term.now)) ≡ Scalar (number_form f.now)) }
{
    match term.sort() {
        Sort::Long => match known_form(places, term) {
            Some(form) => Some(form),
            None => None,
        },
        _ => None,
    }
}

/// Whether two numbers are seen to be one point under an order.
pub(crate) fn is_seen_same(places: &[Place], first: &Term, second: &Term) -> bool
    ensures { IsTrue result → norm (under places.now (shape first.now)) ≡ norm (under places.now (shape second.now)) }
{
    let Some(one) = long_form(places, first) else {
        return false;
    };
    let Some(other) = long_form(places, second) else {
        return false;
    };
    is_one(one, other)
}
