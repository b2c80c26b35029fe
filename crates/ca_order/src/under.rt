//! Terms under an order of points, for whoever wants to see them: `order_same` asks for their forms alone.

ghost use Rattle.std.specs.Prelude.{◌≡◌, ◌≤◌, map, nat_lt, nat_eq, box_value, IfOk, IsOkAnd};
ghost use Rattle.ca_norm.specs.Terms.{less, less_equal, same, shape, terms_of};
ghost use Rattle.ca_norm.specs.Weights.{weight_of};
ghost use Rattle.ca_order.specs.Rankings.{order_in};
ghost use Rattle.ca_order.specs.Under.{decided, rank_of_term, not_more, same_under, under, all_under};

use crate::comparisons::atom_under;
use crate::places::{Place, order_of, rank_of_form};
use crate::rankings::Ranking;
use ca_forms::parts::{add, both, let_go, one_box};
use ca_norm::gather::polynomial_of;
use ca_norm::operators::{Binary, Ternary, Unary};
use ca_norm::{Sort, Term};
use std::alloc::{AllocError, Global};

/// The ranks of two terms, where both have the forms of points.
fn ranks_of(
    alloc: Global,
    places: &[Place],
    a: &Term,
    b: &Term,
) -> Result<(Option<u32>, Option<u32>), AllocError>
    ensures first { IfOk result (λ r. r.0 ≡ rank_of_term places.now (shape a.now)) }
    ensures second { IfOk result (λ r. r.1 ≡ rank_of_term places.now (shape b.now)) }
{
    let (f, g) = both(polynomial_of(alloc, a), polynomial_of(alloc, b))?;
    Ok((rank_of_form(places, &f), rank_of_form(places, &g)))
}

/// Whether a number is less than another, decided where both are points.
fn less_under(
    alloc: Global,
    places: &[Place],
    sides: Result<(Box<Term>, Box<Term>), AllocError>,
) -> Result<Term, AllocError>
    ensures { IfOk result (λ t. IsOkAnd sides (λ p. shape t ≡ decided (rank_of_term places.now (shape (box_value p.0))) (rank_of_term places.now (shape (box_value p.1))) nat_lt (less (shape (box_value p.0)) (shape (box_value p.1))))) }
{
    let (a, b) = sides?;
    match ranks_of(alloc, places, &a, &b)? {
        (Some(m), Some(n)) => Ok(Term::Truth(m < n)),
        _ => Ok(Term::Less(a, b)),
    }
}

/// The same of less or equal.
fn less_equal_under(
    alloc: Global,
    places: &[Place],
    sides: Result<(Box<Term>, Box<Term>), AllocError>,
) -> Result<Term, AllocError>
    ensures { IfOk result (λ t. IsOkAnd sides (λ p. shape t ≡ decided (rank_of_term places.now (shape (box_value p.0))) (rank_of_term places.now (shape (box_value p.1))) not_more (less_equal (shape (box_value p.0)) (shape (box_value p.1))))) }
{
    let (a, b) = sides?;
    match ranks_of(alloc, places, &a, &b)? {
        (Some(m), Some(n)) => Ok(Term::Truth(m <= n)),
        _ => Ok(Term::LessEqual(a, b)),
    }
}

/// The same of equal.
fn equal_under(
    alloc: Global,
    places: &[Place],
    sides: Result<(Box<Term>, Box<Term>), AllocError>,
) -> Result<Term, AllocError>
    ensures { IfOk result (λ t. IsOkAnd sides (λ p. shape t ≡ decided (rank_of_term places.now (shape (box_value p.0))) (rank_of_term places.now (shape (box_value p.1))) nat_eq (same (shape (box_value p.0)) (shape (box_value p.1))))) }
{
    let (a, b) = sides?;
    match ranks_of(alloc, places, &a, &b)? {
        (Some(m), Some(n)) => Ok(Term::Truth(m == n)),
        _ => Ok(Term::Same(a, b)),
    }
}

/// Whether two values of a sort are equal, decided where they are points.
fn same_under(
    alloc: Global,
    places: &[Place],
    sort: Sort,
    sides: Result<(Box<Term>, Box<Term>), AllocError>,
) -> Result<Term, AllocError>
    ensures { IfOk result (λ t. IsOkAnd sides (λ p. shape t ≡ same_under places.now sort (shape (box_value p.0)) (shape (box_value p.1)))) }
{
    match sort {
        Sort::Long => equal_under(alloc, places, sides),
        _ => Term::binary(Binary::Same, sides),
    }
}

/// The term under an order. It recurses as deep as the term is, so kinds that need room have functions of their own.
#[cycle(under)]
#[inline(never)]
fn term_under(alloc: Global, places: &[Place], term: &Term) -> Result<Term, AllocError>
    ensures { IfOk result (λ t. shape t ≡ under places.now (shape term.now)) }
{
    match term {
        Term::Number(n) => Ok(Term::Number(*n)),
        Term::Truth(b) => Ok(Term::Truth(*b)),
        Term::Null => Ok(Term::Null),
        Term::Atom(sort, group, number) => Ok(atom_under(places, *sort, *group, *number)),
        Term::Neg(a) => Term::unary(Unary::Neg, boxed(alloc, places, a)),
        Term::Not(a) => Term::unary(Unary::Not, boxed(alloc, places, a)),
        Term::Divide(a, n) => Term::unary(Unary::Divide(*n), boxed(alloc, places, a)),
        Term::Remainder(a, n) => Term::unary(Unary::Remainder(*n), boxed(alloc, places, a)),
        Term::Add(a, b) => Term::binary(
            Binary::Add,
            both(boxed(alloc, places, a), boxed(alloc, places, b)),
        ),
        Term::Sub(a, b) => Term::binary(
            Binary::Sub,
            both(boxed(alloc, places, a), boxed(alloc, places, b)),
        ),
        Term::Mul(a, b) => Term::binary(
            Binary::Mul,
            both(boxed(alloc, places, a), boxed(alloc, places, b)),
        ),
        Term::And(a, b) => Term::binary(
            Binary::And,
            both(boxed(alloc, places, a), boxed(alloc, places, b)),
        ),
        Term::Or(a, b) => Term::binary(
            Binary::Or,
            both(boxed(alloc, places, a), boxed(alloc, places, b)),
        ),
        Term::Select(a, b) => Term::binary(
            Binary::Select,
            both(boxed(alloc, places, a), boxed(alloc, places, b)),
        ),
        Term::Fold(op, a, b) => Term::binary(
            Binary::Fold(*op),
            both(boxed(alloc, places, a), boxed(alloc, places, b)),
        ),
        Term::Less(a, b) => less_under(
            alloc,
            places,
            both(boxed(alloc, places, a), boxed(alloc, places, b)),
        ),
        Term::LessEqual(a, b) => less_equal_under(
            alloc,
            places,
            both(boxed(alloc, places, a), boxed(alloc, places, b)),
        ),
        Term::Same(a, b) => {
            let sort = a.sort();
            same_under(
                alloc,
                places,
                sort,
                both(boxed(alloc, places, a), boxed(alloc, places, b)),
            )
        }
        Term::Choose(a, b, c) => {
            let sides = both(boxed(alloc, places, b), boxed(alloc, places, c));
            Term::ternary(Ternary::Choose, both(boxed(alloc, places, a), sides))
        }
        Term::Put(a, b, c) => {
            let sides = both(boxed(alloc, places, b), boxed(alloc, places, c));
            Term::ternary(Ternary::Put, both(boxed(alloc, places, a), sides))
        }
        Term::AddAt(a, b, c) => {
            let sides = both(boxed(alloc, places, b), boxed(alloc, places, c));
            Term::ternary(Ternary::AddAt, both(boxed(alloc, places, a), sides))
        }
        Term::Sweep(a, b, c, d) => {
            let bounds = both(boxed(alloc, places, b), boxed(alloc, places, c));
            let sides = both(boxed(alloc, places, a), boxed(alloc, places, d));
            let ((from, to), (array, addend)) = both(bounds, sides)?;
            Ok(Term::Sweep(array, from, to, addend))
        }
        Term::Read(sort, p, class, field) => {
            let object = boxed(alloc, places, p)?;
            Ok(Term::Read(*sort, object, *class, *field))
        }
        Term::ReadAt(sort, p, class, field, i) => {
            let (object, index) = both(boxed(alloc, places, p), boxed(alloc, places, i))?;
            Ok(Term::ReadAt(*sort, object, *class, *field, index))
        }
        Term::Result(sort, method, p, args) => {
            let (receiver, args) = both(
                boxed(alloc, places, p),
                all_under(alloc, places, args.as_slice()),
            )?;
            Ok(Term::Result(*sort, *method, receiver, args))
        }
    }
}

/// The same in a box, so that no terms stay in the frames.
#[cycle(under)]
#[inline(never)]
fn boxed(alloc: Global, places: &[Place], term: &Term) -> Result<Box<Term>, AllocError>
    ensures { IfOk result (λ b. shape (box_value b) ≡ under places.now (shape term.now)) }
{
    one_box(alloc, term_under(alloc, places, term))
}

/// The arguments of a call.
#[cycle(under)]
#[inline(never)]
fn all_under(alloc: Global, places: &[Place], terms: &[Term]) -> Result<Vec<Term>, AllocError>
    ensures { IfOk result (λ v. terms_of (map shape v.items) ≡ all_under places.now (terms_of (map shape terms.now))) }
{
    let mut items = Vec::new(alloc);
    for term in terms {
        add(&mut items, term_under(alloc, places, term))?;
    }
    Ok(items)
}

/// A term under an order.
pub fn under(alloc: Global, term: &Term, ranking: &Ranking) -> Result<Term, AllocError>
    ensures term { IfOk result (λ t. shape t ≡ under (order_in ranking.now) (shape term.now)) }
    ensures light { IfOk result (λ t. weight_of (shape t) ≤ weight_of (shape term.now)) }
{
    let places = order_of(alloc, ranking.points.as_slice(), ranking.ranks.as_slice())?;
    let made = term_under(alloc, places.as_slice(), term);
    let_go(places);
    made
}
