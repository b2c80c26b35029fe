//! Whether two terms are the same under each order of their points. Orders that join the same points, and under which
//! each comparison of the two terms comes out alike, make the same of them, so one of each such class is looked at.

ghost use Rattle.std.specs.Prelude.{◌≡◌, ◌≢◌, List, [], map, length, Contains, IfOk, IfSome, IfNone, OnOk, IsTrue, false, ℕ};
ghost use Rattle.ca_forms.specs.declared.sort.Sort.{Sort};
ghost use Rattle.ca_norm.specs.Terms.{shape, PlainTerm, IsOf};
ghost use Rattle.ca_norm.specs.Forms.{norm};
ghost use Rattle.ca_norm.specs.Meanings.{Valuation, mean};
ghost use Rattle.ca_order.specs.declared.point.Point.{Point};
ghost use Rattle.ca_order.specs.declared.answers.OrderAnswer.TheVariants.{Same};
ghost use Rattle.ca_order.specs.Under.{under};
ghost use Rattle.ca_order.specs.Rankings.{ranked};
ghost use Rattle.ca_order.specs.Asked.{asked};
ghost use Rattle.ca_order.specs.OrderSame.{OrderSame};
ghost use Rattle.ca_order.specs.Answers.{SameUnder, DiffersAt, Answers, IsSame};
ghost use Rattle.ca_order.specs.clauses.Seen.{AllKnown};

use crate::asked::add_asked;
use crate::classes::{Class, one_class};
use crate::depth::{MOST_NESTED, is_deep};
use crate::forms::form_of;
use crate::places::{Place, order_of};
use crate::point::Point;
use crate::points::points;
use crate::rankings::{Ranking, copied, orders};
use crate::shortcuts::is_seen_same;
use crate::tries::soon_refuted;
use ca_forms::parts::{add, both, let_go, unless};
use ca_norm::{Normal, Term, same};
use std::alloc::{AllocError, Global};

/// What is answered of two terms.
#[derive(Drop)]
pub enum OrderAnswer {
    /// They have one form under each order of their points.
    Same,
    /// They have more than 5 points: so many.
    TooMany(u32),
    /// The first order under which they have different forms, and these.
    Differs {
        ranking: Ranking,
        first: Normal,
        second: Normal,
    },
}

/// The forms of two terms under an order, where they differ.
pub(crate) fn forms_apart(
    alloc: Global,
    first: &Term,
    second: &Term,
    points: &[Point],
    ranks: &[u32],
) -> Result<Option<(Normal, Normal)>, AllocError>
    ensures first { IfOk result (λ r. IfSome r (λ p. p.0 ≡ norm (under (ranked points.now ranks.now) (shape first.now)))) }
    ensures second { IfOk result (λ r. IfSome r (λ p. p.1 ≡ norm (under (ranked points.now ranks.now) (shape second.now)))) }
    ensures differ { IfOk result (λ r. IfSome r (λ p. p.0 ≢ p.1)) }
    ensures same { IfOk result (λ r. IfNone r (SameUnder points.now (shape first.now) (shape second.now) ranks.now)) }
{
    let places = order_of(alloc, points, ranks)?;
    if is_seen_same(places.as_slice(), first, second) {
        return Ok(None);
    }
    let forms = both_forms(alloc, first, second, places.as_slice());
    let_go(places);
    let (one, other) = forms?;
    let alike = same(&one, &other);
    Ok(unless(alike, one, other))
}

/// The forms of two terms under an order.
fn both_forms(
    alloc: Global,
    first: &Term,
    second: &Term,
    places: &[Place],
) -> Result<(Normal, Normal), AllocError>
    ensures first { IfOk result (λ p. p.0 ≡ norm (under places.now (shape first.now))) }
    ensures second { IfOk result (λ p. p.1 ≡ norm (under places.now (shape second.now))) }
{
    let one = form_of(alloc, places, first);
    both(one, form_of(alloc, places, second))
}

/// The places that two terms compare under an order.
fn places_asked(
    alloc: Global,
    first: &Term,
    second: &Term,
    places: &[Place],
) -> Result<Vec<(usize, usize)>, AllocError>
    ensures { IfOk result (λ v. v.items ≡ asked places.now (shape second.now) (asked places.now (shape first.now) [])) }
{
    let mut pairs = Vec::new(alloc);
    add_asked(alloc, &mut pairs, places, first)?;
    add_asked(alloc, &mut pairs, places, second)?;
    Ok(pairs)
}

/// An order with the places that two terms compare under it.
fn class_of(
    alloc: Global,
    first: &Term,
    second: &Term,
    points: &[Point],
    ranks: &[u32],
) -> Result<Class, AllocError>
    ensures ranks { IfOk result (λ c. c.ranks.items ≡ ranks.now) }
    ensures asked { IfOk result (λ c. c.asked.items ≡ asked (ranked points.now ranks.now) (shape second.now) (asked (ranked points.now ranks.now) (shape first.now) [])) }
{
    let places = order_of(alloc, points, ranks)?;
    let asked = places_asked(alloc, first, second, places.as_slice());
    let_go(places);
    let (asked, ranks) = both(asked, copied(alloc, ranks))?;
    Ok(Class { ranks, asked })
}

/// Whether an order is of the class of one under which two terms were found the same.
fn is_seen(seen: &[Class], ranks: &[u32], count: usize) -> bool
    ensures { (ps : List Point) (t u : PlainTerm) → AllKnown ps t u seen.now → length ranks.now ≡ length ps → count ≡ length ps → IsTrue result → SameUnder ps t u ranks.now }
{
    for class in seen {
        if one_class(class.ranks.as_slice(), ranks, count, class.asked.as_slice()) {
            return true;
        }
    }
    false
}

/// Keeps an order under which two terms are the same, if classes are kept.
fn keep(
    alloc: Global,
    keeps: bool,
    seen: &mut Vec<Class>,
    first: &Term,
    second: &Term,
    points: &[Point],
    ranks: &[u32],
) -> Result<(), AllocError>
    requires { length ranks.now ≡ length points.now }
    ensures { OnOk result (SameUnder points.now (shape first.now) (shape second.now) ranks.now → AllKnown points.now (shape first.now) (shape second.now) seen.old.items → AllKnown points.now (shape first.now) (shape second.now) seen.new.items) }
{
    if !keeps {
        return Ok(());
    }
    add(seen, class_of(alloc, first, second, points, ranks))
}

/// The forms of two terms under an order, where they differ. None is made under an order of a class that is known.
fn order_tested(
    alloc: Global,
    keeps: bool,
    seen: &mut Vec<Class>,
    first: &Term,
    second: &Term,
    points: &[Point],
    ranks: &[u32],
) -> Result<Option<(Normal, Normal)>, AllocError>
    requires { length ranks.now ≡ length points.now }
    ensures first { IfOk result (λ r. IfSome r (λ p. p.0 ≡ norm (under (ranked points.now ranks.now) (shape first.now)))) }
    ensures second { IfOk result (λ r. IfSome r (λ p. p.1 ≡ norm (under (ranked points.now ranks.now) (shape second.now)))) }
    ensures differ { IfOk result (λ r. IfSome r (λ p. p.0 ≢ p.1)) }
    ensures same { IfOk result (λ r. IfNone r (AllKnown points.now (shape first.now) (shape second.now) seen.old.items → SameUnder points.now (shape first.now) (shape second.now) ranks.now)) }
    ensures kept { IfOk result (λ r. IfNone r (AllKnown points.now (shape first.now) (shape second.now) seen.old.items → AllKnown points.now (shape first.now) (shape second.now) seen.new.items)) }
{
    if is_seen(seen.as_slice(), ranks, points.len()) {
        return Ok(None);
    }
    let apart = forms_apart(alloc, first, second, points, ranks)?;
    match apart {
        Some(forms) => Ok(Some(forms)),
        None => {
            keep(alloc, keeps, seen, first, second, points, ranks)?;
            Ok(None)
        }
    }
}

/// The first of the orders under which two terms have different forms, and these.
fn first_apart(
    alloc: Global,
    first: &Term,
    second: &Term,
    points: &[Point],
    orders: &[Vec<u32>],
    keeps: bool,
) -> Result<Option<(usize, (Normal, Normal))>, AllocError>
    requires { (ks : List ℕ) → Contains (map (λ l. l.items) orders.now) ks → length ks ≡ length points.now }
    ensures { IfOk result (λ r. DiffersAt points.now (shape first.now) (shape second.now) (map (λ l. l.items) orders.now) r) }
{
    let mut seen = Vec::new(alloc);
    for place in 0..orders.len() {
        let ranks = orders[place].as_slice();
        let forms = order_tested(alloc, keeps, &mut seen, first, second, points, ranks)?;
        match forms {
            Some(forms) => return Ok(Some((place, forms))),
            None => {}
        }
    }
    Ok(None)
}

/// Whether classes of orders are worth their keeping: there are many orders, and what the terms compare is soon found.
fn keeps_classes(first: &Term, second: &Term, points: usize) -> bool {
    points > 3 && !is_deep(first, MOST_NESTED) && !is_deep(second, MOST_NESTED)
}

/// Whether two terms have one form under each order of their points; else the first order that shows that they haven't,
/// or that there are too many points.
pub fn order_same(alloc: Global, first: &Term, second: &Term) -> Result<OrderAnswer, AllocError>
    ensures answer { IfOk result (λ a. Answers (shape first.now) (shape second.now) a) }
    ensures means { (v : Valuation) (s : Sort) → IsOf s (shape first.now) → IsOf s (shape second.now) → IfOk result (λ a. a ≡ Same → mean v (shape first.now) ≡ mean v (shape second.now)) }
{
    let points = points(alloc, first, second)?;
    if points.len() > 5 {
        let Ok(many) = u32::try_from(points.len()) else {
            return Err(AllocError);
        };
        return Ok(OrderAnswer::TooMany(many));
    }
    let mut orders = orders(alloc, points.as_slice())?;
    let keeps = keeps_classes(first, second, points.len());
    let apart = first_apart(
        alloc,
        first,
        second,
        points.as_slice(),
        orders.as_slice(),
        keeps,
    )?;
    match apart {
        Some((place, (one, other))) => {
            let ranks = orders.swap_remove(place);
            let ranking = Ranking { points, ranks };
            Ok(OrderAnswer::Differs {
                ranking,
                first: one,
                second: other,
            })
        }
        None => Ok(OrderAnswer::Same),
    }
}

/// Whether the answer is that they are the same.
fn is_same(answer: &OrderAnswer) -> bool
    ensures yes { IsTrue result → IsSame answer.now }
    ensures no { result ≡ false → IsSame answer.now → ⊥ }
{
    match answer {
        OrderAnswer::Same => true,
        OrderAnswer::TooMany(_) => false,
        OrderAnswer::Differs { .. } => false,
    }
}

/// Whether two terms have few points, and one form under each order of these. What is apart is mostly so where no two
/// points are equal, so this is tried before orders are listed.
pub fn are_order_same(alloc: Global, first: &Term, second: &Term) -> Result<bool, AllocError>
    ensures same { IfOk result (λ a. IsTrue a → OrderSame (shape first.now) (shape second.now)) }
    ensures apart { IfOk result (λ a. a ≡ false → OrderSame (shape first.now) (shape second.now) → ⊥) }
{
    let points = points(alloc, first, second)?;
    let refuted = soon_refuted(alloc, first, second, points.as_slice())?;
    if refuted {
        return Ok(false);
    }
    let answer = order_same(alloc, first, second)?;
    let same = is_same(&answer);
    let_go(answer);
    Ok(same)
}
