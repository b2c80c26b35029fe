//! Terms under each order of their points.

use crate::sources::let_go;
use ca_norm::{Sort, Term};
use ca_order::points::points;
use ca_order::rankings::rankings;
use ca_order::{OrderAnswer, Point, are_order_same, order_same};
use std::process::Abort;

/// The sum of so many atoms, each a number.
fn sum_of<R: AllocGlobal + Abort>(rt: &R, many: u32) -> Term {
    let mut sum = Term::Number(0);
    for number in 0..many {
        let atom = Term::Atom(Sort::Long, 1, number);
        sum = Term::add(rt.alloc(), sum, atom).expect(rt, "a sum");
    }
    sum
}

/// How many orders so many atoms have.
fn many_orders<R: AllocGlobal + Abort>(rt: &R, many: u32) -> usize {
    let mut atoms = Vec::new(rt.alloc());
    for number in 0..many {
        atoms.push(Point::Atom(1, number)).expect(rt, "a point");
    }
    assert!(rt; atoms.len() <= 5);
    let found = rankings(rt.alloc(), atoms.as_slice()).expect(rt, "orders");
    found.len()
}

#[test]
fn counts_orders(rt: HostRuntime) {
    assert!(rt; many_orders(&rt, 0) == 1 && many_orders(&rt, 1) == 1 && many_orders(&rt, 2) == 3);
    assert!(rt;
        many_orders(&rt, 3) == 13 && many_orders(&rt, 4) == 75 && many_orders(&rt, 5) == 541
    );
}

/// Two equal terms of six atoms have too many points, though they have one form.
#[test]
fn answers_too_many(rt: HostRuntime) {
    let (one, other) = (sum_of(&rt, 6), sum_of(&rt, 6));
    let answer = order_same(rt.alloc(), &one, &other).expect(&rt, "an answer");
    let many = match &answer {
        OrderAnswer::TooMany(many) => *many,
        _ => 0,
    };
    let_go(answer);
    assert!(rt; many == 6, "{many}");
}

/// Equal terms of five atoms are the same, and of two sums that differ the first order tells it.
#[test]
fn answers_same_and_differs(rt: HostRuntime) {
    let (one, other) = (sum_of(&rt, 5), sum_of(&rt, 5));
    assert!(rt; are_order_same(rt.alloc(), &one, &other).expect(&rt, "an answer"));
    let (two, three) = (sum_of(&rt, 2), sum_of(&rt, 3));
    let found = points(rt.alloc(), &two, &three).expect(&rt, "points");
    assert!(rt; found.len() == 3);
    let answer = order_same(rt.alloc(), &two, &three).expect(&rt, "an answer");
    let first = match &answer {
        OrderAnswer::Differs { ranking, .. } => ranking.ranks.as_slice() == [0, 0, 0].as_slice(),
        _ => false,
    };
    let_go(answer);
    assert!(rt; first, "another order");
}
