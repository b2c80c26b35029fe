//! Laws of order reasoning.

ghost use Rattle.ca_order.specs.Alike.{AlikeMakeTheSame, JoinedAlike};
ghost use Rattle.ca_order.specs.Laws.{UnderMeans, UnderIsSorted, EachMeetsOne, OrderSameMeans, UnderIsNoHeavier, RaisedEitherWay, LoweredEitherWay, RankingsAreAll, RankingsAreOnce};

/// Under an order that a valuation meets, a term means what it means.
pub fn under_means()
    ensures { UnderMeans }
{}

/// It keeps its sort.
pub fn under_is_sorted()
    ensures { UnderIsSorted }
{}

/// Under each valuation points have exactly one order.
pub fn each_meets_one()
    ensures { EachMeetsOne }
{}

/// Terms that are the same under each order of their points mean the same under each valuation.
pub fn order_same_means()
    ensures { OrderSameMeans }
{}

/// A term is no heavier under an order.
pub fn under_is_no_heavier()
    ensures { UnderIsNoHeavier }
{}

/// A value that is raised to two points is the same under each order, whichever comes first.
pub fn raised_either_way()
    ensures { RaisedEitherWay }
{}

/// So is one that is lowered.
pub fn lowered_either_way()
    ensures { LoweredEitherWay }
{}

/// The list of the orders of points that rise has each of them, and nothing else.
pub fn rankings_are_all()
    ensures { RankingsAreAll }
{}

/// None of them stands there twice.
pub fn rankings_are_once()
    ensures { RankingsAreOnce }
{}

/// Orders of the same first points, under which each comparison of a term comes out alike, make the same of it.
pub fn alike_orders()
    ensures { AlikeMakeTheSame }
{}

/// Ranks that are equal at the same places, and in the same order at the places that a term compares, make the same of it.
pub fn joined_alike()
    ensures { JoinedAlike }
{}
