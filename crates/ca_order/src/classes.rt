//! Classes of orders: those that join the same points and have the compared points in the same order.

ghost use Rattle.std.specs.Prelude.{◌≡◌, true, IsTrue};
ghost use Rattle.ca_order.specs.Alike.{rank_at};
ghost use Rattle.ca_order.specs.clauses.Classes.{alike, same_order_at, joined_alike_at, pairs_alike, row_alike, joins_alike, one_class};

/// An order with the places that the two terms compare under it.
#[derive(Drop)]
pub struct Class {
    pub ranks: Vec<u32>,
    pub asked: Vec<(usize, usize)>,
}

/// The rank at a place.
fn rank_at(ranks: &[u32], place: usize) -> u32
    ensures { result ≡ rank_at ranks.now place }
{
    if place < ranks.len() { ranks[place] } else { 0 }
}

/// Whether two tests come out alike.
fn alike(one: bool, other: bool) -> bool
    ensures { result ≡ alike one other }
{
    match (one, other) {
        (true, other) => other,
        (false, true) => false,
        (false, false) => true,
    }
}

/// Whether two orders have two places in the same order.
fn same_order(one: &[u32], other: &[u32], i: usize, j: usize) -> bool
    ensures { result ≡ same_order_at one.now other.now i j }
{
    alike(
        rank_at(one, i) < rank_at(one, j),
        rank_at(other, i) < rank_at(other, j),
    ) && alike(
        rank_at(one, j) < rank_at(one, i),
        rank_at(other, j) < rank_at(other, i),
    )
}

/// Whether they have each pair of some places in the same order.
fn pairs_alike(one: &[u32], other: &[u32], pairs: &[(usize, usize)]) -> bool
    ensures { result ≡ pairs_alike one.now other.now pairs.now }
{
    for pair in pairs {
        if !same_order(one, other, pair.0, pair.1) {
            return false;
        }
    }
    true
}

/// Whether two orders join two places or not alike.
fn joined_alike(one: &[u32], other: &[u32], i: usize, j: usize) -> bool
    ensures { result ≡ joined_alike_at one.now other.now i j }
{
    alike(
        rank_at(one, i) == rank_at(one, j),
        rank_at(other, i) == rank_at(other, j),
    )
}

/// Whether they join a place with the first places alike.
fn row_alike(one: &[u32], other: &[u32], i: usize, count: usize) -> bool
    ensures { IsTrue result → row_alike one.now other.now i count ≡ true }
{
    for j in 0..count {
        if !joined_alike(one, other, i, j) {
            return false;
        }
    }
    true
}

/// Whether they join the first places alike.
fn joins_alike(one: &[u32], other: &[u32], count: usize) -> bool
    ensures { IsTrue result → joins_alike one.now other.now count count ≡ true }
{
    for i in 0..count {
        if !row_alike(one, other, i, count) {
            return false;
        }
    }
    true
}

/// Whether an order is of the class of another, under which two terms compare the pairs.
pub(crate) fn one_class(one: &[u32], other: &[u32], count: usize, pairs: &[(usize, usize)]) -> bool
    ensures { IsTrue result → one_class count one.now other.now pairs.now ≡ true }
{
    joins_alike(one, other, count) && pairs_alike(one, other, pairs)
}
