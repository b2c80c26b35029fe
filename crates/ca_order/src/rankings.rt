//! The orders of points.

ghost use Rattle.std.specs.Prelude.{◌≡◌, ◌≤◌, [], ◌∷◌, ◌++◌, length, map, drop, IfOk, OnOk};
ghost use Rattle.std.specs.List.{filter};
ghost use Rattle.ca_order.specs.Rankings.{stands, before_used, below_next, numbers_rise, is_ranking, each_behind, all_before, all_ranks, rankings_of, points_and_ranks};

use crate::point::Point;
use ca_forms::parts::add;
use std::alloc::{AllocError, Global};

/// Points with their ranks.
#[derive(Drop)]
pub struct Ranking {
    pub points: Vec<Point>,
    pub ranks: Vec<u32>,
}

/// Whether a rank stands in a list.
fn stands(rank: u32, ranks: &[u32]) -> bool
    ensures { result ≡ stands rank ranks.now }
{
    for other in ranks {
        if rank == *other {
            return true;
        }
    }
    false
}

/// Whether the rank before a rank stands in a list.
fn has_before(rank: u32, ranks: &[u32]) -> bool
    ensures { result ≡ before_used ranks.now (rank ∷ []) }
{
    if rank == 0 {
        return true;
    }
    stands(rank - 1, ranks)
}

/// Whether the rank before each of a list is used.
fn before_used(ranks: &[u32]) -> bool
    ensures { result ≡ before_used ranks.now ranks.now }
{
    for rank in ranks {
        if !has_before(*rank, ranks) {
            return false;
        }
    }
    true
}

/// Whether the next point has a greater rank, if it is a number.
fn below_next(rank: u32, points: &[Point], ranks: &[u32], place: usize) -> bool
    ensures { result ≡ below_next rank (drop place points.now) (drop place ranks.now) }
{
    if place < points.len() && place < ranks.len() {
        match points[place] {
            Point::Number(_) => rank < ranks[place],
            Point::Atom(_, _) => true,
        }
    } else {
        true
    }
}

/// Whether the numbers in front rise.
fn numbers_rise(points: &[Point], ranks: &[u32]) -> bool
    ensures { result ≡ numbers_rise points.now ranks.now }
{
    let mut place = 0;
    while place < points.len() && place < ranks.len() {
        match points[place] {
            Point::Number(_) => {
                if !below_next(ranks[place], points, ranks, place + 1) {
                    return false;
                }
            }
            Point::Atom(_, _) => return true,
        }
        place += 1;
    }
    true
}

/// Whether ranks are an order of points.
pub(crate) fn is_ranking(points: &[Point], ranks: &[u32]) -> bool
    ensures { result ≡ is_ranking points.now ranks.now }
{
    before_used(ranks) && numbers_rise(points, ranks)
}

/// A list with a rank in front.
fn behind(alloc: Global, rank: u32, ranks: &[u32]) -> Result<Vec<u32>, AllocError>
    ensures { IfOk result (λ v. v.items ≡ rank ∷ ranks.now) }
{
    let mut list = Vec::new(alloc);
    list.push(rank)?;
    list.extend_from_slice(ranks)?;
    Ok(list)
}

/// Adds each of some lists with a rank in front.
fn add_each_behind(
    alloc: Global,
    out: &mut Vec<Vec<u32>>,
    rank: u32,
    lists: &[Vec<u32>],
) -> Result<(), AllocError>
    ensures { OnOk result (map (λ l. l.items) out.new.items ≡ map (λ l. l.items) out.old.items ++ each_behind rank (map (λ l. l.items) lists.now)) }
{
    for list in lists {
        add(out, behind(alloc, rank, list.as_slice()))?;
    }
    Ok(())
}

/// Each rank below a number in front of each of some lists.
fn all_before(alloc: Global, count: u32, lists: &[Vec<u32>]) -> Result<Vec<Vec<u32>>, AllocError>
    ensures { IfOk result (λ v. map (λ l. l.items) v.items ≡ all_before count (map (λ l. l.items) lists.now)) }
{
    let mut out = Vec::new(alloc);
    let mut rank = 0;
    while rank < count {
        add_each_behind(alloc, &mut out, rank, lists)?;
        rank += 1;
    }
    Ok(out)
}

/// All lists of that many ranks below a number, as numbers are counted up.
fn all_ranks(alloc: Global, long: u32, count: u32) -> Result<Vec<Vec<u32>>, AllocError>
    ensures { IfOk result (λ v. map (λ l. l.items) v.items ≡ all_ranks long count) }
{
    let mut lists = Vec::new(alloc);
    add(&mut lists, Ok(Vec::new(alloc)))?;
    let mut done = 0;
    while done < long {
        lists = all_before(alloc, count, lists.as_slice())?;
        done += 1;
    }
    Ok(lists)
}

/// A copy.
pub(crate) fn copied(alloc: Global, ranks: &[u32]) -> Result<Vec<u32>, AllocError>
    ensures { IfOk result (λ v. v.items ≡ ranks.now) }
{
    let mut list = Vec::new(alloc);
    list.extend_from_slice(ranks)?;
    Ok(list)
}

/// Those of some lists that are orders of points.
fn kept(alloc: Global, points: &[Point], lists: &[Vec<u32>]) -> Result<Vec<Vec<u32>>, AllocError>
    ensures { IfOk result (λ v. map (λ l. l.items) v.items ≡ filter (is_ranking points.now) (map (λ l. l.items) lists.now)) }
{
    let mut out = Vec::new(alloc);
    for list in lists {
        if is_ranking(points, list.as_slice()) {
            add(&mut out, copied(alloc, list.as_slice()))?;
        }
    }
    Ok(out)
}

/// The orders of points, those of smaller ranks first.
pub(crate) fn orders(alloc: Global, points: &[Point]) -> Result<Vec<Vec<u32>>, AllocError>
    requires { length points.now ≤ 5 }
    ensures { IfOk result (λ v. map (λ l. l.items) v.items ≡ rankings_of points.now) }
{
    let Ok(count) = u32::try_from(points.len()) else {
        return Err(AllocError);
    };
    let all = all_ranks(alloc, count, count)?;
    kept(alloc, points, all.as_slice())
}

/// Points with ranks.
fn ranking_of(alloc: Global, points: &[Point], ranks: &[u32]) -> Result<Ranking, AllocError>
    ensures points { IfOk result (λ r. r.points.items ≡ points.now) }
    ensures ranks { IfOk result (λ r. r.ranks.items ≡ ranks.now) }
{
    let mut own = Vec::new(alloc);
    own.extend_from_slice(points)?;
    let ranks = copied(alloc, ranks)?;
    Ok(Ranking { points: own, ranks })
}

/// The orders of points, those of smaller ranks first: each with all of the points and a rank for each.
pub fn rankings(alloc: Global, points: &[Point]) -> Result<Vec<Ranking>, AllocError>
    requires { length points.now ≤ 5 }
    ensures { IfOk result (λ v. map points_and_ranks v.items ≡ map (λ ks. (points.now, ks)) (rankings_of points.now)) }
{
    let lists = orders(alloc, points)?;
    let mut out = Vec::new(alloc);
    for list in lists.as_slice() {
        add(&mut out, ranking_of(alloc, points, list.as_slice()))?;
    }
    Ok(out)
}
