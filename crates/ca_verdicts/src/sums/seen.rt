//! Marks of two orders that name the same conditions, as is seen from the terms, without their forms.

ghost use Rattle.std.specs.Prelude.{◌≡◌, ◌≤◌, length, map, IsTrue};
ghost use Rattle.ca_sums.specs.Sums.{scale};
ghost use Rattle.ca_forms.specs.Rules.{gathered};
ghost use Rattle.ca_verdicts.specs.clauses.Marks.{products_at, summed_up, condition_of, IsSettled};

use crate::marks::Marks;
use ca_symbolic::Group;

/// Whether two numbers name groups whose conditions are seen to be one.
fn is_one(first: &[Group], second: &[Group], number: u32, other: u32) -> bool
    ensures { IsTrue result → products_at (map condition_of first.now) number ≡ products_at (map condition_of second.now) other }
{
    let place = number as usize;
    let there = other as usize;
    if place >= first.len() {
        return false;
    }
    if there >= second.len() {
        return false;
    }
    let one = &first[place];
    let two = &second[there];
    one.guard.is_same(&two.guard)
}

/// Whether two marks name conditions that are seen to be one, as often.
fn is_same_mark(first: &[Group], second: &[Group], one: &(u32, u64), other: &(u32, u64)) -> bool
    ensures { IsTrue result → scale one.now.1 (products_at (map condition_of first.now) one.now.0) ≡ scale other.now.1 (products_at (map condition_of second.now) other.now.0) }
{
    if one.1 != other.1 {
        return false;
    }
    is_one(first, second, one.0, other.0)
}

/// Whether marks of the two orders are the same one by one.
fn are_same(first: &[Group], second: &[Group], ones: &[(u32, u64)], others: &[(u32, u64)]) -> bool
    ensures { IsTrue result → summed_up (map condition_of first.now) ones.now ≡ summed_up (map condition_of second.now) others.now }
{
    if ones.len() != others.len() {
        return false;
    }
    for place in 0..ones.len() {
        if !is_same_mark(first, second, &ones[place], &others[place]) {
            return false;
        }
    }
    true
}

/// Whether they are, where those of the second order are turned round so that it begins with the one at the place.
fn are_turned(
    first: &[Group],
    second: &[Group],
    ones: &[(u32, u64)],
    others: &[(u32, u64)],
    place: usize,
) -> bool
    requires { place ≤ length others.now }
    ensures { IsTrue result → gathered (summed_up (map condition_of first.now) ones.now) ≡ gathered (summed_up (map condition_of second.now) others.now) }
{
    if ones.len() != others.len() {
        return false;
    }
    let (front, back) = others.split_at(place);
    let (begun, rest) = ones.split_at(back.len());
    if !are_same(first, second, begun, back) {
        return false;
    }
    are_same(first, second, rest, front)
}

/// How many marks stand before the first one of a group from this number on.
fn place_of(marks: &[(u32, u64)], number: usize) -> usize
    ensures { result ≤ length marks.now }
{
    for place in 0..marks.len() {
        if marks[place].0 as usize >= number {
            return place;
        }
    }
    marks.len()
}

/// Whether it is seen that both orders name the same conditions as often: one by one as they stand, or where the second
/// order, in which the operations come the other way round, is begun with the groups of its second operation.
pub fn is_seen(first: &[Group], second: &[Group], turn: usize, marks: &Marks) -> bool
    ensures { IsTrue result → IsSettled (map condition_of first.now) (map condition_of second.now) marks.now }
{
    let ones = marks.first.as_slice();
    let others = marks.second.as_slice();
    if are_turned(first, second, ones, others, 0) {
        return true;
    }
    are_turned(first, second, ones, others, place_of(others, turn))
}
