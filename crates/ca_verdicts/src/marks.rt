//! The demands of two orders, told apart by their keys: under each key the numbers of the conditions, so that a
//! condition is kept once however many demands it has.

ghost use Rattle.std.specs.Prelude.{◌≡◌, ◌∷◌, ◌++◌, [], true, cond, Some, None, OnOk};
ghost use Rattle.std.specs.Ordering.{is_eq};
ghost use Rattle.ca_sums.proofs.Products.{SameTotals};
ghost use Rattle.ca_symbolic.specs.declared.running.Side.{Side};
ghost use Rattle.ca_verdicts.specs.Keys.{Key, key_cmp};
ghost use Rattle.ca_verdicts.specs.clauses.Marks.{key_at, mark_if, marks_of, marks_in, same_side, marks_at, found, if_side};

use crate::key::Key;
use crate::sums::forms::LastForms;
use ca_symbolic::{Demand, Group, Side};
use std::alloc::{AllocError, Global};
use std::collections::BTreeMap;

/// The numbers of the conditions under which the two orders demand something, each with how often it does so,
/// modulo 2^64.
#[derive(Drop, PartialEq, Eq, PartialOrd, Ord)]
pub struct Marks {
    pub first: Vec<(u32, u64)>,
    pub second: Vec<(u32, u64)>,
}

/// One mark more. Marks of one condition come one after the other, so they are counted and not listed.
fn mark(marks: &mut Vec<(u32, u64)>, number: u32) -> Result<(), AllocError>
    ensures { OnOk result (SameTotals marks.new.items (marks.old.items ++ mark_if true number)) }
{
    match marks.pop() {
        None => marks.push((number, 1))?,
        Some((last, times)) => {
            if last == number {
                marks.push((number, times.wrapping_add(1)))?;
            } else {
                marks.push((last, times))?;
                marks.push((number, 1))?;
            }
        }
    }
    Ok(())
}

/// One mark more of a side.
fn mark_side(marks: &mut Marks, side: Side, number: u32) -> Result<(), AllocError>
    ensures { OnOk result ((s : Side) → SameTotals (marks_at s (Some marks.new)) (marks_at s (Some marks.old) ++ mark_if (same_side side s) number)) }
{
    match side {
        Side::First => mark(&mut marks.first, number)?,
        Side::Second => mark(&mut marks.second, number)?,
    }
    Ok(())
}

/// Takes the marks under a key out of a table, none where there are none.
fn take_marks(alloc: Global, table: &mut BTreeMap<Key, Marks>, key: &Key) -> Marks
    ensures marks { (s : Side) → marks_at s (Some result) ≡ marks_at s (found table.old.entries key.now) }
    ensures others { (q : Key) → found table.new.entries q ≡ cond (is_eq (key_cmp key.now q)) None (found table.old.entries q) }
{
    match table.remove(key) {
        Some(marks) => marks,
        None => Marks {
            first: Vec::new(alloc),
            second: Vec::new(alloc),
        },
    }
}

/// One mark more of a side, under a key.
fn mark_key(
    alloc: Global,
    table: &mut BTreeMap<Key, Marks>,
    key: Key,
    side: Side,
    number: u32,
) -> Result<(), AllocError>
    ensures { OnOk result ((s : Side) (k : Key) → SameTotals (marks_at s (found table.new.entries k)) (marks_at s (found table.old.entries k) ++ if_side side s (mark_if (is_eq (key_cmp k key)) number))) }
{
    let mut marks = take_marks(alloc, table, &key);
    mark_side(&mut marks, side, number)?;
    table.insert(key, marks)?;
    Ok(())
}

/// Marks demands of one condition.
fn mark_all(
    alloc: Global,
    forms: &mut LastForms,
    table: &mut BTreeMap<Key, Marks>,
    demands: &[Demand],
    side: Side,
    number: u32,
) -> Result<(), AllocError>
    ensures { OnOk result ((s : Side) (k : Key) → SameTotals (marks_at s (found table.new.entries k)) (marks_at s (found table.old.entries k) ++ if_side side s (marks_of k number demands.now))) }
{
    for demand in demands {
        let key = Key::of(alloc, forms, demand)?;
        mark_key(alloc, table, key, side, number)?;
    }
    Ok(())
}

/// Marks the demands of an order, each group with its number.
pub fn mark_groups(
    alloc: Global,
    forms: &mut LastForms,
    table: &mut BTreeMap<Key, Marks>,
    groups: &[Group],
    side: Side,
) -> Result<(), AllocError>
    ensures { OnOk result ((s : Side) (k : Key) → SameTotals (marks_at s (found table.new.entries k)) (marks_at s (found table.old.entries k) ++ if_side side s (marks_in k 0 groups.now))) }
{
    for place in 0..groups.len() {
        let Ok(number) = u32::try_from(place) else {
            return Err(AllocError);
        };
        let group = &groups[place];
        mark_all(alloc, forms, table, group.items.as_slice(), side, number)?;
    }
    Ok(())
}
