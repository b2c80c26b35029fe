//! From what both orders leave and demand to a verdict: `IsCompared` of `specs/clauses/Comparisons.antt`, for `VerdictOf`
//! of `specs/Verdicts.antt`.

ghost use Rattle.std.specs.Prelude.{◌≡◌, ◌≢◌, ◌⊎◌, List, length, map, IsTrue, IfOk, OnOk, IfSome, IfNone};
ghost use Rattle.ca_forms.specs.Plain.{number_form};
ghost use Rattle.ca_symbolic.specs.Demanded.{demands_of};
ghost use Rattle.ca_forms.specs.Rules.{gathered};
ghost use Rattle.ca_forms.specs.Plain.{PlainPolynomial};
ghost use Rattle.ca_verdicts.specs.clauses.Comparisons.{TellsKey, TellsFirst, TellsSecond, TellsApart, DemandsDiffer, IsCompared, Not};
ghost use Rattle.ca_verdicts.specs.Counts.{count_at, LightOrderSame, SameDemands};
ghost use Rattle.ca_verdicts.specs.Keys.{Key};
ghost use Rattle.ca_verdicts.specs.clauses.Marks.{found, marks_at, marks_in, summed_up, condition_of, IsSettled, AllSettled, EachMarked};
ghost use Rattle.ca_sums.proofs.Products.{SameTotals};
ghost use Rattle.ca_symbolic.specs.declared.running.Side.TheVariants as side;

use crate::compare::counts::counts_same;
use crate::compare::fields::{fields_differ, unless_same};
pub use crate::compare::orders::{Order, run_order};
use crate::key::Key;
use crate::marks::{Marks, mark_groups};
use crate::sums::difference;
use crate::sums::forms::LastForms;
use crate::verdicts::{Reason, Verdict};
use ca_forms::polynomial::{Scalar, Scalars};
use ca_norm::Normal;
use ca_program::ClassId;
use ca_symbolic::{Group, Side};
use std::alloc::{AllocError, Global};
use std::collections::{BTreeMap, BTreeSet};

mod counts;
mod fields;
mod orders;

/// What the two orders demand, under its keys.
fn table_of(
    alloc: Global,
    forms: &mut LastForms,
    first: &[Group],
    second: &[Group],
) -> Result<Vec<(Key, Marks)>, AllocError>
    ensures first { IfOk result (λ v. (k : Key) → SameTotals (marks_at side.First (found v.items k)) (marks_in k 0 first.now)) }
    ensures second { IfOk result (λ v. (k : Key) → SameTotals (marks_at side.Second (found v.items k)) (marks_in k 0 second.now)) }
    ensures each { IfOk result (λ v. EachMarked first.now second.now v.items) }
{
    let mut table: BTreeMap<Key, Marks> = BTreeMap::new(alloc);
    mark_groups(alloc, forms, &mut table, first, Side::First)?;
    mark_groups(alloc, forms, &mut table, second, Side::Second)?;
    // Asked for its clause, that the keys are in order.
    let _count = table.len();
    let entries = table.into_iter().collect(alloc)?;
    Ok(entries)
}

/// What is known from the keys that were compared.
#[derive(Drop)]
struct Known {
    /// Marks of which both orders name conditions of the same sum.
    settled: BTreeSet<Marks>,
    forms: LastForms,
}

/// What is told of a key whose sums differ.
fn demand_apart(key: Key, sums: (Scalar, Scalar)) -> Reason
    ensures key { TellsKey key result }
    ensures first { (f : PlainPolynomial) → sums.0 ≡ number_form f → TellsFirst f result }
    ensures second { (f : PlainPolynomial) → sums.1 ≡ number_form f → TellsSecond f result }
    ensures differ { sums.0 ≢ sums.1 → TellsApart result }
{
    let Key { kind, parts } = key;
    let (one, other) = sums;
    Reason::DemandsDiffer {
        kind,
        parts: Scalars::of(parts),
        first: Normal::Scalar(one),
        second: Normal::Scalar(other),
    }
}

/// Whether marks are among those of which it is known that both orders name conditions of the same sum.
fn is_settled(settled: &BTreeSet<Marks>, marks: &Marks) -> bool
    ensures { (fs gs : List PlainPolynomial) → AllSettled fs gs settled.now.keys → IsTrue result → IsSettled fs gs marks.now }
{
    settled.contains(marks)
}

fn settle(settled: &mut BTreeSet<Marks>, marks: Marks) -> Result<(), AllocError>
    ensures { OnOk result ((fs gs : List PlainPolynomial) → AllSettled fs gs settled.old.keys → IsSettled fs gs marks → AllSettled fs gs settled.new.keys) }
{
    settled.insert(marks)?;
    Ok(())
}

/// What is demanded under a key, where the sums of its conditions in the two orders differ, and how often it is demanded
/// differs under an order of the points. What is settled is kept, so that the same marks are not looked at for each demand.
fn demand_tested(
    alloc: Global,
    first: &[Group],
    second: &[Group],
    turn: usize,
    known: &mut Known,
    key: Key,
    marks: Marks,
) -> Result<Option<Reason>, AllocError>
    ensures key { IfOk result (λ r. IfSome r (TellsKey key)) }
    ensures first { IfOk result (λ r. IfSome r (TellsFirst (gathered (summed_up (map condition_of first.now) marks.first.items)))) }
    ensures second { IfOk result (λ r. IfSome r (TellsSecond (gathered (summed_up (map condition_of second.now) marks.second.items)))) }
    ensures differ { IfOk result (λ r. IfSome r TellsApart) }
    ensures orders { IfOk result (λ r. IfSome r (λ _. Not (LightOrderSame (count_at key (demands_of first.now)) (count_at key (demands_of second.now))))) }
    ensures same { IfOk result (λ r. IfNone r (AllSettled (map condition_of first.now) (map condition_of second.now) known.old.settled.keys → IsSettled (map condition_of first.now) (map condition_of second.now) marks ⊎ LightOrderSame (count_at key (demands_of first.now)) (count_at key (demands_of second.now)))) }
    ensures kept { IfOk result (λ r. IfNone r (AllSettled (map condition_of first.now) (map condition_of second.now) known.old.settled.keys → AllSettled (map condition_of first.now) (map condition_of second.now) known.new.settled.keys)) }
{
    if is_settled(&known.settled, &marks) {
        return Ok(None);
    }
    let sums = difference(alloc, first, second, turn, &mut known.forms, &marks)?;
    match sums {
        Some(sums) => {
            let same = counts_same(alloc, &mut known.forms, first, second, &key);
            unless_same(demand_apart(key, sums), same)
        }
        None => {
            settle(&mut known.settled, marks)?;
            Ok(None)
        }
    }
}

/// What the two orders demand under different conditions, with the two sums of these, where it isn't as often under each
/// order of the points; `turn` is as `Order` has it of the
/// second one.
fn demands_differ(
    alloc: Global,
    first: &[Group],
    second: &[Group],
    turn: usize,
) -> Result<Option<Reason>, AllocError>
    ensures differ { IfOk result (λ r. IfSome r (λ w. DemandsDiffer (demands_of first.now) (demands_of second.now) w)) }
    ensures same { IfOk result (λ r. IfNone r (SameDemands (demands_of first.now) (demands_of second.now))) }
{
    let mut forms = LastForms::new(alloc);
    let mut entries = table_of(alloc, &mut forms, first, second)?;
    let settled = BTreeSet::new(alloc);
    let mut known = Known { settled, forms };
    while let Some((key, marks)) = entries.pop() {
        let told = demand_tested(alloc, first, second, turn, &mut known, key, marks)?;
        match told {
            Some(reason) => return Ok(Some(reason)),
            None => {}
        }
    }
    Ok(None)
}

/// What the comparison of two orders says.
pub fn compare_orders(
    alloc: Global,
    class: ClassId,
    first: &Order,
    second: &Order,
) -> Result<Verdict, AllocError>
    requires equal { length first.now.state.fields ≡ length second.now.state.fields }
    ensures { IfOk result (λ v. IsCompared class first.now.state.fields second.now.state.fields (demands_of first.now.groups.items) (demands_of second.now.groups.items) v) }
{
    let by_field = fields_differ(alloc, class, first.state.fields(), second.state.fields())?;
    match by_field {
        Some(reason) => Ok(Verdict::Unproved(reason)),
        None => {
            let by_demand = demands_differ(
                alloc,
                first.groups.as_slice(),
                second.groups.as_slice(),
                second.turn,
            )?;
            match by_demand {
                Some(reason) => Ok(Verdict::Unproved(reason)),
                None => Ok(Verdict::Commutes),
            }
        }
    }
}
