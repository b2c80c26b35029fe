//! How often two orders demand what has a key, as terms, compared under each order of their points. It is asked only where
//! the sums of the conditions differ, so the demands are walked once more and not kept.

ghost use Rattle.std.specs.Prelude.{◌≡◌, ◌++◌, Ok, Err, drop, map, true, false, IsTrue, IfOk, IfSome, IfNone, OnOk};
ghost use Rattle.ca_norm.specs.Terms.{add};
ghost use Rattle.ca_shared_terms.specs.Heavy.{is_heavy};
ghost use Rattle.ca_shared_terms.specs.declared.errors.ExecutionError.TheVariants.{Large};
ghost use Rattle.ca_symbolic.specs.Demanded.{demand_of, demands_of};
ghost use Rattle.ca_verdicts.specs.Counts.{counted, conditions_of, counted_onto, count_of, count_at, LightOrderSame};
ghost use Rattle.ca_verdicts.specs.clauses.Comparisons.{Not};

use crate::compare::fields::ordered;
use crate::key::Key;
use crate::sums::forms::LastForms;
use ca_forms::parts::{add, both};
use ca_shared_terms::{ExecutionError, LightTerm};
use ca_symbolic::{Demand, Group};
use std::alloc::{AllocError, Global};

/// A term, or nothing where it is too heavy.
fn if_light(made: Result<LightTerm, ExecutionError>) -> Result<Option<LightTerm>, AllocError>
    ensures made { IfOk result (λ r. IfSome r (λ t. made ≡ Ok t)) }
    ensures large { IfOk result (λ r. IfNone r (made ≡ Err Large)) }
{
    match made {
        Ok(term) => Ok(Some(term)),
        Err(ExecutionError::Large) => Ok(None),
        Err(ExecutionError::Memory) => Err(AllocError),
    }
}

/// 1 where the condition holds.
fn counted(alloc: Global, condition: &LightTerm) -> Result<Option<LightTerm>, AllocError>
    ensures made { IfOk result (λ r. IfSome r (λ t. t ≡ counted condition.now)) }
    ensures light { IfOk result (λ r. IfSome r (λ t. is_heavy t ≡ false)) }
    ensures heavy { IfOk result (λ r. IfNone r (is_heavy (counted condition.now) ≡ true)) }
{
    let numbers = both(LightTerm::number(alloc, 1), LightTerm::number(alloc, 0));
    let (own, (one, none)) = both(condition.share(), numbers)?;
    if_light(LightTerm::choice(alloc, own, one, none))
}

/// A sum with one condition more.
fn counted_more(
    alloc: Global,
    sum: LightTerm,
    condition: &LightTerm,
) -> Result<Option<LightTerm>, AllocError>
    ensures made { IfOk result (λ r. IfSome r (λ t. t ≡ add sum (counted condition.now))) }
    ensures light { IfOk result (λ r. IfSome r (λ t. is_heavy t ≡ false)) }
    ensures heavy { IfOk result (λ r. IfNone r (is_heavy (add sum (counted condition.now)) ≡ true)) }
{
    let (sum, one) = both(Ok(sum), counted(alloc, condition))?;
    match one {
        Some(one) => if_light(LightTerm::plus(alloc, sum, one)),
        None => Ok(None),
    }
}

/// A sum with the conditions from a place on.
fn counted_onto(
    alloc: Global,
    start: LightTerm,
    conditions: &[LightTerm],
    from: usize,
) -> Result<Option<LightTerm>, AllocError>
    requires { is_heavy start ≡ false }
    ensures made { IfOk result (λ r. IfSome r (λ t. t ≡ counted_onto start (drop from conditions.now))) }
    ensures light { IfOk result (λ r. IfSome r (λ t. is_heavy t ≡ false)) }
    ensures heavy { IfOk result (λ r. IfNone r (is_heavy (counted_onto start (drop from conditions.now)) ≡ true)) }
{
    let mut sum = start;
    for place in from..conditions.len() {
        match counted_more(alloc, sum, &conditions[place])? {
            Some(more) => sum = more,
            None => return Ok(None),
        }
    }
    Ok(Some(sum))
}

/// How many of the conditions hold, summed from the left; nothing where that is too heavy.
fn count_of(alloc: Global, conditions: &[LightTerm]) -> Result<Option<LightTerm>, AllocError>
    ensures made { IfOk result (λ r. IfSome r (λ t. t ≡ count_of conditions.now)) }
    ensures light { IfOk result (λ r. IfSome r (λ t. is_heavy t ≡ false)) }
    ensures heavy { IfOk result (λ r. IfNone r (is_heavy (count_of conditions.now) ≡ true)) }
{
    if conditions.is_empty() {
        let none = LightTerm::number(alloc, 0)?;
        return Ok(Some(none));
    }
    match counted(alloc, &conditions[0])? {
        Some(first) => counted_onto(alloc, first, conditions, 1),
        None => Ok(None),
    }
}

/// Adds the condition of each demand of a group that has the key.
fn add_conditions(
    alloc: Global,
    forms: &mut LastForms,
    conditions: &mut Vec<LightTerm>,
    guard: &LightTerm,
    demands: &[Demand],
    key: &Key,
) -> Result<(), AllocError>
    ensures { OnOk result (conditions.new.items ≡ conditions.old.items ++ conditions_of key.now (map (demand_of guard.now) demands.now)) }
{
    for demand in demands {
        let other = Key::of(alloc, forms, demand)?;
        if key.is(&other) {
            add(conditions, guard.share())?;
        }
    }
    Ok(())
}

/// The conditions of the demands that have the key, in their order.
fn conditions_of(
    alloc: Global,
    forms: &mut LastForms,
    groups: &[Group],
    key: &Key,
) -> Result<Vec<LightTerm>, AllocError>
    ensures { IfOk result (λ v. v.items ≡ conditions_of key.now (demands_of groups.now)) }
{
    let mut conditions = Vec::new(alloc);
    for group in groups {
        add_conditions(
            alloc,
            forms,
            &mut conditions,
            &group.guard,
            group.items.as_slice(),
            key,
        )?;
    }
    Ok(conditions)
}

/// How often there is a demand with the key; nothing where that is too heavy.
fn count_at(
    alloc: Global,
    forms: &mut LastForms,
    groups: &[Group],
    key: &Key,
) -> Result<Option<LightTerm>, AllocError>
    ensures made { IfOk result (λ r. IfSome r (λ t. t ≡ count_at key.now (demands_of groups.now))) }
    ensures light { IfOk result (λ r. IfSome r (λ t. is_heavy t ≡ false)) }
    ensures heavy { IfOk result (λ r. IfNone r (is_heavy (count_at key.now (demands_of groups.now)) ≡ true)) }
{
    let conditions = conditions_of(alloc, forms, groups, key)?;
    count_of(alloc, conditions.as_slice())
}

/// Whether both orders demand as often what has the key, under each order of the points.
pub fn counts_same(
    alloc: Global,
    forms: &mut LastForms,
    first: &[Group],
    second: &[Group],
    key: &Key,
) -> Result<bool, AllocError>
    ensures same { IfOk result (λ a. IsTrue a → LightOrderSame (count_at key.now (demands_of first.now)) (count_at key.now (demands_of second.now))) }
    ensures apart { IfOk result (λ a. a ≡ false → Not (LightOrderSame (count_at key.now (demands_of first.now)) (count_at key.now (demands_of second.now)))) }
{
    let one = count_at(alloc, forms, first, key);
    let (one, other) = both(one, count_at(alloc, forms, second, key))?;
    match one {
        Some(one) => match other {
            Some(other) => ordered(alloc, &one, &other),
            None => Ok(false),
        },
        None => Ok(false),
    }
}
