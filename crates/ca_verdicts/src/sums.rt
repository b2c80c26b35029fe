//! Sums of the conditions that marks name.

ghost use Rattle.std.specs.Prelude.{◌≡◌, ◌≢◌, map, IfOk, IfSome, IfNone, OnOk};
ghost use Rattle.ca_sums.specs.Sums.{NoZero, AddsSum};
ghost use Rattle.ca_forms.specs.Plain.{number_form};
ghost use Rattle.ca_forms.specs.Rules.{gathered};
ghost use Rattle.ca_verdicts.specs.clauses.Marks.{products_at, summed_up, condition_of, IsSettled};

use crate::marks::Marks;
use crate::sums::forms::LastForms;
use crate::sums::seen::is_seen;
use ca_forms::parts::{both, unless};
use ca_forms::polynomial::{Monomial, Scalar};
use ca_forms::sums::{add_polynomial, finish};
use ca_symbolic::Group;
use std::alloc::{AllocError, Global};
use std::collections::BTreeMap;

pub mod forms;
mod seen;

/// Adds a condition so many times; nothing where there is no group with the number.
fn add_condition(
    alloc: Global,
    form: &mut BTreeMap<Monomial, u64>,
    groups: &[Group],
    forms: &mut LastForms,
    number: u32,
    times: u64,
) -> Result<(), AllocError>
    requires { NoZero form.old.entries }
    ensures nonzero { NoZero form.new.entries }
    ensures added { OnOk result (AddsSum form.old.entries form.new.entries times (products_at (map condition_of groups.now) number)) }
{
    let place = number as usize;
    if place >= groups.len() {
        return Ok(());
    }
    let group = &groups[place];
    let condition = forms.polynomial(alloc, &group.guard)?;
    add_polynomial(alloc, form, &condition, times)
}

/// The sum of the conditions that the marks name.
fn sum_of(
    alloc: Global,
    groups: &[Group],
    forms: &mut LastForms,
    marks: &[(u32, u64)],
) -> Result<Scalar, AllocError>
    ensures { IfOk result (λ x. x ≡ number_form (gathered (summed_up (map condition_of groups.now) marks.now))) }
{
    let mut form = BTreeMap::new(alloc);
    for mark in marks {
        add_condition(alloc, &mut form, groups, forms, mark.0, mark.1)?;
    }
    Ok(Scalar::number(finish(alloc, form)?))
}

/// The two sums of the conditions that the marks of the two orders name, where they differ.
fn sums_apart(
    alloc: Global,
    first: &[Group],
    second: &[Group],
    forms: &mut LastForms,
    marks: &Marks,
) -> Result<Option<(Scalar, Scalar)>, AllocError>
    ensures first { IfOk result (λ r. IfSome r (λ q. q.0 ≡ number_form (gathered (summed_up (map condition_of first.now) marks.now.first.items)))) }
    ensures second { IfOk result (λ r. IfSome r (λ q. q.1 ≡ number_form (gathered (summed_up (map condition_of second.now) marks.now.second.items)))) }
    ensures differ { IfOk result (λ r. IfSome r (λ q. q.0 ≢ q.1)) }
    ensures same { IfOk result (λ r. IfNone r (IsSettled (map condition_of first.now) (map condition_of second.now) marks.now)) }
{
    let one = sum_of(alloc, first, forms, marks.first.as_slice());
    let (one, other) = both(one, sum_of(alloc, second, forms, marks.second.as_slice()))?;
    let alike = one.same(&other);
    Ok(unless(alike, one, other))
}

/// As `sums_apart`. No form is made where it is seen that the orders name the same conditions; `turn` is how many groups
/// the second order has of the operation that comes first in it.
pub fn difference(
    alloc: Global,
    first: &[Group],
    second: &[Group],
    turn: usize,
    forms: &mut LastForms,
    marks: &Marks,
) -> Result<Option<(Scalar, Scalar)>, AllocError>
    ensures first { IfOk result (λ r. IfSome r (λ q. q.0 ≡ number_form (gathered (summed_up (map condition_of first.now) marks.now.first.items)))) }
    ensures second { IfOk result (λ r. IfSome r (λ q. q.1 ≡ number_form (gathered (summed_up (map condition_of second.now) marks.now.second.items)))) }
    ensures differ { IfOk result (λ r. IfSome r (λ q. q.0 ≢ q.1)) }
    ensures same { IfOk result (λ r. IfNone r (IsSettled (map condition_of first.now) (map condition_of second.now) marks.now)) }
{
    if is_seen(first, second, turn, marks) {
        return Ok(None);
    }
    sums_apart(alloc, first, second, forms, marks)
}
