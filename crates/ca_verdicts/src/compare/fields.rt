//! The fields of two orders, compared as terms: by their forms, and then under each order of their points.

ghost use Rattle.std.specs.Prelude.{◌≡◌, ◌≢◌, length, Ok, true, false, IsTrue, IfOk, IfSome, IfNone};
ghost use Rattle.ca_norm.specs.Forms.{norm};
ghost use Rattle.ca_order.specs.OrderSame.{OrderSame};
ghost use Rattle.ca_verdicts.specs.Verdicts.{OrderedScalar, SameField, SameFields};
ghost use Rattle.ca_verdicts.specs.clauses.Comparisons.{FieldsDiffer, Not};

use crate::verdicts::Reason;
use ca_forms::parts::{both, unless};
use ca_norm::{Normal, Sort, same};
use ca_order::are_order_same;
use ca_program::{ClassId, FieldId};
use ca_shared_terms::{Conditions, LightTerm};
use std::alloc::{AllocError, Global};

/// The forms of two terms, where these differ. Of terms that are seen to be one no form is made.
fn forms_apart(
    alloc: Global,
    conditions: &mut Conditions,
    first: &LightTerm,
    second: &LightTerm,
) -> Result<Option<(Normal, Normal)>, AllocError>
    ensures first { IfOk result (λ r. IfSome r (λ p. p.0 ≡ norm first.now)) }
    ensures second { IfOk result (λ r. IfSome r (λ p. p.1 ≡ norm second.now)) }
    ensures differ { IfOk result (λ r. IfSome r (λ p. p.0 ≢ p.1)) }
    ensures same { IfOk result (λ r. IfNone r (norm first.now ≡ norm second.now)) }
{
    if first.is_same(second) {
        return Ok(None);
    }
    let one = first.normal_under(alloc, conditions);
    let (one, other) = both(one, second.normal_under(alloc, conditions))?;
    let alike = same(&one, &other);
    Ok(unless(alike, one, other))
}

/// Whether two terms are the same under each order of their points.
pub(crate) fn ordered(
    alloc: Global,
    first: &LightTerm,
    second: &LightTerm,
) -> Result<bool, AllocError>
    ensures same { IfOk result (λ a. IsTrue a → OrderSame first.now second.now) }
    ensures apart { IfOk result (λ a. a ≡ false → Not (OrderSame first.now second.now)) }
{
    let (one, other) = both(first.term(alloc), second.term(alloc))?;
    are_order_same(alloc, &one, &other)
}

/// Whether they are single values, and the same under each order.
fn ordered_scalar(alloc: Global, first: &LightTerm, second: &LightTerm) -> Result<bool, AllocError>
    ensures same { IfOk result (λ a. IsTrue a → OrderedScalar first.now second.now) }
    ensures apart { IfOk result (λ a. a ≡ false → Not (OrderedScalar first.now second.now)) }
{
    match first.sort() {
        Sort::Long => ordered(alloc, first, second),
        Sort::Bool => ordered(alloc, first, second),
        Sort::Pointer => ordered(alloc, first, second),
        _ => Ok(false),
    }
}

/// What differs, unless it is the same by orders.
#[inline(never)]
pub(crate) fn unless_same<T: Drop>(
    apart: T,
    same: Result<bool, AllocError>,
) -> Result<Option<T>, AllocError>
    ensures some { IfOk result (λ r. IfSome r (λ p. p ≡ apart)) }
    ensures apart { IfOk result (λ r. IfSome r (λ _. same ≡ Ok false)) }
    ensures same { IfOk result (λ r. IfNone r (same ≡ Ok true)) }
{
    let same = same?;
    if same { Ok(None) } else { Ok(Some(apart)) }
}

/// The forms of a field after the two orders, where its terms are not the same.
fn field_differs(
    alloc: Global,
    conditions: &mut Conditions,
    first: &LightTerm,
    second: &LightTerm,
) -> Result<Option<(Normal, Normal)>, AllocError>
    ensures first { IfOk result (λ r. IfSome r (λ p. p.0 ≡ norm first.now)) }
    ensures second { IfOk result (λ r. IfSome r (λ p. p.1 ≡ norm second.now)) }
    ensures apart { IfOk result (λ r. IfSome r (λ _. Not (SameField first.now second.now))) }
    ensures same { IfOk result (λ r. IfNone r (SameField first.now second.now)) }
{
    let forms = forms_apart(alloc, conditions, first, second)?;
    match forms {
        None => Ok(None),
        Some(forms) => unless_same(forms, ordered_scalar(alloc, first, second)),
    }
}

/// The first field that is not the same after the two orders.
pub fn fields_differ(
    alloc: Global,
    class: ClassId,
    first: &[LightTerm],
    second: &[LightTerm],
) -> Result<Option<Reason>, AllocError>
    requires equal { length first.now ≡ length second.now }
    ensures differ { IfOk result (λ r. IfSome r (λ w. FieldsDiffer class first.now second.now w)) }
    ensures same { IfOk result (λ r. IfNone r (SameFields first.now second.now)) }
{
    let mut conditions = Conditions::new(alloc);
    for place in 0..first.len() {
        let Ok(number) = u32::try_from(place) else {
            return Err(AllocError);
        };
        let forms = field_differs(alloc, &mut conditions, &first[place], &second[place])?;
        match forms {
            Some((one, other)) => {
                let field = FieldId {
                    class,
                    field: number,
                };
                return Ok(Some(Reason::FieldDiffers {
                    field,
                    first: one,
                    second: other,
                }));
            }
            None => {}
        }
    }
    Ok(None)
}
