//! Two orders that are tried before all are listed: terms that aren't the same are mostly apart where no two points are
//! equal.

ghost use Rattle.std.specs.Prelude.{◌≡◌, ◌≢◌, length, true, IsTrue, IfOk};
ghost use Rattle.ca_norm.specs.Terms.{shape};
ghost use Rattle.ca_norm.specs.Forms.{norm};
ghost use Rattle.ca_order.specs.Under.{under};
ghost use Rattle.ca_order.specs.Rankings.{ranked, is_ranking};
ghost use Rattle.ca_order.specs.OrderSame.{points_of, OrderSame};

use crate::answers::forms_apart;
use crate::point::Point;
use crate::rankings::is_ranking;
use ca_forms::parts::let_go;
use ca_norm::Term;
use std::alloc::{AllocError, Global};

/// Ranks of which no two are equal, each greater than the one before, or less. Whoever takes them tests whether they are
/// an order.
fn ranks_apart(alloc: Global, count: usize, falls: bool) -> Result<Vec<u32>, AllocError> {
    let mut ranks = Vec::new(alloc);
    for place in 0..count {
        let rank = if falls {
            count.saturating_sub(place).saturating_sub(1)
        } else {
            place
        };
        let Ok(rank) = u32::try_from(rank) else {
            return Err(AllocError);
        };
        ranks.push(rank)?;
    }
    Ok(ranks)
}

/// Whether ranks are an order of as many points.
fn is_order(points: &[Point], ranks: &[u32]) -> bool
    ensures long { IsTrue result → length ranks.now ≡ length points.now }
    ensures tested { IsTrue result → is_ranking points.now ranks.now ≡ true }
{
    ranks.len() == points.len() && is_ranking(points, ranks)
}

/// Whether two terms have different forms under ranks.
fn differ(
    alloc: Global,
    first: &Term,
    second: &Term,
    points: &[Point],
    ranks: &[u32],
) -> Result<bool, AllocError>
    ensures { IfOk result (λ a. IsTrue a → norm (under (ranked points.now ranks.now) (shape first.now)) ≢ norm (under (ranked points.now ranks.now) (shape second.now))) }
{
    let forms = forms_apart(alloc, first, second, points, ranks)?;
    match forms {
        Some(forms) => {
            let_go(forms);
            Ok(true)
        }
        None => Ok(false),
    }
}

/// Whether ranks are an order under which two terms have different forms.
fn is_refuted(
    alloc: Global,
    first: &Term,
    second: &Term,
    points: &[Point],
    ranks: &[u32],
) -> Result<bool, AllocError>
    ensures { IfOk result (λ a. IsTrue a → points.now ≡ points_of (shape first.now) (shape second.now) → OrderSame (shape first.now) (shape second.now) → ⊥) }
{
    if is_order(points, ranks) {
        return differ(alloc, first, second, points, ranks);
    }
    Ok(false)
}

/// Whether two terms with these points are apart where the points rise, or fall. There may be none or too many to try.
pub(crate) fn soon_refuted(
    alloc: Global,
    first: &Term,
    second: &Term,
    points: &[Point],
) -> Result<bool, AllocError>
    ensures { IfOk result (λ a. IsTrue a → points.now ≡ points_of (shape first.now) (shape second.now) → OrderSame (shape first.now) (shape second.now) → ⊥) }
{
    if points.len() < 2 || points.len() > 5 {
        return Ok(false);
    }
    let rising = ranks_apart(alloc, points.len(), false)?;
    let refuted = is_refuted(alloc, first, second, points, rising.as_slice())?;
    if refuted {
        return Ok(true);
    }
    let falling = ranks_apart(alloc, points.len(), true)?;
    is_refuted(alloc, first, second, points, falling.as_slice())
}
