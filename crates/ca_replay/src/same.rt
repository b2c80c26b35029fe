//! Calls that are compared.

ghost use Rattle.std.specs.Prelude.{◌≡◌, ◌↔◌, IsTrue, MatchOption, Some, ℕ, slice_get};

use ca_model::Value;
use ca_parallel::Op;

/// Whether two calls are one.
pub(crate) fn same(a: &Op, b: &Op) -> bool
    ensures { IsTrue result ↔ (a.now ≡ b.now) }
{
    if a.receiver != b.receiver {
        return false;
    }
    if a.op.0 != b.op.0 {
        return false;
    }
    same_values(a.args.as_slice(), b.args.as_slice())
}

/// Whether two rows of values are one.
fn same_values(a: &[Value], b: &[Value]) -> bool
    ensures { IsTrue result ↔ (a.now ≡ b.now) }
{
    if a.len() != b.len() {
        return false;
    }
    let mut at: usize = 0;
    'values: while at < a.len() {
        if a[at] != b[at] {
            return false;
        }
        at += 1;
    }
    true
}

/// The place of a call among others, the newest if there are several.
fn find(ops: &[Op], op: &Op) -> Option<usize>
    ensures { MatchOption result ((n : ℕ) → ¬ (slice_get ops.now n ≡ Some op.now)) (λ place. slice_get ops.now place ≡ Some op.now) }
{
    let mut at = ops.len();
    'places: while at > 0 {
        at -= 1;
        if same(&ops[at], op) {
            return Some(at);
        }
    }
    None
}

/// The place of a call among others: the one that a hint tells, if it stands there, or else any.
pub(crate) fn find_at(ops: &[Op], op: &Op, hint: Option<usize>) -> Option<usize>
    ensures { MatchOption result ((n : ℕ) → ¬ (slice_get ops.now n ≡ Some op.now)) (λ place. slice_get ops.now place ≡ Some op.now) }
{
    if let Some(place) = hint {
        if place < ops.len() {
            if same(&ops[place], op) {
                return Some(place);
            }
        }
    }
    find(ops, op)
}
