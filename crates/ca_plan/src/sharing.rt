//! Verdicts that tell an offence. Where the pair before has it too it is one value in memory.

ghost use Rattle.std.specs.Prelude.{◌≡◌, IfOk, IfSome, IsTrue};
ghost use Rattle.ca_verdicts.specs.declared.verdicts.Reason.TheVariants.{NotSeparable};
ghost use Rattle.ca_verdicts.specs.declared.verdicts.Verdict.TheVariants.{Unproved};

use crate::plans::PairVerdict;
use ca_forms::parts::let_go;
use ca_program::OpId;
use ca_section::Why;
use ca_verdicts::{Reason, Verdict};
use std::alloc::{AllocError, Global};

/// Whether it is the same line of the same operation.
fn same_place(op: OpId, line: u32, other: OpId, at: u32) -> bool
    ensures { IsTrue result → (op ≡ other) × (line ≡ at) }
{
    if op.0 != other.0 {
        return false;
    }
    line == at
}

/// Whether it is the same offence there.
fn same_offence(op: OpId, line: u32, why: Why, other: OpId, at: u32, what: Why) -> bool
    ensures { IsTrue result → NotSeparable op line why ≡ NotSeparable other at what }
{
    why == what && same_place(op, line, other, at)
}

/// Whether two reasons are one offence, or name one loop.
fn same_reason(one: &Reason, two: &Reason) -> bool
    ensures { IsTrue result → one.now ≡ two.now }
{
    match (one, two) {
        (
            Reason::NotSeparable { op, line, why },
            Reason::NotSeparable {
                op: other,
                line: at,
                why: what,
            },
        ) => same_offence(*op, *line, *why, *other, *at, *what),
        (Reason::LoopForm(line), Reason::LoopForm(at)) => line == at,
        _ => false,
    }
}

/// Whether a verdict tells an offence.
fn tells(verdict: &Verdict, reason: &Reason) -> bool
    ensures { IsTrue result → verdict.now ≡ Unproved reason.now }
{
    match verdict {
        Verdict::Commutes => false,
        Verdict::Unproved(told) => same_reason(told, reason),
    }
}

/// The last of these pairs, if its verdict tells the offence.
fn last_with<'a>(pairs: &'a [PairVerdict], reason: &Reason) -> Option<&'a PairVerdict>
    ensures { IfSome result (λ v. v.now.verdict ≡ Unproved reason.now) }
{
    let count = pairs.len();
    if count == 0 {
        return None;
    }
    let last = &pairs[count - 1];
    if tells(last.verdict(), reason) {
        Some(last)
    } else {
        None
    }
}

/// The verdict on two operations that tells their offence, behind these pairs.
pub(crate) fn offence_on(
    alloc: Global,
    a: OpId,
    b: OpId,
    reason: Reason,
    pairs: &[PairVerdict],
) -> Result<PairVerdict, AllocError>
    ensures { IfOk result (λ v. v ≡ record { a = a; b = b; verdict = Unproved reason }) }
{
    match last_with(pairs, &reason) {
        Some(pair) => {
            let_go(reason);
            pair.on(a, b)
        }
        None => PairVerdict::of(alloc, a, b, Verdict::Unproved(reason)),
    }
}
