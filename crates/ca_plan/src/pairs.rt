//! The verdicts on the pairs of an extent.

ghost use Rattle.std.specs.Prelude.{◌≡◌, ◌<◌, [], ◌∷◌, length, IfOk, OnOk, IsTrue};
ghost use Rattle.ca_program.specs.View.{program_view};
ghost use Rattle.ca_plan.specs.clauses.Keeping.{AllFit, IsOn, OffencesOf};
ghost use Rattle.ca_plan.specs.Pairs.{of_one_class, pairs_in, pairs_with};
ghost use Rattle.ca_plan.specs.Told.{PairTold, Told};

use crate::known::Known;
use crate::offences::Offences;
use crate::plans::PairVerdict;
use crate::sharing::offence_on;
use ca_base::Memory;
use ca_extent::Extent;
use ca_program::{OpId, Program};
use std::alloc::Global;

/// Whether both are operations of one class.
fn of_one_class(program: &Program, a: OpId, b: OpId) -> bool
    ensures same { result ≡ of_one_class (program_view program.now) a b }
    ensures first { IsTrue result → a.0 < length program.now.ops.items }
    ensures second { IsTrue result → b.0 < length program.now.ops.items }
{
    if (a.0 as usize) >= program.ops.len() || (b.0 as usize) >= program.ops.len() {
        return false;
    }
    program.op(a).class.0 == program.op(b).class.0
}

/// The verdict on two operations of an extent, behind these pairs.
fn verdict_in(
    alloc: Global,
    program: &Program,
    extent: &Extent,
    offences: &Offences,
    known: &mut Known,
    a: OpId,
    b: OpId,
    pairs: &[PairVerdict],
) -> Result<PairVerdict, Memory>
    requires first { a.0 < length program.now.ops.items }
    requires second { b.0 < length program.now.ops.items }
    requires offences { OffencesOf (program_view program.now) extent.now.written offences.now }
    requires known { AllFit (program_view program.now) known.old.slots.items }
    ensures pair { IfOk result (IsOn a b) }
    ensures told { IfOk result (PairTold (program_view program.now) extent.now) }
    ensures known { OnOk result (AllFit (program_view program.now) known.new.slots.items) }
{
    match offences.first(program, extent, a, b) {
        Some(reason) => {
            let pair = offence_on(alloc, a, b, reason, pairs)?;
            Ok(pair)
        }
        None => known.verdict(alloc, program, a, b),
    }
}

/// Adds the verdict on two operations, where they are of one class.
fn add_pair(
    alloc: Global,
    program: &Program,
    extent: &Extent,
    offences: &Offences,
    known: &mut Known,
    a: OpId,
    b: OpId,
    out: &mut Vec<PairVerdict>,
) -> Result<(), Memory>
    requires offences { OffencesOf (program_view program.now) extent.now.written offences.now }
    requires known { AllFit (program_view program.now) known.old.slots.items }
    ensures told { IfOk result (λ _. Told (program_view program.now) extent.now out.old.items out.new.items (pairs_with (program_view program.now) a (b ∷ []))) }
    ensures known { OnOk result (AllFit (program_view program.now) known.new.slots.items) }
{
    if of_one_class(program, a, b) {
        let pairs = out.as_slice();
        let pair = verdict_in(alloc, program, extent, offences, known, a, b, pairs)?;
        out.push(pair)?;
    }
    Ok(())
}

/// Adds the verdicts on the pairs of an operation with some others.
fn add_pairs_with(
    alloc: Global,
    program: &Program,
    extent: &Extent,
    offences: &Offences,
    known: &mut Known,
    a: OpId,
    others: &[OpId],
    out: &mut Vec<PairVerdict>,
) -> Result<(), Memory>
    requires offences { OffencesOf (program_view program.now) extent.now.written offences.now }
    requires known { AllFit (program_view program.now) known.old.slots.items }
    ensures told { IfOk result (λ _. Told (program_view program.now) extent.now out.old.items out.new.items (pairs_with (program_view program.now) a others.now)) }
    ensures known { OnOk result (AllFit (program_view program.now) known.new.slots.items) }
{
    for b in others {
        add_pair(alloc, program, extent, offences, known, a, *b, out)?;
    }
    Ok(())
}

/// The verdicts on the pairs of an extent, by the first of the two and then by the second. A pair of separable operations is
/// judged once, in whichever extent it comes first.
pub(crate) fn pairs_of(
    alloc: Global,
    program: &Program,
    extent: &Extent,
    known: &mut Known,
) -> Result<Vec<PairVerdict>, Memory>
    requires { AllFit (program_view program.now) known.old.slots.items }
    ensures told { IfOk result (λ pairs. Told (program_view program.now) extent.now [] pairs.items (pairs_in (program_view program.now) extent.now.ops)) }
    ensures known { OnOk result (AllFit (program_view program.now) known.new.slots.items) }
{
    let offences = Offences::of(alloc, program, extent)?;
    let mut pairs = Vec::new(alloc);
    let ops = extent.ops();
    for i in 0..ops.len() {
        let (_before, others) = ops.split_at(i);
        add_pairs_with(
            alloc, program, extent, &offences, known, ops[i], others, &mut pairs,
        )?;
    }
    Ok(pairs)
}
