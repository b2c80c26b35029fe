//! Sweeps: what they demand, and the array that they leave.

ghost use Rattle.std.specs.Prelude.{◌≡◌, ◌&&◌, [], ◌∷◌, Some, false, true, IfOk, OnOk};
ghost use Rattle.ca_program.specs.View.{expression_view, program_view};
ghost use Rattle.ca_norm.specs.Terms.{neg, sweep};
ghost use Rattle.ca_sweep.specs.Seen.{sweep_view};
ghost use Rattle.ca_symbolic.specs.States.{term_at, demand, sweeps};
ghost use Rattle.ca_symbolic.specs.Execution.{term_of, with_field, addend_term, after_loop};
ghost use Rattle.ca_symbolic.specs.Demanded.{with_demands};
ghost use Rattle.ca_symbolic.specs.clauses.Refusals.{refused, refused_addend, refused_sweep};
ghost use Rattle.ca_symbolic.specs.clauses.Sums.{DemandsNothing, SumsDemandNothing};
ghost use Rattle.ca_shared_terms.specs.Heavy.{is_heavy};

use crate::carried::{leaf, together};
use crate::demand::{DemandKind, Demands};
use crate::evaluate::value_of;
use crate::state::SymState;
use ca_forms::parts::add;
use ca_program::{Expr, FieldId, Program};
use ca_shared_terms::{ExecutionError, LightTerm};
use ca_sweep::SweepLoop;
use std::alloc::{AllocError, Global};

/// The term of a sum, which demands nothing.
fn sum_of(
    alloc: Global,
    program: &Program,
    state: &SymState,
    e: &Expr,
    out: &mut Demands,
) -> Result<LightTerm, ExecutionError>
    requires sum { DemandsNothing (program_view program.now) (expression_view e.now) }
    ensures made { IfOk result (λ t. t ≡ term_of (program_view program.now) state.now (expression_view e.now)) }
    ensures demands { OnOk result (out.new ≡ out.old) }
    ensures light { OnOk result (refused (program_view program.now) state.now out.old.guard (expression_view e.now) ≡ false) }
    ensures large { result ≡ Err ExecutionError.Large → refused (program_view program.now) state.now out.old.guard (expression_view e.now) ≡ true }
{
    value_of(alloc, program, state, e, out)
}

/// What is added, where it may be taken off.
fn addend_term(alloc: Global, minus: bool, term: LightTerm) -> Result<LightTerm, ExecutionError>
    ensures made { IfOk result (λ t. t ≡ addend_term minus term) }
    ensures light { OnOk result ((minus && is_heavy (neg term)) ≡ false) }
    ensures large { result ≡ Err ExecutionError.Large → (minus && is_heavy (neg term)) ≡ true }
{
    if minus { term.negated(alloc) } else { Ok(term) }
}

/// The term of what a sweep adds.
#[tactic(auto, using(crate::proofs::Flags::neither, crate::proofs::Flags::first_of, crate::proofs::Flags::second_of))]
fn addend_of(
    alloc: Global,
    program: &Program,
    state: &SymState,
    minus: bool,
    e: &Expr,
    out: &mut Demands,
) -> Result<LightTerm, ExecutionError>
    requires sum { DemandsNothing (program_view program.now) (expression_view e.now) }
    ensures made { IfOk result (λ t. t ≡ addend_term minus (term_of (program_view program.now) state.now (expression_view e.now))) }
    ensures demands { OnOk result (out.new ≡ out.old) }
    ensures light { OnOk result (refused_addend (program_view program.now) state.now out.old.guard minus (expression_view e.now) ≡ false) }
    ensures large { result ≡ Err ExecutionError.Large → refused_addend (program_view program.now) state.now out.old.guard minus (expression_view e.now) ≡ true }
{
    let term = sum_of(alloc, program, state, e, out)?;
    addend_term(alloc, minus, term)
}

/// A range is to lie in an array.
fn ask_swept(
    alloc: Global,
    field: FieldId,
    bounds: &(LightTerm, LightTerm),
    out: &mut Demands,
) -> Result<(), AllocError>
    ensures { OnOk result (out.new ≡ with_demands out.old (demand out.old.guard (sweeps field) (bounds.now.0 ∷ bounds.now.1 ∷ []) ∷ [])) }
{
    let mut parts = Vec::new(alloc);
    add(&mut parts, bounds.0.share())?;
    add(&mut parts, bounds.1.share())?;
    out.push(DemandKind::Sweeps(field), parts)
}

/// Sweeps a field from the first of the bounds up to but not including the second.
fn sweep_field(
    alloc: Global,
    field: FieldId,
    bounds: (LightTerm, LightTerm),
    addend: LightTerm,
    state: &mut SymState,
    out: &mut Demands,
) -> Result<(), ExecutionError>
    ensures after { OnOk result (state.new ≡ with_field state.old field.field (sweep (term_at state.old.fields field.field) bounds.0 bounds.1 addend)) }
    ensures demands { OnOk result (out.new ≡ with_demands out.old (demand out.old.guard (sweeps field) (bounds.0 ∷ bounds.1 ∷ []) ∷ [])) }
    ensures light { OnOk result (is_heavy (sweep (term_at state.old.fields field.field) bounds.0 bounds.1 addend) ≡ false) }
    ensures large { result ≡ Err ExecutionError.Large → is_heavy (sweep (term_at state.old.fields field.field) bounds.0 bounds.1 addend) ≡ true }
{
    let asked = leaf(ask_swept(alloc, field, &bounds, out));
    let kept = together((bounds, addend), asked)?;
    let array = leaf(state.field(alloc, field.field));
    let parts = together(kept.0, array)?;
    let term = parts.1.swept(alloc, parts.0.0.0, parts.0.0.1, parts.0.1)?;
    state.put_field(field.field, term);
    Ok(())
}

/// Runs a loop that sweeps, whose bounds and addend are sums.
#[tactic(auto, using(crate::proofs::Flags::neither, crate::proofs::Flags::first_of, crate::proofs::Flags::second_of))]
pub(crate) fn sweep(
    alloc: Global,
    program: &Program,
    w: SweepLoop<'_>,
    state: &mut SymState,
    out: &mut Demands,
) -> Result<(), ExecutionError>
    requires sums { SumsDemandNothing (program_view program.now) (sweep_view w) }
    ensures after { OnOk result (state.new ≡ after_loop (program_view program.now) state.old (Some (sweep_view w.entry))) }
    ensures demands { OnOk result (out.new ≡ with_demands out.old (demand out.old.guard (sweeps w.entry.field) (term_of (program_view program.now) state.old (expression_view w.entry.from.now) ∷ term_of (program_view program.now) state.old (expression_view w.entry.to.now) ∷ []) ∷ [])) }
    ensures light { OnOk result (refused_sweep (program_view program.now) state.old out.old.guard (sweep_view w.entry) ≡ false) }
    ensures large { result ≡ Err ExecutionError.Large → refused_sweep (program_view program.now) state.old out.old.guard (sweep_view w.entry) ≡ true }
{
    let from = sum_of(alloc, program, state, w.from, out)?;
    let last = sum_of(alloc, program, state, w.to, out);
    let bounds = together(from, last)?;
    let added = addend_of(alloc, program, state, w.minus, w.addend, out);
    let parts = together(bounds, added)?;
    sweep_field(alloc, w.field, parts.0, parts.1, state, out)
}
