//! Verdicts on two operations of one class in an extent.
//!
//! `specs/Verdicts.antt` says which verdict a pair has: the first reason why it isn't shown to commute, or that it
//! does. Both operations are executed symbolically in both orders (`specs/Orders.antt`), and what the fields hold in
//! the end and what the orders demand (`specs/Demands.antt`) is compared by normal forms, and where these differ under each
//! order of the points (`specs/Counts.antt`, `ca_order`). `compare` runs the orders and compares them, `marks` sorts demands by
//! what is demanded, and `sums` sums up the conditions under which.
//!
//! Of the extent a verdict asks only whether both are separable in it, and which of their loops are sweeps there. So who asks
//! for many extents asks `offence` in each, which executes nothing, and `verdict_where_executable` once.
//!
//! `verdict` promises that verdict exactly; that two operations which it calls commuting do commute, for every receiver and all
//! arguments; and that a plain pair, and a pair that raises one field or lowers it, is always called so.
//!
//! Whoever reads the public clauses must believe `Analysed`, `Counts`, `Demands`, `Keys`, `Laws`, `MovingPairs`, `Orders` and
//! `Verdicts` of `specs/`; what stands in `specs/clauses/` serves clauses within the crate alone.
#![tactic(auto)]

mod compare;
mod key;
pub mod laws;
mod marks;
mod sums;
mod verdicts;

ghost use Rattle.std.specs.Prelude.{◌≡◌, ◌<◌, ◌^◌, ℕ, List, [], true, length, None, Err, IfOk, IfSome, IfNone};
ghost use Rattle.ca_program.specs.declared.program.FieldId.{FieldId};
ghost use Rattle.ca_program.specs.View.{program_view};
ghost use Rattle.ca_meaning.specs.Commuting.{Commutes as DoCommute};
ghost use Rattle.ca_parallel.specs.Extents.{Extent as PlainExtent};
ghost use Rattle.ca_section.specs.Offences.{Knows};
ghost use Rattle.ca_section.specs.Readers.{marked};
ghost use Rattle.ca_plain_laws.specs.PlainPairs.{IsPlainPair};
ghost use Rattle.ca_symbolic.specs.declared.running.SymbolicError.TheVariants.{LoopForm, Large};
ghost use Rattle.ca_verdicts.specs.Analysed.{Analysed};
ghost use Rattle.ca_verdicts.specs.declared.verdicts.Verdict.TheVariants.{Commutes};
ghost use Rattle.ca_verdicts.specs.Orders.{first_order, second_order};
ghost use Rattle.ca_verdicts.specs.MovingPairs.{IsMovingPair};
ghost use Rattle.ca_verdicts.specs.Verdicts.{BothSeparable, loop_of_both, CanExecute, is_large, OffenceTold, VerdictOf};

use crate::compare::{compare_orders, run_order};
pub use crate::verdicts::{Reason, Verdict};
use ca_base::Memory;
use ca_extent::Extent;
use ca_program::{FieldId, OpId, Program};
use ca_section::{Readers, Separability};
use ca_shared_terms::fields_of;
use ca_symbolic::{Side, SymbolicError, other_loop};
use std::alloc::Global;

/// The first of the two that isn't separable in the extent whose readers these are, with its first offence.
fn inseparable(
    readers: &Readers,
    program: &Program,
    extent: &Extent,
    a: OpId,
    b: OpId,
) -> Option<Reason>
    requires { Knows (program_view program.now) extent.now.written (marked readers.now) }
    ensures told { IfSome result (OffenceTold (program_view program.now) extent.now.written a b) }
    ensures separable { IfNone result (BothSeparable (program_view program.now) extent.now.written a b) }
{
    if let Separability::No { line, why } = readers.separable(program, extent, a) {
        return Some(Reason::NotSeparable { op: a, line, why });
    }
    if let Separability::No { line, why } = readers.separable(program, extent, b) {
        return Some(Reason::NotSeparable { op: b, line, why });
    }
    None
}

/// The line of the first loop that is neither a call loop nor a sweep where these fields are written, of the first of the two
/// that has one.
fn loop_of_both(program: &Program, written: &[FieldId], a: OpId, b: OpId) -> Option<u32>
    requires first { a.0 < length program.now.ops.items }
    requires second { b.0 < length program.now.ops.items }
    ensures { result ≡ loop_of_both (program_view program.now) written.now a b }
{
    match other_loop(program, written, a) {
        Some(line) => Some(line),
        None => other_loop(program, written, b),
    }
}

/// What is told of that loop.
fn other_form(program: &Program, written: &[FieldId], a: OpId, b: OpId) -> Option<Reason>
    requires first { a.0 < length program.now.ops.items }
    requires second { b.0 < length program.now.ops.items }
    ensures told { BothSeparable (program_view program.now) written.now a b → IfSome result (OffenceTold (program_view program.now) written.now a b) }
    ensures none { IfNone result (loop_of_both (program_view program.now) written.now a b ≡ None) }
{
    match loop_of_both(program, written, a, b) {
        Some(line) => Some(Reason::LoopForm(line)),
        None => None,
    }
}

/// The first of the two that isn't separable in the extent whose readers these are, with its first offence, or else the first
/// loop that is neither a call loop nor a sweep. It takes no memory.
pub fn offence(
    readers: &Readers,
    program: &Program,
    extent: &Extent,
    a: OpId,
    b: OpId,
) -> Option<Reason>
    requires readers { Knows (program_view program.now) extent.now.written (marked readers.now) }
    requires first { a.0 < length program.now.ops.items }
    requires second { b.0 < length program.now.ops.items }
    ensures told { IfSome result (OffenceTold (program_view program.now) extent.now.written a b) }
    ensures can { IfNone result (CanExecute (program_view program.now) extent.now.written a b) }
{
    match inseparable(readers, program, extent, a, b) {
        Some(reason) => Some(reason),
        None => other_form(program, extent.written(), a, b),
    }
}

/// The verdict on two operations that are separable and have no loops but call loops and those that are sweeps where nothing is
/// written.
fn compared(alloc: Global, program: &Program, a: OpId, b: OpId) -> Result<Verdict, SymbolicError>
    requires first { a.0 < length program.now.ops.items }
    requires second { b.0 < length program.now.ops.items }
    requires loops { loop_of_both (program_view program.now) [] a b ≡ None }
    ensures verdict { (written : List FieldId) → CanExecute (program_view program.now) written a b → IfOk result (λ v. VerdictOf (program_view program.now) written a b v) }
    ensures few { IfOk result (λ _. (length (first_order (program_view program.now) a b).demands < 2 ^ 64) × (length (second_order (program_view program.now) a b).demands < 2 ^ 64)) }
    ensures large { result ≡ Err Large → is_large (program_view program.now) a b ≡ true }
    ensures call_loops { (n : ℕ) → result ≡ Err (LoopForm n) → ⊥ }
{
    let class = program.op(a).class;
    let fields = fields_of(program, class);
    let first = run_order(alloc, program, fields, a, Side::First, b, Side::Second)?;
    let second = run_order(alloc, program, fields, b, Side::Second, a, Side::First)?;
    Ok(compare_orders(alloc, class, &first, &second)?)
}

/// The verdict on two operations that can be executed, and that little is demanded where it is Commutes.
fn decided(alloc: Global, program: &Program, a: OpId, b: OpId) -> Result<Verdict, Memory>
    requires first { a.0 < length program.now.ops.items }
    requires second { b.0 < length program.now.ops.items }
    ensures exact { (written : List FieldId) → CanExecute (program_view program.now) written a b → IfOk result (λ v. VerdictOf (program_view program.now) written a b v) }
    ensures few { IfOk result (λ v. v ≡ Commutes → (length (first_order (program_view program.now) a b).demands < 2 ^ 64) × (length (second_order (program_view program.now) a b).demands < 2 ^ 64)) }
{
    // In no extent are there fewer such loops, so none that can be executed is told of one.
    if let Some(line) = loop_of_both(program, &[], a, b) {
        return Ok(Verdict::Unproved(Reason::LoopForm(line)));
    }
    match compared(alloc, program, a, b) {
        Ok(verdict) => Ok(verdict),
        Err(SymbolicError::Large) => Ok(Verdict::Unproved(Reason::Large)),
        Err(SymbolicError::LoopForm(_)) => unreachable!(),
        Err(SymbolicError::Memory) => Err(Memory),
    }
}

/// The verdict on two operations in each extent in which both can be executed: it is one in all of them. Two operations with
/// the verdict Commutes do commute there, for every receiver and all arguments.
pub fn verdict_where_executable(
    alloc: Global,
    program: &Program,
    a: OpId,
    b: OpId,
) -> Result<Verdict, Memory>
    requires first { a.0 < length program.now.ops.items }
    requires second { b.0 < length program.now.ops.items }
    ensures exact { (written : List FieldId) → CanExecute (program_view program.now) written a b → IfOk result (λ v. VerdictOf (program_view program.now) written a b v) }
    ensures sound { (x : PlainExtent) → Analysed (program_view program.now) x a b → CanExecute (program_view program.now) x.written a b → IfOk result (λ v. v ≡ Commutes → DoCommute (program_view program.now) x.written a b) }
{
    decided(alloc, program, a, b)
}

/// The verdict on two operations in an extent: the first reason why they aren't shown to commute, or Commutes. Two
/// operations with the verdict Commutes do commute, for every receiver and all arguments, and a plain pair has it always, as
/// has one that raises one field or lowers it.
pub fn verdict(
    alloc: Global,
    program: &Program,
    extent: &Extent,
    a: OpId,
    b: OpId,
) -> Result<Verdict, Memory>
    requires first { a.0 < length program.now.ops.items }
    requires second { b.0 < length program.now.ops.items }
    ensures exact { IfOk result (λ v. VerdictOf (program_view program.now) extent.now.written a b v) }
    ensures sound { Analysed (program_view program.now) extent.now a b → IfOk result (λ v. v ≡ Commutes → DoCommute (program_view program.now) extent.now.written a b) }
    ensures plain { IsPlainPair (program_view program.now) extent.now.written a b → IfOk result (λ v. v ≡ Commutes) }
    ensures moving { IsMovingPair (program_view program.now) a b → IfOk result (λ v. v ≡ Commutes) }
{
    let readers = Readers::of(alloc, program, extent)?;
    match offence(&readers, program, extent, a, b) {
        Some(reason) => Ok(Verdict::Unproved(reason)),
        None => verdict_where_executable(alloc, program, a, b),
    }
}
