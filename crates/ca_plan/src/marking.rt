//! From verdicts to the marks of a plan: `IsMarked` and `IsMarkedLoop` of `specs/Plans.antt`.

ghost use Rattle.std.specs.Prelude.{◌≡◌, ◌≢◌, ◌↔◌, ◌<◌, ℕ, [], length, map, true, Contains, IfOk, IsTrue};
ghost use Rattle.std.specs.List.Sorted.{IsStrictlyIncreasing};
ghost use Rattle.ca_program.specs.declared.program.LoopId.{LoopId};
ghost use Rattle.ca_program.specs.declared.program.OpId.{OpId};
ghost use Rattle.ca_program.specs.View.{program_view, statement_view, statements_view};
ghost use Rattle.ca_parallel.specs.Bodies.{calls_of_all};
ghost use Rattle.ca_parallel.specs.Extents.{operation_body};
ghost use Rattle.ca_parallel.specs.ExtentsOf.{Rises, OpBefore};
ghost use Rattle.ca_parallel.specs.Separable.{IsSeparated};
ghost use Rattle.ca_plan.specs.clauses.Loops.{seen};
ghost use Rattle.ca_plan.specs.Plans.{LoopBefore};
ghost use Rattle.ca_plan.specs.Told.{AllCommute, CommutingOp, CommutingLoop, Noted, loop_of, shared};
ghost use Rattle.ca_verdicts.specs.declared.verdicts.Verdict.TheVariants.{Commutes};

use crate::calls::add_all_calls;
use crate::plans::{Judged, JudgedLoop};
use ca_base::Memory;
use ca_program::{LoopId, OpId, Program, Stmt};
use ca_section::Readers;
use ca_verdicts::Verdict;
use std::alloc::Global;
use std::rc::Rc;

fn commutes(verdict: &Verdict) -> bool
    ensures { IsTrue result ↔ (verdict.now ≡ Commutes) }
{
    match verdict {
        Verdict::Commutes => true,
        Verdict::Unproved(_) => false,
    }
}

/// Whether each pair of an extent has the verdict Commutes.
fn all_commute(judged: &Judged) -> bool
    ensures { IsTrue result ↔ AllCommute judged.now }
{
    for pair in judged.pairs() {
        if !commutes(pair.verdict()) {
            return false;
        }
    }
    true
}

/// Whether statements call an operation.
fn hold_call(alloc: Global, stmts: &[Stmt]) -> Result<bool, Memory>
    ensures { IfOk result (λ b. IsTrue b ↔ (calls_of_all (statements_view stmts.now) ≢ [])) }
{
    let mut calls = Vec::new(alloc);
    add_all_calls(stmts, &mut calls)?;
    Ok(calls.len() > 0)
}

/// Whether an operation with this extent is marked: it calls, and all that it may invoke commutes.
fn is_marked_op(alloc: Global, stmts: &[Stmt], judged: &Judged) -> Result<bool, Memory>
    ensures { IfOk result (λ b. IsTrue b ↔ ((calls_of_all (statements_view stmts.now) ≢ []) × AllCommute judged.now)) }
{
    let calls = hold_call(alloc, stmts)?;
    Ok(calls && all_commute(judged))
}

/// Adds an operation with this extent, if it is marked.
fn note_op(
    alloc: Global,
    program: &Program,
    op: OpId,
    judged: &Judged,
    out: &mut Vec<OpId>,
) -> Result<(), Memory>
    requires { op.0 < length program.now.ops.items }
    ensures { IfOk result (λ _. Noted ((calls_of_all (operation_body (program_view program.now) op) ≢ []) × AllCommute judged.now) out.old.items out.new.items op) }
{
    let stmts = program.op(op).body.stmts.as_slice();
    let marked = is_marked_op(alloc, stmts, judged)?;
    if marked {
        out.push(op)?;
    }
    Ok(())
}

/// The marked operations.
pub(crate) fn marked_ops(
    alloc: Global,
    program: &Program,
    ops: &[Rc<Judged>],
) -> Result<Vec<OpId>, Memory>
    requires { length ops.now ≡ length program.now.ops.items }
    ensures marked { IfOk result (λ ms. (op : OpId) → Contains ms.items op ↔ CommutingOp (program_view program.now) (shared ops.now) op) }
    ensures rise { IfOk result (λ ms. Rises OpBefore ms.items) }
{
    let Ok(count) = u32::try_from(ops.len()) else {
        return Err(Memory);
    };
    let mut marked = Vec::new(alloc);
    for n in 0..count {
        note_op(alloc, program, OpId(n), &ops[n as usize], &mut marked)?;
    }
    Ok(marked)
}

/// Whether a loop with this extent is marked: all that its calls may invoke commutes, and its own expressions read only
/// locals and constants of the extent, and divide by literals other than 0 alone.
fn is_marked_loop(
    alloc: Global,
    program: &Program,
    s: &Stmt,
    judged: &Judged,
) -> Result<bool, Memory>
    ensures { IfOk result (λ b. IsTrue b ↔ (AllCommute judged.now × IsSeparated (program_view program.now) judged.now.extent.written true (statement_view s.now))) }
{
    if !all_commute(judged) {
        return Ok(false);
    }
    let readers = Readers::of(alloc, program, judged.extent())?;
    Ok(readers.is_constant(program, judged.extent(), s))
}

/// Puts numbers in order, each once.
fn rise(numbers: &mut Vec<u32>)
    ensures rises { IsStrictlyIncreasing numbers.new.items }
    ensures keeps { (n : ℕ) → Contains numbers.old.items n → Contains numbers.new.items n }
    ensures adds_none { (n : ℕ) → Contains numbers.new.items n → Contains numbers.old.items n }
{
    numbers.sort_unstable();
    numbers.dedup();
}

/// The loops of these numbers.
fn loops_of(alloc: Global, numbers: &[u32]) -> Result<Vec<LoopId>, Memory>
    ensures { IfOk result (λ loops. loops.items ≡ map loop_of numbers.now) }
{
    let mut loops = Vec::new(alloc);
    for n in numbers {
        loops.push(LoopId(*n))?;
    }
    Ok(loops)
}

/// Adds the number of a loop, if it is marked.
fn note_loop(
    alloc: Global,
    program: &Program,
    s: &Stmt,
    judged: &JudgedLoop,
    out: &mut Vec<u32>,
) -> Result<(), Memory>
    ensures { IfOk result (λ _. Noted (AllCommute judged.now.judged × IsSeparated (program_view program.now) judged.now.judged.extent.written true (statement_view s.now)) out.old.items out.new.items judged.now.site.0) }
{
    let marked = is_marked_loop(alloc, program, s, judged.judged())?;
    if marked {
        out.push(judged.site().0)?;
    }
    Ok(())
}

/// The numbers of the marked loops.
fn marked_sites(
    alloc: Global,
    program: &Program,
    loops: &[&Stmt],
    judged: &[JudgedLoop],
) -> Result<Vec<u32>, Memory>
    requires { length judged.now ≡ length loops.now }
    ensures { IfOk result (λ ns. (n : ℕ) → Contains ns.items n ↔ CommutingLoop (program_view program.now) (seen loops.now) judged.now n) }
{
    let mut sites = Vec::new(alloc);
    for n in 0..judged.len() {
        note_loop(alloc, program, loops[n], &judged[n], &mut sites)?;
    }
    Ok(sites)
}

/// The marked loops.
pub(crate) fn marked_loops(
    alloc: Global,
    program: &Program,
    loops: &[&Stmt],
    judged: &[JudgedLoop],
) -> Result<Vec<LoopId>, Memory>
    requires { length judged.now ≡ length loops.now }
    ensures marked { IfOk result (λ ms. (site : LoopId) → Contains ms.items site ↔ CommutingLoop (program_view program.now) (seen loops.now) judged.now site.0) }
    ensures rise { IfOk result (λ ms. Rises LoopBefore ms.items) }
{
    let mut sites = marked_sites(alloc, program, loops, judged)?;
    rise(&mut sites);
    let marked = loops_of(alloc, &sites)?;
    Ok(marked)
}
