//! The extents of operations and of loops of calls, with their verdicts.

ghost use Rattle.std.specs.Prelude.{◌≡◌, ℕ, [], ◌∷◌, length, slice_get, Some, true, IfOk, OnOk, IfSome, IfNone, false};
ghost use Rattle.ca_program.specs.Plain.{Statement};
ghost use Rattle.ca_program.specs.View.{program_view, statement_view};
ghost use Rattle.ca_parallel.specs.ExtentsOf.{ExtentOf};
ghost use Rattle.ca_parallel.specs.Marks.{HasSite};
ghost use Rattle.ca_symbolic.specs.OtherLoops.{is_call_loop};
ghost use Rattle.ca_plan.specs.Plans.{Judged as PlainJudged, JudgedLoop as PlainLoop, IsJudgedLoop, op_at};
ghost use Rattle.ca_plan.specs.clauses.Keeping.{AreKept};
ghost use Rattle.ca_plan.specs.clauses.Loops.{seen};
ghost use Rattle.ca_plan.specs.Told.{JudgedOp, shared, WhollyTold};

use crate::calls::add_calls;
use crate::kept::Kept;
use crate::plans::{Judged, JudgedLoop};
use ca_base::Memory;
use ca_program::{LoopId, OpId, Program, Stmt, StmtForm};
use std::alloc::Global;
use std::rc::Rc;

/// The extent of each operation.
pub(crate) fn judged_ops(
    alloc: Global,
    program: &Program,
    kept: &mut Kept,
) -> Result<Vec<Rc<Judged>>, Memory>
    requires { AreKept (program_view program.now) kept.old }
    ensures as_many { IfOk result (λ js. length js.items ≡ length program.now.ops.items) }
    ensures each { IfOk result (λ js. (n : ℕ) (j : PlainJudged) → slice_get (shared js.items) n ≡ Some j → JudgedOp (program_view program.now) n j) }
    ensures kept { OnOk result (AreKept (program_view program.now) kept.new) }
{
    // More operations than a number can name don't fit in memory.
    let Ok(count) = u32::try_from(program.ops.len()) else {
        return Err(Memory);
    };
    let mut ops = Vec::new(alloc);
    for n in 0..count {
        let judged = kept.judged(alloc, program, &[OpId(n)])?;
        ops.push(judged)?;
    }
    Ok(ops)
}

/// The number of a `for`.
fn site_of(s: &Stmt) -> Option<LoopId>
    ensures some { IfSome result (λ id. HasSite (statement_view s.now) id) }
    ensures none { IfNone result (is_call_loop (statement_view s.now) ≡ false) }
{
    match &s.kind {
        StmtForm::For(site, ..) => Some(*site),
        _ => None,
    }
}

/// The extent of the calls of a loop of calls.
fn judged_loop(
    alloc: Global,
    program: &Program,
    s: &Stmt,
    kept: &mut Kept,
) -> Result<JudgedLoop, Memory>
    requires told { AreKept (program_view program.now) kept.old }
    requires form { is_call_loop (statement_view s.now) ≡ true }
    ensures judged { IfOk result (λ l. IsJudgedLoop (program_view program.now) (statement_view s.now) l) }
    ensures told { IfOk result (λ l. WhollyTold (program_view program.now) l.judged) }
    ensures kept { OnOk result (AreKept (program_view program.now) kept.new) }
{
    let Some(site) = site_of(s) else {
        unreachable!();
    };
    let mut roots = Vec::new(alloc);
    add_calls(s, &mut roots)?;
    let judged = kept.judged(alloc, program, &roots)?;
    Ok(JudgedLoop {
        site,
        line: s.line,
        judged,
    })
}

/// The extent of each of these loops of calls.
pub(crate) fn judged_loops(
    alloc: Global,
    program: &Program,
    loops: &[&Stmt],
    kept: &mut Kept,
) -> Result<Vec<JudgedLoop>, Memory>
    requires told { AreKept (program_view program.now) kept.old }
    requires form { (n : ℕ) (s : Statement) → slice_get (seen loops.now) n ≡ Some s → is_call_loop s ≡ true }
    ensures as_many { IfOk result (λ ls. length ls.items ≡ length loops.now) }
    ensures each { IfOk result (λ ls. (n : ℕ) (s : Statement) (l : PlainLoop) → slice_get (seen loops.now) n ≡ Some s → slice_get ls.items n ≡ Some l → IsJudgedLoop (program_view program.now) s l) }
    ensures told { IfOk result (λ ls. (n : ℕ) (l : PlainLoop) → slice_get ls.items n ≡ Some l → WhollyTold (program_view program.now) l.judged) }
{
    let mut judged = Vec::new(alloc);
    for n in 0..loops.len() {
        let one = judged_loop(alloc, program, loops[n], kept)?;
        judged.push(one)?;
    }
    Ok(judged)
}
