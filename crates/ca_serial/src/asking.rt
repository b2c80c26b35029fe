//! What an engine is asked.

ghost use Rattle.std.specs.Prelude.{◌≡◌, true, IfOk, OnOk, OnErr};
ghost use Rattle.ca_program.specs.View.{program_view};
ghost use Rattle.ca_meaning.specs.ProgramTyped.{ProgramTyped};
ghost use Rattle.ca_meaning.specs.Serial.{World, in_heap};
ghost use Rattle.ca_parallel.specs.Calls.{invocations_of};
ghost use Rattle.ca_parallel.specs.Lists.{note};
ghost use Rattle.ca_parallel.specs.Notes.{NoteGood};
ghost use Rattle.ca_serial.specs.clauses.Handing.{Given};

use crate::extents::{ExtentAnswer, Extents};
use ca_base::Memory;
use ca_model::Heap;
use ca_parallel::Op;
use ca_sections::Coded;
use std::sync::Wait;
use std::thread::Threads;

/// Hands operations to an engine, with the steps that are left. It answers those that are left behind them, or nothing where they are to
/// run here.
pub(crate) fn ask<R: Threads + Wait + Sync, E: Extents>(
    rt: &R,
    program: &Coded<'_>,
    heap: &mut Heap,
    ops: &[Op],
    left: u64,
    engine: &mut E,
) -> Result<Option<u64>, Memory>
    requires ready { E.ready }
    requires program { ProgramTyped (program_view program.now) }
    requires good { NoteGood (program_view program.now) (note heap.old (invocations_of ops.now) left) }
    requires serves { E.serves ≡ true }
    ensures given { IfOk result (λ rest. (w : World) → Given (program_view program.now) (in_heap w heap.old) (invocations_of ops.now) left heap.new rest) }
    ensures account { OnOk result (E.Accounts (E.account engine.old) (program_view program.now) heap.old (invocations_of ops.now) left (E.account engine.new)) }
    ensures account_kept { OnErr result (E.account engine.new ≡ E.account engine.old) }
{
    match engine.run(rt, program, heap, ops, left)? {
        ExtentAnswer::Done { steps } => Ok(Some(left.saturating_sub(steps))),
        ExtentAnswer::Declined => Ok(None),
    }
}
