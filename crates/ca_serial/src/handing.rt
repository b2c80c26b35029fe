//! Calls that are handed to an engine.

ghost use Rattle.std.specs.Prelude.{◌≡◌, ◌⊎◌, ◌∷◌, ◌++◌, [], true, false, IfOk, OnOk, OnErr, length, map, slice_get};
ghost use Rattle.ca_program.specs.View.{program_view};
ghost use Rattle.ca_meaning.specs.ProgramTyped.{ProgramTyped};
ghost use Rattle.ca_meaning.specs.Serial.{World, in_heap};
ghost use Rattle.ca_parallel.specs.Calls.{invocations_of, operation_of};
ghost use Rattle.ca_parallel.specs.Lists.{note};
ghost use Rattle.ca_parallel.specs.Notes.{NoteGood};
ghost use Rattle.ca_code.specs.Codes.{code_seen};
ghost use Rattle.ca_code.specs.Seen.{kind_seen};
ghost use Rattle.ca_code_laws.specs.Machine.{kinds_there};
ghost use Rattle.ca_code_laws.specs.Runs.{Into, run_into};
ghost use Rattle.ca_steps.specs.Stands.{state_of};
ghost use Rattle.ca_steps.specs.Ways.{HandsAt};
ghost use Rattle.ca_serial.specs.clauses.Handing.{Leads, due_at, with_note};

use crate::asking::ask;
use crate::extents::Extents;
use ca_base::Memory;
use ca_code::{Code, Kind};
use ca_model::Value;
use ca_parallel::{Arguments, Op};
use ca_program::OpId;
use ca_sections::Coded;
use ca_steps::{Frames, InRun, Went};
use std::alloc::Global;
use std::sync::Wait;
use std::thread::Threads;

/// Hands the call that is due to an engine, or enters its body here where the engine declines. It answers whether the run goes
/// on; where it doesn't, a step too many is due.
pub(crate) fn hand_on<R: Threads + Wait + Sync, E: Extents>(
    rt: &R,
    alloc: Global,
    coded: &Coded<'_>,
    code: &Code<'_>,
    run: &mut InRun<'_>,
    frames: &mut Frames,
    values: &mut Vec<Value>,
    op: OpId,
    first: u32,
    receiver: u32,
    engine: &mut E,
) -> Result<bool, Memory>
    requires ready { E.ready }
    requires program { ProgramTyped (program_view coded.now) }
    requires due { HandsAt (code_seen code.now) frames.old op first receiver }
    requires good { NoteGood (program_view coded.now) (note run.old.heap (due_at (code_seen code.now) frames.old op first receiver ∷ []) frames.old.left) }
    requires serves { E.serves ≡ true }
    ensures means { IfOk result (λ goes. (w : World) (into : Into) → into (length w.notes) ≡ false → Leads (run_into into (program_view coded.now)) (code_seen code.now) (state_of frames.old (in_heap w run.old.heap)) goes frames.new (in_heap (with_note (in_heap w run.old.heap) (due_at (code_seen code.now) frames.old op first receiver ∷ []) frames.old.left) run.new.heap)) }
    ensures account { OnOk result (E.Accounts (E.account engine.old) (program_view coded.now) run.old.heap (due_at (code_seen code.now) frames.old op first receiver ∷ []) frames.old.left (E.account engine.new)) }
    ensures account_kept { OnErr result ((E.account engine.new ≡ E.account engine.old) ⊎ E.Accounts (E.account engine.old) (program_view coded.now) run.old.heap (due_at (code_seen code.now) frames.old op first receiver ∷ []) frames.old.left (E.account engine.new)) }
    ensures program { run.new.program ≡ run.old.program }
{
    let ops = due_ops(alloc, code, frames, values, op, first, receiver)?;
    let left = frames.left();
    let answer = ask(rt, coded, &mut run.heap, ops.as_slice(), left, engine)?;
    match answer {
        Some(rest) => {
            frames.pass(rest)?;
            Ok(true)
        }
        None => {
            let went = frames.enter_operation(code.ops.as_slice(), op, receiver, first)?;
            match went {
                Went::On => Ok(true),
                Went::Spends => Ok(false),
                _ => Err(Memory),
            }
        }
    }
}

/// The call that is due, as an engine takes it.
fn due_ops(
    alloc: Global,
    code: &Code<'_>,
    frames: &Frames,
    values: &mut Vec<Value>,
    op: OpId,
    first: u32,
    receiver: u32,
) -> Result<Vec<Op>, Memory>
    ensures calls { IfOk result (λ ops. invocations_of ops.items ≡ due_at (code_seen code.now) frames.now op first receiver ∷ []) }
    ensures ops { IfOk result (λ ops. map operation_of ops.items ≡ op ∷ []) }
{
    if first == u32::MAX {
        return Err(Memory);
    }
    values.clear();
    frames.values(first + 1, params_of(code, op), values)?;
    let mut args = Arguments::new(alloc);
    add_all(&mut args, values.as_slice())?;
    let mut ops = Vec::new(alloc);
    ops.push(Op { receiver, op, args })?;
    Ok(ops)
}

/// What the parameters of an operation are read as; nothing where the code has no such operation.
fn params_of<'c>(code: &'c Code<'_>, op: OpId) -> &'c [Kind]
    ensures { map kind_seen result.now ≡ kinds_there (slice_get (code_seen code.now).params op.0) }
{
    let params = code.params.as_slice();
    let place = op.0 as usize;
    if place < params.len() {
        params[place].as_slice()
    } else {
        &[]
    }
}

/// Adds all of these values.
fn add_all(args: &mut Arguments, items: &[Value]) -> Result<(), Memory>
    ensures { IfOk result (λ _. args.new ≡ args.old ++ items.now) }
{
    for item in items {
        args.push(*item)?;
    }
    Ok(())
}
