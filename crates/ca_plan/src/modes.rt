//! From a plan to what `plan` writes of it: `plan_text` of `specs/Texts.antt`.

ghost use Rattle.std.specs.Prelude.{◌≡◌, flat_map};
ghost use Rattle.ca_base.specs.Devices.{HasCause, Writes};
ghost use Rattle.ca_program.specs.View.{program_view};
ghost use Rattle.ca_parallel.specs.Lists.{op_in};
ghost use Rattle.ca_model.specs.Lines.{Adds};
ghost use Rattle.ca_plan.specs.Texts.{loop_in, loop_mode_text, modes_text, named_text, op_mode_text, plan_text};
ghost use Rattle.ca_plan.specs.Told.{shared};

use crate::names::{class_part, colons_part, mode_part, name_part};
use crate::plans::{Judged, JudgedLoop, Plan};
use crate::texts::add_counted;
use ca_base::{Failed, Sink};
use ca_model::line::{Line, add_parts};
use ca_program::{LoopId, OpId, Program};
use std::rc::Rc;

/// Whether an operation is among these.
pub fn is_op_in(marked: &[OpId], op: usize) -> bool
    ensures { result ≡ op_in marked.now (record { 0 = op }) }
{
    'marked: for m in marked {
        if (m.0 as usize) == op {
            return true;
        }
    }
    false
}

/// Whether a loop is among these.
pub fn is_loop_in(marked: &[LoopId], site: LoopId) -> bool
    ensures { result ≡ loop_in marked.now site }
{
    'marked: for m in marked {
        if m.0 == site.0 {
            return true;
        }
    }
    false
}

/// Adds the line of an operation.
fn add_mode<K: Sink>(
    program: &Program,
    marked: &[OpId],
    op: usize,
    line: &mut Line,
    sink: &mut K,
) -> Result<(), Failed>
    ensures bytes { Adds (K.written sink.old) (K.written sink.new) line.old line.new result (op_mode_text (program_view program.now) marked.now op) }
    ensures cause { HasCause (K.faults sink.old) (K.faults sink.new) result }
{
    let parallel = is_op_in(marked, op);
    add_named(program, op, &parallel, line, sink)
}

/// Adds the line of an operation, which is marked or not.
fn add_named<'x, K: Sink>(
    program: &'x Program,
    op: usize,
    parallel: &'x bool,
    line: &mut Line,
    sink: &mut K,
) -> Result<(), Failed>
    ensures bytes { Adds (K.written sink.old) (K.written sink.new) line.old line.new result (named_text (program_view program.now) op parallel.now) }
    ensures cause { HasCause (K.faults sink.old) (K.faults sink.new) result }
{
    add_parts(
        &[
            b"op ",
            class_part(program, op),
            colons_part(program, op),
            name_part(program, op),
            mode_part(parallel),
        ],
        line,
        sink,
    )
}

/// Adds the lines of all operations.
fn add_modes<K: Sink>(
    program: &Program,
    marked: &[OpId],
    ops: &[Rc<Judged>],
    line: &mut Line,
    sink: &mut K,
) -> Result<(), Failed>
    ensures bytes { Adds (K.written sink.old) (K.written sink.new) line.old line.new result (modes_text (program_view program.now) marked.now 0 (shared ops.now)) }
    ensures cause { HasCause (K.faults sink.old) (K.faults sink.new) result }
{
    for op in 0..ops.len() {
        if let Err(failed) = add_mode(program, marked, op, line, sink) {
            return Err(failed);
        }
    }
    Ok(())
}

/// Adds the line of a loop of calls.
fn add_loop_mode<K: Sink>(
    marked: &[LoopId],
    judged: &JudgedLoop,
    line: &mut Line,
    sink: &mut K,
) -> Result<(), Failed>
    ensures bytes { Adds (K.written sink.old) (K.written sink.new) line.old line.new result (loop_mode_text marked.now judged.now) }
    ensures cause { HasCause (K.faults sink.old) (K.faults sink.new) result }
{
    let parallel = is_loop_in(marked, judged.site());
    add_counted(
        &[b"loop "],
        judged.line(),
        &[mode_part(&parallel)],
        line,
        sink,
    )
}

/// Adds the lines of all loops of calls.
fn add_loop_modes<K: Sink>(
    marked: &[LoopId],
    loops: &[JudgedLoop],
    line: &mut Line,
    sink: &mut K,
) -> Result<(), Failed>
    ensures bytes { Adds (K.written sink.old) (K.written sink.new) line.old line.new result (flat_map (loop_mode_text marked.now) loops.now) }
    ensures cause { HasCause (K.faults sink.old) (K.faults sink.new) result }
{
    for one in loops {
        if let Err(failed) = add_loop_mode(marked, one, line, sink) {
            return Err(failed);
        }
    }
    Ok(())
}

/// Writes what a plan marks. It takes no memory.
///
/// After `Failed` a beginning of the text was written.
pub fn print_plan<K: Sink>(program: &Program, plan: &Plan, sink: &mut K) -> Result<(), Failed>
    ensures bytes { Writes (K.written sink.old) (K.written sink.new) result (plan_text (program_view program.now) plan.now) }
    ensures cause { HasCause (K.faults sink.old) (K.faults sink.new) result }
{
    let mut line = Line::new();
    if let Err(failed) = add_modes(program, plan.marked_ops(), plan.ops(), &mut line, sink) {
        return Err(failed);
    }
    if let Err(failed) = add_loop_modes(plan.marked_loops(), plan.loops(), &mut line, sink) {
        return Err(failed);
    }
    line.flush(sink)
}
