//! From a plan to what `pairs` writes of it: `pairs_text` of `specs/Texts.antt`.

ghost use Rattle.std.specs.Prelude.{◌++◌, flat_map, decimal};
ghost use Rattle.ca_base.specs.Devices.{HasCause, Writes};
ghost use Rattle.ca_program.specs.View.{program_view};
ghost use Rattle.ca_model.specs.Lines.{Adds, joined};
ghost use Rattle.ca_plan.specs.Texts.{extent_text, extents_text, head_text, loop_text, names_text, pair_text, pairs_text, verdict_text};
ghost use Rattle.ca_plan.specs.Told.{shared};
ghost use Rattle.ca_verdicts.specs.declared.verdicts.Verdict.TheVariants.{Unproved};
ghost use Rattle.ca_verdicts.specs.declared.verdicts.Reason.TheVariants.{NotSeparable};

use crate::names::{class_part, colons_part, field_part, name_part, why_part};
use crate::plans::{Judged, JudgedLoop, PairVerdict, Plan};
use ca_base::{Failed, Sink};
use ca_model::line::{Line, add_parts};
use ca_program::{OpId, Program};
use ca_section::Why;
use ca_verdicts::{Reason, Verdict};
use itoa::Buffer;
use std::rc::Rc;

/// Adds a number in decimal, with parts before and behind it.
pub(crate) fn add_counted<K: Sink>(
    before: &[&[u8]],
    number: u32,
    behind: &[&[u8]],
    line: &mut Line,
    sink: &mut K,
) -> Result<(), Failed>
    ensures bytes { Adds (K.written sink.old) (K.written sink.new) line.old line.new result (joined before.now ++ (decimal number ++ joined behind.now)) }
    ensures cause { HasCause (K.faults sink.old) (K.faults sink.new) result }
{
    if let Err(failed) = add_parts(before, line, sink) {
        return Err(failed);
    }
    if let Err(failed) = line.add(sink, Buffer::new().format(number).as_bytes()) {
        return Err(failed);
    }
    add_parts(behind, line, sink)
}

/// Adds the offence of an operation.
fn add_offence<'x, K: Sink>(
    program: &'x Program,
    op: OpId,
    at: u32,
    why: &'x Why,
    line: &mut Line,
    sink: &mut K,
) -> Result<(), Failed>
    ensures bytes { Adds (K.written sink.old) (K.written sink.new) line.old line.new result (verdict_text (program_view program.now) (Unproved (NotSeparable op at why.now))) }
    ensures cause { HasCause (K.faults sink.old) (K.faults sink.new) result }
{
    let n = op.0 as usize;
    add_counted(
        &[
            b"unproved NotSeparable ",
            class_part(program, n),
            colons_part(program, n),
            name_part(program, n),
            b" ",
        ],
        at,
        &[b" ", why_part(why)],
        line,
        sink,
    )
}

/// Adds a verdict.
fn add_verdict<'x, K: Sink>(
    program: &'x Program,
    verdict: &'x Verdict,
    line: &mut Line,
    sink: &mut K,
) -> Result<(), Failed>
    ensures bytes { Adds (K.written sink.old) (K.written sink.new) line.old line.new result (verdict_text (program_view program.now) verdict.now) }
    ensures cause { HasCause (K.faults sink.old) (K.faults sink.new) result }
{
    match verdict {
        Verdict::Commutes => line.add(sink, b"commutes"),
        Verdict::Unproved(Reason::NotSeparable { op, line: at, why }) => {
            add_offence(program, *op, *at, why, line, sink)
        }
        Verdict::Unproved(Reason::LoopForm(at)) => {
            add_counted(&[b"unproved LoopForm "], *at, &[], line, sink)
        }
        Verdict::Unproved(Reason::Large) => line.add(sink, b"unproved Large"),
        Verdict::Unproved(Reason::FieldDiffers { field, .. }) => add_parts(
            &[b"unproved FieldDiffers ", field_part(program, *field)],
            line,
            sink,
        ),
        Verdict::Unproved(Reason::DemandsDiffer { .. }) => {
            line.add(sink, b"unproved DemandsDiffer")
        }
    }
}

/// Adds the names of the two operations of a pair.
fn add_names<'x, K: Sink>(
    program: &'x Program,
    pair: &PairVerdict,
    line: &mut Line,
    sink: &mut K,
) -> Result<(), Failed>
    ensures bytes { Adds (K.written sink.old) (K.written sink.new) line.old line.new result (names_text (program_view program.now) pair.now.a pair.now.b) }
    ensures cause { HasCause (K.faults sink.old) (K.faults sink.new) result }
{
    let a = pair.first().0 as usize;
    let b = pair.second().0 as usize;
    add_parts(
        &[
            class_part(program, a),
            colons_part(program, a),
            name_part(program, a),
            b" ",
            class_part(program, b),
            colons_part(program, b),
            name_part(program, b),
            b" ",
        ],
        line,
        sink,
    )
}

/// Adds the line of a pair.
fn add_pair<K: Sink>(
    program: &Program,
    pair: &PairVerdict,
    line: &mut Line,
    sink: &mut K,
) -> Result<(), Failed>
    ensures bytes { Adds (K.written sink.old) (K.written sink.new) line.old line.new result (pair_text (program_view program.now) pair.now) }
    ensures cause { HasCause (K.faults sink.old) (K.faults sink.new) result }
{
    if let Err(failed) = add_names(program, pair, line, sink) {
        return Err(failed);
    }
    if let Err(failed) = add_verdict(program, pair.verdict(), line, sink) {
        return Err(failed);
    }
    line.add(sink, b"\n")
}

/// Adds the lines of pairs.
fn add_pairs<K: Sink>(
    program: &Program,
    pairs: &[PairVerdict],
    line: &mut Line,
    sink: &mut K,
) -> Result<(), Failed>
    ensures bytes { Adds (K.written sink.old) (K.written sink.new) line.old line.new result (flat_map (pair_text (program_view program.now)) pairs.now) }
    ensures cause { HasCause (K.faults sink.old) (K.faults sink.new) result }
{
    for pair in pairs {
        if let Err(failed) = add_pair(program, pair, line, sink) {
            return Err(failed);
        }
    }
    Ok(())
}

/// Adds the line of an operation's extent.
fn add_head<K: Sink>(
    program: &Program,
    op: usize,
    line: &mut Line,
    sink: &mut K,
) -> Result<(), Failed>
    ensures bytes { Adds (K.written sink.old) (K.written sink.new) line.old line.new result (head_text (program_view program.now) op) }
    ensures cause { HasCause (K.faults sink.old) (K.faults sink.new) result }
{
    add_parts(
        &[
            b"extent ",
            class_part(program, op),
            colons_part(program, op),
            name_part(program, op),
            b"\n",
        ],
        line,
        sink,
    )
}

/// Adds the lines of an operation's extent and of its pairs.
fn add_extent<K: Sink>(
    program: &Program,
    op: usize,
    judged: &Judged,
    line: &mut Line,
    sink: &mut K,
) -> Result<(), Failed>
    ensures bytes { Adds (K.written sink.old) (K.written sink.new) line.old line.new result (extent_text (program_view program.now) op judged.now) }
    ensures cause { HasCause (K.faults sink.old) (K.faults sink.new) result }
{
    if let Err(failed) = add_head(program, op, line, sink) {
        return Err(failed);
    }
    add_pairs(program, judged.pairs(), line, sink)
}

/// Adds those of all operations.
fn add_extents<K: Sink>(
    program: &Program,
    ops: &[Rc<Judged>],
    line: &mut Line,
    sink: &mut K,
) -> Result<(), Failed>
    ensures bytes { Adds (K.written sink.old) (K.written sink.new) line.old line.new result (extents_text (program_view program.now) 0 (shared ops.now)) }
    ensures cause { HasCause (K.faults sink.old) (K.faults sink.new) result }
{
    for op in 0..ops.len() {
        if let Err(failed) = add_extent(program, op, &ops[op], line, sink) {
            return Err(failed);
        }
    }
    Ok(())
}

/// Adds the lines of a loop of calls and of its pairs.
fn add_loop<K: Sink>(
    program: &Program,
    judged: &JudgedLoop,
    line: &mut Line,
    sink: &mut K,
) -> Result<(), Failed>
    ensures bytes { Adds (K.written sink.old) (K.written sink.new) line.old line.new result (loop_text (program_view program.now) judged.now) }
    ensures cause { HasCause (K.faults sink.old) (K.faults sink.new) result }
{
    if let Err(failed) = add_counted(&[b"loop "], judged.line(), &[b"\n"], line, sink) {
        return Err(failed);
    }
    add_pairs(program, judged.judged().pairs(), line, sink)
}

/// Adds those of all loops of calls.
fn add_loops<K: Sink>(
    program: &Program,
    loops: &[JudgedLoop],
    line: &mut Line,
    sink: &mut K,
) -> Result<(), Failed>
    ensures bytes { Adds (K.written sink.old) (K.written sink.new) line.old line.new result (flat_map (loop_text (program_view program.now)) loops.now) }
    ensures cause { HasCause (K.faults sink.old) (K.faults sink.new) result }
{
    for one in loops {
        if let Err(failed) = add_loop(program, one, line, sink) {
            return Err(failed);
        }
    }
    Ok(())
}

/// Writes the verdicts of a plan. It takes no memory.
///
/// After `Failed` a beginning of the text was written.
pub fn print_pairs<K: Sink>(program: &Program, plan: &Plan, sink: &mut K) -> Result<(), Failed>
    ensures bytes { Writes (K.written sink.old) (K.written sink.new) result (pairs_text (program_view program.now) plan.now) }
    ensures cause { HasCause (K.faults sink.old) (K.faults sink.new) result }
{
    let mut line = Line::new();
    if let Err(failed) = add_extents(program, plan.ops(), &mut line, sink) {
        return Err(failed);
    }
    if let Err(failed) = add_loops(program, plan.loops(), &mut line, sink) {
        return Err(failed);
    }
    line.flush(sink)
}
