//! The command `trace`, from a source to the schedule of a run: `TraceReplies` of `specs/Traced.antt`.
//!
//! `trace` reads to the end, `marks_of` makes the marks of the plan, `record_by_one` of `ca_record` or, for more workers,
//! `record_by_many` of `ca_workers` runs the program and tells its lines, and `write_lines` makes their text, which goes out
//! when the run has ended.

ghost use Rattle.std.specs.Prelude.{All, ◌≡◌, ◌≤◌, ◌++◌, ℕ, List, length, codes, Some, IfOk};
ghost use Rattle.ca_base.specs.Devices.{HasCause, Writes};
ghost use Rattle.ca_program.specs.Plain.{PlainProgram};
ghost use Rattle.ca_program.specs.View.{program_view};
ghost use Rattle.ca_meaning.specs.Output.{output};
ghost use Rattle.ca_trace.specs.Texts.{IsLineOf};
ghost use Rattle.ca_words.specs.declared.Command.TheVariants.{Trace};
ghost use Rattle.ca_words.specs.Words.{IsWorkers};
ghost use Rattle.ca_plan.specs.Checked.{Checked};
ghost use Rattle.ca_app.specs.Ends.{EndsWithOne, SinkCause};
ghost use Rattle.ca_app.specs.Traced.{TracedReplies, TraceReplies};
ghost use Rattle.ca_app.specs.Verified.{FollowsPlan};
ghost use Rattle.ca_app.specs.clauses.Asked.{Uses};
ghost use Rattle.ca_app.specs.clauses.Ended.{ended, number_of};

use crate::ending::{Status, Unwritten, exit_status, finish};
use crate::reading::{NoProgram, read_program};
use crate::running::marks_of;
use crate::serving::{MOST_BYTES, refuse, tell_unread};
use ca_base::{Failed, Gate, Memory, Sink, Source, read_all, write_all};
use ca_lines::write_lines;
use ca_program::Program;
use ca_record::record_by_one;
use ca_trace::Line;
use ca_workers::record_by_many;
use std::alloc::Global;
use std::sync::Wait;
use std::thread::Threads;

/// Runs the source by so many workers, which pass the gate as their engine does, and writes the schedule of the run. Nothing
/// that the run prints is written.
pub fn trace<R: Threads + Wait + Sync, S: Source, K: Sink, G: Gate + Sync>(
    rt: &R,
    alloc: Global,
    workers: u32,
    budget: u32,
    source: &mut S,
    sink: &mut K,
    gate: &G,
) -> u8
    requires workers { IsWorkers workers }
    ensures traced { (text : List ℕ) → S.left source.old ≡ Some text → EndsWithOne (TraceReplies budget text) result (K.written sink.old) (K.written sink.new) }
    ensures uses { Uses (Some (Trace workers budget)) result (S.left source.old) (S.left source.new) (S.faults source.old) (S.faults source.new) (K.faults sink.old) (K.faults sink.new) }
{
    match read_all(alloc, source, MOST_BYTES) {
        Ok(text) => exit_status(trace_text(rt, alloc, workers, budget, &text, sink, gate)),
        Err(error) => tell_unread(error, sink),
    }
}

/// Runs a text, and writes the schedule of the run.
fn trace_text<R: Threads + Wait + Sync, K: Sink, G: Gate + Sync>(
    rt: &R,
    alloc: Global,
    workers: u32,
    budget: u32,
    text: &[u8],
    sink: &mut K,
    gate: &G,
) -> Result<Status, Unwritten>
    requires workers { IsWorkers workers }
    requires short { length text.now ≤ MOST_BYTES }
    ensures traced { EndsWithOne (TraceReplies budget text.now) (ended result) (K.written sink.old) (K.written sink.new) }
    ensures write_fault { SinkCause (ended result) (K.faults sink.old) (K.faults sink.new) }
{
    match read_program(alloc, text) {
        Ok(reading) => trace_program(rt, alloc, &reading.program, workers, budget, sink, gate),
        Err(NoProgram::Refused(refusal)) => refuse(refusal, sink),
        Err(NoProgram::Memory) => Err(Unwritten::Memory),
    }
}

/// Runs a program, and writes the schedule of the run.
fn trace_program<R: Threads + Wait + Sync, K: Sink, G: Gate + Sync>(
    rt: &R,
    alloc: Global,
    program: &Program,
    workers: u32,
    budget: u32,
    sink: &mut K,
    gate: &G,
) -> Result<Status, Unwritten>
    requires checked { Checked (program_view program.now) }
    requires workers { IsWorkers workers }
    ensures traced { EndsWithOne (TracedReplies (program_view program.now) budget) (ended result) (K.written sink.old) (K.written sink.new) }
    ensures write_fault { SinkCause (ended result) (K.faults sink.old) (K.faults sink.new) }
{
    let Ok(lines) = record_by_plan(rt, alloc, program, workers, u64::from(budget), gate) else {
        return Err(Unwritten::Memory);
    };
    let Ok(schedule) = write_lines(alloc, program, &lines) else {
        return Err(Unwritten::Memory);
    };
    finish(write_schedule(&schedule, sink), status_of(&lines))
}

/// Runs a program, whose marked operations and loops an engine of so many workers runs, and tells the lines of its schedule.
fn record_by_plan<R: Threads + Wait + Sync, G: Gate + Sync>(
    rt: &R,
    alloc: Global,
    program: &Program,
    workers: u32,
    budget: u64,
    gate: &G,
) -> Result<Vec<Line>, Memory>
    requires checked { Checked (program_view program.now) }
    requires workers { IsWorkers workers }
    ensures follows { IfOk result (λ lines. FollowsPlan (program_view program.now) budget lines.items) }
    ensures of_program { IfOk result (λ lines. All (IsLineOf (program_view program.now)) lines.items) }
{
    let Ok(marks) = marks_of(alloc, program) else {
        return Err(Memory);
    };
    if workers > 1 {
        return record_by_many(rt, alloc, program, &marks, budget, workers, gate);
    }
    record_by_one(rt, alloc, program, &marks, budget, gate)
}

/// The status of the run that has these lines: the last line but one tells how it ended.
fn status_of(lines: &[Line]) -> Status
    requires { 2 ≤ length lines.now }
    ensures { (p : PlainProgram) (budget : ℕ) → FollowsPlan p budget lines.now → number_of result ≡ (output p budget).status }
{
    match &lines[lines.len() - 2] {
        Line::Trapped(_) => Status::Trapped,
        Line::Spent(_) => Status::Spent,
        _ => Status::Done,
    }
}

/// Writes a schedule behind a line feed, so that it may be put behind its source.
fn write_schedule<K: Sink>(schedule: &[u8], sink: &mut K) -> Result<(), Failed>
    ensures bytes { Writes (K.written sink.old) (K.written sink.new) result (codes "\n" ++ schedule.now) }
    ensures cause { HasCause (K.faults sink.old) (K.faults sink.new) result }
{
    if let Err(failed) = write_all(sink, b"\n") {
        return Err(failed);
    }
    write_all(sink, schedule)
}
