//! The command `verify`, from a source and a schedule behind it to the reply: `VerifyReplies` of `specs/Verified.antt`.
//!
//! `verify` reads to the end, `split` finds the last line feed that a first line of a schedule follows, the front is read as a
//! source, `read_lines` reads the rest, `marks_of` makes the marks of the plan, and `check` tells the first bad line.

ghost use Rattle.std.specs.Prelude.{◌≡◌, ◌≤◌, ◌<◌, ◌++◌, ◌+◌, ℕ, List, length, codes, decimal, Some, IfOk};
ghost use Rattle.std.specs.Result.{IfErr};
ghost use Rattle.ca_base.specs.Devices.{HasCause, Writes};
ghost use Rattle.ca_program.specs.View.{program_view};
ghost use Rattle.ca_words.specs.declared.Command.TheVariants.{Verify};
ghost use Rattle.ca_trace.specs.Texts.{HasHeader};
ghost use Rattle.ca_lines.specs.Named.{NamesGood};
ghost use Rattle.ca_plan.specs.Checked.{Checked};
ghost use Rattle.ca_app.specs.Ends.{EndsWith, SinkCause};
ghost use Rattle.ca_app.specs.Verified.{LinesReplies, ScheduleReplies, PairReplies, VerifyReplies};
ghost use Rattle.ca_app.specs.clauses.Asked.{Uses};
ghost use Rattle.ca_app.specs.clauses.Ended.{ended};
ghost use Rattle.ca_app.specs.clauses.Reading.{IsProgramOf, IsCauseFor};

use crate::ending::{Status, Unwritten, exit_status, finish};
use crate::reading::{NoProgram, Reading, read_program};
use crate::refusals::Refusal;
use crate::running::marks_of;
use crate::serving::{MOST_BYTES, MOST_WITH_SCHEDULE, refuse, tell_unread};
use ca_base::{Failed, Sink, Source, read_all, write_all};
use ca_lines::{TraceError, read_lines, split};
use ca_model::line::write_line;
use ca_program::Program;
use ca_replay::check;
use ca_trace::Line;
use itoa::Buffer;
use std::alloc::Global;
use std::sync::Wait;
use std::thread::Threads;

/// Tells whether a run of the source, within the budget, can have the order of the schedule behind it.
pub fn verify<R: Threads + Wait + Sync, S: Source, K: Sink>(
    rt: &R,
    alloc: Global,
    budget: u32,
    source: &mut S,
    sink: &mut K,
) -> u8
    ensures headline { (text : List ℕ) → S.left source.old ≡ Some text → EndsWith (VerifyReplies budget text) result (K.written sink.old) (K.written sink.new) }
    ensures uses { Uses (Some (Verify budget)) result (S.left source.old) (S.left source.new) (S.faults source.old) (S.faults source.new) (K.faults sink.old) (K.faults sink.new) }
{
    match read_all(alloc, source, MOST_WITH_SCHEDULE) {
        Ok(text) => exit_status(verify_text(rt, alloc, budget, &text, sink)),
        Err(error) => tell_unread(error, sink),
    }
}

/// Checks a text that isn't too long.
fn verify_text<R: Threads + Wait + Sync, K: Sink>(
    rt: &R,
    alloc: Global,
    budget: u32,
    text: &[u8],
    sink: &mut K,
) -> Result<Status, Unwritten>
    requires short { length text.now ≤ MOST_WITH_SCHEDULE }
    ensures ends { EndsWith (VerifyReplies budget text.now) (ended result) (K.written sink.old) (K.written sink.new) }
    ensures write_fault { SinkCause (ended result) (K.faults sink.old) (K.faults sink.new) }
{
    match split(text) {
        Some((source, schedule)) => verify_pair(rt, alloc, budget, source, schedule, sink),
        None => refuse(Refusal::UNSCHEDULED, sink),
    }
}

/// Checks a source and the schedule behind it.
fn verify_pair<R: Threads + Wait + Sync, K: Sink>(
    rt: &R,
    alloc: Global,
    budget: u32,
    source: &[u8],
    schedule: &[u8],
    sink: &mut K,
) -> Result<Status, Unwritten>
    requires header { HasHeader schedule.now }
    requires short { length schedule.now ≤ MOST_WITH_SCHEDULE }
    ensures ends { EndsWith (PairReplies budget source.now schedule.now) (ended result) (K.written sink.old) (K.written sink.new) }
    ensures write_fault { SinkCause (ended result) (K.faults sink.old) (K.faults sink.new) }
{
    match read_source(alloc, source) {
        Ok(reading) => verify_schedule(rt, alloc, &reading.program, budget, schedule, sink),
        Err(NoProgram::Refused(refusal)) => refuse(refusal, sink),
        Err(NoProgram::Memory) => Err(Unwritten::Memory),
    }
}

/// Reads a source, whatever its length.
fn read_source(alloc: Global, source: &[u8]) -> Result<Reading, NoProgram>
    ensures program { IfOk result (λ r. IsProgramOf source.now (program_view r.program)) }
    ensures cause { IfErr result (IsCauseFor source.now) }
{
    if source.len() as u64 > MOST_BYTES {
        return Err(NoProgram::Refused(Refusal::OVERLONG));
    }
    read_program(alloc, source)
}

/// Checks the text of a schedule of a program.
fn verify_schedule<R: Threads + Wait + Sync, K: Sink>(
    rt: &R,
    alloc: Global,
    program: &Program,
    budget: u32,
    schedule: &[u8],
    sink: &mut K,
) -> Result<Status, Unwritten>
    requires checked { Checked (program_view program.now) }
    requires names { NamesGood (program_view program.now) }
    requires header { HasHeader schedule.now }
    requires short { length schedule.now ≤ MOST_WITH_SCHEDULE }
    ensures ends { EndsWith (ScheduleReplies (program_view program.now) budget schedule.now) (ended result) (K.written sink.old) (K.written sink.new) }
    ensures write_fault { SinkCause (ended result) (K.faults sink.old) (K.faults sink.new) }
{
    match read_lines(alloc, program, schedule) {
        Ok(lines) => verify_lines(rt, alloc, program, budget, lines, sink),
        Err(TraceError::BadLine(line)) => refuse(Refusal::of_line(line), sink),
        Err(TraceError::Memory) => Err(Unwritten::Memory),
    }
}

/// Checks the lines of a schedule of a program, from the second on.
fn verify_lines<R: Threads + Wait + Sync, K: Sink>(
    rt: &R,
    alloc: Global,
    program: &Program,
    budget: u32,
    lines: Vec<Line>,
    sink: &mut K,
) -> Result<Status, Unwritten>
    requires checked { Checked (program_view program.now) }
    ensures ends { EndsWith (LinesReplies (program_view program.now) budget lines.items) (ended result) (K.written sink.old) (K.written sink.new) }
    ensures write_fault { SinkCause (ended result) (K.faults sink.old) (K.faults sink.new) }
{
    let Ok(marks) = marks_of(alloc, program) else {
        return Err(Unwritten::Memory);
    };
    let Ok(bad) = check(rt, alloc, program, &marks, u64::from(budget), lines) else {
        return Err(Unwritten::Memory);
    };
    match bad {
        None => finish(write_all(sink, b"yes\n"), Status::Done),
        Some(place) => finish(write_no(place, sink), Status::GoesWrong),
    }
}

/// Writes which line is the first bad one: places count from the second line of the schedule, which is 0, and lines from the
/// first, which is 1.
fn write_no<K: Sink>(place: usize, sink: &mut K) -> Result<(), Failed>
    requires { place < 9223372036854775808 }
    ensures bytes { Writes (K.written sink.old) (K.written sink.new) result (codes "no " ++ (decimal (place + 2) ++ codes "\n")) }
    ensures cause { HasCause (K.faults sink.old) (K.faults sink.new) result }
{
    let mut digits = Buffer::new();
    let digits = digits.format(place as u64 + 2);
    write_line(&[b"no ", digits.as_bytes(), b"\n"], sink)
}
