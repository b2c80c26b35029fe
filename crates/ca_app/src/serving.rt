//! From words and a text to the reply and the status: `Replies` of `specs/Reply.antt`, and `Ends` of `specs/Ends.antt`.

ghost use Rattle.std.specs.Prelude.{◌≡◌, ℕ, ◌≤◌, ◌⊎◌, true, false, List, length, Some, IfSome};
ghost use Rattle.ca_base.specs.declared.read_to_end.ReadError.TheVariants.{Fault};
ghost use Rattle.ca_base.specs.Devices.{Rose, at_end};
ghost use Rattle.ca_tree.specs.View.{tree_view};
ghost use Rattle.ca_program.specs.View.{program_view};
ghost use Rattle.ca_meaning.specs.Output.{Reply};
ghost use Rattle.ca_words.specs.declared.Command.TheVariants.{OnText, Trace, Verify};
ghost use Rattle.ca_words.specs.declared.TextCommand.TheVariants.{Tell};
ghost use Rattle.ca_words.specs.declared.PlanCommand.{PlanCommand};
ghost use Rattle.ca_words.specs.Words.{IsInRange, texts, Names};
ghost use Rattle.ca_app.specs.Causes.{IsUsageFault, ReadsNothing, ReadsSource, NamesNoTrace, IsRefused, IsCheckRefused, IsChecked, LinesGoWrong, RunEnds, IsDoneBy, IsTrapped, IsSpent};
ghost use Rattle.ca_app.specs.Ends.{Ends, EndsWith, EndsWithOne, SinkCause, Complete, CompleteWithOne, IsReadToEnd, status_after};
ghost use Rattle.ca_app.specs.Refusals.{refusal_reply};
ghost use Rattle.ca_app.specs.Reply.{ProgramReplies, Replies};
ghost use Rattle.ca_app.specs.Told.{ProgramTold};
ghost use Rattle.ca_app.specs.Traced.{TraceReplies};
ghost use Rattle.ca_app.specs.clauses.Asked.{Answers, Served, Untold, Uses, reads_source};
ghost use Rattle.ca_app.specs.clauses.Ended.{ended};
ghost use Rattle.ca_plan.specs.Checked.{Checked};

use crate::ending::{Status, Unwritten, exit_status, finish};
use crate::reading::{NoProgram, Reading, read_program};
use crate::refusals::Refusal;
use crate::running::run_program;
use crate::telling::tell_plan;
use crate::tracing::trace;
use crate::unread::serve_unread;
use crate::verifying::verify;
use ca_base::{Failed, Gate, ReadError, Sink, Source, read_all, write_all};
use ca_words::{Command, TextCommand, command_of, usage_line};
use std::alloc::Global;
use std::sync::Wait;
use std::thread::Threads;

/// The most bytes of a source.
pub const MOST_BYTES: u64 = 1_048_576;

/// The most bytes of a source with a schedule behind it.
pub const MOST_WITH_SCHEDULE: u64 = 67_108_864;

// The exit statuses.

/// The reply was written, and no refusal.
pub const DONE: u8 = 0;

/// The text is refused by a rule.
pub const REFUSED: u8 = 1;

/// The words name no command.
pub const USAGE: u8 = 2;

/// The run trapped.
pub const TRAPPED: u8 = 3;

/// The budget was spent.
pub const SPENT: u8 = 4;

/// Memory ran out.
pub const NO_MEMORY: u8 = 5;

/// A read failed.
pub const READ_FAULT: u8 = 6;

/// A write failed.
pub const WRITE_FAULT: u8 = 7;

/// The text is refused by a limit.
pub const PAST_LIMIT: u8 = 8;

/// A schedule doesn't follow.
pub const GOES_WRONG: u8 = 9;

/// Serves the words, which stand behind the program's name, over a source and a sink, and answers
/// the exit status.
///
/// A command that reads its source reads the whole of it before anything is written.
/// `NO_MEMORY` is out of memory, `READ_FAULT` a failed read, `WRITE_FAULT` a failed write; every
/// other status is that of the reply. A run passes the gate as its engine does.
pub fn top<R: AllocGlobal + Threads + Wait + Sync, S: Source, K: Sink, G: Gate + Sync>(
    rt: &R,
    words: &[String],
    source: &mut S,
    sink: &mut K,
    gate: &G,
) -> u8
    // Where the source tells its bytes: what was written is the reply of the words and the text,
    // or a beginning of it before memory ran out or a device failed.
    ensures headline { (text : List ℕ) → S.left source.old ≡ Some text → NamesNoTrace (texts words.now) → EndsWith (Replies (texts words.now) text) result (K.written sink.old) (K.written sink.new) }

    // `trace` has several replies: a schedule that follows, in whatever order the operations of its extents ran.
    ensures traced { (text : List ℕ) → S.left source.old ≡ Some text → (workers budget : ℕ) → Names (texts words.now) (Trace workers budget) → EndsWithOne (TraceReplies budget text) result (K.written sink.old) (K.written sink.new) }

    // What each of its statuses says of the text and its serial run.
    ensures done { (text : List ℕ) → S.left source.old ≡ Some text → result ≡ DONE → IsDoneBy (texts words.now) text (K.written sink.old) (K.written sink.new) }
    ensures refused { (text : List ℕ) → S.left source.old ≡ Some text → result ≡ REFUSED → IsRefused (texts words.now) false text ⊎ IsCheckRefused (texts words.now) false text }
    ensures trapped { (text : List ℕ) → S.left source.old ≡ Some text → result ≡ TRAPPED → RunEnds (texts words.now) text IsTrapped }
    ensures spent { (text : List ℕ) → S.left source.old ≡ Some text → result ≡ SPENT → RunEnds (texts words.now) text IsSpent }
    ensures limit { (text : List ℕ) → S.left source.old ≡ Some text → result ≡ PAST_LIMIT → IsRefused (texts words.now) true text ⊎ IsCheckRefused (texts words.now) true text }
    ensures goes_wrong { (text : List ℕ) → S.left source.old ≡ Some text → result ≡ GOES_WRONG → IsChecked (texts words.now) text LinesGoWrong }

    // Where neither device failed, the reply was given whole, or memory ran out.
    ensures complete { (text : List ℕ) → S.left source.old ≡ Some text → (Rose (S.faults source.old) (S.faults source.new) → ⊥) → (Rose (K.faults sink.old) (K.faults sink.new) → ⊥)
        → (reply : Reply) → Replies (texts words.now) text reply → Complete reply result (K.written sink.old) (K.written sink.new) }
    ensures traced_complete { (text : List ℕ) → S.left source.old ≡ Some text → (Rose (S.faults source.old) (S.faults source.new) → ⊥) → (Rose (K.faults sink.old) (K.faults sink.new) → ⊥)
        → (workers budget : ℕ) → Names (texts words.now) (Trace workers budget) → CompleteWithOne (TraceReplies budget text) result (K.written sink.old) (K.written sink.new) }

    // Words that name no command, or one that doesn't read its source, leave the source as it was, and
    // the reply is told whether or not the source tells its bytes.
    ensures unread { ReadsNothing (texts words.now) → source.new ≡ source.old }
    ensures unread_headline { ReadsNothing (texts words.now) → (text : List ℕ) → EndsWith (Replies (texts words.now) text) result (K.written sink.old) (K.written sink.new) }
    ensures unread_fault { ReadsNothing (texts words.now) → result ≡ READ_FAULT → ⊥ }

    // `USAGE` comes only where the words name no command. Then memory never runs out.
    ensures usage_status { IsUsageFault (texts words.now) → (result ≡ USAGE) ⊎ (result ≡ WRITE_FAULT) }
    ensures usage_only { result ≡ USAGE → IsUsageFault (texts words.now) }

    // `READ_FAULT` and `WRITE_FAULT` come only where the device failed in this call.
    ensures read_fault { result ≡ READ_FAULT → Rose (S.faults source.old) (S.faults source.new) }
    ensures write_fault { SinkCause result (K.faults sink.old) (K.faults sink.new) }
    ensures source_later { S.faults source.old ≤ S.faults source.new }
    ensures read_to_end { ReadsSource (texts words.now) → IsReadToEnd result → S.left source.new ≡ at_end (S.left source.old) }
    ensures limit_read_to_end { (text : List ℕ) → S.left source.old ≡ Some text → length text ≤ MOST_BYTES → result ≡ PAST_LIMIT → S.left source.new ≡ at_end (S.left source.old) }
    ensures schedule_read_to_end { (text : List ℕ) → S.left source.old ≡ Some text → (budget : ℕ) → Names (texts words.now) (Verify budget) → length text ≤ MOST_WITH_SCHEDULE → result ≡ PAST_LIMIT → S.left source.new ≡ at_end (S.left source.old) }
{
    answer(rt, command_of(words), source, sink, gate)
}

/// Answers a command, or words that name none.
fn answer<R: AllocGlobal + Threads + Wait + Sync, S: Source, K: Sink, G: Gate + Sync>(
    rt: &R,
    asked: Option<Command>,
    source: &mut S,
    sink: &mut K,
    gate: &G,
) -> u8
    requires in_range { IfSome asked IsInRange }
    ensures answers { Answers (S.left source.old) result (K.written sink.old) (K.written sink.new) asked }
    ensures unread { reads_source asked ≡ false → source.new ≡ source.old }
    ensures uses { Uses asked result (S.left source.old) (S.left source.new) (S.faults source.old) (S.faults source.new) (K.faults sink.old) (K.faults sink.new) }
{
    match asked {
        None => told_usage(write_all(sink, usage_line())),
        Some(command) => match command {
            Command::OnText(command) => serve(rt, rt.alloc(), command, source, sink, gate),
            Command::Alone(command) => {
                exit_status(serve_unread(rt, rt.alloc(), command, sink, gate))
            }
            Command::Trace { workers, budget } => {
                trace(rt, rt.alloc(), workers, budget, source, sink, gate)
            }
            Command::Verify { budget } => verify(rt, rt.alloc(), budget, source, sink),
        },
    }
}

/// Serves a command that reads a source and nothing behind it, on the text that the source has.
fn serve<R: Threads + Wait + Sync, S: Source, K: Sink, G: Gate + Sync>(
    rt: &R,
    alloc: Global,
    command: TextCommand,
    source: &mut S,
    sink: &mut K,
    gate: &G,
) -> u8
    requires in_range { IsInRange (OnText command) }
    ensures served { (text : List ℕ) → S.left source.old ≡ Some text → Served command text result (K.written sink.old) (K.written sink.new) }
    ensures uses { Uses (Some (OnText command)) result (S.left source.old) (S.left source.new) (S.faults source.old) (S.faults source.new) (K.faults sink.old) (K.faults sink.new) }
{
    match read_all(alloc, source, MOST_BYTES) {
        Ok(text) => exit_status(serve_text(rt, alloc, command, &text, sink, gate)),
        Err(error) => tell_unread(error, sink),
    }
}

/// Tells that a source wasn't read to its end, if it is too long, and answers the exit status.
pub fn tell_unread<K: Sink>(error: ReadError, sink: &mut K) -> u8
    ensures untold { Untold result (K.written sink.old) (K.written sink.new) error }
    ensures read_fault { result ≡ READ_FAULT → error ≡ Fault }
    ensures write_fault { SinkCause result (K.faults sink.old) (K.faults sink.new) }
    ensures no_usage { result ≡ USAGE → ⊥ }
{
    match error {
        ReadError::Limit => exit_status(refuse(Refusal::OVERLONG, sink)),
        ReadError::Fault => READ_FAULT,
        ReadError::Memory => NO_MEMORY,
    }
}

/// Serves a command on a text.
fn serve_text<R: Threads + Wait + Sync, K: Sink, G: Gate + Sync>(
    rt: &R,
    alloc: Global,
    command: TextCommand,
    text: &[u8],
    sink: &mut K,
    gate: &G,
) -> Result<Status, Unwritten>
    requires short { length text.now ≤ MOST_BYTES }
    requires in_range { IsInRange (OnText command) }
    ensures served { Served command text.now (ended result) (K.written sink.old) (K.written sink.new) }
    ensures write_fault { SinkCause (ended result) (K.faults sink.old) (K.faults sink.new) }
{
    match read_program(alloc, text) {
        Ok(reading) => serve_program(rt, alloc, command, &reading, sink, gate),
        Err(NoProgram::Refused(refusal)) => refuse(refusal, sink),
        Err(NoProgram::Memory) => Err(Unwritten::Memory),
    }
}

/// Serves a command on the program that was read.
fn serve_program<R: Threads + Wait + Sync, K: Sink, G: Gate + Sync>(
    rt: &R,
    alloc: Global,
    command: TextCommand,
    reading: &Reading,
    sink: &mut K,
    gate: &G,
) -> Result<Status, Unwritten>
    requires checked { Checked (program_view reading.now.program) }
    requires in_range { IsInRange (OnText command) }
    ensures ends { EndsWith (ProgramReplies (tree_view reading.now.tree) (program_view reading.now.program) command) (ended result) (K.written sink.old) (K.written sink.new) }
    ensures told { (told : PlanCommand) → command ≡ Tell told → ended result ≡ DONE → ProgramTold (tree_view reading.now.tree) (program_view reading.now.program) told (K.written sink.old) (K.written sink.new) }
    ensures write_fault { SinkCause (ended result) (K.faults sink.old) (K.faults sink.new) }
{
    match command {
        TextCommand::Run { workers, budget } => {
            run_program(rt, alloc, &reading.program, workers, budget, sink, gate)
        }
        TextCommand::Tell(told) => tell_plan(alloc, told, reading, sink),
    }
}

/// Tells a refusal.
pub fn refuse<K: Sink>(refusal: Refusal, sink: &mut K) -> Result<Status, Unwritten>
    ensures ends { Ends (refusal_reply refusal.at refusal.code.0) (ended result) (K.written sink.old) (K.written sink.new) }
    ensures write_fault { SinkCause (ended result) (K.faults sink.old) (K.faults sink.new) }
{
    finish(refusal.write(sink), refusal.status())
}

/// The status of words that name no command, where the usage line was written, and that of a failed write where one failed.
fn told_usage(written: Result<(), Failed>) -> u8
    ensures { result ≡ status_after written USAGE }
{
    match written {
        Ok(()) => USAGE,
        Err(_) => WRITE_FAULT,
    }
}
