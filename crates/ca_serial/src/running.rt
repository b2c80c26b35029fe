//! From a program to its whole run, part of which may be handed off to an engine: `serial` of
//! `ca_meaning/specs/Serial.antt`.

ghost use Rattle.std.specs.Prelude.{◌≡◌, ◌≤◌, [], true, false, IfOk, Contains};
ghost use Rattle.ca_base.specs.Devices.{Rose, Writes};
ghost use Rattle.ca_program.specs.View.{program_view};
ghost use Rattle.ca_meaning.specs.ProgramTyped.{ProgramTyped};
ghost use Rattle.ca_meaning.specs.Serial.{Note, fresh, serial};
ghost use Rattle.ca_meaning.specs.Output.{prints_text};
ghost use Rattle.ca_parallel.specs.Accounts.{HandedOn};
ghost use Rattle.ca_parallel.specs.Lists.{no_marks, lists};
ghost use Rattle.ca_parallel.specs.Marks.{SoundMarks};
ghost use Rattle.ca_parallel.specs.Notes.{NoteGood};
ghost use Rattle.ca_code.specs.Codes.{code_seen};
ghost use Rattle.ca_sections.specs.Extending.{AllStand, Extended};
ghost use Rattle.ca_code_laws.specs.Runs.{beginning};
ghost use Rattle.ca_steps.specs.Stands.{state_of};
ghost use Rattle.ca_serial.specs.Runs.{run_with, prints_of, OnWrite};
ghost use Rattle.ca_serial.specs.clauses.Driving.{Drives, IsMade, MayDrive};

use crate::extents::Extents;
use crate::handing::hand_on;
use crate::heeding::lay_out_marked;
use crate::lending::go_on;
use crate::listing::{Lists, lets_go, list_on};
use crate::print::print_line;
use ca_base::{Memory, Sink};
use ca_code::{Code, lay_out_once};
use ca_model::{Heap, Trap};
use ca_parallel::Marks;
use ca_program::Program;
use ca_sections::{Coded, LoopPlace, with_loops};
use ca_steps::{Event, Frames, InRun, Laid};
use std::alloc::{AllocError, Global};
use std::mem;
use std::sync::Wait;
use std::thread::Threads;
use thiserror::Error;

/// How a run ends: with its heap and the steps that it took, by a trap, or with a step too many.
#[derive(Drop)]
pub enum Outcome {
    Done { heap: Heap, steps: u64 },
    Trapped(Trap),
    Spent,
}

/// Why a run gives up: a write failed, or memory runs out.
#[derive(Clone, Copy, Debug, Error)]
pub enum RunError {
    #[error("a write failed")]
    Write,
    #[error("out of memory")]
    Memory,
}

/// Runs `main` from the empty heap with a budget of steps. What it prints goes to the sink at once.
///
/// What the engine rests on holds, the program is typed, the marks are sound, and there are none where the engine
/// doesn't serve. Each call of a marked operation is handed to the engine, and so are the calls that a marked loop lists;
/// what the engine declines runs here, and so does what it would run in order anyway. Within what was handed off nothing is.
/// After an error a beginning of the prints was written.
pub fn drive<R: Threads + Wait + Sync, E: Extents, K: Sink>(
    rt: &R,
    alloc: Global,
    program: &Program,
    marks: &Marks,
    budget: u64,
    engine: &mut E,
    sink: &mut K,
) -> Result<Outcome, RunError>
    requires ready { E.ready }
    requires program { ProgramTyped (program_view program.now) }
    requires sound { SoundMarks (program_view program.now) marks.now }
    requires served { E.serves ≡ false → marks.now ≡ no_marks }
    // The outcome is that of the depth-first serial run.
    ensures outcome { IfOk result (λ outcome. serial (program_view program.now) budget ≡ run_with (prints_of (serial (program_view program.now) budget)) outcome) }
    // Its prints were written, or a beginning of them before an error.
    ensures prints { Writes (K.written sink.old) (K.written sink.new) result (prints_text (prints_of (serial (program_view program.now) budget))) }
    ensures write { OnWrite result (Rose (K.faults sink.old) (K.faults sink.new)) }
    ensures later { K.faults sink.old ≤ K.faults sink.new }
    // The engine was handed what the run with marks hands off, each once and in order, or a beginning of it.
    ensures account { HandedOn E.Accounts (program_view program.now) (E.account engine.old) (E.account engine.new) result (lists (program_view program.now) marks.now budget) }
{
    let Ok(made) = made_of(alloc, program, marks) else {
        return Err(RunError::Memory);
    };
    run_made(
        rt,
        alloc,
        program,
        marks,
        budget,
        &made.laid,
        made.places.as_slice(),
        engine,
        sink,
    )
}

/// A program that is laid out with marks, and where the code of each loop that is handed on stands once more.
#[derive(Drop)]
struct Made<'a> {
    laid: Laid<'a>,
    places: Vec<LoopPlace<'a>>,
}

/// The code with that of each loop that is handed on, which are none where no loop is marked.
fn loops_of<'a>(
    alloc: Global,
    program: &'a Program,
    marks: &Marks,
    code: Code<'a>,
) -> Result<(Code<'a>, Vec<LoopPlace<'a>>), AllocError>
    ensures { IfOk result (λ r. Extended code.entry r.0 × AllStand (program_view program.now) (code_seen r.0) r.1.items) }
{
    if no_loops(marks) {
        return Ok((code, Vec::new(alloc)));
    }
    with_loops(alloc, program, code)
}

/// Whether no call is handed on.
fn no_calls(marks: &Marks) -> bool
    ensures { result ≡ true → marks.now.ops ≡ [] }
{
    marks.ops.as_slice().is_empty()
}

/// Whether no loop is handed on.
fn no_loops(marks: &Marks) -> bool
    ensures { result ≡ true → marks.now.loops ≡ [] }
{
    marks.loops.as_slice().is_empty()
}

/// Whether nothing is handed on.
fn nothing_is_marked(marks: &Marks) -> bool
    ensures { result ≡ true → marks.now ≡ no_marks }
{
    no_calls(marks) & no_loops(marks)
}

/// Lays a program out in which nothing is marked, each body once.
fn made_once<'a>(alloc: Global, program: &'a Program, marks: &Marks) -> Result<Made<'a>, Memory>
    requires program { ProgramTyped (program_view program.now) }
    requires none { marks.now ≡ no_marks }
    ensures { IfOk result (λ m. IsMade marks.now (program_view program.now) m.laid m.places.items) }
{
    let code = lay_out_once(alloc, program)?;
    let laid = Laid::of(alloc, code)?;
    Ok(Made {
        laid,
        places: Vec::new(alloc),
    })
}

/// Lays a program out with marks.
fn made_of<'a>(alloc: Global, program: &'a Program, marks: &Marks) -> Result<Made<'a>, Memory>
    requires program { ProgramTyped (program_view program.now) }
    requires sound { SoundMarks (program_view program.now) marks.now }
    ensures { IfOk result (λ m. IsMade marks.now (program_view program.now) m.laid m.places.items) }
{
    if nothing_is_marked(marks) {
        return made_once(alloc, program, marks);
    }
    let code = lay_out_marked(alloc, program, marks)?;
    let (code, places) = loops_of(alloc, program, marks, code)?;
    let laid = Laid::of(alloc, code)?;
    Ok(Made { laid, places })
}

/// Runs `main` of a program that is laid out with marks.
fn run_made<'a, R: Threads + Wait + Sync, E: Extents, K: Sink>(
    rt: &R,
    alloc: Global,
    program: &'a Program,
    marks: &Marks,
    budget: u64,
    laid: &Laid<'a>,
    places: &[LoopPlace<'a>],
    engine: &mut E,
    sink: &mut K,
) -> Result<Outcome, RunError>
    requires may { MayDrive E.ready E.serves (program_view program.now) marks.now }
    requires made { IsMade marks.now (program_view program.now) laid.now places.now }
    ensures { Drives E.Accounts (program_view program.now) marks.now budget result (E.account engine.old) (E.account engine.new) (K.written sink.old) (K.written sink.new) (K.faults sink.old) (K.faults sink.new) }
{
    let Ok(coded) = Coded::of(alloc, program, laid) else {
        return Err(RunError::Memory);
    };
    run_coded(
        rt, alloc, program, marks, budget, &coded, laid, places, engine, sink,
    )
}

/// The same, where sections have its code too.
fn run_coded<'a, R: Threads + Wait + Sync, E: Extents, K: Sink>(
    rt: &R,
    alloc: Global,
    program: &'a Program,
    marks: &Marks,
    budget: u64,
    coded: &'a Coded<'_>,
    laid: &Laid<'a>,
    places: &[LoopPlace<'a>],
    engine: &mut E,
    sink: &mut K,
) -> Result<Outcome, RunError>
    requires may { MayDrive E.ready E.serves (program_view program.now) marks.now }
    requires made { IsMade marks.now (program_view program.now) laid.now places.now }
    requires coded { coded.now ≡ program.now }
    ensures { Drives E.Accounts (program_view program.now) marks.now budget result (E.account engine.old) (E.account engine.new) (K.written sink.old) (K.written sink.new) (K.faults sink.old) (K.faults sink.new) }
{
    let Ok(mut frames) = Frames::before(alloc, laid.code.room, laid.code.main, budget) else {
        return Err(RunError::Memory);
    };
    let Ok(mut lists) = Lists::new(alloc) else {
        return Err(RunError::Memory);
    };
    let mut run = InRun {
        program,
        heap: Heap::new(alloc),
    };
    run_all(
        rt,
        alloc,
        marks,
        budget,
        coded,
        laid,
        places,
        &mut run,
        &mut frames,
        &mut lists,
        engine,
        sink,
    )
}

/// Runs `main` to its end, and takes its heap.
fn run_all<'a, R: Threads + Wait + Sync, E: Extents, K: Sink>(
    rt: &R,
    alloc: Global,
    marks: &Marks,
    budget: u64,
    coded: &Coded<'_>,
    laid: &Laid<'a>,
    places: &[LoopPlace<'a>],
    run: &mut InRun<'a>,
    frames: &mut Frames,
    listing: &mut Lists,
    engine: &mut E,
    sink: &mut K,
) -> Result<Outcome, RunError>
    requires ready { E.ready }
    requires program { ProgramTyped (program_view run.old.program.now) }
    requires sound { SoundMarks (program_view run.old.program.now) marks.now }
    requires good { (n : Note) → Contains (lists (program_view run.old.program.now) marks.now budget) n → NoteGood (program_view run.old.program.now) n × (E.serves ≡ true) }
    requires made { IsMade marks.now (program_view run.old.program.now) laid.now places.now }
    requires coded { coded.now ≡ run.old.program.now }
    // The machine stands before `main`.
    requires begins { state_of frames.old (fresh run.old.heap) ≡ beginning laid.now.code.main budget }
    ensures { Drives E.Accounts (program_view run.old.program.now) marks.now budget result (E.account engine.old) (E.account engine.new) (K.written sink.old) (K.written sink.new) (K.faults sink.old) (K.faults sink.new) }
{
    for _ in rt.forever() {
        match go_on(rt, alloc, engine, run, laid, frames) {
            Event::Prints(value) => {
                if let Err(_) = print_line(value, sink) {
                    return Err(RunError::Write);
                }
            }
            Event::Hands(op, first, receiver) => {
                let code = &laid.code;
                let values = &mut listing.values;
                let Ok(goes) = hand_on(
                    rt, alloc, coded, code, run, frames, values, op, first, receiver, engine,
                ) else {
                    return Err(RunError::Memory);
                };
                if !goes {
                    return Ok(Outcome::Spent);
                }
            }
            Event::Begins(count, line, s, types) => {
                if lets_go(
                    alloc, coded, laid, places, &run.heap, frames, listing, s, engine,
                ) {
                    continue;
                }
                if let Err(_) = list_on(
                    rt, alloc, coded, laid, places, run, frames, listing, count, line, s, types,
                    engine,
                ) {
                    return Err(RunError::Memory);
                }
            }
            Event::Traps(trap) => return Ok(Outcome::Trapped(trap)),
            Event::Spends => return Ok(Outcome::Spent),
            Event::Ends => {
                return Ok(Outcome::Done {
                    steps: budget.saturating_sub(frames.left()),
                    heap: mem::replace(&mut run.heap, Heap::new(alloc)),
                });
            }
            Event::Fails => return Err(RunError::Memory),
            Event::Memory => return Err(RunError::Memory),
        }
    }
    unreachable!()
}
