//! Whole runs that are recorded.

ghost use Rattle.std.specs.Prelude.{All, IfOk};
ghost use Rattle.ca_program.specs.View.{program_view};
ghost use Rattle.ca_meaning.specs.ProgramTyped.{ProgramTyped};
ghost use Rattle.ca_parallel.specs.Marks.{SoundMarks};
ghost use Rattle.ca_trace.specs.Lines.{Follows};
ghost use Rattle.ca_trace.specs.Texts.{IsLineOf};

use crate::recorder::Recorder;
use crate::tracer::Tracer;
use ca_base::{Memory, SureSink};
use ca_parallel::Marks;
use ca_program::Program;
use ca_run::line_of;
use ca_serial::drive;
use ca_trace::Line;
use std::alloc::Global;
use std::sync::Wait;
use std::thread::Threads;

/// Runs a program by an engine, and tells the lines of its schedule. What it prints goes nowhere.
pub fn record<R: Threads + Wait + Sync, E: Tracer + Drop>(
    rt: &R,
    alloc: Global,
    program: &Program,
    marks: &Marks,
    budget: u64,
    engine: E,
) -> Result<Vec<Line>, Memory>
    requires ready { E.ready }
    requires program { ProgramTyped (program_view program.now) }
    requires sound { SoundMarks (program_view program.now) marks.now }
    ensures follows { IfOk result (λ lines. Follows (program_view program.now) marks.now budget lines.items) }
    // Each is a line of the program, so they can be written.
    ensures of_program { IfOk result (λ lines. All (IsLineOf (program_view program.now)) lines.items) }
{
    let mut recorder = Recorder::new(alloc, engine);
    let mut sink = SureSink::new();
    let Ok(outcome) = drive(rt, alloc, program, marks, budget, &mut recorder, &mut sink) else {
        return Err(Memory);
    };
    let mut lines = recorder.lines();
    lines.push(line_of(outcome, budget))?;
    lines.push(Line::Close)?;
    Ok(lines)
}
