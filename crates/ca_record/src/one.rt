//! The tracer of one worker, and whole runs by it.

ghost use Rattle.std.specs.Prelude.{All, ◌≡◌, map, IfOk, OnErr};
ghost use Rattle.ca_program.specs.View.{program_view};
ghost use Rattle.ca_meaning.specs.ProgramTyped.{ProgramTyped};
ghost use Rattle.ca_parallel.specs.Marks.{SoundMarks};
ghost use Rattle.ca_trace.specs.Lines.{Follows};
ghost use Rattle.ca_trace.specs.Texts.{IsLineOf};

use crate::recording::record;
use crate::tracer::Tracer;
use ca_base::{Gate, Memory};
use ca_model::Heap;
use ca_parallel::{Marks, Op};
use ca_program::Program;
use ca_run::OneTracer;
use ca_sections::Coded;
use ca_serial::ExtentAnswer;
use ca_trace::Line;
use std::alloc::Global;
use std::sync::Wait;
use std::thread::Threads;

impl<'g, G: Gate> Tracer for OneTracer<'g, G> {
    ghost ready = { Unit {0} };

    fn trace<R: Threads + Wait + Sync>(
        &mut self,
        _rt: &R,
        program: &Coded<'_>,
        heap: &mut Heap,
        operations: &[Op],
        budget: u64,
        lines: &mut Vec<Line>,
    ) -> Result<ExtentAnswer, Memory> {
        OneTracer::trace(self, program, heap, operations, budget, lines)
    }
}

/// Runs a program by one worker, and tells the lines of its schedule.
pub fn record_by_one<R: Threads + Wait + Sync, G: Gate>(
    rt: &R,
    alloc: Global,
    program: &Program,
    marks: &Marks,
    budget: u64,
    gate: &G,
) -> Result<Vec<Line>, Memory>
    requires program { ProgramTyped (program_view program.now) }
    requires sound { SoundMarks (program_view program.now) marks.now }
    ensures follows { IfOk result (λ lines. Follows (program_view program.now) marks.now budget lines.items) }
    ensures of_program { IfOk result (λ lines. All (IsLineOf (program_view program.now)) lines.items) }
{
    record(
        rt,
        alloc,
        program,
        marks,
        budget,
        OneTracer::new(alloc, gate),
    )
}
