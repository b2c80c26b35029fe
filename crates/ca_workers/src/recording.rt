//! Whole programs, whose schedule many workers tell.

ghost use Rattle.std.specs.Prelude.{All, ◌≡◌, ◌≤◌, map, IfOk, OnErr};
ghost use Rattle.ca_program.specs.View.{program_view};
ghost use Rattle.ca_model.specs.Typed.{TypedHeap};
ghost use Rattle.ca_meaning.specs.ProgramTyped.{ProgramTyped};
ghost use Rattle.ca_meaning.specs.WellTyped.{AllWellTyped};
ghost use Rattle.ca_parallel.specs.Calls.{invocations_of, operation_of};
ghost use Rattle.ca_parallel.specs.Marks.{SoundMarks};
ghost use Rattle.ca_parallel.specs.Parallel.{ParallelFrom};
ghost use Rattle.ca_trace.specs.Lines.{Follows};
ghost use Rattle.ca_trace.specs.Texts.{IsLineOf};
ghost use Rattle.ca_run.specs.Traced.{Traces};

use crate::parallel::Parallel;
use ca_base::{Gate, Memory};
use ca_model::Heap;
use ca_parallel::{Marks, Op};
use ca_program::Program;
use ca_record::{Tracing, record};
use ca_sections::Coded;
use ca_trace::Line;
use std::alloc::Global;
use std::sync::Wait;
use std::thread::Threads;

/// Runs a program by 2 to 64 workers, and tells the lines of its schedule. What it prints goes nowhere.
///
/// The program is typed and the marks are sound. Each list begins with a round, in cells, however small the heap is. The gate is
/// passed by the worker that runs a section, as `Parallel` says.
pub fn record_by_many<R: Threads + Wait + Sync, G: Gate + Sync>(
    rt: &R,
    alloc: Global,
    program: &Program,
    marks: &Marks,
    budget: u64,
    workers: u32,
    gate: &G,
) -> Result<Vec<Line>, Memory>
    requires program { ProgramTyped (program_view program.now) }
    requires sound { SoundMarks (program_view program.now) marks.now }
    requires workers { (2 ≤ workers) × (workers ≤ 64) }
    // Whatever the order in which sections ran.
    ensures follows { IfOk result (λ lines. Follows (program_view program.now) marks.now budget lines.items) }
    // Each is a line of the program, so they can be written.
    ensures of_program { IfOk result (λ lines. All (IsLineOf (program_view program.now)) lines.items) }
{
    let mut parallel = Parallel::new(alloc, workers, gate);
    let lent = &mut parallel;
    let engine = Tracing {
        call: move |code: &Coded<'_>, heap: &mut Heap, calls: &[Op], left: u64, lines: &mut Vec<
            Line,
        >|
            requires program { ProgramTyped (program_view code.now) }
            requires heap { TypedHeap (program_view code.now) heap.now }
            requires typed { AllWellTyped (program_view code.now) heap.now (invocations_of calls.now) }
            requires parallel { ParallelFrom (program_view code.now) (map operation_of calls.now) }
            ensures traced { IfOk result (λ answer. Traces (program_view code.entry.now) heap.entry.now (invocations_of calls.entry.now) left heap.exit.now lines.entry.now.items lines.exit.now.items answer) }
            ensures heap_kept { OnErr result (heap.exit.now ≡ heap.entry.now) }
            ensures lines_kept { OnErr result (lines.exit.now.items ≡ lines.entry.now.items) }
        { lent.trace(rt, code, heap, calls, left, lines) },
    };
    record(rt, alloc, program, marks, budget, engine)
}
