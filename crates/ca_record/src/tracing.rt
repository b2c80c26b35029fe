//! The adaptor for engines that start threads.

ghost use Rattle.std.specs.Prelude.{◌≡◌, ◌≤◌, ◌^◌, map, ℕ, IfOk, OnErr};
ghost use Rattle.ca_program.specs.View.{program_view};
ghost use Rattle.ca_model.specs.Typed.{TypedHeap};
ghost use Rattle.ca_meaning.specs.ProgramTyped.{ProgramTyped};
ghost use Rattle.ca_meaning.specs.WellTyped.{AllWellTyped};
ghost use Rattle.ca_parallel.specs.Calls.{invocations_of, operation_of};
ghost use Rattle.ca_parallel.specs.Parallel.{ParallelFrom};
ghost use Rattle.ca_run.specs.Traced.{Traces};
ghost use Rattle.ca_record.specs.Handed.{MayBeHanded, ServesTraced};

use crate::tracer::Tracer;
use ca_base::Memory;
use ca_model::Heap;
use ca_parallel::Op;
use ca_sections::Coded;
use ca_serial::ExtentAnswer;
use ca_trace::Line;
use std::sync::Wait;
use std::thread::Threads;

/// A tracer that hands what it is handed to a closure.
#[derive(Drop)]
pub struct Tracing<
    F: FnMut(&Coded<'_>, &mut Heap, &[Op], u64, &mut Vec<Line>) -> Result<ExtentAnswer, Memory>,
> {
    pub call: F,
}

impl<
    F: FnMut(&Coded<'_>, &mut Heap, &[Op], u64, &mut Vec<Line>) -> Result<ExtentAnswer, Memory>,
> Tracer for Tracing<F> {
    // Each closure of the type may be called with what an engine is handed, and does what an engine is asked for.
    ghost ready = { (call : F) (program : _) (heap : _) (operations : _) (budget : ℕ) (lines : _) → MayBeHanded (program_view program.now) heap.now operations.now budget → F.pre call program heap operations budget lines × ((answer : _) (after : _) (behind : _) (next : F) → F.step call program heap operations budget lines answer after behind next → ServesTraced (program_view program.now) heap.now (invocations_of operations.now) budget after.now lines.now.items behind.now.items answer) };

    fn trace<R: Threads + Wait + Sync>(
        &mut self,
        _rt: &R,
        program: &Coded<'_>,
        heap: &mut Heap,
        operations: &[Op],
        budget: u64,
        lines: &mut Vec<Line>,
    ) -> Result<ExtentAnswer, Memory> {
        (self.call)(program, heap, operations, budget, lines)
    }
}
