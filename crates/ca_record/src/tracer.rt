//! Engines that tell a run of what they are handed, line by line.

ghost use Rattle.std.specs.Prelude.{map, IfOk, OnErr, ◌≡◌};
ghost use Rattle.ca_program.specs.View.{program_view};
ghost use Rattle.ca_model.specs.Typed.{TypedHeap};
ghost use Rattle.ca_meaning.specs.ProgramTyped.{ProgramTyped};
ghost use Rattle.ca_meaning.specs.WellTyped.{AllWellTyped};
ghost use Rattle.ca_parallel.specs.Calls.{invocations_of, operation_of};
ghost use Rattle.ca_parallel.specs.Parallel.{ParallelFrom};
ghost use Rattle.ca_run.specs.Traced.{Traces};

use ca_base::Memory;
use ca_model::Heap;
use ca_parallel::Op;
use ca_sections::Coded;
use ca_serial::ExtentAnswer;
use ca_trace::Line;
use std::sync::Wait;
use std::thread::Threads;

/// An engine that also tells the lines of what it ran.
pub trait Tracer {
    /// What every engine of the kind rests on, as what a closure that it calls promises.
    ghost ready: { Type 0 };

    /// Runs the operations within a budget of steps, and adds the lines of their list: a block of a complete run where the
    /// answer is `Done`, and that the list is declined else. After an error the heap and the lines are as they were.
    fn trace<R: Threads + Wait + Sync>(
        &mut self,
        rt: &R,
        program: &Coded<'_>,
        heap: &mut Heap,
        operations: &[Op],
        budget: u64,
        lines: &mut Vec<Line>,
    ) -> Result<ExtentAnswer, Memory>
        requires ready { ready }
        requires program { ProgramTyped (program_view program.now) }
        requires heap { TypedHeap (program_view program.now) heap.old }
        requires typed { AllWellTyped (program_view program.now) heap.old (invocations_of operations.now) }
        requires parallel { ParallelFrom (program_view program.now) (map operation_of operations.now) }
        ensures traced { IfOk result (λ answer. Traces (program_view program.now) heap.old (invocations_of operations.now) budget heap.new lines.old.items lines.new.items answer) }
        ensures heap_kept { OnErr result (heap.new ≡ heap.old) }
        ensures lines_kept { OnErr result (lines.new.items ≡ lines.old.items) };
}
