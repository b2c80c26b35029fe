//! The engine tells the lines of what it runs: `Traces` of `ca_run`.
//!
//! Lines are added while rounds run, before the heap changes: where memory for one is wanting, the heap is as it was.

ghost use Rattle.std.specs.Prelude.{◌≡◌, ◌++◌, ◌∷◌, [], map, take, MatchOption, IfOk, OnErr};
ghost use Rattle.ca_program.specs.View.{program_view};
ghost use Rattle.ca_model.specs.Typed.{TypedHeap};
ghost use Rattle.ca_meaning.specs.ProgramTyped.{ProgramTyped};
ghost use Rattle.ca_meaning.specs.WellTyped.{AllWellTyped};
ghost use Rattle.ca_parallel.specs.Calls.{invocations_of, operation_of};
ghost use Rattle.ca_parallel.specs.Parallel.{ParallelFrom};
ghost use Rattle.ca_beside.specs.Beside.{present};
ghost use Rattle.ca_trace.specs.declared.line.Line.TheVariants.{Block, Declined};
ghost use Rattle.ca_run.specs.Traced.{LinesBehind, Told, Traces};
ghost use Rattle.ca_workers.specs.clauses.Runs.{NoneWithin};

use crate::parallel::Parallel;
use crate::rounds::Rounds;
use crate::tasks::first_tasks;
use ca_base::{Gate, Memory};
use ca_model::Heap;
use ca_parallel::Op;
use ca_schedule::{Expected, extent_of_calls};
use ca_sections::Coded;
use ca_serial::ExtentAnswer;
use ca_trace::Line;
use std::alloc::AllocError;
use std::sync::Wait;
use std::thread::Threads;

/// Cuts lines to so many, and adds that the list is declined. It cuts them also without memory for that.
fn decline(lines: &mut Vec<Line>, count: usize) -> Result<(), AllocError>
    ensures declined { IfOk result (λ _. lines.new.items ≡ take count lines.old.items ++ Declined ∷ []) }
    ensures cut { OnErr result (lines.new.items ≡ take count lines.old.items) }
{
    lines.truncate(count);
    lines.push(Line::Declined)?;
    Ok(())
}

impl<'g, G: Gate + Sync> Parallel<'g, G> {
    /// Runs the operations in rounds beside the heap, and adds the lines of a block.
    fn run_block<R: Threads + Wait + Sync>(
        &mut self,
        rt: &R,
        program: &Coded<'_>,
        heap: &Heap,
        first: &[Op],
        left: u64,
        lines: &mut Vec<Line>,
    ) -> Result<Option<u64>, Memory>
        requires program { ProgramTyped (program_view program.now) }
        requires heap { TypedHeap (program_view program.now) heap.now }
        requires typed { AllWellTyped (program_view program.now) heap.now (invocations_of first.now) }
        requires parallel { ParallelFrom (program_view program.now) (map operation_of first.now) }
        ensures told { IfOk result (λ ran. MatchOption ran (NoneWithin (program_view program.now) heap.now heap.now (invocations_of first.now) left) (Told (program_view program.now) heap.now heap.now (invocations_of first.now) left (lines.old.items ++ Block ∷ []) (present heap.now self.new.beside) lines.new.items)) }
        ensures behind { LinesBehind lines.old.items lines.new.items }
    {
        lines.push(Line::Block)?;
        let extent = extent_of_calls(self.alloc, program, first)?;
        let tasks = first_tasks(self.alloc, first)?;
        self.beside.forget();
        let rounds = Rounds::new(
            rt,
            self.alloc,
            self.gate,
            self.workers,
            program,
            &extent,
            Expected::nothing(),
        );
        let ended = rounds.tell_rounds(heap, &mut self.beside, tasks, left, lines)?;
        match ended {
            Some(steps) => {
                lines.push(Line::End)?;
                Ok(Some(steps))
            }
            None => Ok(None),
        }
    }

    /// As `complete`, and adds the lines of the list: a block of a complete run where the answer is `Done`, and that the list
    /// is declined else. After an error the heap and the lines are as they were. A round begins at once.
    pub fn trace<R: Threads + Wait + Sync>(
        &mut self,
        rt: &R,
        program: &Coded<'_>,
        heap: &mut Heap,
        first: &[Op],
        left: u64,
        lines: &mut Vec<Line>,
    ) -> Result<ExtentAnswer, Memory>
        requires program { ProgramTyped (program_view program.now) }
        requires heap { TypedHeap (program_view program.now) heap.old }
        requires typed { AllWellTyped (program_view program.now) heap.old (invocations_of first.now) }
        requires parallel { ParallelFrom (program_view program.now) (map operation_of first.now) }
        ensures traced { IfOk result (λ answer. Traces (program_view program.now) heap.old (invocations_of first.now) left heap.new lines.old.items lines.new.items answer) }
        ensures heap_kept { OnErr result (heap.new ≡ heap.old) }
        ensures lines_kept { OnErr result (lines.new.items ≡ lines.old.items) }
    {
        // Asked for its clause, that there are few objects.
        let _count = heap.len();
        let start = lines.len();
        match self.run_block(rt, program, heap, first, left, lines) {
            Ok(Some(steps)) => {
                self.beside.store(heap);
                Ok(ExtentAnswer::Done { steps })
            }
            Ok(None) => {
                decline(lines, start)?;
                Ok(ExtentAnswer::Declined)
            }
            Err(wanting) => {
                lines.truncate(start);
                Err(wanting)
            }
        }
    }
}
