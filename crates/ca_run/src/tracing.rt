//! One worker that tells the lines of what it runs, by sections beside the heap: `Traces` of `specs/Traced.antt`.
//!
//! Lines are added while operations run, before the heap changes: where memory for one is wanting, the heap is as it was.

ghost use Rattle.std.specs.Prelude.{◌≡◌, ◌∷◌, ◌++◌, map, [], IfOk, OnErr, MatchOption};
ghost use Rattle.ca_program.specs.Plain.{PlainProgram};
ghost use Rattle.ca_program.specs.View.{program_view};
ghost use Rattle.ca_model.specs.Typed.{TypedHeap};
ghost use Rattle.ca_meaning.specs.ProgramTyped.{ProgramTyped};
ghost use Rattle.ca_meaning.specs.WellTyped.{AllWellTyped};
ghost use Rattle.ca_parallel.specs.Calls.{invocations_of, operation_of};
ghost use Rattle.ca_parallel.specs.Parallel.{ParallelFrom};
ghost use Rattle.ca_beside.specs.Beside.{present};
ghost use Rattle.ca_run.specs.Turns.{StuckBehind};
ghost use Rattle.ca_run.specs.Traced.{Told, Traces, LinesBehind};
ghost use Rattle.ca_serial.specs.Runs.{run_with, prints_of};
ghost use Rattle.ca_trace.specs.Lines.{outcome_line};
ghost use Rattle.ca_trace.specs.Texts.{IsLineOf};
ghost use Rattle.ca_trace.specs.declared.line.Line.TheVariants.{Block};

use crate::one_worker::copies;
use crate::turns::run_given;
use ca_base::{Gate, Memory};
use ca_beside::Beside;
use ca_model::Heap;
use ca_parallel::Op;
use ca_sections::{Coded, Desk};
use ca_serial::{ExtentAnswer, Outcome};
use ca_trace::Line;
use std::alloc::Global;

/// The line that tells an outcome.
pub fn line_of(outcome: Outcome, budget: u64) -> Line
    ensures line { (e : _) → e ≡ run_with (prints_of e) outcome → result ≡ outcome_line budget e }
    ensures of_program { (p : PlainProgram) → IsLineOf p result }
{
    match outcome {
        Outcome::Done { steps, .. } => Line::Done(steps),
        Outcome::Trapped(trap) => Line::Trapped(trap),
        Outcome::Spent => Line::Spent(budget),
    }
}

/// Runs waiting operations and all that they list, and adds a line for each, and that the block ends.
fn run_lines<G: Gate>(
    gate: &G,
    desk: &mut Desk,
    alloc: Global,
    program: &Coded<'_>,
    heap: &Heap,
    beside: &mut Beside,
    waiting: &mut Vec<Op>,
    left: u64,
    lines: &mut Vec<Line>,
) -> Result<Option<u64>, Memory>
    ensures told { IfOk result (λ ran. MatchOption ran (StuckBehind (program_view program.now) heap.now (present heap.now beside.old) (invocations_of waiting.old.items) left) (Told (program_view program.now) heap.now (present heap.now beside.old) (invocations_of waiting.old.items) left lines.old.items (present heap.now beside.new) lines.new.items)) }
    ensures behind { LinesBehind lines.old.items lines.new.items }
{
    let mut still = left;
    'turns: while let Some(op) = waiting.pop() {
        match run_given(
            gate, desk, alloc, program, heap, beside, &op, waiting, still,
        )? {
            Some(steps) => {
                still -= steps;
                lines.push(Line::Step(op))?;
            }
            None => return Ok(None),
        }
    }
    lines.push(Line::End)?;
    Ok(Some(left - still))
}

/// One worker that tells lines, without threads. It passes its gate as worker 0, before each section.
#[derive(Drop)]
pub struct OneTracer<'g, G: Gate> {
    alloc: Global,
    gate: &'g G,
    beside: Beside,
}

impl<'g, G: Gate> OneTracer<'g, G> {
    /// One that passes this gate. It takes no memory before its first run.
    pub fn new(alloc: Global, gate: &'g G) -> OneTracer<'g, G> {
        OneTracer {
            alloc,
            gate,
            beside: Beside::new(alloc),
        }
    }

    /// Runs the operations beside the heap, and adds the lines of a block.
    fn run_block(
        &mut self,
        program: &Coded<'_>,
        heap: &Heap,
        first: &[Op],
        left: u64,
        lines: &mut Vec<Line>,
    ) -> Result<Option<u64>, Memory>
        ensures told { IfOk result (λ ran. MatchOption ran (StuckBehind (program_view program.now) heap.now heap.now (invocations_of first.now) left) (Told (program_view program.now) heap.now heap.now (invocations_of first.now) left (lines.old.items ++ Block ∷ []) (present heap.now self.new.beside) lines.new.items)) }
        ensures behind { LinesBehind lines.old.items lines.new.items }
    {
        lines.push(Line::Block)?;
        self.beside.forget();
        let mut waiting = copies(self.alloc, first)?;
        let mut desk = Desk::new(self.alloc)?;
        run_lines(
            self.gate,
            &mut desk,
            self.alloc,
            program,
            heap,
            &mut self.beside,
            &mut waiting,
            left,
            lines,
        )
    }

    /// Runs the operations as `OneWorker::complete` does, and adds the lines of the list: a block of a complete run where the answer is
    /// `Done`, and that the list is declined else. After an error the heap and the lines are as they were.
    pub fn trace(
        &mut self,
        program: &Coded<'_>,
        heap: &mut Heap,
        first: &[Op],
        left: u64,
        lines: &mut Vec<Line>,
    ) -> Result<ExtentAnswer, Memory>
        requires program { ProgramTyped (program_view program.now) }
        requires heap { TypedHeap (program_view program.now) heap.old }
        requires typed { AllWellTyped (program_view program.now) heap.old (invocations_of first.now) }
        requires parallel { ParallelFrom (program_view program.now) (map operation_of first.now) }
        ensures traced { IfOk result (λ answer. Traces (program_view program.now) heap.old (invocations_of first.now) left heap.new lines.old.items lines.new.items answer) }
        ensures heap_kept { OnErr result (heap.new ≡ heap.old) }
        ensures lines_kept { OnErr result (lines.new.items ≡ lines.old.items) }
    {
        // Asked for its clause, that there are few objects.
        let _count = heap.len();
        let start = lines.len();
        match self.run_block(program, heap, first, left, lines) {
            Ok(Some(steps)) => {
                self.beside.store(heap);
                Ok(ExtentAnswer::Done { steps })
            }
            Ok(None) => {
                lines.truncate(start);
                lines.push(Line::Declined)?;
                Ok(ExtentAnswer::Declined)
            }
            Err(wanting) => {
                lines.truncate(start);
                Err(wanting)
            }
        }
    }
}
