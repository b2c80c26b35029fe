//! Lists of one call that only calls others in a loop: these come in its place.

ghost use Rattle.std.specs.Prelude.{◌≡◌, ◌∷◌, [], map, IfOk, IfSome, OnErr};
ghost use Rattle.ca_program.specs.View.{program_view};
ghost use Rattle.ca_model.specs.Typed.{TypedHeap};
ghost use Rattle.ca_meaning.specs.ProgramTyped.{ProgramTyped};
ghost use Rattle.ca_meaning.specs.WellTyped.{AllWellTyped};
ghost use Rattle.ca_parallel.specs.Calls.{invocation_of, invocations_of, operation_of};
ghost use Rattle.ca_parallel.specs.Parallel.{ParallelFrom};
ghost use Rattle.ca_run.specs.Turns.{RanTo};
ghost use Rattle.ca_workers.specs.clauses.Ahead.{with_steps};
ghost use Rattle.ca_workers.specs.clauses.Runs.{IsSetting, MayWait, Placed};

use crate::parallel::{Parallel, desk_of};
use ca_base::{Gate, Memory};
use ca_extent::Extent;
use ca_model::Heap;
use ca_parallel::Op;
use ca_program::Program;
use ca_schedule::{Known, calls_in_loop, extent_of_calls, takes_lock};
use ca_section::locks;
use ca_sections::{Coded, Desk, SectionAnswer, section_frozen};
use std::alloc::Global;
use std::sync::Wait;
use std::thread::Threads;

/// The steps of all calls, where so many were left for some of them, which took these.
fn with_steps(left: u64, rest: u64, ended: Option<u64>) -> Option<u64>
    ensures { result ≡ with_steps left rest ended }
{
    match ended {
        Some(more) => {
            let still = rest.saturating_sub(more);
            let steps = left.saturating_sub(still);
            Some(steps)
        }
        None => None,
    }
}

/// Whether a list is one call that calls others in a loop, and takes no lock.
fn opens(alloc: Global, program: &Program, known: &mut Vec<Known>, first: &[Op]) -> bool {
    if first.len() != 1 {
        return false;
    }
    calls_in_loop(known, &first[0]) && !takes_lock(alloc, program, known, first[0].op)
}

/// Lists what a call calls, where it takes no lock, within a budget of steps, and tells the steps that this takes. Nothing changes by it.
fn open(
    desk: &mut Desk,
    alloc: Global,
    program: &Coded<'_>,
    extent: &Extent,
    heap: &Heap,
    op: &Op,
    left: u64,
    listed: &mut Vec<Op>,
) -> Result<Option<u64>, Memory>
    requires setting { IsSetting (program_view program.now) extent.now heap.now }
    requires waiting { MayWait (program_view program.now) extent.now heap.now heap.now (invocation_of op.now ∷ []) }
    requires none { listed.old.items ≡ [] }
    ensures { IfOk result (λ opened. IfSome opened (λ steps. RanTo (program_view program.now) heap.now heap.now (invocation_of op.now ∷ []) left heap.now (invocations_of listed.new.items) steps)) }
{
    let held = locks(program.program(), extent, op.op);
    if held {
        return Ok(None);
    }
    let answer = section_frozen(desk, alloc, program, heap, op, left, listed)?;
    match answer {
        SectionAnswer::Done { steps } => Ok(Some(steps)),
        SectionAnswer::Trapped(_) => Ok(None),
        SectionAnswer::Spent => Ok(None),
    }
}

impl<'g, G: Gate + Sync> Parallel<'g, G> {
    /// What the only one of some calls lists, as `open` tells it, where it calls others in a loop.
    fn open_first(
        &mut self,
        program: &Coded<'_>,
        heap: &Heap,
        first: &[Op],
        left: u64,
        listed: &mut Vec<Op>,
    ) -> Result<Option<u64>, Memory>
        requires program { ProgramTyped (program_view program.now) }
        requires heap { TypedHeap (program_view program.now) heap.now }
        requires typed { AllWellTyped (program_view program.now) heap.now (invocations_of first.now) }
        requires parallel { ParallelFrom (program_view program.now) (map operation_of first.now) }
        requires none { listed.old.items ≡ [] }
        ensures { IfOk result (λ opened. IfSome opened (λ steps. RanTo (program_view program.now) heap.now heap.now (invocations_of first.now) left heap.now (invocations_of listed.new.items) steps)) }
    {
        let many = first.len() != 1;
        if many {
            return Ok(None);
        }
        if !opens(self.alloc, program.program(), self.schedule.known(), first) {
            return Ok(None);
        }
        let extent = extent_of_calls(self.alloc, program, first)?;
        let mut desk = desk_of(self.alloc, &mut self.desk)?;
        let op = &first[0];
        let opened = open(
            &mut desk, self.alloc, program, &extent, heap, op, left, listed,
        )?;
        self.desk = Some(desk);
        Ok(opened)
    }

    /// Runs a list; where it is one call that only calls others in a loop, and takes no lock, these in its place.
    pub(crate) fn run_list<R: Threads + Wait + Sync>(
        &mut self,
        rt: &R,
        program: &Coded<'_>,
        heap: &mut Heap,
        first: &[Op],
        left: u64,
    ) -> Result<Option<u64>, Memory>
        requires program { ProgramTyped (program_view program.now) }
        requires heap { TypedHeap (program_view program.now) heap.old }
        requires typed { AllWellTyped (program_view program.now) heap.old (invocations_of first.now) }
        requires parallel { ParallelFrom (program_view program.now) (map operation_of first.now) }
        ensures placed { IfOk result (Placed (program_view program.now) heap.old heap.old (invocations_of first.now) left heap.new) }
        ensures kept { OnErr result (heap.new ≡ heap.old) }
    {
        let mut listed = Vec::new(self.alloc);
        let opened = self.open_first(program, heap, first, left, &mut listed)?;
        let steps = match opened {
            Some(steps) => steps,
            None => return self.run_lent(rt, program, heap, first, left),
        };
        let rest = left.saturating_sub(steps);
        let ended = self.run_owned(rt, program, heap, first, listed, rest)?;
        Ok(with_steps(left, rest, ended))
    }
}
