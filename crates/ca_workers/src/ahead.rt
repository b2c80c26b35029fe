//! Calls that the calling thread runs in the heap itself, ahead of rounds.

ghost use Rattle.std.specs.Prelude.{◌≡◌, drop, map, IfOk, MatchOption, OnErr};
ghost use Rattle.ca_program.specs.View.{program_view};
ghost use Rattle.ca_model.specs.Typed.{TypedHeap};
ghost use Rattle.ca_meaning.specs.ProgramTyped.{ProgramTyped};
ghost use Rattle.ca_meaning.specs.WellTyped.{AllWellTyped};
ghost use Rattle.ca_parallel.specs.Calls.{invocations_of, operation_of};
ghost use Rattle.ca_undo.specs.Puts.{before};
ghost use Rattle.ca_workers.specs.clauses.Ahead.{EndsAhead, RanFront, WaitFrom};
ghost use Rattle.ca_workers.specs.clauses.Runs.{Placed};

use crate::parallel::Parallel;
use crate::tasks::{behind, split_behind};
use ca_base::{Gate, Memory};
use ca_model::Heap;
use ca_parallel::Op;
use ca_run::OneWorker;
use ca_schedule::{Known, Neighbours, Patience, calls_none, turn_of, weight_of};
use ca_sections::Coded;
use std::alloc::Global;
use std::sync::Wait;
use std::thread::Threads;

/// How many of some calls ran, and the steps that are left then.
#[derive(Clone, Copy)]
pub struct Front {
    pub count: usize,
    pub left: u64,
}

/// Whether the next call stays for rounds: what ran is enough, or it calls others, which would run with it.
fn stays(known: &Vec<Known>, patience: &mut Patience<'_>, op: &Op, waits: usize) -> bool {
    if !calls_none(known, op) {
        return true;
    }
    patience.is_over(weight_of(known, op), turn_of(known, op), 0, waits as u64)
}

/// Runs calls in the heap itself, in their order and within a budget of steps, until what ran is enough, or the next one calls others.
/// `None`: one isn't done. Whatever comes of it, it can be undone.
///
/// Neighbours of one receiver pass the gate once, as worker 0, and operations that take no lock don't.
fn run_front<G: Gate>(
    one: &mut OneWorker<'_, G>,
    alloc: Global,
    program: &Coded<'_>,
    heap: &mut Heap,
    calls: &[Op],
    left: u64,
    known: &mut Vec<Known>,
    patience: &mut Patience<'_>,
) -> Result<Option<Front>, Memory>
    requires program { ProgramTyped (program_view program.now) }
    requires heap { TypedHeap (program_view program.now) heap.old }
    requires typed { AllWellTyped (program_view program.now) heap.old (invocations_of calls.now) }
    ensures ran { IfOk result (λ front. RanFront (program_view program.now) heap.old calls.now left heap.new front) }
    ensures before { before one.new.kept heap.new ≡ heap.old }
{
    one.begin();
    let mut neighbours = Neighbours::none();
    let mut count: usize = 0;
    let mut still = left;
    'front: for op in calls {
        if stays(known, patience, op, calls.len().saturating_sub(count)) {
            break;
        }
        let weight = weight_of(known, op);
        let turn = turn_of(known, op);
        let passes = neighbours.pass_with(alloc, program.program(), known, op);
        let ran = one.run_more(program, heap, op, still, passes)?;
        match ran {
            Some(less) => {
                patience.went(still.saturating_sub(less), weight, turn);
                still = less;
                count += 1;
            }
            None => return Ok(None),
        }
    }
    Ok(Some(Front { count, left: still }))
}

impl<'g, G: Gate + Sync> Parallel<'g, G> {
    /// Runs the first ones of some calls in the heap itself, as long as they are to. Where one isn't done, the heap is as it was.
    fn begin_ahead(
        &mut self,
        program: &Coded<'_>,
        heap: &mut Heap,
        calls: &[Op],
        left: u64,
        patience: &mut Patience<'_>,
    ) -> Result<Option<Front>, Memory>
        requires program { ProgramTyped (program_view program.now) }
        requires heap { TypedHeap (program_view program.now) heap.old }
        requires typed { AllWellTyped (program_view program.now) heap.old (invocations_of calls.now) }
        ensures ran { IfOk result (λ front. RanFront (program_view program.now) heap.old calls.now left heap.new front) }
        ensures before { IfOk result (λ front. MatchOption front (heap.new ≡ heap.old) (λ _. before self.new.one.kept heap.new ≡ heap.old)) }
        ensures kept { OnErr result (heap.new ≡ heap.old) }
    {
        match run_front(
            &mut self.one,
            self.alloc,
            program,
            heap,
            calls,
            left,
            self.schedule.known(),
            patience,
        ) {
            Ok(Some(front)) => Ok(Some(front)),
            Ok(None) => {
                self.one.undo(heap);
                Ok(None)
            }
            Err(wanting) => {
                self.one.undo(heap);
                Err(wanting)
            }
        }
    }

    /// Goes on behind calls that ran in the heap, where the others ended so, for which so many steps were left: where they aren't done,
    /// all is undone.
    fn end_ahead(
        &mut self,
        heap: &mut Heap,
        left: u64,
        rest: u64,
        ended: Result<Option<u64>, Memory>,
    ) -> Result<Option<u64>, Memory>
        ensures { EndsAhead left rest ended result heap.old heap.new (before self.old.one.kept heap.old) }
    {
        let told = match ended {
            Ok(told) => told,
            Err(wanting) => {
                self.one.undo(heap);
                return Err(wanting);
            }
        };
        match told {
            Some(more) => {
                let still = rest.saturating_sub(more);
                let steps = left.saturating_sub(still);
                Ok(Some(steps))
            }
            None => {
                self.one.undo(heap);
                Ok(None)
            }
        }
    }

    /// Runs calls that are lent in the heap itself until what ran is enough, and the others from there as `run_alone_first` does.
    pub(crate) fn run_lent<R: Threads + Wait + Sync>(
        &mut self,
        rt: &R,
        program: &Coded<'_>,
        heap: &mut Heap,
        calls: &[Op],
        left: u64,
    ) -> Result<Option<u64>, Memory>
        requires waits { WaitFrom (program_view program.now) heap.old (map operation_of calls.now) (invocations_of calls.now) }
        ensures placed { IfOk result (Placed (program_view program.now) heap.old heap.old (invocations_of calls.now) left heap.new) }
        ensures kept { OnErr result (heap.new ≡ heap.old) }
    {
        let objects = heap.len();
        let values = heap.values();
        let count = calls.len();
        let mut patience = Patience::new(
            self.alloc,
            program,
            calls,
            count,
            self.workers,
            objects,
            values,
        );
        let begun = self.begin_ahead(program, heap, calls, left, &mut patience)?;
        let front = match begun {
            Some(front) => front,
            None => return Ok(None),
        };
        let rest = behind(calls, front.count);
        let none = Vec::new(self.alloc);
        let still = front.left;
        let ended = self.run_alone_first(
            rt,
            program,
            heap,
            calls,
            rest,
            none,
            still,
            &mut patience,
        );
        self.end_ahead(heap, left, still, ended)
    }

    /// The others of some calls, of the extent of roots, as `run_alone_first` runs them.
    fn run_rest<R: Threads + Wait + Sync>(
        &mut self,
        rt: &R,
        program: &Coded<'_>,
        heap: &mut Heap,
        roots: &[Op],
        mut calls: Vec<Op>,
        front: Front,
        patience: &mut Patience<'_>,
    ) -> Result<Option<u64>, Memory>
        requires waits { WaitFrom (program_view program.now) heap.old (map operation_of roots.now) (invocations_of (drop front.count calls.items)) }
        ensures placed { IfOk result (Placed (program_view program.now) heap.old heap.old (invocations_of (drop front.count calls.items)) front.left heap.new) }
        ensures kept { OnErr result (heap.new ≡ heap.old) }
        ensures one { self.new.one.kept ≡ self.old.one.kept }
    {
        let rest = split_behind(self.alloc, &mut calls, front.count)?;
        let left = front.left;
        self.run_alone_first(rt, program, heap, roots, &[], rest, left, patience)
    }

    /// Runs calls of the extent of roots in the heap itself until what ran is enough, and the others as `run_rest` does.
    pub(crate) fn run_owned<R: Threads + Wait + Sync>(
        &mut self,
        rt: &R,
        program: &Coded<'_>,
        heap: &mut Heap,
        roots: &[Op],
        calls: Vec<Op>,
        left: u64,
    ) -> Result<Option<u64>, Memory>
        requires waits { WaitFrom (program_view program.now) heap.old (map operation_of roots.now) (invocations_of calls.items) }
        ensures placed { IfOk result (Placed (program_view program.now) heap.old heap.old (invocations_of calls.items) left heap.new) }
        ensures kept { OnErr result (heap.new ≡ heap.old) }
    {
        let objects = heap.len();
        let values = heap.values();
        let count = calls.len();
        let mut patience = Patience::new(
            self.alloc,
            program,
            roots,
            count,
            self.workers,
            objects,
            values,
        );
        let begun = self.begin_ahead(program, heap, calls.as_slice(), left, &mut patience)?;
        let front = match begun {
            Some(front) => front,
            None => return Ok(None),
        };
        let ended = self.run_rest(rt, program, heap, roots, calls, front, &mut patience);
        self.end_ahead(heap, left, front.left, ended)
    }
}
