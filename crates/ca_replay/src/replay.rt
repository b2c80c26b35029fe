//! The engine that replays.

ghost use Rattle.std.specs.Prelude.{◌≡◌, ◌≤◌, true, map, length, drop, Option, None, IfOk, OnOk, OnErr};
ghost use Rattle.ca_program.specs.View.{program_view};
ghost use Rattle.ca_model.specs.Typed.{TypedHeap};
ghost use Rattle.ca_meaning.specs.ProgramTyped.{ProgramTyped};
ghost use Rattle.ca_meaning.specs.WellTyped.{AllWellTyped};
ghost use Rattle.ca_parallel.specs.Calls.{invocations_of, operation_of};
ghost use Rattle.ca_parallel.specs.Lists.{note};
ghost use Rattle.ca_parallel.specs.Parallel.{ParallelFrom};
ghost use Rattle.ca_serial.specs.declared.extents.ExtentAnswer.TheVariants.{Declined};
ghost use Rattle.ca_serial.specs.Extents.{Answers, IsNotDone};
ghost use Rattle.ca_trace.specs.Engines.{Replay, Replayed};
ghost use Rattle.ca_replay.specs.declared.following.Followed.TheVariants.{Stopped};
ghost use Rattle.ca_replay.specs.Following.{FollowedIs, kept, is_word};

use crate::following::{Followed, follow};
use crate::machine::Machine;
use ca_base::{Memory, OpenGate};
use ca_beside::Beside;
use ca_model::Heap;
use ca_parallel::Op;
use ca_run::OneWorker;
use ca_sections::Coded;
use ca_serial::{ExtentAnswer, Extents};
use ca_steps::Mark;
use ca_trace::Line;
use std::alloc::Global;
use std::mem;
use std::sync::Wait;
use std::thread::Threads;

/// An engine that follows the lines of a schedule, as long as none is bad.
#[derive(Drop)]
pub struct Replayer {
    alloc: Global,
    pub(crate) lines: Vec<Line>,
    pub(crate) place: usize,
    pub(crate) bad: Option<usize>,
    beside: Beside,
    ghost within: { place ≤ length lines.items },
}

/// Whether the first line says that a list is declined.
fn declines(lines: &[Line]) -> bool
    ensures { result ≡ is_word lines.now }
{
    if lines.len() == 0 {
        return false;
    }
    match &lines[0] {
        Line::Declined => true,
        _ => false,
    }
}

/// Runs the operations without lines.
fn complete_here(
    alloc: Global,
    program: &Coded<'_>,
    heap: &mut Heap,
    first: &[Op],
    left: u64,
) -> Result<ExtentAnswer, Memory>
    requires program { ProgramTyped (program_view program.now) }
    requires heap { TypedHeap (program_view program.now) heap.old }
    requires typed { AllWellTyped (program_view program.now) heap.old (invocations_of first.now) }
    requires parallel { ParallelFrom (program_view program.now) (map operation_of first.now) }
    ensures answer { IfOk result (λ answer. Answers (program_view program.now) heap.old (invocations_of first.now) left heap.new answer) }
    ensures declined { IfOk result (λ answer. answer ≡ Declined → IsNotDone (program_view program.now) heap.old (invocations_of first.now) left) }
    ensures kept { OnErr result (heap.new ≡ heap.old) }
{
    let gate = OpenGate;
    let mut engine = OneWorker::new(alloc, &gate);
    engine.complete(program, heap, first, left)
}

impl Replayer {
    /// An engine that follows these lines. It takes no memory.
    pub fn new(alloc: Global, lines: Vec<Line>) -> Replayer
        ensures { kept result.lines.items result.place result.bad ≡ kept lines.items 0 None }
    {
        Replayer {
            alloc,
            lines,
            place: 0,
            bad: None,
            beside: Beside::new(alloc),
        }
    }

    /// The lines that it follows.
    pub fn lines(&self) -> &[Line]
        ensures { result.now ≡ self.now.lines.items }
    {
        &self.lines
    }

    /// How many lines were followed.
    pub fn place(&self) -> usize
        ensures { result ≡ self.now.place }
    {
        self.place
    }

    /// The place of the first bad line, counted from 0, if one was met.
    pub fn bad(&self) -> Option<usize>
        ensures { result ≡ self.now.bad }
    {
        self.bad
    }

    /// Runs the operations, along the lines as long as none is bad.
    fn replay(
        &mut self,
        program: &Coded<'_>,
        heap: &mut Heap,
        first: &[Op],
        left: u64,
    ) -> Result<ExtentAnswer, Memory>
        requires program { ProgramTyped (program_view program.now) }
        requires heap { TypedHeap (program_view program.now) heap.old }
        requires typed { AllWellTyped (program_view program.now) heap.old (invocations_of first.now) }
        requires parallel { ParallelFrom (program_view program.now) (map operation_of first.now) }
        ensures answer { IfOk result (λ answer. Answers (program_view program.now) heap.old (invocations_of first.now) left heap.new answer) }
        ensures declined { IfOk result (λ answer. answer ≡ Declined → IsNotDone (program_view program.now) heap.old (invocations_of first.now) left) }
        ensures accounts { OnOk result (Replayed (kept self.old.lines.items self.old.place self.old.bad) (program_view program.now) heap.old (invocations_of first.now) left (kept self.new.lines.items self.new.place self.new.bad)) }
        ensures heap_kept { OnErr result (heap.new ≡ heap.old) }
        ensures account_kept { OnErr result (kept self.new.lines.items self.new.place self.new.bad ≡ kept self.old.lines.items self.old.place self.old.bad) }
    {
        if self.bad.is_some() {
            return complete_here(self.alloc, program, heap, first, left);
        }
        let beside = mem::replace(&mut self.beside, Beside::new(self.alloc));
        let mut machine = Machine::start(self.alloc, heap, beside, first)?;
        let went = follow(
            &mut machine,
            self.alloc,
            program,
            heap,
            left,
            &self.lines[self.place..],
        )?;
        match went {
            Followed::Whole { lines, steps } => {
                self.beside = machine.finish(heap);
                self.place += lines;
                Ok(ExtentAnswer::Done { steps })
            }
            Followed::Stopped { at } => self.fall_back(program, heap, first, left, at),
        }
    }

    /// Runs operations whose lines could not be followed past this one, and keeps the first bad line, if there is one.
    fn fall_back(
        &mut self,
        program: &Coded<'_>,
        heap: &mut Heap,
        first: &[Op],
        left: u64,
        at: usize,
    ) -> Result<ExtentAnswer, Memory>
        requires program { ProgramTyped (program_view program.now) }
        requires heap { TypedHeap (program_view program.now) heap.old }
        requires typed { AllWellTyped (program_view program.now) heap.old (invocations_of first.now) }
        requires parallel { ParallelFrom (program_view program.now) (map operation_of first.now) }
        requires fine { self.old.bad ≡ None }
        requires stopped { FollowedIs (program_view program.now) (note heap.old (invocations_of first.now) left) (drop self.old.place self.old.lines.items) heap.old (Stopped at) }
        ensures answer { IfOk result (λ answer. Answers (program_view program.now) heap.old (invocations_of first.now) left heap.new answer) }
        ensures declined { IfOk result (λ answer. answer ≡ Declined → IsNotDone (program_view program.now) heap.old (invocations_of first.now) left) }
        ensures accounts { OnOk result (Replayed (kept self.old.lines.items self.old.place self.old.bad) (program_view program.now) heap.old (invocations_of first.now) left (kept self.new.lines.items self.new.place self.new.bad)) }
        ensures heap_kept { OnErr result (heap.new ≡ heap.old) }
        ensures account_kept { OnErr result (kept self.new.lines.items self.new.place self.new.bad ≡ kept self.old.lines.items self.old.place self.old.bad) }
    {
        let answer = complete_here(self.alloc, program, heap, first, left)?;
        match answer {
            ExtentAnswer::Done { .. } => self.bad = Some(self.place + at),
            ExtentAnswer::Declined => {
                if declines(&self.lines[self.place..]) {
                    self.place += 1;
                } else {
                    self.bad = Some(self.place);
                }
            }
        }
        Ok(answer)
    }
}

impl Extents for Replayer {
    ghost Account = { Replay };

    ghost account = { λ r. kept r.lines.items r.place r.bad };

    ghost serves = { true };

    ghost ready = { Unit {0} };

    ghost Accounts = { Replayed };

    fn run<R: Threads + Wait + Sync>(
        &mut self,
        _rt: &R,
        program: &Coded<'_>,
        heap: &mut Heap,
        operations: &[Op],
        budget: u64,
    ) -> Result<ExtentAnswer, Memory> {
        self.replay(program, heap, operations, budget)
    }

    fn in_order(&self, _heap: &Heap, _mark: Mark) -> bool {
        false
    }

    fn first_steps(&self, _mark: Mark) -> u64 {
        u64::MAX
    }

    fn gains(&mut self, _program: &Coded<'_>, _heap: &Heap, _first: &[Op], _budget: u64) -> bool {
        true
    }

    fn pass(&self, _object: u32) {}
}
