//! The pending machine in memory.

ghost use Rattle.std.specs.Prelude.{◌≡◌, ◌<◌, ◌↔◌, [], ℕ, Some, length, slice_get, IsTrue, IfOk, OnErr};
ghost use Rattle.ca_program.specs.View.{program_view};
ghost use Rattle.ca_meaning.specs.ProgramTyped.{ProgramTyped};
ghost use Rattle.ca_parallel.specs.Calls.{invocation_of, invocations_of};
ghost use Rattle.ca_parallel.specs.declared.op.Op.{Op};
ghost use Rattle.ca_beside.specs.Beside.{present, SameShapes};
ghost use Rattle.ca_replay.specs.Steps.{StepIs, Kept, Stands, TakenOut};

use crate::hints::{Hints, hash_of};
use crate::same::find_at;
use ca_base::Memory;
use ca_beside::Beside;
use ca_model::{Heap, Trap};
use ca_parallel::Op;
use ca_run::copies;
use ca_sections::{Coded, Desk, SectionAnswer};
use std::alloc::Global;

/// What a step of the machine by an operation answers.
#[derive(Clone, Copy)]
pub enum StepAnswer {
    /// The operation waited, and ran, in so many steps.
    Done { steps: u64 },
    /// It doesn't wait.
    NotPending,
    /// It waits, and its section stops.
    Trapped(Trap),
    /// It waits, and its section isn't done within the budget.
    Spent,
}

/// The pending machine: what waits, and the objects that changed, beside the heap that stays as it is. Its heap is
/// `present` of that and of `beside`, and what waits is `waiting`, in whatever order.
#[derive(Drop)]
pub struct Machine {
    desk: Desk,
    pub(crate) beside: Beside,
    pub(crate) waiting: Vec<Op>,
    hints: Hints,
}

impl Machine {
    /// The machine before its first step, on a heap, where these operations wait. What is beside the heap is forgotten; its
    /// memory serves the machine.
    pub fn start(
        alloc: Global,
        heap: &Heap,
        beside: Beside,
        first: &[Op],
    ) -> Result<Machine, Memory>
        ensures heap { IfOk result (λ m. present heap.now m.beside ≡ heap.now) }
        ensures waits { IfOk result (λ m. invocations_of m.waiting.items ≡ invocations_of first.now) }
    {
        let mut beside = beside;
        beside.forget();
        let waiting = copies(alloc, first)?;
        let desk = Desk::new(alloc)?;
        let mut hints = Hints::new(alloc);
        note_from(waiting.as_slice(), &mut hints, 0);
        Ok(Machine {
            desk,
            beside,
            waiting,
            hints,
        })
    }

    /// Runs this operation, if it waits and its section is done within the budget. Behind each other answer, and where
    /// memory is wanting, heap and list are as before.
    ///
    /// `program` and `heap` are those of `start`.
    pub fn step(
        &mut self,
        alloc: Global,
        program: &Coded<'_>,
        heap: &Heap,
        op: &Op,
        left: u64,
    ) -> Result<StepAnswer, Memory>
        requires program { ProgramTyped (program_view program.now) }
        requires stands { Stands (program_view program.now) heap.now (present heap.now self.old.beside) (invocations_of self.old.waiting.items) }
        ensures answer { IfOk result (λ answer. StepIs (program_view program.now) heap.now (present heap.now self.old.beside) (invocations_of self.old.waiting.items) left (invocation_of op.now) (present heap.now self.new.beside) (invocations_of self.new.waiting.items) answer) }
        ensures kept { OnErr result (Kept (present heap.now self.old.beside) (present heap.now self.new.beside) (invocations_of self.old.waiting.items) (invocations_of self.new.waiting.items)) }
        ensures stands { Stands (program_view program.now) heap.now (present heap.now self.new.beside) (invocations_of self.new.waiting.items) }
    {
        run_waiting(
            &mut self.desk,
            alloc,
            program,
            heap,
            &mut self.beside,
            &mut self.waiting,
            &mut self.hints,
            op,
            left,
        )
    }

    /// Whether nothing waits.
    pub fn is_complete(&self) -> bool
        ensures { IsTrue result ↔ (invocations_of self.now.waiting.items ≡ []) }
    {
        self.waiting.len() == 0
    }

    /// Puts the objects that changed into the heap of `start`, and gives back what stood beside it. It takes no memory.
    pub fn finish(self, heap: &mut Heap) -> Beside
        requires { SameShapes heap.old (present heap.old self.beside) }
        ensures { heap.new ≡ present heap.old self.beside }
    {
        let mut beside = self.beside;
        beside.store(heap);
        beside
    }
}

/// Runs this operation, if it waits and its section is done within the budget.
fn run_waiting(
    desk: &mut Desk,
    alloc: Global,
    program: &Coded<'_>,
    heap: &Heap,
    beside: &mut Beside,
    waiting: &mut Vec<Op>,
    hints: &mut Hints,
    op: &Op,
    left: u64,
) -> Result<StepAnswer, Memory>
    requires within { (n : ℕ) (o : Op) → slice_get waiting.old.items n ≡ Some o → o.receiver < length heap.now }
    ensures answer { IfOk result (λ answer. StepIs (program_view program.now) heap.now (present heap.now beside.old) (invocations_of waiting.old.items) left (invocation_of op.now) (present heap.now beside.new) (invocations_of waiting.new.items) answer) }
    ensures kept { OnErr result (Kept (present heap.now beside.old) (present heap.now beside.new) (invocations_of waiting.old.items) (invocations_of waiting.new.items)) }
{
    let hint = hints.place(waiting.as_slice(), op, hash_of(op));
    let Some(place) = find_at(waiting.as_slice(), op, hint) else {
        return Ok(StepAnswer::NotPending);
    };
    let from = waiting.len();
    match beside.run(desk, alloc, program, heap, op, left, waiting)? {
        SectionAnswer::Done { steps } => {
            take_out(desk, waiting, hints, place, from);
            Ok(StepAnswer::Done { steps })
        }
        SectionAnswer::Trapped(trap) => Ok(StepAnswer::Trapped(trap)),
        SectionAnswer::Spent => Ok(StepAnswer::Spent),
    }
}

/// Takes out the call at a place: the last one stands there then. Calls from `from` on are new to the hints.
fn take_out(desk: &mut Desk, waiting: &mut Vec<Op>, hints: &mut Hints, place: usize, from: usize)
    requires { place < length waiting.old.items }
    ensures { TakenOut waiting.old.items place waiting.new.items }
{
    note_from(waiting.as_slice(), hints, from);
    hints.forget(place);
    let gone = waiting.swap_remove(place);
    desk.give_back(gone);
}

/// Tells the hints of the calls from a place on.
fn note_from(ops: &[Op], hints: &mut Hints, from: usize) {
    let mut n = from;
    'places: while n < ops.len() {
        hints.note(hash_of(&ops[n]));
        n += 1;
    }
}
