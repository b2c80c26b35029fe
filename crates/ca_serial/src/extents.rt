//! Engines, which run operations and all that these invoke.

ghost use Rattle.std.specs.Prelude.{◌≡◌, ℕ, Bool, true, false, List, map, Ok, IfOk, OnOk, OnErr};
ghost use Rattle.ca_program.specs.View.{program_view};
ghost use Rattle.ca_program.specs.Plain.{PlainProgram};
ghost use Rattle.ca_model.specs.declared.value.Object.{Object};
ghost use Rattle.ca_model.specs.Typed.{TypedHeap};
ghost use Rattle.ca_meaning.specs.Expressions.{Invocation};
ghost use Rattle.ca_meaning.specs.ProgramTyped.{ProgramTyped};
ghost use Rattle.ca_meaning.specs.WellTyped.{AllWellTyped};
ghost use Rattle.ca_parallel.specs.Calls.{invocations_of, operation_of};
ghost use Rattle.ca_parallel.specs.Parallel.{ParallelFrom};
ghost use Rattle.ca_serial.specs.declared.extents.ExtentAnswer.TheVariants.{Declined};
ghost use Rattle.ca_serial.specs.Extents.{Answers, IsNotDone};

use ca_base::Memory;
use ca_model::Heap;
use ca_parallel::Op;
use ca_sections::Coded;
use ca_steps::Mark;
use std::sync::Wait;
use std::thread::Threads;

/// What an engine answers: it ran all, in so many steps, or it left the heap as it was.
#[derive(Clone, Copy)]
pub enum ExtentAnswer {
    Done { steps: u64 },
    Declined,
}

/// An engine, which runs operations of a parallel extent and all that these invoke, in an order of its own.
pub trait Extents {
    /// What the engine keeps of the operations that it was handed, as a plain value.
    ghost Account: { Type 0 };

    ghost account: { Self → Account };

    /// Whether it runs what it is handed.
    ghost serves: { Bool };

    /// What every engine of the kind rests on, as what a closure that it calls promises.
    ghost ready: { Type 0 };

    /// What running these operations within a budget, in a heap, does to the account.
    ghost Accounts: { Account → PlainProgram → List Object → List Invocation → ℕ → Account → Type 0 };

    /// Runs the operations, of which there may be none, within a budget of steps.
    ///
    /// `Done` leaves the heap of their serial run in order, which takes so many steps. `Declined` and an
    /// error leave the heap as it was. An engine that serves declines only where that run is not done
    /// within the budget.
    fn run<R: Threads + Wait + Sync>(
        &mut self,
        rt: &R,
        program: &Coded<'_>,
        heap: &mut Heap,
        operations: &[Op],
        budget: u64,
    ) -> Result<ExtentAnswer, Memory>
        requires ready { ready }
        requires program { ProgramTyped (program_view program.now) }
        requires heap { TypedHeap (program_view program.now) heap.old }
        requires typed { AllWellTyped (program_view program.now) heap.old (invocations_of operations.now) }
        requires parallel { ParallelFrom (program_view program.now) (map operation_of operations.now) }
        ensures answer { IfOk result (λ answer. Answers (program_view program.now) heap.old (invocations_of operations.now) budget heap.new answer) }
        ensures declined { serves ≡ true → IfOk result (λ answer. answer ≡ Declined → IsNotDone (program_view program.now) heap.old (invocations_of operations.now) budget) }
        ensures accounts { OnOk result (Accounts (account self.old) (program_view program.now) heap.old (invocations_of operations.now) budget (account self.new)) }
        ensures heap_kept { OnErr result (heap.new ≡ heap.old) }
        ensures account_kept { OnErr result (account self.new ≡ account self.old) };

    /// Whether it would run a marked call, or the calls of a marked loop, in order in the heap itself: then nothing is listed, and the run
    /// goes on into it. It may say so where its account holds for every list as it is.
    fn in_order(&self, heap: &Heap, mark: Mark) -> bool
        ensures any { result ≡ true → (p : PlainProgram) (h : List Object) (is : List Invocation) (budget : ℕ) → Accounts (account self.now) p h is budget (account self.now) };

    /// Within how many steps the first calls of a marked loop are listed, which `gains` looks at. A loop that is listed within these, and
    /// any one where they are the most that there are, is listed whole and run.
    fn first_steps(&self, mark: Mark) -> u64;

    /// Whether it gains where it is handed the calls of a marked loop, of which these are the first. Where it doesn't nothing is handed,
    /// and it is asked anew whether the run goes on into the loop: there it is to say so.
    fn gains(&mut self, program: &Coded<'_>, heap: &Heap, first: &[Op], budget: u64) -> bool
        ensures kept { account self.new ≡ account self.old };

    /// A call on this object is about to run within a marked call or loop: the run went on into that, or its list was declined.
    fn pass(&self, object: u32);
}

/// The engine that declines whatever it is handed. It is for runs without marks.
#[derive(Clone, Copy)]
pub struct NoExtents;

impl Extents for NoExtents {
    ghost Account = { Unit {0} };

    ghost account = { λ engine. tt };

    ghost serves = { false };

    ghost ready = { Unit {0} };

    ghost Accounts = { λ before p h is budget after. Unit {0} };

    fn run<R: Threads + Wait + Sync>(
        &mut self,
        _rt: &R,
        program: &Coded<'_>,
        heap: &mut Heap,
        operations: &[Op],
        budget: u64,
    ) -> Result<ExtentAnswer, Memory>
        requires ready { Unit {0} }
        requires program { ProgramTyped (program_view program.now) }
        requires heap { TypedHeap (program_view program.now) heap.old }
        requires typed { AllWellTyped (program_view program.now) heap.old (invocations_of operations.now) }
        requires parallel { ParallelFrom (program_view program.now) (map operation_of operations.now) }
        ensures answer { IfOk result (λ answer. Answers (program_view program.now) heap.old (invocations_of operations.now) budget heap.new answer) }
        ensures declined { false ≡ true → IfOk result (λ answer. answer ≡ Declined → IsNotDone (program_view program.now) heap.old (invocations_of operations.now) budget) }
        ensures accounts { OnOk result (Unit {0}) }
        ensures heap_kept { OnErr result (heap.new ≡ heap.old) }
        ensures account_kept { OnErr result (Unit {0}) }
        // It declines whatever it is handed, and leaves the heap as it was.
        ensures declines { result ≡ Ok Declined }
        ensures untouched { heap.new ≡ heap.old }
    {
        Ok(ExtentAnswer::Declined)
    }

    fn in_order(&self, _heap: &Heap, _mark: Mark) -> bool {
        false
    }

    fn first_steps(&self, _mark: Mark) -> u64 {
        u64::MAX
    }

    fn gains(&mut self, _program: &Coded<'_>, _heap: &Heap, _first: &[Op], _budget: u64) -> bool {
        true
    }

    fn pass(&self, _object: u32) {}
}
