//! What one worker added to each object that it touched.

ghost use Rattle.std.specs.Prelude.{◌≡◌, ◌<◌, ℕ, [], length, IfOk, OnErr, Contains};
ghost use Rattle.ca_program.specs.View.{program_view};
ghost use Rattle.ca_meaning.specs.WellTyped.{WellTyped};
ghost use Rattle.ca_parallel.specs.Calls.{invocation_of};
ghost use Rattle.ca_order_laws.specs.Order.{StandsFor};
ghost use Rattle.ca_beside.specs.Beside.{present, AreDistinct, IsAbsent, IsPlace, Sectioned};
ghost use Rattle.ca_replica.specs.Adding.{added, Once, AreWhole};
ghost use Rattle.ca_replica.specs.Applied.{Applied, IsRound, sums};
ghost use Rattle.ca_replica.specs.Calls.{Completed, Marks};
ghost use Rattle.ca_replica.specs.InPlace.{HasCopy};
ghost use Rattle.ca_replica.specs.Zeroed.{zeroed_heap};

use crate::adding::{add_copies, take_copies};
use crate::in_place::run_whole;
use crate::marks::FieldMark;
use crate::values::put_all_back;
use crate::zeroing::zero;
use ca_base::{Gate, Memory};
use ca_beside::Beside;
use ca_extent::Extent;
use ca_model::Heap;
use ca_parallel::Op;
use ca_sections::{Coded, Desk, SectionAnswer};
use ca_steps::Frames;
use ca_undo::OldSums;
use std::alloc::{AllocError, Global};

/// Copies of the objects that a worker touched. Numbers that the extent writes began at 0 in them, so they are sums.
#[derive(Drop)]
pub struct Replica {
    pub copies: Beside,
}

/// Serves whole calls, one behind the other, with frames and the old values that undo one.
#[derive(Drop)]
pub struct Bench {
    pub(crate) frames: Frames,
    pub(crate) olds: OldSums,
}

impl Bench {
    /// It takes no memory.
    pub fn new(alloc: Global) -> Bench {
        Bench {
            frames: Frames::none(alloc),
            olds: OldSums::new(alloc),
        }
    }
}

/// Copies an object that has no copy, with 0 in each number that the extent writes, and tells the copy's place.
#[inline(never)]
fn new_place(
    copies: &mut Beside,
    extent: &Extent,
    frozen: &Heap,
    number: u32,
) -> Result<usize, AllocError>
    requires inside { number < length frozen.now }
    requires none { IsAbsent copies.old number }
    ensures place { IfOk result (λ place. IsPlace copies.new place number) }
    ensures same { present (zeroed_heap extent.now.written frozen.now) copies.new ≡ present (zeroed_heap extent.now.written frozen.now) copies.old }
    ensures has { (n : ℕ) → HasCopy copies.old n → HasCopy copies.new n }
{
    let mut object = copies.copied(frozen.get(number))?;
    zero(&mut object, extent.written());
    copies.add(number, object)
}

/// The place of an object's copy. One that has none is copied, with 0 in each number that the extent writes.
#[inline(always)]
pub(crate) fn place_of(
    copies: &mut Beside,
    extent: &Extent,
    frozen: &Heap,
    number: u32,
) -> Result<usize, AllocError>
    requires { number < length frozen.now }
    ensures place { IfOk result (λ place. IsPlace copies.new place number) }
    ensures same { present (zeroed_heap extent.now.written frozen.now) copies.new ≡ present (zeroed_heap extent.now.written frozen.now) copies.old }
    ensures has { (n : ℕ) → HasCopy copies.old n → HasCopy copies.new n }
{
    match copies.find(number) {
        Some(place) => Ok(place),
        None => new_place(copies, extent, frozen, number),
    }
}

/// Runs the section of an operation within a budget, on the copy of its receiver.
#[inline(always)]
fn run_on_copy(
    copies: &mut Beside,
    desk: &mut Desk,
    alloc: Global,
    program: &Coded<'_>,
    extent: &Extent,
    frozen: &Heap,
    op: &Op,
    left: u64,
    out: &mut Vec<Op>,
) -> Result<SectionAnswer, Memory>
    requires { op.now.receiver < length frozen.now }
    ensures answer { IfOk result (λ answer. Sectioned (program_view program.now) frozen.now (present (zeroed_heap extent.now.written frozen.now) copies.old) op.now left out.old.items (present (zeroed_heap extent.now.written frozen.now) copies.new) out.new.items answer) }
    ensures once { IfOk result (λ _. AreDistinct copies.new) }
    ensures kept { OnErr result ((present (zeroed_heap extent.now.written frozen.now) copies.new ≡ present (zeroed_heap extent.now.written frozen.now) copies.old) × (out.new.items ≡ out.old.items)) }
{
    let place = place_of(copies, extent, frozen, op.receiver)?;
    copies.run_at(desk, alloc, program, frozen, place, op, left, out)
}

impl Replica {
    /// No sums. It takes no memory.
    pub fn new(alloc: Global) -> Replica
        ensures { result.copies ≡ [] }
    {
        Replica {
            copies: Beside::new(alloc),
        }
    }

    /// No sums, with memory for copies from beside the heap: an even part, where so many others get one too, but no more than
    /// so many copies take.
    pub fn lent(alloc: Global, memory: &mut Beside, others: usize, most: usize) -> Replica
        ensures none { result.copies ≡ [] }
        ensures same { memory.new ≡ memory.old }
    {
        Replica {
            copies: memory.lend(alloc, others, most),
        }
    }

    /// Runs the section of an operation within a budget, on the worker's copy of its receiver. All else is read in the
    /// frozen heap, and what the section lists goes behind what stands in `out`.
    ///
    /// What a section adds that is done is added to the sums, and it is what that section adds to every typed object that
    /// agrees with the frozen one on constants. On every answer other than `Done`, and where memory is wanting, all sums
    /// and `out` are as before. No object has two copies.
    #[inline(always)]
    pub fn apply(
        &mut self,
        desk: &mut Desk,
        alloc: Global,
        program: &Coded<'_>,
        extent: &Extent,
        frozen: &Heap,
        op: &Op,
        left: u64,
        out: &mut Vec<Op>,
    ) -> Result<SectionAnswer, Memory>
        requires round { IsRound (program_view program.now) extent.now frozen.now }
        // It is a replica of this round: at first, and then again, by `answer` and `kept`.
        requires sums { StandsFor (program_view program.now) extent.now frozen.now (sums extent.now.written frozen.now self.old.copies) }
        requires inside { Contains extent.now.ops op.now.op }
        requires typed { WellTyped (program_view program.now) frozen.now (invocation_of op.now) }
        ensures ran { IfOk result (Sectioned (program_view program.now) frozen.now (sums extent.now.written frozen.now self.old.copies) op.now left out.old.items (sums extent.now.written frozen.now self.new.copies) out.new.items) }
        ensures answer { IfOk result (Applied (program_view program.now) extent.now frozen.now (sums extent.now.written frozen.now self.old.copies) op.now left out.old.items (sums extent.now.written frozen.now self.new.copies) out.new.items) }
        ensures once { IfOk result (λ _. AreDistinct self.new.copies) }
        ensures kept { OnErr result ((sums extent.now.written frozen.now self.new.copies ≡ sums extent.now.written frozen.now self.old.copies) × (out.new.items ≡ out.old.items)) }
    {
        run_on_copy(
            &mut self.copies,
            desk,
            alloc,
            program,
            extent,
            frozen,
            op,
            left,
            out,
        )
    }

    /// Runs a call with all that it leads to within a budget, on the worker's copies. All that the extent doesn't write is read in the
    /// frozen heap. The gate is passed before each call.
    ///
    /// It is done, with its steps, exactly where its serial run from the heap of sums is, and leaves what that leaves. Else, and
    /// where memory is wanting, all sums are as before. No object has two copies.
    pub fn complete<G: Gate>(
        &mut self,
        bench: &mut Bench,
        marks: &[FieldMark],
        alloc: Global,
        program: &Coded<'_>,
        extent: &Extent,
        frozen: &Heap,
        gate: &G,
        worker: u32,
        op: &Op,
        left: u64,
    ) -> Result<Option<u64>, Memory>
        requires round { IsRound (program_view program.now) extent.now frozen.now }
        requires sums { StandsFor (program_view program.now) extent.now frozen.now (sums extent.now.written frozen.now self.old.copies) }
        requires typed { WellTyped (program_view program.now) frozen.now (invocation_of op.now) }
        // It has the marks of the extent (`marks_of`).
        requires marks { Marks extent.now.written marks.now }
        ensures completed { IfOk result (Completed (program_view program.now) (sums extent.now.written frozen.now self.old.copies) (invocation_of op.now) left (sums extent.now.written frozen.now self.new.copies)) }
        ensures once { AreDistinct self.new.copies }
        ensures kept { OnErr result (sums extent.now.written frozen.now self.new.copies ≡ sums extent.now.written frozen.now self.old.copies) }
    {
        bench.olds.forget();
        match run_whole(
            alloc,
            program,
            gate,
            worker,
            extent,
            frozen,
            marks,
            &mut self.copies,
            &mut bench.olds,
            &mut bench.frames,
            op,
            left,
        ) {
            Ok(Some(still)) => {
                self.copies.know_apart();
                let steps = left.saturating_sub(still);
                Ok(Some(steps))
            }
            Ok(None) => {
                put_all_back(&mut self.copies, &mut bench.olds);
                self.copies.know_apart();
                Ok(None)
            }
            Err(wanting) => {
                put_all_back(&mut self.copies, &mut bench.olds);
                self.copies.know_apart();
                Err(wanting)
            }
        }
    }

    /// Adds each sum to the heap, and changes nothing else. It takes no memory.
    pub fn add_to(&self, extent: &Extent, heap: &mut Heap)
        ensures { heap.new ≡ added extent.now.written self.now.copies heap.old }
    {
        add_copies(heap, self.copies.items(), extent.written())
    }

    /// Adds each sum to the objects as they are now, beside the heap. The sums are handed over: a copy takes the place of its
    /// object where that has not changed before, and the memory of the others is kept beside the heap.
    pub fn move_beside(
        self,
        extent: &Extent,
        heap: &Heap,
        beside: &mut Beside,
    ) -> Result<(), AllocError>
        requires once { Once extent.now.written }
        requires whole { AreWhole extent.now.written heap.now self.copies }
        ensures { IfOk result (λ _. present heap.now beside.new ≡ added extent.now.written self.copies (present heap.now beside.old)) }
    {
        let Replica { copies } = self;
        let items = copies.into_items(beside);
        take_copies(heap, beside, items, extent.written())
    }
}
