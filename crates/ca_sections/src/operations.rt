//! From an operation and its receiver to what its section leaves and lists: `section` of `ca_meaning/specs/Sections.antt`.

ghost use Rattle.std.specs.Prelude.{◌≡◌, ℕ, [], Err, IfOk, OnErr, Some, slice_get};
ghost use Rattle.ca_program.specs.Plain.{PlainProgram};
ghost use Rattle.ca_program.specs.View.{program_view};
ghost use Rattle.ca_meaning.specs.Functions.{body_of};
ghost use Rattle.ca_meaning.specs.Sections.{section};
ghost use Rattle.ca_parallel.specs.Bodies.{targets_of_all};
ghost use Rattle.ca_code.specs.Codes.{code_seen};
ghost use Rattle.ca_code_laws.specs.Told.{IsLaidOut};
ghost use Rattle.ca_undo.specs.Olds.{put_back, AllThere};
ghost use Rattle.ca_model.specs.declared.value.Object.{Object};
ghost use Rattle.ca_sections.specs.declared.operations.SectionAnswer.TheVariants.{Done};
ghost use Rattle.ca_sections.specs.Answers.{SectionIs, FrozenIs, CanUndo};
ghost use Rattle.ca_sections.specs.Fitting.{Entered};
ghost use Rattle.ca_sections.specs.Running.{Settled, fore_in};

use crate::access::{InSection, Own, Stand};
use crate::coded::{Coded, Start};
use crate::desk::{Desk, no_slots};
use crate::running::run;
use crate::stop::Stop;
use ca_base::Memory;
use ca_model::{Heap, Object, Trap, Value};
use ca_parallel::Op;
use ca_steps::{Frames, number_of};
use std::alloc::Global;

/// What a section answers: it is done in so many steps, it traps, or a step is too many.
#[derive(Clone, Copy, PartialEq, Eq)]
pub enum SectionAnswer {
    Done { steps: u64 },
    Trapped(Trap),
    Spent,
}

impl<'s> InSection<'s> {
    /// Ends a section that isn't done: the slots are put back, and in the list stands what stood there before.
    #[cold]
    #[inline(never)]
    fn give_up(&mut self, stop: Stop) -> Result<SectionAnswer, Memory>
        requires there { AllThere self.old.olds.now self.old.slots.now }
        ensures settled { IfOk result (λ answer. (budget left : ℕ) → Settled (Err stop) answer budget left self.old self.new.slots.now (fore_in self.old) self.new.listed.now.items) }
        ensures kept { OnErr result ((self.new.slots.now ≡ put_back self.old.olds.now self.old.slots.now) × (self.new.listed.now.items ≡ fore_in self.old)) }
        ensures olds { IfOk result (λ answer. (steps : ℕ) → answer ≡ Done steps → self.new.olds.now ≡ self.old.olds.now) }
        ensures same_slots { self.new.slots.ghost_name ≡ self.old.slots.ghost_name }
        ensures same_olds { self.new.olds.ghost_name ≡ self.old.olds.ghost_name }
        ensures same_list { self.new.listed.ghost_name ≡ self.old.listed.ghost_name }
        ensures same_spare { self.new.spare.ghost_name ≡ self.old.spare.ghost_name }
    {
        self.olds.put_back(self.slots);
        self.listed.truncate(self.first);
        match stop {
            Stop::Trapped(trap) => Ok(SectionAnswer::Trapped(trap)),
            Stop::Spent => Ok(SectionAnswer::Spent),
            Stop::Memory => Err(Memory),
        }
    }

    /// Ends a section that has so many steps left of a budget: what it listed stays in the list, or the slots are put back.
    #[inline(always)]
    pub(crate) fn settle(
        &mut self,
        ran: Result<(), Stop>,
        budget: u64,
        left: u64,
    ) -> Result<SectionAnswer, Memory>
        requires there { AllThere self.old.olds.now self.old.slots.now }
        ensures settled { IfOk result (λ answer. Settled ran answer budget left self.old self.new.slots.now (fore_in self.old) self.new.listed.now.items) }
        ensures kept { OnErr result ((self.new.slots.now ≡ put_back self.old.olds.now self.old.slots.now) × (self.new.listed.now.items ≡ fore_in self.old)) }
        ensures olds { IfOk result (λ answer. (steps : ℕ) → answer ≡ Done steps → self.new.olds.now ≡ self.old.olds.now) }
        ensures same_slots { self.new.slots.ghost_name ≡ self.old.slots.ghost_name }
        ensures same_olds { self.new.olds.ghost_name ≡ self.old.olds.ghost_name }
        ensures same_list { self.new.listed.ghost_name ≡ self.old.listed.ghost_name }
        ensures same_spare { self.new.spare.ghost_name ≡ self.old.spare.ghost_name }
    {
        match ran {
            Ok(()) => {
                let steps = budget.saturating_sub(left);
                Ok(SectionAnswer::Done { steps })
            }
            Err(stop) => self.give_up(stop),
        }
    }
}

impl<'a> Start<'a> {
    /// Puts the arguments of a call into the first slots, where they are as many as its body takes, and of its kinds.
    #[inline(always)]
    pub fn enter(self, frames: &mut Frames, alloc: Global, op: &Op) -> Result<(), Memory>
        ensures { IfOk result (λ _. (p : PlainProgram) → IsLaidOut p (code_seen self.entry.laid.now.code) → Entered p op.now frames.new) }
    {
        let code = &self.laid.code;
        let all = code.params.as_slice();
        let place = op.op.0 as usize;
        if place >= all.len() {
            return Err(Memory);
        }
        frames.make(alloc, code.room)?;
        frames.put_values(all[place].as_slice(), op.args.as_slice())?;
        Ok(())
    }
}

impl Desk {
    /// Puts the arguments of a call into the first slots, where they are as many as its body takes, and of its kinds.
    #[inline(always)]
    fn enter(&mut self, alloc: Global, start: Start<'_>, op: &Op) -> Result<(), Memory>
        ensures entered { IfOk result (λ _. (p : PlainProgram) → IsLaidOut p (code_seen start.entry.laid.now.code) → Entered p op.now self.new.frames) }
        ensures state { self.new.state ≡ self.old.state }
    {
        start.enter(&mut self.frames, alloc, op)
    }

    /// Puts the object of the desk's last section back, which was done, as it was before. It takes no memory.
    pub fn undo(&mut self, object: &mut Object)
        requires { (before : Object) × CanUndo self.old object.old before }
        ensures { (before : Object) → CanUndo self.old object.old before → object.new ≡ before }
    {
        self.state.olds.put_back(&mut object.slots);
    }
}

/// The section of an operation on an object within a budget of steps. The object stands for the operation's
/// receiver, and all but its own accesses read the frozen heap.
///
/// Done leaves the object of the section and puts what it lists behind what stands in `out`. On each other
/// answer, and where memory runs out, object and `out` are as before.
pub fn section<'a>(
    desk: &mut Desk,
    alloc: Global,
    program: &'a Coded<'_>,
    frozen: &Heap,
    object: &mut Object,
    op: &Op,
    left: u64,
    out: &mut Vec<Op>,
) -> Result<SectionAnswer, Memory>
    ensures answer { IfOk result (λ answer. SectionIs answer (section (program_view program.now) frozen.now op.now.receiver object.old op.now.op op.now.args left) object.old object.new out.old.items out.new.items) }
    ensures kept { OnErr result ((object.new ≡ object.old) × (out.new.items ≡ out.old.items)) }
    ensures undo { IfOk result (λ answer. (steps : ℕ) → answer ≡ Done steps → CanUndo desk.new object.new object.old) }
{
    if left == 0 {
        return Ok(SectionAnswer::Spent);
    }
    let Some(start) = program.body(op.op) else {
        return Err(Memory);
    };
    let Some(number) = number_of(Value::Ref(op.receiver)) else {
        return Err(Memory);
    };
    desk.enter(alloc, start, op)?;
    desk.state.olds.forget();
    let first = out.len();
    let mut access = InSection {
        frozen,
        this: Value::Ref(op.receiver),
        own: Own::Handed,
        stands: Stand::Handed,
        slots: &mut object.slots,
        olds: &mut desk.state.olds,
        listed: &mut *out,
        first,
        spare: &mut desk.spare,
        alloc,
    };
    let ran = run(
        start.laid,
        &mut access,
        &mut desk.frames,
        start.place,
        left - 1,
        number,
    );
    access.settle(ran.ended, left, ran.left)
}

/// The section of an operation that puts nothing, on its receiver's object in the frozen heap, within a budget of steps.
/// No object is copied.
///
/// Done puts what it lists behind what stands in `out`. On each other answer, and where memory runs out, `out` is as
/// before.
pub fn section_frozen<'a>(
    desk: &mut Desk,
    alloc: Global,
    program: &'a Coded<'_>,
    frozen: &Heap,
    op: &Op,
    left: u64,
    out: &mut Vec<Op>,
) -> Result<SectionAnswer, Memory>
    ensures answer { targets_of_all (body_of (slice_get (program_view program.now).ops op.now.op.0)) ≡ [] → (o : Object) → slice_get frozen.now op.now.receiver ≡ Some o → IfOk result (λ answer. FrozenIs answer (section (program_view program.now) frozen.now op.now.receiver o op.now.op op.now.args left) out.old.items out.new.items) }
    ensures kept { OnErr result (out.new.items ≡ out.old.items) }
{
    if left == 0 {
        return Ok(SectionAnswer::Spent);
    }
    let Some(start) = program.body(op.op) else {
        return Err(Memory);
    };
    let Some(number) = number_of(Value::Ref(op.receiver)) else {
        return Err(Memory);
    };
    desk.enter(alloc, start, op)?;
    let mut none = no_slots(alloc)?;
    desk.state.olds.forget();
    let first = out.len();
    let mut access = InSection {
        frozen,
        this: Value::Ref(op.receiver),
        own: Own::Frozen,
        stands: Stand::Frozen,
        slots: &mut none,
        olds: &mut desk.state.olds,
        listed: &mut *out,
        first,
        spare: &mut desk.spare,
        alloc,
    };
    let ran = run(
        start.laid,
        &mut access,
        &mut desk.frames,
        start.place,
        left - 1,
        number,
    );
    access.settle(ran.ended, left, ran.left)
}
