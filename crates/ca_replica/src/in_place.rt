//! Calls that run on a replica, one with all that it leads to, each as an unmarked call runs.

ghost use Rattle.std.specs.Prelude.{◌≡◌, IfOk};
ghost use Rattle.ca_program.specs.View.{program_view};
ghost use Rattle.ca_model.specs.Typed.{TypedHeap};
ghost use Rattle.ca_meaning.specs.ProgramTyped.{ProgramTyped};
ghost use Rattle.ca_meaning.specs.WellTyped.{WellTyped};
ghost use Rattle.ca_parallel.specs.Calls.{invocation_of};
ghost use Rattle.ca_sections.specs.InOrder.{CallEnds};
ghost use Rattle.ca_undo.specs.Puts.{restored};
ghost use Rattle.ca_replica.specs.Applied.{sums};
ghost use Rattle.ca_replica.specs.InPlace.{AllHave, Keeps};

use crate::ground::Ground;
use crate::marks::{FieldMark, stays};
use crate::values::{add_any, own_look, own_slowly, put_sum, told_at_once};
use ca_base::{Gate, Memory};
use ca_beside::Beside;
use ca_extent::Extent;
use ca_model::{Heap, Value};
use ca_parallel::Op;
use ca_program::{FieldId, Program};
use ca_sections::Coded;
use ca_steps::{Access, Frames, Halt, Look, number_of, receiver_of, run_from};
use ca_undo::OldSums;
use std::alloc::Global;

/// The world of a run on copies: its heap is that of the sums. What the extent doesn't write is read in the frozen heap, where it is
/// the same; what it writes is put into copies, which are made at their first puts, and old values are kept. Each call passes the gate.
#[derive(Drop)]
pub struct InReplica<'s, G: Gate> {
    pub program: &'s Program,
    pub gate: &'s G,
    pub worker: u32,
    pub ground: Ground<'s>,
    pub copies: &'s mut Beside,
    pub olds: &'s mut OldSums,
}

impl<'s, G: Gate> Access for InReplica<'s, G> {
    ghost use Rattle.ca_program.specs.View.{program_view};
    ghost use Rattle.ca_meaning.specs.Serial.{World as RunWorld, in_heap};
    ghost use Rattle.ca_code_laws.specs.Runs.{run_access};
    ghost use Rattle.ca_replica.specs.Applied.{sums};
    ghost use Rattle.ca_replica.specs.InPlace.{Keeps, Lasting, lasting};

    ghost World = { RunWorld };

    ghost Past = { RunWorld };

    ghost world = { λ s past. in_heap past (sums s.ground.extent.now.written s.ground.frozen.now s.copies.now) };

    ghost Fixed = { Lasting };

    ghost fixed = { λ s. lasting s.program.now s.ground.extent.now.written s.ground.frozen.now s.ground.marks.now s.copies.now s.olds.now s.copies.ghost_name s.olds.ghost_name };

    ghost accesses = { λ l. run_access (program_view l.program) };

    ghost Fits = { λ s bs. Keeps s.ground.extent.now.written s.ground.frozen.now s.ground.marks.now s.copies.now s.olds.now };

    ghost at_hand = { λ s. s.ground.frozen.now };

    #[inline(always)]
    fn enters(&self) -> bool {
        true
    }

    #[inline(always)]
    fn reach(&self, receiver: i64, _start: u32) {
        if receiver > 0 && receiver <= u32::MAX as i64 {
            self.gate.inside(self.worker, (receiver - 1) as u32);
        }
    }

    #[inline(always)]
    fn stand(&mut self, _deep: bool) {}

    #[inline(always)]
    fn own(&self, this: Value, f: FieldId) -> Option<Value> {
        match this {
            Value::Ref(n) => {
                let told = told_at_once(&self.ground, n, f);
                match told {
                    Some(_) => told,
                    None => Some(own_slowly(&self.ground, self.copies, n, f)),
                }
            }
            Value::Null => Some(Value::Null),
            Value::Long(_) => Some(Value::Null),
            Value::Bool(_) => Some(Value::Null),
        }
    }

    #[inline(always)]
    fn own_item(&self, this: Value, f: FieldId, index: i64) -> Look {
        match this {
            Value::Ref(n) => own_look(&self.ground, n, f, index),
            Value::Null => Look::Outside,
            Value::Long(_) => Look::Outside,
            Value::Bool(_) => Look::Outside,
        }
    }

    #[inline(always)]
    fn heap(&self) -> &Heap {
        self.ground.frozen
    }

    #[inline(always)]
    fn reads(&self, n: usize, f: FieldId) -> bool {
        stays(
            self.ground.marks,
            self.ground.extent,
            self.ground.frozen,
            n,
            f.field,
        )
    }

    #[inline(always)]
    fn put(&mut self, this: Value, f: FieldId, item: u32, value: Value) -> bool {
        match this {
            Value::Ref(n) => put_sum(
                &self.ground,
                self.copies,
                self.olds,
                n,
                f.field,
                item,
                value,
            ),
            Value::Null => false,
            Value::Long(_) => false,
            Value::Bool(_) => false,
        }
    }

    #[inline(always)]
    fn add(&mut self, this: u32, f: FieldId, n: i64) -> Option<i64> {
        let Value::Ref(o) = receiver_of(this) else {
            return None;
        };
        add_any(&self.ground, self.copies, self.olds, o, f, n)
    }
}

impl<'s, G: Gate> InReplica<'s, G> {
    /// The world of a run on these copies.
    #[inline(always)]
    fn lent(
        program: &'s Program,
        gate: &'s G,
        worker: u32,
        extent: &'s Extent,
        frozen: &'s Heap,
        marks: &'s [FieldMark],
        copies: &'s mut Beside,
        olds: &'s mut OldSums,
    ) -> InReplica<'s, G>
        ensures program { result.program.now ≡ program.now }
        ensures extent { result.ground.extent.now ≡ extent.now }
        ensures frozen { result.ground.frozen.now ≡ frozen.now }
        ensures marks { result.ground.marks.now ≡ marks.now }
        ensures copies { result.copies.now ≡ copies.old }
        ensures olds { result.olds.now ≡ olds.old }
        ensures same_copies { result.copies.ghost_name ≡ copies.entry.ghost_name }
        ensures same_olds { result.olds.ghost_name ≡ olds.entry.ghost_name }
    {
        InReplica {
            program,
            gate,
            worker,
            ground: Ground {
                extent,
                frozen,
                marks,
            },
            copies,
            olds,
        }
    }
}

/// Runs a call within a budget of steps: it leaves so many, or it isn't done. What isn't done may be undone, and so may what wants
/// memory.
fn run_call<G: Gate>(
    alloc: Global,
    program: &Coded<'_>,
    access: &mut InReplica<'_, G>,
    frames: &mut Frames,
    op: &Op,
    left: u64,
) -> Result<Option<u64>, Memory>
    requires program { ProgramTyped (program_view program.now) }
    requires same { access.old.program.now ≡ program.now }
    requires heap { TypedHeap (program_view program.now) (sums access.old.ground.extent.now.written access.old.ground.frozen.now access.old.copies.now) }
    requires typed { WellTyped (program_view program.now) (sums access.old.ground.extent.now.written access.old.ground.frozen.now access.old.copies.now) (invocation_of op.now) }
    requires keeps { Keeps access.old.ground.extent.now.written access.old.ground.frozen.now access.old.ground.marks.now access.old.copies.now access.old.olds.now }
    ensures ran { IfOk result (λ still. CallEnds (program_view program.now) (sums access.old.ground.extent.now.written access.old.ground.frozen.now access.old.copies.now) (invocation_of op.now) left (sums access.new.ground.extent.now.written access.new.ground.frozen.now access.new.copies.now) still) }
    ensures before { restored access.new.olds.now (sums access.new.ground.extent.now.written access.new.ground.frozen.now access.new.copies.now) ≡ restored access.old.olds.now (sums access.old.ground.extent.now.written access.old.ground.frozen.now access.old.copies.now) }
    ensures there { AllHave access.new.olds.now access.new.copies.now }
    ensures same_written { access.new.ground.extent.now.written ≡ access.old.ground.extent.now.written }
    ensures same_frozen { access.new.ground.frozen.now ≡ access.old.ground.frozen.now }
    ensures same_copies { access.new.copies.ghost_name ≡ access.old.copies.ghost_name }
    ensures same_olds { access.new.olds.ghost_name ≡ access.old.olds.ghost_name }
{
    if left == 0 {
        return Ok(None);
    }
    let Some(start) = program.body(op.op) else {
        return Err(Memory);
    };
    let Some(number) = number_of(Value::Ref(op.receiver)) else {
        return Err(Memory);
    };
    start.enter(frames, alloc, op)?;
    access.gate.inside(access.worker, op.receiver);
    let halt = run_from(access, start.laid, frames, start.place, left - 1, number);
    match halt {
        Halt::Ends => Ok(Some(frames.left)),
        Halt::Traps(_) => Ok(None),
        Halt::Spends => Ok(None),
        Halt::Leaves => Err(Memory),
        Halt::Fails => Err(Memory),
        Halt::Memory => Err(Memory),
    }
}

/// The same on copies that are lent, with what undoes it.
pub(crate) fn run_whole<G: Gate>(
    alloc: Global,
    program: &Coded<'_>,
    gate: &G,
    worker: u32,
    extent: &Extent,
    frozen: &Heap,
    marks: &[FieldMark],
    copies: &mut Beside,
    olds: &mut OldSums,
    frames: &mut Frames,
    op: &Op,
    left: u64,
) -> Result<Option<u64>, Memory>
    requires program { ProgramTyped (program_view program.now) }
    requires heap { TypedHeap (program_view program.now) (sums extent.now.written frozen.now copies.old) }
    requires typed { WellTyped (program_view program.now) (sums extent.now.written frozen.now copies.old) (invocation_of op.now) }
    requires keeps { Keeps extent.now.written frozen.now marks.now copies.old olds.old }
    ensures ran { IfOk result (λ still. CallEnds (program_view program.now) (sums extent.now.written frozen.now copies.old) (invocation_of op.now) left (sums extent.now.written frozen.now copies.new) still) }
    ensures before { restored olds.new (sums extent.now.written frozen.now copies.new) ≡ restored olds.old (sums extent.now.written frozen.now copies.old) }
    ensures there { AllHave olds.new copies.new }
{
    let mut access = InReplica::lent(
        program.program(),
        gate,
        worker,
        extent,
        frozen,
        marks,
        copies,
        olds,
    );
    let ran = run_call(alloc, program, &mut access, frames, op, left);
    ran
}
