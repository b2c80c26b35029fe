//! Calls that run in the heap itself, one after the other, each as an unmarked one does.

ghost use Rattle.std.specs.Prelude.{◌≡◌, map, IfOk};
ghost use Rattle.ca_program.specs.View.{program_view};
ghost use Rattle.ca_model.specs.Typed.{TypedHeap};
ghost use Rattle.ca_meaning.specs.ProgramTyped.{ProgramTyped};
ghost use Rattle.ca_meaning.specs.WellTyped.{AllWellTyped, WellTyped};
ghost use Rattle.ca_parallel.specs.Calls.{invocation_of, invocations_of};
ghost use Rattle.ca_sections.specs.InOrder.{CallEnds, CallsEnd, LeftBy};
ghost use Rattle.ca_undo.specs.Puts.{before};

use ca_base::{Gate, Memory};
use ca_model::{Heap, Value};
use ca_parallel::Op;
use ca_program::{FieldId, Program};
use ca_sections::Coded;
use ca_steps::{
    Access, Frames, Halt, Look, field_of, number_of, own_field, own_look, receiver_of, run_from,
    sum_of,
};
use ca_undo::Kept;
use std::alloc::Global;

/// The world of a run in a heap that is lent, with what undoes its puts, and the gate that each call passes.
#[derive(Drop)]
pub struct InPlace<'s, G: Gate> {
    pub program: &'s Program,
    pub gate: &'s G,
    pub heap: &'s mut Heap,
    pub kept: &'s mut Kept,
}

impl<'s, G: Gate> Access for InPlace<'s, G> {
    ghost use Rattle.ca_program.specs.View.{program_view};
    ghost use Rattle.ca_meaning.specs.Serial.{World as RunWorld, in_heap};
    ghost use Rattle.ca_code_laws.specs.Runs.{run_access};
    ghost use Rattle.ca_run.specs.InPlace.{Lasting};
    ghost use Rattle.ca_undo.specs.Puts.{before};

    ghost World = { RunWorld };

    ghost Past = { RunWorld };

    ghost world = { λ s past. in_heap past s.heap.now };

    ghost Fixed = { Lasting };

    ghost fixed = { λ s. record { program = s.program.now; before = before s.kept.now s.heap.now; heap = s.heap.ghost_name; kept = s.kept.ghost_name } };

    ghost accesses = { λ l. run_access (program_view l.program) };

    ghost Fits = { λ s bs. Unit {0} };

    ghost at_hand = { λ s. s.heap.now };

    #[inline(always)]
    fn enters(&self) -> bool {
        true
    }

    #[inline(always)]
    fn reach(&self, receiver: i64, _start: u32) {
        if receiver > 0 && receiver <= u32::MAX as i64 {
            self.gate.inside(0, (receiver - 1) as u32);
        }
    }

    #[inline(always)]
    fn stand(&mut self, _deep: bool) {}

    #[inline(always)]
    fn own(&self, this: Value, f: FieldId) -> Option<Value> {
        Some(own_field(self.heap, this, f))
    }

    #[inline(always)]
    fn own_item(&self, this: Value, f: FieldId, index: i64) -> Look {
        own_look(self.heap, this, f, index)
    }

    #[inline(always)]
    fn heap(&self) -> &Heap {
        self.heap
    }

    #[inline(always)]
    fn reads(&self, _n: usize, _f: FieldId) -> bool {
        true
    }

    #[inline(always)]
    fn put(&mut self, this: Value, f: FieldId, item: u32, value: Value) -> bool {
        match this {
            Value::Ref(n) => self.kept.put(self.heap, n, f.field, item, value),
            Value::Null => false,
            Value::Long(_) => false,
            Value::Bool(_) => false,
        }
    }

    #[inline(always)]
    fn add(&mut self, this: u32, f: FieldId, n: i64) -> Option<i64> {
        let Value::Ref(o) = receiver_of(this) else {
            return None;
        };
        let Value::Long(a) = field_of(self.heap, o, f) else {
            return None;
        };
        let sum = sum_of(a, n);
        if self.kept.put(self.heap, o, f.field, 0, Value::Long(sum)) {
            Some(sum)
        } else {
            None
        }
    }
}

impl<'s, G: Gate> InPlace<'s, G> {
    /// The world of a run in this heap.
    #[inline(always)]
    fn lent(
        program: &'s Program,
        gate: &'s G,
        heap: &'s mut Heap,
        kept: &'s mut Kept,
    ) -> InPlace<'s, G>
        ensures program { result.program.now ≡ program.now }
        ensures heap { result.heap.now ≡ heap.old }
        ensures kept { result.kept.now ≡ kept.old }
        ensures same_heap { result.heap.ghost_name ≡ heap.entry.ghost_name }
        ensures same_kept { result.kept.ghost_name ≡ kept.entry.ghost_name }
    {
        InPlace {
            program,
            gate,
            heap,
            kept,
        }
    }
}

/// Passes the gate into an object, or goes by it.
#[inline(always)]
fn pass_where<G: Gate>(gate: &G, passes: bool, object: u32) {
    if passes {
        gate.inside(0, object);
    }
}

/// What a call leaves whose body came to this with so many steps left: these, or it isn't done. Where the body stands at what it doesn't
/// run, memory is wanting.
#[inline(always)]
fn left_of(halt: Halt, left: u64) -> Result<Option<u64>, Memory>
    ensures { IfOk result (λ still. LeftBy halt left still) }
{
    match halt {
        Halt::Ends => Ok(Some(left)),
        Halt::Traps(_) => Ok(None),
        Halt::Spends => Ok(None),
        Halt::Leaves => Err(Memory),
        Halt::Fails => Err(Memory),
        Halt::Memory => Err(Memory),
    }
}

/// Runs a call within a budget of steps: it leaves so many, or it isn't done. What isn't done may be undone, and so may what wants
/// memory. A call of a parallel extent creates and prints nothing: where one stands at such an instruction, memory is wanting. It passes
/// the gate, or goes by it; the calls within pass it.
#[inline(always)]
fn run_call<G: Gate>(
    alloc: Global,
    program: &Coded<'_>,
    access: &mut InPlace<'_, G>,
    frames: &mut Frames,
    op: &Op,
    left: u64,
    passes: bool,
) -> Result<Option<u64>, Memory>
    requires program { ProgramTyped (program_view program.now) }
    requires same { access.old.program.now ≡ program.now }
    requires heap { TypedHeap (program_view program.now) access.old.heap.now }
    requires typed { WellTyped (program_view program.now) access.old.heap.now (invocation_of op.now) }
    ensures ran { IfOk result (λ still. CallEnds (program_view program.now) access.old.heap.now (invocation_of op.now) left access.new.heap.now still) }
    ensures before { before access.new.kept.now access.new.heap.now ≡ before access.old.kept.now access.old.heap.now }
    ensures same_heap { access.new.heap.ghost_name ≡ access.old.heap.ghost_name }
    ensures same_kept { access.new.kept.ghost_name ≡ access.old.kept.ghost_name }
    ensures same_program { access.new.program.now ≡ access.old.program.now }
{
    if left == 0 {
        return Ok(None);
    }
    let Some(start) = program.body(op.op) else {
        return Err(Memory);
    };
    let Some(number) = number_of(Value::Ref(op.receiver)) else {
        return Err(Memory);
    };
    start.enter(frames, alloc, op)?;
    pass_where(access.gate, passes, op.receiver);
    let halt = run_from(access, start.laid, frames, start.place, left - 1, number);
    left_of(halt, frames.left)
}

/// Runs calls in their order within a budget of steps: they leave so many, or one of them isn't done.
fn run_calls<G: Gate>(
    alloc: Global,
    program: &Coded<'_>,
    access: &mut InPlace<'_, G>,
    frames: &mut Frames,
    first: &[Op],
    left: u64,
) -> Result<Option<u64>, Memory>
    requires program { ProgramTyped (program_view program.now) }
    requires same { access.old.program.now ≡ program.now }
    requires heap { TypedHeap (program_view program.now) access.old.heap.now }
    requires typed { AllWellTyped (program_view program.now) access.old.heap.now (invocations_of first.now) }
    ensures ran { IfOk result (λ still. CallsEnd (program_view program.now) access.old.heap.now (invocations_of first.now) left access.new.heap.now still) }
    ensures before { before access.new.kept.now access.new.heap.now ≡ before access.old.kept.now access.old.heap.now }
    ensures same_heap { access.new.heap.ghost_name ≡ access.old.heap.ghost_name }
    ensures same_kept { access.new.kept.ghost_name ≡ access.old.kept.ghost_name }
    ensures same_program { access.new.program.now ≡ access.old.program.now }
{
    let mut still = left;
    'calls: for op in first {
        let ran = run_call(alloc, program, access, frames, op, still, true)?;
        match ran {
            Some(left) => still = left,
            None => return Ok(None),
        }
    }
    Ok(Some(still))
}

/// The same in a heap that is lent, with what undoes it.
pub(crate) fn run_all<G: Gate>(
    alloc: Global,
    gate: &G,
    program: &Coded<'_>,
    heap: &mut Heap,
    kept: &mut Kept,
    frames: &mut Frames,
    first: &[Op],
    left: u64,
) -> Result<Option<u64>, Memory>
    requires program { ProgramTyped (program_view program.now) }
    requires heap { TypedHeap (program_view program.now) heap.old }
    requires typed { AllWellTyped (program_view program.now) heap.old (invocations_of first.now) }
    ensures ran { IfOk result (λ still. CallsEnd (program_view program.now) heap.old (invocations_of first.now) left heap.new still) }
    ensures before { before kept.new heap.new ≡ before kept.old heap.old }
{
    let mut access = InPlace::lent(program.program(), gate, heap, kept);
    let ran = run_calls(alloc, program, &mut access, frames, first, left);
    ran
}

/// The same of one call.
pub(crate) fn run_one<G: Gate>(
    alloc: Global,
    gate: &G,
    program: &Coded<'_>,
    heap: &mut Heap,
    kept: &mut Kept,
    frames: &mut Frames,
    op: &Op,
    left: u64,
    passes: bool,
) -> Result<Option<u64>, Memory>
    requires program { ProgramTyped (program_view program.now) }
    requires heap { TypedHeap (program_view program.now) heap.old }
    requires typed { WellTyped (program_view program.now) heap.old (invocation_of op.now) }
    ensures ran { IfOk result (λ still. CallEnds (program_view program.now) heap.old (invocation_of op.now) left heap.new still) }
    ensures before { before kept.new heap.new ≡ before kept.old heap.old }
{
    let mut access = InPlace::lent(program.program(), gate, heap, kept);
    let ran = run_call(alloc, program, &mut access, frames, op, left, passes);
    ran
}
