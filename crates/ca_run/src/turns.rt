//! Runs operations that wait, one after another: `Progressed` of `specs/Turns.antt`, on the pending machine.

ghost use Rattle.std.specs.Prelude.{◌≡◌, ◌∷◌, ◌++◌, drop, IfOk};
ghost use Rattle.ca_program.specs.View.{program_view};
ghost use Rattle.ca_parallel.specs.Calls.{invocation_of, invocations_of};
ghost use Rattle.ca_beside.specs.Beside.{present};
ghost use Rattle.ca_run.specs.Turns.{GivenTurn, Turned, Progressed, turn_by};

use ca_base::{Gate, Memory};
use ca_beside::Beside;
use ca_model::Heap;
use ca_parallel::Op;
use ca_sections::{Coded, Desk, SectionAnswer};
use std::alloc::Global;

/// How turns end: after so many steps, or at an operation that has no complete section within what is left.
#[derive(Clone, Copy)]
pub enum Progress {
    Went { steps: u64 },
    Stuck,
}

/// What became of one turn: a section took so many steps, an operation is stuck, or nothing waits.
#[derive(Clone, Copy)]
pub enum Turn {
    Ran { steps: u64 },
    Stuck,
    Ended,
}

/// Runs an operation that was taken from what waits, within a budget, and what it lists goes behind what waits: in so many
/// steps, or it is stuck.
#[inline(always)]
pub(crate) fn run_given<G: Gate>(
    gate: &G,
    desk: &mut Desk,
    alloc: Global,
    program: &Coded<'_>,
    heap: &Heap,
    beside: &mut Beside,
    op: &Op,
    waiting: &mut Vec<Op>,
    left: u64,
) -> Result<Option<u64>, Memory>
    ensures { IfOk result (GivenTurn (program_view program.now) heap.now (present heap.now beside.old) (invocation_of op.now ∷ invocations_of waiting.old.items) left (invocation_of op.now) (present heap.now beside.new) (invocations_of waiting.new.items)) }
{
    if op.receiver >= heap.len() {
        return Ok(None);
    }
    gate.inside(0, op.receiver);
    match beside.run(desk, alloc, program, heap, op, left, waiting)? {
        SectionAnswer::Done { steps } => Ok(Some(steps)),
        SectionAnswer::Trapped(_) => Ok(None),
        SectionAnswer::Spent => Ok(None),
    }
}

/// The turn that ran an operation.
#[inline(always)]
fn turn_of(ran: Option<u64>) -> Turn
    ensures { result ≡ turn_by ran }
{
    match ran {
        Some(steps) => Turn::Ran { steps },
        None => Turn::Stuck,
    }
}

/// Runs one waiting operation, if there is one, within a budget.
fn run_one<G: Gate>(
    gate: &G,
    desk: &mut Desk,
    alloc: Global,
    program: &Coded<'_>,
    heap: &Heap,
    beside: &mut Beside,
    waiting: &mut Vec<Op>,
    left: u64,
) -> Result<Turn, Memory>
    ensures { IfOk result (λ turn. Turned (program_view program.now) heap.now (present heap.now beside.old) (invocations_of waiting.old.items) left (present heap.now beside.new) (invocations_of waiting.new.items) turn) }
{
    let Some(op) = waiting.pop() else {
        return Ok(Turn::Ended);
    };
    let ran = run_given(gate, desk, alloc, program, heap, beside, &op, waiting, left)?;
    desk.give_back(op);
    Ok(turn_of(ran))
}

/// Runs one operation within a budget, if there is one: the last one that waits, and where none waits the next one of those
/// that were handed in. None is copied.
fn run_next<G: Gate>(
    gate: &G,
    desk: &mut Desk,
    alloc: Global,
    program: &Coded<'_>,
    heap: &Heap,
    beside: &mut Beside,
    ops: &[Op],
    next: &mut usize,
    waiting: &mut Vec<Op>,
    left: u64,
) -> Result<Turn, Memory>
    ensures { IfOk result (λ turn. Turned (program_view program.now) heap.now (present heap.now beside.old) (invocations_of (drop next.old ops.now) ++ invocations_of waiting.old.items) left (present heap.now beside.new) (invocations_of (drop next.new ops.now) ++ invocations_of waiting.new.items) turn) }
{
    if waiting.len() > 0 {
        let turn = run_one(gate, desk, alloc, program, heap, beside, waiting, left)?;
        return Ok(turn);
    }
    let at = *next;
    if at >= ops.len() {
        return Ok(Turn::Ended);
    }
    let op = &ops[at];
    *next = at + 1;
    let ran = run_given(gate, desk, alloc, program, heap, beside, op, waiting, left)?;
    Ok(turn_of(ran))
}

/// Runs operations one after the other, and all that they list, within a budget of steps: until none waits, or as many as the
/// limit says, or until one is stuck. The last one that waits comes first, and where none waits the next one of those that were
/// handed in. The heap stays as it is; what changes is kept beside it.
///
/// Before each section the gate is passed, by worker 0.
pub fn run_some<G: Gate>(
    gate: &G,
    desk: &mut Desk,
    alloc: Global,
    program: &Coded<'_>,
    heap: &Heap,
    beside: &mut Beside,
    ops: &[Op],
    next: &mut usize,
    waiting: &mut Vec<Op>,
    left: u64,
    limit: u64,
) -> Result<Progress, Memory>
    ensures { IfOk result (λ progress. Progressed (program_view program.now) heap.now (present heap.now beside.old) (invocations_of (drop next.old ops.now) ++ invocations_of waiting.old.items) left limit (present heap.now beside.new) (invocations_of (drop next.new ops.now) ++ invocations_of waiting.new.items) progress) }
{
    let mut still = left;
    'turns: for _ in 0..limit {
        match run_next(
            gate, desk, alloc, program, heap, beside, ops, next, waiting, still,
        )? {
            Turn::Ran { steps } => still = still - steps,
            Turn::Stuck => return Ok(Progress::Stuck),
            Turn::Ended => {
                return Ok(Progress::Went {
                    steps: left - still,
                });
            }
        }
    }
    Ok(Progress::Went {
        steps: left - still,
    })
}
