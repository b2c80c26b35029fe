//! Blocks that are followed.

ghost use Rattle.std.specs.Prelude.{◌≡◌, ◌≤◌, true, IfOk, MatchOption};
ghost use Rattle.ca_program.specs.View.{program_view};
ghost use Rattle.ca_meaning.specs.ProgramTyped.{ProgramTyped};
ghost use Rattle.ca_parallel.specs.Calls.{invocation_of, invocations_of};
ghost use Rattle.ca_beside.specs.Beside.{present};
ghost use Rattle.ca_trace.specs.Laws.{RunsNow};
ghost use Rattle.ca_run.specs.Turns.{RanThis};
ghost use Rattle.ca_replay.specs.Steps.{Stands};
ghost use Rattle.ca_replay.specs.Following.{FollowedFrom, BlockIs, starts_block};

use crate::machine::{Machine, StepAnswer};
use ca_base::Memory;
use ca_model::Heap;
use ca_parallel::Op;
use ca_sections::Coded;
use ca_trace::Line;
use std::alloc::Global;

/// How far the lines of a block were followed: to its end, which is so many lines behind its beginning, in so many steps;
/// or to a line by which it doesn't go on.
#[derive(Clone, Copy)]
pub enum Followed {
    Whole { lines: usize, steps: u64 },
    Stopped { at: usize },
}

/// Whether a block begins.
fn begins_block(lines: &[Line]) -> bool
    ensures { result ≡ starts_block lines.now }
{
    if lines.len() == 0 {
        return false;
    }
    match &lines[0] {
        Line::Block => true,
        _ => false,
    }
}

/// Follows the lines as far as they are a block of what waits.
pub(crate) fn follow(
    machine: &mut Machine,
    alloc: Global,
    program: &Coded<'_>,
    heap: &Heap,
    left: u64,
    lines: &[Line],
) -> Result<Followed, Memory>
    requires program { ProgramTyped (program_view program.now) }
    requires stands { Stands (program_view program.now) heap.now (present heap.now machine.old.beside) (invocations_of machine.old.waiting.items) }
    ensures { IfOk result (λ f. FollowedFrom (program_view program.now) heap.now (present heap.now machine.old.beside) (invocations_of machine.old.waiting.items) left lines.now (present heap.now machine.new.beside) f) }
{
    if !begins_block(lines) {
        return Ok(Followed::Stopped { at: 0 });
    }
    follow_block(machine, alloc, program, heap, left, lines)
}

/// The steps that the operation takes, or nothing where a block doesn't go on by it.
fn steps_by(
    machine: &mut Machine,
    alloc: Global,
    program: &Coded<'_>,
    heap: &Heap,
    op: &Op,
    left: u64,
) -> Result<Option<u64>, Memory>
    requires program { ProgramTyped (program_view program.now) }
    requires stands { Stands (program_view program.now) heap.now (present heap.now machine.old.beside) (invocations_of machine.old.waiting.items) }
    ensures ran { IfOk result (λ ran. MatchOption ran (¬ RunsNow (program_view program.now) heap.now (present heap.now machine.old.beside) (invocations_of machine.old.waiting.items) left (invocation_of op.now)) (λ steps. RanThis (program_view program.now) heap.now (present heap.now machine.old.beside) (invocations_of machine.old.waiting.items) left (invocation_of op.now) (present heap.now machine.new.beside) (invocations_of machine.new.waiting.items) steps)) }
    ensures stands { Stands (program_view program.now) heap.now (present heap.now machine.new.beside) (invocations_of machine.new.waiting.items) }
{
    match machine.step(alloc, program, heap, op, left)? {
        StepAnswer::Done { steps } => Ok(Some(steps)),
        StepAnswer::NotPending => Ok(None),
        StepAnswer::Trapped(_) => Ok(None),
        StepAnswer::Spent => Ok(None),
    }
}

/// Follows the lines of a block behind its first one.
fn follow_block(
    machine: &mut Machine,
    alloc: Global,
    program: &Coded<'_>,
    heap: &Heap,
    left: u64,
    lines: &[Line],
) -> Result<Followed, Memory>
    requires program { ProgramTyped (program_view program.now) }
    requires stands { Stands (program_view program.now) heap.now (present heap.now machine.old.beside) (invocations_of machine.old.waiting.items) }
    requires begun { starts_block lines.now ≡ true }
    ensures { IfOk result (λ f. BlockIs (program_view program.now) heap.now (present heap.now machine.old.beside) (invocations_of machine.old.waiting.items) left lines.now (present heap.now machine.new.beside) f) }
{
    let mut at: usize = 1;
    let mut still = left;
    'lines: while at < lines.len() {
        match &lines[at] {
            Line::Step(op) => match steps_by(machine, alloc, program, heap, op, still)? {
                Some(steps) => {
                    still -= steps;
                    at += 1;
                }
                None => return Ok(Followed::Stopped { at }),
            },
            Line::End => {
                if !machine.is_complete() {
                    return Ok(Followed::Stopped { at });
                }
                return Ok(Followed::Whole {
                    lines: at + 1,
                    steps: left - still,
                });
            }
            _ => return Ok(Followed::Stopped { at }),
        }
    }
    Ok(Followed::Stopped { at })
}
