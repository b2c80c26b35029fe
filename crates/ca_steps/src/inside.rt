//! A run, from one event to the next: it goes on into what is handed on, where its door lets it in.

ghost use Rattle.std.specs.Prelude.{◌≡◌, ℕ, List, slice_get};
ghost use Rattle.ca_program.specs.declared.program.ValueType.{ValueType as Typing};
ghost use Rattle.ca_program.specs.Instructions.{Code as PlainCode};
ghost use Rattle.ca_program.specs.Plain.{Statement};
ghost use Rattle.ca_program.specs.View.{program_view};
ghost use Rattle.ca_code.specs.Codes.{code_seen};
ghost use Rattle.ca_selection.specs.Ops.{Runs};
ghost use Rattle.ca_steps.specs.Ways.{BeginsAt, HandsAt};
ghost use Rattle.ca_steps.specs.Here.{WhereLeaves};
ghost use Rattle.ca_steps.specs.Passing.{Arrives, HaltsPast, WentIn};
ghost use Rattle.ca_steps.specs.Wide.{IsElsewhere};

use crate::calls::Went;
use crate::doors::{Door, Mark};
use crate::frames::Frames;
use crate::gated::Gated;
use crate::loads::Target;
use crate::run::InRun;
use crate::running::{Event, Halt, Laid, act_slowly, row_at, run_here, trapped};
use ca_code::{Code, Ins};
use ca_model::Heap;
use ca_program::{LoopId, OpId, Stmt, StmtForm};
use std::alloc::Global;
use std::mem;
use std::sync::Wait;

/// The number of a loop.
#[inline(always)]
fn site_of(s: &Stmt) -> Option<LoopId> {
    match &s.kind {
        StmtForm::For(site, _, _, _, _, _) => Some(*site),
        _ => None,
    }
}

/// Goes into a call of an operation on an object that is handed on where the run is, if the door lets it in.
#[inline(always)]
fn enter_marked<D: Door>(
    run: &Gated<'_, '_, D>,
    door: &D,
    code: &Code<'_>,
    frames: &mut Frames,
    op: OpId,
    first: u32,
    receiver: u32,
) -> Option<Halt>
    requires hands { HandsAt (code_seen code.now) frames.old op first receiver }
    ensures { WentIn (D.Lets door.now) (code_seen code.now) frames.old frames.new result }
{
    if frames.left == 0 {
        return Some(Halt::Leaves);
    }
    let lets = door.lets(&run.run.heap, Mark::Call(op));
    if !lets {
        return Some(Halt::Leaves);
    }
    door.pass(receiver);
    match frames.enter_operation(code.ops.as_slice(), op, receiver, first) {
        Ok(went) => match went {
            Went::On => None,
            _ => Some(Halt::Fails),
        },
        Err(_) => Some(Halt::Memory),
    }
}

/// Goes into a loop that is handed on where the run is, if the door lets it in.
#[inline(always)]
fn begin_marked<D: Door>(
    run: &Gated<'_, '_, D>,
    door: &D,
    frames: &mut Frames,
    s: &Stmt,
) -> Option<Halt>
    ensures { (c : PlainCode) (n line : ℕ) (loop : Statement) (tys : List Typing) → BeginsAt c frames.old n line loop tys → WentIn (D.Lets door.now) c frames.old frames.new result }
{
    let Some(site) = site_of(s) else {
        return Some(Halt::Leaves);
    };
    if frames.at > u32::MAX as usize {
        return Some(Halt::Leaves);
    }
    let lets = door.lets(&run.run.heap, Mark::Loop(site));
    if !lets {
        return Some(Halt::Leaves);
    }
    frames.at += 1;
    None
}

/// Goes into what is handed on where the run is, if the door lets it in.
#[inline(always)]
fn go_in<D: Door>(
    run: &Gated<'_, '_, D>,
    door: &D,
    code: &Code<'_>,
    frames: &mut Frames,
) -> Option<Halt>
    ensures { WentIn (D.Lets door.now) (code_seen code.now) frames.old frames.new result }
{
    let Some(row) = row_at(code.rows.as_slice(), frames.at) else {
        return Some(Halt::Leaves);
    };
    match row.ins {
        Ins::Hand(op, first) => match frames.named(first) {
            Target::Object(n) => enter_marked(run, door, code, frames, op, first, n),
            Target::Nothing => Some(Halt::Leaves),
            Target::Unnamed => Some(Halt::Leaves),
        },
        Ins::Begin(_, s, _) => begin_marked(run, door, frames, s),
        _ => Some(Halt::Leaves),
    }
}

/// Runs the bodies of a run from where they are, and on into what is handed on, where the door lets it in.
#[inline(never)]
fn run_inside<D: Door>(
    run: &mut Gated<'_, '_, D>,
    door: &D,
    laid: &Laid<'_>,
    frames: &mut Frames,
) -> Halt
    requires laid { Runs (code_seen laid.now.code) laid.now.code.rows.items laid.now.ops.items }
    ensures halted { HaltsPast (D.Lets door.now) (program_view run.old.run.program.now) (code_seen laid.now.code) frames.old run.old.run.heap result frames.new run.new.run.heap }
    ensures elsewhere { WhereLeaves result (IsElsewhere (slice_get (code_seen laid.now.code).items frames.new.at)) }
    ensures program { run.new.run.program.now ≡ run.old.run.program.now }
{
    'marks: for _ in 0..u64::MAX {
        let halt = run_here(run, laid, frames);
        match halt {
            Halt::Leaves => {
                if let Some(halt) = go_in(run, door, &laid.code, frames) {
                    return halt;
                }
            }
            _ => return halt,
        }
    }
    Halt::Memory
}

/// Runs until something is printed or handed on and not let in, or the run ends.
fn run_past<'a, R: Wait, D: Door>(
    rt: &R,
    run: &mut Gated<'_, '_, D>,
    door: &D,
    laid: &Laid<'a>,
    frames: &mut Frames,
) -> Event<'a>
    requires laid { Runs (code_seen laid.now.code) laid.now.code.rows.items laid.now.ops.items }
    ensures event { Arrives (D.Lets door.now) (program_view run.old.run.program.now) (code_seen laid.now.code) frames.old run.old.run.heap result frames.new run.new.run.heap }
{
    for _ in rt.forever() {
        match run_inside(run, door, laid, frames) {
            Halt::Traps(kind) => return trapped(laid.code.rows.as_slice(), frames.at, kind),
            Halt::Spends => return Event::Spends,
            Halt::Ends => return Event::Ends,
            Halt::Fails => return Event::Fails,
            Halt::Memory => return Event::Memory,
            Halt::Leaves => {
                if let Some(event) = act_slowly(&mut run.run, &laid.code, frames) {
                    return event;
                }
            }
        }
    }
    Event::Memory
}

/// Runs until something is printed or handed on, or the run ends. What is handed on and let in by the door runs here, and the calls within
/// it pass the door.
pub fn run_on<'a, R: Wait, D: Door>(
    rt: &R,
    alloc: Global,
    run: &mut InRun<'_>,
    door: &D,
    laid: &Laid<'a>,
    frames: &mut Frames,
) -> Event<'a>
    requires laid { Runs (code_seen laid.now.code) laid.now.code.rows.items laid.now.ops.items }
    ensures event { Arrives (D.Lets door.now) (program_view run.old.program.now) (code_seen laid.now.code) frames.old run.old.heap result frames.new run.new.heap }
    ensures program { run.new.program ≡ run.old.program }
{
    let heap = mem::replace(&mut run.heap, Heap::new(alloc));
    let mut gated = Gated::of(run.program, heap, door, &laid.code);
    let event = run_past(rt, &mut gated, door, laid, frames);
    mem::swap(&mut run.heap, &mut gated.run.heap);
    event
}
