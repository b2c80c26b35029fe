//! A run goes on until something is for its engine.

ghost use Rattle.std.specs.Prelude.{◌≡◌, ℕ, List};
ghost use Rattle.ca_program.specs.Plain.{PlainProgram};
ghost use Rattle.ca_program.specs.View.{program_view};
ghost use Rattle.ca_model.specs.declared.value.Object.{Object};
ghost use Rattle.ca_meaning.specs.Expressions.{Invocation};
ghost use Rattle.ca_code.specs.Codes.{code_seen};
ghost use Rattle.ca_selection.specs.Ops.{Runs};
ghost use Rattle.ca_steps.specs.Passing.{Arrives};

use crate::extents::Extents;
use ca_model::Heap;
use ca_steps::{Door, Event, Frames, InRun, Laid, Mark, run_on};
use std::alloc::Global;
use std::sync::Wait;

/// An engine, which a run asks whether it goes on into what is handed on.
#[derive(Drop)]
struct Lent<'e, E: Extents> {
    engine: &'e E,
}

impl<'e, E: Extents> Door for Lent<'e, E> {
    // What is handed on leaves the account as it is.
    ghost Lets = { λ s. (p : PlainProgram) (h : List Object) (is : List Invocation) (budget : ℕ) → E.Accounts (E.account s.engine.now) p h is budget (E.account s.engine.now) };

    #[inline(always)]
    fn lets(&self, heap: &Heap, mark: Mark) -> bool {
        self.engine.in_order(heap, mark)
    }

    #[inline(always)]
    fn pass(&self, object: u32) {
        self.engine.pass(object);
    }
}

/// Runs on until something is printed or is for the engine, or the run ends.
pub(crate) fn go_on<'a, R: Wait, E: Extents>(
    rt: &R,
    alloc: Global,
    engine: &E,
    run: &mut InRun<'_>,
    laid: &Laid<'a>,
    frames: &mut Frames,
) -> Event<'a>
    requires laid { Runs (code_seen laid.now.code) laid.now.code.rows.items laid.now.ops.items }
    ensures event { Arrives ((p : PlainProgram) (h : List Object) (is : List Invocation) (budget : ℕ) → E.Accounts (E.account engine.now) p h is budget (E.account engine.now)) (program_view run.old.program.now) (code_seen laid.now.code) frames.old run.old.heap result frames.new run.new.heap }
    ensures program { run.new.program ≡ run.old.program }
{
    let lent = Lent { engine };
    run_on(rt, alloc, run, &lent, laid, frames)
}
