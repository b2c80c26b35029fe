//! Marked loops, whose calls are listed and handed to an engine.

ghost use Rattle.std.specs.Prelude.{◌≡◌, ◌+◌, ℕ, [], true, IfOk, IfSome, List, Contains};
ghost use Rattle.ca_program.specs.View.{program_view, statement_view};
ghost use Rattle.ca_program.specs.declared.program.ValueType.{ValueType as Typing};
ghost use Rattle.ca_program.specs.Plain.{PlainProgram, Statement};
ghost use Rattle.ca_program.specs.Instructions.{Code};
ghost use Rattle.ca_meaning.specs.ProgramTyped.{ProgramTyped};
ghost use Rattle.ca_meaning.specs.Serial.{Note};
ghost use Rattle.ca_parallel.specs.Notes.{NoteGood};
ghost use Rattle.ca_note_laws.specs.Listing.{puts_nothing};
ghost use Rattle.ca_sections.specs.declared.operations.SectionAnswer.TheVariants.{Done};
ghost use Rattle.ca_sections.specs.Answers.{LoopIs, locals_after};
ghost use Rattle.ca_sections.specs.Extending.{AllStand, StandsAlone};
ghost use Rattle.ca_code.specs.Codes.{code_seen};
ghost use Rattle.ca_selection.specs.Ops.{Runs};
ghost use Rattle.ca_steps.specs.Ways.{BeginsAt};
ghost use Rattle.ca_serial.specs.clauses.Loops.{GoesPast, HasLoops, begun_notes, locals_at, notes_of, section_at};

use crate::asking::ask;
use crate::extents::Extents;
use crate::targets::puts_nothing;
use ca_base::Memory;
use ca_model::{Heap, Value};
use ca_parallel::Op;
use ca_program::{Stmt, StmtForm, ValueType};
use ca_sections::{Coded, Desk, LoopPlace, SectionAnswer, first_of_loop, section_of_loop};
use ca_steps::{Frames, InRun, Laid, Mark};
use std::alloc::Global;
use std::sync::Wait;
use std::thread::Threads;

/// What handing on works with. Its memory stays from mark to mark.
#[derive(Drop)]
pub(crate) struct Lists {
    desk: Desk,
    pub(crate) values: Vec<Value>,
    listed: Vec<Op>,
}

impl Lists {
    /// Nothing that is listed.
    pub(crate) fn new(alloc: Global) -> Result<Lists, Memory> {
        Ok(Lists {
            desk: Desk::new(alloc)?,
            values: Vec::new(alloc),
            listed: Vec::new(alloc),
        })
    }

    /// Lists the calls of the loop that begins where the machine stands, in place of what was listed before, and finds the locals
    /// behind it.
    fn fill<'a>(
        &mut self,
        alloc: Global,
        coded: &Coded<'_>,
        laid: &Laid<'a>,
        places: &[LoopPlace<'a>],
        heap: &Heap,
        frames: &Frames,
    ) -> Result<SectionAnswer, Memory>
        requires loops { HasLoops (program_view coded.now) laid.now places.now }
        ensures listed { (n line : ℕ) (loop : Statement) (tys : List Typing) → BeginsAt (code_seen laid.now.code) frames.now n line loop tys → puts_nothing loop ≡ true → IfOk result (λ answer. LoopIs answer (section_at (program_view coded.now) heap.now frames.now tys line loop) [] self.new.listed.items) }
        ensures locals { (n line : ℕ) (loop : Statement) (tys : List Typing) → BeginsAt (code_seen laid.now.code) frames.now n line loop tys → puts_nothing loop ≡ true → IfOk result (λ _. self.new.values.items ≡ locals_after (section_at (program_view coded.now) heap.now frames.now tys line loop) (locals_at frames.now tys)) }
    {
        let Some(own) = place_in(places, frames.at) else {
            return Err(Memory);
        };
        self.desk.give_back_all(&mut self.listed);
        self.values.clear();
        frames.locals(own.types, &mut self.values)?;
        let answer = section_of_loop(
            &mut self.desk,
            alloc,
            coded,
            laid,
            own.place,
            heap,
            frames.this(),
            &mut self.values,
            own.types,
            own.line,
            own.s,
            frames.left(),
            &mut self.listed,
        )?;
        Ok(answer)
    }

    /// Lists the first calls of the loop that begins where the machine stands, those that it comes to within so many steps, in place of
    /// what was listed before. Whether they are all.
    fn fill_first<'a>(
        &mut self,
        alloc: Global,
        laid: &Laid<'a>,
        places: &[LoopPlace<'a>],
        heap: &Heap,
        frames: &Frames,
        steps: u64,
    ) -> Result<bool, Memory>
        requires runs { Runs (code_seen laid.now.code) laid.now.code.rows.items laid.now.ops.items }
    {
        let Some(own) = place_in(places, frames.at) else {
            return Err(Memory);
        };
        self.desk.give_back_all(&mut self.listed);
        self.values.clear();
        frames.locals(own.types, &mut self.values)?;
        first_of_loop(
            &mut self.desk,
            alloc,
            laid,
            own.place,
            heap,
            frames.this(),
            self.values.as_slice(),
            own.types,
            steps,
            &mut self.listed,
        )
    }
}

/// The place of the code of the loop that is handed on here. Loops stand in the order in which they are handed on.
fn place_in<'a>(places: &[LoopPlace<'a>], at: usize) -> Option<LoopPlace<'a>>
    ensures at { IfSome result (λ l. l.at ≡ at) }
    ensures stands { IfSome result (λ l. (p : PlainProgram) (c : Code) → AllStand p c places.now → StandsAlone p c l) }
{
    let mut low = 0;
    let mut high = places.len();
    'halving: while low < high {
        let middle = low + (high - low) / 2;
        if places[middle].at < at {
            low = middle + 1;
        } else {
            high = middle;
        }
    }
    if low < places.len() {
        let own = places[low];
        if own.at == at {
            return Some(own);
        }
    }
    None
}

/// The mark of a loop.
fn mark_of(s: &Stmt) -> Option<Mark> {
    match &s.kind {
        StmtForm::For(site, _, _, _, _, _) => Some(Mark::Loop(*site)),
        _ => None,
    }
}

/// Whether an engine gains nothing where it is handed the calls of a loop that begins, as it says itself by the first of them. Nothing is
/// handed by this.
pub(crate) fn lets_go<'a, E: Extents>(
    alloc: Global,
    coded: &Coded<'_>,
    laid: &Laid<'a>,
    places: &[LoopPlace<'a>],
    heap: &Heap,
    frames: &Frames,
    lists: &mut Lists,
    s: &Stmt,
    engine: &mut E,
) -> bool
    requires runs { Runs (code_seen laid.now.code) laid.now.code.rows.items laid.now.ops.items }
    ensures account { E.account engine.new ≡ E.account engine.old }
{
    let Some(mark) = mark_of(s) else {
        return false;
    };
    let all = frames.left();
    let steps = engine.first_steps(mark);
    if steps >= all || !puts_nothing(s) {
        return false;
    }
    match lists.fill_first(alloc, laid, places, heap, frames, steps) {
        Ok(false) => {
            let gains = engine.gains(coded, heap, lists.listed.as_slice(), all);
            !gains
        }
        _ => false,
    }
}

/// Goes past a loop that begins, by an engine that runs the calls that it lists; where they can't be listed or the engine declines, into
/// the loop, which hands nothing off within.
pub(crate) fn list_on<'a, R: Threads + Wait + Sync, E: Extents>(
    rt: &R,
    alloc: Global,
    coded: &Coded<'_>,
    laid: &Laid<'a>,
    places: &[LoopPlace<'a>],
    run: &mut InRun<'a>,
    frames: &mut Frames,
    lists: &mut Lists,
    count: u32,
    line: u32,
    s: &'a Stmt,
    types: &[ValueType],
    engine: &mut E,
) -> Result<(), Memory>
    requires ready { E.ready }
    requires program { ProgramTyped (program_view coded.now) }
    requires loops { HasLoops (program_view coded.now) laid.now places.now }
    requires begins { BeginsAt (code_seen laid.now.code) frames.old count line (statement_view s.now) types.now }
    requires handed { (n : Note) → Contains (begun_notes (program_view coded.now) run.old.heap frames.old types.now line (statement_view s.now)) n → NoteGood (program_view coded.now) n × (E.serves ≡ true) }
    ensures past { GoesPast E.Accounts (program_view coded.now) (begun_notes (program_view coded.now) run.old.heap frames.old types.now line (statement_view s.now)) frames.old run.old.heap count line (statement_view s.now) types.now result (E.account engine.old) (E.account engine.new) frames.new run.new.heap }
    ensures program { run.new.program ≡ run.old.program }
{
    if !puts_nothing(s) {
        return go_in(frames);
    }
    let answer = lists.fill(alloc, coded, laid, places, &run.heap, frames)?;
    match answer {
        SectionAnswer::Done { steps } => {
            run_listed(
                rt, coded, run, frames, lists, count, line, s, types, steps, engine,
            )
        }
        SectionAnswer::Trapped(_) => go_in(frames),
        SectionAnswer::Spent => go_in(frames),
    }
}

/// Goes into a loop that begins.
fn go_in(frames: &mut Frames) -> Result<(), Memory>
    ensures { IfOk result (λ _. frames.new ≡ record frames.old { at = frames.old.at + 1; left = frames.old.left }) }
{
    let left = frames.left();
    frames.pass(left)
}

/// Hands the calls of a loop that are listed to an engine. The listing took so many steps.
fn run_listed<'a, R: Threads + Wait + Sync, E: Extents>(
    rt: &R,
    coded: &Coded<'_>,
    run: &mut InRun<'a>,
    frames: &mut Frames,
    lists: &Lists,
    count: u32,
    line: u32,
    s: &'a Stmt,
    types: &[ValueType],
    taken: u64,
    engine: &mut E,
) -> Result<(), Memory>
    requires ready { E.ready }
    requires program { ProgramTyped (program_view coded.now) }
    requires nothing { puts_nothing (statement_view s.now) ≡ true }
    requires handed { (n : Note) → Contains (notes_of run.old.heap frames.old.left (section_at (program_view coded.now) run.old.heap frames.old types.now line (statement_view s.now))) n → NoteGood (program_view coded.now) n × (E.serves ≡ true) }
    requires listed { LoopIs (Done taken) (section_at (program_view coded.now) run.old.heap frames.old types.now line (statement_view s.now)) [] lists.now.listed.items }
    requires locals { lists.now.values.items ≡ locals_after (section_at (program_view coded.now) run.old.heap frames.old types.now line (statement_view s.now)) (locals_at frames.old types.now) }
    ensures past { GoesPast E.Accounts (program_view coded.now) (notes_of run.old.heap frames.old.left (section_at (program_view coded.now) run.old.heap frames.old types.now line (statement_view s.now))) frames.old run.old.heap count line (statement_view s.now) types.now result (E.account engine.old) (E.account engine.new) frames.new run.new.heap }
    ensures program { run.new.program ≡ run.old.program }
{
    let rest = frames.left().saturating_sub(taken);
    let listed = lists.listed.as_slice();
    let answer = ask(rt, coded, &mut run.heap, listed, rest, engine)?;
    match answer {
        Some(left) => {
            frames.put_locals(types, lists.values.as_slice())?;
            frames.jump(count, left)
        }
        None => go_in(frames),
    }
}
