//! From statements and a state of terms to the state behind them: `after` of `specs/Execution.antt`, and `demanded` of
//! `Demands.antt`.

ghost use Rattle.std.specs.Prelude.{◌≡◌, ◌≢◌, ◌<◌, ◌||◌, ◌&&◌, [], ◌∷◌, ◌++◌, length, min, false, true, IfOk, OnOk};
ghost use Rattle.std.specs.List.{list_any};
ghost use Rattle.ca_program.specs.View.{expression_view, expressions_view, statement_view, statements_view, program_view};
ghost use Rattle.ca_norm.specs.Terms.{not};
ghost use Rattle.ca_meaning.specs.Operators.{not_of};
ghost use Rattle.ca_symbolic.specs.States.{demand, not_null, invokes, loops};
ghost use Rattle.ca_sweep.specs.Found.{sweep_at};
ghost use Rattle.ca_symbolic.specs.Execution.{choose_if, choices, field_target, local_target, joined_state, term_of, after_loop, after, after_all};
ghost use Rattle.ca_symbolic.specs.Demands.{then_guard, else_guard, is_counter, picked, loop_reads, terms_in, demands_in, demands_in_all, demanded_loop, demanded, demanded_all};
ghost use Rattle.ca_symbolic.specs.Made.{targets, joined_terms};
ghost use Rattle.ca_symbolic.specs.Demanded.{with_demands, under};
ghost use Rattle.ca_symbolic.specs.clauses.Places.{is_marked, is_read, one_if};
ghost use Rattle.ca_symbolic.specs.clauses.Refusals.{refused, refused_all, refused_loop, refused_by, refused_by_all};
ghost use Rattle.ca_shared_terms.specs.Heavy.{is_heavy};

use crate::carried::{leaf, together};
use crate::demand::{DemandKind, Demands};
use crate::evaluate::{ask_call, enter, enter_opposite, value_of, values_of};
use crate::places::{mark_fields, mark_locals, mark_named, unmarked};
use crate::puts::{put_field, put_item, put_local};
use crate::state::SymState;
use crate::sweeps::sweep;
use ca_forms::parts::{add, both};
use ca_program::{Expr, LoopId, OpId, Program, Stmt, StmtForm};
use ca_shared_terms::{ExecutionError, LightTerm};
use ca_sweep::sweep_at;
use std::alloc::{AllocError, Global};
use std::mem;

/// A call of an operation.
#[tactic(auto, using(crate::proofs::Flags::neither, crate::proofs::Flags::first_of, crate::proofs::Flags::second_of))]
fn invoke(
    alloc: Global,
    program: &Program,
    state: &SymState,
    e: &Expr,
    op: OpId,
    args: &[Expr],
    out: &mut Demands,
) -> Result<(), ExecutionError>
    ensures demands { OnOk result (out.new ≡ with_demands out.old (demands_in (program_view program.now) state.now out.old.guard (expression_view e.now) ++ (demands_in_all (program_view program.now) state.now out.old.guard (expressions_view args.now) ++ (demand out.old.guard not_null (term_of (program_view program.now) state.now (expression_view e.now) ∷ []) ∷ demand out.old.guard (invokes op) (term_of (program_view program.now) state.now (expression_view e.now) ∷ terms_in (program_view program.now) state.now (expressions_view args.now)) ∷ [])))) }
    ensures light { OnOk result ((refused (program_view program.now) state.now out.old.guard (expression_view e.now) || refused_all (program_view program.now) state.now out.old.guard (expressions_view args.now)) ≡ false) }
    ensures large { result ≡ Err ExecutionError.Large → (refused (program_view program.now) state.now out.old.guard (expression_view e.now) || refused_all (program_view program.now) state.now out.old.guard (expressions_view args.now)) ≡ true }
{
    let object = value_of(alloc, program, state, e, out)?;
    let parts = together(object, values_of(alloc, program, state, args, out))?;
    leaf(ask_call(alloc, DemandKind::Invokes(op), &parts.0, &parts.1, out))
}

/// Whether the first part of a `for` puts this local.
fn is_counter(first: &Stmt, number: usize) -> bool
    ensures { result ≡ is_counter (statement_view first.now) number }
{
    match &first.kind {
        StmtForm::PutLocal(id, _, _) => id.0 as usize == number,
        _ => false,
    }
}

/// Whether a place is marked.
fn is_marked(marks: &[bool], place: usize) -> bool
    requires { place < length marks.now }
    ensures { result ≡ is_marked marks.now place }
{
    marks[place]
}

/// Whether a loop reads a local that it names, its first part being this.
fn is_read(first: &Stmt, number: usize, is_named: bool) -> bool
    ensures { result ≡ (not_of (is_counter (statement_view first.now) number) && is_named) }
{
    !is_counter(first, number) && is_named
}

/// One more term, where it is read.
fn add_if(is_added: bool, term: &LightTerm, out: &mut Vec<LightTerm>) -> Result<(), AllocError>
    ensures added { OnOk result (out.new.items ≡ out.old.items ++ one_if is_added term.now) }
    ensures light { list_any is_heavy out.old.items ≡ false → OnOk result (list_any is_heavy out.new.items ≡ false) }
{
    if is_added {
        add(out, term.share())
    } else {
        Ok(())
    }
}

/// What the locals hold that a loop reads, but for the one that its first part puts.
fn loop_parts(
    alloc: Global,
    s: &Stmt,
    first: &Stmt,
    locals: &[LightTerm],
) -> Result<Vec<LightTerm>, AllocError>
    ensures parts { IfOk result (λ v. v.items ≡ picked (is_read (statement_view s.now) (statement_view first.now)) 0 locals.now) }
    ensures light { IfOk result (λ v. list_any is_heavy v.items ≡ false) }
{
    let mut marks = unmarked(alloc, locals.len())?;
    mark_named(s, &mut marks);
    let mut parts = Vec::new(alloc);
    for place in 0..locals.len() {
        let local = &locals[place];
        let is_added = is_read(first, place, is_marked(&marks, place));
        add_if(is_added, local, &mut parts)?;
    }
    Ok(parts)
}

/// A term behind two branches, where it is a target of them or not.
fn chosen(
    alloc: Global,
    is_target: bool,
    condition: &LightTerm,
    yes: &LightTerm,
    no: &LightTerm,
) -> Result<LightTerm, ExecutionError>
    ensures made { IfOk result (λ t. t ≡ choose_if is_target condition.now yes.now no.now) }
    ensures light { IfOk result (λ t. is_target ≡ true → is_heavy t ≡ false) }
    ensures large { result ≡ Err ExecutionError.Large → (is_target ≡ true) × (is_heavy (choose_if is_target condition.now yes.now no.now) ≡ true) }
{
    if is_target {
        let sides = both(yes.share(), no.share());
        let (condition, (yes, no)) = both(condition.share(), sides)?;
        LightTerm::choice(alloc, condition, yes, no)
    } else {
        leaf(yes.share())
    }
}

/// The terms behind two branches, whose targets are marked.
#[tactic(auto, using(crate::proofs::Joining::joined_step, crate::proofs::Joining::joined_light, crate::proofs::Joining::joined_heavy, crate::proofs::Joining::joined_end))]
fn join_terms(
    alloc: Global,
    condition: &LightTerm,
    marks: &[bool],
    first: &[LightTerm],
    second: &[LightTerm],
) -> Result<Vec<LightTerm>, ExecutionError>
    requires long { length marks.now ≡ min (length first.now) (length second.now) }
    ensures made { IfOk result (λ v. v.items ≡ choices (is_marked marks.now) 0 condition.now first.now second.now) }
    ensures light { IfOk result (λ v. list_any is_heavy (targets (is_marked marks.now) 0 v.items) ≡ false) }
    ensures large { result ≡ Err ExecutionError.Large → list_any is_heavy (targets (is_marked marks.now) 0 (choices (is_marked marks.now) 0 condition.now first.now second.now)) ≡ true }
{
    let mut terms = Vec::new(alloc);
    for place in 0..marks.len() {
        let yes = &first[place];
        let no = &second[place];
        let is_target = is_marked(marks, place);
        let term = chosen(alloc, is_target, condition, yes, no)?;
        terms.push(term)?;
    }
    Ok(terms)
}

/// The fields behind two branches.
fn join_fields(
    alloc: Global,
    condition: &LightTerm,
    yes: &Stmt,
    no: &Stmt,
    first: &[LightTerm],
    second: &[LightTerm],
) -> Result<Vec<LightTerm>, ExecutionError>
    ensures made { IfOk result (λ v. v.items ≡ choices (field_target (statement_view yes.now) (statement_view no.now)) 0 condition.now first.now second.now) }
    ensures light { IfOk result (λ v. list_any is_heavy (targets (field_target (statement_view yes.now) (statement_view no.now)) 0 v.items) ≡ false) }
    ensures large { result ≡ Err ExecutionError.Large → list_any is_heavy (targets (field_target (statement_view yes.now) (statement_view no.now)) 0 (choices (field_target (statement_view yes.now) (statement_view no.now)) 0 condition.now first.now second.now)) ≡ true }
{
    let mut marks = unmarked(alloc, first.len().min(second.len()))?;
    mark_fields(yes, &mut marks);
    mark_fields(no, &mut marks);
    join_terms(alloc, condition, &marks, first, second)
}

/// The locals behind two branches.
fn join_locals(
    alloc: Global,
    condition: &LightTerm,
    yes: &Stmt,
    no: &Stmt,
    first: &[LightTerm],
    second: &[LightTerm],
) -> Result<Vec<LightTerm>, ExecutionError>
    ensures made { IfOk result (λ v. v.items ≡ choices (local_target (statement_view yes.now) (statement_view no.now)) 0 condition.now first.now second.now) }
    ensures light { IfOk result (λ v. list_any is_heavy (targets (local_target (statement_view yes.now) (statement_view no.now)) 0 v.items) ≡ false) }
    ensures large { result ≡ Err ExecutionError.Large → list_any is_heavy (targets (local_target (statement_view yes.now) (statement_view no.now)) 0 (choices (local_target (statement_view yes.now) (statement_view no.now)) 0 condition.now first.now second.now)) ≡ true }
{
    let mut marks = unmarked(alloc, first.len().min(second.len()))?;
    mark_locals(yes, &mut marks);
    mark_locals(no, &mut marks);
    join_terms(alloc, condition, &marks, first, second)
}

/// The state behind two branches, from the states that each of them leaves.
#[tactic(auto, using(crate::proofs::Told::joins_lightly, crate::proofs::Told::heavy_field, crate::proofs::Told::heavy_local))]
fn join(
    alloc: Global,
    condition: &LightTerm,
    yes: &Stmt,
    no: &Stmt,
    first: &SymState,
    second: &SymState,
) -> Result<SymState, ExecutionError>
    ensures made { IfOk result (λ s. s ≡ joined_state condition.now (statement_view yes.now) (statement_view no.now) first.now second.now) }
    ensures light { IfOk result (λ s. list_any is_heavy (joined_terms (statement_view yes.now) (statement_view no.now) s) ≡ false) }
    ensures large { result ≡ Err ExecutionError.Large → list_any is_heavy (joined_terms (statement_view yes.now) (statement_view no.now) (joined_state condition.now (statement_view yes.now) (statement_view no.now) first.now second.now)) ≡ true }
{
    let fields = join_fields(alloc, condition, yes, no, first.fields(), second.fields())?;
    let locals = join_locals(alloc, condition, yes, no, first.locals(), second.locals());
    let (fields, locals) = together(fields, locals)?;
    Ok(SymState::of(fields, locals))
}

/// What is kept while a branch runs: the condition, that under which the `if` stands, and the state of the other branch.
#[derive(Drop)]
struct Fork {
    condition: LightTerm,
    outer: LightTerm,
    other: SymState,
}

/// Begins the first branch.
fn begin_then(
    alloc: Global,
    condition: LightTerm,
    state: &SymState,
    out: &mut Demands,
) -> Result<Fork, ExecutionError>
    ensures fork { IfOk result (λ f. f ≡ record { condition = condition; outer = out.old.guard; other = state.now }) }
    ensures entered { OnOk result (out.new ≡ under out.old (then_guard out.old.guard condition)) }
    ensures light { OnOk result (is_heavy (then_guard out.old.guard condition) ≡ false) }
    ensures large { result ≡ Err ExecutionError.Large → is_heavy (then_guard out.old.guard condition) ≡ true }
{
    let (outer, other) = both(out.guard(), state.copy(alloc))?;
    enter(alloc, &outer, &condition, out)?;
    Ok(Fork {
        condition,
        outer,
        other,
    })
}

/// Begins the second branch. What the first one left is kept.
fn begin_else(
    alloc: Global,
    fork: Fork,
    state: &mut SymState,
    out: &mut Demands,
) -> Result<Fork, ExecutionError>
    ensures fork { IfOk result (λ f. f ≡ record { condition = fork.condition; outer = fork.outer; other = state.old }) }
    ensures state { OnOk result (state.new ≡ fork.other) }
    ensures entered { OnOk result (out.new ≡ under out.old (else_guard fork.outer fork.condition)) }
    ensures light { OnOk result ((is_heavy (not fork.condition) || is_heavy (else_guard fork.outer fork.condition)) ≡ false) }
    ensures large { result ≡ Err ExecutionError.Large → (is_heavy (not fork.condition) || is_heavy (else_guard fork.outer fork.condition)) ≡ true }
{
    let Fork {
        condition,
        outer,
        other,
    } = fork;
    let first = mem::replace(state, other);
    enter_opposite(alloc, &outer, &condition, out)?;
    Ok(Fork {
        condition,
        outer,
        other: first,
    })
}

/// Joins what both branches left.
fn end_if(
    alloc: Global,
    fork: Fork,
    yes: &Stmt,
    no: &Stmt,
    state: &mut SymState,
    out: &mut Demands,
) -> Result<(), ExecutionError>
    ensures joined { OnOk result (state.new ≡ joined_state fork.condition (statement_view yes.now) (statement_view no.now) fork.other state.old) }
    ensures ended { OnOk result (out.new ≡ under out.old fork.outer) }
    ensures light { OnOk result (list_any is_heavy (joined_terms (statement_view yes.now) (statement_view no.now) state.new) ≡ false) }
    ensures large { result ≡ Err ExecutionError.Large → list_any is_heavy (joined_terms (statement_view yes.now) (statement_view no.now) (joined_state fork.condition (statement_view yes.now) (statement_view no.now) fork.other state.old)) ≡ true }
{
    let Fork {
        condition,
        outer,
        other,
    } = fork;
    *state = join(alloc, &condition, yes, no, &other, state)?;
    leaf(out.open(alloc, outer))
}

/// Demands a loop of calls.
fn ask_loop(
    alloc: Global,
    site: LoopId,
    s: &Stmt,
    first: &Stmt,
    state: &SymState,
    out: &mut Demands,
) -> Result<(), ExecutionError>
    ensures demands { OnOk result (out.new ≡ with_demands out.old (demand out.old.guard (loops site) (picked (is_read (statement_view s.now) (statement_view first.now)) 0 state.now.locals) ∷ [])) }
    ensures light { OnOk result (list_any is_heavy (picked (is_read (statement_view s.now) (statement_view first.now)) 0 state.now.locals) ≡ false) }
    ensures small { result ≢ Err ExecutionError.Large }
{
    let parts = loop_parts(alloc, s, first, state.locals())?;
    leaf(out.push(DemandKind::Loops(site), parts))
}

/// Runs a loop: a sweep, or else a loop of calls, which is demanded alone.
fn run_loop(
    alloc: Global,
    program: &Program,
    site: LoopId,
    s: &Stmt,
    first: &Stmt,
    state: &mut SymState,
    out: &mut Demands,
) -> Result<(), ExecutionError>
    requires reads { loop_reads (statement_view s.now) ≡ is_read (statement_view s.now) (statement_view first.now) }
    ensures after { OnOk result (state.new ≡ after_loop (program_view program.now) state.old (sweep_at (statement_view s.now))) }
    ensures demands { OnOk result (out.new ≡ with_demands out.old (demanded_loop (program_view program.now) state.old out.old.guard site (statement_view s.now) (sweep_at (statement_view s.now)))) }
    ensures light { OnOk result (refused_loop (program_view program.now) state.old out.old.guard (statement_view s.now) (sweep_at (statement_view s.now)) ≡ false) }
    ensures large { result ≡ Err ExecutionError.Large → refused_loop (program_view program.now) state.old out.old.guard (statement_view s.now) (sweep_at (statement_view s.now)) ≡ true }
{
    match sweep_at(s) {
        Some(w) => sweep(alloc, program, w, state, out),
        None => ask_loop(alloc, site, s, first, state, out),
    }
}

/// Runs a statement on the state. What it demands comes behind what was demanded before.
#[cycle(run)]
#[tactic(auto, using(crate::proofs::Flags::neither, crate::proofs::Flags::first_of, crate::proofs::Flags::second_of))]
fn run(
    alloc: Global,
    program: &Program,
    s: &Stmt,
    state: &mut SymState,
    out: &mut Demands,
) -> Result<(), ExecutionError>
    ensures after { OnOk result (state.new ≡ after (program_view program.now) state.old (statement_view s.now)) }
    ensures demands { OnOk result (out.new ≡ with_demands out.old (demanded (program_view program.now) state.old out.old.guard (statement_view s.now))) }
    ensures light { OnOk result (refused_by (program_view program.now) state.old out.old.guard (statement_view s.now) ≡ false) }
    ensures large { result ≡ Err ExecutionError.Large → refused_by (program_view program.now) state.old out.old.guard (statement_view s.now) ≡ true }
{
    match &s.kind {
        StmtForm::Block(stmts) => run_all(alloc, program, stmts, state, out),
        StmtForm::PutLocal(id, op, e) => put_local(alloc, program, *id, *op, e, state, out),
        StmtForm::PutField(id, op, e) => put_field(alloc, program, *id, *op, e, state, out),
        StmtForm::PutItem(id, i, op, e) => put_item(alloc, program, *id, i, *op, e, state, out),
        StmtForm::Invoke(e, op, args) => invoke(alloc, program, state, e, *op, args, out),
        StmtForm::If(c, yes, no) => {
            let condition = value_of(alloc, program, state, c, out)?;
            let fork = begin_then(alloc, condition, state, out)?;
            let first = together(fork, run(alloc, program, yes, state, out))?;
            let fork = begin_else(alloc, first.0, state, out)?;
            let second = together(fork, run(alloc, program, no, state, out))?;
            end_if(alloc, second.0, yes, no, state, out)
        }
        StmtForm::For(site, _, first, _, _, _) => run_loop(
            alloc, program, *site, s, first, state, out,
        ),
        _ => Ok(()),
    }
}

/// Runs statements on the state, one behind the other.
#[cycle(run)]
#[tactic(auto, using(crate::proofs::Flags::neither, crate::proofs::Flags::first_of, crate::proofs::Flags::second_of))]
pub fn run_all(
    alloc: Global,
    program: &Program,
    stmts: &[Stmt],
    state: &mut SymState,
    out: &mut Demands,
) -> Result<(), ExecutionError>
    ensures after { OnOk result (state.new ≡ after_all (program_view program.now) state.old (statements_view stmts.now)) }
    ensures demands { OnOk result (out.new ≡ with_demands out.old (demanded_all (program_view program.now) state.old out.old.guard (statements_view stmts.now))) }
    ensures light { OnOk result (refused_by_all (program_view program.now) state.old out.old.guard (statements_view stmts.now) ≡ false) }
    ensures large { result ≡ Err ExecutionError.Large → refused_by_all (program_view program.now) state.old out.old.guard (statements_view stmts.now) ≡ true }
{
    'statements: for s in stmts {
        run(alloc, program, s, state, out)?;
    }
    Ok(())
}
