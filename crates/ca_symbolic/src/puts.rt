//! Puts to locals, to fields and to items of arrays.

ghost use Rattle.std.specs.Prelude.{◌≡◌, ◌||◌, [], ◌∷◌, ◌++◌, false, true, IfOk, OnOk};
ghost use Rattle.ca_tree.specs.declared.tree.AssignOp.TheVariants as assign;
ghost use Rattle.ca_program.specs.Plain.{binary};
ghost use Rattle.ca_program.specs.View.{expression_view, program_view};
ghost use Rattle.ca_norm.specs.Terms.{PlainTerm, select, put, fold};
ghost use Rattle.ca_symbolic.specs.States.{term_at, demand, in_range};
ghost use Rattle.ca_symbolic.specs.Execution.{put_term, is_item, put_right, array_term, with_field, with_local, term_of};
ghost use Rattle.ca_symbolic.specs.Demands.{demands_in};
ghost use Rattle.ca_symbolic.specs.Demanded.{with_demands};
ghost use Rattle.ca_symbolic.specs.clauses.Refusals.{refused, refused_item, is_own_item, with_put, refused_fold, refused_put, refused_value, put_sum, refused_sum, refused_right, refused_array};
ghost use Rattle.ca_shared_terms.specs.Heavy.{is_heavy};

use crate::carried::{leaf, together};
use crate::demand::Demands;
use crate::evaluate::{ask_in_range, value_of};
use crate::same::same_expression;
use crate::state::SymState;
use ca_folds::FoldOp;
use ca_forms::parts::both;
use ca_program::{AssignOp, BinaryOp, Expr, FieldId, LocalId, Program};
use ca_shared_terms::{ExecutionError, LightTerm};
use std::alloc::Global;

/// What a put leaves, from what was there before.
fn put_term(
    alloc: Global,
    op: AssignOp,
    old: LightTerm,
    value: LightTerm,
) -> Result<LightTerm, ExecutionError>
    ensures made { IfOk result (λ t. t ≡ put_term op old value) }
    ensures light { IfOk result (λ _. is_heavy (put_term op old value) ≡ false) }
    ensures large { result ≡ Err ExecutionError.Large → is_heavy (put_term op old value) ≡ true }
{
    match op {
        AssignOp::Put => Ok(value),
        AssignOp::Add => LightTerm::plus(alloc, old, value),
        AssignOp::Sub => LightTerm::minus(alloc, old, value),
        AssignOp::Mul => LightTerm::times(alloc, old, value),
        AssignOp::BitAnd => LightTerm::folded(alloc, FoldOp::BitAnd, old, value),
        AssignOp::BitOr => LightTerm::folded(alloc, FoldOp::BitOr, old, value),
        AssignOp::BitXor => LightTerm::folded(alloc, FoldOp::BitXor, old, value),
    }
}

fn put_local_term(
    alloc: Global,
    id: LocalId,
    op: AssignOp,
    value: LightTerm,
    state: &mut SymState,
) -> Result<(), ExecutionError>
    ensures after { OnOk result (state.new ≡ with_local state.old id.0 (put_term op (term_at state.old.locals id.0) value)) }
    ensures light { OnOk result (is_heavy (put_term op (term_at state.old.locals id.0) value) ≡ false) }
    ensures large { result ≡ Err ExecutionError.Large → is_heavy (put_term op (term_at state.old.locals id.0) value) ≡ true }
{
    let operands = together(value, leaf(state.local(alloc, id.0)))?;
    let term = put_term(alloc, op, operands.1, operands.0)?;
    state.put_local(id.0, term);
    Ok(())
}

fn put_field_term(
    alloc: Global,
    id: FieldId,
    op: AssignOp,
    value: LightTerm,
    state: &mut SymState,
) -> Result<(), ExecutionError>
    ensures after { OnOk result (state.new ≡ with_field state.old id.field (put_term op (term_at state.old.fields id.field) value)) }
    ensures light { OnOk result (is_heavy (put_term op (term_at state.old.fields id.field) value) ≡ false) }
    ensures large { result ≡ Err ExecutionError.Large → is_heavy (put_term op (term_at state.old.fields id.field) value) ≡ true }
{
    let operands = together(value, leaf(state.field(alloc, id.field)))?;
    let term = put_term(alloc, op, operands.1, operands.0)?;
    state.put_field(id.field, term);
    Ok(())
}

/// A put to a local.
pub(crate) fn put_local(
    alloc: Global,
    program: &Program,
    id: LocalId,
    op: AssignOp,
    e: &Expr,
    state: &mut SymState,
    out: &mut Demands,
) -> Result<(), ExecutionError>
    ensures after { OnOk result (state.new ≡ with_local state.old id.0 (put_term op (term_at state.old.locals id.0) (term_of (program_view program.now) state.old (expression_view e.now)))) }
    ensures demands { OnOk result (out.new ≡ with_demands out.old (demands_in (program_view program.now) state.old out.old.guard (expression_view e.now))) }
    ensures light { OnOk result ((refused (program_view program.now) state.old out.old.guard (expression_view e.now) || is_heavy (put_term op (term_at state.old.locals id.0) (term_of (program_view program.now) state.old (expression_view e.now)))) ≡ false) }
    ensures large { result ≡ Err ExecutionError.Large → (refused (program_view program.now) state.old out.old.guard (expression_view e.now) || is_heavy (put_term op (term_at state.old.locals id.0) (term_of (program_view program.now) state.old (expression_view e.now)))) ≡ true }
{
    let value = value_of(alloc, program, state, e, out)?;
    put_local_term(alloc, id, op, value, state)
}

/// A put to a field.
pub(crate) fn put_field(
    alloc: Global,
    program: &Program,
    id: FieldId,
    op: AssignOp,
    e: &Expr,
    state: &mut SymState,
    out: &mut Demands,
) -> Result<(), ExecutionError>
    ensures after { OnOk result (state.new ≡ with_field state.old id.field (put_term op (term_at state.old.fields id.field) (term_of (program_view program.now) state.old (expression_view e.now)))) }
    ensures demands { OnOk result (out.new ≡ with_demands out.old (demands_in (program_view program.now) state.old out.old.guard (expression_view e.now))) }
    ensures light { OnOk result ((refused (program_view program.now) state.old out.old.guard (expression_view e.now) || is_heavy (put_term op (term_at state.old.fields id.field) (term_of (program_view program.now) state.old (expression_view e.now)))) ≡ false) }
    ensures large { result ≡ Err ExecutionError.Large → (refused (program_view program.now) state.old out.old.guard (expression_view e.now) || is_heavy (put_term op (term_at state.old.fields id.field) (term_of (program_view program.now) state.old (expression_view e.now)))) ≡ true }
{
    let value = value_of(alloc, program, state, e, out)?;
    put_field_term(alloc, id, op, value, state)
}

/// Whether an expression is the item of the field at the index, written alike.
fn is_item(field: FieldId, index: &Expr, e: &Expr) -> bool
    ensures { result ≡ is_item field (expression_view index.now) (expression_view e.now) }
{
    match e {
        Expr::OwnItem(other, i) => field.same(*other) && same_expression(index, i),
        _ => false,
    }
}

/// Looks an item up that isn't made: what it demands alone.
#[tactic(auto, using(crate::proofs::Flags::neither, crate::proofs::Flags::first_of, crate::proofs::Flags::second_of))]
fn look_at_item(
    alloc: Global,
    program: &Program,
    state: &SymState,
    e: &Expr,
    out: &mut Demands,
) -> Result<(), ExecutionError>
    requires item { is_own_item (expression_view e.now) ≡ true }
    ensures demands { OnOk result (out.new ≡ with_demands out.old (demands_in (program_view program.now) state.now out.old.guard (expression_view e.now))) }
    ensures light { OnOk result (refused_item (program_view program.now) state.now out.old.guard (expression_view e.now) ≡ false) }
    ensures large { result ≡ Err ExecutionError.Large → refused_item (program_view program.now) state.now out.old.guard (expression_view e.now) ≡ true }
{
    match e {
        Expr::OwnItem(field, i) => {
            let index = value_of(alloc, program, state, i, out)?;
            leaf(ask_in_range(alloc, *field, &index, out))
        }
        _ => Ok(()),
    }
}

/// The array with the negative of an addend at an index.
#[tactic(auto, using(crate::proofs::Flags::neither, crate::proofs::Flags::first_of, crate::proofs::Flags::second_of))]
fn with_negative(
    alloc: Global,
    array: LightTerm,
    index: LightTerm,
    value: LightTerm,
) -> Result<LightTerm, ExecutionError>
    ensures made { IfOk result (λ t. t ≡ with_put assign.Sub array index value) }
    ensures light { OnOk result (refused_put assign.Sub array index value ≡ false) }
    ensures large { result ≡ Err ExecutionError.Large → refused_put assign.Sub array index value ≡ true }
{
    let addend = value.negated(alloc)?;
    array.with_addend(alloc, index, addend)
}

/// The array with an item several times as large at an index.
#[tactic(auto, using(crate::proofs::Flags::neither, crate::proofs::Flags::first_of, crate::proofs::Flags::second_of))]
fn with_product(
    alloc: Global,
    array: LightTerm,
    index: LightTerm,
    value: LightTerm,
) -> Result<LightTerm, ExecutionError>
    ensures made { IfOk result (λ t. t ≡ with_put assign.Mul array index value) }
    ensures light { OnOk result (refused_put assign.Mul array index value ≡ false) }
    ensures large { result ≡ Err ExecutionError.Large → refused_put assign.Mul array index value ≡ true }
{
    let (old, place) = both(array.share(), index.share())?;
    let item = old.item(alloc, place)?;
    let product = LightTerm::times(alloc, item, value)?;
    array.with_item(alloc, index, product)
}

/// The array with what an operator makes of its item and of a value at an index.
#[tactic(auto, using(crate::proofs::Flags::neither, crate::proofs::Flags::first_of, crate::proofs::Flags::second_of))]
fn with_fold(
    alloc: Global,
    operator: FoldOp,
    array: LightTerm,
    index: LightTerm,
    value: LightTerm,
) -> Result<LightTerm, ExecutionError>
    ensures made { IfOk result (λ t. t ≡ put array index (fold operator (select array index) value)) }
    ensures light { OnOk result (refused_fold operator array index value ≡ false) }
    ensures large { result ≡ Err ExecutionError.Large → refused_fold operator array index value ≡ true }
{
    let (old, place) = both(array.share(), index.share())?;
    let item = old.item(alloc, place)?;
    let joined = LightTerm::folded(alloc, operator, item, value)?;
    array.with_item(alloc, index, joined)
}

/// The array with a put of a value done to its item at an index.
fn with_put(
    alloc: Global,
    op: AssignOp,
    array: LightTerm,
    index: LightTerm,
    value: LightTerm,
) -> Result<LightTerm, ExecutionError>
    ensures made { IfOk result (λ t. t ≡ with_put op array index value) }
    ensures light { OnOk result (refused_put op array index value ≡ false) }
    ensures large { result ≡ Err ExecutionError.Large → refused_put op array index value ≡ true }
{
    match op {
        AssignOp::Put => array.with_item(alloc, index, value),
        AssignOp::Add => array.with_addend(alloc, index, value),
        AssignOp::Sub => with_negative(alloc, array, index, value),
        AssignOp::Mul => with_product(alloc, array, index, value),
        AssignOp::BitAnd => with_fold(alloc, FoldOp::BitAnd, array, index, value),
        AssignOp::BitOr => with_fold(alloc, FoldOp::BitOr, array, index, value),
        AssignOp::BitXor => with_fold(alloc, FoldOp::BitXor, array, index, value),
    }
}

/// The array of a field with a put of an expression done to its item at an index.
#[tactic(auto, using(crate::proofs::Flags::neither, crate::proofs::Flags::first_of, crate::proofs::Flags::second_of))]
fn with_value(
    alloc: Global,
    program: &Program,
    state: &SymState,
    field: FieldId,
    op: AssignOp,
    index: LightTerm,
    e: &Expr,
    out: &mut Demands,
) -> Result<LightTerm, ExecutionError>
    ensures made { IfOk result (λ t. t ≡ with_put op (term_at state.now.fields field.field) index (term_of (program_view program.now) state.now (expression_view e.now))) }
    ensures demands { OnOk result (out.new ≡ with_demands out.old (demands_in (program_view program.now) state.now out.old.guard (expression_view e.now))) }
    ensures light { OnOk result (refused_value (program_view program.now) state.now out.old.guard field op index (expression_view e.now) ≡ false) }
    ensures large { result ≡ Err ExecutionError.Large → refused_value (program_view program.now) state.now out.old.guard field op index (expression_view e.now) ≡ true }
{
    let kept = together(index, leaf(state.field(alloc, field.field)))?;
    let parts = together(kept, value_of(alloc, program, state, e, out))?;
    with_put(alloc, op, parts.0.1, parts.0.0, parts.1)
}

/// The array behind `a[i] = l op r`, which is `a[i] op= r` where the left side is that item.
#[tactic(auto, using(crate::proofs::Flags::neither, crate::proofs::Flags::first_of, crate::proofs::Flags::second_of))]
fn put_sum(
    alloc: Global,
    program: &Program,
    state: &SymState,
    field: FieldId,
    i: &Expr,
    op: AssignOp,
    index: LightTerm,
    left: &Expr,
    right: &Expr,
    e: &Expr,
    out: &mut Demands,
) -> Result<LightTerm, ExecutionError>
    requires whole { (g : PlainTerm) → demands_in (program_view program.now) state.now g (expression_view e.now) ≡ demands_in (program_view program.now) state.now g (expression_view left.now) ++ demands_in (program_view program.now) state.now g (expression_view right.now) }
    ensures made { IfOk result (λ t. t ≡ put_sum (program_view program.now) state.now field (expression_view i.now) op index (expression_view left.now) (expression_view right.now) (expression_view e.now)) }
    ensures demands { OnOk result (out.new ≡ with_demands out.old (demands_in (program_view program.now) state.now out.old.guard (expression_view e.now))) }
    ensures light { OnOk result (refused_sum (program_view program.now) state.now out.old.guard field (expression_view i.now) op index (expression_view left.now) (expression_view right.now) (expression_view e.now) ≡ false) }
    ensures large { result ≡ Err ExecutionError.Large → refused_sum (program_view program.now) state.now out.old.guard field (expression_view i.now) op index (expression_view left.now) (expression_view right.now) (expression_view e.now) ≡ true }
{
    if is_item(field, i, left) {
        let seen = look_at_item(alloc, program, state, left, out);
        let kept = together(index, seen)?;
        with_value(alloc, program, state, field, op, kept.0, right, out)
    } else {
        with_value(alloc, program, state, field, AssignOp::Put, index, e, out)
    }
}

/// The array behind a put of an operator's value to an item.
fn put_operation(
    alloc: Global,
    program: &Program,
    state: &SymState,
    field: FieldId,
    i: &Expr,
    index: LightTerm,
    op: BinaryOp,
    a: &Expr,
    b: &Expr,
    e: &Expr,
    out: &mut Demands,
) -> Result<LightTerm, ExecutionError>
    requires index { index ≡ term_of (program_view program.now) state.now (expression_view i.now) }
    requires whole { expression_view e.now ≡ binary op (expression_view a.now) (expression_view b.now) }
    ensures made { IfOk result (λ t. t ≡ put_right (program_view program.now) state.now field (expression_view i.now) (expression_view e.now)) }
    ensures demands { OnOk result (out.new ≡ with_demands out.old (demands_in (program_view program.now) state.now out.old.guard (expression_view e.now))) }
    ensures light { OnOk result (refused_right (program_view program.now) state.now out.old.guard field (expression_view i.now) (expression_view e.now) ≡ false) }
    ensures large { result ≡ Err ExecutionError.Large → refused_right (program_view program.now) state.now out.old.guard field (expression_view i.now) (expression_view e.now) ≡ true }
{
    match op {
        BinaryOp::Plus => {
            put_sum(
                alloc,
                program,
                state,
                field,
                i,
                AssignOp::Add,
                index,
                a,
                b,
                e,
                out,
            )
        }
        BinaryOp::Minus => {
            put_sum(
                alloc,
                program,
                state,
                field,
                i,
                AssignOp::Sub,
                index,
                a,
                b,
                e,
                out,
            )
        }
        _ => with_value(alloc, program, state, field, AssignOp::Put, index, e, out),
    }
}

/// The array behind a put of a value to an item.
fn put_right(
    alloc: Global,
    program: &Program,
    state: &SymState,
    field: FieldId,
    i: &Expr,
    index: LightTerm,
    e: &Expr,
    out: &mut Demands,
) -> Result<LightTerm, ExecutionError>
    requires index { index ≡ term_of (program_view program.now) state.now (expression_view i.now) }
    ensures made { IfOk result (λ t. t ≡ put_right (program_view program.now) state.now field (expression_view i.now) (expression_view e.now)) }
    ensures demands { OnOk result (out.new ≡ with_demands out.old (demands_in (program_view program.now) state.now out.old.guard (expression_view e.now))) }
    ensures light { OnOk result ((refused_right (program_view program.now) state.now out.old.guard field (expression_view i.now) (expression_view e.now)) ≡ false) }
    ensures large { result ≡ Err ExecutionError.Large → (refused_right (program_view program.now) state.now out.old.guard field (expression_view i.now) (expression_view e.now)) ≡ true }
{
    match e {
        Expr::Binary(op, a, b) => {
            put_operation(alloc, program, state, field, i, index, *op, a, b, e, out)
        }
        _ => with_value(alloc, program, state, field, AssignOp::Put, index, e, out),
    }
}

/// The array behind a put to one of its items.
fn array_term(
    alloc: Global,
    program: &Program,
    state: &SymState,
    field: FieldId,
    op: AssignOp,
    i: &Expr,
    index: LightTerm,
    e: &Expr,
    out: &mut Demands,
) -> Result<LightTerm, ExecutionError>
    requires index { index ≡ term_of (program_view program.now) state.now (expression_view i.now) }
    ensures made { IfOk result (λ t. t ≡ array_term (program_view program.now) state.now field (expression_view i.now) op (expression_view e.now)) }
    ensures demands { OnOk result (out.new ≡ with_demands out.old (demands_in (program_view program.now) state.now out.old.guard (expression_view e.now))) }
    ensures light { OnOk result ((refused_array (program_view program.now) state.now out.old.guard field (expression_view i.now) op (expression_view e.now)) ≡ false) }
    ensures large { result ≡ Err ExecutionError.Large → (refused_array (program_view program.now) state.now out.old.guard field (expression_view i.now) op (expression_view e.now)) ≡ true }
{
    match op {
        AssignOp::Put => put_right(alloc, program, state, field, i, index, e, out),
        _ => with_value(alloc, program, state, field, op, index, e, out),
    }
}

/// A put to an item.
#[tactic(auto, using(crate::proofs::Flags::neither, crate::proofs::Flags::first_of, crate::proofs::Flags::second_of))]
pub(crate) fn put_item(
    alloc: Global,
    program: &Program,
    field: FieldId,
    i: &Expr,
    op: AssignOp,
    e: &Expr,
    state: &mut SymState,
    out: &mut Demands,
) -> Result<(), ExecutionError>
    ensures after { OnOk result (state.new ≡ with_field state.old field.field (array_term (program_view program.now) state.old field (expression_view i.now) op (expression_view e.now))) }
    ensures demands { OnOk result (out.new ≡ with_demands out.old (demands_in (program_view program.now) state.old out.old.guard (expression_view i.now) ++ (demand out.old.guard (in_range field) (term_of (program_view program.now) state.old (expression_view i.now) ∷ []) ∷ demands_in (program_view program.now) state.old out.old.guard (expression_view e.now)))) }
    ensures light { OnOk result ((refused (program_view program.now) state.old out.old.guard (expression_view i.now) || refused_array (program_view program.now) state.old out.old.guard field (expression_view i.now) op (expression_view e.now)) ≡ false) }
    ensures large { result ≡ Err ExecutionError.Large → (refused (program_view program.now) state.old out.old.guard (expression_view i.now) || refused_array (program_view program.now) state.old out.old.guard field (expression_view i.now) op (expression_view e.now)) ≡ true }
{
    let index = value_of(alloc, program, state, i, out)?;
    ask_in_range(alloc, field, &index, out)?;
    let term = array_term(alloc, program, state, field, op, i, index, e, out)?;
    state.put_field(field.field, term);
    Ok(())
}
