//! The terms of expressions, and what expressions demand.

ghost use Rattle.std.specs.Prelude.{◌≡◌, ◌≢◌, neg_ℤ, [], ◌∷◌, false, true, slice_get, ◌||◌, IfOk, OnOk, IsOkAnd};
ghost use Rattle.std.specs.Int.{int_wrap, w64};
ghost use Rattle.ca_program.specs.View.{expression_view, expressions_view, program_view};
ghost use Rattle.ca_meaning.specs.ProgramTyped.{field_info};
ghost use Rattle.ca_tree.specs.declared.tree.UnaryOp.TheVariants as sign;
ghost use Rattle.ca_program.specs.Plain.{unary};
ghost use Rattle.ca_norm.specs.Terms.{not, and, same, divide, remainder, read, read_at, select, result as call_result, terms_of};
ghost use Rattle.ca_symbolic.specs.States.{term_at, demand, not_null, in_range, calls};
ghost use Rattle.ca_symbolic.specs.Execution.{sort_in, sort_of_result, divisor, divided, operation, signed_term, term_of};
ghost use Rattle.ca_symbolic.specs.Demands.{right_guard, terms_in, demands_in, demands_in_all};
ghost use Rattle.ca_symbolic.specs.Demanded.{kind_of, with_demands, under};
ghost use Rattle.ca_symbolic.specs.clauses.Refusals.{refused_guard, refused, refused_all};
ghost use Rattle.ca_shared_terms.specs.Heavy.{is_heavy};

use crate::carried::{leaf, together};
use crate::demand::{DemandKind, Demands};
use crate::state::{SymState, receiver, shared_behind};
use ca_folds::FoldOp;
use ca_forms::parts::{both, longer};
use ca_norm::Sort;
use ca_program::{BinaryOp, Expr, FieldId, FunctionId, Program, UnaryOp};
use ca_shared_terms::{ExecutionError, LightTerm, fields_of, sort_of_type};
use std::alloc::{AllocError, Global};

/// The sort of what a field holds, or each of its items.
fn sort_in(program: &Program, id: FieldId) -> Sort
    ensures { result ≡ sort_in (field_info (program_view program.now) id) }
{
    let fields = fields_of(program, id.class);
    if (id.field as usize) < fields.len() {
        sort_of_type(fields[id.field as usize].ty)
    } else {
        Sort::Pointer
    }
}

/// The sort of what a value method gives.
fn sort_of_result(program: &Program, method: FunctionId) -> Sort
    ensures { result ≡ sort_of_result (slice_get (program_view program.now).functions method.0) }
{
    if (method.0 as usize) < program.functions.len() {
        match program.function(method).result {
            Some(ty) => sort_of_type(ty),
            None => Sort::Pointer,
        }
    } else {
        Sort::Pointer
    }
}

/// The divisor on the right side, where it is a number with or without one minus.
fn divisor(e: &Expr) -> Option<i64>
    ensures { result ≡ divisor (expression_view e.now) }
{
    match e {
        Expr::Number(n) => Some(*n),
        Expr::Unary(UnaryOp::Minus, inner) => negative(inner),
        _ => None,
    }
}

/// The number with the other sign.
fn negated(number: i64) -> i64
    ensures { result ≡ int_wrap w64 (neg_ℤ number) }
{
    number.wrapping_neg()
}

/// The negative of a literal.
fn negative(e: &Expr) -> Option<i64>
    ensures { result ≡ divisor (unary sign.Minus (expression_view e.now)) }
{
    match e {
        Expr::Number(n) => Some(negated(*n)),
        _ => None,
    }
}

fn divided(
    alloc: Global,
    a: LightTerm,
    b: LightTerm,
    n: Option<i64>,
) -> Result<LightTerm, ExecutionError>
    ensures made { IfOk result (λ t. t ≡ divided divide a b n) }
    ensures light { IfOk result (λ _. is_heavy (divided divide a b n) ≡ false) }
    ensures large { result ≡ Err ExecutionError.Large → is_heavy (divided divide a b n) ≡ true }
{
    match n {
        Some(n) => a.quotient(alloc, n),
        None => LightTerm::plus(alloc, a, b),
    }
}

fn left_over(
    alloc: Global,
    a: LightTerm,
    b: LightTerm,
    n: Option<i64>,
) -> Result<LightTerm, ExecutionError>
    ensures made { IfOk result (λ t. t ≡ divided remainder a b n) }
    ensures light { IfOk result (λ _. is_heavy (divided remainder a b n) ≡ false) }
    ensures large { result ≡ Err ExecutionError.Large → is_heavy (divided remainder a b n) ≡ true }
{
    match n {
        Some(n) => a.modulus(alloc, n),
        None => LightTerm::plus(alloc, a, b),
    }
}

/// Whether two values differ.
fn not_same(alloc: Global, a: LightTerm, b: LightTerm) -> Result<LightTerm, ExecutionError>
    ensures made { IfOk result (λ t. t ≡ not (same a b)) }
    ensures light { IfOk result (λ _. is_heavy (not (same a b)) ≡ false) }
    ensures large { result ≡ Err ExecutionError.Large → is_heavy (not (same a b)) ≡ true }
{
    LightTerm::same(alloc, a, b)?.opposite(alloc)
}

/// The term of an operator over two terms; the divisor is given where it is a literal.
fn operation(
    alloc: Global,
    op: BinaryOp,
    a: LightTerm,
    b: LightTerm,
    n: Option<i64>,
) -> Result<LightTerm, ExecutionError>
    ensures made { IfOk result (λ t. t ≡ operation op a b n) }
    ensures light { IfOk result (λ _. is_heavy (operation op a b n) ≡ false) }
    ensures large { result ≡ Err ExecutionError.Large → is_heavy (operation op a b n) ≡ true }
{
    match op {
        BinaryOp::Or => LightTerm::or(alloc, a, b),
        BinaryOp::And => LightTerm::and(alloc, a, b),
        BinaryOp::Equal => LightTerm::same(alloc, a, b),
        BinaryOp::NotEqual => not_same(alloc, a, b),
        BinaryOp::Less => LightTerm::less(alloc, a, b),
        BinaryOp::Greater => LightTerm::less(alloc, b, a),
        BinaryOp::LessEqual => LightTerm::less_equal(alloc, a, b),
        BinaryOp::GreaterEqual => LightTerm::less_equal(alloc, b, a),
        BinaryOp::Plus => LightTerm::plus(alloc, a, b),
        BinaryOp::Minus => LightTerm::minus(alloc, a, b),
        BinaryOp::Times => LightTerm::times(alloc, a, b),
        BinaryOp::Divide => divided(alloc, a, b, n),
        BinaryOp::Remainder => left_over(alloc, a, b, n),
        BinaryOp::BitAnd => LightTerm::folded(alloc, FoldOp::BitAnd, a, b),
        BinaryOp::BitOr => LightTerm::folded(alloc, FoldOp::BitOr, a, b),
        BinaryOp::BitXor => LightTerm::folded(alloc, FoldOp::BitXor, a, b),
        BinaryOp::Max => LightTerm::folded(alloc, FoldOp::Max, a, b),
        BinaryOp::Min => LightTerm::folded(alloc, FoldOp::Min, a, b),
    }
}

fn signed(alloc: Global, op: UnaryOp, a: LightTerm) -> Result<LightTerm, ExecutionError>
    ensures made { IfOk result (λ t. t ≡ signed_term op a) }
    ensures light { IfOk result (λ _. is_heavy (signed_term op a) ≡ false) }
    ensures large { result ≡ Err ExecutionError.Large → is_heavy (signed_term op a) ≡ true }
{
    match op {
        UnaryOp::Minus => a.negated(alloc),
        UnaryOp::Not => a.opposite(alloc),
    }
}

/// A list of one term, if it is there.
fn one(alloc: Global, term: Result<LightTerm, AllocError>) -> Result<Vec<LightTerm>, AllocError>
    ensures { IfOk result (λ v. IsOkAnd term (λ t. v.items ≡ t ∷ [])) }
{
    let term = term?;
    longer(Vec::new(alloc), term)
}

/// One thing is demanded of one term.
fn ask(
    alloc: Global,
    kind: DemandKind,
    term: &LightTerm,
    out: &mut Demands,
) -> Result<(), AllocError>
    ensures { OnOk result (out.new ≡ with_demands out.old (demand out.old.guard (kind_of kind) (term.now ∷ []) ∷ [])) }
{
    let parts = one(alloc, term.share())?;
    out.push(kind, parts)
}

/// A pointer is not to be null.
pub fn ask_not_null(alloc: Global, object: &LightTerm, out: &mut Demands) -> Result<(), AllocError>
    ensures { OnOk result (out.new ≡ with_demands out.old (demand out.old.guard not_null (object.now ∷ []) ∷ [])) }
{
    ask(alloc, DemandKind::NotNull, object, out)
}

/// An index is to lie in an array.
pub fn ask_in_range(
    alloc: Global,
    field: FieldId,
    index: &LightTerm,
    out: &mut Demands,
) -> Result<(), AllocError>
    ensures { OnOk result (out.new ≡ with_demands out.old (demand out.old.guard (in_range field) (index.now ∷ []) ∷ [])) }
{
    ask(alloc, DemandKind::InRange(field), index, out)
}

/// A method of an object is to be called with these arguments.
pub fn ask_call(
    alloc: Global,
    kind: DemandKind,
    object: &LightTerm,
    args: &[LightTerm],
    out: &mut Demands,
) -> Result<(), AllocError>
    ensures { OnOk result (out.new ≡ with_demands out.old (demand out.old.guard not_null (object.now ∷ []) ∷ demand out.old.guard (kind_of kind) (object.now ∷ args.now) ∷ [])) }
{
    ask_not_null(alloc, object, out)?;
    let receiver = one(alloc, object.share())?;
    let parts = shared_behind(receiver, args)?;
    out.push(kind, parts)
}

/// The same pointer, which is not to be null.
fn not_null(
    alloc: Global,
    object: LightTerm,
    out: &mut Demands,
) -> Result<LightTerm, ExecutionError>
    ensures same { IfOk result (λ t. t ≡ object) }
    ensures demands { OnOk result (out.new ≡ with_demands out.old (demand out.old.guard not_null (object ∷ []) ∷ [])) }
    ensures small { result ≢ Err ExecutionError.Large }
{
    ask_not_null(alloc, &object, out)?;
    Ok(object)
}

/// The item of an own field at an index, which is demanded to lie in it.
fn own_item(
    alloc: Global,
    state: &SymState,
    field: FieldId,
    index: LightTerm,
    out: &mut Demands,
) -> Result<LightTerm, ExecutionError>
    ensures made { IfOk result (λ t. t ≡ select (term_at state.now.fields field.field) index) }
    ensures light { IfOk result (λ _. is_heavy (select (term_at state.now.fields field.field) index) ≡ false) }
    ensures large { result ≡ Err ExecutionError.Large → is_heavy (select (term_at state.now.fields field.field) index) ≡ true }
    ensures demands { OnOk result (out.new ≡ with_demands out.old (demand out.old.guard (in_range field) (index ∷ []) ∷ [])) }
{
    let asked = ask_in_range(alloc, field, &index, out);
    let (_, array) = both(asked, state.field(alloc, field.field))?;
    array.item(alloc, index)
}

/// A field of an object, which is demanded not to be null.
fn read(
    alloc: Global,
    program: &Program,
    object: LightTerm,
    id: FieldId,
    out: &mut Demands,
) -> Result<LightTerm, ExecutionError>
    ensures made { IfOk result (λ t. t ≡ read (sort_in (field_info (program_view program.now) id)) object id.class.0 id.field) }
    ensures light { IfOk result (λ _. is_heavy (read (sort_in (field_info (program_view program.now) id)) object id.class.0 id.field) ≡ false) }
    ensures large { result ≡ Err ExecutionError.Large → is_heavy (read (sort_in (field_info (program_view program.now) id)) object id.class.0 id.field) ≡ true }
    ensures demands { OnOk result (out.new ≡ with_demands out.old (demand out.old.guard not_null (object ∷ []) ∷ [])) }
{
    ask_not_null(alloc, &object, out)?;
    let sort = sort_in(program, id);
    object.field(alloc, sort, id.class.0, id.field)
}

/// The item of a field of an object at an index, which is demanded to lie in it.
fn read_item(
    alloc: Global,
    program: &Program,
    object: LightTerm,
    id: FieldId,
    index: LightTerm,
    out: &mut Demands,
) -> Result<LightTerm, ExecutionError>
    ensures made { IfOk result (λ t. t ≡ read_at (sort_in (field_info (program_view program.now) id)) object id.class.0 id.field index) }
    ensures light { IfOk result (λ _. is_heavy (read_at (sort_in (field_info (program_view program.now) id)) object id.class.0 id.field index) ≡ false) }
    ensures large { result ≡ Err ExecutionError.Large → is_heavy (read_at (sort_in (field_info (program_view program.now) id)) object id.class.0 id.field index) ≡ true }
    ensures demands { OnOk result (out.new ≡ with_demands out.old (demand out.old.guard (in_range id) (index ∷ []) ∷ [])) }
{
    ask_in_range(alloc, id, &index, out)?;
    let sort = sort_in(program, id);
    object.field_item(alloc, sort, id.class.0, id.field, index)
}

/// A call of a value method.
fn call(
    alloc: Global,
    program: &Program,
    object: LightTerm,
    method: FunctionId,
    args: Vec<LightTerm>,
    out: &mut Demands,
) -> Result<LightTerm, ExecutionError>
    ensures made { IfOk result (λ t. t ≡ call_result (sort_of_result (slice_get (program_view program.now).functions method.0)) method.0 object (terms_of args.items)) }
    ensures light { IfOk result (λ _. is_heavy (call_result (sort_of_result (slice_get (program_view program.now).functions method.0)) method.0 object (terms_of args.items)) ≡ false) }
    ensures large { result ≡ Err ExecutionError.Large → is_heavy (call_result (sort_of_result (slice_get (program_view program.now).functions method.0)) method.0 object (terms_of args.items)) ≡ true }
    ensures demands { OnOk result (out.new ≡ with_demands out.old (demand out.old.guard not_null (object ∷ []) ∷ demand out.old.guard (calls method) (object ∷ args.items) ∷ [])) }
{
    ask_call(alloc, DemandKind::Calls(method), &object, &args, out)?;
    let sort = sort_of_result(program, method);
    object.called(alloc, sort, method.0, args)
}

/// From here on demands come under both conditions.
pub fn enter(
    alloc: Global,
    outer: &LightTerm,
    condition: &LightTerm,
    out: &mut Demands,
) -> Result<(), ExecutionError>
    ensures entered { OnOk result (out.new ≡ under out.old (and outer.now condition.now)) }
    ensures light { OnOk result (is_heavy (and outer.now condition.now) ≡ false) }
    ensures large { result ≡ Err ExecutionError.Large → is_heavy (and outer.now condition.now) ≡ true }
{
    let (outer, condition) = both(outer.share(), condition.share())?;
    let guard = LightTerm::and(alloc, outer, condition)?;
    leaf(out.open(alloc, guard))
}

/// From here on they come under the first condition, and where the second one doesn't hold.
#[tactic(auto, using(crate::proofs::Flags::neither, crate::proofs::Flags::first_of, crate::proofs::Flags::second_of))]
pub fn enter_opposite(
    alloc: Global,
    outer: &LightTerm,
    condition: &LightTerm,
    out: &mut Demands,
) -> Result<(), ExecutionError>
    ensures entered { OnOk result (out.new ≡ under out.old (and outer.now (not condition.now))) }
    ensures light { OnOk result ((is_heavy (not condition.now) || is_heavy (and outer.now (not condition.now))) ≡ false) }
    ensures large { result ≡ Err ExecutionError.Large → (is_heavy (not condition.now) || is_heavy (and outer.now (not condition.now))) ≡ true }
{
    let condition = condition.share()?;
    let opposite = condition.opposite(alloc)?;
    enter(alloc, outer, &opposite, out)
}

/// From here on they come under the condition of a right side, whose left side is this.
fn enter_right(
    alloc: Global,
    op: BinaryOp,
    outer: &LightTerm,
    left: &LightTerm,
    out: &mut Demands,
) -> Result<(), ExecutionError>
    requires { outer.now ≡ out.old.guard }
    ensures entered { OnOk result (out.new ≡ under out.old (right_guard op outer.now left.now)) }
    ensures light { OnOk result (refused_guard op outer.now left.now ≡ false) }
    ensures large { result ≡ Err ExecutionError.Large → refused_guard op outer.now left.now ≡ true }
{
    match op {
        BinaryOp::And => enter(alloc, outer, left, out),
        BinaryOp::Or => enter_opposite(alloc, outer, left, out),
        _ => Ok(()),
    }
}

/// The left side of an operator, and the condition under which it stands.
#[derive(Drop)]
struct Begun {
    left: LightTerm,
    outer: LightTerm,
}

/// Begins a right side, whose left side is this.
#[tactic(auto, using(crate::proofs::Flags::neither, crate::proofs::Flags::first_of, crate::proofs::Flags::second_of))]
fn begin_right(
    alloc: Global,
    op: BinaryOp,
    left: LightTerm,
    out: &mut Demands,
) -> Result<Begun, ExecutionError>
    ensures left { IfOk result (λ b. b.left ≡ left) }
    ensures outer { IfOk result (λ b. b.outer ≡ out.old.guard) }
    ensures entered { OnOk result (out.new ≡ under out.old (right_guard op out.old.guard left)) }
    ensures light { OnOk result (refused_guard op out.old.guard left ≡ false) }
    ensures large { result ≡ Err ExecutionError.Large → refused_guard op out.old.guard left ≡ true }
{
    let (left, outer) = together(left, leaf(out.guard()))?;
    enter_right(alloc, op, &outer, &left, out)?;
    Ok(Begun { left, outer })
}

/// Ends it, and makes the term of the operator; the divisor is given where it is a literal.
fn end_right(
    alloc: Global,
    op: BinaryOp,
    begun: Begun,
    right: LightTerm,
    n: Option<i64>,
    out: &mut Demands,
) -> Result<LightTerm, ExecutionError>
    ensures made { IfOk result (λ t. t ≡ operation op begun.left right n) }
    ensures ended { OnOk result (out.new ≡ under out.old begun.outer) }
    ensures light { IfOk result (λ _. is_heavy (operation op begun.left right n) ≡ false) }
    ensures large { result ≡ Err ExecutionError.Large → is_heavy (operation op begun.left right n) ≡ true }
{
    let Begun { left, outer } = begun;
    let operands = together((left, right), leaf(out.open(alloc, outer)))?;
    operation(alloc, op, operands.0.0, operands.0.1, n)
}

/// The term of an expression. What it demands comes behind what was demanded before.
#[cycle(value)]
#[tactic(auto, using(crate::proofs::Flags::neither, crate::proofs::Flags::first_of, crate::proofs::Flags::second_of))]
pub fn value_of(
    alloc: Global,
    program: &Program,
    state: &SymState,
    e: &Expr,
    out: &mut Demands,
) -> Result<LightTerm, ExecutionError>
    ensures made { IfOk result (λ t. t ≡ term_of (program_view program.now) state.now (expression_view e.now)) }
    ensures demands { OnOk result (out.new ≡ with_demands out.old (demands_in (program_view program.now) state.now out.old.guard (expression_view e.now))) }
    ensures light { OnOk result (refused (program_view program.now) state.now out.old.guard (expression_view e.now) ≡ false) }
    ensures large { result ≡ Err ExecutionError.Large → refused (program_view program.now) state.now out.old.guard (expression_view e.now) ≡ true }
{
    match e {
        Expr::Number(n) => leaf(LightTerm::number(alloc, *n)),
        Expr::Truth(b) => leaf(LightTerm::truth(alloc, *b)),
        Expr::Null => leaf(LightTerm::null(alloc)),
        Expr::This => leaf(receiver(alloc)),
        Expr::Local(id) => leaf(state.local(alloc, id.0)),
        Expr::Own(id) => leaf(state.field(alloc, id.field)),
        Expr::OwnItem(id, i) => {
            let index = value_of(alloc, program, state, i, out)?;
            own_item(alloc, state, *id, index, out)
        }
        Expr::Read(p, id) => {
            let object = value_of(alloc, program, state, p, out)?;
            read(alloc, program, object, *id, out)
        }
        Expr::ReadItem(p, id, i) => {
            let object = value_of(alloc, program, state, p, out)?;
            let asked = not_null(alloc, object, out)?;
            let parts = together(asked, value_of(alloc, program, state, i, out))?;
            read_item(alloc, program, parts.0, *id, parts.1, out)
        }
        Expr::Value(p, method, args) => {
            let object = value_of(alloc, program, state, p, out)?;
            let parts = together(object, values_of(alloc, program, state, args, out))?;
            call(alloc, program, parts.0, *method, parts.1, out)
        }
        Expr::Unary(op, a) => {
            let value = value_of(alloc, program, state, a, out)?;
            signed(alloc, *op, value)
        }
        Expr::Binary(op, a, b) => {
            let left = value_of(alloc, program, state, a, out)?;
            let begun = begin_right(alloc, *op, left, out)?;
            let sides = together(begun, value_of(alloc, program, state, b, out))?;
            end_right(alloc, *op, sides.0, sides.1, divisor(b), out)
        }
    }
}

/// The terms of expressions, from left to right.
#[cycle(value)]
#[tactic(auto, using(crate::proofs::Flags::neither, crate::proofs::Flags::first_of, crate::proofs::Flags::second_of))]
pub fn values_of(
    alloc: Global,
    program: &Program,
    state: &SymState,
    es: &[Expr],
    out: &mut Demands,
) -> Result<Vec<LightTerm>, ExecutionError>
    ensures made { IfOk result (λ v. v.items ≡ terms_in (program_view program.now) state.now (expressions_view es.now)) }
    ensures demands { OnOk result (out.new ≡ with_demands out.old (demands_in_all (program_view program.now) state.now out.old.guard (expressions_view es.now))) }
    ensures light { OnOk result (refused_all (program_view program.now) state.now out.old.guard (expressions_view es.now) ≡ false) }
    ensures large { result ≡ Err ExecutionError.Large → refused_all (program_view program.now) state.now out.old.guard (expressions_view es.now) ≡ true }
{
    let mut values = Vec::new(alloc);
    for e in es {
        let value = value_of(alloc, program, state, e, out)?;
        values.push(value)?;
    }
    Ok(values)
}
