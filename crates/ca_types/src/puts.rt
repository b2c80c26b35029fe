//! Checks assignments and declarations of locals: `judge_assign` and `judge_local` of `specs/Statements.antt`.

ghost use Rattle.std.specs.Prelude.{◌≡◌, IfOk, Option};
ghost use Rattle.std.specs.Option.{option_map};
ghost use Rattle.ca_tree.specs.View.{expression_view, right_view, option_right_view};
ghost use Rattle.ca_program.specs.View as program;
ghost use Rattle.ca_program.specs.declared.program.ValueType.{ValueType as PlainType};
ghost use Rattle.ca_resolve.specs.Judged.{Answers, Finds, Judged, Violation};
ghost use Rattle.ca_resolve.specs.Scopes.{Target as PlainTarget, Ty as PlainTy, to_local};
ghost use Rattle.ca_resolve.specs.LocalView.{ty_view};
ghost use Rattle.ca_resolve.specs.View.{scope_view, target_view};
ghost use Rattle.ca_types.specs.Rules.{listed, is_own, is_put, compound_agrees, writes_no_field, creates_nothing};
ghost use Rattle.ca_types.specs.Statements.{Source as PlainSource, creates, start_creates, start_value, put, judge_wanted, judge_right, judge_put_target, judge_assignment, judge_assign, judge_start, judge_declaration, judge_local, right_ty};
ghost use Rattle.ca_types.specs.clauses.View.{env_view, source_view, local_parts_view, Tells_something};

use crate::limits::{MOST_LOCALS, bound};
use crate::rules::{Answer, check_type, class_defined, rule};
use crate::walk::Walk;
use ca_program::{AssignOp, ClassId, Expr, LocalId, Stmt, StmtForm, ValueType};
use ca_resolve::codes::{TOO_MANY_LOCALS, TYPES_DISAGREE, VALUE_METHOD_ACTS};
use ca_resolve::{
    CheckError, Scope, Target, Ty, both, check_for, check_target, check_value, let_go, violation,
};
use ca_tree::{ExprNode, Name, Place, Right, TypeNode};
use std::alloc::{AllocError, Global};

/// What a target is put to: a value, or a new object of a class.
#[derive(Drop)]
pub(crate) enum Source {
    Value(Expr),
    New(ClassId),
}

/// A value of the type that is wanted, where it is known.
pub(crate) fn check_wanted(
    alloc: Global,
    scope: &Scope,
    wanted: Option<Ty>,
    e: &ExprNode,
) -> Answer<Expr>
    ensures { Answers program.expression_view result (judge_wanted (scope_view scope.now) (option_map ty_view wanted.entry) (expression_view e.now)) }
{
    match wanted {
        Some(wanted) => check_for(alloc, scope, wanted, e),
        None => {
            let (value, _) = check_value(alloc, scope, e)?;
            Ok(value)
        }
    }
}

/// The right side of a target, whose type may be known.
fn check_right(alloc: Global, scope: &Scope, wanted: Option<Ty>, right: &Right) -> Answer<Source>
    ensures { Answers source_view result (judge_right (scope_view scope.now) (option_map ty_view wanted.entry) (right_view right.now)) }
{
    match right {
        Right::Value(e) => {
            let value = check_wanted(alloc, scope, wanted, e)?;
            Ok(Source::Value(value))
        }
        Right::New(name, at) => {
            let class = class_defined(scope.classes, name, *at)?;
            match wanted {
                Some(wanted) => {
                    if wanted.can_hold(&Ty::Pointer(class)) {
                        Ok(Source::New(class))
                    } else {
                        Err(violation(*at, TYPES_DISAGREE))
                    }
                }
                None => Ok(Source::New(class)),
            }
        }
    }
}

/// Whether the right side is a new object.
fn creates(right: &Right) -> bool
    ensures { result ≡ creates (right_view right.now) }
{
    match right {
        Right::Value(_) => false,
        Right::New(..) => true,
    }
}

/// Whether the target is the receiver's.
fn is_own(target: &(Target, Ty)) -> bool
    ensures { result ≡ is_own (target_view target.now).0 }
{
    match target.0 {
        Target::Local(_) => false,
        Target::Field(_) | Target::Item(..) => true,
    }
}

fn is_put(op: AssignOp) -> bool
    ensures { result ≡ is_put op }
{
    match op {
        AssignOp::Put => true,
        AssignOp::Add
        | AssignOp::Sub
        | AssignOp::Mul
        | AssignOp::BitAnd
        | AssignOp::BitOr
        | AssignOp::BitXor => false,
    }
}

/// The statement that puts.
fn put(line: u32, target: (Target, Ty), op: AssignOp, source: Source) -> Stmt
    ensures { program.statement_view result ≡ put line (target_view target.entry).0 op (source_view source) }
{
    let (target, _) = target;
    let kind = match source {
        Source::Value(e) => match target {
            Target::Local(local) => StmtForm::PutLocal(local, op, e),
            Target::Field(field) => StmtForm::PutField(field, op, e),
            Target::Item(field, index) => StmtForm::PutItem(field, index, op, e),
        },
        Source::New(class) => match target {
            Target::Local(local) => StmtForm::NewLocal(local, class),
            Target::Field(field) => StmtForm::NewField(field, class),
            Target::Item(field, index) => StmtForm::NewItem(field, index, class),
        },
    };
    Stmt { line, kind }
}

/// A compound assignment is to a number.
fn compound_agrees(op: AssignOp, target: &(Target, Ty), at: Place) -> Answer<()>
    ensures { Finds result (listed (compound_agrees op (target_view target.now).1 at)) }
{
    rule(!is_put(op) && !target.1.is_long(), at, TYPES_DISAGREE)
}

/// A value method writes no field.
fn writes_no_field(returned: &Option<Ty>, target: &(Target, Ty), at: Place) -> Answer<()>
    ensures { Finds result (listed (writes_no_field (option_map ty_view returned.now) (target_view target.now).0 at)) }
{
    rule(returned.is_some() && is_own(target), at, VALUE_METHOD_ACTS)
}

/// A value method creates nothing.
fn creates_nothing(returned: &Option<Ty>, creates: bool, at: Place) -> Answer<()>
    ensures { Finds result (listed (creates_nothing (option_map ty_view returned.now) creates at)) }
{
    rule(returned.is_some() && creates, at, VALUE_METHOD_ACTS)
}

/// The target of an assignment, and the type of its values.
fn check_put_target<'a>(
    alloc: Global,
    walk: &Walk<'_, 'a>,
    op: AssignOp,
    e: &ExprNode,
) -> Answer<(Target, Ty<'a>)>
    ensures { Answers target_view result (judge_put_target (env_view walk.now) op (expression_view e.now)) }
{
    let target = check_target(alloc, &walk.scope(), e)?;
    let compound = compound_agrees(op, &target, e.at);
    let written = writes_no_field(&walk.result, &target, e.at);
    match both(compound, written) {
        Ok(_) => Ok(target),
        Err(e) => {
            let_go(target);
            Err(e)
        }
    }
}

/// The result, unless memory ran out.
fn told<T: Drop>(answer: Answer<T>) -> Result<Answer<T>, AllocError>
    ensures { IfOk result (λ r. (r ≡ answer) × Tells_something r) }
{
    match answer {
        Err(CheckError::Memory) => Err(AllocError),
        _ => Ok(answer),
    }
}

/// The type that the right side is to have, where it is known.
fn right_ty<'a>(op: AssignOp, target: &Answer<(Target, Ty<'a>)>) -> Option<Ty<'a>>
    ensures { (j : Judged (PlainTarget × PlainTy)) → Tells_something target.now → Answers target_view target.now j → option_map ty_view result ≡ right_ty op j }
{
    match op {
        AssignOp::Add
        | AssignOp::Sub
        | AssignOp::Mul
        | AssignOp::BitAnd
        | AssignOp::BitOr
        | AssignOp::BitXor => Some(Ty::Long),
        AssignOp::Put => match target {
            Ok((_, ty)) => Some(*ty),
            Err(_) => None,
        },
    }
}

/// An assignment of judged parts.
fn assignment(
    returned: &Option<Ty>,
    creates: bool,
    at: Place,
    op: AssignOp,
    target: Answer<(Target, Ty)>,
    source: Answer<Source>,
) -> Answer<Stmt>
    ensures { (j : Judged (PlainTarget × PlainTy)) (k : Judged PlainSource) → Answers target_view target.entry j → Answers source_view source k → Answers program.statement_view result (judge_assignment (option_map ty_view returned.now) creates at op j k) }
{
    let (target, source) = both(target, source)?;
    match creates_nothing(returned, creates, at) {
        Ok(()) => Ok(put(at.line, target, op, source)),
        Err(e) => {
            let_go((target, source));
            Err(e)
        }
    }
}

/// An assignment.
pub(crate) fn check_assign(
    alloc: Global,
    walk: &Walk,
    at: Place,
    target: &ExprNode,
    op: AssignOp,
    right: &Right,
) -> Answer<Stmt>
    ensures { Answers program.statement_view result (judge_assign (env_view walk.now) at (judge_put_target (env_view walk.now) op (expression_view target.now)) op (right_view right.now)) }
{
    let target = told(check_put_target(alloc, walk, op, target))?;
    let wanted = right_ty(op, &target);
    let source = check_right(alloc, &walk.scope(), wanted, right);
    assignment(&walk.result, creates(right), at, op, target, source)
}

/// What a local that is declared without a value is put to.
fn start_value(ty: &Ty) -> Expr
    ensures { program.expression_view result ≡ start_value (ty_view ty.now) }
{
    match ty {
        Ty::Long => Expr::Number(0),
        Ty::Truth => Expr::Truth(false),
        Ty::Pointer(_) | Ty::Undefined(_) | Ty::NoObject => Expr::Null,
    }
}

/// The initial value of a local.
fn check_start(alloc: Global, scope: &Scope, ty: Ty, value: &Option<Right>) -> Answer<Source>
    ensures { Answers source_view result (judge_start (scope_view scope.now) (ty_view ty.entry) (option_right_view value.now)) }
{
    match value {
        None => Ok(Source::Value(start_value(&ty))),
        Some(right) => check_right(alloc, scope, Some(ty), right),
    }
}

fn start_creates(value: &Option<Right>) -> bool
    ensures { result ≡ start_creates (option_right_view value.now) }
{
    match value {
        None => false,
        Some(right) => creates(right),
    }
}

/// A local of its judged type and first value.
fn declaration(
    line: u32,
    local: LocalId,
    ty: Ty,
    created: Answer<()>,
    again: Answer<()>,
    parts: Answer<((), (ValueType, Source))>,
) -> Answer<Stmt>
    ensures { (v w : Option Violation) (j : Judged (PlainType × PlainSource)) → Finds created (listed v) → Finds again (listed w) → Answers local_parts_view parts j → Answers program.statement_view result (judge_declaration line (to_local local) v w j) }
{
    let (_, (_, source)) = parts?;
    match both(created, again) {
        Ok(_) => {
            let target = (Target::Local(local), ty);
            Ok(put(line, target, AssignOp::Put, source))
        }
        Err(e) => {
            let_go(source);
            Err(e)
        }
    }
}

/// A local, before it is declared.
pub(crate) fn check_local<'a>(
    alloc: Global,
    walk: &Walk<'_, 'a>,
    at: Place,
    ty: &'a TypeNode,
    name: &Name,
    name_at: Place,
    value: &Option<Right>,
) -> Answer<Stmt>
    ensures { Answers program.statement_view result (judge_local (env_view walk.now) at ty.now name.now name_at (option_right_view value.now)) }
{
    let id = walk.next_local()?;
    let passed = bound(walk.count() == MOST_LOCALS, name_at, TOO_MANY_LOCALS);
    let written = check_type(walk.classes, ty);
    let declared = walk.classes.ty_of(ty);
    let start = check_start(alloc, &walk.scope(), declared, value);
    let created = creates_nothing(&walk.result, start_creates(value), at);
    let again = walk.local_once(name, name_at);
    let parts = both(passed, both(written, start));
    declaration(at.line, id, declared, created, again, parts)
}
