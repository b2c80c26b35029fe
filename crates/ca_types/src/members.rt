//! Checks fields, parameters and methods: `judge_field_member`, `judge_parameters` and so on of `specs/Classes.antt`.

ghost use Rattle.std.specs.Prelude.{◌≡◌, ℕ, List, Option, IfOk, IfErr, OnOk, is_some, length, map, false};
ghost use Rattle.std.specs.Option.{option_map};
ghost use Rattle.ca_tree.specs.View.{statement_view, statements_view, method_view as tree_method};
ghost use Rattle.ca_program.specs.View.{method_view};
ghost use Rattle.ca_program.specs.Plain.{Statement};
ghost use Rattle.ca_resolve.specs.Judged.{Answers, Finds, Judged, fine, both, within};
ghost use Rattle.ca_resolve.specs.declared.errors.CheckError.TheVariants.{Memory};
ghost use Rattle.ca_resolve.specs.LocalView.{ty_view};
ghost use Rattle.ca_resolve.specs.View.{classes_view};
ghost use Rattle.ca_types.specs.Rules.{listed, returns, last_returns, member_once, ends_with_return, length_stands, length_limit};
ghost use Rattle.ca_types.specs.Classes.{behind_parameters, judge_parameter, judge_parameters, item_count, judge_field_member, judge_result_type, result_ty, method_limit, method_begin, body_begin, method_end, judge_method, judge_parts};
ghost use Rattle.ca_types.specs.clauses.View.{env_view, member_env, all_view, method_parts_view};
ghost use Rattle.ca_program.specs.declared.program.ValueType.{ValueType as PlainType};

use crate::carried::together;
use crate::limits::{
    MOST_FIELDS, MOST_FUNCTIONS, MOST_ITEMS, MOST_LOCALS, MOST_OPERATIONS, MOST_PARAMETERS, bound,
};
use crate::rules::{Answer, check_type, rule};
use crate::statements::check_statements;
use crate::walk::Walk;
use ca_program::{Body, ClassId, FieldInfo, Method, Stmt, ValueType};
use ca_resolve::codes::{
    EMPTY_ARRAY, MEMBER_TWICE, TOO_LONG_ARRAY, TOO_MANY_FIELDS, TOO_MANY_FUNCTIONS,
    TOO_MANY_LOCALS, TOO_MANY_OPERATIONS, TOO_MANY_PARAMETERS, WRONG_RETURN,
};
use ca_resolve::{ClassTable, Names, Ty, both, let_go};
use ca_tree::{FieldNode, MethodNode, Name, ParamNode, Place, StmtKind, StmtNode, TypeNode};
use std::alloc::{AllocError, Global};

/// How many fields of the class, and operations and value methods of the program, come before.
#[derive(Clone, Copy)]
pub(crate) struct Counts {
    pub(crate) fields: u32,
    pub(crate) operations: u32,
    pub(crate) functions: u32,
}

/// Where a member stands in its class, and what the program has before.
#[derive(Drop)]
pub(crate) struct MemberWalk<'s, 'a> {
    pub(crate) classes: &'s ClassTable<'a>,
    pub(crate) class: ClassId,
    /// The names of all members of the class.
    pub(crate) names: Names<'a>,
    /// The number of the member in its class.
    pub(crate) number: u32,
    pub(crate) counts: Counts,
    /// How many `for` statements come before.
    pub(crate) loops: u32,
}

/// A parameter, before it is declared.
fn check_parameter(walk: &Walk, param: &ParamNode) -> Answer<ValueType>
    ensures { Answers (λ t. t) result (judge_parameter (env_view walk.now) param.now) }
{
    let many = bound(
        walk.count() == MOST_PARAMETERS,
        param.at,
        TOO_MANY_PARAMETERS,
    );
    let full = bound(walk.count() == MOST_LOCALS, param.at, TOO_MANY_LOCALS);
    let written = check_type(walk.classes, &param.ty);
    let (_, (_, ty)) = both(many, both(full, written))?;
    walk.local_once(&param.name, param.at)?;
    Ok(ty)
}

/// The parameters of a method, each of which is a local of its body.
fn check_parameters<'a>(
    walk: &mut Walk<'_, 'a>,
    params: &'a [ParamNode],
) -> Result<Answer<()>, AllocError>
    ensures judged { IfOk result (λ a. Answers (λ u. u) a (judge_parameters (env_view walk.old) params.now)) }
    ensures behind { OnOk result (env_view walk.new ≡ behind_parameters (env_view walk.old) params.now) }
{
    let mut answers = Ok(());
    for param in params {
        let answer = check_parameter(walk, param);
        let ty = walk.classes.ty_of(&param.ty);
        walk.declare(ty, &param.name)?;
        answers = and_also(answers, answer);
    }
    Ok(answers)
}

/// The parameters so far and one more, of which only the violations count.
fn and_also(front: Answer<()>, one: Answer<ValueType>) -> Answer<()>
    ensures { (j : Judged (Unit {0})) (k : Judged PlainType) → Answers (λ u. u) front j → Answers (λ t. t) one k → Answers (λ u. u) result (within (both j k) (λ r. fine r.0)) }
{
    let (first, _) = both(front, one)?;
    Ok(first)
}

/// Whether the member of this number is the first of its name.
fn member_once(standing: &MemberWalk, name: &Name, at: Place) -> Answer<()>
    ensures { Finds result (listed (member_once (member_env standing.now).names (member_env standing.now).number name.now at)) }
{
    rule(
        standing.names.number(name) != Some(standing.number),
        at,
        MEMBER_TWICE,
    )
}

/// An array has at least one item.
fn length_stands(length: Option<i64>, at: Place) -> Answer<()>
    ensures { Finds result (listed (length_stands length at)) }
{
    match length {
        None => Ok(()),
        Some(n) => rule(n <= 0, at, EMPTY_ARRAY),
    }
}

/// An array has not too many items.
fn length_limit(length: Option<i64>, at: Place) -> Answer<()>
    ensures { Finds result (listed (length_limit length at)) }
{
    match length {
        None => Ok(()),
        Some(n) => bound(n > MOST_ITEMS, at, TOO_LONG_ARRAY),
    }
}

/// How many items an array has.
fn item_count(length: Option<i64>) -> Result<Option<u32>, AllocError>
    ensures { IfOk result (λ n. n ≡ item_count length) }
{
    match length {
        None => Ok(None),
        Some(n) => {
            let count = u32::try_from(n.unsigned_abs()).or(Err(AllocError))?;
            Ok(Some(count))
        }
    }
}

/// A field of this type.
fn field_of(alloc: Global, field: &FieldNode, ty: ValueType) -> Answer<FieldInfo>
    ensures made { IfOk result (λ f. f ≡ record { name = field.now.name; ty = ty; length = item_count field.now.length }) }
    ensures memory { IfErr result (λ e. e ≡ Memory) }
{
    let length = item_count(field.length)?;
    let name = field.name.copy(alloc)?;
    Ok(FieldInfo { name, ty, length })
}

/// A field.
pub(crate) fn check_field(
    alloc: Global,
    standing: &MemberWalk,
    field: &FieldNode,
) -> Answer<FieldInfo>
    ensures { Answers (λ f. f) result (judge_field_member (member_env standing.now) field.now) }
{
    let many = bound(
        standing.counts.fields == MOST_FIELDS,
        field.at,
        TOO_MANY_FIELDS,
    );
    let long = length_limit(field.length, field.at);
    let written = check_type(standing.classes, &field.ty);
    let (_, (_, ty)) = both(many, both(long, written))?;
    let again = member_once(standing, &field.name, field.at);
    let empty = length_stands(field.length, field.at);
    both(again, empty)?;
    field_of(alloc, field, ty)
}

/// Whether the statement ends with a `return` on each way through it.
#[cycle(returns)]
fn returns(stmt: &StmtNode) -> bool
    ensures { result ≡ returns (statement_view stmt.now) }
{
    match &stmt.kind {
        StmtKind::Return(_) => true,
        StmtKind::Block(stmts) => last_returns(stmts),
        StmtKind::If {
            cond: _,
            yes: yes_node,
            no: no_node,
        } => match no_node {
            Some(node) => returns(yes_node) && returns(node),
            None => false,
        },
        StmtKind::Empty
        | StmtKind::Local { .. }
        | StmtKind::Assign { .. }
        | StmtKind::Call(_)
        | StmtKind::While { .. }
        | StmtKind::For { .. }
        | StmtKind::Print(_) => false,
    }
}

/// Whether the last statement does.
#[cycle(returns)]
fn last_returns(stmts: &[StmtNode]) -> bool
    ensures { result ≡ last_returns (statements_view stmts.now) }
{
    let mut last = false;
    for stmt in stmts {
        last = returns(stmt);
    }
    last
}

/// The type of a method's result.
fn check_result_type(classes: &ClassTable, written: &Option<TypeNode>) -> Answer<Option<ValueType>>
    ensures { Answers (λ t. t) result (judge_result_type (classes_view classes.now).names written.now) }
{
    match written {
        None => Ok(None),
        Some(ty) => {
            let ty = check_type(classes, ty)?;
            Ok(Some(ty))
        }
    }
}

fn result_ty<'a>(classes: &ClassTable<'a>, written: &'a Option<TypeNode>) -> Option<Ty<'a>>
    ensures { option_map ty_view result ≡ result_ty (classes_view classes.now).names written.now }
{
    match written {
        None => None,
        Some(ty) => Some(classes.ty_of(ty)),
    }
}

/// Not too many operations, and not too many value methods.
fn method_limit(standing: &MemberWalk, method: &MethodNode) -> Answer<()>
    ensures { Finds result (listed (method_limit (member_env standing.now).numbers method.now.result method.now.at)) }
{
    match &method.result {
        None => bound(
            standing.counts.operations == MOST_OPERATIONS,
            method.at,
            TOO_MANY_OPERATIONS,
        ),
        Some(_) => bound(
            standing.counts.functions == MOST_FUNCTIONS,
            method.at,
            TOO_MANY_FUNCTIONS,
        ),
    }
}

/// A value method can't end without a `return`.
fn ends_with_return(method: &MethodNode) -> Answer<()>
    ensures { Finds result (listed (ends_with_return (is_some method.now.result) (statements_view method.now.body.items) method.now.at)) }
{
    rule(
        method.result.is_some() && !last_returns(&method.body),
        method.at,
        WRONG_RETURN,
    )
}

/// A method, and how many `for` statements the program has behind it.
pub(crate) fn check_method<'a>(
    alloc: Global,
    standing: &MemberWalk<'_, 'a>,
    method: &'a MethodNode,
) -> Result<(Answer<Method>, u32), AllocError>
    ensures judged { IfOk result (λ p. Answers method_view p.0 (judge_method (member_env standing.now) (tree_method method.now))) }
    ensures loops { IfOk result (λ p. p.1 ≡ (method_end (member_env standing.now) (tree_method method.now)).loops) }
{
    let ty = result_ty(standing.classes, &method.result);
    let mut walk = Walk::new(
        alloc,
        standing.classes,
        Some(standing.class),
        standing.loops,
        ty,
    );
    let params = check_parameters(&mut walk, &method.params)?;
    let stmts = check_statements(alloc, &mut walk, &method.body)?;
    let loops = walk.loops;
    let written = check_result_type(standing.classes, &method.result);
    let parts = both(written, both(params, stmts));
    let answer = method_of(alloc, standing, method, walk.locals, parts);
    Ok((answer, loops))
}

/// How many parameters; what has no number is larger than any memory.
fn count_of(params: &[ParamNode]) -> Result<u32, AllocError>
    ensures { IfOk result (λ n. n ≡ length params.now) }
{
    u32::try_from(params.len()).or(Err(AllocError))
}

/// How many parameters a method has, and its name.
fn head_of(alloc: Global, method: &MethodNode) -> Result<(u32, Name), AllocError>
    ensures params { IfOk result (λ p. p.0 ≡ length method.now.params.items) }
    ensures name { IfOk result (λ p. p.1 ≡ method.now.name) }
{
    let params = count_of(&method.params)?;
    let name = method.name.copy(alloc)?;
    Ok((params, name))
}

/// The method of its body and the type of its result.
fn method_with(
    alloc: Global,
    class: ClassId,
    method: &MethodNode,
    body: Body,
    result_type: Option<ValueType>,
) -> Answer<Method>
    ensures made { IfOk result (λ m. m ≡ record { class = class; name = method.now.name; params = length method.now.params.items; body = body; result = result_type }) }
    ensures memory { IfErr result (λ e. e ≡ Memory) }
{
    let (body, (params, name)) = together(body, head_of(alloc, method))?;
    Ok(Method {
        class,
        name,
        params,
        body,
        result: result_type,
    })
}

/// What a method has: its result's type, its parameters and its statements.
type MethodParts = (Option<ValueType>, ((), Vec<Stmt>));

/// The method of its judged parts.
fn method_of(
    alloc: Global,
    standing: &MemberWalk,
    method: &MethodNode,
    locals: Vec<ValueType>,
    parts: Answer<MethodParts>,
) -> Answer<Method>
    ensures { (j : Judged (Option PlainType × (Unit {0} × List Statement))) → Answers method_parts_view parts j → locals.items ≡ (method_end (member_env standing.now) (tree_method method.now)).locals → Answers method_view result (judge_parts (member_env standing.now) (tree_method method.now) j) }
{
    let limit = method_limit(standing, method);
    let (_, (result_type, (_, stmts))) = both(limit, parts)?;
    let body = Body { locals, stmts };
    let again = member_once(standing, &method.name, method.at);
    let ends = ends_with_return(method);
    match both(again, ends) {
        Ok(_) => method_with(alloc, standing.class, method, body, result_type),
        Err(e) => {
            let_go(body);
            Err(e)
        }
    }
}
