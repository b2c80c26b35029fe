//! From an expression of the tree to the one of the program, with its type: `judge_value` of `specs/Values.antt`.

ghost use Rattle.std.specs.Prelude.{◌≡◌, map, slice_get};
ghost use Rattle.ca_program.specs.Plain.{Expression};
ghost use Rattle.ca_resolve.specs.Scopes.{Ty as PlainTy};
ghost use Rattle.ca_tree.specs.View.{expression_view as node_view, expressions_view as nodes_view};
ghost use Rattle.ca_program.specs.View.{expression_view};
ghost use Rattle.ca_resolve.specs.Judged.{Answers, Judged, each};
ghost use Rattle.ca_resolve.specs.Values.{judge_arguments, judge_for, judge_found, judge_method_call, judge_own_call, judge_value};
ghost use Rattle.ca_resolve.specs.LocalView.{ty_view};
ghost use Rattle.ca_resolve.specs.View.{found_view, value_view, values_view, invocation_view, scope_view};

use crate::calls::{call_value, invocation, method_through, object_of, own_method, parameters_of};
use crate::errors::{CheckError, and_one};
use crate::found::{Found, Invocation};
use crate::nodes::{binary, field, item, named, this, unary, value_for, whole_value};
use crate::scope::Scope;
use crate::types::Ty;
use ca_program::Expr;
use ca_tree::{ExprKind, ExprNode, Name, Place};
use std::alloc::Global;

/// The value of the expression, and its type.
pub fn check_value<'a>(
    alloc: Global,
    scope: &Scope<'_, 'a>,
    e: &ExprNode,
) -> Result<(Expr, Ty<'a>), CheckError>
    ensures { Answers value_view result (judge_value (scope_view scope.now) (node_view e.now)) }
{
    whole_value(check_found(alloc, scope, e), e)
}

/// The value of the expression, which a target of the type is to hold.
pub fn check_for(alloc: Global, scope: &Scope, target: Ty, e: &ExprNode) -> Result<Expr, CheckError>
    ensures { Answers expression_view result (judge_for (scope_view scope.now) (ty_view target.entry) (node_view e.now)) }
{
    value_for(Some(target), check_value(alloc, scope, e), e)
}

/// What the expression is, before it is asked whether it is a whole array.
#[cycle(check)]
pub(crate) fn check_found<'a>(
    alloc: Global,
    scope: &Scope<'_, 'a>,
    e: &ExprNode,
) -> Result<Found<'a>, CheckError>
    ensures { Answers found_view result (judge_found (scope_view scope.now) (node_view e.now)) }
{
    let at = e.at;
    match &e.kind {
        ExprKind::Number(n) => Ok(Found::Value(Expr::Number(*n), Ty::Long)),
        ExprKind::Truth(b) => Ok(Found::Value(Expr::Truth(*b), Ty::Truth)),
        ExprKind::Null => Ok(Found::Value(Expr::Null, Ty::NoObject)),
        ExprKind::This => this(scope, at),
        ExprKind::Named(name) => named(alloc, scope, name, at),
        ExprKind::Call(name, args) => {
            call_value(alloc, check_own_call(alloc, scope, name, args, at), at)
        }
        ExprKind::Field(object, name) => {
            let object: &ExprNode = object;
            let value = whole_value(check_found(alloc, scope, object), object);
            field(alloc, scope, value, name, at)
        }
        ExprKind::Method(object, name, args) => {
            let object: &ExprNode = object;
            let value = whole_value(check_found(alloc, scope, object), object);
            call_value(
                alloc,
                check_method_call(alloc, scope, value, name, args, at),
                at,
            )
        }
        ExprKind::Index(array, index) => {
            let array = check_found(alloc, scope, array);
            let index: &ExprNode = index;
            let number = whole_value(check_found(alloc, scope, index), index);
            item(alloc, array, value_for(Some(Ty::Long), number, index), at)
        }
        ExprKind::Unary(op, operand) => {
            let operand: &ExprNode = operand;
            let value = whole_value(check_found(alloc, scope, operand), operand);
            unary(alloc, *op, value, at)
        }
        ExprKind::Binary(op, left, right) => {
            let left: &ExprNode = left;
            let right: &ExprNode = right;
            let first = whole_value(check_found(alloc, scope, left), left);
            let second = whole_value(check_found(alloc, scope, right), right);
            binary(alloc, *op, first, second, at)
        }
    }
}

/// A call of a method of the receiver, by its name alone.
#[cycle(check)]
pub(crate) fn check_own_call<'a>(
    alloc: Global,
    scope: &Scope<'_, 'a>,
    name: &Name,
    args: &[ExprNode],
    at: Place,
) -> Result<Invocation<'a>, CheckError>
    ensures { Answers invocation_view result (judge_own_call (scope_view scope.now) name.now (nodes_view args.now) at) }
{
    let callee = own_method(scope, name, at);
    let params = parameters_of(&callee, args.len())?;
    let arguments = check_arguments(alloc, scope, params, args);
    invocation(Ok(Expr::This), callee, arguments, at)
}

/// A call of a method of the object.
#[cycle(check)]
pub(crate) fn check_method_call<'a>(
    alloc: Global,
    scope: &Scope<'_, 'a>,
    object: Result<(Expr, Ty<'a>), CheckError>,
    name: &Name,
    args: &[ExprNode],
    at: Place,
) -> Result<Invocation<'a>, CheckError>
    ensures { (j : Judged (Expression × PlainTy)) → Answers value_view object.entry j → Answers invocation_view result (judge_method_call (scope_view scope.now) j name.now (nodes_view args.now) at) }
{
    let callee = method_through(scope, &object, name, at);
    let params = parameters_of(&callee, args.len())?;
    let arguments = check_arguments(alloc, scope, params, args);
    invocation(object_of(object), callee, arguments, at)
}

/// The arguments, each for its parameter where there are parameters.
#[cycle(check)]
fn check_arguments<'a>(
    alloc: Global,
    scope: &Scope<'_, 'a>,
    params: &[Ty<'a>],
    args: &[ExprNode],
) -> Result<Vec<Expr>, CheckError>
    ensures { Answers values_view result (each (judge_arguments (scope_view scope.now) (map ty_view params.now) (nodes_view args.now))) }
{
    let mut values = Ok(Vec::new(alloc));
    for (i, arg) in args.iter().enumerate() {
        let target = type_at(params, i);
        let value = whole_value(check_found(alloc, scope, arg), arg);
        values = and_one(values, value_for(target, value, arg));
    }
    values
}

/// The type of this parameter, where there are parameters.
fn type_at<'a>(params: &[Ty<'a>], i: usize) -> Option<Ty<'a>>
    ensures { result ≡ slice_get params.now i }
{
    if i < params.len() {
        Some(params[i])
    } else {
        None
    }
}
