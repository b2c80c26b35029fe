//! From a call in the tree to its receiver, method and arguments in the program: `judge_call` of `specs/Values.antt`.

ghost use Rattle.std.specs.Prelude.{◌≡◌, List, map, IfOk, IfErr};
ghost use Rattle.ca_tree.specs.View.{expression_view as node_view};
ghost use Rattle.ca_program.specs.Plain.{Expression};
ghost use Rattle.ca_program.specs.View.{expression_view};
ghost use Rattle.ca_resolve.specs.Judged.{Answers, Judged, each};
ghost use Rattle.ca_resolve.specs.Scopes.{Ty as PlainTy, Callee as PlainCallee, Invocation as PlainInvocation};
ghost use Rattle.ca_resolve.specs.Rules.{is_method};
ghost use Rattle.ca_resolve.specs.Values as values;
ghost use Rattle.ca_resolve.specs.LocalView.{ty_view};
ghost use Rattle.ca_resolve.specs.View.{found_view, value_view, values_view, meaning_view, method_view, invocation_view, scope_view};

use crate::classes::Meaning;
use crate::codes::{UNKNOWN_NAME, WRONG_CALL, WRONG_COUNT};
use crate::errors::{CheckError, both, let_go, violation};
use crate::found::{Found, Invocation};
use crate::nodes::{receiver_member, whole_value};
use crate::scope::Scope;
use crate::types::{Callee, Ty};
use crate::values::{check_found, check_method_call, check_own_call};
use ca_program::Expr;
use ca_tree::{ExprKind, ExprNode, Name, Place};
use std::alloc::Global;

/// A method, with the types of its parameters.
type Method<'s, 'a> = (Callee<'a>, &'s [Ty<'a>]);

/// The call that the expression is.
pub fn check_call<'a>(
    alloc: Global,
    scope: &Scope<'_, 'a>,
    e: &ExprNode,
) -> Result<Invocation<'a>, CheckError>
    ensures { Answers invocation_view result (values.judge_call (scope_view scope.now) (node_view e.now)) }
{
    let at = e.at;
    match &e.kind {
        ExprKind::Call(name, args) => check_own_call(alloc, scope, name, args, at),
        ExprKind::Method(object, name, args) => {
            let object: &ExprNode = object;
            let value = whole_value(check_found(alloc, scope, object), object);
            check_method_call(alloc, scope, value, name, args, at)
        }
        ExprKind::Number(_)
        | ExprKind::Truth(_)
        | ExprKind::Null
        | ExprKind::This
        | ExprKind::Named(_)
        | ExprKind::Field(..)
        | ExprKind::Index(..)
        | ExprKind::Unary(..)
        | ExprKind::Binary(..) => {
            let value = whole_value(check_found(alloc, scope, e), e)?;
            let_go(value);
            Err(violation(at, WRONG_CALL))
        }
    }
}

/// The method that is meant.
fn as_method<'s, 'a>(meaning: &'s Meaning<'a>, at: Place) -> Result<Method<'s, 'a>, CheckError>
    ensures { Answers method_view result (is_method (meaning_view meaning.now) at) }
{
    match meaning {
        Meaning::Method(callee, params) => Ok((*callee, params.as_slice())),
        Meaning::Scalar(..) | Meaning::Items(..) => Err(violation(at, UNKNOWN_NAME)),
    }
}

/// The method of the receiver's own class.
pub(crate) fn own_method<'s, 'a>(
    scope: &Scope<'s, 'a>,
    name: &Name,
    at: Place,
) -> Result<Method<'s, 'a>, CheckError>
    ensures { Answers method_view result (values.own_method (scope_view scope.now) name.now at) }
{
    match scope.own_member(name) {
        Some(meaning) => as_method(meaning, at),
        None => Err(violation(at, UNKNOWN_NAME)),
    }
}

/// The method of the object's class.
pub(crate) fn method_through<'s, 'a>(
    scope: &Scope<'s, 'a>,
    object: &Result<(Expr, Ty<'a>), CheckError>,
    name: &Name,
    at: Place,
) -> Result<Method<'s, 'a>, CheckError>
    ensures { (j : Judged (Expression × PlainTy)) → Answers value_view object.now j → Answers method_view result (values.method_through (scope_view scope.now) j name.now at) }
{
    match object {
        Ok((_, ty)) => as_method(receiver_member(scope, ty, name, at)?, at),
        Err(e) => Err(*e),
    }
}

/// The types of the parameters, where the method is known and has so many.
pub(crate) fn parameters_of<'s, 'a>(
    callee: &Result<Method<'s, 'a>, CheckError>,
    count: usize,
) -> Result<&'s [Ty<'a>], CheckError>
    ensures known { IfOk result (λ params. (j : Judged (PlainCallee × List PlainTy)) → Answers method_view callee.now j → map ty_view params.now ≡ values.parameters_of j count) }
    ensures memory { IfErr result (λ e. e ≡ CheckError.Memory) }
{
    match callee {
        Ok((_, params)) => {
            if params.len() == count {
                Ok(params)
            } else {
                Ok(&[])
            }
        }
        Err(CheckError::Memory) => Err(CheckError::Memory),
        Err(_) => Ok(&[]),
    }
}

pub(crate) fn object_of(object: Result<(Expr, Ty), CheckError>) -> Result<Expr, CheckError>
    ensures { (j : Judged (Expression × PlainTy)) → Answers value_view object.entry j → Answers expression_view result (values.object_of j) }
{
    let (object, _) = object?;
    Ok(object)
}

/// The call of a method with its arguments.
pub(crate) fn invocation<'a>(
    receiver: Result<Expr, CheckError>,
    callee: Result<Method<'_, 'a>, CheckError>,
    arguments: Result<Vec<Expr>, CheckError>,
    at: Place,
) -> Result<Invocation<'a>, CheckError>
    ensures { (j : Judged Expression) (k : Judged (PlainCallee × List PlainTy)) (js : List (Judged Expression)) → Answers expression_view receiver j → Answers method_view callee.entry k → Answers values_view arguments (each js) → Answers invocation_view result (values.judge_invocation j k js at) }
{
    let (receiver, arguments) = both(receiver, arguments)?;
    let (callee, params) = callee?;
    if arguments.len() != params.len() {
        let_go((receiver, arguments));
        return Err(violation(at, WRONG_COUNT));
    }
    Ok(Invocation {
        receiver,
        callee,
        arguments,
    })
}

/// The value of the call.
pub(crate) fn call_value<'a>(
    alloc: Global,
    call: Result<Invocation<'a>, CheckError>,
    at: Place,
) -> Result<Found<'a>, CheckError>
    ensures { (j : Judged PlainInvocation) → Answers invocation_view call.entry j → Answers found_view result (values.call_value at j) }
{
    let call = call?;
    match call.callee {
        Callee::Operation(_) => {
            let_go(call);
            Err(violation(at, WRONG_CALL))
        }
        Callee::Function(id, ty) => {
            let receiver = Box::new(alloc, call.receiver)?;
            Ok(Found::Value(Expr::Value(receiver, id, call.arguments), ty))
        }
    }
}
