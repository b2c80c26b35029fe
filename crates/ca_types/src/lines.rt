//! Checks calls, conditions, `return` and `print`: `judge_call_statement` and so on of `specs/Statements.antt`.

ghost use Rattle.std.specs.Prelude.{◌≡◌, map};
ghost use Rattle.std.specs.Option.{option_map};
ghost use Rattle.ca_tree.specs.View.{expression_view};
ghost use Rattle.ca_program.specs.View as program;
ghost use Rattle.ca_resolve.specs.Judged.{Answers};
ghost use Rattle.ca_resolve.specs.LocalView.{ty_view};
ghost use Rattle.ca_resolve.specs.View.{scope_view, callee_view};
ghost use Rattle.ca_types.specs.Rules.{called_operation, has_text};
ghost use Rattle.ca_types.specs.Statements.{judge_condition, judge_call_statement, judge_return, judge_printed, judge_print};
ghost use Rattle.ca_types.specs.clauses.View.{env_view};

use crate::puts::check_wanted;
use crate::rules::Answer;
use crate::walk::Walk;
use ca_program::{Expr, OpId, Stmt, StmtForm};
use ca_resolve::codes::{TYPES_DISAGREE, VALUE_METHOD_ACTS, WRONG_CALL, WRONG_RETURN};
use ca_resolve::{Callee, Scope, Ty, check_call, check_value, let_go, violation};
use ca_tree::{ExprNode, Place};
use std::alloc::Global;

/// The operation that a statement calls.
fn called_operation(returned: &Option<Ty>, callee: &Callee, at: Place) -> Answer<OpId>
    ensures { Answers (λ o. o) result (called_operation (option_map ty_view returned.now) (callee_view callee.now) at) }
{
    match callee {
        Callee::Operation(op) => {
            if returned.is_some() {
                Err(violation(at, VALUE_METHOD_ACTS))
            } else {
                Ok(*op)
            }
        }
        Callee::Function(..) => Err(violation(at, WRONG_CALL)),
    }
}

/// A call as a statement.
pub(crate) fn check_call_statement(
    alloc: Global,
    walk: &Walk,
    at: Place,
    e: &ExprNode,
) -> Answer<Stmt>
    ensures { Answers program.statement_view result (judge_call_statement (env_view walk.now) at (expression_view e.now)) }
{
    let call = check_call(alloc, &walk.scope(), e)?;
    match called_operation(&walk.result, &call.callee, e.at) {
        Ok(op) => Ok(Stmt {
            line: at.line,
            kind: StmtForm::Invoke(call.receiver, op, call.arguments),
        }),
        Err(e) => {
            let_go(call);
            Err(e)
        }
    }
}

/// The condition of an `if` or a loop.
pub(crate) fn check_condition(alloc: Global, scope: &Scope, e: &ExprNode) -> Answer<Expr>
    ensures { Answers program.expression_view result (judge_condition (scope_view scope.now) (expression_view e.now)) }
{
    let (value, ty) = check_value(alloc, scope, e)?;
    if ty.is_truth() {
        Ok(value)
    } else {
        let_go(value);
        Err(violation(e.at, TYPES_DISAGREE))
    }
}

/// A `return`.
pub(crate) fn check_return(alloc: Global, walk: &Walk, at: Place, e: &ExprNode) -> Answer<Stmt>
    ensures { Answers program.statement_view result (judge_return (env_view walk.now) at (expression_view e.now)) }
{
    let value = check_wanted(alloc, &walk.scope(), walk.result, e)?;
    if walk.result.is_none() {
        let_go(value);
        return Err(violation(at, WRONG_RETURN));
    }
    Ok(Stmt {
        line: at.line,
        kind: StmtForm::Return(value),
    })
}

/// Whether values of the type have a text.
fn has_text(ty: &Ty) -> bool
    ensures { result ≡ has_text (ty_view ty.now) }
{
    ty.is_long() || ty.is_truth()
}

/// A number or a truth value, to be printed.
fn check_printed(alloc: Global, scope: &Scope, e: &ExprNode) -> Answer<Expr>
    ensures { Answers program.expression_view result (judge_printed (scope_view scope.now) (expression_view e.now)) }
{
    let (value, ty) = check_value(alloc, scope, e)?;
    if has_text(&ty) {
        Ok(value)
    } else {
        let_go(value);
        Err(violation(e.at, TYPES_DISAGREE))
    }
}

/// A `print`.
pub(crate) fn check_print(alloc: Global, walk: &Walk, at: Place, e: &ExprNode) -> Answer<Stmt>
    ensures { Answers program.statement_view result (judge_print (env_view walk.now) at (expression_view e.now)) }
{
    let value = check_printed(alloc, &walk.scope(), e)?;
    if walk.result.is_some() {
        let_go(value);
        return Err(violation(at, VALUE_METHOD_ACTS));
    }
    Ok(Stmt {
        line: at.line,
        kind: StmtForm::Print(value),
    })
}
