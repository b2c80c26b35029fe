//! From what stands on the left of an assignment to the local, field or item that it names: `judge_target` of
//! `specs/Values.antt`.

ghost use Rattle.std.specs.Prelude.{◌≡◌};
ghost use Rattle.ca_tree.specs.View.{expression_view as node_view};
ghost use Rattle.ca_program.specs.Plain.{Expression};
ghost use Rattle.ca_program.specs.View.{expression_view};
ghost use Rattle.ca_resolve.specs.Judged.{Answers, Judged};
ghost use Rattle.ca_resolve.specs.Scopes.{Found as PlainFound};
ghost use Rattle.ca_resolve.specs.Rules.{is_item_target, is_target};
ghost use Rattle.ca_resolve.specs.Values.{judge_item_target, judge_target};
ghost use Rattle.ca_resolve.specs.View.{found_view, target_view, scope_view};

use crate::codes::NO_TARGET;
use crate::errors::{CheckError, both, let_go, violation};
use crate::found::{Found, Target};
use crate::scope::Scope;
use crate::types::Ty;
use crate::values::{check_for, check_found};
use ca_program::Expr;
use ca_tree::{ExprKind, ExprNode, Place};
use std::alloc::Global;

/// What the expression names as a target, and the type of its values.
pub fn check_target<'a>(
    alloc: Global,
    scope: &Scope<'_, 'a>,
    e: &ExprNode,
) -> Result<(Target, Ty<'a>), CheckError>
    ensures { Answers target_view result (judge_target (scope_view scope.now) (node_view e.now)) }
{
    match &e.kind {
        ExprKind::Index(array, index) => {
            let array = check_found(alloc, scope, array);
            item_target(array, check_for(alloc, scope, Ty::Long, index), e.at)
        }
        _ => {
            let found = check_found(alloc, scope, e)?;
            let answer = target(&found, e.at);
            let_go(found);
            answer
        }
    }
}

/// A local, or an own scalar field.
fn target<'a>(found: &Found<'a>, at: Place) -> Result<(Target, Ty<'a>), CheckError>
    ensures { Answers target_view result (is_target (found_view found.now) at) }
{
    match found {
        Found::Value(Expr::Local(id), ty) => Ok((Target::Local(*id), *ty)),
        Found::Value(Expr::Own(id), ty) => Ok((Target::Field(*id), *ty)),
        Found::Value(..) | Found::Array(..) => Err(violation(at, NO_TARGET)),
    }
}

/// An item of an own array field.
fn own_item<'a>(array: &Found<'a>, index: Expr, at: Place) -> Result<(Target, Ty<'a>), CheckError>
    ensures { Answers target_view result (is_item_target (found_view array.now) (expression_view index) at) }
{
    match array {
        Found::Array(Expr::This, id, ty) => Ok((Target::Item(*id, index), *ty)),
        Found::Array(..) | Found::Value(..) => {
            let_go(index);
            Err(violation(at, NO_TARGET))
        }
    }
}

/// An item as a target.
fn item_target<'a>(
    array: Result<Found<'a>, CheckError>,
    index: Result<Expr, CheckError>,
    at: Place,
) -> Result<(Target, Ty<'a>), CheckError>
    ensures { (j : Judged PlainFound) (k : Judged Expression) → Answers found_view array.entry j → Answers expression_view index k → Answers target_view result (judge_item_target j k at) }
{
    let (array, index) = both(array, index)?;
    let answer = own_item(&array, index, at);
    let_go(array);
    answer
}
