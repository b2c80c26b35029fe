//! The rules of a node, where its parts have been looked at.

ghost use Rattle.std.specs.Prelude.{◌≡◌, IfOk, box_value};
ghost use Rattle.ca_tree.specs.View.{expression_view as node_view};
ghost use Rattle.ca_program.specs.Plain.{Expression};
ghost use Rattle.ca_program.specs.View.{expression_view};
ghost use Rattle.ca_resolve.specs.Judged.{Answers, Judged, within};
ghost use Rattle.ca_resolve.specs.Scopes.{Ty as PlainTy, Found as PlainFound, find_local};
ghost use Rattle.ca_resolve.specs.Rules as rules;
ghost use Rattle.ca_resolve.specs.Values.{as_value, judge_this, judge_named, judge_field, judge_item, judge_unary, judge_binary, field_of, item_of, member_read, place_of, value_for, value_of};
ghost use Rattle.ca_resolve.specs.View.{found_view, value_view, meaning_view, scope_view, wanted_view};
ghost use Rattle.ca_resolve.specs.LocalView.{ty_view};

use crate::classes::Meaning;
use crate::codes::{THIS_IN_MAIN, TYPES_DISAGREE, UNKNOWN_NAME, WRONG_INDEX};
use crate::errors::{CheckError, both, let_go, violation};
use crate::found::Found;
use crate::scope::Scope;
use crate::types::{Ty, binary_ty, takes_binary, takes_unary, unary_ty};
use ca_program::{Expr, FieldId};
use ca_tree::{BinaryOp, ExprNode, Name, Place, UnaryOp};
use std::alloc::{AllocError, Global};

/// `this`
pub(crate) fn this<'a>(scope: &Scope<'_, 'a>, at: Place) -> Result<Found<'a>, CheckError>
    ensures { Answers found_view result (within (judge_this (scope_view scope.now) at) as_value) }
{
    match scope.class {
        Some(class) => Ok(Found::Value(Expr::This, Ty::Pointer(class))),
        None => Err(violation(at, THIS_IN_MAIN)),
    }
}

/// A name alone.
pub(crate) fn named<'a>(
    alloc: Global,
    scope: &Scope<'_, 'a>,
    name: &Name,
    at: Place,
) -> Result<Found<'a>, CheckError>
    ensures { Answers found_view result (judge_named (scope_view scope.now) (find_local (scope_view scope.now).locals name.now) name.now at) }
{
    if let Some(local) = scope.locals.find(name) {
        return Ok(Found::Value(Expr::Local(local.id), local.ty));
    }
    match scope.own_member(name) {
        Some(meaning) => member_read(alloc, Expr::This, meaning, at),
        None => Err(violation(at, UNKNOWN_NAME)),
    }
}

/// What is read of the object by a name of this meaning.
fn member_read<'a>(
    alloc: Global,
    object: Expr,
    meaning: &Meaning<'a>,
    at: Place,
) -> Result<Found<'a>, CheckError>
    ensures { Answers found_view result (member_read (expression_view object) (meaning_view meaning.now) at) }
{
    match meaning {
        Meaning::Scalar(id, ty) => Ok(Found::Value(field_of(alloc, object, *id)?, *ty)),
        Meaning::Items(id, ty) => Ok(Found::Array(object, *id, *ty)),
        Meaning::Method(..) => {
            let_go(object);
            Err(violation(at, UNKNOWN_NAME))
        }
    }
}

/// Two values, each in a box.
fn boxes<T: Drop>(alloc: Global, first: T, second: T) -> Result<(Box<T>, Box<T>), AllocError>
    ensures first { IfOk result (λ p. box_value p.0 ≡ first) }
    ensures second { IfOk result (λ p. box_value p.1 ≡ second) }
{
    let first = Box::new(alloc, first)?;
    let second = Box::new(alloc, second)?;
    Ok((first, second))
}

/// A field of the object.
fn field_of(alloc: Global, object: Expr, id: FieldId) -> Result<Expr, AllocError>
    ensures { IfOk result (λ e. expression_view e ≡ field_of (expression_view object) id) }
{
    if matches!(object, Expr::This) {
        let_go(object);
        return Ok(Expr::Own(id));
    }
    Ok(Expr::Read(Box::new(alloc, object)?, id))
}

/// An item of an array field of the object.
fn item_of(alloc: Global, object: Expr, id: FieldId, index: Expr) -> Result<Expr, AllocError>
    ensures { IfOk result (λ e. expression_view e ≡ item_of (expression_view object) id (expression_view index)) }
{
    if matches!(object, Expr::This) {
        let_go(object);
        return Ok(Expr::OwnItem(id, Box::new(alloc, index)?));
    }
    let (object, index) = boxes(alloc, object, index)?;
    Ok(Expr::ReadItem(object, id, index))
}

/// The member of the receiver's class.
pub(crate) fn receiver_member<'s, 'a>(
    scope: &Scope<'s, 'a>,
    ty: &Ty<'a>,
    name: &Name,
    at: Place,
) -> Result<&'s Meaning<'a>, CheckError>
    ensures { Answers (λ m. meaning_view m.now) result (rules.receiver_member (scope_view scope.now).classes (ty_view ty.now) name.now at) }
{
    match ty {
        Ty::Pointer(class) => match scope.classes.find_member(*class, name) {
            Some(meaning) => Ok(meaning),
            None => Err(violation(at, UNKNOWN_NAME)),
        },
        Ty::Undefined(_) => Err(violation(at, UNKNOWN_NAME)),
        Ty::Long | Ty::Truth | Ty::NoObject => Err(violation(at, TYPES_DISAGREE)),
    }
}

/// `object->name`
pub(crate) fn field<'a>(
    alloc: Global,
    scope: &Scope<'_, 'a>,
    object: Result<(Expr, Ty<'a>), CheckError>,
    name: &Name,
    at: Place,
) -> Result<Found<'a>, CheckError>
    ensures { (j : Judged (Expression × PlainTy)) → Answers value_view object.entry j → Answers found_view result (judge_field (scope_view scope.now) j name.now at) }
{
    let (object, ty) = object?;
    let meaning = receiver_member(scope, &ty, name, at)?;
    member_read(alloc, object, meaning, at)
}

/// A value, and no whole array.
pub(crate) fn whole_value<'a>(
    found: Result<Found<'a>, CheckError>,
    e: &ExprNode,
) -> Result<(Expr, Ty<'a>), CheckError>
    ensures { (j : Judged PlainFound) → Answers found_view found.entry j → Answers value_view result (value_of (node_view e.now) j) }
{
    match found? {
        Found::Value(value, ty) => Ok((value, ty)),
        Found::Array(array, ..) => {
            let_go(array);
            Err(violation(place_of(e), WRONG_INDEX))
        }
    }
}

/// The place at which the expression's type is told to be wrong.
fn place_of(e: &ExprNode) -> Place
    ensures { result ≡ place_of (node_view e.now) }
{
    e.at
}

/// `array[index]`
pub(crate) fn item<'a>(
    alloc: Global,
    array: Result<Found<'a>, CheckError>,
    index: Result<Expr, CheckError>,
    at: Place,
) -> Result<Found<'a>, CheckError>
    ensures { (j : Judged PlainFound) (k : Judged Expression) → Answers found_view array.entry j → Answers expression_view index k → Answers found_view result (judge_item j k at) }
{
    let (array, index) = both(array, index)?;
    match array {
        Found::Array(object, id, ty) => Ok(Found::Value(item_of(alloc, object, id, index)?, ty)),
        Found::Value(value, _) => {
            let_go((value, index));
            Err(violation(at, WRONG_INDEX))
        }
    }
}

/// A value that a target is to hold, where its type is known.
pub(crate) fn value_for(
    target: Option<Ty>,
    value: Result<(Expr, Ty), CheckError>,
    e: &ExprNode,
) -> Result<Expr, CheckError>
    ensures { (j : Judged (Expression × PlainTy)) → Answers value_view value.entry j → Answers expression_view result (value_for (wanted_view target.entry) j (place_of (node_view e.now))) }
{
    let (value, ty) = value?;
    match target {
        None => Ok(value),
        Some(target) => {
            if target.can_hold(&ty) {
                Ok(value)
            } else {
                let_go(value);
                Err(violation(place_of(e), TYPES_DISAGREE))
            }
        }
    }
}

/// An operator and its operand.
pub(crate) fn unary<'a>(
    alloc: Global,
    op: UnaryOp,
    operand: Result<(Expr, Ty<'a>), CheckError>,
    at: Place,
) -> Result<Found<'a>, CheckError>
    ensures { (j : Judged (Expression × PlainTy)) → Answers value_view operand.entry j → Answers found_view result (judge_unary at op j) }
{
    let (operand, ty) = operand?;
    if !takes_unary(op, &ty) {
        let_go(operand);
        return Err(violation(at, TYPES_DISAGREE));
    }
    let operand = Box::new(alloc, operand)?;
    Ok(Found::Value(Expr::Unary(op, operand), unary_ty(op)))
}

/// An operator between its operands.
pub(crate) fn binary<'a>(
    alloc: Global,
    op: BinaryOp,
    left: Result<(Expr, Ty<'a>), CheckError>,
    right: Result<(Expr, Ty<'a>), CheckError>,
    at: Place,
) -> Result<Found<'a>, CheckError>
    ensures { (j k : Judged (Expression × PlainTy)) → Answers value_view left.entry j → Answers value_view right.entry k → Answers found_view result (judge_binary at op j k) }
{
    let ((left, left_ty), (right, right_ty)) = both(left, right)?;
    if !takes_binary(op, &left_ty, &right_ty) {
        let_go((left, right));
        return Err(violation(at, TYPES_DISAGREE));
    }
    let (left, right) = boxes(alloc, left, right)?;
    Ok(Found::Value(Expr::Binary(op, left, right), binary_ty(op)))
}
