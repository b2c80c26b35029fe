//! From tokens to declarations of locals and assignments: `Local`, `Assign` and `First` of `specs/Grammar.antt`.

ghost use Rattle.std.specs.Prelude.{◌≡◌, None, pos, IfSome, IfNone};
ghost use Rattle.ca_tree.specs.Plain.{value, number};
ghost use Rattle.ca_descent.specs.Exact.{Exact, Unlimited, Sees, head_of};
ghost use Rattle.ca_tree.specs.View.{expression_view, right_view};
ghost use Rattle.ca_expressions.specs.Readers.{answer, node_view};
ghost use Rattle.ca_parse.specs.Compounds.{compound_of_sign, compound};
ghost use Rattle.ca_parse.specs.Grammar.{Right as RightSide, Local, Change, Assign, AssignLine, First, first_place as first_place_of};
ghost use Rattle.ca_parse.specs.clauses.Closed.{RightClosed, ChangeClosed, AssignClosed, AssignTo, AssignToClosed, stmt_view};

use crate::endings::{ended, line, statement};
use crate::types::{begins_local, parse_type};
use ca_expressions::{
    Fault, is_target, key_at, parse_chain, parse_expression, sign_at, take_name, take_sign,
};
use ca_tree::{
    AssignOp, ExprKind, ExprNode, Keyword, Kind, Place, Right, Sign, StmtKind, StmtNode, Token,
};
use std::alloc::Global;

/// The place of the first token of a chain.
pub fn first_place(chain: &ExprNode) -> Place
    ensures { result ≡ first_place_of (expression_view chain.now) }
{
    match &chain.kind {
        ExprKind::Field(object, _) => first_place(object),
        ExprKind::Method(object, _, _) => first_place(object),
        ExprKind::Index(array, _) => first_place(array),
        ExprKind::Binary(_, left, _) => first_place(left),
        _ => chain.at,
    }
}

/// What a target is put to: a value, or a new object.
pub fn parse_right<'a>(
    alloc: Global,
    tokens: &'a [Token],
) -> Result<(Right, &'a [Token]), Fault<'a>>
    ensures answer { Exact RightSide RightClosed tokens.now (answer right_view result) }
{
    let Some((_, rest)) = key_at(tokens, Keyword::New) else {
        let (value, rest) = parse_expression(alloc, tokens)?;
        return Ok((Right::Value(Box::into_inner(value)), rest));
    };
    let ((class, at), rest) = take_name(alloc, rest)?;
    let Some((_, more)) = sign_at(rest, Sign::OpenParenthesis) else {
        return Ok((Right::New(class, at), rest));
    };
    let (_, rest) = take_sign(more, Sign::CloseParenthesis)?;
    Ok((Right::New(class, at), rest))
}

/// A local, and the `;` behind it.
pub fn parse_local<'a>(
    alloc: Global,
    tokens: &'a [Token],
) -> Result<(Box<StmtNode>, &'a [Token]), Fault<'a>>
    ensures answer { Exact Local Local tokens.now (answer stmt_view result) }
{
    let ((ty, at), rest) = parse_type(alloc, tokens)?;
    let ((name, name_at), rest) = take_name(alloc, rest)?;
    let Some((_, more)) = sign_at(rest, Sign::Assign) else {
        let kind = StmtKind::Local {
            ty,
            name,
            name_at,
            value: None,
        };
        return line(alloc, at, kind, rest);
    };
    let (value, rest) = parse_right(alloc, more)?;
    let kind = StmtKind::Local {
        ty,
        name,
        name_at,
        value: Some(value),
    };
    line(alloc, at, kind, rest)
}

/// The assignment that a sign writes, of those that change what their target holds.
fn compound_of_sign(sign: Sign) -> Option<AssignOp>
    ensures { result ≡ compound_of_sign sign }
{
    match sign {
        Sign::PlusAssign => Some(AssignOp::Add),
        Sign::MinusAssign => Some(AssignOp::Sub),
        Sign::TimesAssign => Some(AssignOp::Mul),
        Sign::BitAndAssign => Some(AssignOp::BitAnd),
        Sign::BitOrAssign => Some(AssignOp::BitOr),
        Sign::BitXorAssign => Some(AssignOp::BitXor),
        _ => None,
    }
}

/// The same of the sign in front, and what stands behind it.
fn compound_at(tokens: &[Token]) -> Option<(AssignOp, &[Token])>
    ensures some { IfSome result (λ p. Sees compound tokens.now p.0 p.1.now) }
    ensures none { IfNone result (head_of compound tokens.now ≡ None) }
{
    let [token, rest @ ..] = tokens else {
        return None;
    };
    let Kind::Sign(sign) = &token.kind else {
        return None;
    };
    let Some(op) = compound_of_sign(*sign) else {
        return None;
    };
    Some((op, rest))
}

/// The sign of an assignment that changes what its target holds, such as `+=`.
fn parse_compound<'a>(tokens: &'a [Token]) -> Result<(AssignOp, &'a [Token]), Fault<'a>>
    ensures answer { Exact (Unlimited (Sees compound)) (Unlimited (Sees compound)) tokens.now (answer (λ o. o) result) }
{
    match compound_at(tokens) {
        Some((op, rest)) => Ok((op, rest)),
        None => Err(Fault::Wrong(tokens)),
    }
}

/// The 1 of `++` and `--`, at the place of the sign.
fn one(at: Place) -> Right
    ensures { right_view result ≡ value (number at (pos 1)) }
{
    let kind = ExprKind::Number(1);
    Right::Value(ExprNode { at, kind })
}

/// What stands behind the target of an assignment.
fn parse_change<'a>(
    alloc: Global,
    tokens: &'a [Token],
) -> Result<((AssignOp, Right), &'a [Token]), Fault<'a>>
    ensures answer { Exact Change ChangeClosed tokens.now (answer (λ c. (c.0, right_view c.1)) result) }
{
    if let Some((_, rest)) = sign_at(tokens, Sign::Assign) {
        let (right, rest) = parse_right(alloc, rest)?;
        return Ok(((AssignOp::Put, right), rest));
    }
    if let Some((at, rest)) = sign_at(tokens, Sign::Increment) {
        return Ok(((AssignOp::Add, one(at)), rest));
    }
    if let Some((at, rest)) = sign_at(tokens, Sign::Decrement) {
        return Ok(((AssignOp::Sub, one(at)), rest));
    }
    let (op, rest) = parse_compound(tokens)?;
    let (value, rest) = parse_expression(alloc, rest)?;
    Ok(((op, Right::Value(Box::into_inner(value))), rest))
}

/// What the assignment does behind its target.
pub fn parse_assign_to<'a>(
    alloc: Global,
    target: Box<ExprNode>,
    tokens: &'a [Token],
) -> Result<(Box<StmtNode>, &'a [Token]), Fault<'a>>
    ensures answer { Exact (AssignTo (node_view target)) (AssignToClosed (node_view target)) tokens.now (answer stmt_view result) }
{
    let at = first_place(&target);
    let ((op, right), rest) = parse_change(alloc, tokens)?;
    let target = Box::into_inner(target);
    let made = statement(alloc, at, StmtKind::Assign { target, op, right })?;
    Ok((made, rest))
}

/// An assignment.
pub fn parse_assign<'a>(
    alloc: Global,
    tokens: &'a [Token],
) -> Result<(Box<StmtNode>, &'a [Token]), Fault<'a>>
    ensures answer { Exact Assign AssignClosed tokens.now (answer stmt_view result) }
{
    let (target, rest) = parse_chain(alloc, tokens)?;
    if !is_target(&target) {
        return Err(Fault::Wrong(rest));
    }
    parse_assign_to(alloc, target, rest)
}

/// The first part of a `for`, and the `;` behind it.
pub fn parse_first<'a>(
    alloc: Global,
    tokens: &'a [Token],
) -> Result<(Box<StmtNode>, &'a [Token]), Fault<'a>>
    ensures answer { Exact First First tokens.now (answer stmt_view result) }
{
    if begins_local(tokens) {
        return parse_local(alloc, tokens);
    }
    parse_assign_line(alloc, tokens)
}

/// An assignment, and the `;` behind it.
fn parse_assign_line<'a>(
    alloc: Global,
    tokens: &'a [Token],
) -> Result<(Box<StmtNode>, &'a [Token]), Fault<'a>>
    ensures answer { Exact AssignLine AssignLine tokens.now (answer stmt_view result) }
{
    let (assign, rest) = parse_assign(alloc, tokens)?;
    ended(assign, rest)
}
