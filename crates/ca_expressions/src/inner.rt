//! Expressions and their parts, without a limit of tokens.

ghost use Rattle.std.specs.Prelude.{◌≡◌, ◌<◌, ◌≤◌, length, map, IfOk};
ghost use Rattle.ca_descent.specs.Exact.{Exact, Unlimited, Before};
ghost use Rattle.ca_tree.specs.View.{expression_view};
ghost use Rattle.ca_tree.specs.Operators.{unary_level};
ghost use Rattle.ca_expressions.specs.Terminals.{sign, goes_on};
ghost use Rattle.ca_expressions.specs.Grammar.{Level, Operands, Unary, Primary, Sides, Chain, Tails, Tail, Args};
ghost use Rattle.ca_expressions.specs.Readers.{answer, node_view, Closed};
ghost use Rattle.ca_tree.specs.declared.token.Sign.TheVariants.{OpenParenthesis};

use crate::nodes::{add, binary, boxed, field, index, method, node, unary};
use crate::tokens::{
    Fault, is_sign, is_tail, key_at, literal_at, operator_at, sign_at, take_name, take_sign,
    unary_at, word_at,
};
use ca_tree::{BinaryOp, ExprKind, ExprNode, Keyword, LEVELS, Place, Sign, Token};
use std::alloc::Global;

/// An expression whose operators outside of brackets are of the level or bind more tightly.
#[cycle(expression)]
pub fn parse_level<'a>(
    alloc: Global,
    level: usize,
    tokens: &'a [Token],
) -> Result<(Box<ExprNode>, &'a [Token]), Fault<'a>>
    requires { level ≤ LEVELS }
    ensures answer { Exact (Unlimited (Level level)) (Closed level (Level level)) tokens.now (answer node_view result) }
    ensures shorter { IfOk result (λ p. length p.1.now < length tokens.now) }
{
    let (mut front, mut rest) = parse_unary(alloc, tokens)?;
    let mut reached = LEVELS;
    'levels: while reached > level {
        reached -= 1;
        (front, rest) = parse_operands(alloc, reached, front, rest)?;
    }
    Ok((front, rest))
}

/// The operators of the level and their right operands, to the left.
#[cycle(expression)]
fn parse_operands<'a>(
    alloc: Global,
    level: usize,
    first: Box<ExprNode>,
    tokens: &'a [Token],
) -> Result<(Box<ExprNode>, &'a [Token]), Fault<'a>>
    requires { level < LEVELS }
    ensures answer { Exact (Unlimited (Operands level (node_view first))) (Closed level (Operands level (node_view first))) tokens.now (answer node_view result) }
    ensures shorter { IfOk result (λ p. length p.1.now ≤ length tokens.now) }
{
    let mut front = first;
    let mut rest = tokens;
    'operators: while let Some(((op, at), more)) = operator_at(rest, level) {
        let (operand, more) = parse_level(alloc, level + 1, more)?;
        front = binary(alloc, op, at, front, operand)?;
        rest = more;
    }
    Ok((front, rest))
}

#[cycle(expression)]
fn parse_unary<'a>(
    alloc: Global,
    tokens: &'a [Token],
) -> Result<(Box<ExprNode>, &'a [Token]), Fault<'a>>
    ensures answer { Exact (Unlimited Unary) (Closed unary_level Unary) tokens.now (answer node_view result) }
    ensures shorter { IfOk result (λ p. length p.1.now < length tokens.now) }
{
    let Some(((op, at), rest)) = unary_at(tokens) else {
        return parse_primary(alloc, tokens);
    };
    let (inner, rest) = parse_unary(alloc, rest)?;
    let node = unary(alloc, op, at, inner)?;
    Ok((node, rest))
}

#[cycle(expression)]
fn parse_primary<'a>(
    alloc: Global,
    tokens: &'a [Token],
) -> Result<(Box<ExprNode>, &'a [Token]), Fault<'a>>
    ensures answer { Exact (Unlimited Primary) (Closed unary_level Primary) tokens.now (answer node_view result) }
    ensures shorter { IfOk result (λ p. length p.1.now < length tokens.now) }
{
    if let Some((literal, rest)) = literal_at(tokens) {
        let literal = boxed(alloc, literal)?;
        return Ok((literal, rest));
    }
    if let Some((found, rest)) = word_at(tokens) {
        return parse_by_word(alloc, found, rest);
    }
    let Some((_, rest)) = sign_at(tokens, Sign::OpenParenthesis) else {
        return parse_inner_chain(alloc, tokens);
    };
    let (inner, rest) = parse_level(alloc, 0, rest)?;
    let (_, rest) = take_sign(rest, Sign::CloseParenthesis)?;
    parse_tails(alloc, inner, rest)
}

/// The operator that is written by a key word, on its sides in round brackets.
#[cycle(expression)]
fn parse_by_word<'a>(
    alloc: Global,
    found: (BinaryOp, Place),
    tokens: &'a [Token],
) -> Result<(Box<ExprNode>, &'a [Token]), Fault<'a>>
    ensures answer { Exact (Unlimited (Sides found)) (Unlimited (Sides found)) tokens.now (answer node_view result) }
    ensures shorter { IfOk result (λ p. length p.1.now < length tokens.now) }
{
    let (_, rest) = take_sign(tokens, Sign::OpenParenthesis)?;
    let (left, rest) = parse_level(alloc, 0, rest)?;
    let (_, rest) = take_sign(rest, Sign::Comma)?;
    let (right, rest) = parse_level(alloc, 0, rest)?;
    let (_, rest) = take_sign(rest, Sign::CloseParenthesis)?;
    let (op, at) = found;
    let node = binary(alloc, op, at, left, right)?;
    Ok((node, rest))
}

/// A chain within an expression or of its own.
#[cycle(expression)]
pub fn parse_inner_chain<'a>(
    alloc: Global,
    tokens: &'a [Token],
) -> Result<(Box<ExprNode>, &'a [Token]), Fault<'a>>
    ensures answer { Exact (Unlimited Chain) (Closed unary_level Chain) tokens.now (answer node_view result) }
    ensures shorter { IfOk result (λ p. length p.1.now < length tokens.now) }
{
    if let Some((at, rest)) = key_at(tokens, Keyword::This) {
        let front = node(alloc, at, ExprKind::This)?;
        return parse_tails(alloc, front, rest);
    }
    let ((name, at), rest) = take_name(alloc, tokens)?;
    if !is_sign(rest, Sign::OpenParenthesis) {
        let front = node(alloc, at, ExprKind::Named(name))?;
        return parse_tails(alloc, front, rest);
    }
    let (args, rest) = parse_args(alloc, rest)?;
    let front = node(alloc, at, ExprKind::Call(name, args))?;
    parse_tails(alloc, front, rest)
}

/// The tails of the chain.
#[cycle(expression)]
fn parse_tails<'a>(
    alloc: Global,
    first: Box<ExprNode>,
    tokens: &'a [Token],
) -> Result<(Box<ExprNode>, &'a [Token]), Fault<'a>>
    ensures answer { Exact (Unlimited (Tails (node_view first))) (Closed unary_level (Tails (node_view first))) tokens.now (answer node_view result) }
    ensures shorter { IfOk result (λ p. length p.1.now ≤ length tokens.now) }
{
    let mut front = first;
    let mut rest = tokens;
    'tails: while is_tail(rest) {
        (front, rest) = parse_tail(alloc, front, rest)?;
    }
    Ok((front, rest))
}

/// One tail of the chain.
#[cycle(expression)]
fn parse_tail<'a>(
    alloc: Global,
    front: Box<ExprNode>,
    tokens: &'a [Token],
) -> Result<(Box<ExprNode>, &'a [Token]), Fault<'a>>
    ensures answer { Exact (Unlimited (Tail (node_view front))) (Before (sign OpenParenthesis) (Unlimited (Tail (node_view front)))) tokens.now (answer node_view result) }
    ensures shorter { IfOk result (λ p. length p.1.now < length tokens.now) }
{
    if let Some((at, rest)) = sign_at(tokens, Sign::OpenBracket) {
        let (item, rest) = parse_level(alloc, 0, rest)?;
        let (_, rest) = take_sign(rest, Sign::CloseBracket)?;
        let node = index(alloc, at, front, item)?;
        return Ok((node, rest));
    }
    let (at, rest) = take_sign(tokens, Sign::Arrow)?;
    let ((name, _), rest) = take_name(alloc, rest)?;
    if !is_sign(rest, Sign::OpenParenthesis) {
        let node = field(alloc, at, front, name)?;
        return Ok((node, rest));
    }
    let (args, rest) = parse_args(alloc, rest)?;
    let node = method(alloc, at, front, name, args)?;
    Ok((node, rest))
}

/// The arguments of a call, from bracket to bracket.
#[cycle(expression)]
fn parse_args<'a>(
    alloc: Global,
    tokens: &'a [Token],
) -> Result<(Vec<ExprNode>, &'a [Token]), Fault<'a>>
    ensures answer { Exact (Unlimited Args) (Unlimited Args) tokens.now (answer (λ v. map expression_view v.items) result) }
    ensures shorter { IfOk result (λ p. length p.1.now < length tokens.now) }
{
    let (_, behind) = take_sign(tokens, Sign::OpenParenthesis)?;
    let mut out = Vec::new(alloc);
    if let Some((_, end)) = sign_at(behind, Sign::CloseParenthesis) {
        return Ok((out, end));
    }
    let (first, more) = parse_level(alloc, 0, behind)?;
    add(&mut out, first)?;
    let mut rest = more;
    'more: while let Some((_, more)) = sign_at(rest, Sign::Comma) {
        let (arg, more) = parse_level(alloc, 0, more)?;
        add(&mut out, arg)?;
        rest = more;
    }
    let Some((_, end)) = sign_at(rest, Sign::CloseParenthesis) else {
        return Err(Fault::Wrong(rest));
    };
    Ok((out, end))
}
