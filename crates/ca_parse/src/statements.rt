//! From tokens to statements: `Stmt`, `Item` and `Items` of `specs/Grammar.antt`.

ghost use Rattle.std.specs.Prelude.{◌≡◌, ◌≤◌, ◌<◌, IfOk, map, is_some, length, false, true};
ghost use Rattle.ca_descent.specs.Exact.{Exact, head_of};
ghost use Rattle.ca_tree.specs.declared.token.Keyword.TheVariants.{Else};
ghost use Rattle.ca_tree.specs.Plain.{if_only as if_only_tree, if_else as if_else_tree, while_loop as while_tree, for_loop as for_tree};
ghost use Rattle.ca_tree.specs.View.{statement_view};
ghost use Rattle.ca_expressions.specs.Terminals.{key};
ghost use Rattle.ca_expressions.specs.Readers.{answer, node_view};
ghost use Rattle.ca_parse.specs.Grammar.{Stmt, Item, Items, is_open};
ghost use Rattle.ca_parse.specs.clauses.Closed.{StmtClosed, ItemClosed, Condition, IfRest, IfRestClosed, WhileRest, WhileRestClosed, ForRest, ForRestClosed, ReturnRest, PrintRest, Simple, is_nested, stmt_view};

use crate::assigns::{first_place, parse_assign, parse_assign_to, parse_first, parse_local};
use crate::endings::{ended, line, statement};
use crate::types::begins_local;
use ca_expressions::{
    Fault, add, is_call, is_key, is_sign, is_target, key_at, parse_chain, parse_expression,
    sign_at, take_sign,
};
use ca_tree::{ExprNode, Keyword, Place, Sign, StmtKind, StmtNode, Token};
use std::alloc::{AllocError, Global};

/// How many blocks, ifs and loops a token may stand in.
pub const DEEPEST: usize = 200;

/// An `if` without `else`.
fn if_only(
    alloc: Global,
    at: Place,
    cond: Box<ExprNode>,
    yes: Box<StmtNode>,
) -> Result<Box<StmtNode>, AllocError>
    ensures { IfOk result (λ s. stmt_view s ≡ if_only_tree at (node_view cond) (stmt_view yes)) }
{
    let cond = Box::into_inner(cond);
    let kind = StmtKind::If {
        cond,
        yes,
        no: None,
    };
    let made = statement(alloc, at, kind)?;
    Ok(made)
}

/// An `if` with its `else`.
fn if_else(
    alloc: Global,
    at: Place,
    cond: Box<ExprNode>,
    yes: Box<StmtNode>,
    other: Box<StmtNode>,
) -> Result<Box<StmtNode>, AllocError>
    ensures { IfOk result (λ s. stmt_view s ≡ if_else_tree at (node_view cond) (stmt_view yes) (stmt_view other)) }
{
    let cond = Box::into_inner(cond);
    let kind = StmtKind::If {
        cond,
        yes,
        no: Some(other),
    };
    let made = statement(alloc, at, kind)?;
    Ok(made)
}

/// A `while`.
fn while_loop(
    alloc: Global,
    at: Place,
    cond: Box<ExprNode>,
    body: Box<StmtNode>,
) -> Result<Box<StmtNode>, AllocError>
    ensures { IfOk result (λ s. stmt_view s ≡ while_tree at (node_view cond) (stmt_view body)) }
{
    let cond = Box::into_inner(cond);
    let made = statement(alloc, at, StmtKind::While { cond, body })?;
    Ok(made)
}

/// A `for`.
fn for_loop(
    alloc: Global,
    at: Place,
    first: Box<StmtNode>,
    cond: Box<ExprNode>,
    next: Box<StmtNode>,
    body: Box<StmtNode>,
) -> Result<Box<StmtNode>, AllocError>
    ensures { IfOk result (λ s. stmt_view s ≡ for_tree at (stmt_view first) (node_view cond) (stmt_view next) (stmt_view body)) }
{
    let cond = Box::into_inner(cond);
    let kind = StmtKind::For {
        first,
        cond,
        next,
        body,
    };
    let made = statement(alloc, at, kind)?;
    Ok(made)
}

/// A statement that begins with a chain: a call, or an assignment.
fn parse_simple<'a>(
    alloc: Global,
    tokens: &'a [Token],
) -> Result<(Box<StmtNode>, &'a [Token]), Fault<'a>>
    ensures answer { Exact Simple Simple tokens.now (answer stmt_view result) }
{
    let (chain, rest) = parse_chain(alloc, tokens)?;
    if is_call(&chain) {
        let at = first_place(&chain);
        let kind = StmtKind::Call(Box::into_inner(chain));
        return line(alloc, at, kind, rest);
    }
    if !is_target(&chain) {
        return Err(Fault::Wrong(rest));
    }
    let (assign, rest) = parse_assign_to(alloc, chain, rest)?;
    ended(assign, rest)
}

/// What stands behind the word `return`, which stands at the place.
fn parse_return<'a>(
    alloc: Global,
    at: Place,
    tokens: &'a [Token],
) -> Result<(Box<StmtNode>, &'a [Token]), Fault<'a>>
    ensures answer { Exact (ReturnRest at) (ReturnRest at) tokens.now (answer stmt_view result) }
{
    let (value, rest) = parse_expression(alloc, tokens)?;
    let kind = StmtKind::Return(Box::into_inner(value));
    line(alloc, at, kind, rest)
}

/// What stands behind the word `print`, which stands at the place.
fn parse_print<'a>(
    alloc: Global,
    at: Place,
    tokens: &'a [Token],
) -> Result<(Box<StmtNode>, &'a [Token]), Fault<'a>>
    ensures answer { Exact (PrintRest at) (PrintRest at) tokens.now (answer stmt_view result) }
{
    let (value, rest) = parse_condition(alloc, tokens)?;
    let kind = StmtKind::Print(Box::into_inner(value));
    line(alloc, at, kind, rest)
}

/// An expression between round brackets.
fn parse_condition<'a>(
    alloc: Global,
    tokens: &'a [Token],
) -> Result<(Box<ExprNode>, &'a [Token]), Fault<'a>>
    ensures answer { Exact Condition Condition tokens.now (answer node_view result) }
    ensures shorter { IfOk result (λ p. length p.1.now < length tokens.now) }
{
    let (_, rest) = take_sign(tokens, Sign::OpenParenthesis)?;
    let (value, rest) = parse_expression(alloc, rest)?;
    let (_, rest) = take_sign(rest, Sign::CloseParenthesis)?;
    Ok((value, rest))
}

/// Whether a block, `if`, `while` or `for` begins.
fn begins_nested(tokens: &[Token]) -> bool
    ensures { result ≡ is_nested tokens.now }
{
    is_sign(tokens, Sign::OpenBrace)
        || is_key(tokens, Keyword::If)
        || is_key(tokens, Keyword::While)
        || is_key(tokens, Keyword::For)
}

/// A block, `if`, `while` or `for`.
#[cycle(statement)]
fn parse_nested<'a>(
    alloc: Global,
    depth: usize,
    tokens: &'a [Token],
) -> Result<(Box<StmtNode>, &'a [Token]), Fault<'a>>
    requires room { depth < DEEPEST }
    requires nested { is_nested tokens.now ≡ true }
    ensures answer { Exact (Stmt depth) (StmtClosed depth) tokens.now (answer stmt_view result) }
    ensures shut { IfOk result (λ p. is_some (head_of (key Else) p.1.now) ≡ true → is_open (stmt_view p.0) ≡ false) }
{
    if let Some((at, rest)) = sign_at(tokens, Sign::OpenBrace) {
        let (items, rest) = parse_items(alloc, depth + 1, rest)?;
        let block = statement(alloc, at, StmtKind::Block(items))?;
        return Ok((block, rest));
    }
    if let Some((at, rest)) = key_at(tokens, Keyword::If) {
        return parse_if(alloc, depth, at, rest);
    }
    if let Some((at, rest)) = key_at(tokens, Keyword::While) {
        return parse_while(alloc, depth, at, rest);
    }
    let Some((at, rest)) = key_at(tokens, Keyword::For) else {
        return Err(Fault::Wrong(tokens));
    };
    parse_for(alloc, depth, at, rest)
}

/// A statement in so many blocks, ifs and loops.
#[cycle(statement)]
fn parse_statement<'a>(
    alloc: Global,
    depth: usize,
    tokens: &'a [Token],
) -> Result<(Box<StmtNode>, &'a [Token]), Fault<'a>>
    requires { depth ≤ DEEPEST }
    ensures answer { Exact (Stmt depth) (StmtClosed depth) tokens.now (answer stmt_view result) }
    ensures shut { IfOk result (λ p. is_some (head_of (key Else) p.1.now) ≡ true → is_open (stmt_view p.0) ≡ false) }
{
    if begins_nested(tokens) {
        if depth == DEEPEST {
            return Err(Fault::TooDeep(tokens));
        }
        return parse_nested(alloc, depth, tokens);
    }
    if let Some((at, rest)) = sign_at(tokens, Sign::Semicolon) {
        let empty = statement(alloc, at, StmtKind::Empty)?;
        return Ok((empty, rest));
    }
    if let Some((at, rest)) = key_at(tokens, Keyword::Return) {
        return parse_return(alloc, at, rest);
    }
    if let Some((at, rest)) = key_at(tokens, Keyword::Print) {
        return parse_print(alloc, at, rest);
    }
    parse_simple(alloc, tokens)
}

/// A local or a statement.
#[cycle(statement)]
pub fn parse_item<'a>(
    alloc: Global,
    depth: usize,
    tokens: &'a [Token],
) -> Result<(Box<StmtNode>, &'a [Token]), Fault<'a>>
    requires { depth ≤ DEEPEST }
    ensures answer { Exact (Item depth) (ItemClosed depth) tokens.now (answer stmt_view result) }
{
    if begins_local(tokens) {
        return parse_local(alloc, tokens);
    }
    parse_statement(alloc, depth, tokens)
}

/// Items, and the brace behind them.
#[cycle(statement)]
pub fn parse_items<'a>(
    alloc: Global,
    depth: usize,
    tokens: &'a [Token],
) -> Result<(Vec<StmtNode>, &'a [Token]), Fault<'a>>
    requires { depth ≤ DEEPEST }
    ensures answer { Exact (Items depth) (Items depth) tokens.now (answer (λ v. map statement_view v.items) result) }
{
    let mut out = Vec::new(alloc);
    let mut rest = tokens;
    'items: while !is_sign(rest, Sign::CloseBrace) {
        let (item, more) = parse_item(alloc, depth, rest)?;
        add(&mut out, item)?;
        rest = more;
    }
    let (_, rest) = take_sign(rest, Sign::CloseBrace)?;
    Ok((out, rest))
}

/// What stands behind the word `if`, which stands at the place.
#[cycle(statement)]
fn parse_if<'a>(
    alloc: Global,
    depth: usize,
    at: Place,
    tokens: &'a [Token],
) -> Result<(Box<StmtNode>, &'a [Token]), Fault<'a>>
    requires { depth < DEEPEST }
    ensures answer { Exact (IfRest depth at) (IfRestClosed depth at) tokens.now (answer stmt_view result) }
    ensures shut { IfOk result (λ p. is_some (head_of (key Else) p.1.now) ≡ true → is_open (stmt_view p.0) ≡ false) }
{
    let (cond, rest) = parse_condition(alloc, tokens)?;
    let (yes, rest) = parse_statement(alloc, depth + 1, rest)?;
    let Some((_, more)) = key_at(rest, Keyword::Else) else {
        let whole = if_only(alloc, at, cond, yes)?;
        return Ok((whole, rest));
    };
    let (other, rest) = parse_statement(alloc, depth + 1, more)?;
    let whole = if_else(alloc, at, cond, yes, other)?;
    Ok((whole, rest))
}

/// What stands behind the word `while`, which stands at the place.
#[cycle(statement)]
fn parse_while<'a>(
    alloc: Global,
    depth: usize,
    at: Place,
    tokens: &'a [Token],
) -> Result<(Box<StmtNode>, &'a [Token]), Fault<'a>>
    requires { depth < DEEPEST }
    ensures answer { Exact (WhileRest depth at) (WhileRestClosed depth at) tokens.now (answer stmt_view result) }
    ensures shut { IfOk result (λ p. is_some (head_of (key Else) p.1.now) ≡ true → is_open (stmt_view p.0) ≡ false) }
{
    let (cond, rest) = parse_condition(alloc, tokens)?;
    let (body, rest) = parse_statement(alloc, depth + 1, rest)?;
    let whole = while_loop(alloc, at, cond, body)?;
    Ok((whole, rest))
}

/// What stands behind the word `for`, which stands at the place.
#[cycle(statement)]
fn parse_for<'a>(
    alloc: Global,
    depth: usize,
    at: Place,
    tokens: &'a [Token],
) -> Result<(Box<StmtNode>, &'a [Token]), Fault<'a>>
    requires { depth < DEEPEST }
    ensures answer { Exact (ForRest depth at) (ForRestClosed depth at) tokens.now (answer stmt_view result) }
    ensures shut { IfOk result (λ p. is_some (head_of (key Else) p.1.now) ≡ true → is_open (stmt_view p.0) ≡ false) }
{
    let (_, rest) = take_sign(tokens, Sign::OpenParenthesis)?;
    let (first, rest) = parse_first(alloc, rest)?;
    let (cond, rest) = parse_expression(alloc, rest)?;
    let (_, rest) = take_sign(rest, Sign::Semicolon)?;
    let (next, rest) = parse_assign(alloc, rest)?;
    let (_, rest) = take_sign(rest, Sign::CloseParenthesis)?;
    let (body, rest) = parse_statement(alloc, depth + 1, rest)?;
    let whole = for_loop(alloc, at, first, cond, next, body)?;
    Ok((whole, rest))
}
