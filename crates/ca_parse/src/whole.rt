//! From the tokens of a text to its tree, or the first wrong token: `Derives` of `specs/Grammar.antt`.

ghost use Rattle.std.specs.Prelude.{◌≡◌, ◌++◌, ◌≤◌, ◌-◌, ℕ, cond, length, take, map, option_to_list, IfOk, Err};
ghost use Rattle.ca_descent.specs.Exact.{Exact};
ghost use Rattle.ca_descent.specs.Whole.{FirstWrong, FirstDeep};
ghost use Rattle.ca_tree.specs.declared.token.Keyword.TheVariants.{Int};
ghost use Rattle.ca_tree.specs.Plain.{TextTree};
ghost use Rattle.ca_tree.specs.View.{class_view, statement_view, tree_view};
ghost use Rattle.ca_expressions.specs.Terminals.{key};
ghost use Rattle.ca_expressions.specs.Readers.{answer};
ghost use Rattle.ca_parse.specs.Grammar.{Declaration, Lines, Program, DerivesFree, Derives, DerivesWithin, read, is_return_zero as ends_main};
ghost use Rattle.ca_parse.specs.clauses.Closed.{DeclarationRest, MainBody};

use crate::members::parse_members;
use crate::statements::parse_item;
use ca_expressions::{
    Fault, add, is_key, is_sign, is_zero, key_at, number_at, sign_at, take_key, take_name,
    take_sign,
};
use ca_tree::{ClassNode, Keyword, Name, Place, Sign, StmtNode, Token, Tree};
use std::alloc::{AllocFailed, Global};
use thiserror::Error;

/// Why no tree is given.
#[derive(Debug, Drop, Error)]
pub enum ParseError {
    /// The number of the first wrong token, or the number of tokens where more are wanted.
    #[error("token {0} is wrong")]
    Syntax(usize),
    /// The number of the first token that passes a limit on nesting, or on an expression's length.
    #[error("token {0} is nested too deeply")]
    Deep(usize),
    #[error("out of memory")]
    Memory,
}

/// What stands behind `class` and a name: a class, or none where it is only declared.
fn parse_class<'a>(
    alloc: Global,
    name: Name,
    at: Place,
    tokens: &'a [Token],
) -> Result<(Option<ClassNode>, &'a [Token]), Fault<'a>>
    ensures answer { Exact (DeclarationRest (name, at)) (DeclarationRest (name, at)) tokens.now (answer (λ c. map class_view (option_to_list c)) result) }
{
    if let Some((_, rest)) = sign_at(tokens, Sign::Semicolon) {
        return Ok((None, rest));
    }
    let (_, rest) = take_sign(tokens, Sign::OpenBrace)?;
    let (_, rest) = take_key(rest, Keyword::Public)?;
    let (_, rest) = take_sign(rest, Sign::Colon)?;
    let (members, rest) = parse_members(alloc, rest)?;
    let (_, rest) = take_sign(rest, Sign::Semicolon)?;
    Ok((Some(ClassNode { name, at, members }), rest))
}

/// A class, or none where it is only declared.
fn parse_declaration<'a>(
    alloc: Global,
    tokens: &'a [Token],
) -> Result<(Option<ClassNode>, &'a [Token]), Fault<'a>>
    ensures answer { Exact Declaration Declaration tokens.now (answer (λ c. map class_view (option_to_list c)) result) }
{
    let (_, rest) = take_key(tokens, Keyword::Class)?;
    let ((name, at), rest) = take_name(alloc, rest)?;
    parse_class(alloc, name, at, rest)
}

/// The class behind those before, if there is one.
fn with(
    before: Vec<ClassNode>,
    class: Option<ClassNode>,
) -> Result<Vec<ClassNode>, AllocFailed<ClassNode>>
    ensures { IfOk result (λ v. v.items ≡ before.items ++ option_to_list class) }
{
    let mut out = before;
    let Some(class) = class else {
        return Ok(out);
    };
    out.push(class)?;
    Ok(out)
}

/// The classes, and the word `int` behind them.
fn parse_classes<'a>(
    alloc: Global,
    tokens: &'a [Token],
) -> Result<(Vec<ClassNode>, &'a [Token]), Fault<'a>>
    ensures answer { Exact (Lines Declaration (key Int)) (Lines Declaration (key Int)) tokens.now (answer (λ v. map class_view v.items) result) }
{
    let mut out = Vec::new(alloc);
    let mut rest = tokens;
    'classes: while !is_key(rest, Keyword::Int) {
        let (class, more) = parse_declaration(alloc, rest)?;
        out = with(out, class)?;
        rest = more;
    }
    let (_, rest) = take_key(rest, Keyword::Int)?;
    Ok((out, rest))
}

/// Whether the tokens in front of the rest are `return 0 ;`.
fn is_return_zero(tokens: &[Token], rest: &[Token]) -> bool
    requires { length rest.now ≤ length tokens.now }
    ensures { result ≡ ends_main (read tokens.now rest.now) }
{
    let (item, _) = tokens.split_at(tokens.len() - rest.len());
    let Some((_, value)) = key_at(item, Keyword::Return) else {
        return false;
    };
    if !is_zero(value) {
        return false;
    }
    let Some((_, last)) = number_at(value) else {
        return false;
    };
    let Some((_, end)) = sign_at(last, Sign::Semicolon) else {
        return false;
    };
    end.is_empty()
}

/// The items, without the last one where it only ends them.
fn kept<T: Drop>(items: Vec<T>, ends: bool) -> Vec<T>
    ensures { result.items ≡ cond ends (take (length items.items - 1) items.items) items.items }
{
    let mut out = items;
    if !ends {
        return out;
    }
    let _ = out.pop();
    out
}

/// The items of `main`, and the brace behind them.
fn parse_main<'a>(
    alloc: Global,
    tokens: &'a [Token],
) -> Result<(Vec<StmtNode>, &'a [Token]), Fault<'a>>
    ensures answer { Exact MainBody MainBody tokens.now (answer (λ v. map statement_view v.items) result) }
{
    let mut out = Vec::new(alloc);
    let mut ends = false;
    let mut rest = tokens;
    'items: while !is_sign(rest, Sign::CloseBrace) {
        let (item, more) = parse_item(alloc, 1, rest)?;
        add(&mut out, item)?;
        ends = is_return_zero(rest, more);
        rest = more;
    }
    let (_, rest) = take_sign(rest, Sign::CloseBrace)?;
    Ok((kept(out, ends), rest))
}

/// The classes and `main`.
fn parse_program<'a>(alloc: Global, tokens: &'a [Token]) -> Result<(Tree, &'a [Token]), Fault<'a>>
    ensures answer { Exact Program Program tokens.now (answer tree_view result) }
{
    let (classes, rest) = parse_classes(alloc, tokens)?;
    let (_, rest) = take_key(rest, Keyword::Main)?;
    let (_, rest) = take_sign(rest, Sign::OpenParenthesis)?;
    let (_, rest) = take_sign(rest, Sign::CloseParenthesis)?;
    let (_, rest) = take_sign(rest, Sign::OpenBrace)?;
    let (main, rest) = parse_main(alloc, rest)?;
    Ok((Tree { classes, main }, rest))
}

/// The tree of a text, from its tokens.
pub fn parse(alloc: Global, tokens: &[Token]) -> Result<Tree, ParseError>
    // The tokens derive the tree, and none of them passes a limit.
    ensures tree { IfOk result (λ t. Derives tokens.now (tree_view t)) }
    ensures within { IfOk result (λ t. DerivesWithin tokens.now (tree_view t)) }
    // They derive no other, with or without limits.
    ensures only { IfOk result (λ t. (free : ℕ) (x : TextTree) → DerivesFree free tokens.now x → tree_view t ≡ x) }
    // A refusal names the first wrong token, or the first past a limit.
    ensures syntax { (k : ℕ) → result ≡ Err (ParseError.Syntax k) → FirstWrong DerivesFree tokens.now k }
    ensures deep { (k : ℕ) → result ≡ Err (ParseError.Deep k) → FirstDeep DerivesFree tokens.now k }
{
    match parse_program(alloc, tokens) {
        Ok((tree, rest)) => {
            if rest.is_empty() {
                Ok(tree)
            } else {
                Err(ParseError::Syntax(tokens.len() - rest.len()))
            }
        }
        Err(Fault::Wrong(rest)) => Err(ParseError::Syntax(tokens.len() - rest.len())),
        Err(Fault::TooDeep(rest)) => Err(ParseError::Deep(tokens.len() - rest.len())),
        Err(Fault::Memory) => Err(ParseError::Memory),
    }
}
