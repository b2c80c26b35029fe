//! From tokens to the fields and methods of a class: `Member` of `specs/Grammar.antt`.

ghost use Rattle.std.specs.Prelude.{◌≡◌, ◌∷◌, ◌++◌, [], None, map, IfOk};
ghost use Rattle.ca_descent.specs.Exact.{Exact, head_of};
ghost use Rattle.ca_tree.specs.declared.token.Sign.TheVariants.{OpenParenthesis, CloseBrace};
ghost use Rattle.ca_tree.specs.View.{member_view, statement_view};
ghost use Rattle.ca_expressions.specs.Terminals.{sign};
ghost use Rattle.ca_expressions.specs.Readers.{answer};
ghost use Rattle.ca_parse.specs.Grammar.{Param, Listed, Signature, Length, Further, Member as MemberRule, Lines};
ghost use Rattle.ca_parse.specs.clauses.Closed.{LengthClosed, Named, NamedClosed, FurtherClosed, MethodOf, MemberRest};

use crate::statements::parse_items;
use crate::types::{copy_type, is_pointer, parse_type};
use ca_expressions::{Fault, is_sign, key_at, sign_at, take_name, take_number, take_sign};
use ca_tree::{
    FieldNode, Keyword, Member, MethodNode, Name, ParamNode, Place, Sign, StmtNode, Token, TypeNode,
};
use std::alloc::{AllocFailed, Global};

/// A parameter of a method.
fn parse_param<'a>(
    alloc: Global,
    tokens: &'a [Token],
) -> Result<(ParamNode, &'a [Token]), Fault<'a>>
    ensures answer { Exact Param Param tokens.now (answer (λ p. p) result) }
{
    let ((ty, _), rest) = parse_type(alloc, tokens)?;
    let ((name, at), rest) = take_name(alloc, rest)?;
    Ok((ParamNode { ty, name, at }, rest))
}

/// The parameters of a method, and the bracket behind them.
fn parse_params<'a>(
    alloc: Global,
    tokens: &'a [Token],
) -> Result<(Vec<ParamNode>, &'a [Token]), Fault<'a>>
    ensures answer { Exact (Listed Param) (Listed Param) tokens.now (answer (λ v. v.items) result) }
{
    let mut out = Vec::new(alloc);
    if let Some((_, end)) = sign_at(tokens, Sign::CloseParenthesis) {
        return Ok((out, end));
    }
    let (first, behind) = parse_param(alloc, tokens)?;
    out.push(first)?;
    let mut rest = behind;
    'more: while let Some((_, more)) = sign_at(rest, Sign::Comma) {
        let (param, more) = parse_param(alloc, more)?;
        out.push(param)?;
        rest = more;
    }
    let Some((_, end)) = sign_at(rest, Sign::CloseParenthesis) else {
        return Err(Fault::Wrong(rest));
    };
    Ok((out, end))
}

/// The parameters and the body of a method, with their brackets.
fn parse_signature<'a>(
    alloc: Global,
    tokens: &'a [Token],
) -> Result<((Vec<ParamNode>, Vec<StmtNode>), &'a [Token]), Fault<'a>>
    ensures answer { Exact Signature Signature tokens.now (answer (λ m. (m.0.items, map statement_view m.1.items)) result) }
{
    let (_, rest) = take_sign(tokens, Sign::OpenParenthesis)?;
    let (params, rest) = parse_params(alloc, rest)?;
    let (_, rest) = take_sign(rest, Sign::OpenBrace)?;
    let (body, rest) = parse_items(alloc, 1, rest)?;
    Ok(((params, body), rest))
}

/// The length of an array field between its brackets, if it is one.
fn parse_length<'a>(tokens: &'a [Token]) -> Result<(Option<i64>, &'a [Token]), Fault<'a>>
    ensures answer { Exact Length LengthClosed tokens.now (answer (λ l. l) result) }
{
    let Some((_, rest)) = sign_at(tokens, Sign::OpenBracket) else {
        return Ok((None, tokens));
    };
    let ((length, _), rest) = take_number(rest)?;
    let (_, rest) = take_sign(rest, Sign::CloseBracket)?;
    Ok((Some(length), rest))
}

/// A field of the type, with its name and its length.
fn parse_named<'a>(
    alloc: Global,
    ty: TypeNode,
    tokens: &'a [Token],
) -> Result<(Member, &'a [Token]), Fault<'a>>
    ensures answer { Exact (Named ty) (NamedClosed ty) tokens.now (answer member_view result) }
{
    let ((name, at), rest) = take_name(alloc, tokens)?;
    let (length, rest) = parse_length(rest)?;
    let field = FieldNode {
        ty,
        name,
        at,
        length,
    };
    Ok((Member::Field(field), rest))
}

/// What stands behind a comma in a line of fields of the type.
fn parse_further<'a>(
    alloc: Global,
    ty: &TypeNode,
    tokens: &'a [Token],
) -> Result<(Member, &'a [Token]), Fault<'a>>
    ensures answer { Exact (Further ty.now) (FurtherClosed ty.now) tokens.now (answer member_view result) }
{
    let copy = copy_type(alloc, ty)?;
    if !is_pointer(ty) {
        return parse_named(alloc, copy, tokens);
    }
    let (_, rest) = take_sign(tokens, Sign::Times)?;
    parse_named(alloc, copy, rest)
}

/// The fields of a line behind the type and the first name, and the `;` behind them.
fn parse_fields<'a>(
    alloc: Global,
    ty: TypeNode,
    name: Name,
    at: Place,
    tokens: &'a [Token],
) -> Result<(Vec<Member>, &'a [Token]), Fault<'a>>
    requires { head_of (sign OpenParenthesis) tokens.now ≡ None }
    ensures answer { Exact (MemberRest ty (name, at)) (MemberRest ty (name, at)) tokens.now (answer (λ v. map member_view v.items) result) }
{
    let (length, behind) = parse_length(tokens)?;
    let first = FieldNode {
        ty: copy_type(alloc, &ty)?,
        name,
        at,
        length,
    };
    let mut out = line(alloc, Member::Field(first))?;
    let mut rest = behind;
    'more: while let Some((_, more)) = sign_at(rest, Sign::Comma) {
        let (field, more) = parse_further(alloc, &ty, more)?;
        out.push(field)?;
        rest = more;
    }
    let Some((_, end)) = sign_at(rest, Sign::Semicolon) else {
        return Err(Fault::Wrong(rest));
    };
    Ok((out, end))
}

/// A line of one member.
fn line(alloc: Global, member: Member) -> Result<Vec<Member>, AllocFailed<Member>>
    ensures { IfOk result (λ v. v.items ≡ member ∷ []) }
{
    let mut out = Vec::new(alloc);
    out.push(member)?;
    Ok(out)
}

/// A line of fields, or a method.
fn parse_member<'a>(
    alloc: Global,
    tokens: &'a [Token],
) -> Result<(Vec<Member>, &'a [Token]), Fault<'a>>
    ensures answer { Exact MemberRule MemberRule tokens.now (answer (λ v. map member_view v.items) result) }
{
    if let Some((_, rest)) = key_at(tokens, Keyword::Void) {
        let ((name, at), rest) = take_name(alloc, rest)?;
        return parse_method(alloc, None, name, at, rest);
    }
    let ((ty, _), rest) = parse_type(alloc, tokens)?;
    let ((name, at), rest) = take_name(alloc, rest)?;
    if is_sign(rest, Sign::OpenParenthesis) {
        return parse_method(alloc, Some(ty), name, at, rest);
    }
    parse_fields(alloc, ty, name, at, rest)
}

/// A method behind its result and its name, as a line of its own.
fn parse_method<'a>(
    alloc: Global,
    result_type: Option<TypeNode>,
    name: Name,
    at: Place,
    tokens: &'a [Token],
) -> Result<(Vec<Member>, &'a [Token]), Fault<'a>>
    ensures answer { Exact (MethodOf result_type (name, at)) (MethodOf result_type (name, at)) tokens.now (answer (λ v. map member_view v.items) result) }
{
    let ((params, body), rest) = parse_signature(alloc, tokens)?;
    let method = MethodNode {
        result: result_type,
        name,
        at,
        params,
        body,
    };
    Ok((line(alloc, Member::Method(method))?, rest))
}

/// The members of a line behind those before.
fn join(before: Vec<Member>, line: Vec<Member>) -> Result<Vec<Member>, AllocFailed<Member>>
    ensures { IfOk result (λ v. v.items ≡ before.items ++ line.items) }
{
    let mut out = before;
    'members: for member in line {
        out.push(member)?;
    }
    Ok(out)
}

/// The members of a class, and the brace behind them.
pub fn parse_members<'a>(
    alloc: Global,
    tokens: &'a [Token],
) -> Result<(Vec<Member>, &'a [Token]), Fault<'a>>
    ensures answer { Exact (Lines MemberRule (sign CloseBrace)) (Lines MemberRule (sign CloseBrace)) tokens.now (answer (λ v. map member_view v.items) result) }
{
    let mut out = Vec::new(alloc);
    let mut rest = tokens;
    'members: while !is_sign(rest, Sign::CloseBrace) {
        let (line, more) = parse_member(alloc, rest)?;
        out = join(out, line)?;
        rest = more;
    }
    let (_, rest) = take_sign(rest, Sign::CloseBrace)?;
    Ok((out, rest))
}
