//! Types, as locals, fields, parameters and results have them.

ghost use Rattle.std.specs.Prelude.{◌≡◌, IfOk};
ghost use Rattle.ca_descent.specs.Exact.{Exact};
ghost use Rattle.ca_parse.specs.Grammar.{TypeName, is_pointer as is_pointer_type};
ghost use Rattle.ca_parse.specs.clauses.Closed.{is_local};
ghost use Rattle.ca_expressions.specs.Readers.{answer};

use ca_expressions::{Fault, is_key, is_name, is_sign, key_at, take_name, take_sign};
use ca_tree::{Keyword, Place, Sign, Token, TypeNode};
use std::alloc::{AllocError, Global};

/// A type, and the place of its first token.
pub fn parse_type<'a>(
    alloc: Global,
    tokens: &'a [Token],
) -> Result<((TypeNode, Place), &'a [Token]), Fault<'a>>
    ensures answer { Exact TypeName TypeName tokens.now (answer (λ t. t) result) }
{
    if let Some((at, rest)) = key_at(tokens, Keyword::Long) {
        return Ok(((TypeNode::Long, at), rest));
    }
    if let Some((at, rest)) = key_at(tokens, Keyword::Bool) {
        return Ok(((TypeNode::Bool, at), rest));
    }
    let ((name, at), rest) = take_name(alloc, tokens)?;
    let (_, rest) = take_sign(rest, Sign::Times)?;
    Ok(((TypeNode::Pointer(name, at), at), rest))
}

/// An equal type.
pub fn copy_type(alloc: Global, ty: &TypeNode) -> Result<TypeNode, AllocError>
    ensures { IfOk result (λ copy. copy ≡ ty.now) }
{
    Ok(match ty {
        TypeNode::Long => TypeNode::Long,
        TypeNode::Bool => TypeNode::Bool,
        TypeNode::Pointer(name, at) => TypeNode::Pointer(name.copy(alloc)?, *at),
    })
}

/// Whether it is a pointer's type.
pub fn is_pointer(ty: &TypeNode) -> bool
    ensures { result ≡ is_pointer_type ty.now }
{
    matches!(ty, TypeNode::Pointer(_, _))
}

/// Whether a local begins: `long`, `bool`, or a name and `*`.
pub fn begins_local(tokens: &[Token]) -> bool
    ensures { result ≡ is_local tokens.now }
{
    if is_key(tokens, Keyword::Long) || is_key(tokens, Keyword::Bool) {
        return true;
    }
    let [_, rest @ ..] = tokens else {
        return false;
    };
    is_name(tokens) && is_sign(rest, Sign::Times)
}
