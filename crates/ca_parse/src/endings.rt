//! Reads the `;` that ends a statement: `Ended` of `specs/clauses/Closed.antt`.

ghost use Rattle.std.specs.Prelude.{◌≡◌, IfOk};
ghost use Rattle.ca_descent.specs.Exact.{Exact};
ghost use Rattle.ca_tree.specs.View.{statement_view};
ghost use Rattle.ca_expressions.specs.Readers.{answer};
ghost use Rattle.ca_parse.specs.clauses.Closed.{Ended, stmt_view};

use ca_expressions::{Fault, boxed, take_sign};
use ca_tree::{Place, Sign, StmtKind, StmtNode, Token};
use std::alloc::{AllocError, Global};

/// The value, where a `;` stands behind it.
pub fn ended<'a, T: Drop>(value: T, tokens: &'a [Token]) -> Result<(T, &'a [Token]), Fault<'a>>
    ensures answer { Exact (Ended value) (Ended value) tokens.now (answer (λ v. v) result) }
{
    let (_, rest) = take_sign(tokens, Sign::Semicolon)?;
    Ok((value, rest))
}

/// The statement of this kind. Statements are handed on in boxes, so that an early end drops a box alone.
pub fn statement(alloc: Global, at: Place, kind: StmtKind) -> Result<Box<StmtNode>, AllocError>
    ensures { IfOk result (λ s. s.value ≡ record { at = at; kind = kind }) }
{
    boxed(alloc, StmtNode { at, kind })
}

/// The statement of this kind, where a `;` stands behind it.
pub fn line<'a>(
    alloc: Global,
    at: Place,
    kind: StmtKind,
    tokens: &'a [Token],
) -> Result<(Box<StmtNode>, &'a [Token]), Fault<'a>>
    ensures answer { Exact (Ended (statement_view (record { at = at; kind = kind }))) (Ended (statement_view (record { at = at; kind = kind }))) tokens.now (answer stmt_view result) }
{
    let made = statement(alloc, at, kind)?;
    ended(made, tokens)
}
