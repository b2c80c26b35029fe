//! Expressions and chains that stand in no other, with their limit of tokens.

ghost use Rattle.std.specs.Prelude.{◌≡◌, ◌<◌, ◌≤◌, ◌+◌, length, take, drop, IfOk};
ghost use Rattle.ca_descent.specs.Exact.{Exact, widened};
ghost use Rattle.ca_tree.specs.View.{expression_view};
ghost use Rattle.ca_expressions.specs.Grammar.{OuterExpression, ExpressionEnded, OuterChain, ChainEnded, is_call as is_call_tree, is_target as is_target_tree};
ghost use Rattle.ca_expressions.specs.Readers.{answer, node_view};

use crate::inner::{parse_inner_chain, parse_level};
use crate::tokens::Fault;
use ca_tree::{ExprKind, ExprNode, Token};
use std::alloc::Global;

/// How many tokens an expression or chain has at most that stands in no other.
pub const MOST_IN_EXPRESSION: usize = 1000;

/// The tokens that are looked at: with the one behind the last that may be read.
fn first_tokens(tokens: &[Token]) -> &[Token]
    ensures { result.now ≡ take (MOST_IN_EXPRESSION + 1) tokens.now }
{
    let (head, _) = tokens.split_at((MOST_IN_EXPRESSION + 1).min(tokens.len()));
    head
}

/// What was read of the first tokens, as it is of all of them: where all were read, the last of
/// them passes the limit.
fn limited<'a>(
    tokens: &'a [Token],
    head: &'a [Token],
    inner: Result<(Box<ExprNode>, &'a [Token]), Fault<'a>>,
) -> Result<(Box<ExprNode>, &'a [Token]), Fault<'a>>
    requires { head.now ≡ take (MOST_IN_EXPRESSION + 1) tokens.now }
    ensures answer { answer node_view result ≡ widened MOST_IN_EXPRESSION tokens.now (answer node_view inner.entry) }
    ensures shorter { IfOk inner.entry (λ p. length p.1.now < length head.now) → IfOk result (λ p. length p.1.now < length tokens.now) }
{
    match inner {
        Ok((node, left)) => {
            let read = head.len().saturating_sub(left.len());
            if read > MOST_IN_EXPRESSION {
                return Err(Fault::TooDeep(behind(tokens, MOST_IN_EXPRESSION)));
            }
            Ok((node, behind(tokens, read)))
        }
        Err(Fault::Wrong(left)) => {
            let read = head.len().saturating_sub(left.len());
            if read > MOST_IN_EXPRESSION {
                return Err(Fault::TooDeep(behind(tokens, MOST_IN_EXPRESSION)));
            }
            Err(Fault::Wrong(behind(tokens, read)))
        }
        Err(Fault::TooDeep(left)) => {
            let read = head.len().saturating_sub(left.len());
            Err(Fault::TooDeep(behind(tokens, read)))
        }
        Err(Fault::Memory) => Err(Fault::Memory),
    }
}

/// What stands behind so many tokens.
fn behind(tokens: &[Token], read: usize) -> &[Token]
    requires { read ≤ length tokens.now }
    ensures { result.now ≡ drop read tokens.now }
{
    let (_, rest) = tokens.split_at(read);
    rest
}

/// An expression that stands in no other.
pub fn parse_expression<'a>(
    alloc: Global,
    tokens: &'a [Token],
) -> Result<(Box<ExprNode>, &'a [Token]), Fault<'a>>
    ensures answer { Exact OuterExpression ExpressionEnded tokens.now (answer node_view result) }
    ensures shorter { IfOk result (λ p. length p.1.now < length tokens.now) }
{
    let head = first_tokens(tokens);
    limited(tokens, head, parse_level(alloc, 0, head))
}

/// A chain that stands in no expression: a target, or a call statement.
pub fn parse_chain<'a>(
    alloc: Global,
    tokens: &'a [Token],
) -> Result<(Box<ExprNode>, &'a [Token]), Fault<'a>>
    ensures answer { Exact OuterChain ChainEnded tokens.now (answer node_view result) }
    ensures shorter { IfOk result (λ p. length p.1.now < length tokens.now) }
{
    let head = first_tokens(tokens);
    limited(tokens, head, parse_inner_chain(alloc, head))
}

/// Whether the last part of a chain is a call.
pub fn is_call(chain: &ExprNode) -> bool
    ensures { result ≡ is_call_tree (expression_view chain.now) }
{
    matches!(chain.kind, ExprKind::Call(..) | ExprKind::Method(..))
}

/// Whether a chain can be a target: its last part is a name without arguments, or an index.
pub fn is_target(chain: &ExprNode) -> bool
    ensures { result ≡ is_target_tree (expression_view chain.now) }
{
    matches!(
        chain.kind,
        ExprKind::Named(_) | ExprKind::Field(..) | ExprKind::Index(..)
    )
}
