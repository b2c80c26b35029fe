//! Calls that follow another call of their list.

ghost use Rattle.std.specs.Prelude.{◌≡◌};
ghost use Rattle.std.specs.Str.{bytes_eq};
ghost use Rattle.ca_tree.specs.Codes.{same_sign, same_binary};
ghost use Rattle.ca_tree.specs.Operators.{unary_sign};
ghost use Rattle.ca_tree.specs.View.{expression_view, expressions_view};
ghost use Rattle.ca_canonical.specs.Marks.{front_view};
ghost use Rattle.ca_emit.specs.Receivers.{follows, is_this, receiver_of, same_expression, same_expressions, same_receiver};
ghost use Rattle.ca_emit.specs.clauses.Seen.{expression_seen};

use ca_tree::{BinaryOp, ExprKind, ExprNode, Name, StmtKind, StmtNode, UnaryOp};

fn same_name(a: &Name, b: &Name) -> bool
    ensures { result ≡ bytes_eq a.now b.now }
{
    a.as_bytes() == b.as_bytes()
}

fn same_unary(a: UnaryOp, b: UnaryOp) -> bool
    ensures { result ≡ same_sign (unary_sign a) (unary_sign b) }
{
    a.sign() == b.sign()
}

fn same_binary(a: BinaryOp, b: BinaryOp) -> bool
    ensures { result ≡ same_binary a b }
{
    a == b
}

/// Whether the two are equal but for their places. Both sides of `&` are looked at, so that there is one way out for each kind.
#[cycle(same)]
fn same_expression(a: &ExprNode, b: &ExprNode) -> bool
    ensures { result ≡ same_expression (expression_view a.now) (expression_view b.now) }
{
    match (&a.kind, &b.kind) {
        (ExprKind::Number(m), ExprKind::Number(n)) => m == n,
        (ExprKind::Truth(m), ExprKind::Truth(n)) => m == n,
        (ExprKind::Null, ExprKind::Null) => true,
        (ExprKind::This, ExprKind::This) => true,
        (ExprKind::Named(m), ExprKind::Named(n)) => same_name(m, n),
        (ExprKind::Call(m, xs), ExprKind::Call(n, ys)) => {
            same_name(m, n) & same_expressions(xs, ys)
        }
        (ExprKind::Field(d, m), ExprKind::Field(e, n)) => same_name(m, n) & same_expression(d, e),
        (ExprKind::Method(d, m, xs), ExprKind::Method(e, n, ys)) => {
            same_name(m, n) & (same_expression(d, e) & same_expressions(xs, ys))
        }
        (ExprKind::Index(d, i), ExprKind::Index(e, j)) => {
            same_expression(d, e) & same_expression(i, j)
        }
        (ExprKind::Unary(o, d), ExprKind::Unary(s, e)) => {
            same_unary(*o, *s) & same_expression(d, e)
        }
        (ExprKind::Binary(o, c, d), ExprKind::Binary(s, e, f)) => {
            same_binary(*o, *s) & (same_expression(c, e) & same_expression(d, f))
        }
        _ => false,
    }
}

#[cycle(same)]
fn same_expressions(xs: &[ExprNode], ys: &[ExprNode]) -> bool
    ensures { result ≡ same_expressions (expressions_view xs.now) (expressions_view ys.now) }
{
    if xs.len() != ys.len() {
        return false;
    }
    for place in 0..xs.len() {
        if !same_expression(&xs[place], &ys[place]) {
            return false;
        }
    }
    true
}

/// The receiver of a call; none where the call is bare.
fn receiver_of(call: &ExprNode) -> Option<&ExprNode>
    ensures { expression_seen result ≡ receiver_of (expression_view call.now) }
{
    match &call.kind {
        ExprKind::Method(object, _, _) => {
            let receiver: &ExprNode = object;
            Some(receiver)
        }
        _ => None,
    }
}

fn is_this(e: &ExprNode) -> bool
    ensures { result ≡ is_this (expression_view e.now) }
{
    match &e.kind {
        ExprKind::This => true,
        _ => false,
    }
}

/// Whether two calls have equal receivers; a bare call has the receiver `this`.
fn same_receiver(a: &ExprNode, b: &ExprNode) -> bool
    ensures { result ≡ same_receiver (expression_view a.now) (expression_view b.now) }
{
    let first = receiver_of(a);
    let second = receiver_of(b);
    match (first, second) {
        (None, None) => true,
        (None, Some(e)) => is_this(e),
        (Some(d), None) => is_this(d),
        (Some(d), Some(e)) => same_expression(d, e),
    }
}

/// Whether a call follows the statement in front of its own.
pub(crate) fn follows(front: Option<&StmtNode>, call: &ExprNode) -> bool
    ensures { result ≡ follows (front_view front.entry) (expression_view call.now) }
{
    match front {
        None => false,
        Some(s) => match &s.kind {
            StmtKind::Call(other) => same_receiver(other, call),
            _ => false,
        },
    }
}
