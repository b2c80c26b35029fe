//! Whether two expressions are written alike: `same_expression` of `specs/Same.antt`.

ghost use Rattle.std.specs.Prelude.{◌≡◌};
ghost use Rattle.ca_program.specs.View.{expression_view, expressions_view};
ghost use Rattle.ca_symbolic.specs.Same.{place_of, same_sign, same_expression, same_expressions};

use ca_program::{BinaryOp, Expr, UnaryOp};

fn same_sign(a: UnaryOp, b: UnaryOp) -> bool
    ensures { result ≡ same_sign a b }
{
    match (a, b) {
        (UnaryOp::Minus, UnaryOp::Minus) => true,
        (UnaryOp::Not, UnaryOp::Not) => true,
        _ => false,
    }
}

/// The operator's place among all of them.
fn place_of(op: BinaryOp) -> u8
    ensures { result ≡ place_of op }
{
    match op {
        BinaryOp::Or => 0,
        BinaryOp::And => 1,
        BinaryOp::Equal => 2,
        BinaryOp::NotEqual => 3,
        BinaryOp::Less => 4,
        BinaryOp::Greater => 5,
        BinaryOp::LessEqual => 6,
        BinaryOp::GreaterEqual => 7,
        BinaryOp::Plus => 8,
        BinaryOp::Minus => 9,
        BinaryOp::Times => 10,
        BinaryOp::Divide => 11,
        BinaryOp::Remainder => 12,
        BinaryOp::BitAnd => 13,
        BinaryOp::BitOr => 14,
        BinaryOp::BitXor => 15,
        BinaryOp::Max => 16,
        BinaryOp::Min => 17,
    }
}

/// Whether the two are written alike. Both sides of `&` are looked at, so that there is one way out for each kind.
#[cycle(same)]
pub fn same_expression(a: &Expr, b: &Expr) -> bool
    ensures { result ≡ same_expression (expression_view a.now) (expression_view b.now) }
{
    match (a, b) {
        (Expr::Number(m), Expr::Number(n)) => m == n,
        (Expr::Truth(m), Expr::Truth(n)) => m == n,
        (Expr::Null, Expr::Null) => true,
        (Expr::This, Expr::This) => true,
        (Expr::Local(l), Expr::Local(m)) => l.0 == m.0,
        (Expr::Own(f), Expr::Own(g)) => f.same(*g),
        (Expr::OwnItem(f, i), Expr::OwnItem(g, j)) => f.same(*g) & same_expression(i, j),
        (Expr::Read(d, f), Expr::Read(e, g)) => f.same(*g) & same_expression(d, e),
        (Expr::ReadItem(d, f, i), Expr::ReadItem(e, g, j)) => {
            f.same(*g) & (same_expression(d, e) & same_expression(i, j))
        }
        (Expr::Value(d, m, xs), Expr::Value(e, n, ys)) => {
            (m.0 == n.0) & (same_expression(d, e) & same_expressions(xs, ys))
        }
        (Expr::Unary(o, d), Expr::Unary(s, e)) => same_sign(*o, *s) & same_expression(d, e),
        (Expr::Binary(o, a, b), Expr::Binary(s, c, d)) => {
            (place_of(*o) == place_of(*s)) & (same_expression(a, c) & same_expression(b, d))
        }
        _ => false,
    }
}

#[cycle(same)]
fn same_expressions(xs: &[Expr], ys: &[Expr]) -> bool
    ensures { result ≡ same_expressions (expressions_view xs.now) (expressions_view ys.now) }
{
    if xs.len() != ys.len() {
        return false;
    }
    for place in 0..xs.len() {
        if !same_expression(&xs[place], &ys[place]) {
            return false;
        }
    }
    true
}
