//! How tightly the parts of an expression bind.

ghost use Rattle.std.specs.Prelude.{◌≡◌};
ghost use Rattle.ca_tree.specs.View.{expression_view};
ghost use Rattle.ca_canonical.specs.Spell.{binds};

use ca_tree::{ExprKind, ExprNode, LEVELS};

/// The level of a literal, above that of unary operators.
pub(crate) const LITERAL_LEVEL: usize = LEVELS + 1;

/// The level of `->` and an index.
pub(crate) const TAIL_LEVEL: usize = LEVELS + 2;

/// How tightly the outermost operator of an expression binds.
pub(crate) fn binds(e: &ExprNode) -> usize
    ensures { result ≡ binds (expression_view e.now) }
{
    match &e.kind {
        ExprKind::Binary(op, ..) => op.level(),
        ExprKind::Unary(op, ..) => op.level(),
        ExprKind::Number(_) | ExprKind::Truth(_) | ExprKind::Null => LITERAL_LEVEL,
        ExprKind::This
        | ExprKind::Named(_)
        | ExprKind::Call(..)
        | ExprKind::Field(..)
        | ExprKind::Method(..)
        | ExprKind::Index(..) => TAIL_LEVEL,
    }
}
