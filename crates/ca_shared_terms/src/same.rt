//! Whether two terms are one.

ghost use Rattle.std.specs.Prelude.{◌≡◌, IsTrue};

use crate::light::{LightTerm, Node};
use crate::operands::Operands;

impl LightTerm {
    /// Whether it is seen to be the other term, kind by kind, without the normal forms of the two. Reads and results of
    /// calls are not looked into. It takes no memory.
    #[cycle(same)]
    #[inline(never)]
    pub fn is_same(&self, other: &LightTerm) -> bool
        ensures { IsTrue result → self.now ≡ other.now }
    {
        match (self.operands(), other.operands()) {
            (Operands::One(f, a), Operands::One(g, b)) => f == g && a.is_same(b),
            (Operands::Two(f, a, b), Operands::Two(g, c, d)) => {
                f == g && (a.is_same(c) && b.is_same(d))
            }
            (Operands::Three(f, a, b, c), Operands::Three(g, d, e, h)) => {
                f == g && (a.is_same(d) && (b.is_same(e) && c.is_same(h)))
            }
            (Operands::Other, Operands::Other) => self.is_same_leaf(other),
            _ => false,
        }
    }

    /// The same for literals and atoms.
    fn is_same_leaf(&self, other: &LightTerm) -> bool
        ensures { IsTrue result → self.now ≡ other.now }
    {
        match (&*self.node, &*other.node) {
            (Node::Number(m), Node::Number(n)) => m == n,
            (Node::Truth(b), Node::Truth(c)) => b == c,
            (Node::Null, Node::Null) => true,
            (Node::Atom(s, g, m), Node::Atom(t, h, n)) => s == t && (g == h && m == n),
            _ => false,
        }
    }
}
