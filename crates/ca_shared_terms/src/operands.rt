//! What a term is made of by an operator.

ghost use Rattle.ca_shared_terms.specs.clauses.Operands.{AreOperands};

use crate::light::{LightTerm, Node};
use ca_norm::operators::{Binary, Ternary, Unary};

/// An operator and what it stands over.
#[derive(Clone, Copy)]
pub(crate) enum Operands<'a> {
    One(Unary, &'a LightTerm),
    Two(Binary, &'a LightTerm, &'a LightTerm),
    Three(Ternary, &'a LightTerm, &'a LightTerm, &'a LightTerm),
    /// The term is a literal, an atom, a read, the result of a call or a sweep.
    Other,
}

impl LightTerm {
    /// The term's operator, if it has one, and what it stands over.
    pub(crate) fn operands(&self) -> Operands<'_>
        ensures { AreOperands result self.now }
    {
        match &*self.node {
            Node::Neg(a) => Operands::One(Unary::Neg, a),
            Node::Not(a) => Operands::One(Unary::Not, a),
            Node::Divide(a, n) => Operands::One(Unary::Divide(*n), a),
            Node::Remainder(a, n) => Operands::One(Unary::Remainder(*n), a),
            Node::Add(a, b) => Operands::Two(Binary::Add, a, b),
            Node::Sub(a, b) => Operands::Two(Binary::Sub, a, b),
            Node::Mul(a, b) => Operands::Two(Binary::Mul, a, b),
            Node::Less(a, b) => Operands::Two(Binary::Less, a, b),
            Node::LessEqual(a, b) => Operands::Two(Binary::LessEqual, a, b),
            Node::Same(a, b) => Operands::Two(Binary::Same, a, b),
            Node::And(a, b) => Operands::Two(Binary::And, a, b),
            Node::Or(a, b) => Operands::Two(Binary::Or, a, b),
            Node::Select(a, i) => Operands::Two(Binary::Select, a, i),
            Node::Fold(o, a, b) => Operands::Two(Binary::Fold(*o), a, b),
            Node::Choose(c, a, b) => Operands::Three(Ternary::Choose, c, a, b),
            Node::Put(a, i, v) => Operands::Three(Ternary::Put, a, i, v),
            Node::AddAt(a, i, v) => Operands::Three(Ternary::AddAt, a, i, v),
            _ => Operands::Other,
        }
    }
}
