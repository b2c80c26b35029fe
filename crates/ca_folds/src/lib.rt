//! The operators whose operands may stand in any order, on words of 64 bits that are read as signed numbers, and
//! lists of operands of such an operator. What an operand is stands open: an order of operands is given, and which
//! of them are words.
//!
//! Whoever reads the public clauses must believe `Operators` of `specs/`. `Operands` has what the crates above say of
//! their forms.
#![tactic(auto)]

mod operator;

pub use crate::operator::FoldOp;
