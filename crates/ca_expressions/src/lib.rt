//! The parser of expressions: from tokens to the tree of an expression or of a chain.
//!
//! `specs/Grammar.antt` has the grammar and `specs/Terminals.antt` the table of operators.
//! `parse_expression` and `parse_chain` promise to the parser of statements an exact answer: the
//! one tree that the tokens in front derive, or the first wrong token, or token 1,001, which passes
//! the limit. Operands and lists are read in loops, and only nesting by recursion, so its depth is
//! bounded by that limit; each token is read a fixed number of times. The readers of single tokens
//! (`key_at`, `take_sign` ..) serve the parser of statements too.
//!
//! Whoever reads the public clauses must believe each file of `specs/`.
#![tactic(auto)]

mod expressions;
mod inner;
mod nodes;
mod tokens;

pub use expressions::{is_call, is_target, parse_chain, parse_expression};
pub use nodes::{add, boxed};
pub use tokens::{
    Fault, is_key, is_name, is_sign, is_zero, key_at, number_at, sign_at, take_key, take_name,
    take_number, take_sign,
};
