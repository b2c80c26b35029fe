//! The parser of the language: from the tokens of a text to its tree.
//!
//! `specs/Grammar.antt` has the grammar of statements, classes and texts, a rule for each case, over
//! that of expressions. `parse` promises to the front end the one tree that the tokens derive, or
//! the first wrong token, or the first that passes a limit on nesting or on an expression's length,
//! unless memory runs out. It goes over the tokens once, and copies the names.
//! A parsing function reads at the front of the tokens and gives what stands behind; its clause
//! says that its answer is exact, at a wrong token and past a limit too.
//!
//! Whoever reads the public clauses must believe `Grammar` and `Compounds` of `specs/`; what stands in `specs/clauses/` serves
//! clauses within the crate alone.
#![tactic(auto)]

mod assigns;
mod endings;
pub mod laws;
mod members;
mod statements;
mod types;
mod whole;

pub use whole::{ParseError, parse};
