//! From a tree to the program that it means.
//!
//! `check` promises its callers the program of a tree without violations, and otherwise the least
//! violation or passed limit, by its place and then by its code, unless memory runs out. What names
//! and expressions mean is told in `ca_resolve`. Here `specs/Rules.antt` has the rules of
//! declarations and statements, one for each code, and the limits; `specs/Statements.antt` says
//! where each statement stands and what it resolves to, and `specs/Classes.antt` does the same for
//! members, classes and the whole tree (`judge`, `Violations`).
//!
//! The walk goes once over the tree, and once more over the bodies of value methods, for their
//! `return`s. It looks at everything, whatever is broken, and of two violations it keeps the lesser.
//!
//! Whoever reads the public clauses must believe `Classes`, `Rules` and `Statements` of `specs/`; what stands in
//! `specs/clauses/` serves clauses within the crate alone.
#![tactic(auto)]

mod carried;
mod classes;
mod limits;
mod lines;
mod members;
mod program;
mod puts;
mod rules;
mod statements;
mod walk;

pub use ca_resolve::{CheckError, Code};
pub use program::check;
