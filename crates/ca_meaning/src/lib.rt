//! What a program means: the depth-first serial run, as definitions with their laws.
//!
//! The definitions stand in `specs/`, speak of plain programs and plain heaps alone, and are what every
//! other crate cites: `Operators`, `Expressions` (values, with the order of evaluation, steps and traps),
//! `Flows` (one steering definition of statements over any state), `Functions` (value methods), `Serial`
//! (operations and `main`), `Output` (the bytes and the status of a run), `Sections` and `Commuting`
//! (what a call does to its receiver alone, and when two calls commute), `Multisets` (lists up to order),
//! `Agree` (what isn't written holds the same), `WellTyped` and `ProgramTyped`.
//! The code is what every evaluator shares: the operators on two values, on one, and in assignments.
//! `laws` has the equations of calls and loops, in which no bound on their nesting occurs, and that tests tell
//! multisets apart.
//!
//! Whoever reads the public clauses must believe each file of `specs/`.
#![tactic(auto)]

pub mod arithmetic;
pub mod laws;

pub use arithmetic::{assign, operate, operate_unary};
