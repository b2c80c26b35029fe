//! A program whose objects count, and heaps of such objects, for tests of cells and of the pool.
//!
//! Whoever reads the public clauses must believe `Counters` of `specs/`.
#![tactic(auto)]

mod counters;

pub use counters::{OPERATIONS, heap, let_go, program, task_of, twice};
