//! The law of symbolic meaning.
//!
//! Symbolic execution (ca_symbolic) writes terms and demands down, and sections (ca_meaning) run. `specs/Laws.antt` says
//! that the one means the other: in the run of an environment, an expression gives what its term means and takes what its
//! demands take, and a section leaves the object that the state behind its body means, with the steps and the list of the
//! demands. `Costs` has what a cost leaves of a budget, `Meant` what the terms of fields mean, `Demanded` what demands take
//! and list. Whoever compares the terms and demands of two orders has compared what both orders do.
//!
//! Whoever reads the public clauses must believe each file of `specs/`.
#![tactic(auto)]

pub mod laws;
