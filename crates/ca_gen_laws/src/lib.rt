//! The law that generated texts are accepted, and that their serial runs end.
//!
//! The text of `ca_gen` varies with its size, so no example shows this of all of them.
//! `proofs/Scans` has the tokens of its fixed parts, computed, and `Tokens` those of the whole text, by
//! induction over its links; `MainTree` has their tree, `Program` its program, and `Run` the run: a step
//! and one for each node to fill the table, two for each link, and one and two for each node that is
//! visited. The places of the tokens are whatever they are: the proofs ask nothing of them.
//!
//! The crate has no code: a caller calls a function for its clause. The lemmas are in `proofs/`.
//!
//! Whoever reads the public clauses must believe `Runs` of `specs/`.
#![tactic(auto)]

pub mod laws;
