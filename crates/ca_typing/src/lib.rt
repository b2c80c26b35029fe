//! The law that the programs of texts are well typed, for whoever runs programs.
//!
//! What the laws of running take for granted of a program is `ProgramTyped` of ca_meaning: every
//! expression has its type, every name is there, every number fits 64 bits, arguments match their
//! parameters, value methods change nothing and give a value back. The checker of ca_types promises
//! that its answer is what its rules make of the tree, `judge`. `resolved_programs_are_typed` closes
//! the gap: a text whose tree breaks no rule has a well typed program. Its numbers fit, since no
//! token of ca_lex has a greater one (`proofs/LiteralTokens`), and the grammar of ca_parse makes
//! none but 1 (`proofs/LiteralTrees`).
//!
//! The crate has no code: a caller calls a function for its clause. The lemmas are in `proofs/`.
//!
//! `codes_and_limits_are_these` says which numbers the codes and the limits on texts are that the definitions below name.
//!
//! Whoever reads the public clauses must believe each file of `specs/`.
#![tactic(auto)]

pub mod laws;
