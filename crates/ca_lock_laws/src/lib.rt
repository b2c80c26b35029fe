//! The law of locks: a parallel operation holds its receiver's lock where it must, and nowhere else.
//!
//! The text of a parallel operation has marks that take the receiver's lock and give it back. `specs/Paths.antt` says which
//! paths lead through such a body and what happens on each (`Events`), `Discipline` what the lock asks of a path, and
//! `Guarded` which bodies keep it. The law of `laws` is the contract of a public function with an empty body: with sound
//! marks every path of every operation that runs in parallel keeps the discipline, in whatever extent it runs. The proof, in
//! `proofs/`, goes along a path, where a call that may have come before is what `Separable` of `ca_parallel` calls so.
//!
//! `Resolves` says which statement of a program stands for which of its text, and `Sites` which calls and loops the two have:
//! the same ones. That a program does stand for its tree is the law of `ca_shape_laws`.
//!
//! Whoever reads the public clauses must believe each file of `specs/`.
#![tactic(auto)]

pub mod laws;
