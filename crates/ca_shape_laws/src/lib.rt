//! The laws of shapes: a program has the shape of its tree, and so have its texts.
//!
//! What runs in parallel is said of a program, and where its marks stand of its tree. So whoever writes marks has to know
//! which statement of the one stands for which of the other: `specs/Resolves.antt` of `ca_lock_laws` says so, form by form.
//! Each law is the contract of a public function of `laws` with an empty body. The program that a tree resolves to has the
//! tree's operations in order, and each body has the tree's statements in order. The proof, in `proofs/`, goes through the
//! definition of `ca_types` from single statements up, with "holds of whatever this resolves to" (`Holding`). A second law
//! says of the grammar what the paths of `ca_lock_laws` ask of a text.
#![tactic(auto)]

pub mod laws;
