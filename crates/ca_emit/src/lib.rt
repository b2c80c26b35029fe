//! The annotated source: the canonical text of a tree with the marks of its program's plan.
//!
//! `specs/Annotations.antt` says which marks stand where, and `ca_canonical` what a text with marks is. `parallel` finds the
//! operations that run in parallel and those of them that take a lock, `sites` the calls and loops that run in parallel,
//! `receivers` which calls follow another, and `marking` tells the marks at a place.
//!
//! `emit` promises that text; that without its marks it is the canonical one; that each body keeps the lock discipline; and that
//! no call or loop that runs in parallel lacks its mark.
//!
//! Whoever reads the public clauses must believe `Annotations`, `Locks` and `Receivers` of `specs/`; what stands in
//! `specs/clauses/` serves clauses within the crate alone.
#![tactic(auto)]

mod emitting;
pub mod laws;
mod marking;
mod parallel;
mod places;
mod receivers;
mod sites;

pub use emitting::emit;
