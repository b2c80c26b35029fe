//! Objects that a run changed, kept beside the heap that stays as it is.
//!
//! `Beside` finds each changed object at once by its number, and copies one when it is first changed, in the memory of one
//! whose place was taken where that fits (`refill`). It runs the section of an operation on the object, or makes another
//! `Change` of it in its place, and puts all changed ones into the heap at the end.
//! `specs/Beside.antt` says what heap the changed objects stand for.
//!
//! Whoever reads the public clauses must believe each file of `specs/`.
#![tactic(auto)]

mod beside;
mod change;
mod refill;

pub use beside::{Beside, Changed};
pub use change::Change;
