//! Old values: what undoes puts.
//!
//! At a put the value that was there is kept, and who goes back puts the kept ones back, the last one first, with no copy of what
//! changed. `Olds` keeps those of an object (`specs/Olds.antt`), so that a section can be undone, or several on one object. `Kept` keeps
//! those of a heap, or where they are too many the heap as it was (`specs/Puts.antt`), so that calls that ran in the heap itself can be
//! undone. `OldSums` keeps those of a worker's copies, with the field at hand whose old value was kept last (`specs/Hands.antt`): a call
//! that adds to one number again and again keeps its old value once.
//!
//! Whoever reads the public clauses must believe each file of `specs/`.
#![tactic(auto)]

mod old_sums;
mod olds;
mod puts;

pub use old_sums::{LastOld, OldSums};
pub use olds::{Old, Olds, value_of};
pub use puts::{Kept, Put, Puts};
