//! Sections of operations and of call loops, computed.
//!
//! The section of an operation is what its body does to the receiver alone: own accesses are made in an object
//! that is handed in, every other read in a heap that stays as it is, and each call is listed instead of made
//! (`ca_meaning/specs/Sections.antt`). `section` works on the object in place and puts it back on every answer
//! but `Done`, by its old values (`ca_undo`); so no object is copied. Behind Done `Desk::undo` puts it back too, and
//! `Desk::keep_olds` keeps the old values of several sections. One that puts nothing needs no object: `section_frozen` reads the heap alone, and
//! `lock_row` tells for which operations it serves.
//! `section_of_loop` does the same for a call loop of serial code and hands its locals back; `section_loop` finds
//! the loop by its number. `specs/Answers.antt` has what the answers say, `specs/Running.antt` how a section in
//! memory stands.
//!
//! Instructions run by the loop of `ca_steps`, with a section's accesses (`InSection`), from one listed call to the next. A `Coded` is
//! a program with its code, and which operations have bodies that fit it, asked once of the text; others want memory. A `Desk`
//! keeps what a section needs of memory: on one that was used before, a section takes memory for what it lists alone.
//!
//! Whoever reads the public clauses must believe each file of `specs/`.
#![tactic(auto)]

mod access;
mod coded;
mod desk;
mod find;
mod fits;
pub mod laws;
mod listing;
mod loop_code;
mod loops;
mod operations;
mod rows;
mod running;
mod stop;

pub use access::{InSection, Own, Stand};
pub use coded::{Coded, Start};
pub use desk::Desk;
pub use fits::Body;
pub use loop_code::{LoopPlace, with_loops};
pub use loops::{first_of_loop, section_loop, section_of_loop};
pub use operations::{SectionAnswer, section, section_frozen};
pub use rows::lock_row;
