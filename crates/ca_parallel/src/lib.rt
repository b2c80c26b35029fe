//! What may run in any order, as definitions: extents, separable operations, parallel extents and marks.
//!
//! An engine that runs the operations of an extent in an order of its own is asked only where that is
//! sound: where the extent is parallel. Whoever hands operations to an engine owes that, and this crate
//! has the words for it: `specs/Bodies.antt` (what stands in a body), `Extents` and `ExtentsOf` (what operations
//! may invoke and write), `Separable` (accesses to the receiver come before calls), `Parallel` and `Marks`
//! (which calls and loops may be handed off), `Lists` (what a run with marks hands off), `Notes` (what an engine asks
//! of it) and `Accounts` (what an engine keeps of it). The types are `Op`, an operation that is called, its `Arguments`, and `Marks`.
//! `laws` has what follows from the definitions alone: of extents within others, of marks, of notes and of prints.
//! Worked examples in `proofs/` show for each cause a body, a loop or a mark that it rules out, a whole program with
//! its extents and a sound mark, and what a small run hands off.
//!
//! Whoever reads the public clauses must believe each file of `specs/`.
#![tactic(auto)]

mod arguments;
mod copies;
pub mod laws;
mod marks;
mod op;

pub use arguments::{Arguments, HELD};
pub use marks::Marks;
pub use op::Op;
