//! Values, objects and the heap.
//!
//! The code makes objects of starting values, reads and changes one item, and writes the heap's text
//! to a sink. Each change of the heap promises the definition's heap exactly, and says what an error
//! leaves as it was. The definitions in `specs/` are what every other crate cites: `Slots` and `Heaps`
//! for what a heap holds and how it changes, `Typed` for heaps in which each slot has its field's
//! type, `Texts` for the bytes that are written. They speak of plain programs (`ca_program`) and plain
//! lists of objects alone. What a program does with a heap is told by the crates above.
//!
//! Whoever reads the public clauses must believe each file of `specs/`.
#![tactic(auto)]

mod copies;
pub mod heap;
pub mod line;
pub mod print;
pub mod value;

pub use heap::{CreateError, Heap};
pub use print::print_heap;
pub use value::{Object, Slot, Slots, Trap, TrapKind, Value, Values, start_of};
