//! Symbolic execution of operations, whatever their bodies.
//!
//! `symbolic` runs an operation on terms: those of the fields, and what is demanded on the way and under which condition
//! (`specs/Runs.antt`). It is refused exactly where a term that it makes is too heavy, or where a loop is neither a loop of
//! calls nor a sweep, whose line `other_loop` tells. Nothing but running out of memory keeps its state from its caller.
//!
//! Whoever reads the public clauses must believe `Demanded`, `Demands`, `Execution`, `Laws`, `Made`, `OtherLoops`,
//! `Runs`, `Same`, `StateCodes` and `States` of `specs/`; what stands in `specs/clauses/` serves clauses within the
//! crate alone.
#![tactic(auto)]

mod carried;
mod demand;
mod evaluate;
pub mod laws;
mod loops;
mod places;
mod puts;
mod running;
mod same;
mod state;
mod sweeps;
mod walk;

pub use crate::demand::{Demand, DemandKind, Demands, Group};
pub use crate::loops::is_call_loop;
pub use crate::running::{Side, SymbolicError, other_loop, symbolic};
pub use crate::state::SymState;
