//! The serial interpreter of the whole language, and the trait of the engines that it hands calls off to (`Extents`).
//!
//! `drive` runs `main` of a program from the empty heap with a budget of steps. It promises its caller
//! the outcome of the depth-first serial run of that program, exactly, with its heap, its steps or its
//! trap, and that the values which that run prints went to the sink in their order, each as it came.
//! After an error a beginning of them did. A failed write comes only where the sink's count of faults
//! rose.
//!
//! An engine runs operations in an order of its own. `drive` hands it each call of a marked operation, before
//! the call takes its step, with the heap and the steps that are left then; and of a marked loop the calls that it lists,
//! with the steps that are left behind those of the loop itself. Where the engine is done the call or the loop counts as
//! run; where it declines, or the loop can't be listed to its end, that runs here, and hands nothing off within. An engine that would run
//! operations in order in the same heap says so when it is asked, and gets no list: the run goes on into the call or the loop.
//!
//! The program is laid out as instructions, with the bodies that heed marks beside the plain ones (`heeding`), and the code of each loop that
//! is handed off once more on its own, by which its calls are listed. Frames, calls, creations and all instructions but the marks are in
//! `ca_steps`. What is said here is the loop over them, and what is handed off.
//!
//! Whoever reads the public clauses must believe `Codes`, `Extents` and `Runs` of `specs/`; what stands in `specs/clauses/`
//! serves clauses within the crate alone.
#![tactic(auto)]

mod asking;
mod extents;
mod handing;
mod heeding;
mod lending;
mod listing;
mod marked;
mod print;
mod running;
mod targets;

pub use extents::{ExtentAnswer, Extents, NoExtents};
pub use heeding::{HeedingBodies, lay_out_marked};
pub use running::{Outcome, RunError, drive};
