//! The engine for one worker: an `Extents` of `ca_serial` that needs no threads.
//!
//! `OneWorker` runs the operations of a list in their order, in the heap itself, each as an unmarked call runs: by the loop of
//! `ca_steps`, with the calls within it (`in_place`). It needs no runtime and always returns. Its answers are those of the serial run,
//! which it is: done with its heap and its steps exactly where that is done. At a put the old value is kept (`Kept` of `ca_undo`), and what isn't
//! done is undone; where there is no room for one more, of 65,536 and as many as the heap has values, the heap is copied and kept as it was.
//! `run_more` runs so one call behind the other, as long as another engine likes, which may undo them all.
//!
//! `run_some` runs operations that were handed in, and what they list, by sections beside the heap; its clause is a run of the pending
//! machine, from where it began to where it ended, of as many operations as its limit says, or of fewer where none waits any more.
//! `OneTracer` runs a list so, and adds the lines of a schedule (`ca_trace`), one for each operation in the order in which they ran. The
//! heap stays as it is until the end.
//! `specs/InOrder.antt` of `ca_sections` says what came of calls, `specs/Puts.antt` of `ca_undo` what undoing gives, `specs/InPlace.antt`
//! what stays while bodies run, `specs/Turns.antt` what turns leave, `specs/Traced.antt` which lines are added.
//!
//! Whoever reads the public clauses must believe each file of `specs/`.
#![tactic(auto)]

mod in_place;
mod one_worker;
mod tracing;
mod turns;

pub use one_worker::{OneWorker, copies};
pub use tracing::{OneTracer, line_of};
pub use turns::{Progress, run_some};
