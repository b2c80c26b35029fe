//! Whole runs that are recorded.
//!
//! A `Tracer` tells the lines of a schedule for what it runs. `Recorder` is an engine over one: its account, in the sense of
//! `drive`, is the list of its lines. `record` runs a program by it and closes the schedule with the line of its outcome: by its
//! clause the lines follow, whatever the order in which operations ran. `Tracing` is a tracer over a closure, for those that start
//! threads.
//!
//! Whoever reads the public clauses must believe each file of `specs/`.
#![tactic(auto)]

mod one;
mod recorder;
mod recording;
mod tracer;
mod tracing;

pub use one::record_by_one;
pub use recorder::Recorder;
pub use recording::record;
pub use tracer::Tracer;
pub use tracing::Tracing;
