//! Texts of schedules: read, written, and found behind a source.
#![tactic(auto)]

pub mod laws;
mod lines;
mod names;
mod numbers;
mod operations;
mod pieces;
mod reading;
mod splitting;
mod values;
mod writing;

pub use reading::{TraceError, read_lines};
pub use splitting::split;
pub use writing::write_lines;
