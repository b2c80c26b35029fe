//! Devices, their faults, and the gate.
//!
//! A source gives bytes and a sink takes them. Each may tell contracts which bytes those are, and each
//! counts its faults. So every crate above can promise its callers two things: which bytes were read
//! or written, where the device tells them, and that an answer `Failed` comes only where the count of
//! the device that was handed in rose. `read_all` reads a source to its end under a limit, and
//! `write_all` writes a whole piece. Beside them stand devices in memory, which fail at chosen calls and may
//! give and take a piece at a time, devices that never fail, and standard input and output, which tell no bytes and are trusted. A gate
//! is where a test can hold the workers of a parallel run.
//!
//! Whoever reads the public clauses must believe each file of `specs/`.
#![tactic(auto)]

mod call_count;
mod cursor;
mod faults;
mod gates;
mod in_memory;
mod pieces;
mod read_to_end;
mod sinks;
mod sources;
mod standard;
mod sure;
mod write_whole;

pub use faults::{Failed, Memory};
pub use gates::{Gate, OpenGate};
pub use in_memory::{MemSink, MemSource};
pub use pieces::{PieceSink, PieceSource};
pub use read_to_end::{ReadError, read_all};
pub use sinks::Sink;
pub use sources::Source;
pub use standard::{StdSink, StdSource};
pub use sure::{SureSink, SureSource};
pub use write_whole::write_all;
