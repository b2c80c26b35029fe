//! Devices that never fail.

ghost use Rattle.std.specs.Prelude.{◌≡◌, ◌<◌, ◌≤◌, ℕ, Ok, Some, None, length, min, IfOk};
ghost use Rattle.ca_base.specs.Devices.{HasCause, Reads, TakesSome, Wrote};

use crate::cursor::Cursor;
use crate::faults::Failed;
use crate::sinks::Sink;
use crate::sources::Source;
use std::marker::Model;

/// A source in memory that never fails. Contracts see the list of the bytes that are left.
#[derive(Drop)]
pub struct SureSource {
    rest: Cursor,
}

impl Model for SureSource {
    ghost use Rattle.std.specs.Prelude.{ℕ, List};

    ghost Value = { List ℕ };

    ghost view = { λ s. s.rest };
}

impl SureSource {
    /// A source of these bytes.
    pub fn new(bytes: Vec<u8>) -> SureSource
        ensures { result ≡ bytes.items }
    {
        SureSource {
            rest: Cursor::new(bytes),
        }
    }
}

impl Source for SureSource {
    ghost left = { λ s. Some s };

    ghost faults = { λ _. 0 };

    fn read(&mut self, buf: &mut [u8]) -> Result<usize, Failed>
        requires { 0 < length buf.old }
        ensures within { IfOk result (λ n. n ≤ length buf.new) }
        ensures bytes { Reads (Some self.old) (Some self.new) result buf.old buf.new }
        ensures cause { HasCause 0 0 result }
        // It never fails, and reads as many bytes as fit.
        ensures fits { result ≡ Ok (min (length buf.old) (length self.old)) }
    {
        Ok(self.rest.read(buf))
    }
}

/// A sink that takes every piece whole, keeps none of it and never fails. It tells no bytes.
#[derive(Clone, Copy, PartialEq, Eq)]
pub struct SureSink;

impl SureSink {
    /// A sink that takes every piece.
    pub fn new() -> SureSink {
        SureSink
    }
}

impl Sink for SureSink {
    ghost written = { λ _. None };

    ghost faults = { λ _. 0 };

    fn write(&mut self, piece: &[u8]) -> Result<usize, Failed>
        requires { 0 < length piece.now }
        ensures some { IfOk result (λ n. TakesSome n piece.now) }
        ensures bytes { Wrote None None result piece.now }
        ensures cause { HasCause 0 0 result }
        // It never fails, and takes the piece whole.
        ensures whole { result ≡ Ok (length piece.now) }
    {
        Ok(piece.len())
    }
}
