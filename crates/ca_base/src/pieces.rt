//! Devices in memory that give and take a piece at a time.

ghost use Rattle.std.specs.Prelude.{◌≡◌, ◌<◌, ◌≤◌, ◌↔◌, ◌⊎◌, [], length, min, Some};
ghost use Rattle.std.specs.Prelude.{IfOk, OnOk, OnErr, IsErr};
ghost use Rattle.ca_base.specs.Devices.{HasCause, Reads, TakesSome, Wrote};
ghost use Rattle.ca_base.specs.InMemory.{FailsNext, free_room, no_calls_yet, with_call, with_fault};

use crate::faults::{Failed, Memory};
use crate::in_memory::{MemSink, MemSource};
use crate::sinks::Sink;
use crate::sources::Source;
use std::alloc::Global;
use std::marker::Model;

/// A source in memory that gives at most so many bytes a read, and tells its bytes.
#[derive(Drop)]
pub struct PieceSource {
    source: MemSource,
    piece: usize,
}

impl Model for PieceSource {
    ghost use Rattle.std.specs.Prelude.{◌<◌};
    ghost use Rattle.ca_base.specs.InMemory.{SourcePieces};

    ghost Value = { SourcePieces };

    ghost view = { λ s. record { source = s.source; piece = s.piece } };

    ghost invariant = { λ s. 0 < s.piece };
}

impl PieceSource {
    /// A source of these bytes that gives at most `piece` of them a read, of which the calls with these
    /// numbers fail. Calls are counted from 1, and from `u64::MAX` on each has that number. It takes no memory.
    pub fn new(bytes: Vec<u8>, piece: usize, failing: Vec<u64>) -> PieceSource
        requires { 0 < piece }
        ensures left { result.source.left ≡ bytes.items }
        ensures piece { result.piece ≡ piece }
        ensures calls { result.source.calls ≡ no_calls_yet failing.items }
    {
        PieceSource {
            source: MemSource::new(bytes, failing),
            piece,
        }
    }
}

impl Source for PieceSource {
    ghost left = { λ s. Some s.source.left };

    ghost faults = { λ s. s.source.calls.faults };

    fn read(&mut self, buf: &mut [u8]) -> Result<usize, Failed>
        requires { 0 < length buf.old }
        ensures within { IfOk result (λ n. n ≤ length buf.new) }
        ensures bytes { Reads (Some self.old.source.left) (Some self.new.source.left) result buf.old buf.new }
        ensures cause { HasCause self.old.source.calls.faults self.new.source.calls.faults result }
        // As many bytes as fit and a piece has.
        ensures fits { IfOk result (λ n. n ≡ min (min self.old.piece (length buf.old)) (length self.old.source.left)) }
        ensures fails { IsErr result ↔ FailsNext self.old.source.calls }
        ensures untouched { OnErr result (buf.new ≡ buf.old) }
        ensures piece { self.new.piece ≡ self.old.piece }
        ensures ok { OnOk result (self.new.source.calls ≡ with_call self.old.source.calls) }
        ensures err { OnErr result (self.new.source.calls ≡ with_fault (with_call self.old.source.calls)) }
    {
        let count = self.piece.min(buf.len());
        self.source.read(&mut buf[..count])
    }
}

/// A sink in memory that takes at most so many bytes a write, and tells its bytes.
#[derive(Drop)]
pub struct PieceSink {
    sink: MemSink,
    piece: usize,
}

impl Model for PieceSink {
    ghost use Rattle.std.specs.Prelude.{◌<◌};
    ghost use Rattle.ca_base.specs.InMemory.{SinkPieces};

    ghost Value = { SinkPieces };

    ghost view = { λ s. record { sink = s.sink; piece = s.piece } };

    ghost invariant = { λ s. 0 < s.piece };
}

impl PieceSink {
    /// A sink with room for `room` bytes that takes at most `piece` of them a write, of which the calls with
    /// these numbers fail. Calls are counted from 1, and from `u64::MAX` on each has that number. The room is
    /// taken here, and a write takes no memory.
    pub fn new(
        alloc: Global,
        piece: usize,
        room: usize,
        failing: Vec<u64>,
    ) -> Result<PieceSink, Memory>
        requires { 0 < piece }
        ensures written { IfOk result (λ s. s.sink.written ≡ []) }
        ensures piece { IfOk result (λ s. s.piece ≡ piece) }
        ensures room { IfOk result (λ s. s.sink.room ≡ room) }
        ensures calls { IfOk result (λ s. s.sink.calls ≡ no_calls_yet failing.items) }
    {
        let sink = MemSink::new(alloc, room, failing)?;
        Ok(PieceSink { sink, piece })
    }

    /// What was written so far.
    pub fn bytes(&self) -> &[u8]
        ensures { result.now ≡ self.now.sink.written }
    {
        self.sink.bytes()
    }
}

impl Sink for PieceSink {
    ghost written = { λ s. Some s.sink.written };

    ghost faults = { λ s. s.sink.calls.faults };

    fn write(&mut self, piece: &[u8]) -> Result<usize, Failed>
        requires { 0 < length piece.now }
        ensures some { IfOk result (λ n. TakesSome n piece.now) }
        ensures bytes { Wrote (Some self.old.sink.written) (Some self.new.sink.written) result piece.now }
        ensures cause { HasCause self.old.sink.calls.faults self.new.sink.calls.faults result }
        // As many bytes as still fit and a piece has.
        ensures fits { IfOk result (λ n. n ≡ min (free_room self.old.sink) (min self.old.piece (length piece.now))) }
        ensures fails { IsErr result ↔ (FailsNext self.old.sink.calls ⊎ (free_room self.old.sink ≡ 0)) }
        ensures same { (self.new.piece ≡ self.old.piece) × (self.new.sink.room ≡ self.old.sink.room) }
        ensures ok { OnOk result (self.new.sink.calls ≡ with_call self.old.sink.calls) }
        ensures err { OnErr result (self.new.sink.calls ≡ with_fault (with_call self.old.sink.calls)) }
    {
        let count = self.piece.min(piece.len());
        self.sink.write(&piece[..count])
    }
}
