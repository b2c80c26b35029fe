//! Devices in memory, which fail at chosen calls.

ghost use Rattle.std.specs.Prelude.{◌≡◌, ◌<◌, ◌≤◌, ◌↔◌, ◌⊎◌, [], length, min, Some};
ghost use Rattle.std.specs.Prelude.{IfOk, OnOk, OnErr, IsErr};
ghost use Rattle.ca_base.specs.Devices.{HasCause, Reads, TakesSome, Wrote};
ghost use Rattle.ca_base.specs.InMemory.{FailsNext, free_room, no_calls_yet, with_call, with_fault};

use crate::call_count::CallCount;
use crate::cursor::Cursor;
use crate::faults::{Failed, Memory};
use crate::sinks::Sink;
use crate::sources::Source;
use std::alloc::Global;
use std::marker::Model;

/// A source in memory, which tells its bytes.
#[derive(Drop)]
pub struct MemSource {
    rest: Cursor,
    calls: CallCount,
}

impl Model for MemSource {
    ghost use Rattle.ca_base.specs.InMemory.{SourceState};

    ghost Value = { SourceState };

    ghost view = { λ s. record { left = s.rest; calls = s.calls } };
}

impl MemSource {
    /// A source of these bytes, of which the calls with these numbers fail. Calls are counted from 1,
    /// and from `u64::MAX` on each has that number.
    pub fn new(bytes: Vec<u8>, failing: Vec<u64>) -> MemSource
        ensures left { result.left ≡ bytes.items }
        ensures calls { result.calls ≡ no_calls_yet failing.items }
    {
        MemSource {
            rest: Cursor::new(bytes),
            calls: CallCount::new(failing),
        }
    }
}

impl Source for MemSource {
    ghost left = { λ s. Some s.left };

    ghost faults = { λ s. s.calls.faults };

    fn read(&mut self, buf: &mut [u8]) -> Result<usize, Failed>
        requires { 0 < length buf.old }
        ensures within { IfOk result (λ n. n ≤ length buf.new) }
        ensures bytes { Reads (Some self.old.left) (Some self.new.left) result buf.old buf.new }
        ensures cause { HasCause self.old.calls.faults self.new.calls.faults result }
        // As many bytes as fit.
        ensures fits { IfOk result (λ n. n ≡ min (length buf.old) (length self.old.left)) }
        ensures fails { IsErr result ↔ FailsNext self.old.calls }
        ensures untouched { OnErr result (buf.new ≡ buf.old) }
        ensures ok { OnOk result (self.new.calls ≡ with_call self.old.calls) }
        ensures err { OnErr result (self.new.calls ≡ with_fault (with_call self.old.calls)) }
    {
        if self.calls.next_fails() {
            self.calls.add_fault();
            return Err(Failed);
        }
        Ok(self.rest.read(buf))
    }
}

/// A sink in memory, which tells its bytes.
#[derive(Drop)]
pub struct MemSink {
    bytes: Vec<u8>,
    room: usize,
    calls: CallCount,
}

impl Model for MemSink {
    ghost use Rattle.std.specs.Prelude.{◌≤◌, length, vec_capacity};
    ghost use Rattle.ca_base.specs.InMemory.{SinkState};

    ghost Value = { SinkState };

    ghost view = { λ s. record { written = s.bytes.items; room = s.room; calls = s.calls } };

    ghost invariant = { λ s. (length s.bytes.items ≤ s.room) × (s.room ≤ vec_capacity s.bytes) };
}

impl MemSink {
    /// A sink with room for `room` bytes, of which the calls with these numbers fail. Calls are counted
    /// from 1, and from `u64::MAX` on each has that number. The room is taken here, and a write takes
    /// no memory.
    pub fn new(alloc: Global, room: usize, failing: Vec<u64>) -> Result<MemSink, Memory>
        ensures written { IfOk result (λ s. s.written ≡ []) }
        ensures room { IfOk result (λ s. s.room ≡ room) }
        ensures calls { IfOk result (λ s. s.calls ≡ no_calls_yet failing.items) }
    {
        let bytes = Vec::with_capacity(alloc, room)?;
        Ok(MemSink {
            bytes,
            room,
            calls: CallCount::new(failing),
        })
    }

    /// What was written so far.
    pub fn bytes(&self) -> &[u8]
        ensures { result.now ≡ self.now.written }
    {
        self.bytes.as_slice()
    }
}

impl Sink for MemSink {
    ghost written = { λ s. Some s.written };

    ghost faults = { λ s. s.calls.faults };

    fn write(&mut self, piece: &[u8]) -> Result<usize, Failed>
        requires { 0 < length piece.now }
        ensures some { IfOk result (λ n. TakesSome n piece.now) }
        ensures bytes { Wrote (Some self.old.written) (Some self.new.written) result piece.now }
        ensures cause { HasCause self.old.calls.faults self.new.calls.faults result }
        // As many bytes as still fit.
        ensures fits { IfOk result (λ n. n ≡ min (free_room self.old) (length piece.now)) }
        ensures fails { IsErr result ↔ (FailsNext self.old.calls ⊎ (free_room self.old ≡ 0)) }
        ensures room { self.new.room ≡ self.old.room }
        ensures ok { OnOk result (self.new.calls ≡ with_call self.old.calls) }
        ensures err { OnErr result (self.new.calls ≡ with_fault (with_call self.old.calls)) }
    {
        let free = self.room - self.bytes.len();
        if self.calls.next_fails() || free == 0 {
            self.calls.add_fault();
            return Err(Failed);
        }
        let count = free.min(piece.len());
        // The room was taken when the sink was made.
        self.bytes.extend_from_slice(&piece[..count]).unwrap();
        Ok(count)
    }
}
