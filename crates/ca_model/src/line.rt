//! A buffer on the stack for what goes out in one write.

ghost use Rattle.std.specs.Prelude.{◌≡◌, ◌++◌, [], codes, if◌then◌else◌, IfOk};
ghost use Rattle.ca_base.specs.Devices.{HasCause, Writes};
ghost use Rattle.ca_model.specs.Lines.{Adds, joined};

use arrayvec::ArrayVec;
use ca_base::{Failed, Sink, write_all};
use std::marker::Model;

/// How many bytes are put together before they go out.
const ROOM: usize = 4096;

/// Whole lines go out together where less room than this is left behind them.
const SPARE: usize = 1024;

/// Bytes that are to be written, in the order in which they were added.
#[derive(Drop)]
pub struct Line {
    pending: ArrayVec<u8, ROOM>,
}

impl Model for Line {
    ghost use Rattle.std.specs.Prelude.{List, ℕ};

    ghost Value = { List ℕ };

    ghost view = { λ s. s.pending.items };
}

impl Line {
    /// No bytes. It takes no memory.
    pub fn new() -> Line
        ensures { result ≡ [] }
    {
        Line {
            pending: ArrayVec::new(),
        }
    }

    /// Adds bytes. Those that are pending go out first where there is no room behind them, and a piece
    /// that is longer than the buffer goes out at once.
    pub fn add<K: Sink>(&mut self, sink: &mut K, piece: &[u8]) -> Result<(), Failed>
        ensures bytes { Adds (K.written sink.old) (K.written sink.new) self.old self.new result piece.now }
        ensures cause { HasCause (K.faults sink.old) (K.faults sink.new) result }
    {
        if self.place(piece) {
            return Ok(());
        }
        if let Err(failed) = self.flush(sink) {
            return Err(failed);
        }
        if self.place(piece) {
            return Ok(());
        }
        write_all(sink, piece)
    }

    /// Adds a space, the name of a field and `=`, as one piece.
    pub fn add_name<K: Sink>(&mut self, sink: &mut K, name: &[u8]) -> Result<(), Failed>
        ensures bytes { Adds (K.written sink.old) (K.written sink.new) self.old self.new result (codes " " ++ name.now ++ codes "=") }
        ensures cause { HasCause (K.faults sink.old) (K.faults sink.new) result }
    {
        if self.place_name(name) {
            return Ok(());
        }
        if let Err(failed) = self.add(sink, b" ") {
            return Err(failed);
        }
        if let Err(failed) = self.add(sink, name) {
            return Err(failed);
        }
        self.add(sink, b"=")
    }

    /// Adds a space, the name of a field and `=`, if there is room for all three.
    fn place_name(&mut self, name: &[u8]) -> bool
        ensures { self.new ≡ (if result then self.old ++ (codes " " ++ name.now ++ codes "=") else self.old) }
    {
        let room = self.pending.remaining_capacity();
        if room < 2 || name.len() > room - 2 {
            return false;
        }
        self.pending.push(b' ');
        self.pending.try_extend_from_slice(name).unwrap();
        self.pending.push(b'=');
        true
    }

    /// Adds the bytes if there is room for them.
    fn place(&mut self, piece: &[u8]) -> bool
        ensures { self.new ≡ (if result then self.old ++ piece.now else self.old) }
    {
        self.pending.try_extend_from_slice(piece).is_ok()
    }

    /// Writes the pending bytes where little room is left behind them.
    pub fn settle<K: Sink>(&mut self, sink: &mut K) -> Result<(), Failed>
        ensures bytes { Adds (K.written sink.old) (K.written sink.new) self.old self.new result [] }
        ensures cause { HasCause (K.faults sink.old) (K.faults sink.new) result }
    {
        if self.pending.remaining_capacity() >= SPARE {
            return Ok(());
        }
        self.flush(sink)
    }

    /// Writes the pending bytes.
    pub fn flush<K: Sink>(&mut self, sink: &mut K) -> Result<(), Failed>
        ensures bytes { Writes (K.written sink.old) (K.written sink.new) result self.old }
        ensures none_left { IfOk result (λ _. self.new ≡ []) }
        ensures cause { HasCause (K.faults sink.old) (K.faults sink.new) result }
    {
        if let Err(failed) = write_all(sink, self.pending.as_slice()) {
            return Err(failed);
        }
        self.pending.clear();
        Ok(())
    }
}

/// Writes the parts of a line, one behind the other.
pub fn write_line<K: Sink>(parts: &[&[u8]], sink: &mut K) -> Result<(), Failed>
    ensures bytes { Writes (K.written sink.old) (K.written sink.new) result (joined parts.now) }
    ensures cause { HasCause (K.faults sink.old) (K.faults sink.new) result }
{
    let mut line = Line::new();
    if let Err(failed) = add_parts(parts, &mut line, sink) {
        return Err(failed);
    }
    line.flush(sink)
}

/// Adds the parts to what is to be written, one behind the other.
pub fn add_parts<K: Sink>(parts: &[&[u8]], line: &mut Line, sink: &mut K) -> Result<(), Failed>
    ensures bytes { Adds (K.written sink.old) (K.written sink.new) line.old line.new result (joined parts.now) }
    ensures cause { HasCause (K.faults sink.old) (K.faults sink.new) result }
{
    for part in parts {
        if let Err(failed) = line.add(sink, part) {
            return Err(failed);
        }
    }
    Ok(())
}
