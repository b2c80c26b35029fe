//! Bytes in memory that are read from front to back.

ghost use Rattle.std.specs.Prelude.{◌≡◌, ◌++◌, length, min, take, drop};

use std::marker::Model;

/// Bytes and how many of them were read. Contracts see the list of those that are left.
#[derive(Drop)]
pub(crate) struct Cursor {
    bytes: Vec<u8>,
    at: usize,
}

impl Model for Cursor {
    ghost use Rattle.std.specs.Prelude.{ℕ, ◌≤◌, List, length, drop};

    ghost Value = { List ℕ };

    ghost view = { λ s. drop s.at s.bytes.items };

    ghost invariant = { λ s. s.at ≤ length s.bytes.items };
}

impl Cursor {
    /// These bytes, of which none was read.
    pub(crate) fn new(bytes: Vec<u8>) -> Cursor
        ensures { result ≡ bytes.items }
    {
        Cursor { bytes, at: 0 }
    }

    /// Reads as many bytes as fit into the buffer.
    pub(crate) fn read(&mut self, buf: &mut [u8]) -> usize
        ensures count { result ≡ min (length buf.old) (length self.old) }
        ensures left { self.new ≡ drop result self.old }
        ensures placed { buf.new ≡ take result self.old ++ drop result buf.old }
    {
        let count = place(buf, &self.bytes[self.at..]);
        self.at += count;
        count
    }
}

/// Puts as many of the bytes as fit at the front of the room, and answers how many.
pub(crate) fn place(room: &mut [u8], bytes: &[u8]) -> usize
    ensures count { result ≡ min (length room.old) (length bytes.now) }
    ensures placed { room.new ≡ take result bytes.now ++ drop result room.old }
{
    let count = room.len().min(bytes.len());
    room[..count].copy_from_slice(&bytes[..count]);
    count
}
