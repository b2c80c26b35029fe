//! Standard input and output as devices. They tell no bytes: what the system gives and takes is
//! trusted.

ghost use Rattle.std.specs.Prelude.{◌≡◌, ◌<◌, ◌≤◌, ℕ, true, false, [], None, length, IfOk, IfSome};
ghost use Rattle.ca_base.specs.Devices.{HasCause, Reads, Rose, TakesSome, Wrote};

use crate::faults::Failed;
use crate::sinks::Sink;
use crate::sources::Source;
use arrayvec::ArrayVec;
use std::io::Read;
use std::marker::{Model, PhantomData};

/// Standard input. It reads straight into the caller's buffer and takes no memory. Contracts see how
/// many faults there were.
#[derive(Drop)]
pub struct StdSource<'a, R: Input> {
    reader: R::Reader,
    faults: u64,
    runtime: PhantomData<&'a R>,
}

impl<'a, R: Input> Model for StdSource<'a, R> {
    ghost use Rattle.std.specs.Prelude.{ℕ};

    ghost Value = { ℕ };

    ghost view = { λ s. s.faults };
}

impl<'a, R: Input> StdSource<'a, R> {
    /// Standard input of this runtime.
    pub fn new(rt: &'a R) -> StdSource<'a, R>
        ensures { result ≡ 0 }
    {
        StdSource {
            reader: rt.reader(),
            faults: 0,
            runtime: PhantomData,
        }
    }
}

impl<'a, R: Input> Source for StdSource<'a, R> {
    ghost left = { λ _. None };

    ghost faults = { λ s. s };

    fn read(&mut self, buf: &mut [u8]) -> Result<usize, Failed> {
        match self.reader.read(buf) {
            Ok(count) => Ok(count),
            Err(_) => {
                self.faults = self.faults.saturating_add(1);
                Err(Failed)
            }
        }
    }
}

/// How many bytes of a line are kept until they go out.
const ROOM: usize = 4096;

/// Bytes that are kept: those in front of `sent` went out already, the others have to.
#[derive(Drop)]
struct Pending {
    bytes: ArrayVec<u8, ROOM>,
    sent: usize,
}

impl Pending {
    /// No bytes. It takes no memory.
    fn new() -> Pending
        ensures { result.bytes.items ≡ [] }
    {
        Pending {
            bytes: ArrayVec::new(),
            sent: 0,
        }
    }

    /// Sends what has to go out until all is gone, which it tells, or a write fails.
    fn send<R: Print>(&mut self, rt: &R) -> bool
        ensures gone { result ≡ true → self.new.bytes.items ≡ [] }
        ensures kept { result ≡ false → self.new.bytes ≡ self.old.bytes }
        ensures within { result ≡ false → self.new.sent ≤ length self.old.bytes.items }
    {
        while self.sent < self.bytes.len() {
            match rt.write_some(&self.bytes.as_slice()[self.sent..]) {
                Ok(count) if count > 0 => self.sent += count,
                _ => return false,
            }
        }
        self.bytes.clear();
        self.sent = 0;
        true
    }

    /// Keeps the piece, and sends it with all before it where it ends a line or the room is full. Answers
    /// how many of its bytes it took. After `None` it took none, and a write failed.
    fn take<R: Print>(&mut self, rt: &R, piece: &[u8]) -> Option<usize>
        requires { 0 < length piece.now }
        ensures { IfSome result (λ n. TakesSome n piece.now) }
    {
        if piece.len() > ROOM - self.bytes.len() && !self.send(rt) {
            return None;
        }
        if self.bytes.try_extend_from_slice(piece).is_err() {
            return pass(rt, piece);
        }
        if !ends_line(piece) && !self.bytes.is_full() {
            return Some(piece.len());
        }
        if self.send(rt) {
            return Some(piece.len());
        }
        let before = self.bytes.len() - piece.len();
        if self.sent <= before {
            self.bytes.truncate(before);
            return None;
        }
        // The first bytes of the piece went out with all before it.
        let count = self.sent - before;
        self.bytes.clear();
        self.sent = 0;
        Some(count)
    }
}

/// Whether a piece ends with a line feed.
#[inline]
fn ends_line(piece: &[u8]) -> bool {
    match piece.last() {
        Some(byte) => *byte == b'\n',
        None => false,
    }
}

/// Hands a piece to the system at once.
fn pass<R: Print>(rt: &R, piece: &[u8]) -> Option<usize>
    ensures { IfSome result (λ n. TakesSome n piece.now) }
{
    match rt.write_some(piece) {
        Ok(count) if count > 0 => Some(count),
        _ => None,
    }
}

/// Standard output, by lines. It takes no memory. Contracts see how many faults there were.
///
/// A piece that ends with a line feed goes out at once, in one write with the pieces before it. Other
/// pieces are pending until then, in a fixed array, or until it is full; a piece that is longer than the
/// array goes out at once behind them. So what was taken and has not gone to the system is never more
/// than an unfinished line: the pieces behind the last one that ended with a line feed. Nobody sends it
/// at an end, so every output has to end with a line feed. The write that sends counts the fault, and
/// after `Failed` the pieces before it are pending as they were.
#[derive(Drop)]
pub struct StdSink<'a, R: Print> {
    rt: &'a R,
    faults: u64,
    pending: Pending,
}

impl<'a, R: Print> Model for StdSink<'a, R> {
    ghost use Rattle.std.specs.Prelude.{ℕ};

    ghost Value = { ℕ };

    ghost view = { λ s. s.faults };
}

impl<'a, R: Print> StdSink<'a, R> {
    /// Standard output of this runtime.
    pub fn new(rt: &'a R) -> StdSink<'a, R>
        ensures { result ≡ 0 }
    {
        StdSink {
            rt,
            faults: 0,
            pending: Pending::new(),
        }
    }

    /// Counts a fault.
    fn fault(&mut self) -> Failed
        ensures later { self.old ≤ self.new }
        ensures rose { Rose self.old self.new }
    {
        self.faults = self.faults.saturating_add(1);
        Failed
    }
}

impl<'a, R: Print> Sink for StdSink<'a, R> {
    ghost written = { λ _. None };

    ghost faults = { λ s. s };

    // A write that takes nothing counts as a fault.
    fn write(&mut self, piece: &[u8]) -> Result<usize, Failed> {
        match self.pending.take(self.rt, piece) {
            Some(count) => Ok(count),
            None => Err(self.fault()),
        }
    }
}
