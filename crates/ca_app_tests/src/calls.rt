//! Calls of `top` over devices in memory. Where memory runs out the test ends, so that nothing is dropped before its end.

ghost use Rattle.std.specs.Prelude.{◌<◌};

use crate::watch::Watch;
use ca_app::top;
use ca_base::{PieceSink, PieceSource, Sink, Source};
use std::process::Abort;
use std::sync::Wait;
use std::thread::Threads;

/// More bytes than a device gives or takes at once here.
const WHOLE: usize = 1_000_000_000;

/// The status of `top` on the words of a command line that is written with one space between them.
pub fn serve<R: AllocGlobal + Threads + Wait + Sync + Abort, S: Source, K: Sink>(
    rt: &R,
    line: &str,
    source: &mut S,
    sink: &mut K,
    gate: &Watch,
) -> u8 {
    let mut words = Vec::new(rt.alloc());
    for word in line.split_whitespace() {
        let word = String::from_str(rt.alloc(), word).expect(rt, "a word");
        words.push(word).expect(rt, "words");
    }
    top(rt, &words, source, sink, gate)
}

/// Adds a part to a text.
pub fn add<R: Abort>(rt: &R, text: &mut Vec<u8>, part: &[u8]) {
    text.extend_from_slice(part).expect(rt, "a part");
}

/// Adds a part to a text, in which `$` stands for the end of a line.
pub fn add_lines<R: Abort>(rt: &R, text: &mut Vec<u8>, part: &str) {
    for byte in part.as_bytes() {
        let byte = if *byte == b'$' { b'\n' } else { *byte };
        text.push(byte).expect(rt, "a byte");
    }
}

/// A call of `top`, whose sink takes at most `room` bytes. Of the reads and writes the one of this
/// number fails, where it is not 0.
#[derive(Clone, Copy)]
pub struct Call<'a> {
    pub line: &'a str,
    pub text: &'a [u8],
    pub room: usize,
    pub failing: (u64, u64),
}

impl<'a> Call<'a> {
    /// A call over devices that don't fail, for a short output.
    pub fn new(line: &'a str, text: &'a str) -> Call<'a> {
        Call::of_bytes(line, text.as_bytes())
    }

    /// The same for a text in bytes.
    pub fn of_bytes(line: &'a str, text: &'a [u8]) -> Call<'a> {
        Call {
            line,
            text,
            room: 2000,
            failing: (0, 0),
        }
    }

    /// The status of the call, and what it wrote.
    pub fn run<R: AllocGlobal + Threads + Wait + Sync + Abort>(self, rt: &R) -> (u8, Vec<u8>) {
        self.run_past(rt, &Watch::open())
    }

    /// The same past a gate.
    pub fn run_past<R: AllocGlobal + Threads + Wait + Sync + Abort>(
        self,
        rt: &R,
        gate: &Watch,
    ) -> (u8, Vec<u8>) {
        self.run_by(rt, WHOLE, gate)
    }

    /// The same where the devices give and take at most `piece` bytes at once.
    pub fn run_by<R: AllocGlobal + Threads + Wait + Sync + Abort>(
        self,
        rt: &R,
        piece: usize,
        gate: &Watch,
    ) -> (u8, Vec<u8>)
        requires { 0 < piece }
    {
        let alloc = rt.alloc();
        let text = Vec::from_slice(alloc, self.text).expect(rt, "a text");
        let failing_reads = vec![in alloc; self.failing.0; 1].expect(rt, "a number");
        let failing_writes = vec![in alloc; self.failing.1; 1].expect(rt, "a number");
        let mut source = PieceSource::new(text, piece, failing_reads);
        let mut sink = PieceSink::new(alloc, piece, self.room, failing_writes).expect(rt, "a sink");
        let status = serve(rt, self.line, &mut source, &mut sink, gate);
        let written = Vec::from_slice(alloc, sink.bytes()).expect(rt, "what was written");
        (status, written)
    }

    /// Whether the call has this status and wrote these bytes.
    pub fn ends<R: AllocGlobal + Threads + Wait + Sync + Abort>(
        self,
        rt: &R,
        status: u8,
        written: &[u8],
    ) -> bool {
        let (answer, bytes) = self.run(rt);
        answer == status && bytes.as_slice() == written
    }

    /// Whether the call has this status and writes this, in which `$` stands for the end of a line.
    pub fn tells<R: AllocGlobal + Threads + Wait + Sync + Abort>(
        self,
        rt: &R,
        status: u8,
        lines: &str,
    ) -> bool {
        let mut written = Vec::new(rt.alloc());
        add_lines(rt, &mut written, lines);
        self.ends(rt, status, &written)
    }

    /// The same past a gate.
    pub fn ends_past<R: AllocGlobal + Threads + Wait + Sync + Abort>(
        self,
        rt: &R,
        gate: &Watch,
        written: &str,
    ) -> bool {
        let (status, bytes) = self.run_past(rt, gate);
        status == 0 && bytes.as_slice() == written.as_bytes()
    }
}
