//! Calls of `top` over devices that give and take at most so many bytes a call. Where memory runs out the test ends, so that
//! nothing is dropped before its end.

ghost use Rattle.std.specs.Prelude.{◌<◌};

use crate::calls::Call;
use crate::watch::Watch;
use std::process::Abort;
use std::sync::Wait;
use std::thread::Threads;

/// The room of each sink: more than any reply of the tests has bytes.
const ROOM: usize = 2000;

/// A command line, a text, and the right reply of the line to the text: its status and what is written.
#[derive(Drop)]
pub struct Row<'a> {
    pub line: &'a str,
    pub text: String,
    pub status: u8,
    pub written: String,
}

/// What a call of `top` left: its status, how many bytes it wrote, and whether these are a beginning of the right ones.
pub type Ended = (u8, usize, bool);

/// The status of a line on a text over devices that give and take at most `piece` bytes a call, of which the read and the
/// write of these numbers fail, where they are not 0, and what was written.
pub fn left<R: AllocGlobal + Threads + Wait + Sync + Abort>(
    rt: &R,
    line: &str,
    text: &str,
    piece: usize,
    failing: (u64, u64),
) -> (u8, Vec<u8>)
    requires { 0 < piece }
{
    let call = Call {
        room: ROOM,
        failing,
        ..Call::new(line, text)
    };
    call.run_by(rt, piece, &Watch::open())
}

/// What the call of a row leaves over such devices.
pub fn call<R: AllocGlobal + Threads + Wait + Sync + Abort>(
    rt: &R,
    row: &Row,
    piece: usize,
    failing: (u64, u64),
) -> Ended
    requires { 0 < piece }
{
    let (status, written) = left(rt, row.line, row.text.as_str(), piece, failing);
    let begun = row.written.as_bytes().starts_with(&written);
    (status, written.len(), begun)
}
