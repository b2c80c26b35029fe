//! The commands that read nothing: `gen` and `load`.

ghost use Rattle.ca_words.specs.declared.Command.TheVariants.{Alone};
ghost use Rattle.ca_words.specs.Words.{IsInRange};
ghost use Rattle.ca_app.specs.Ends.{EndsWith, SinkCause};
ghost use Rattle.ca_app.specs.Reply.{UnreadReplies};
ghost use Rattle.ca_app.specs.clauses.Ended.{ended};

use crate::ending::{Status, Unwritten, finish};
use crate::generating::generate;
use crate::loading::load;
use ca_base::{Gate, Sink, write_all};
use ca_words::LoneCommand;
use std::alloc::Global;
use std::sync::Wait;
use std::thread::Threads;

/// Serves a command that reads nothing. The text of `gen` is made whole before it is written, and `load` writes nothing before
/// its run has ended.
pub fn serve_unread<R: Threads + Wait + Sync, K: Sink, G: Gate + Sync>(
    rt: &R,
    alloc: Global,
    command: LoneCommand,
    sink: &mut K,
    gate: &G,
) -> Result<Status, Unwritten>
    requires { IsInRange (Alone command) }
    ensures ends { EndsWith (UnreadReplies command) (ended result) (K.written sink.old) (K.written sink.new) }
    ensures write_fault { SinkCause (ended result) (K.faults sink.old) (K.faults sink.new) }
{
    match command {
        LoneCommand::Gen { seed, size } => match generate(alloc, seed, size) {
            Ok(text) => finish(write_all(sink, &text), Status::Done),
            Err(_) => Err(Unwritten::Memory),
        },
        LoneCommand::Load {
            seed,
            size,
            workers,
        } => load(rt, alloc, seed, size, workers, sink, gate),
    }
}
