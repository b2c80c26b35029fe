//! Writes a piece whole, or a beginning of it before a fault: `Writes` of `specs/Devices.antt`.

ghost use Rattle.std.specs.Prelude.{◌≡◌, ℕ, List, [], length, IsOk};
ghost use Rattle.ca_base.specs.Devices.{HasCause, Writes};

use crate::faults::Failed;
use crate::sinks::Sink;

/// Writes the whole piece, or a beginning of it until the sink fails. It takes no memory.
pub fn write_all<K: Sink>(sink: &mut K, piece: &[u8]) -> Result<(), Failed>
    ensures bytes { Writes (K.written sink.old) (K.written sink.new) result piece.now }
    ensures cause { HasCause (K.faults sink.old) (K.faults sink.new) result }
    // An empty piece makes no write.
    ensures empty { piece.now ≡ [] → IsOk result }
    ensures untouched { piece.now ≡ [] → sink.new ≡ sink.old }
{
    let mut rest = piece;
    while !rest.is_empty() {
        let count = sink.write(rest)?;
        rest = &rest[count..];
    }
    Ok(())
}
