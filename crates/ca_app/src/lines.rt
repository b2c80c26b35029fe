//! Writes the line of a trap and of a budget that is spent: `trap_text` and `spent_text` of `ca_meaning/specs/Output.antt`.

ghost use Rattle.std.specs.Prelude.{◌≡◌};
ghost use Rattle.ca_base.specs.Devices.{HasCause, Writes};
ghost use Rattle.ca_meaning.specs.Output.{trap_text, spent_text, kind_text};

use ca_base::{Failed, Sink};
use ca_model::line::write_line;
use ca_model::{Trap, TrapKind};
use itoa::Buffer;

/// Writes the line of a trap.
pub fn write_trap<K: Sink>(trap: Trap, sink: &mut K) -> Result<(), Failed>
    ensures bytes { Writes (K.written sink.old) (K.written sink.new) result (trap_text trap) }
    ensures cause { HasCause (K.faults sink.old) (K.faults sink.new) result }
{
    let mut line = Buffer::new();
    let line = line.format(trap.line);
    write_line(
        &[
            b"trap ",
            line.as_bytes(),
            b" ",
            kind_name(trap.kind).as_bytes(),
            b"\n",
        ],
        sink,
    )
}

/// Writes the line of a spent budget.
pub fn write_spent<K: Sink>(budget: u32, sink: &mut K) -> Result<(), Failed>
    ensures bytes { Writes (K.written sink.old) (K.written sink.new) result (spent_text budget) }
    ensures cause { HasCause (K.faults sink.old) (K.faults sink.new) result }
{
    let mut number = Buffer::new();
    let number = number.format(budget);
    write_line(&[b"spent ", number.as_bytes(), b"\n"], sink)
}

/// The name of a kind of trap, as it is written.
fn kind_name(kind: TrapKind) -> &'static str
    ensures { result.now ≡ kind_text kind }
{
    match kind {
        TrapKind::NullPointer => "NullPointer",
        TrapKind::OutOfRange => "OutOfRange",
        TrapKind::ZeroDivisor => "ZeroDivisor",
        TrapKind::HeapFull => "HeapFull",
    }
}
