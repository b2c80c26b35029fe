//! Writes the line of a printed value: `print_text` of `ca_meaning/specs/Output.antt`.

ghost use Rattle.std.specs.Prelude.{◌≡◌};
ghost use Rattle.ca_base.specs.Devices.{HasCause, Writes};
ghost use Rattle.ca_meaning.specs.Output.{print_text};

use ca_base::{Failed, Sink};
use ca_model::Value;
use ca_model::line::Line;
use ca_model::print::add_value;

/// Writes the text of a value and a line feed, in one write.
pub fn print_line<K: Sink>(value: Value, sink: &mut K) -> Result<(), Failed>
    ensures bytes { Writes (K.written sink.old) (K.written sink.new) result (print_text value) }
    ensures cause { HasCause (K.faults sink.old) (K.faults sink.new) result }
{
    let mut line = Line::new();
    if let Err(failed) = add_value(value, &mut line, sink) {
        return Err(failed);
    }
    if let Err(failed) = line.add(sink, b"\n") {
        return Err(failed);
    }
    line.flush(sink)
}
