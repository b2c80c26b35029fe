//! Refusals of a text: the codes, their statuses and their lines.

ghost use Rattle.std.specs.Prelude.{◌≡◌};
ghost use Rattle.ca_base.specs.Devices.{HasCause, Writes};
ghost use Rattle.ca_app.specs.Verified.{at_line};
ghost use Rattle.ca_app.specs.clauses.Ended.{number_of};
ghost use Rattle.ca_app.specs.Refusals.{is_limit_code, leading_zero, refusal_word, refusal_status, refusal_text};

use crate::ending::Status;
use ca_base::{Failed, Sink};
use ca_model::line::write_line;
use ca_resolve::Code;
use ca_resolve::codes::{FIRST_LIMIT, LAST_LIMIT};
use ca_tree::Place;
use itoa::Buffer;

// The codes that `ca_types::check` doesn't tell. Its own limits are `FIRST_LIMIT` to `LAST_LIMIT`.

/// A byte that is part of no token.
pub const NO_TOKEN: Code = Code(1);
/// A number that is too great.
pub const TOO_GREAT: Code = Code(2);
/// A token too many.
pub const TOO_MANY: Code = Code(3);
/// The number of bytes of the source passes the limit. Such a refusal has no place in the source.
pub const TOO_LONG: Code = Code(4);
/// A token that the grammar doesn't allow.
pub const WRONG_TOKEN: Code = Code(10);
/// A token that is nested too deeply.
pub const TOO_DEEP: Code = Code(11);

/// No line feed of the text is followed by the first line of a schedule. Such a refusal has no place in the text.
pub const NO_SCHEDULE: Code = Code(60);
/// A line of the schedule that is none of a schedule of the program.
pub const ILL_FORMED: Code = Code(61);

/// Where a text is refused, and by which code.
#[derive(Clone, Copy, PartialEq, Eq)]
pub struct Refusal {
    pub at: Place,
    pub code: Code,
}

impl Refusal {
    /// The refusal of a source that is too long.
    pub const OVERLONG: Refusal = Refusal {
        at: Place { line: 0, column: 0 },
        code: TOO_LONG,
    };

    /// The refusal of a text that has no schedule.
    pub const UNSCHEDULED: Refusal = Refusal {
        at: Place { line: 0, column: 0 },
        code: NO_SCHEDULE,
    };

    /// The refusal of a line of the schedule, by its number, counted from the first line of the schedule, which is 1.
    pub fn of_line(line: u32) -> Refusal
        ensures at { result.at ≡ at_line line }
        ensures code { result.code.0 ≡ ILL_FORMED.0 }
    {
        Refusal {
            at: Place { line, column: 1 },
            code: ILL_FORMED,
        }
    }

    /// The status with which a call ends that tells this refusal.
    pub fn status(self) -> Status
        ensures { number_of result ≡ refusal_status (is_limit_code self.code.0) }
    {
        if self.is_limit() {
            Status::PastLimit
        } else {
            Status::Refused
        }
    }

    /// Whether the code is that of a limit.
    fn is_limit(self) -> bool
        ensures { result ≡ is_limit_code self.code.0 }
    {
        let code = self.code.0;
        code == TOO_MANY.0
            || code == TOO_LONG.0
            || code == TOO_DEEP.0
            || (FIRST_LIMIT <= code && code <= LAST_LIMIT)
    }

    /// The word in front of the place.
    fn word(self) -> &'static [u8]
        ensures { result.now ≡ refusal_word (is_limit_code self.code.0) }
    {
        if self.is_limit() {
            b"limit "
        } else {
            b"error "
        }
    }

    /// Writes the line of the refusal.
    pub fn write<K: Sink>(self, sink: &mut K) -> Result<(), Failed>
        ensures bytes { Writes (K.written sink.old) (K.written sink.new) result (refusal_text self.at self.code.0) }
        ensures cause { HasCause (K.faults sink.old) (K.faults sink.new) result }
    {
        let mut line = Buffer::new();
        let line = line.format(self.at.line);
        let mut column = Buffer::new();
        let column = column.format(self.at.column);
        let mut digits = Buffer::new();
        let digits = digits.format(self.code.0);
        write_line(
            &[
                self.word(),
                line.as_bytes(),
                b":",
                column.as_bytes(),
                b" E",
                leading_zero(self.code.0 < 10),
                digits.as_bytes(),
                b"\n",
            ],
            sink,
        )
    }
}

/// What stands in front of the digits of a code, of which there are two at least.
fn leading_zero(one_digit: bool) -> &'static [u8]
    ensures { result.now ≡ leading_zero one_digit }
{
    if one_digit { b"0" } else { b"" }
}
