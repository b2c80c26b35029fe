//! From a place and the bytes that stand there to the place behind them: `advance` of `specs/Places.antt`.

ghost use Rattle.std.specs.Prelude.{◌≡◌, ◌<◌, ◌≤◌, ◌+◌, ◌^◌, length};
ghost use Rattle.ca_lex.specs.Places.{advance};

use ca_tree::Place;

/// The place of the first byte.
pub(crate) const START: Place = Place { line: 1, column: 1 };

/// The place behind the bytes, where the first of them stands at `from`.
pub(crate) fn place_behind(from: Place, bytes: &[u8]) -> Place
    requires first { 1 ≤ from.column }
    requires line { from.line + length bytes.now < 2 ^ 32 }
    requires column { from.column + length bytes.now < 2 ^ 32 }
    ensures place { result ≡ advance from bytes.now }
    ensures first { 1 ≤ result.column }
    ensures lines { result.line ≤ from.line + length bytes.now }
    ensures columns { result.column ≤ from.column + length bytes.now }
{
    let mut at = from;
    for b in bytes {
        if *b == b'\n' {
            at = Place {
                line: at.line + 1,
                column: 1,
            };
        } else {
            at = Place {
                line: at.line,
                column: at.column + 1,
            };
        }
    }
    at
}
