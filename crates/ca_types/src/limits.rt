//! The limits on how many things a program has.

ghost use Rattle.std.specs.Prelude.{◌≡◌, true};
ghost use Rattle.ca_resolve.specs.Judged.{Finds, broken_if, is_limit};
ghost use Rattle.ca_types.specs.Rules.{listed};

use crate::rules::Answer;
use ca_resolve::limit;
use ca_tree::Place;

/// The most classes of a program.
pub const MOST_CLASSES: u32 = 256;

/// The most fields of a class.
pub const MOST_FIELDS: u32 = 256;

/// The most operations of a program.
pub const MOST_OPERATIONS: u32 = 256;

/// The most value methods of a program.
pub const MOST_FUNCTIONS: u32 = 256;

/// The most parameters of a method.
pub const MOST_PARAMETERS: usize = 32;

/// The most locals of a body, with its parameters.
pub const MOST_LOCALS: usize = 256;

/// The most items of an array.
pub const MOST_ITEMS: i64 = 1_000_000;

/// The most `for` statements of a program.
pub const MOST_LOOPS: u32 = 256;

/// A limit, which may be passed.
pub(crate) fn bound(is_passed: bool, at: Place, code: u32) -> Answer<()>
    requires { is_limit code ≡ true }
    ensures { Finds result (listed (broken_if is_passed at code)) }
{
    if is_passed {
        Err(limit(at, code))
    } else {
        Ok(())
    }
}
