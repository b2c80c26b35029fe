//! Violations of the rules, and the least of them.

ghost use Rattle.std.specs.Prelude.{◌≡◌, ◌++◌, ◌∷◌, [], List, true, false};
ghost use Rattle.std.specs.Option.{option_map};
ghost use Rattle.ca_resolve.specs.Judged.{Violation, AtMost, is_limit, told, Tells, Joins, Extends};
ghost use Rattle.ca_resolve.specs.declared.errors.CheckError.TheVariants.{Memory};
ghost use Rattle.ca_resolve.specs.View.{violation_of};

use ca_tree::Place;
use std::alloc::{AllocError, AllocFailed};
use thiserror::Error;

/// The number of a code, as 25 for E25.
#[derive(Clone, Copy, PartialEq, Eq, Debug)]
pub struct Code(pub u32);

/// Why a tree has not been resolved.
#[derive(Clone, Copy, Debug, Error)]
pub enum CheckError {
    /// A rule is broken at this place, and no violation or passed limit comes before it.
    #[error("a rule is broken")]
    Violation(Place, Code),
    /// A limit is passed at this place, and no violation or passed limit comes before it.
    #[error("a limit is passed")]
    Limit(Place, Code),
    #[error("out of memory")]
    Memory,
}

impl From<AllocError> for CheckError {
    ghost from_gives = { λ _ e. e ≡ Memory };

    fn from(_e: AllocError) -> CheckError {
        CheckError::Memory
    }
}

impl<T: Drop> From<AllocFailed<T>> for CheckError {
    ghost from_gives = { λ _ e. e ≡ Memory };

    fn from(_e: AllocFailed<T>) -> CheckError {
        CheckError::Memory
    }
}

/// A rule that is broken at this place.
pub fn violation(at: Place, code: u32) -> CheckError
    requires { is_limit code ≡ false }
    ensures { Tells result (record { at = at; code = code } ∷ []) }
{
    CheckError::Violation(at, Code(code))
}

/// A limit that is passed at this place.
pub fn limit(at: Place, code: u32) -> CheckError
    requires { is_limit code ≡ true }
    ensures { Tells result (record { at = at; code = code } ∷ []) }
{
    CheckError::Limit(at, Code(code))
}

/// The place and the code that an error tells.
fn told(e: &CheckError) -> Option<(Place, Code)>
    ensures { option_map violation_of result ≡ told e.now }
{
    match e {
        CheckError::Violation(at, code) => Some((*at, *code)),
        CheckError::Limit(at, code) => Some((*at, *code)),
        CheckError::Memory => None,
    }
}

/// Whether a violation is the other or comes before it.
fn is_at_most(first: &(Place, Code), second: &(Place, Code)) -> bool
    ensures yes { result ≡ true → AtMost (violation_of first.now) (violation_of second.now) }
    ensures otherwise { result ≡ false → AtMost (violation_of second.now) (violation_of first.now) }
{
    let (at, code) = first;
    let (other, second) = second;
    if at.line != other.line {
        at.line < other.line
    } else if at.column != other.column {
        at.column < other.column
    } else {
        code.0 <= second.0
    }
}

/// The lesser of two violations, or out of memory.
pub fn lesser(a: CheckError, b: CheckError) -> CheckError
    ensures { (vs us : List Violation) → Tells a vs → Tells b us → Tells result (vs ++ us) }
{
    let (Some(first), Some(second)) = (told(&a), told(&b)) else {
        return CheckError::Memory;
    };
    if is_at_most(&first, &second) { a } else { b }
}

/// Two parts beside each other: both of their values, or the lesser of their violations.
pub fn both<T: Drop, U: Drop>(
    a: Result<T, CheckError>,
    b: Result<U, CheckError>,
) -> Result<(T, U), CheckError>
    ensures { Joins a b result }
{
    match a {
        Ok(t) => match b {
            Ok(u) => Ok((t, u)),
            Err(e) => Err(e),
        },
        Err(d) => match b {
            Ok(_) => Err(d),
            Err(e) => Err(lesser(d, e)),
        },
    }
}

/// The values so far and one more, or the lesser of their violations.
pub fn and_one<T: Drop>(
    so_far: Result<Vec<T>, CheckError>,
    next: Result<T, CheckError>,
) -> Result<Vec<T>, CheckError>
    ensures { Extends so_far next result }
{
    let (mut values, value) = both(so_far, next)?;
    values.push(value)?;
    Ok(values)
}

/// Lets the value go. A value that is let go here, in one function for values of all types, is not dropped at the end
/// that follows, where its drop would be written out with all variants below it.
pub fn let_go<T: Drop>(_value: T) {}
