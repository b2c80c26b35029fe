//! What is kept while something else is made. Where that fails it is dropped here, in one function for values of all
//! types, since a drop written out at each exit is dear to prove.

ghost use Rattle.std.specs.Prelude.{◌≡◌, ◌++◌, ◌∷◌, [], Ok, IfOk, IfErr, OnOk, IsOk};
ghost use Rattle.ca_resolve.specs.declared.errors.CheckError.TheVariants.{Memory};

use crate::rules::Answer;
use std::alloc::AllocError;

/// The value, and what was made beside it.
pub(crate) fn together<T: Drop, U: Drop>(
    value: T,
    made: Result<U, AllocError>,
) -> Result<(T, U), AllocError>
    ensures value { IfOk result (λ p. p.0 ≡ value) }
    ensures made { IfOk result (λ p. made ≡ Ok p.1) }
{
    let made = made?;
    Ok((value, made))
}

/// Adds an item behind the others.
pub(crate) fn add<T: Drop>(items: &mut Vec<T>, item: T) -> Result<(), AllocError>
    ensures { OnOk result (items.new.items ≡ items.old.items ++ item ∷ []) }
{
    items.push(item)?;
    Ok(())
}

/// The values, where there was room for what was added to them.
pub(crate) fn with_room<T: Drop>(values: T, room: Result<(), AllocError>) -> Answer<T>
    ensures values { IfOk result (λ t. t ≡ values) }
    ensures room { OnOk result (IsOk room) }
    ensures memory { IfErr result (λ e. e ≡ Memory) }
{
    room?;
    Ok(values)
}
