//! What is kept while something else is made. Where that fails it is dropped here, in one function for values of all
//! types, since a drop written out at each exit is dear to prove.

ghost use Rattle.std.specs.Prelude.{◌≡◌, ◌≢◌, Ok, Err, IfOk};
ghost use Rattle.ca_shared_terms.specs.declared.errors.ExecutionError.TheVariants.{Large};

use ca_shared_terms::ExecutionError;
use std::alloc::AllocError;

/// The value, and what was made behind it.
#[inline(never)]
pub(crate) fn together<T: Drop, U: Drop>(
    value: T,
    made: Result<U, ExecutionError>,
) -> Result<(T, U), ExecutionError>
    ensures value { IfOk result (λ p. p.0 ≡ value) }
    ensures made { IfOk result (λ p. made ≡ Ok p.1) }
    ensures large { result ≡ Err Large → made ≡ Err Large }
{
    let made = made?;
    Ok((value, made))
}

/// What is made without a new node, so that it isn't too heavy.
#[inline(never)]
pub(crate) fn leaf<T: Drop>(made: Result<T, AllocError>) -> Result<T, ExecutionError>
    ensures made { IfOk result (λ t. made ≡ Ok t) }
    ensures small { result ≢ Err Large }
{
    let made = made?;
    Ok(made)
}
