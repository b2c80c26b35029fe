//! What a maker of terms may answer.

ghost use Rattle.std.specs.Prelude.{◌≡◌};

use std::alloc::{AllocError, AllocFailed};

/// Why a term is not made.
#[derive(Clone, Copy, PartialEq, Eq, Debug)]
pub enum ExecutionError {
    /// It weighs more than `MOST_WEIGHT`.
    Large,
    Memory,
}

impl From<AllocError> for ExecutionError {
    ghost use Rattle.ca_shared_terms.specs.declared.errors.ExecutionError.TheVariants.{Memory};

    ghost from_gives = { λ _ e. e ≡ Memory };

    fn from(_error: AllocError) -> ExecutionError {
        ExecutionError::Memory
    }
}

impl<T: Drop> From<AllocFailed<T>> for ExecutionError {
    ghost use Rattle.ca_shared_terms.specs.declared.errors.ExecutionError.TheVariants.{Memory};

    ghost from_gives = { λ _ e. e ≡ Memory };

    fn from(_error: AllocFailed<T>) -> ExecutionError {
        ExecutionError::Memory
    }
}
