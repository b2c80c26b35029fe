//! Normal forms of terms.

ghost use Rattle.std.specs.Prelude.{◌≡◌, ◌↔◌, IfOk, IsTrue};

use crate::array::Array;
use crate::polynomial::Scalar;
use std::alloc::{AllocError, Global};
use std::cmp::Ordering;

impl Scalar {
    /// Whether two forms are equal. It takes no memory.
    pub fn same(&self, other: &Scalar) -> bool
        ensures { IsTrue result ↔ (self.now ≡ other.now) }
    {
        self.compare(other) == Ordering::Equal
    }
}

/// A normal form: of a number, a truth value or a pointer, or of an array.
#[derive(Drop)]
pub enum Normal {
    Scalar(Scalar),
    Array(Array),
}

impl Normal {
    /// The same normal form once more.
    pub fn copy(&self, alloc: Global) -> Result<Normal, AllocError>
        ensures { IfOk result (λ n. n ≡ self.now) }
    {
        match self {
            Normal::Scalar(scalar) => Ok(Normal::Scalar(scalar.copy(alloc)?)),
            Normal::Array(array) => Ok(Normal::Array(array.copy(alloc)?)),
        }
    }
}
