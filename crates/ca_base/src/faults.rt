//! What a call answers where a device fails, or where memory runs out.

use std::alloc::{AllocError, AllocFailed};

/// A device's fault. The device that answers it has counted it.
#[derive(Clone, Copy, PartialEq, Eq, Debug)]
pub struct Failed;

/// Out of memory. No clause says when it comes.
#[derive(Clone, Copy, PartialEq, Eq, Debug)]
pub struct Memory;

impl From<AllocError> for Memory {
    fn from(_error: AllocError) -> Memory {
        Memory
    }
}

impl<T: Drop> From<AllocFailed<T>> for Memory {
    fn from(_error: AllocFailed<T>) -> Memory {
        Memory
    }
}
