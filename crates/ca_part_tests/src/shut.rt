//! A door that stays shut.

use ca_model::Heap;
use ca_steps::{Door, Mark};

/// Lets no run on, so that each call and loop with a mark is handed on.
pub struct Shut;

impl Door for Shut {
    ghost Lets = { λ s. Unit {0} };

    fn lets(&self, _heap: &Heap, _mark: Mark) -> bool {
        false
    }

    fn pass(&self, _object: u32) {}
}
