//! Whom a run asks where a call or a loop is handed on.

ghost use Rattle.std.specs.Prelude.{◌≡◌, true};

use ca_model::Heap;
use ca_program::{LoopId, OpId};

/// What is marked: the call of an operation, or a loop.
#[derive(Clone, Copy)]
pub enum Mark {
    Call(OpId),
    Loop(LoopId),
}

/// Whom a run asks whether it goes on into what is handed on, and whom it tells of the calls within.
pub trait Door {
    /// What holds of it where it says so.
    ghost Lets: { Self → Type 0 };

    /// Whether the run goes on into such a call or loop, with this heap.
    fn lets(&self, heap: &Heap, mark: Mark) -> bool
        ensures { result ≡ true → Lets self.now };

    /// A call on this object is about to run within what was handed on.
    fn pass(&self, object: u32);
}
