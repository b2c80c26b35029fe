//! Sinks, which bytes are written to: what each write takes is `Wrote` of `specs/Devices.antt`.

ghost use Rattle.std.specs.Prelude.{◌≡◌, ℕ, ◌<◌, ◌≤◌, List, length, Option, IfOk};
ghost use Rattle.ca_base.specs.Devices.{HasCause, TakesSome, Wrote};

use crate::faults::Failed;

/// Takes bytes, a part at a time.
pub trait Sink {
    /// The bytes written so far, where the sink tells them.
    ghost written: { Self → Option (List ℕ) };

    /// How many faults there were. It never falls, and stays at `u64::MAX` once it is there.
    ghost faults: { Self → ℕ };

    /// Writes the first bytes of the piece, at least one, and answers how many those are. After
    /// `Failed` nothing was written.
    fn write(&mut self, piece: &[u8]) -> Result<usize, Failed>
        requires { 0 < length piece.now }
        ensures some { IfOk result (λ n. TakesSome n piece.now) }
        ensures bytes { Wrote (written self.old) (written self.new) result piece.now }
        ensures cause { HasCause (faults self.old) (faults self.new) result };
}
