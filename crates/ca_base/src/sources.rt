//! Sources, which bytes are read from: what each read gives is `Reads` of `specs/Devices.antt`.

ghost use Rattle.std.specs.Prelude.{◌≡◌, ℕ, ◌<◌, ◌≤◌, List, length, Option, IfOk};
ghost use Rattle.ca_base.specs.Devices.{HasCause, Reads};

use crate::faults::Failed;

/// Gives bytes, a part at a time, to their end.
pub trait Source {
    /// The bytes not yet read, where the source tells them.
    ghost left: { Self → Option (List ℕ) };

    /// How many faults there were. It never falls, and stays at `u64::MAX` once it is there.
    ghost faults: { Self → ℕ };

    /// Puts the next bytes at the front of the buffer, and answers how many those are. It answers 0 at
    /// the end alone. After `Failed` nothing was read.
    fn read(&mut self, buf: &mut [u8]) -> Result<usize, Failed>
        requires { 0 < length buf.old }
        ensures within { IfOk result (λ n. n ≤ length buf.new) }
        ensures bytes { Reads (left self.old) (left self.new) result buf.old buf.new }
        ensures cause { HasCause (faults self.old) (faults self.new) result };
}
