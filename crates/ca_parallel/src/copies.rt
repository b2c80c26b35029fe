//! From a call of an operation to a copy that is the same value.

ghost use Rattle.std.specs.Prelude.{◌≡◌, IfOk};

use crate::op::Op;
use std::alloc::AllocError;

impl Op {
    /// The same call once more. Its arguments take their memory where the original's have theirs.
    pub fn copy(&self) -> Result<Op, AllocError>
        ensures { IfOk result (λ op. op ≡ self.now) }
    {
        Ok(Op {
            receiver: self.receiver,
            op: self.op,
            args: self.args.copy()?,
        })
    }
}
