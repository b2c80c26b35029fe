//! A call of an operation in memory, which `invocation_of` of `specs/Calls.antt` takes to its plain value.

use crate::arguments::Arguments;
use ca_program::OpId;

/// An operation that is called: the number of its receiver, the operation and its arguments.
#[derive(Drop)]
pub struct Op {
    pub receiver: u32,
    pub op: OpId,
    pub args: Arguments,
}
