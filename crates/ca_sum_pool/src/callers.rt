//! Which operations call others: a worker runs these with all that they lead to, where it may.

use ca_code::{Ins, Row};
use ca_extent::Extent;
use ca_program::OpId;
use ca_sections::Coded;
use std::alloc::{AllocError, Global};

/// Whether the body that begins at a place calls an operation.
fn calls(rows: &[Row<'_>], from: usize) -> bool {
    'rows: for at in from..rows.len() {
        let ins = &rows[at].ins;
        match ins {
            Ins::Invoke(_, _) => return true,
            Ins::Leave => return false,
            _ => {}
        }
    }
    false
}

/// Whether an operation does.
fn is_caller(program: &Coded<'_>, op: OpId) -> bool {
    match program.body(op) {
        Some(start) => calls(start.laid.code.rows.as_slice(), start.place as usize),
        None => false,
    }
}

/// The operations of an extent that do.
pub fn callers_of(
    alloc: Global,
    program: &Coded<'_>,
    extent: &Extent,
) -> Result<Vec<OpId>, AllocError> {
    let mut callers = Vec::new(alloc);
    'ops: for op in extent.ops() {
        if is_caller(program, *op) {
            callers.push(*op)?;
        }
    }
    Ok(callers)
}

/// Whether an operation is one of these.
pub fn is_one(ops: &[OpId], op: OpId) -> bool {
    'ops: for one in ops {
        if one.0 == op.0 {
            return true;
        }
    }
    false
}
