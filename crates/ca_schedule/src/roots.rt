//! The extent of calls.

ghost use Rattle.std.specs.Prelude.{◌≡◌, ◌↔◌, ◌++◌, ◌∷◌, [], true, Contains, IfOk, map};
ghost use Rattle.ca_program.specs.declared.program.OpId.{OpId};
ghost use Rattle.ca_parallel.specs.Calls.{operation_of};
ghost use Rattle.ca_parallel.specs.ExtentsOf.{ExtentOf};
ghost use Rattle.ca_program.specs.View.{program_view};

use ca_base::Memory;
use ca_extent::{Extent, extent_of};
use ca_parallel::Op;
use ca_program::OpId;
use ca_sections::Coded;
use std::alloc::{AllocError, Global};

/// Whether an operation is the last one of these.
#[inline]
fn is_last(ids: &[OpId], id: OpId) -> bool
    ensures { result ≡ true → Contains ids.now id }
{
    let count = ids.len();
    if count == 0 {
        return false;
    }
    let last = ids[count - 1].0;
    if last != id.0 {
        return false;
    }
    true
}

/// Adds an operation, if it isn't the last one.
#[inline]
fn add_other(ids: &mut Vec<OpId>, id: OpId) -> Result<(), AllocError>
    ensures { IfOk result (λ _. (op : OpId) → Contains ids.new.items op ↔ Contains (ids.old.items ++ id ∷ []) op) }
{
    if is_last(ids.as_slice(), id) {
        return Ok(());
    }
    ids.push(id)?;
    Ok(())
}

/// Which operations these calls are of, one for neighbours of the same.
fn operations(alloc: Global, ops: &[Op]) -> Result<Vec<OpId>, AllocError>
    ensures { IfOk result (λ ids. (op : OpId) → Contains ids.items op ↔ Contains (map operation_of ops.now) op) }
{
    let mut ids = Vec::new(alloc);
    for op in ops {
        add_other(&mut ids, op.op)?;
    }
    Ok(ids)
}

/// The extent of these calls.
pub fn extent_of_calls(alloc: Global, program: &Coded<'_>, ops: &[Op]) -> Result<Extent, Memory>
    ensures { IfOk result (λ x. ExtentOf (program_view program.now) (map operation_of ops.now) x) }
{
    let roots = operations(alloc, ops)?;
    extent_of(alloc, program.program(), roots.as_slice())
}
