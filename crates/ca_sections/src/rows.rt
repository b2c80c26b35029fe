//! Which operations take a lock, for whoever asks it of each task.

ghost use Rattle.std.specs.Prelude.{◌≡◌, [], false, Some, IfOk, slice_get};
ghost use Rattle.ca_program.specs.declared.program.OpId.{OpId};
ghost use Rattle.ca_program.specs.View.{program_view};
ghost use Rattle.ca_parallel.specs.Bodies.{targets_of_all};
ghost use Rattle.ca_parallel.specs.Extents.{operation_body};
ghost use Rattle.ca_parallel.specs.Free.{IsFree};
ghost use Rattle.ca_sections.specs.Rows.{AreLocks};

use ca_extent::Extent;
use ca_program::{OpId, Program};
use ca_section::locks;
use std::alloc::{AllocError, Global};

/// Whether each operation takes a lock in the extent. One that takes none puts nothing and is free.
pub fn lock_row(alloc: Global, program: &Program, extent: &Extent) -> Result<Vec<bool>, AllocError>
    ensures exact { IfOk result (λ row. AreLocks (program_view program.now) extent.now.written row.items) }
    ensures free { IfOk result (λ row. (op : OpId) → slice_get row.items op.0 ≡ Some false → (targets_of_all (operation_body (program_view program.now) op) ≡ []) × IsFree (program_view program.now) extent.now.written op) }
{
    let most = program.ops.len().min(u32::MAX as usize);
    let mut row = Vec::with_capacity(alloc, most)?;
    'ops: while row.len() < most {
        let op = OpId(row.len() as u32);
        row.push(locks(program, extent, op))?;
    }
    Ok(row)
}
