//! Fewer marks: a marked operation that only opens marked loops leaves its mark to them.

ghost use Rattle.std.specs.Prelude.{◌≡◌, Contains, IfOk};
ghost use Rattle.ca_program.specs.declared.program.OpId.{OpId};
ghost use Rattle.ca_schedule.specs.Fewer.{FewerMarks};

use crate::neighbours::takes_lock;
use crate::texts::{add_all_calls, all_call_within, flags_of};
use crate::weights::Known;
use ca_extent::extent_of;
use ca_parallel::Marks;
use ca_program::{LoopId, OpId, Program};
use std::alloc::{AllocError, Global};

/// Whether an operation is in the extent of these. Without memory for that it is taken to be.
fn comes_again(alloc: Global, program: &Program, ops: &[OpId], op: OpId) -> bool {
    match extent_of(alloc, program, ops) {
        Ok(extent) => {
            'operations: for below in extent.ops() {
                if below.0 == op.0 {
                    return true;
                }
            }
            false
        }
        Err(_) => true,
    }
}

/// Whether calls of an operation go on into its marked loops, which are handed on in its place: it takes no lock, calls within marked loops
/// alone, and doesn't come again below.
fn only_opens(
    alloc: Global,
    program: &Program,
    known: &mut Vec<Known>,
    flags: &[bool],
    op: OpId,
) -> bool {
    let number = op.0 as usize;
    if number >= known.len() || number >= program.ops.len() || !known[number].loops {
        return false;
    }
    let stmts = program.ops[number].body.stmts.as_slice();
    if takes_lock(alloc, program, known, op) || !all_call_within(stmts, flags) {
        return false;
    }
    let mut ops = Vec::new(alloc);
    add_all_calls(stmts, &mut ops);
    !comes_again(alloc, program, ops.as_slice(), op)
}

/// The same loops.
fn copies_of(alloc: Global, sites: &[LoopId]) -> Result<Vec<LoopId>, AllocError>
    ensures { IfOk result (λ loops. loops.items ≡ sites.now) }
{
    let mut loops = Vec::with_capacity(alloc, sites.len())?;
    for site in sites {
        loops.push(*site)?;
    }
    Ok(loops)
}

/// The operations that don't only open loops that are marked.
fn others(
    alloc: Global,
    program: &Program,
    known: &mut Vec<Known>,
    flags: &[bool],
    all: &[OpId],
) -> Result<Vec<OpId>, AllocError>
    ensures { IfOk result (λ ops. (op : OpId) → Contains ops.items op → Contains all.now op) }
{
    let mut ops = Vec::new(alloc);
    for op in all {
        if only_opens(alloc, program, known, flags, *op) {
            continue;
        }
        ops.push(*op)?;
    }
    Ok(ops)
}

/// The marks without those of operations whose loops are handed on in their place.
pub fn thinned(
    alloc: Global,
    program: &Program,
    marks: &Marks,
    known: &mut Vec<Known>,
) -> Result<Marks, AllocError>
    ensures { IfOk result (λ fewer. FewerMarks fewer marks.now) }
{
    let flags = flags_of(alloc, marks);
    let ops = others(
        alloc,
        program,
        known,
        flags.as_slice(),
        marks.ops.as_slice(),
    )?;
    let loops = copies_of(alloc, marks.loops.as_slice())?;
    Ok(Marks { ops, loops })
}
