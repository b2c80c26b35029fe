//! The offences of an extent's operations and their loops, asked for once for all of its pairs.

ghost use Rattle.std.specs.Prelude.{◌≡◌, ◌<◌, List, Some, length, slice_get, slice_set, IfOk, IfSome, IfNone};
ghost use Rattle.std.specs.Option.{option_or};
ghost use Rattle.ca_program.specs.declared.program.FieldId.{FieldId};
ghost use Rattle.ca_program.specs.Plain.{PlainProgram};
ghost use Rattle.ca_program.specs.View.{program_view};
ghost use Rattle.ca_section.specs.Offences.{Knows};
ghost use Rattle.ca_section.specs.Readers.{marked};
ghost use Rattle.ca_verdicts.specs.Verdicts.{BothSeparable, loop_of_both, CanExecute, OffenceTold};
ghost use Rattle.ca_plan.specs.clauses.Keeping.{AreSeen, OffencesOf};

use ca_base::Memory;
use ca_extent::Extent;
use ca_program::{OpId, Program};
use ca_section::{Readers, Separability};
use ca_symbolic::other_loop;
use ca_verdicts::{Reason, offence};
use std::alloc::{AllocError, Global};

/// By what offences in an extent are found, and for each of its operations that is separable the line of its first loop that is
/// neither a loop of calls nor a sweep, if there is one.
#[derive(Drop)]
pub(crate) struct Offences {
    readers: Readers,
    seen: Vec<Option<Option<u32>>>,
}

/// So many operations of which nothing is known.
fn nothing(alloc: Global, count: usize) -> Result<Vec<Option<Option<u32>>>, AllocError>
    ensures { IfOk result (λ seen. (p : PlainProgram) (written : List FieldId) → AreSeen p written seen.items) }
{
    let mut seen = Vec::with_capacity(alloc, count)?;
    'places: for _place in 0..count {
        seen.push(None)?;
    }
    Ok(seen)
}

/// Notes what is known of an operation.
fn note(op: OpId, line: Option<u32>, seen: &mut Vec<Option<Option<u32>>>)
    ensures { seen.new.items ≡ slice_set seen.old.items op.0 (Some line) }
{
    let place = op.0 as usize;
    if place < seen.len() {
        seen[place] = Some(line);
    }
}

/// Looks at an operation in the extent whose readers these are.
fn see(
    readers: &Readers,
    program: &Program,
    extent: &Extent,
    op: OpId,
    seen: &mut Vec<Option<Option<u32>>>,
)
    requires { Knows (program_view program.now) extent.now.written (marked readers.now) }
    ensures { AreSeen (program_view program.now) extent.now.written seen.old.items → AreSeen (program_view program.now) extent.now.written seen.new.items }
{
    if (op.0 as usize) >= program.ops.len() {
        return;
    }
    match readers.separable(program, extent, op) {
        Separability::Yes => note(op, other_loop(program, extent.written(), op), seen),
        Separability::No { .. } => {}
    }
}

/// What is known of an operation.
fn seen_at(seen: &[Option<Option<u32>>], op: OpId) -> Option<Option<u32>>
    ensures { IfSome result (λ line. slice_get seen.now op.0 ≡ Some (Some line)) }
{
    let place = op.0 as usize;
    if place >= seen.len() {
        return None;
    }
    seen[place]
}

/// The first of two lines.
fn first_line(one: Option<u32>, other: Option<u32>) -> Option<u32>
    ensures { result ≡ option_or one other }
{
    match one {
        Some(line) => Some(line),
        None => other,
    }
}

/// The line of the first such loop of two operations, where both are known.
fn line_of_both(seen: &[Option<Option<u32>>], a: OpId, b: OpId) -> Option<Option<u32>>
    ensures { (p : PlainProgram) (written : List FieldId) → AreSeen p written seen.now → IfSome result (λ line. BothSeparable p written a b × (loop_of_both p written a b ≡ line)) }
{
    match (seen_at(seen, a), seen_at(seen, b)) {
        (Some(one), Some(other)) => Some(first_line(one, other)),
        _ => None,
    }
}

impl Offences {
    /// Those of an extent.
    pub fn of(alloc: Global, program: &Program, extent: &Extent) -> Result<Offences, Memory>
        ensures { IfOk result (OffencesOf (program_view program.now) extent.now.written) }
    {
        let readers = Readers::of(alloc, program, extent)?;
        let mut seen = nothing(alloc, program.ops.len())?;
        'ops: for op in extent.ops() {
            see(&readers, program, extent, *op, &mut seen);
        }
        Ok(Offences { readers, seen })
    }

    /// Why two operations of the extent can't be executed: the first of them that isn't separable, with its first offence, or
    /// else their first loop that is neither a loop of calls nor a sweep.
    pub fn first(&self, program: &Program, extent: &Extent, a: OpId, b: OpId) -> Option<Reason>
        requires offences { OffencesOf (program_view program.now) extent.now.written self.now }
        requires first { a.0 < length program.now.ops.items }
        requires second { b.0 < length program.now.ops.items }
        ensures told { IfSome result (OffenceTold (program_view program.now) extent.now.written a b) }
        ensures can { IfNone result (CanExecute (program_view program.now) extent.now.written a b) }
    {
        match line_of_both(self.seen.as_slice(), a, b) {
            Some(Some(line)) => Some(Reason::LoopForm(line)),
            Some(None) => None,
            None => offence(&self.readers, program, extent, a, b),
        }
    }
}
