//! From an operation and terms to what it leaves and demands: `executed` and `demanded_by` of `specs/Runs.antt`.

ghost use Rattle.std.specs.Prelude.{◌≡◌, ◌<◌, ℕ, true, false, length, slice_get, Some, None, Err, OnOk};
ghost use Rattle.std.specs.List.{list_any};
ghost use Rattle.ca_program.specs.View.{program_view};
ghost use Rattle.ca_norm.specs.Terms.{truth};
ghost use Rattle.ca_symbolic.specs.declared.running.SymbolicError.TheVariants.{LoopForm, Large};
ghost use Rattle.ca_shared_terms.specs.Heavy.{is_heavy};
ghost use Rattle.ca_symbolic.specs.Demanded.{with_demands};
ghost use Rattle.ca_symbolic.specs.Runs.{group_of, executed, demanded_by, is_heavy_by, first_other_loop};

use crate::demand::Demands;
use crate::loops::other_loop_in;
use crate::state::SymState;
use crate::walk::run_all;
use ca_program::{FieldId, OpId, Program};
use ca_shared_terms::{ExecutionError, LightTerm};
use std::alloc::{AllocError, Global};

/// Which operation of a pair.
#[derive(Clone, Copy)]
pub enum Side {
    First,
    Second,
}

impl Side {
    /// The group of its parameters.
    fn group(self) -> u32
        ensures { result ≡ group_of self }
    {
        match self {
            Side::First => 1,
            Side::Second => 2,
        }
    }
}

/// Why a symbolic execution stopped.
#[derive(Clone, Copy)]
pub enum SymbolicError {
    /// A loop is neither a loop of calls nor a sweep; it stands on this line.
    LoopForm(u32),
    /// A term weighs more than `MOST_WEIGHT`.
    Large,
    Memory,
}

impl From<AllocError> for SymbolicError {
    ghost use Rattle.ca_symbolic.specs.declared.running.SymbolicError.TheVariants.{Memory};

    ghost from_gives = { λ _ e. e ≡ Memory };

    fn from(_error: AllocError) -> SymbolicError {
        SymbolicError::Memory
    }
}

/// The line of the first loop of an operation, of an extent that writes these fields, that is neither a loop of calls nor a
/// sweep. It takes no memory.
pub fn other_loop(program: &Program, written: &[FieldId], op: OpId) -> Option<u32>
    requires { op.0 < length program.now.ops.items }
    ensures { result ≡ first_other_loop (program_view program.now) written.now op }
{
    let method = program.op(op);
    other_loop_in(method.params, written, &method.body.stmts)
}

/// No term that is kept is too heavy, so no field holds such a one, whether it was put or not.
fn are_light(terms: &[LightTerm])
    ensures { list_any is_heavy terms.now ≡ false }
{
    for term in terms {
        let _kept = term.share();
    }
}

/// Runs an operation, of an extent that writes these fields, on a state: it finds the fields as they are, its locals begin
/// anew, and its parameters are the atoms of its side. What it demands comes behind what was demanded before. After an error
/// nothing is said of the state and of what was demanded.
pub fn symbolic(
    alloc: Global,
    program: &Program,
    written: &[FieldId],
    op: OpId,
    side: Side,
    state: &mut SymState,
    demands: &mut Demands,
) -> Result<(), SymbolicError>
    requires known { op.0 < length program.now.ops.items }
    requires outside { demands.old.guard ≡ truth true }
    ensures state { OnOk result (state.new ≡ executed (program_view program.now) op (group_of side) state.old.fields) }
    ensures demands { OnOk result (demands.new ≡ with_demands demands.old (demanded_by (program_view program.now) op (group_of side) state.old.fields)) }
    ensures light { OnOk result (is_heavy_by (program_view program.now) op (group_of side) state.old.fields ≡ false) }
    ensures call_loops { OnOk result (first_other_loop (program_view program.now) written.now op ≡ None) }
    ensures loop_form { (n : ℕ) → result ≡ Err (LoopForm n) → first_other_loop (program_view program.now) written.now op ≡ Some n }
    ensures large { result ≡ Err Large → (first_other_loop (program_view program.now) written.now op ≡ None) × (is_heavy_by (program_view program.now) op (group_of side) state.old.fields ≡ true) }
{
    if let Some(line) = other_loop(program, written, op) {
        return Err(SymbolicError::LoopForm(line));
    }
    let method = program.op(op);
    state.begin(alloc, side.group(), method)?;
    match run_all(alloc, program, &method.body.stmts, state, demands) {
        Ok(()) => {
            are_light(state.fields());
            Ok(())
        }
        Err(ExecutionError::Large) => Err(SymbolicError::Large),
        Err(ExecutionError::Memory) => Err(SymbolicError::Memory),
    }
}
