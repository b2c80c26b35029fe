//! An order of two operations, run on terms.

ghost use Rattle.std.specs.Prelude.{◌≡◌, ◌<◌, ◌^◌, ◌++◌, [], ℕ, false, true, length, None, Err, IsTrue, IfOk, OnOk};
ghost use Rattle.ca_program.specs.View.{program_view};
ghost use Rattle.ca_symbolic.specs.Demanded.{demands_of};
ghost use Rattle.ca_symbolic.specs.Runs.{group_of, executed, demanded_by, is_heavy_by, first_other_loop};
ghost use Rattle.ca_shared_terms.specs.Starts.{starts};
ghost use Rattle.ca_symbolic.specs.declared.running.SymbolicError.TheVariants.{LoopForm, Large};
ghost use Rattle.ca_verdicts.specs.Orders.{in_order};

use ca_program::{FieldInfo, OpId, Program};
use ca_symbolic::{Demands, Group, Side, SymState, SymbolicError, symbolic};
use std::alloc::{AllocError, Global};

/// What an order of two operations leaves and demands.
#[derive(Drop)]
pub struct Order {
    pub state: SymState,
    pub groups: Vec<Group>,
    /// How many of the groups are those of the operation that comes first.
    pub turn: usize,
}

/// Runs one operation and then another, each with its side. No extent is known: which loops are sweeps is asked of it before.
pub fn run_order(
    alloc: Global,
    program: &Program,
    fields: &[FieldInfo],
    a: OpId,
    one: Side,
    b: OpId,
    other: Side,
) -> Result<Order, SymbolicError>
    requires first { a.0 < length program.now.ops.items }
    requires second { b.0 < length program.now.ops.items }
    requires first_loops { first_other_loop (program_view program.now) [] a ≡ None }
    requires second_loops { first_other_loop (program_view program.now) [] b ≡ None }
    ensures fields { IfOk result (λ o. o.state.fields ≡ (in_order (program_view program.now) a (group_of one) b (group_of other) (starts 0 fields.now)).fields) }
    ensures demands { IfOk result (λ o. demands_of o.groups.items ≡ (in_order (program_view program.now) a (group_of one) b (group_of other) (starts 0 fields.now)).demands) }
    ensures few { IfOk result (λ o. length (demands_of o.groups.items) < 2 ^ 64) }
    ensures light { IfOk result (λ o. (in_order (program_view program.now) a (group_of one) b (group_of other) (starts 0 fields.now)).heavy ≡ false) }
    ensures large { result ≡ Err Large → (in_order (program_view program.now) a (group_of one) b (group_of other) (starts 0 fields.now)).heavy ≡ true }
    ensures call_loops { (n : ℕ) → result ≡ Err (LoopForm n) → ⊥ }
{
    let mut state = SymState::starting(alloc, fields)?;
    let sooner = run_one(alloc, program, a, one, &mut state)?;
    let later = run_one(alloc, program, b, other, &mut state)?;
    let turn = sooner.len();
    let groups = joined(sooner, later)?;
    Ok(Order {
        state,
        groups,
        turn,
    })
}

/// Runs an operation, and gives what it demands.
fn run_one(
    alloc: Global,
    program: &Program,
    op: OpId,
    side: Side,
    state: &mut SymState,
) -> Result<Vec<Group>, SymbolicError>
    requires known { op.0 < length program.now.ops.items }
    requires loops { first_other_loop (program_view program.now) [] op ≡ None }
    ensures state { OnOk result (state.new ≡ executed (program_view program.now) op (group_of side) state.old.fields) }
    ensures demands { IfOk result (λ v. demands_of v.items ≡ demanded_by (program_view program.now) op (group_of side) state.old.fields) }
    ensures light { OnOk result (is_heavy_by (program_view program.now) op (group_of side) state.old.fields ≡ false) }
    ensures large { result ≡ Err Large → is_heavy_by (program_view program.now) op (group_of side) state.old.fields ≡ true }
    ensures call_loops { (n : ℕ) → result ≡ Err (LoopForm n) → ⊥ }
{
    let mut demands = Demands::new(alloc)?;
    symbolic(alloc, program, &[], op, side, state, &mut demands)?;
    let groups = demands.into_groups()?;
    Ok(groups)
}

/// The groups of one operation and behind them those of another, where their demands together can be counted.
fn joined(sooner: Vec<Group>, later: Vec<Group>) -> Result<Vec<Group>, AllocError>
    ensures list { IfOk result (λ v. demands_of v.items ≡ demands_of sooner.items ++ demands_of later.items) }
    ensures few { IfOk result (λ v. length (demands_of v.items) < 2 ^ 64) }
{
    let mut groups = sooner;
    let mut behind = later;
    groups.append(&mut behind)?;
    let few = are_few(groups.as_slice());
    if few { Ok(groups) } else { Err(AllocError) }
}

/// Whether the demands of groups can be counted in a word.
fn are_few(groups: &[Group]) -> bool
    ensures { IsTrue result → length (demands_of groups.now) < 2 ^ 64 }
{
    let mut count: usize = 0;
    for group in groups {
        let Some(sum) = count.checked_add(group.items.len()) else {
            return false;
        };
        count = sum;
    }
    true
}
