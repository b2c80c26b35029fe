//! Which operations are parallel, which of them take a lock, and which operations a tree has.

ghost use Rattle.std.specs.Prelude.{◌≡◌, [], ◌∷◌, ◌++◌, IfOk};
ghost use Rattle.ca_tree.specs.View.{member_view, tree_view};
ghost use Rattle.ca_program.specs.View.{program_view};
ghost use Rattle.ca_emit.specs.Annotations.{all_ops, locked_in, locked_ops, ops_if, operations_in, operations_of, parallel_ops};
ghost use Rattle.ca_emit.specs.clauses.Seen.{methods_seen, members_seen};

use ca_base::Memory;
use ca_extent::Extent;
use ca_plan::{Plan, is_loop_in, is_op_in};
use ca_program::{OpId, Program};
use ca_section::locks;
use ca_tree::{Member, MethodNode, Tree};
use std::alloc::{AllocError, Global};

/// Adds the operations of an extent, if it is one of those that are marked.
fn add_reached(marked: bool, extent: &Extent, out: &mut Vec<OpId>) -> Result<(), AllocError>
    ensures { IfOk result (λ _. out.new.items ≡ out.old.items ++ ops_if marked (all_ops extent.now)) }
{
    if marked {
        out.extend_from_slice(extent.ops())?;
    }
    Ok(())
}

/// The operations in the extents of marked operations and of marked loops.
pub(crate) fn parallel_ops(alloc: Global, plan: &Plan) -> Result<Vec<OpId>, Memory>
    ensures { IfOk result (λ ops. ops.items ≡ parallel_ops plan.now) }
{
    let mut parallel = Vec::new(alloc);
    let ops = plan.ops();
    for n in 0..ops.len() {
        let marked = is_op_in(plan.marked_ops(), n);
        add_reached(marked, ops[n].extent(), &mut parallel)?;
    }
    let loops = plan.loops();
    for one in loops {
        let marked = is_loop_in(plan.marked_loops(), one.site());
        add_reached(marked, one.judged().extent(), &mut parallel)?;
    }
    Ok(parallel)
}

/// Adds an operation, or not.
fn add_op(wanted: bool, op: OpId, out: &mut Vec<OpId>) -> Result<(), AllocError>
    ensures { IfOk result (λ _. out.new.items ≡ out.old.items ++ ops_if wanted (op ∷ [])) }
{
    if wanted {
        out.push(op)?;
    }
    Ok(())
}

/// Adds the operations of an extent that take a lock in it.
fn add_all_locked(program: &Program, extent: &Extent, out: &mut Vec<OpId>) -> Result<(), AllocError>
    ensures { IfOk result (λ _. out.new.items ≡ out.old.items ++ locked_in (program_view program.now) extent.now) }
{
    let ops = extent.ops();
    for op in ops {
        add_op(locks(program, extent, *op), *op, out)?;
    }
    Ok(())
}

/// The same, if the extent is one of those that are marked.
fn add_locked(
    program: &Program,
    marked: bool,
    extent: &Extent,
    out: &mut Vec<OpId>,
) -> Result<(), AllocError>
    ensures { IfOk result (λ _. out.new.items ≡ out.old.items ++ ops_if marked (locked_in (program_view program.now) extent.now)) }
{
    if marked {
        add_all_locked(program, extent, out)?;
    }
    Ok(())
}

/// The operations that take a lock in the extent of a marked operation or of a marked loop.
pub(crate) fn locked_ops(alloc: Global, program: &Program, plan: &Plan) -> Result<Vec<OpId>, Memory>
    ensures { IfOk result (λ ops. ops.items ≡ locked_ops (program_view program.now) plan.now) }
{
    let mut locked = Vec::new(alloc);
    let ops = plan.ops();
    for n in 0..ops.len() {
        let marked = is_op_in(plan.marked_ops(), n);
        add_locked(program, marked, ops[n].extent(), &mut locked)?;
    }
    let loops = plan.loops();
    for one in loops {
        let marked = is_loop_in(plan.marked_loops(), one.site());
        add_locked(program, marked, one.judged().extent(), &mut locked)?;
    }
    Ok(locked)
}

/// Adds the operations of a class, in the order of the text.
fn add_operations<'a>(
    members: &'a [Member],
    out: &mut Vec<&'a MethodNode>,
) -> Result<(), AllocError>
    ensures { IfOk result (λ _. methods_seen out.new.items ≡ methods_seen out.old.items ++ operations_in (members_seen members.now)) }
{
    for m in members {
        add_operation(m, out)?;
    }
    Ok(())
}

/// Adds a member, if it is an operation.
fn add_operation<'a>(m: &'a Member, out: &mut Vec<&'a MethodNode>) -> Result<(), AllocError>
    ensures { IfOk result (λ _. methods_seen out.new.items ≡ methods_seen out.old.items ++ operations_in (member_view m.now ∷ [])) }
{
    match m {
        Member::Field(_) => {}
        Member::Method(method) => {
            if method.result.is_none() {
                out.push(method)?;
            }
        }
    }
    Ok(())
}

/// The operations of a tree, in the order of the text.
pub(crate) fn operations(alloc: Global, tree: &Tree) -> Result<Vec<&MethodNode>, Memory>
    ensures { IfOk result (λ ms. methods_seen ms.items ≡ operations_of (tree_view tree.now).classes) }
{
    let mut found = Vec::new(alloc);
    for class in &tree.classes {
        add_operations(&class.members, &mut found)?;
    }
    Ok(found)
}
