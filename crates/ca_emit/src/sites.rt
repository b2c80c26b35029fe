//! Calls and loops in the order of the text: where they stand in a tree, and which of them run in parallel.

ghost use Rattle.std.specs.Prelude.{◌≡◌, [], ◌∷◌, ◌++◌, ◌&&◌, ◌||◌, false, IfOk};
ghost use Rattle.ca_meaning.specs.Operators.{not_of};
ghost use Rattle.ca_parallel.specs.Lists.{op_in};
ghost use Rattle.ca_tree.specs.View as of_tree;
ghost use Rattle.ca_program.specs.View as of_program;
ghost use Rattle.ca_emit.specs.Annotations.{picked, place_if, run_parallel, runs_parallel, sites_of, sites_of_all};

use ca_parallel::Marks;
use ca_plan::{is_loop_in, is_op_in};
use ca_program::{OpId, Stmt, StmtForm};
use ca_tree::{Place, StmtKind, StmtNode};
use std::alloc::{AllocError, Global};

/// Adds a place.
fn add_site(at: Place, out: &mut Vec<Place>) -> Result<(), AllocError>
    ensures { IfOk result (λ _. out.new.items ≡ out.old.items ++ at ∷ []) }
{
    out.push(at)?;
    Ok(())
}

/// Adds the places of the calls and of the `for` statements in a statement.
#[cycle(sites)]
fn add_sites(s: &StmtNode, out: &mut Vec<Place>) -> Result<(), AllocError>
    ensures { IfOk result (λ _. out.new.items ≡ out.old.items ++ sites_of (of_tree.statement_view s.now)) }
{
    match &s.kind {
        StmtKind::Block(stmts) => add_all_sites(stmts, out),
        StmtKind::Call(_) => add_site(s.at, out),
        StmtKind::If { yes, no, .. } => {
            add_sites(yes, out)?;
            match no {
                None => Ok(()),
                Some(other) => add_sites(other, out),
            }
        }
        StmtKind::While { body, .. } => add_sites(body, out),
        StmtKind::For { body, .. } => add_site(s.at, out).and(add_sites(body, out)),
        _ => Ok(()),
    }
}

/// Adds those in statements.
#[cycle(sites)]
fn add_all_sites(stmts: &[StmtNode], out: &mut Vec<Place>) -> Result<(), AllocError>
    ensures { IfOk result (λ _. out.new.items ≡ out.old.items ++ sites_of_all (of_tree.statements_view stmts.now)) }
{
    'statements: for s in stmts {
        add_sites(s, out)?;
    }
    Ok(())
}

/// Adds a flag.
fn add_flag(flag: bool, out: &mut Vec<bool>) -> Result<(), AllocError>
    ensures { IfOk result (λ _. out.new.items ≡ out.old.items ++ flag ∷ []) }
{
    out.push(flag)?;
    Ok(())
}

/// Whether a call is of a marked operation, and stands in no marked loop.
fn is_spawned(marks: &Marks, inside: bool, op: OpId) -> bool
    ensures { result ≡ (not_of inside && op_in marks.now.ops op) }
{
    !inside && is_op_in(&marks.ops, op.0 as usize)
}

/// Whether what stands in a loop stands in a marked one.
fn is_within(inside: bool, marked: bool) -> bool
    ensures { result ≡ (inside || marked) }
{
    inside || marked
}

/// Adds for each call and each `for` in a statement whether it runs in parallel.
#[cycle(flags)]
fn add_flags(marks: &Marks, inside: bool, s: &Stmt, out: &mut Vec<bool>) -> Result<(), AllocError>
    ensures { IfOk result (λ _. out.new.items ≡ out.old.items ++ runs_parallel marks.now inside (of_program.statement_view s.now)) }
{
    match &s.kind {
        StmtForm::Block(stmts) => add_all_flags(marks, inside, stmts, out),
        StmtForm::Invoke(_, op, _) => add_flag(is_spawned(marks, inside, *op), out),
        StmtForm::If(_, yes, no) => {
            add_flags(marks, inside, yes, out).and(add_flags(marks, inside, no, out))
        }
        StmtForm::While(_, body) => add_flags(marks, inside, body, out),
        StmtForm::For(site, _, _, _, _, body) => {
            let marked = is_loop_in(&marks.loops, *site);
            let within = is_within(inside, marked);
            add_flag(marked, out).and(add_flags(marks, within, body, out))
        }
        _ => Ok(()),
    }
}

/// Adds those in statements.
#[cycle(flags)]
fn add_all_flags(
    marks: &Marks,
    inside: bool,
    stmts: &[Stmt],
    out: &mut Vec<bool>,
) -> Result<(), AllocError>
    ensures { IfOk result (λ _. out.new.items ≡ out.old.items ++ run_parallel marks.now inside (of_program.statements_view stmts.now)) }
{
    'statements: for s in stmts {
        add_flags(marks, inside, s, out)?;
    }
    Ok(())
}

/// Adds a place, or not.
fn add_place(flag: bool, at: Place, out: &mut Vec<Place>) -> Result<(), AllocError>
    ensures { IfOk result (λ _. out.new.items ≡ out.old.items ++ place_if flag at) }
{
    if flag {
        out.push(at)?;
    }
    Ok(())
}

/// Adds the places that have a flag.
fn add_picked(places: &[Place], flags: &[bool], out: &mut Vec<Place>) -> Result<(), AllocError>
    ensures { IfOk result (λ _. out.new.items ≡ out.old.items ++ picked places.now flags.now) }
{
    let count = places.len().min(flags.len());
    for i in 0..count {
        add_place(flags[i], places[i], out)?;
    }
    Ok(())
}

/// Adds the places of what runs in parallel in a body, which a tree and a program have.
pub(crate) fn add_parallel(
    alloc: Global,
    marks: &Marks,
    nodes: &[StmtNode],
    stmts: &[Stmt],
    out: &mut Vec<Place>,
) -> Result<(), AllocError>
    ensures { IfOk result (λ _. out.new.items ≡ out.old.items ++ picked (sites_of_all (of_tree.statements_view nodes.now)) (run_parallel marks.now false (of_program.statements_view stmts.now))) }
{
    let mut places = Vec::new(alloc);
    add_all_sites(nodes, &mut places)?;
    let mut flags = Vec::new(alloc);
    add_all_flags(marks, false, stmts, &mut flags)?;
    add_picked(&places, &flags, out)
}
