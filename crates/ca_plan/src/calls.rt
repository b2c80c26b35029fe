//! The operations that a body calls, and its loops of calls.

ghost use Rattle.std.specs.Prelude.{◌≡◌, [], ◌∷◌, ◌++◌, IfOk};
ghost use Rattle.ca_program.specs.View.{statement_view, statements_view, program_view};
ghost use Rattle.ca_parallel.specs.Bodies.{calls_of, calls_of_all, fors_in, fors_in_all};
ghost use Rattle.ca_plan.specs.Plans.{call_loops, call_loops_of};
ghost use Rattle.ca_plan.specs.clauses.Loops.{seen};

use ca_base::Memory;
use ca_program::{OpId, Program, Stmt, StmtForm};
use ca_symbolic::is_call_loop;
use std::alloc::{AllocError, Global};

/// Adds an operation.
fn add_call(op: OpId, out: &mut Vec<OpId>) -> Result<(), AllocError>
    ensures { IfOk result (λ _. out.new.items ≡ out.old.items ++ op ∷ []) }
{
    out.push(op)?;
    Ok(())
}

/// Adds the operations that a statement calls.
#[cycle(calls)]
pub(crate) fn add_calls(s: &Stmt, out: &mut Vec<OpId>) -> Result<(), AllocError>
    ensures { IfOk result (λ _. out.new.items ≡ out.old.items ++ calls_of (statement_view s.now)) }
{
    match &s.kind {
        StmtForm::Block(stmts) => add_all_calls(stmts, out),
        StmtForm::Invoke(_, op, _) => add_call(*op, out),
        StmtForm::If(_, yes, no) => add_calls(yes, out).and(add_calls(no, out)),
        StmtForm::While(_, body) => add_calls(body, out),
        StmtForm::For(_, _, first, _, next, body) => {
            let first = add_calls(first, out);
            let next = add_calls(next, out);
            first.and(next.and(add_calls(body, out)))
        }
        _ => Ok(()),
    }
}

/// Adds the operations that statements call.
#[cycle(calls)]
pub(crate) fn add_all_calls(stmts: &[Stmt], out: &mut Vec<OpId>) -> Result<(), AllocError>
    ensures { IfOk result (λ _. out.new.items ≡ out.old.items ++ calls_of_all (statements_view stmts.now)) }
{
    'statements: for s in stmts {
        add_calls(s, out)?;
    }
    Ok(())
}

/// Adds a statement, if it is a loop of calls.
fn add_loop<'a>(s: &'a Stmt, out: &mut Vec<&'a Stmt>) -> Result<(), AllocError>
    ensures { IfOk result (λ _. seen out.new.items ≡ seen out.old.items ++ call_loops_of (statement_view s.now ∷ [])) }
{
    if is_call_loop(s) {
        out.push(s)?;
    }
    Ok(())
}

/// Adds the loops of calls of a statement, in the order of the text.
#[cycle(loops)]
fn add_loops<'a>(s: &'a Stmt, out: &mut Vec<&'a Stmt>) -> Result<(), AllocError>
    ensures { IfOk result (λ _. seen out.new.items ≡ seen out.old.items ++ call_loops_of (fors_in (statement_view s.now))) }
{
    match &s.kind {
        StmtForm::Block(stmts) => add_all_loops(stmts, out),
        StmtForm::If(_, yes, no) => add_loops(yes, out).and(add_loops(no, out)),
        StmtForm::While(_, body) => add_loops(body, out),
        StmtForm::For(_, _, first, _, next, body) => {
            let whole = add_loop(s, out);
            let first = add_loops(first, out);
            let next = add_loops(next, out);
            whole.and(first.and(next.and(add_loops(body, out))))
        }
        _ => Ok(()),
    }
}

/// Adds the loops of calls of statements.
#[cycle(loops)]
fn add_all_loops<'a>(stmts: &'a [Stmt], out: &mut Vec<&'a Stmt>) -> Result<(), AllocError>
    ensures { IfOk result (λ _. seen out.new.items ≡ seen out.old.items ++ call_loops_of (fors_in_all (statements_view stmts.now))) }
{
    'statements: for s in stmts {
        add_loops(s, out)?;
    }
    Ok(())
}

/// The loops of calls of operations and of `main`, in the order of the text.
pub(crate) fn call_loops(alloc: Global, program: &Program) -> Result<Vec<&Stmt>, Memory>
    ensures { IfOk result (λ loops. seen loops.items ≡ call_loops (program_view program.now)) }
{
    let mut loops = Vec::new(alloc);
    for m in &program.ops {
        add_all_loops(&m.body.stmts, &mut loops)?;
    }
    add_all_loops(&program.main.stmts, &mut loops)?;
    Ok(loops)
}
