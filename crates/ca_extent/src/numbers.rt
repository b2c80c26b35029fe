//! The numbers of the methods that a body calls.

ghost use Rattle.std.specs.Prelude.{◌≡◌, [], ◌∷◌, ◌++◌, IfOk};
ghost use Rattle.ca_program.specs.View.{expression_view, expressions_view, statement_view, statements_view};
ghost use Rattle.ca_extent.specs.clauses.Numbers.{values_in, values_in_all, call_number, numbers_in, numbers_in_all, numbers_of, numbers_of_all};

use ca_program::{Expr, OpId, Stmt, StmtForm};
use std::alloc::AllocError;

/// Which methods are asked for.
#[derive(Clone, Copy)]
pub(crate) enum Callees {
    Operations,
    Functions,
}

/// Adds a number.
fn add(number: u32, out: &mut Vec<u32>) -> Result<(), AllocError>
    ensures { IfOk result (λ _. out.new.items ≡ out.old.items ++ number ∷ []) }
{
    out.push(number)?;
    Ok(())
}

/// Adds the value methods that an expression calls.
#[cycle(values)]
fn add_values(e: &Expr, out: &mut Vec<u32>) -> Result<(), AllocError>
    ensures { IfOk result (λ _. out.new.items ≡ out.old.items ++ values_in (expression_view e.now)) }
{
    match e {
        Expr::OwnItem(_, index) => add_values(index, out),
        Expr::Read(object, _) => add_values(object, out),
        Expr::ReadItem(object, _, index) => add_values(object, out).and(add_values(index, out)),
        Expr::Value(object, function, arguments) => {
            let object = add_values(object, out);
            let arguments = add_all_values(arguments, out);
            object.and(arguments.and(add(function.0, out)))
        }
        Expr::Unary(_, operand) => add_values(operand, out),
        Expr::Binary(_, left, right) => add_values(left, out).and(add_values(right, out)),
        _ => Ok(()),
    }
}

/// Adds the value methods that expressions call.
#[cycle(values)]
fn add_all_values(es: &[Expr], out: &mut Vec<u32>) -> Result<(), AllocError>
    ensures { IfOk result (λ _. out.new.items ≡ out.old.items ++ values_in_all (expressions_view es.now)) }
{
    'expressions: for e in es {
        add_values(e, out)?;
    }
    Ok(())
}

/// Adds what an expression calls.
fn add_called(callees: Callees, e: &Expr, out: &mut Vec<u32>) -> Result<(), AllocError>
    ensures { IfOk result (λ _. out.new.items ≡ out.old.items ++ numbers_in callees (expression_view e.now)) }
{
    match callees {
        Callees::Operations => Ok(()),
        Callees::Functions => add_values(e, out),
    }
}

/// Adds what the arguments of a call call.
fn add_all_called(callees: Callees, es: &[Expr], out: &mut Vec<u32>) -> Result<(), AllocError>
    ensures { IfOk result (λ _. out.new.items ≡ out.old.items ++ numbers_in_all callees (expressions_view es.now)) }
{
    match callees {
        Callees::Operations => Ok(()),
        Callees::Functions => add_all_values(es, out),
    }
}

/// Adds the operation of a call.
fn add_call(callees: Callees, op: OpId, out: &mut Vec<u32>) -> Result<(), AllocError>
    ensures { IfOk result (λ _. out.new.items ≡ out.old.items ++ call_number callees op) }
{
    match callees {
        Callees::Operations => out.push(op.0)?,
        Callees::Functions => {}
    }
    Ok(())
}

/// Adds what a statement calls.
#[cycle(numbers)]
fn add_numbers(callees: Callees, s: &Stmt, out: &mut Vec<u32>) -> Result<(), AllocError>
    ensures { IfOk result (λ _. out.new.items ≡ out.old.items ++ numbers_of callees (statement_view s.now)) }
{
    match &s.kind {
        StmtForm::Block(stmts) => add_all_numbers(callees, stmts, out),
        StmtForm::PutLocal(_, _, e)
        | StmtForm::PutField(_, _, e)
        | StmtForm::Return(e)
        | StmtForm::Print(e) => add_called(callees, e, out),
        StmtForm::PutItem(_, index, _, e) => {
            add_called(callees, index, out).and(add_called(callees, e, out))
        }
        StmtForm::NewLocal(..) | StmtForm::NewField(..) => Ok(()),
        StmtForm::NewItem(_, index, _) => add_called(callees, index, out),
        StmtForm::Invoke(receiver, op, arguments) => {
            let receiver = add_called(callees, receiver, out);
            let call = add_call(callees, *op, out);
            receiver.and(call.and(add_all_called(callees, arguments, out)))
        }
        StmtForm::If(cond, yes, no) => {
            let cond = add_called(callees, cond, out);
            let yes = add_numbers(callees, yes, out);
            cond.and(yes.and(add_numbers(callees, no, out)))
        }
        StmtForm::While(cond, turn) => {
            add_called(callees, cond, out)?;
            add_numbers(callees, turn, out)
        }
        StmtForm::For(_, _, first, cond, next, body) => {
            let first = add_numbers(callees, first, out);
            let cond = add_called(callees, cond, out);
            let next = add_numbers(callees, next, out);
            let body = add_numbers(callees, body, out);
            first.and(cond.and(next.and(body)))
        }
    }
}

/// Adds what statements call.
#[cycle(numbers)]
pub(crate) fn add_all_numbers(
    callees: Callees,
    stmts: &[Stmt],
    out: &mut Vec<u32>,
) -> Result<(), AllocError>
    ensures { IfOk result (λ _. out.new.items ≡ out.old.items ++ numbers_of_all callees (statements_view stmts.now)) }
{
    'statements: for s in stmts {
        add_numbers(callees, s, out)?;
    }
    Ok(())
}
