//! What a further step of an operation takes that has no loop of its own: a turn of the longest loop of the value methods that it calls. No
//! clause speaks of it.

use crate::policy::{HEAVY, PASSES, VALUE};
use crate::weights::{Costs, count_all, count_in, parts_in};
use ca_program::{Expr, FunctionId, Program, Stmt, StmtForm};
use std::alloc::{AllocError, Global};

/// The greatest parts of a turn of a loop in a statement; 0 where it has none.
#[cycle(turns)]
fn loop_parts(s: &Stmt, costs: Costs<'_>) -> u32 {
    match &s.kind {
        StmtForm::Block(stmts) => all_loop_parts(stmts.as_slice(), costs),
        StmtForm::If(_, yes, no) => loop_parts(yes, costs).max(loop_parts(no, costs)),
        StmtForm::While(test, body) => {
            let turn = parts_in(test, costs).saturating_add(count_in(body, costs).parts);
            turn.max(loop_parts(body, costs))
        }
        StmtForm::For(_, _, _, test, next, body) => {
            let head = parts_in(test, costs).saturating_add(count_in(next, costs).parts);
            let turn = head.saturating_add(count_in(body, costs).parts);
            turn.max(loop_parts(body, costs))
        }
        _ => 0,
    }
}

#[cycle(turns)]
fn all_loop_parts(stmts: &[Stmt], costs: Costs<'_>) -> u32 {
    let mut most: u32 = 0;
    'statements: for s in stmts {
        most = most.max(loop_parts(s, costs));
    }
    most
}

/// Of a value method, where others take so much: a turn of its longest loop; where it has none, what those take that it calls; and where it
/// calls none its whole body.
fn further_in(stmts: &[Stmt], others: &[u32]) -> u32 {
    let costs = Costs {
        values: &[],
        other: VALUE,
        turns: 0,
    };
    let turn = all_loop_parts(stmts, costs);
    if turn > 0 {
        return turn;
    }
    let called = all_further(stmts, others);
    if called > 0 {
        return called;
    }
    count_all(stmts, costs)
        .parts
        .saturating_add(VALUE)
        .min(HEAVY)
}

/// What a further step of each value method takes, by their numbers.
pub fn further_of(alloc: Global, program: &Program) -> Result<Vec<u32>, AllocError> {
    let mut further: Vec<u32> = Vec::new(alloc);
    'passes: for _ in 0..PASSES {
        let mut next = Vec::with_capacity(alloc, program.functions.len())?;
        for function in &program.functions {
            let stmts = function.body.stmts.as_slice();
            next.push(further_in(stmts, further.as_slice()))?;
        }
        further = next;
    }
    Ok(further)
}

fn of_value(function: FunctionId, further: &[u32]) -> u32 {
    let number = function.0 as usize;
    if number < further.len() {
        further[number]
    } else {
        VALUE
    }
}

/// The greatest of what further steps take of the value methods that an expression calls; 0 where it calls none.
#[cycle(values)]
fn further_by(e: &Expr, further: &[u32]) -> u32 {
    match e {
        Expr::OwnItem(_, index) => further_by(index, further),
        Expr::Read(of, _) => further_by(of, further),
        Expr::ReadItem(of, _, index) => further_by(of, further).max(further_by(index, further)),
        Expr::Value(of, function, args) => {
            let own = of_value(*function, further);
            own.max(further_by(of, further))
                .max(all_further_by(args.as_slice(), further))
        }
        Expr::Unary(_, of) => further_by(of, further),
        Expr::Binary(_, left, right) => further_by(left, further).max(further_by(right, further)),
        _ => 0,
    }
}

#[cycle(values)]
fn all_further_by(args: &[Expr], further: &[u32]) -> u32 {
    let mut most: u32 = 0;
    'expressions: for e in args {
        most = most.max(further_by(e, further));
    }
    most
}

/// The same of a statement.
#[cycle(statements)]
fn further_through(s: &Stmt, further: &[u32]) -> u32 {
    match &s.kind {
        StmtForm::Block(stmts) => all_further(stmts.as_slice(), further),
        StmtForm::PutLocal(_, _, value) => further_by(value, further),
        StmtForm::PutField(_, _, value) => further_by(value, further),
        StmtForm::PutItem(_, at, _, value) => {
            further_by(at, further).max(further_by(value, further))
        }
        StmtForm::Invoke(of, _, args) => {
            further_by(of, further).max(all_further_by(args.as_slice(), further))
        }
        StmtForm::If(test, yes, no) => {
            further_by(test, further)
                .max(further_through(yes, further))
                .max(further_through(no, further))
        }
        StmtForm::While(test, body) => {
            further_by(test, further).max(further_through(body, further))
        }
        StmtForm::For(_, _, _, test, next, body) => {
            further_by(test, further)
                .max(further_through(next, further))
                .max(further_through(body, further))
        }
        StmtForm::Return(value) => further_by(value, further),
        _ => 0,
    }
}

/// The same of some statements.
#[cycle(statements)]
pub fn all_further(stmts: &[Stmt], further: &[u32]) -> u32 {
    let mut most: u32 = 0;
    'statements: for s in stmts {
        most = most.max(further_through(s, further));
    }
    most
}
