//! What the texts of marked loops tell. No clause speaks of it.

use crate::policy::MOST_LOOPS;
use crate::weights::UNTOLD;
use ca_parallel::Marks;
use ca_program::{Expr, LoopId, OpId, Program, Stmt, StmtForm};
use std::alloc::Global;

/// Adds the operations that a statement calls, as far as there is room.
#[cycle(calls)]
pub fn add_calls(s: &Stmt, out: &mut Vec<OpId>) {
    match &s.kind {
        StmtForm::Block(stmts) => add_all_calls(stmts, out),
        StmtForm::Invoke(_, op, _) => {
            let _kept = out.push(*op);
        }
        StmtForm::If(_, yes, no) => {
            add_calls(yes, out);
            add_calls(no, out);
        }
        StmtForm::While(_, body) => add_calls(body, out),
        StmtForm::For(_, _, first, _, next, body) => {
            add_calls(first, out);
            add_calls(next, out);
            add_calls(body, out);
        }
        _ => {}
    }
}

/// The same of all statements of a list.
#[cycle(calls)]
pub fn add_all_calls(stmts: &[Stmt], out: &mut Vec<OpId>) {
    'statements: for s in stmts {
        add_calls(s, out);
    }
}

/// Adds a loop, if it is marked.
fn add_loop<'a>(s: &'a Stmt, site: LoopId, marked: &[bool], out: &mut Vec<&'a Stmt>) {
    let number = site.0 as usize;
    if number < marked.len() && marked[number] {
        let _kept = out.push(s);
    }
}

/// Adds the marked loops of a statement.
#[cycle(loops)]
fn add_loops<'a>(s: &'a Stmt, marked: &[bool], out: &mut Vec<&'a Stmt>) {
    match &s.kind {
        StmtForm::Block(stmts) => add_all_loops(stmts, marked, out),
        StmtForm::If(_, yes, no) => {
            add_loops(yes, marked, out);
            add_loops(no, marked, out);
        }
        StmtForm::While(_, body) => add_loops(body, marked, out),
        StmtForm::For(site, _, _, _, _, body) => {
            add_loop(s, *site, marked, out);
            add_loops(body, marked, out);
        }
        _ => {}
    }
}

#[cycle(loops)]
fn add_all_loops<'a>(stmts: &'a [Stmt], marked: &[bool], out: &mut Vec<&'a Stmt>) {
    'statements: for s in stmts {
        add_loops(s, marked, out);
    }
}

/// Which loops are marked, by their numbers.
pub fn flags_of(alloc: Global, marks: &Marks) -> Vec<bool> {
    let mut flags = Vec::new(alloc);
    'loops: for site in marks.loops.as_slice() {
        let number = site.0 as usize;
        if number < MOST_LOOPS {
            widen(&mut flags, number);
            mark(&mut flags, number);
        }
    }
    flags
}

/// Flags for all numbers up to this one.
fn widen(flags: &mut Vec<bool>, number: usize) {
    'flags: for _ in flags.len()..number.saturating_add(1) {
        let _kept = flags.push(false);
    }
}

fn mark(flags: &mut Vec<bool>, number: usize) {
    if number < flags.len() {
        flags[number] = true;
    }
}

/// The marked loops of a program, in the bodies of its operations and in `main`.
pub fn marked_loops<'a>(alloc: Global, program: &'a Program, marks: &Marks) -> Vec<&'a Stmt> {
    let flags = flags_of(alloc, marks);
    let mut loops = Vec::new(alloc);
    'operations: for op in &program.ops {
        add_all_loops(op.body.stmts.as_slice(), flags.as_slice(), &mut loops);
    }
    add_all_loops(program.main.stmts.as_slice(), flags.as_slice(), &mut loops);
    loops
}

/// The number of a loop.
pub fn site_of(s: &Stmt) -> Option<LoopId> {
    match &s.kind {
        StmtForm::For(site, _, _, _, _, _) => Some(*site),
        _ => None,
    }
}

fn number_in(e: &Expr) -> Option<i64> {
    match e {
        Expr::Number(n) => Some(*n),
        _ => None,
    }
}

/// The number that a local begins with.
fn begun_with(s: &Stmt) -> Option<i64> {
    match &s.kind {
        StmtForm::PutLocal(_, _, value) => number_in(value),
        _ => None,
    }
}

/// The number that a local is compared with.
fn compared_with(e: &Expr) -> Option<i64> {
    match e {
        Expr::Binary(_, _, right) => number_in(right),
        _ => None,
    }
}

/// So many calls for each number from one up to another one, which isn't counted.
fn times(from: Option<i64>, to: Option<i64>, calls: usize) -> usize {
    let Some(first) = from else {
        return UNTOLD;
    };
    let Some(behind) = to else {
        return UNTOLD;
    };
    if behind <= first {
        return 0;
    }
    let turns = behind.saturating_sub(first) as usize;
    turns.saturating_mul(calls).min(UNTOLD - 1)
}

/// How many calls a loop lists that makes so many in a turn, where its text tells, as that of a loop that counts by one from a number
/// to another one does.
pub fn calls_told(s: &Stmt, calls: usize) -> usize {
    match &s.kind {
        StmtForm::For(_, _, first, test, _, _) => times(
            begun_with(first),
            compared_with(test),
            calls,
        ),
        _ => UNTOLD,
    }
}

/// Whether a statement calls within marked loops alone.
#[cycle(within)]
fn calls_within(s: &Stmt, marked: &[bool]) -> bool {
    match &s.kind {
        StmtForm::Block(stmts) => all_call_within(stmts.as_slice(), marked),
        StmtForm::Invoke(_, _, _) => false,
        StmtForm::If(_, yes, no) => calls_within(yes, marked) && calls_within(no, marked),
        StmtForm::While(_, body) => calls_within(body, marked),
        StmtForm::For(site, _, _, _, _, body) => {
            let number = site.0 as usize;
            if number < marked.len() && marked[number] {
                return true;
            }
            calls_within(body, marked)
        }
        _ => true,
    }
}

/// Whether all of some statements do.
#[cycle(within)]
pub fn all_call_within(stmts: &[Stmt], marked: &[bool]) -> bool {
    'statements: for s in stmts {
        if !calls_within(s, marked) {
            return false;
        }
    }
    true
}
