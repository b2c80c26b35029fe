//! The first loop of a body that is neither a loop of calls nor a sweep.

ghost use Rattle.std.specs.Prelude.{◌≡◌, ℕ, ◌&&◌, if◌then◌else◌, None};
ghost use Rattle.ca_tree.specs.declared.tree.BinaryOp.TheVariants.{Less};
ghost use Rattle.ca_program.specs.declared.program.LocalId.{LocalId};
ghost use Rattle.ca_program.specs.declared.program.FirstPart.TheVariants.{Declares};
ghost use Rattle.ca_program.specs.Plain.{Expression, binary, block};
ghost use Rattle.ca_program.specs.View.{expression_view, statement_view, statements_view};
ghost use Rattle.ca_sweep.specs.Found.{sweep_in};
ghost use Rattle.ca_symbolic.specs.OtherLoops.{counter_of, compares, is_call, are_calls, calls_alone, counts, is_call_loop, if_no_sweep, other_loop, other_loop_in};

use ca_program::{AssignOp, BinaryOp, Expr, FieldId, FirstPart, LocalId, Stmt, StmtForm};
use ca_sweep::{counts_up, sweep_in};

/// The local that a statement puts, without an operator.
fn put_by(s: &Stmt) -> Option<LocalId>
    ensures { result ≡ counter_of Declares (statement_view s.now) }
{
    match &s.kind {
        StmtForm::PutLocal(id, AssignOp::Put, _) => Some(*id),
        _ => None,
    }
}

/// The counter that the first part of a `for` declares.
fn counter_of(part: FirstPart, first: &Stmt) -> Option<LocalId>
    ensures { result ≡ counter_of part (statement_view first.now) }
{
    match part {
        FirstPart::Declares => put_by(first),
        FirstPart::Assigns => None,
    }
}

/// Whether it is this local, on the left side of a comparison.
fn is_left(a: &Expr, i: LocalId) -> bool
    ensures { (e : Expression) → result ≡ compares (binary Less (expression_view a.now) e) i }
{
    match a {
        Expr::Local(l) => l.0 == i.0,
        _ => false,
    }
}

/// Whether the counter is compared with something.
fn compares(c: &Expr, i: LocalId) -> bool
    ensures { result ≡ compares (expression_view c.now) i }
{
    match c {
        Expr::Binary(BinaryOp::Less, a, _) => is_left(a, i),
        _ => false,
    }
}

/// Whether the counter is compared and counted up.
fn counts(counter: Option<LocalId>, c: &Expr, next: &Stmt) -> bool
    ensures { result ≡ counts counter (expression_view c.now) (statement_view next.now) }
{
    match counter {
        Some(i) => compares(c, i) && counts_up(next, i),
        None => false,
    }
}

fn is_call(s: &Stmt) -> bool
    ensures { result ≡ is_call (statement_view s.now) }
{
    match &s.kind {
        StmtForm::Invoke(..) => true,
        _ => false,
    }
}

fn are_calls(stmts: &[Stmt]) -> bool
    ensures { result ≡ are_calls (statements_view stmts.now) }
{
    'statements: for s in stmts {
        if !is_call(s) {
            return false;
        }
    }
    true
}

/// Whether statements are one call or more.
#[tactic(auto, using(crate::proofs::Blocks::some_calls, crate::proofs::Blocks::no_calls))]
fn some_calls(stmts: &[Stmt]) -> bool
    ensures { (line : ℕ) → result ≡ calls_alone (block line (statements_view stmts.now)) }
{
    if stmts.len() == 0 {
        return false;
    }
    are_calls(stmts)
}

/// Whether a body is one call, or a block of one or more.
fn calls_alone(s: &Stmt) -> bool
    ensures { result ≡ calls_alone (statement_view s.now) }
{
    match &s.kind {
        StmtForm::Invoke(..) => true,
        StmtForm::Block(stmts) => some_calls(stmts),
        _ => false,
    }
}

/// Whether the parts are those of a loop of calls.
fn are_of_call_loop(part: FirstPart, first: &Stmt, c: &Expr, next: &Stmt, body: &Stmt) -> bool
    ensures { result ≡ (counts (counter_of part (statement_view first.now)) (expression_view c.now) (statement_view next.now) && calls_alone (statement_view body.now)) }
{
    counts(counter_of(part, first), c, next) && calls_alone(body)
}

/// Whether a statement is a loop of calls.
pub fn is_call_loop(s: &Stmt) -> bool
    ensures { result ≡ is_call_loop (statement_view s.now) }
{
    match &s.kind {
        StmtForm::For(_, part, first, c, next, body) => {
            are_of_call_loop(*part, first, c, next, body)
        }
        _ => false,
    }
}

/// The line of a `for` that is neither a loop of calls nor a sweep.
fn line_of_loop(params: u32, written: &[FieldId], s: &Stmt) -> Option<u32>
    ensures { result ≡ (if is_call_loop (statement_view s.now) then None else if_no_sweep (sweep_in params written.now (statement_view s.now)) s.now.line) }
{
    if is_call_loop(s) {
        return None;
    }
    match sweep_in(params, written, s) {
        Some(_) => None,
        None => Some(s.line),
    }
}

/// The line of the first loop in a statement that is neither a loop of calls nor a sweep, in a method with so many
/// parameters, of an extent that writes these fields.
#[cycle(other)]
fn other_loop(params: u32, written: &[FieldId], s: &Stmt) -> Option<u32>
    ensures { result ≡ other_loop params written.now (statement_view s.now) }
{
    match &s.kind {
        StmtForm::Block(stmts) => other_loop_in(params, written, stmts),
        StmtForm::If(_, yes, no) => match other_loop(params, written, yes) {
            Some(line) => Some(line),
            None => other_loop(params, written, no),
        },
        StmtForm::While(..) => Some(s.line),
        StmtForm::For(..) => line_of_loop(params, written, s),
        _ => None,
    }
}

/// That of the first of these statements that has one.
#[cycle(other)]
pub fn other_loop_in(params: u32, written: &[FieldId], stmts: &[Stmt]) -> Option<u32>
    ensures { result ≡ other_loop_in params written.now (statements_view stmts.now) }
{
    'statements: for s in stmts {
        if let Some(line) = other_loop(params, written, s) {
            return Some(line);
        }
    }
    None
}
