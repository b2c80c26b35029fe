//! Which fields and locals a statement puts, and which locals it names.

ghost use Rattle.std.specs.Prelude.{◌≡◌, true, false, replicate, slice_set, IfOk};
ghost use Rattle.ca_program.specs.View.{expression_view, expressions_view, statement_view, statements_view};
ghost use Rattle.ca_symbolic.specs.clauses.Places.{marked, fields_put, fields_put_all, locals_put, locals_put_all, locals_in, locals_in_all, locals_named, locals_named_all};

use ca_program::{Expr, Stmt, StmtForm};
use std::alloc::{AllocError, Global};

/// Marks a place, where there is one of this number.
fn mark(number: u32, marks: &mut Vec<bool>)
    ensures { marks.new.items ≡ slice_set marks.old.items number true }
{
    let place = number as usize;
    if place < marks.len() {
        marks[place] = true;
    }
}

/// Marks the fields that a statement puts.
#[cycle(fields)]
pub fn mark_fields(s: &Stmt, marks: &mut Vec<bool>)
    ensures { marks.new.items ≡ marked marks.old.items (fields_put (statement_view s.now)) }
{
    match &s.kind {
        StmtForm::Block(stmts) => mark_all_fields(stmts, marks),
        StmtForm::PutField(f, _, _)
        | StmtForm::PutItem(f, _, _, _)
        | StmtForm::NewField(f, _)
        | StmtForm::NewItem(f, _, _) => mark(f.field, marks),
        StmtForm::If(_, yes, no) => {
            mark_fields(yes, marks);
            mark_fields(no, marks);
        }
        StmtForm::While(_, body) => mark_fields(body, marks),
        StmtForm::For(_, _, first, _, next, body) => {
            mark_fields(first, marks);
            mark_fields(next, marks);
            mark_fields(body, marks);
        }
        _ => {}
    }
}

#[cycle(fields)]
fn mark_all_fields(stmts: &[Stmt], marks: &mut Vec<bool>)
    ensures { marks.new.items ≡ marked marks.old.items (fields_put_all (statements_view stmts.now)) }
{
    'statements: for s in stmts {
        mark_fields(s, marks);
    }
}

/// Marks the locals that a statement puts, but for the counters of loops.
#[cycle(locals)]
#[tactic(auto, using(crate::proofs::Marks::marked_append))]
pub fn mark_locals(s: &Stmt, marks: &mut Vec<bool>)
    ensures { marks.new.items ≡ marked marks.old.items (locals_put (statement_view s.now)) }
{
    match &s.kind {
        StmtForm::Block(stmts) => mark_all_locals(stmts, marks),
        StmtForm::PutLocal(l, _, _) => mark(l.0, marks),
        StmtForm::If(_, yes, no) => {
            mark_locals(yes, marks);
            mark_locals(no, marks);
        }
        _ => {}
    }
}

#[cycle(locals)]
fn mark_all_locals(stmts: &[Stmt], marks: &mut Vec<bool>)
    ensures { marks.new.items ≡ marked marks.old.items (locals_put_all (statements_view stmts.now)) }
{
    'statements: for s in stmts {
        mark_locals(s, marks);
    }
}

/// Marks the locals that an expression names.
#[cycle(names)]
#[tactic(auto, using(crate::proofs::Marks::marked_append))]
fn mark_names(e: &Expr, marks: &mut Vec<bool>)
    ensures { marks.new.items ≡ marked marks.old.items (locals_in (expression_view e.now)) }
{
    match e {
        Expr::Local(l) => mark(l.0, marks),
        Expr::OwnItem(_, i) => mark_names(i, marks),
        Expr::Read(p, _) => mark_names(p, marks),
        Expr::ReadItem(p, _, i) => {
            mark_names(p, marks);
            mark_names(i, marks);
        }
        Expr::Value(p, _, args) => {
            mark_names(p, marks);
            mark_all_names(args, marks);
        }
        Expr::Unary(_, a) => mark_names(a, marks),
        Expr::Binary(_, a, b) => {
            mark_names(a, marks);
            mark_names(b, marks);
        }
        _ => {}
    }
}

#[cycle(names)]
fn mark_all_names(es: &[Expr], marks: &mut Vec<bool>)
    ensures { marks.new.items ≡ marked marks.old.items (locals_in_all (expressions_view es.now)) }
{
    for e in es {
        mark_names(e, marks);
    }
}

/// Marks the locals that the expressions of a statement name.
#[cycle(named)]
pub fn mark_named(s: &Stmt, marks: &mut Vec<bool>)
    ensures { marks.new.items ≡ marked marks.old.items (locals_named (statement_view s.now)) }
{
    match &s.kind {
        StmtForm::Block(stmts) => mark_all_named(stmts, marks),
        StmtForm::PutLocal(_, _, e)
        | StmtForm::PutField(_, _, e)
        | StmtForm::Return(e)
        | StmtForm::Print(e) => mark_names(e, marks),
        StmtForm::PutItem(_, i, _, e) => {
            mark_names(i, marks);
            mark_names(e, marks);
        }
        StmtForm::NewItem(_, i, _) => mark_names(i, marks),
        StmtForm::Invoke(p, _, args) => {
            mark_names(p, marks);
            mark_all_names(args, marks);
        }
        StmtForm::If(c, yes, no) => {
            mark_names(c, marks);
            mark_named(yes, marks);
            mark_named(no, marks);
        }
        StmtForm::While(c, body) => {
            mark_names(c, marks);
            mark_named(body, marks);
        }
        StmtForm::For(_, _, first, c, next, body) => {
            mark_named(first, marks);
            mark_names(c, marks);
            mark_named(next, marks);
            mark_named(body, marks);
        }
        _ => {}
    }
}

#[cycle(named)]
fn mark_all_named(stmts: &[Stmt], marks: &mut Vec<bool>)
    ensures { marks.new.items ≡ marked marks.old.items (locals_named_all (statements_view stmts.now)) }
{
    'statements: for s in stmts {
        mark_named(s, marks);
    }
}

/// So many places without a mark.
pub fn unmarked(alloc: Global, count: usize) -> Result<Vec<bool>, AllocError>
    ensures { IfOk result (λ v. v.items ≡ replicate count false) }
{
    vec![in alloc; false; count]
}
