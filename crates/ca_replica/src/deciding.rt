//! Whether the written fields of an extent are only summed.

ghost use Rattle.std.specs.Prelude.{◌≡◌, ◌↔◌, IsTrue, Contains, map, slice_get};
ghost use Rattle.ca_tree.specs.declared.tree.AssignOp.{AssignOp};
ghost use Rattle.ca_program.specs.declared.program.OpId.{OpId};
ghost use Rattle.ca_program.specs.View.{expression_view, expressions_view, statement_view, statements_view, method_view, program_view};
ghost use Rattle.ca_meaning.specs.Functions.{body_of};
ghost use Rattle.ca_section.specs.Offences.{is_written};
ghost use Rattle.ca_sum_laws.specs.Summed.{HasOnlySums};
ghost use Rattle.ca_replica.specs.Unsummed.{touches, touches_any, is_no_sum, puts_else, assigns_else, does_else, any_does_else, some_does_else};

use ca_extent::Extent;
use ca_program::{AssignOp, BinaryOp, Expr, FieldId, Method, OpId, Program, Stmt, StmtForm};

pub(crate) fn is_written(written: &[FieldId], field: FieldId) -> bool
    ensures { result ≡ is_written written.now field }
{
    'fields: for f in written {
        if field.same(*f) {
            return true;
        }
    }
    false
}

/// Whether an expression reads a written field.
#[cycle(touches)]
fn touches(written: &[FieldId], e: &Expr) -> bool
    ensures { result ≡ touches written.now (expression_view e.now) }
{
    match e {
        Expr::Own(f) => is_written(written, *f),
        Expr::OwnItem(f, index) => is_written(written, *f) || touches(written, index),
        Expr::Read(object, f) => is_written(written, *f) || touches(written, object),
        Expr::ReadItem(object, f, index) => {
            is_written(written, *f) || (touches(written, object) || touches(written, index))
        }
        Expr::Value(object, _, arguments) => {
            touches(written, object) || touches_any(written, arguments)
        }
        Expr::Unary(_, operand) => touches(written, operand),
        Expr::Binary(_, left, right) => touches(written, left) || touches(written, right),
        _ => false,
    }
}

#[cycle(touches)]
fn touches_any(written: &[FieldId], es: &[Expr]) -> bool
    ensures { result ≡ touches_any written.now (expressions_view es.now) }
{
    'expressions: for e in es {
        if touches(written, e) {
            return true;
        }
    }
    false
}

fn is_no_sum(op: BinaryOp) -> bool
    ensures { result ≡ is_no_sum op }
{
    match op {
        BinaryOp::Plus | BinaryOp::Minus => false,
        _ => true,
    }
}

/// Whether what is put into a field is no sum with it.
fn puts_else(written: &[FieldId], field: FieldId, e: &Expr) -> bool
    ensures { result ≡ puts_else written.now field (expression_view e.now) }
{
    match e {
        Expr::Binary(op, left, right) => match &**left {
            Expr::Own(g) => is_no_sum(*op) || (!g.same(field) || touches(written, right)),
            _ => true,
        },
        _ => true,
    }
}

fn assigns_else(written: &[FieldId], field: FieldId, op: AssignOp, e: &Expr) -> bool
    ensures { result ≡ assigns_else written.now field op (expression_view e.now) }
{
    match op {
        AssignOp::Put => puts_else(written, field, e),
        AssignOp::Add | AssignOp::Sub => touches(written, e),
        AssignOp::Mul | AssignOp::BitAnd | AssignOp::BitOr | AssignOp::BitXor => true,
    }
}

/// Whether a statement does more with a written field than to add to it.
#[cycle(does)]
fn does_else(written: &[FieldId], s: &Stmt) -> bool
    ensures { result ≡ does_else written.now (statement_view s.now) }
{
    match &s.kind {
        StmtForm::Block(stmts) => any_does_else(written, stmts),
        StmtForm::PutLocal(_, _, e) | StmtForm::Return(e) | StmtForm::Print(e) => {
            touches(written, e)
        }
        StmtForm::PutField(f, op, e) => assigns_else(written, *f, *op, e),
        StmtForm::NewLocal(..) => false,
        StmtForm::PutItem(..) | StmtForm::NewField(..) | StmtForm::NewItem(..) => true,
        StmtForm::Invoke(receiver, _, arguments) => {
            touches(written, receiver) || touches_any(written, arguments)
        }
        StmtForm::If(cond, yes, no) => {
            touches(written, cond) || (does_else(written, yes) || does_else(written, no))
        }
        StmtForm::While(cond, body) => touches(written, cond) || does_else(written, body),
        StmtForm::For(_, _, first, cond, next, body) => {
            does_else(written, first)
                || (touches(written, cond)
                    || (does_else(written, next) || does_else(written, body)))
        }
    }
}

#[cycle(does)]
fn any_does_else(written: &[FieldId], stmts: &[Stmt]) -> bool
    ensures { result ≡ any_does_else written.now (statements_view stmts.now) }
{
    'statements: for s in stmts {
        if does_else(written, s) {
            return true;
        }
    }
    false
}

/// The statements of the method of this number; none where there is no such method.
fn body_at(methods: &[Method], k: usize) -> &[Stmt]
    ensures { statements_view result.now ≡ body_of (slice_get (map method_view methods.now) k) }
{
    if k < methods.len() {
        methods[k].body.stmts.as_slice()
    } else {
        &[]
    }
}

fn some_does_else(program: &Program, written: &[FieldId], ops: &[OpId]) -> bool
    ensures { result ≡ some_does_else (program_view program.now) written.now ops.now }
{
    'ops: for op in ops {
        if any_does_else(written, body_at(&program.ops, op.0 as usize)) {
            return true;
        }
    }
    false
}

/// Whether all that the operations of an extent do with a field that they write is to add to it. It takes no memory.
pub fn summed(program: &Program, extent: &Extent) -> bool
    ensures { IsTrue result ↔ ((op : OpId) → Contains extent.now.ops op → HasOnlySums (program_view program.now) extent.now.written op) }
{
    !some_does_else(program, extent.written(), extent.ops())
}
