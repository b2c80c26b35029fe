//! Writes statements: the tokens of `specs/Spell.antt`, with marks as `specs/Annotated.antt` has them.

ghost use Rattle.ca_tree.specs.View.{expression_view, right_view, statement_view, statements_view};
ghost use Rattle.std.specs.Prelude.{None};
ghost use Rattle.ca_canonical.specs.Annotated.{marked, marked_all};
ghost use Rattle.ca_canonical.specs.Marks.{front_view};
ghost use Rattle.ca_canonical.specs.Spell.{condition, ended, spell_expression, spell_for, spell_header, spell_line, spell_right, spell_type};
ghost use Rattle.ca_canonical.specs.clauses.Pens.{Writes, WritesPieces};

use crate::expressions::write_expression;
use crate::marks::Marks;
use crate::pen::Pen;
use ca_tree::{ExprNode, Keyword, Place, Right, Sign, StmtKind, StmtNode, TypeNode};

/// Writes a type.
pub(crate) fn write_type(pen: &mut Pen, ty: &TypeNode)
    ensures { Writes pen.old pen.new (spell_type ty.now) }
{
    match ty {
        TypeNode::Long => pen.key(Keyword::Long),
        TypeNode::Bool => pen.key(Keyword::Bool),
        TypeNode::Pointer(name, _) => {
            pen.name(name);
            pen.sign(Sign::Times);
        }
    }
}

/// Writes what a target is put to.
fn write_right(pen: &mut Pen, right: &Right)
    ensures { Writes pen.old pen.new (spell_right (right_view right.now)) }
{
    match right {
        Right::Value(e) => write_expression(pen, e),
        Right::New(name, _) => {
            pen.key(Keyword::New);
            pen.name(name);
            pen.sign(Sign::OpenParenthesis);
            pen.sign(Sign::CloseParenthesis);
        }
    }
}

/// Writes a declaration or an assignment without its `;`.
fn write_header(pen: &mut Pen, s: &StmtNode)
    ensures { Writes pen.old pen.new (spell_header (statement_view s.now)) }
{
    match &s.kind {
        StmtKind::Local {
            ty,
            name,
            value,
            ..
        } => {
            write_type(pen, ty);
            pen.name(name);
            if let Some(right) = value {
                pen.sign(Sign::Assign);
                write_right(pen, right);
            }
        }
        StmtKind::Assign { target, op, right } => {
            write_expression(pen, target);
            pen.sign(op.sign());
            write_right(pen, right);
        }
        _ => {}
    }
}

/// Writes a declaration or an assignment and its `;`.
fn write_ended_header(pen: &mut Pen, s: &StmtNode)
    ensures { Writes pen.old pen.new (ended (spell_header (statement_view s.now))) }
{
    write_header(pen, s);
    pen.sign(Sign::Semicolon);
}

/// Writes an expression and a `;`.
fn write_ended(pen: &mut Pen, e: &ExprNode)
    ensures { Writes pen.old pen.new (ended (spell_expression (expression_view e.now))) }
{
    write_expression(pen, e);
    pen.sign(Sign::Semicolon);
}

/// Writes a key word and an expression in round brackets.
fn write_condition(pen: &mut Pen, key: Keyword, e: &ExprNode)
    ensures { Writes pen.old pen.new (condition key (expression_view e.now)) }
{
    pen.key(key);
    pen.sign(Sign::OpenParenthesis);
    write_expression(pen, e);
    pen.sign(Sign::CloseParenthesis);
}

/// Writes the head of a loop that counts.
fn write_for(pen: &mut Pen, first: &StmtNode, cond: &ExprNode, next: &StmtNode)
    ensures { Writes pen.old pen.new (spell_for (statement_view first.now) (expression_view cond.now) (statement_view next.now)) }
{
    pen.key(Keyword::For);
    pen.sign(Sign::OpenParenthesis);
    write_ended_header(pen, first);
    write_expression(pen, cond);
    pen.sign(Sign::Semicolon);
    write_header(pen, next);
    pen.sign(Sign::CloseParenthesis);
}

/// Writes a statement with no other inside, and nothing of one with others.
fn write_line(pen: &mut Pen, s: &StmtNode)
    ensures { Writes pen.old pen.new (spell_line (statement_view s.now)) }
{
    match &s.kind {
        StmtKind::Empty => pen.sign(Sign::Semicolon),
        StmtKind::Local { .. } | StmtKind::Assign { .. } => write_ended_header(pen, s),
        StmtKind::Call(e) => write_ended(pen, e),
        StmtKind::Return(e) => {
            pen.key(Keyword::Return);
            write_ended(pen, e);
        }
        StmtKind::Print(e) => {
            write_condition(pen, Keyword::Print, e);
            pen.sign(Sign::Semicolon);
        }
        _ => {}
    }
}

/// Writes a statement of a body behind the marks before it, with the statement in front of it in the same list.
#[cycle(statement)]
fn write_statement<M: Marks>(
    pen: &mut Pen,
    marks: &M,
    body: Option<Place>,
    front: Option<&StmtNode>,
    s: &StmtNode,
)
    ensures { WritesPieces pen.old pen.new (marked ((M.marking marks.now).before body) (front_view front.entry) (statement_view s.now)) }
{
    pen.marks(marks.before(body, front, s));
    match &s.kind {
        StmtKind::Block(items) => {
            pen.sign(Sign::OpenBrace);
            write_statements(pen, marks, body, items);
            pen.sign(Sign::CloseBrace);
        }
        StmtKind::If { cond, yes, no } => {
            write_condition(pen, Keyword::If, cond);
            write_statement(pen, marks, body, None, yes);
            if let Some(no) = no {
                pen.key(Keyword::Else);
                write_statement(pen, marks, body, None, no);
            }
        }
        StmtKind::While { cond, body: turn } => {
            write_condition(pen, Keyword::While, cond);
            write_statement(pen, marks, body, None, turn);
        }
        StmtKind::For {
            first,
            cond,
            next,
            body: turn,
        } => {
            write_for(pen, first, cond, next);
            write_statement(pen, marks, body, None, turn);
        }
        StmtKind::Empty => write_line(pen, s),
        StmtKind::Local { .. } => write_line(pen, s),
        StmtKind::Assign { .. } => write_line(pen, s),
        StmtKind::Call(_) => write_line(pen, s),
        StmtKind::Return(_) => write_line(pen, s),
        StmtKind::Print(_) => write_line(pen, s),
    }
}

/// Writes statements of a body, one behind the other, each behind its marks.
#[cycle(statement)]
pub(crate) fn write_statements<M: Marks>(
    pen: &mut Pen,
    marks: &M,
    body: Option<Place>,
    items: &[StmtNode],
)
    ensures { WritesPieces pen.old pen.new (marked_all ((M.marking marks.now).before body) None (statements_view items.now)) }
{
    let mut front = None;
    'items: for s in items {
        write_statement(pen, marks, body, front, s);
        front = Some(s);
    }
}
