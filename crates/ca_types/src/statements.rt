//! From statements of the tree to those of the program, or their least violation: `judge_statements` of
//! `specs/Statements.antt`.

ghost use Rattle.std.specs.Prelude.{◌≡◌, List, ◌∷◌, [], map, length, IfOk, OnOk};
ghost use Rattle.ca_tree.specs.View.{statement_view as tree_view, statements_view as tree_views, expression_view, option_right_view};
ghost use Rattle.ca_tree.specs.Plain as tree;
ghost use Rattle.ca_program.specs.Plain.{Expression, Statement};
ghost use Rattle.ca_program.specs.View as program;
ghost use Rattle.ca_resolve.specs.Judged.{Answers, Judged, fine};
ghost use Rattle.ca_resolve.specs.Scopes.{ty_of};
ghost use Rattle.ca_types.specs.Statements.{nothing, first_part, judge_block, judge_if, judge_while, judge_for_loop, judge_statement, judge_statements, judge_local, judge_condition, declare, behind, behind_all, enter_block, counted, leave_block};
ghost use Rattle.ca_types.specs.clauses.View.{env_view, left, all_view, boxed_view};

use crate::carried::together;
use crate::limits::{MOST_LOOPS, bound};
use crate::lines::{check_call_statement, check_condition, check_print, check_return};
use crate::puts::{check_assign, check_local};
use crate::rules::Answer;
use crate::walk::{Outer, Walk};
use ca_program::{Expr, FirstPart, LoopId, Stmt, StmtForm};
use ca_resolve::codes::TOO_MANY_LOOPS;
use ca_resolve::{and_one, both};
use ca_tree::{ExprNode, Name, Place, Right, StmtKind, StmtNode, TypeNode};
use std::alloc::{AllocError, Global};

/// An empty statement, or a missing `else`.
fn nothing(alloc: Global, line: u32) -> Stmt
    ensures { program.statement_view result ≡ nothing line }
{
    Stmt {
        line,
        kind: StmtForm::Block(Vec::new(alloc)),
    }
}

/// What the first part of a `for` does.
fn first_part(first: &StmtNode) -> FirstPart
    ensures { result ≡ first_part (tree_view first.now) }
{
    match &first.kind {
        StmtKind::Local { .. } => FirstPart::Declares,
        _ => FirstPart::Assigns,
    }
}

/// A block of judged statements.
fn block(line: u32, all: Answer<Vec<Stmt>>) -> Answer<Stmt>
    ensures { (j : Judged (List Statement)) → Answers all_view all j → Answers program.statement_view result (judge_block line j) }
{
    let stmts = all?;
    Ok(Stmt {
        line,
        kind: StmtForm::Block(stmts),
    })
}

/// A judged statement in a box.
fn boxed(alloc: Global, part: Answer<Stmt>) -> Answer<Box<Stmt>>
    ensures { (j : Judged Statement) → Answers program.statement_view part j → Answers boxed_view result j }
{
    let stmt = part?;
    Ok(Box::new(alloc, stmt)?)
}

/// An `if` of judged parts.
fn if_else(
    line: u32,
    cond: Answer<Expr>,
    yes_part: Answer<Box<Stmt>>,
    no_part: Answer<Box<Stmt>>,
) -> Answer<Stmt>
    ensures { (i : Judged Expression) (j k : Judged Statement) → Answers program.expression_view cond i → Answers boxed_view yes_part j → Answers boxed_view no_part k → Answers program.statement_view result (judge_if line i j k) }
{
    let (cond, (yes_part, no_part)) = both(cond, both(yes_part, no_part))?;
    Ok(Stmt {
        line,
        kind: StmtForm::If(cond, yes_part, no_part),
    })
}

/// A `while` of judged parts.
fn while_loop(line: u32, cond: Answer<Expr>, body: Answer<Box<Stmt>>) -> Answer<Stmt>
    ensures { (i : Judged Expression) (j : Judged Statement) → Answers program.expression_view cond i → Answers boxed_view body j → Answers program.statement_view result (judge_while line i j) }
{
    let (cond, body) = both(cond, body)?;
    Ok(Stmt {
        line,
        kind: StmtForm::While(cond, body),
    })
}

/// The word `for` with its number, and the first part.
#[derive(Drop)]
struct Head {
    at: Place,
    site: LoopId,
    part: FirstPart,
    first: Answer<Box<Stmt>>,
}

/// A `for` of judged parts.
fn for_loop(
    head: Head,
    cond: Answer<Expr>,
    next: Answer<Box<Stmt>>,
    body: Answer<Box<Stmt>>,
) -> Answer<Stmt>
    ensures { (f : Judged Statement) (i : Judged Expression) (j k : Judged Statement) → Answers boxed_view head.first f → Answers program.expression_view cond i → Answers boxed_view next j → Answers boxed_view body k → Answers program.statement_view result (judge_for_loop head.at head.site.0 head.part f i j k) }
{
    let passed = bound(head.site.0 == MOST_LOOPS, head.at, TOO_MANY_LOOPS);
    let parts = both(both(head.first, cond), both(next, body));
    let (_, ((first, cond), (next, body))) = both(passed, parts)?;
    Ok(Stmt {
        line: head.at.line,
        kind: StmtForm::For(head.site, head.part, first, cond, next, body),
    })
}

/// A local.
fn check_declaration<'a>(
    alloc: Global,
    walk: &mut Walk<'_, 'a>,
    at: Place,
    ty: &'a TypeNode,
    name: &'a Name,
    name_at: Place,
    value: &Option<Right>,
) -> Result<Answer<Stmt>, AllocError>
    ensures judged { IfOk result (λ a. Answers program.statement_view a (judge_local (env_view walk.old) at ty.now name.now name_at (option_right_view value.now))) }
    ensures behind { OnOk result (env_view walk.new ≡ declare (env_view walk.old) (ty_of (env_view walk.old).scope.classes.names ty.now) name.now) }
{
    let answer = check_local(alloc, walk, at, ty, name, name_at, value);
    let declared = walk.classes.ty_of(ty);
    walk.declare(declared, name).and(Ok(answer))
}

/// A statement. Running out of memory ends the walk.
#[cycle(statement)]
pub(crate) fn check_statement<'a>(
    alloc: Global,
    walk: &mut Walk<'_, 'a>,
    stmt: &'a StmtNode,
) -> Result<Answer<Stmt>, AllocError>
    ensures judged { IfOk result (λ a. Answers program.statement_view a (judge_statement (env_view walk.old) (tree_view stmt.now))) }
    ensures behind { OnOk result (env_view walk.new ≡ behind (env_view walk.old) (tree_view stmt.now)) }
{
    let at = stmt.at;
    match &stmt.kind {
        StmtKind::Empty => Ok(Ok(nothing(alloc, at.line))),
        StmtKind::Block(stmts) => check_block(alloc, walk, at, stmts),
        StmtKind::Local {
            ty,
            name,
            name_at,
            value,
        } => check_declaration(alloc, walk, at, ty, name, *name_at, value),
        StmtKind::Assign { target, op, right } => {
            Ok(check_assign(alloc, walk, at, target, *op, right))
        }
        StmtKind::Call(e) => Ok(check_call_statement(alloc, walk, at, e)),
        StmtKind::If { cond, yes, no } => match no {
            Some(no) => {
                let yes_part = check_inner(alloc, walk, yes)?;
                check_else(alloc, walk, at, no, cond, yes_part)
            }
            None => check_if_only(alloc, walk, at, yes, cond),
        },
        StmtKind::While { cond, body } => check_while(alloc, walk, at, body, cond),
        StmtKind::For {
            first,
            cond,
            next,
            body,
        } => {
            let (outer, head) = check_head(alloc, walk, at, first)?;
            let next = check_inner(alloc, walk, next)?;
            check_rounds(alloc, walk, body, cond, outer, head, next)
        }
        StmtKind::Return(e) => Ok(check_return(alloc, walk, at, e)),
        StmtKind::Print(e) => Ok(check_print(alloc, walk, at, e)),
    }
}

/// A statement in a block of its own.
#[cycle(statement)]
fn check_inner<'a>(
    alloc: Global,
    walk: &mut Walk<'_, 'a>,
    stmt: &'a StmtNode,
) -> Result<Answer<Box<Stmt>>, AllocError>
    ensures judged { IfOk result (λ a. Answers boxed_view a (judge_statement (enter_block (env_view walk.old)) (tree_view stmt.now))) }
    ensures behind { OnOk result (env_view walk.new ≡ leave_block (env_view walk.old) (behind (enter_block (env_view walk.old)) (tree_view stmt.now))) }
{
    let outer = walk.enter_block();
    let answer = check_statement(alloc, walk, stmt)?;
    walk.leave_block(outer);
    Ok(boxed(alloc, answer))
}

/// The statements of a block.
#[cycle(statement)]
fn check_block<'a>(
    alloc: Global,
    walk: &mut Walk<'_, 'a>,
    at: Place,
    stmts: &'a [StmtNode],
) -> Result<Answer<Stmt>, AllocError>
    ensures judged { IfOk result (λ a. Answers program.statement_view a (judge_statement (env_view walk.old) (tree.block at (tree_views stmts.now)))) }
    ensures behind { OnOk result (env_view walk.new ≡ behind (env_view walk.old) (tree.block at (tree_views stmts.now))) }
{
    let outer = walk.enter_block();
    let answer = check_statements(alloc, walk, stmts)?;
    walk.leave_block(outer);
    Ok(block(at.line, answer))
}

/// A `while`.
#[cycle(statement)]
fn check_while<'a>(
    alloc: Global,
    walk: &mut Walk<'_, 'a>,
    at: Place,
    body: &'a StmtNode,
    cond: &ExprNode,
) -> Result<Answer<Stmt>, AllocError>
    ensures judged { IfOk result (λ a. Answers program.statement_view a (judge_statement (env_view walk.old) (tree.while_loop at (expression_view cond.now) (tree_view body.now)))) }
    ensures behind { OnOk result (env_view walk.new ≡ behind (env_view walk.old) (tree.while_loop at (expression_view cond.now) (tree_view body.now))) }
{
    let body = check_inner(alloc, walk, body)?;
    let cond = check_condition(alloc, &walk.scope(), cond);
    Ok(while_loop(at.line, cond, body))
}

/// The word and the first part of a `for`, in a block round the loop, whose end is left open.
#[cycle(statement)]
fn check_head<'a>(
    alloc: Global,
    walk: &mut Walk<'_, 'a>,
    at: Place,
    first: &'a StmtNode,
) -> Result<(Outer, Head), AllocError>
    ensures visible { IfOk result (λ p. p.0.visible ≡ length (env_view walk.old).scope.locals) }
    ensures first { IfOk result (λ p. p.0.first ≡ (env_view walk.old).first) }
    ensures at { IfOk result (λ p. p.1.at ≡ at) }
    ensures site { IfOk result (λ p. p.1.site.0 ≡ (env_view walk.old).loops) }
    ensures part { IfOk result (λ p. p.1.part ≡ first_part (tree_view first.now)) }
    ensures judged { IfOk result (λ p. Answers boxed_view p.1.first (judge_statement (enter_block (counted (env_view walk.old))) (tree_view first.now))) }
    ensures behind { OnOk result (env_view walk.new ≡ behind (enter_block (counted (env_view walk.old))) (tree_view first.now)) }
{
    let site = walk.count_loop()?;
    let outer = walk.enter_block();
    let part = first_part(first);
    let first = boxed(alloc, check_statement(alloc, walk, first)?);
    let head = Head {
        at,
        site,
        part,
        first,
    };
    Ok((outer, head))
}

/// An `if` without `else`.
#[cycle(statement)]
fn check_if_only<'a>(
    alloc: Global,
    walk: &mut Walk<'_, 'a>,
    at: Place,
    yes: &'a StmtNode,
    cond: &ExprNode,
) -> Result<Answer<Stmt>, AllocError>
    ensures judged { IfOk result (λ a. Answers program.statement_view a (judge_statement (env_view walk.old) (tree.if_only at (expression_view cond.now) (tree_view yes.now)))) }
    ensures behind { OnOk result (env_view walk.new ≡ behind (env_view walk.old) (tree.if_only at (expression_view cond.now) (tree_view yes.now))) }
{
    let yes_part = check_inner(alloc, walk, yes)?;
    let cond = check_condition(alloc, &walk.scope(), cond);
    let no_part = boxed(alloc, Ok(nothing(alloc, at.line)));
    Ok(if_else(at.line, cond, yes_part, no_part))
}

/// The other branch of an `if` whose first is judged.
#[cycle(statement)]
fn check_else<'a>(
    alloc: Global,
    walk: &mut Walk<'_, 'a>,
    at: Place,
    no: &'a StmtNode,
    cond: &ExprNode,
    yes_part: Answer<Box<Stmt>>,
) -> Result<Answer<Stmt>, AllocError>
    ensures judged { (j : Judged Statement) → Answers boxed_view yes_part j → IfOk result (λ a. Answers program.statement_view a (judge_if at.line (judge_condition (env_view walk.old).scope (expression_view cond.now)) j (judge_statement (enter_block (env_view walk.old)) (tree_view no.now)))) }
    ensures behind { OnOk result (env_view walk.new ≡ leave_block (env_view walk.old) (behind (enter_block (env_view walk.old)) (tree_view no.now))) }
{
    let (yes_part, no_part) = together(yes_part, check_inner(alloc, walk, no))?;
    let cond = check_condition(alloc, &walk.scope(), cond);
    Ok(if_else(at.line, cond, yes_part, no_part))
}

/// The condition and the body of a `for` whose other parts are judged, and the end of the block round it.
#[cycle(statement)]
fn check_rounds<'a>(
    alloc: Global,
    walk: &mut Walk<'_, 'a>,
    body: &'a StmtNode,
    cond: &ExprNode,
    outer: Outer,
    head: Head,
    next: Answer<Box<Stmt>>,
) -> Result<Answer<Stmt>, AllocError>
    ensures judged { (f j : Judged Statement) → Answers boxed_view head.first f → Answers boxed_view next j → IfOk result (λ a. Answers program.statement_view a (judge_for_loop head.at head.site.0 head.part f (judge_condition (env_view walk.old).scope (expression_view cond.now)) j (judge_statement (enter_block (env_view walk.old)) (tree_view body.now)))) }
    ensures behind { OnOk result (env_view walk.new ≡ left (leave_block (env_view walk.old) (behind (enter_block (env_view walk.old)) (tree_view body.now))) outer.visible outer.first) }
{
    let ((head, next), body) = together((head, next), check_inner(alloc, walk, body))?;
    let cond = check_condition(alloc, &walk.scope(), cond);
    walk.leave_block(outer);
    Ok(for_loop(head, cond, next, body))
}

/// Statements in order.
#[cycle(statement)]
pub(crate) fn check_statements<'a>(
    alloc: Global,
    walk: &mut Walk<'_, 'a>,
    stmts: &'a [StmtNode],
) -> Result<Answer<Vec<Stmt>>, AllocError>
    ensures judged { IfOk result (λ a. Answers all_view a (judge_statements (env_view walk.old) (tree_views stmts.now))) }
    ensures behind { OnOk result (env_view walk.new ≡ behind_all (env_view walk.old) (tree_views stmts.now)) }
{
    let mut answers = Ok(Vec::new(alloc));
    for stmt in stmts {
        let (so_far, answer) = together(answers, check_statement(alloc, walk, stmt))?;
        answers = and_one(so_far, answer);
    }
    Ok(answers)
}
