//! From a whole tree to its program, or its least violation: `judge` of `specs/Classes.antt`.

ghost use Rattle.std.specs.Prelude.{◌≡◌, List, IfOk, IfErr};
ghost use Rattle.ca_tree.specs.View.{tree_view};
ghost use Rattle.ca_program.specs.View.{program_view};
ghost use Rattle.ca_resolve.specs.Judged.{Answers, Judged, fine, within, Tells};
ghost use Rattle.ca_types.specs.Classes.{judge, program_of, Violations, Parts as PlainParts};
ghost use Rattle.ca_types.specs.clauses.View.{parts_view, all_view};
ghost use Rattle.ca_program.specs.Plain.{Statement};

use crate::classes::{Parts, check_classes};
use crate::rules::Answer;
use crate::statements::check_statements;
use crate::walk::Walk;
use ca_program::{Body, Program, Stmt, ValueType};
use ca_resolve::{CheckError, ClassTable, both};
use ca_tree::Tree;
use std::alloc::{AllocError, Global};

/// The program that the tree resolves to, or its least violation or passed limit.
pub fn check(alloc: Global, tree: &Tree) -> Result<Program, CheckError>
    // The program of a tree without violations.
    ensures resolved { IfOk result (λ p. judge (tree_view tree.now) ≡ fine (program_view p)) }
    // The least of all violations and passed limits by place and then by code, a limit told as one.
    ensures refused { IfErr result (λ e. Tells e (Violations (tree_view tree.now))) }
{
    walk_over(alloc, tree)?
}

/// The answer for the whole tree, unless memory runs out.
fn walk_over(alloc: Global, tree: &Tree) -> Result<Answer<Program>, AllocError>
    ensures { IfOk result (λ a. Answers program_view a (judge (tree_view tree.now))) }
{
    let table = ClassTable::new(alloc, &tree.classes)?;
    let (parts, loops) = check_classes(alloc, &table, &tree.classes)?;
    let mut walk = Walk::new(alloc, &table, None, loops, None);
    let stmts = check_statements(alloc, &mut walk, &tree.main)?;
    Ok(program(walk.locals, both(parts, stmts)))
}

/// The program of its judged parts.
fn program(locals: Vec<ValueType>, parts: Answer<(Parts, Vec<Stmt>)>) -> Answer<Program>
    ensures { (j : Judged (PlainParts × List Statement)) → Answers (λ p. (parts_view p.0, all_view p.1)) parts j → Answers program_view result (within j (λ p. fine (program_of locals.items p))) }
{
    let (parts, stmts) = parts?;
    Ok(Program {
        classes: parts.classes,
        ops: parts.ops,
        functions: parts.functions,
        main: Body { locals, stmts },
    })
}
