//! Whether an operation of an extent takes a lock.

ghost use Rattle.std.specs.Prelude.{◌≡◌, List, [], true, false, Contains};
ghost use Rattle.ca_program.specs.View.{program_view, statement_view, statements_view};
ghost use Rattle.ca_program.specs.declared.program.OpId.{OpId};
ghost use Rattle.ca_parallel.specs.Bodies.{targets_of_all};
ghost use Rattle.ca_parallel.specs.Extents.{IsExtentOf, operation_body};
ghost use Rattle.ca_parallel.specs.Free.{IsFree};
ghost use Rattle.ca_section.specs.TakesLock.{holds_target, hold_target, takes_lock};

use crate::readers::body_at;
use crate::walk::Known;
use ca_extent::Extent;
use ca_program::{OpId, Program, Stmt, StmtForm};

/// Whether the statement puts or creates anything in a field.
#[cycle(targets)]
#[tactic(auto, using(crate::proofs::HeldCalls::some_of_both))]
fn holds_target(s: &Stmt) -> bool
    ensures { result ≡ holds_target (statement_view s.now) }
{
    match &s.kind {
        StmtForm::Block(stmts) => hold_target(stmts),
        StmtForm::PutField(..) | StmtForm::PutItem(..) => true,
        StmtForm::NewField(..) | StmtForm::NewItem(..) => true,
        StmtForm::If(_, yes, no) => holds_target(yes) || holds_target(no),
        StmtForm::While(_, body) => holds_target(body),
        StmtForm::For(_, _, first, _, next, body) => {
            holds_target(first) || (holds_target(next) || holds_target(body))
        }
        _ => false,
    }
}

#[cycle(targets)]
#[tactic(auto, using(crate::proofs::HeldCalls::some_of_both))]
fn hold_target(stmts: &[Stmt]) -> bool
    ensures { result ≡ hold_target (statements_view stmts.now) }
{
    'statements: for s in stmts {
        if holds_target(s) {
            return true;
        }
    }
    false
}

/// Whether an operation takes a lock in an extent: its body puts something, or reads a field that the extent writes, itself
/// and not through value methods. One that takes none is free; of the operations of the extent each other one is not.
pub fn locks(program: &Program, extent: &Extent, op: OpId) -> bool
    ensures exact { result ≡ takes_lock extent.now.written (operation_body (program_view program.now) op) }
    ensures free { result ≡ false → (targets_of_all (operation_body (program_view program.now) op) ≡ []) × IsFree (program_view program.now) extent.now.written op }
    ensures locked { result ≡ true → (roots : List OpId) → IsExtentOf (program_view program.now) roots extent.now → Contains extent.now.ops op → ¬ IsFree (program_view program.now) extent.now.written op }
{
    let known = Known {
        written: extent.written(),
        readers: &[],
    };
    let body = body_at(&program.ops, op.0 as usize);
    hold_target(body) || known.touched_by_any(body)
}
