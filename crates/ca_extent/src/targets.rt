//! From a body to the fields that it writes: `written_by_all` of `specs/clauses/Targets.antt`.

ghost use Rattle.std.specs.Prelude.{◌≡◌, ◌++◌, IfOk};
ghost use Rattle.ca_program.specs.View.{statement_view, statements_view};
ghost use Rattle.ca_extent.specs.clauses.Targets.{pair_of, written_by, written_by_all};

use ca_program::{FieldId, Stmt, StmtForm};
use std::alloc::AllocError;

/// Adds a field, as the number of its class and its place there.
fn add_field(f: FieldId, out: &mut Vec<(u32, u32)>) -> Result<(), AllocError>
    ensures { IfOk result (λ _. out.new.items ≡ out.old.items ++ pair_of f) }
{
    out.push((f.class.0, f.field))?;
    Ok(())
}

/// Adds the fields that a statement writes.
#[cycle(targets)]
fn add_targets(s: &Stmt, out: &mut Vec<(u32, u32)>) -> Result<(), AllocError>
    ensures { IfOk result (λ _. out.new.items ≡ out.old.items ++ written_by (statement_view s.now)) }
{
    match &s.kind {
        StmtForm::Block(stmts) => add_all_targets(stmts, out),
        StmtForm::PutField(f, _, _)
        | StmtForm::PutItem(f, _, _, _)
        | StmtForm::NewField(f, _)
        | StmtForm::NewItem(f, _, _) => add_field(*f, out),
        StmtForm::If(_, yes, no) => add_targets(yes, out).and(add_targets(no, out)),
        StmtForm::While(_, body) => add_targets(body, out),
        StmtForm::For(_, _, first, _, next, body) => {
            let first = add_targets(first, out);
            let next = add_targets(next, out);
            first.and(next.and(add_targets(body, out)))
        }
        _ => Ok(()),
    }
}

/// Adds the fields that statements write.
#[cycle(targets)]
pub(crate) fn add_all_targets(stmts: &[Stmt], out: &mut Vec<(u32, u32)>) -> Result<(), AllocError>
    ensures { IfOk result (λ _. out.new.items ≡ out.old.items ++ written_by_all (statements_view stmts.now)) }
{
    'statements: for s in stmts {
        add_targets(s, out)?;
    }
    Ok(())
}
