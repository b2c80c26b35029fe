//! Whether a statement puts anything into fields.

ghost use Rattle.std.specs.Prelude.{◌≡◌};
ghost use Rattle.ca_program.specs.View.{statement_view, statements_view};
ghost use Rattle.ca_parallel.specs.Bodies.{targets_of_all};
ghost use Rattle.ca_note_laws.specs.Listing.{is_empty, puts_nothing};

use ca_program::{Stmt, StmtForm};

/// Whether the statement puts nothing into fields.
#[cycle(puts)]
#[tactic(auto, using(crate::proofs::Quietness::none_of_both))]
pub fn puts_nothing(s: &Stmt) -> bool
    ensures { result ≡ puts_nothing (statement_view s.now) }
{
    match &s.kind {
        StmtForm::Block(stmts) => put_nothing(stmts),
        StmtForm::PutField(..) => false,
        StmtForm::PutItem(..) => false,
        StmtForm::NewField(..) => false,
        StmtForm::NewItem(..) => false,
        StmtForm::If(_, yes, no) => puts_nothing(yes) && puts_nothing(no),
        StmtForm::While(_, body) => puts_nothing(body),
        StmtForm::For(_, _, first, _, next, body) => {
            puts_nothing(first) && (puts_nothing(next) && puts_nothing(body))
        }
        _ => true,
    }
}

#[cycle(puts)]
#[tactic(auto, using(crate::proofs::Quietness::none_of_both))]
fn put_nothing(stmts: &[Stmt]) -> bool
    ensures { result ≡ is_empty (targets_of_all (statements_view stmts.now)) }
{
    'statements: for s in stmts {
        if !puts_nothing(s) {
            return false;
        }
    }
    true
}
