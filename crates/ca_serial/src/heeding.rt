//! Bodies that heed marks: `heed_acts` and `heed_hands` of the definition.

ghost use Rattle.std.specs.Prelude.{◌≡◌, IfOk};
ghost use Rattle.ca_program.specs.View.{program_view, statement_view};
ghost use Rattle.ca_code.specs.Codes.{code_seen};
ghost use Rattle.ca_serial.specs.Codes.{IsMarked};
ghost use Rattle.ca_serial.specs.clauses.Marked.{is_marked};

use crate::marked::Marked;
use ca_base::Memory;
use ca_code::{Bodies, Code, Ins, PlainBodies, Row, Rows, Scope, lay_out_with};
use ca_parallel::Marks;
use ca_program::{Program, Stmt, StmtForm};
use std::alloc::Global;

/// A body with more slots than this isn't laid out.
const MOST_SLOTS: u32 = 2_000_000_000;

/// The bodies of operations and of `main`, which heed these marks: a marked call is handed on, and so is a marked loop.
#[derive(Drop)]
pub struct HeedingBodies<'m> {
    marked: Marked<'m>,
}

impl<'m> Bodies for HeedingBodies<'m> {
    ghost use Rattle.ca_code_laws.specs.Heeding.{heed_acts, heed_hands};
    ghost use Rattle.ca_serial.specs.clauses.Copies.{heeding_row};

    ghost acts = { λ s ks. heed_acts s.marked ks };

    ghost hands = { λ s ks κs. heed_hands s.marked ks κs };

    ghost changed = { λ s r. heeding_row s.marked r };

    fn act<'a>(&self, scope: &Scope<'a>, rows: &mut Rows<'a>, line: u32, s: &'a Stmt, top: u32) {
        if top >= MOST_SLOTS {
            rows.fail();
            return;
        }
        match &s.kind {
            StmtForm::Invoke(object, op, arguments) => {
                scope.expression(rows, line, object, top, top);
                scope.expressions(rows, line, arguments, top + 1);
                if self.marked.holds(*op) {
                    rows.push(line, Ins::Hand(*op, top));
                } else {
                    rows.push(line, Ins::Heed(*op, top));
                }
            }
            _ => scope.act(rows, line, s, top),
        }
    }

    fn hand<'a>(
        &self,
        scope: &Scope<'a>,
        rows: &mut Rows<'a>,
        line: u32,
        s: &'a Stmt,
        top: u32,
    ) -> bool {
        if !is_marked(&self.marked, s) {
            return false;
        }
        let place = rows.here();
        rows.push(line, Ins::Begin(0, s, scope.locals));
        scope.statement(rows, &PlainBodies, line, s, top);
        let past = rows.behind(place);
        rows.put(place, line, Ins::Begin(past, s, scope.locals));
        true
    }

    fn is_copied(&self) -> bool {
        self.marked.has_no_loop()
    }

    fn change<'a>(&self, row: Row<'a>) -> Row<'a> {
        match row.ins {
            Ins::Invoke(op, first) => {
                if self.marked.holds(op) {
                    Row {
                        ins: Ins::Hand(op, first),
                        line: row.line,
                    }
                } else {
                    Row {
                        ins: Ins::Heed(op, first),
                        line: row.line,
                    }
                }
            }
            _ => row,
        }
    }
}

/// Whether the statement is a marked loop.
fn is_marked(marked: &Marked<'_>, s: &Stmt) -> bool
    ensures { result ≡ is_marked marked.now.loops (statement_view s.now) }
{
    match &s.kind {
        StmtForm::For(site, _, _, _, _, _) => marked.holds_loop(*site),
        _ => false,
    }
}

/// Lays a program out, with operations once as they are and once with these marks, and `main` with them.
pub fn lay_out_marked<'a>(
    alloc: Global,
    program: &'a Program,
    marks: &Marks,
) -> Result<Code<'a>, Memory>
    ensures { IfOk result (λ c. IsMarked marks.now (program_view program.now) (code_seen c) c.main) }
{
    let bodies = HeedingBodies {
        marked: Marked::new(alloc, marks, program.ops.len())?,
    };
    let code = lay_out_with(alloc, program, &bodies)?;
    Ok(code)
}
