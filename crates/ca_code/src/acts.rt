//! Lays out what operations and `main` do besides: `all_acts` of the definition.

ghost use Rattle.std.specs.Prelude.{◌≡◌};
ghost use Rattle.ca_program.specs.Kinds.{kinds_in};
ghost use Rattle.ca_program.specs.Layout.{all_acts};
ghost use Rattle.ca_program.specs.Plain.{invoke, new_field, new_item, new_local, print_value, put_field, put_item};
ghost use Rattle.ca_program.specs.View.{expression_view, expressions_view, program_view, statement_view};
ghost use Rattle.ca_code.specs.Laying.{Adds};

use crate::expressions::{MOST_SLOTS, stands};
use crate::ins::Ins;
use crate::rows::Rows;
use crate::scope::Scope;
use ca_program::{Stmt, StmtForm};

impl<'a> Scope<'a> {
    /// Adds what an act is laid out to, and nothing for another statement.
    pub fn act(&self, rows: &mut Rows<'a>, line: u32, s: &Stmt, top: u32)
        ensures { Adds rows.old rows.new (all_acts (kinds_in (program_view self.now.program.now) self.now.locals.now) line (statement_view s.now) top) }
    {
        if top >= MOST_SLOTS {
            rows.fail();
            return;
        }
        match &s.kind {
            StmtForm::PutField(f, op, e) => {
                self.operand(rows, line, e, top);
                rows.push(
                    line,
                    Ins::PutField(*f, *op, self.kind_of(e), stands(e, top)),
                );
            }
            StmtForm::PutItem(f, i, op, e) => {
                self.operand(rows, line, i, top);
                let index = stands(i, top);
                rows.push(line, Ins::CheckItem(*f, index));
                self.operand(rows, line, e, top + 1);
                let right = stands(e, top + 1);
                rows.push(line, Ins::PutItem(*f, index, *op, self.kind_of(e), right));
            }
            StmtForm::NewLocal(l, c) => rows.push(line, Ins::NewLocal(l.0, *c)),
            StmtForm::NewField(f, c) => rows.push(line, Ins::NewField(*f, *c)),
            StmtForm::NewItem(f, i, c) => {
                self.operand(rows, line, i, top);
                rows.push(line, Ins::NewItem(*f, stands(i, top), *c));
            }
            StmtForm::Print(e) => {
                self.operand(rows, line, e, top);
                rows.push(line, Ins::Print(self.kind_of(e), stands(e, top)));
            }
            StmtForm::Invoke(object, op, arguments) => {
                self.expression(rows, line, object, top, top);
                self.expressions(rows, line, arguments, top + 1);
                rows.push(line, Ins::Invoke(*op, top));
            }
            StmtForm::Block(_) => {}
            StmtForm::PutLocal(_, _, _) => {}
            StmtForm::If(_, _, _) => {}
            StmtForm::While(_, _) => {}
            StmtForm::For(_, _, _, _, _, _) => {}
            StmtForm::Return(_) => {}
        }
    }
}
