//! The code of loops that are handed on, each once more on its own.

ghost use Rattle.std.specs.Prelude.{◌≡◌, ◌<◌, ◌+◌, false, true, IfOk, OnOk, List, length, map};
ghost use Rattle.ca_program.specs.Kinds.{as_pointer};
ghost use Rattle.ca_program.specs.View.{program_view, statement_view};
ghost use Rattle.ca_code.specs.Codes.{code_seen};
ghost use Rattle.ca_code.specs.Seen.{placed};
ghost use Rattle.ca_code.specs.Laying.{Adds, laid};
ghost use Rattle.ca_code_laws.specs.Fitting.{FitsStatement};
ghost use Rattle.ca_code_laws.specs.Known.{loop_alone};
ghost use Rattle.ca_program.specs.Instructions.{Placed};
ghost use Rattle.ca_sections.specs.Extending.{AllStand, Extended, Looked, ats, begins_from};
ghost use Rattle.ca_sections.specs.Fitting.{LoopStands};

use crate::fits::Body;
use ca_code::{Code, Ins, Kind, PlainBodies, Rows, Scope};
use ca_program::{Program, Stmt, ValueType};
use std::alloc::{AllocError, Global};

/// The most locals of a body whose loops are laid out on their own.
const MOST_LOCALS: usize = 1_000_000;

/// Where the code of a loop stands on its own, and where the instruction stands that hands it on, on a line, in a body with locals
/// of these types.
#[derive(Clone, Copy)]
pub struct LoopPlace<'a> {
    pub at: usize,
    pub place: u32,
    pub line: u32,
    pub s: &'a Stmt,
    pub types: &'a [ValueType],
}

/// Adds the code of a loop on a line, in a body with locals of these types, and its end.
fn add_loop<'a>(
    rows: &mut Rows<'a>,
    program: &'a Program,
    line: u32,
    s: &'a Stmt,
    types: &'a [ValueType],
)
    ensures adds { Adds rows.old rows.new (loop_alone (program_view program.now) types.now line (statement_view s.now)) }
    ensures fits { rows.new.failed ≡ false → FitsStatement (program_view program.now) types.now true as_pointer (statement_view s.now) }
{
    let scope = Scope {
        program,
        locals: types,
    };
    let body = Body {
        scope,
        result: Kind::Pointer,
        acts: true,
    };
    if types.len() > MOST_LOCALS || !body.statement(s) {
        rows.fail();
        return;
    }
    scope.statement(rows, &PlainBodies, line, s, types.len() as u32);
    rows.push(0, Ins::Leave);
}

/// The code with other rows.
fn with_rows<'a>(code: Code<'a>, rows: Rows<'a>) -> Result<Code<'a>, AllocError>
    ensures rows { IfOk result (λ c. map placed c.rows.items ≡ laid rows.entry) }
    ensures same { IfOk result (λ c. c ≡ record code.entry { rows = c.rows; room = c.room }) }
    ensures failed { OnOk result (rows.entry.failed ≡ false) }
{
    let room = rows.room();
    let all = rows.finish()?;
    Ok(Code {
        rows: all,
        room,
        ..code
    })
}

/// Adds the code of the loop that the row at a place hands on, if it does, and tells where it stands.
fn add_handed<'a>(
    rows: &mut Rows<'a>,
    places: &mut Vec<LoopPlace<'a>>,
    program: &'a Program,
    at: usize,
) -> Result<(), AllocError>
    ensures { IfOk result (λ _. (old : List Placed) → at < length old → Looked (program_view program.now) old at rows.old places.old.items → Looked (program_view program.now) old (at + 1) rows.new places.new.items) }
{
    let Some(row) = rows.at(at) else {
        return Err(AllocError);
    };
    let Ins::Begin(_, s, types) = row.ins else {
        return Ok(());
    };
    places.push(LoopPlace {
        at,
        place: rows.here() as u32,
        line: row.line,
        s,
        types,
    })?;
    add_loop(rows, program, row.line, s, types);
    Ok(())
}

/// Adds the code of each loop that is handed on, and tells where it stands: of each one place, in the order in which they are.
pub fn with_loops<'a>(
    alloc: Global,
    program: &'a Program,
    mut code: Code<'a>,
) -> Result<(Code<'a>, Vec<LoopPlace<'a>>), AllocError>
    ensures { IfOk result (λ r. Extended code.entry r.0 × AllStand (program_view program.now) (code_seen r.0) r.1.items × (ats r.1.items ≡ begins_from 0 (code_seen code.entry).items)) }
{
    let mut places = Vec::new(alloc);
    let old = std::mem::replace(&mut code.rows, Vec::new(alloc));
    let count = old.len();
    let mut rows = Rows::behind_these(old, code.room)?;
    'rows: for at in 0..count {
        add_handed(&mut rows, &mut places, program, at)?;
    }
    let code = with_rows(code, rows)?;
    Ok((code, places))
}

/// Adds the code of one loop, and tells where it stands.
pub(crate) fn with_loop<'a>(
    alloc: Global,
    program: &'a Program,
    mut code: Code<'a>,
    line: u32,
    s: &'a Stmt,
    types: &'a [ValueType],
) -> Result<(Code<'a>, u32), AllocError>
    ensures { IfOk result (λ r. Extended code.entry r.0 × LoopStands (program_view program.now) (code_seen r.0) r.1 types.now line (statement_view s.now)) }
{
    let old = std::mem::replace(&mut code.rows, Vec::new(alloc));
    let mut rows = Rows::behind_these(old, code.room)?;
    let place = rows.here() as u32;
    add_loop(&mut rows, program, line, s, types);
    let code = with_rows(code, rows)?;
    Ok((code, place))
}
