//! Lays out a whole program.

ghost use Rattle.std.specs.Prelude.{◌≡◌, ◌≤◌, ◌+◌, ◌-◌, ◌++◌, IfOk, drop, length, map};
ghost use Rattle.ca_program.specs.Kinds.{kind_type, kinds_in, param_kinds};
ghost use Rattle.ca_program.specs.Layout.{operation_code, starts_code};
ghost use Rattle.ca_program.specs.View.{method_view, program_view, statements_view};
ghost use Rattle.ca_code.specs.Texts.{body_code, method_code};
ghost use Rattle.ca_code.specs.Codes.{IsLaidOutOnce, IsLaidOutWith, kinds_seen};
ghost use Rattle.ca_code.specs.Seen.{row_of};
ghost use Rattle.ca_code.specs.declared.ins.Ins.TheVariants.{Leave};
ghost use Rattle.ca_code.specs.Laying.{Adds, Laying, laid};
ghost use Rattle.ca_code.specs.clauses.Places.{Lays};

use crate::bodies::{Bodies, PlainBodies, ValueBodies};
use crate::expressions::MOST_SLOTS;
use crate::ins::{Ins, Kind, Row, kind_type};
use crate::rows::Rows;
use crate::scope::Scope;
use ca_program::{Method, Program, Stmt, ValueType};
use std::alloc::{AllocError, Global};

/// A program laid out: its rows; where each value method begins, each operation, and each operation of the other kind of bodies;
/// what the parameters of operations are read as; where `main` begins; and how many slots a frame wants.
#[derive(Drop)]
pub struct Code<'a> {
    pub rows: Vec<Row<'a>>,
    pub functions: Vec<u32>,
    pub ops: Vec<u32>,
    pub heeding: Vec<u32>,
    pub params: Vec<Vec<Kind>>,
    pub main: u32,
    pub room: u32,
}

/// Adds what begins the locals of these types, from a slot on.
fn add_starts(rows: &mut Rows<'_>, first: u32, tys: &[ValueType])
    ensures { Adds rows.old rows.new (starts_code first tys.now) }
{
    if first >= MOST_SLOTS || tys.len() >= MOST_SLOTS as usize {
        rows.fail();
        return;
    }
    'locals: for i in 0..tys.len() {
        rows.push(0, Ins::Constant(first + i as u32, 0));
    }
}

/// The locals behind the parameters.
fn others(locals: &[ValueType], params: u32) -> &[ValueType]
    ensures { result.now ≡ drop params locals.now }
{
    if (params as usize) < locals.len() {
        &locals[params as usize..]
    } else {
        &[]
    }
}

/// Adds a body, of which the first so many locals are parameters, with an instruction at its end.
fn add_body<'a, B: Bodies>(
    rows: &mut Rows<'a>,
    program: &'a Program,
    bodies: &B,
    last: Ins<'a>,
    params: u32,
    locals: &'a [ValueType],
    stmts: &'a [Stmt],
)
    ensures { Adds rows.old rows.new (body_code (kinds_in (program_view program.now) locals.now) (B.acts bodies.now (kinds_in (program_view program.now) locals.now)) (B.hands bodies.now (kinds_in (program_view program.now) locals.now) (map kind_type locals.now)) (row_of 0 last.entry) params locals.now (statements_view stmts.now)) }
{
    let behind = others(locals, params);
    if params >= MOST_SLOTS || behind.len() >= MOST_SLOTS as usize {
        rows.fail();
        return;
    }
    add_starts(rows, params, behind);
    let scope = Scope { program, locals };
    scope.statements(rows, bodies, stmts, params + behind.len() as u32);
    rows.push(0, last);
}

/// Adds the bodies of methods, and tells where each begins.
fn add_methods<'a, B: Bodies>(
    alloc: Global,
    rows: &mut Rows<'a>,
    program: &'a Program,
    bodies: &B,
    last: Ins<'a>,
    methods: &'a [Method],
) -> Result<Vec<u32>, AllocError>
    ensures { IfOk result (λ places. Lays rows.old rows.new places.items (map method_view methods.now) (method_code (B.acts bodies.now) (B.hands bodies.now) (row_of 0 last.entry) (program_view program.now))) }
{
    let mut places = Vec::new(alloc);
    'methods: for m in methods {
        places.push(rows.here() as u32)?;
        add_body(
            rows,
            program,
            bodies,
            last,
            m.params,
            m.body.locals.as_slice(),
            m.body.stmts.as_slice(),
        );
    }
    Ok(places)
}

/// Adds rows once more, which stand from a place on, each changed.
fn add_copies<'a, B: Bodies>(rows: &mut Rows<'a>, bodies: &B, from: usize)
    ensures { Adds rows.old rows.new (map (B.changed bodies.now) (drop from (laid rows.old))) }
{
    let end = rows.here();
    'rows: for at in from..end {
        let Some(row) = rows.at(at) else {
            rows.fail();
            return;
        };
        let changed = bodies.change(row);
        rows.again(changed.line, changed.ins);
    }
}

/// Places that are counted from another one on.
fn moved(alloc: Global, places: &[u32], from: usize, to: usize) -> Result<Vec<u32>, AllocError>
    requires { to ≤ 2000000000 }
    ensures { IfOk result (λ others. others.items ≡ map (λ n. n - from + to) places.now) }
{
    let mut others = Vec::new(alloc);
    'places: for place in places {
        let at = (*place as usize).saturating_sub(from) + to;
        if at > u32::MAX as usize {
            return Err(AllocError);
        }
        others.push(at as u32)?;
    }
    Ok(others)
}

/// Adds the operations once more, as another kind of bodies, and tells where each begins. Where each row is only changed, they are
/// copied from where they begin.
fn add_others<'a, B: Bodies>(
    alloc: Global,
    rows: &mut Rows<'a>,
    program: &'a Program,
    bodies: &B,
    methods: &'a [Method],
    from: usize,
    places: &[u32],
) -> Result<Vec<u32>, AllocError>
    ensures { IfOk result (λ others. (old : Laying) → from ≡ length (laid old) → Lays old rows.old places.now (map method_view methods.now) (λ m. operation_code (program_view program.now) m) → Lays rows.old rows.new others.items (map method_view methods.now) (method_code (B.acts bodies.now) (B.hands bodies.now) (row_of 0 Leave) (program_view program.now))) }
{
    if !bodies.is_copied() {
        return add_methods(alloc, rows, program, bodies, Ins::Leave, methods);
    }
    let others = moved(alloc, places, from, rows.here())?;
    add_copies(rows, bodies, from);
    Ok(others)
}

/// What the parameters of a method are read as.
fn params_of(alloc: Global, m: &Method) -> Result<Vec<Kind>, AllocError>
    ensures { IfOk result (λ ks. kinds_seen ks ≡ param_kinds (method_view m.now)) }
{
    let mut kinds = Vec::new(alloc);
    'params: for i in 0..(m.params as usize).min(m.body.locals.len()) {
        kinds.push(kind_type(m.body.locals[i]))?;
    }
    Ok(kinds)
}

/// What the parameters of methods are read as.
fn all_params(alloc: Global, methods: &[Method]) -> Result<Vec<Vec<Kind>>, AllocError>
    ensures { IfOk result (λ all. map kinds_seen all.items ≡ map (λ m. param_kinds (method_view m)) methods.now) }
{
    let mut all = Vec::new(alloc);
    'methods: for m in methods {
        all.push(params_of(alloc, m)?)?;
    }
    Ok(all)
}

/// Lays a program out, with operations once as they are and once as another kind of bodies, and `main` as that.
pub fn lay_out_with<'a, B: Bodies>(
    alloc: Global,
    program: &'a Program,
    bodies: &B,
) -> Result<Code<'a>, AllocError>
    ensures { IfOk result (λ c. IsLaidOutWith (B.acts bodies.now) (B.hands bodies.now) (program_view program.now) c) }
{
    let mut rows = Rows::new(alloc);
    let values = program.functions.as_slice();
    let functions = add_methods(alloc, &mut rows, program, &ValueBodies, Ins::Lack, values)?;
    let methods = program.ops.as_slice();
    let from = rows.here();
    let ops = add_methods(alloc, &mut rows, program, &PlainBodies, Ins::Leave, methods)?;
    let starts = ops.as_slice();
    let heeding = add_others(alloc, &mut rows, program, bodies, methods, from, starts)?;
    let params = all_params(alloc, methods)?;
    let main = rows.here() as u32;
    let body = &program.main;
    let locals = body.locals.as_slice();
    add_body(
        &mut rows,
        program,
        bodies,
        Ins::Leave,
        0,
        locals,
        body.stmts.as_slice(),
    );
    let room = rows.room();
    let rows = rows.finish()?;
    Ok(Code {
        rows,
        functions,
        ops,
        heeding,
        params,
        main,
        room,
    })
}

/// Lays a program out, each body once and as it is.
pub fn lay_out_once<'a>(alloc: Global, program: &'a Program) -> Result<Code<'a>, AllocError>
    ensures { IfOk result (λ c. IsLaidOutOnce (program_view program.now) c) }
{
    let mut rows = Rows::new(alloc);
    let values = program.functions.as_slice();
    let functions = add_methods(alloc, &mut rows, program, &ValueBodies, Ins::Lack, values)?;
    let methods = program.ops.as_slice();
    let ops = add_methods(alloc, &mut rows, program, &PlainBodies, Ins::Leave, methods)?;
    let params = all_params(alloc, methods)?;
    let main = rows.here() as u32;
    let body = &program.main;
    let locals = body.locals.as_slice();
    add_body(
        &mut rows,
        program,
        &PlainBodies,
        Ins::Leave,
        0,
        locals,
        body.stmts.as_slice(),
    );
    let room = rows.room();
    let rows = rows.finish()?;
    Ok(Code {
        rows,
        functions,
        ops,
        heeding: Vec::new(alloc),
        params,
        main,
        room,
    })
}
