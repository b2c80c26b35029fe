//! A run of `ca_serial` without an engine, and what it prints.

ghost use Rattle.std.specs.Prelude.{IfOk};
ghost use Rattle.ca_program.specs.View.{program_view};
ghost use Rattle.ca_meaning.specs.ProgramTyped.{ProgramTyped};

use crate::sources::let_go;
use ca_base::MemSink;
use ca_parallel::Marks;
use ca_program::{Body, Expr, Program, Stmt, StmtForm};
use ca_serial::{NoExtents, Outcome, drive};
use std::alloc::{AllocError, Global};
use std::test::Fail;

#[test]
fn prints_a_number(rt: HostRuntime) -> Result<(), Fail> {
    let alloc = rt.alloc();
    let mut sink = MemSink::new(alloc, 100, Vec::new(alloc))?;
    let marks = Marks::none(alloc);
    let engine = &mut NoExtents;
    let program = printing(alloc)?;
    let outcome = drive(&rt, alloc, &program, &marks, 1_000, engine, &mut sink);
    let_go(program);
    let outcome = outcome?;
    assert!(rt; matches!(&outcome, Outcome::Done { steps: 0, .. }));
    assert!(rt; sink.bytes() == b"7\n".as_slice());
    Ok(())
}

/// A program whose `main` prints 7.
fn printing(alloc: Global) -> Result<Program, AllocError>
    ensures { IfOk result (λ program. ProgramTyped (program_view program)) }
{
    let mut stmts = Vec::new(alloc);
    stmts.push(Stmt {
        line: 1,
        kind: StmtForm::Print(Expr::Number(7)),
    })?;
    Ok(Program {
        classes: Vec::new(alloc),
        ops: Vec::new(alloc),
        functions: Vec::new(alloc),
        main: Body {
            locals: Vec::new(alloc),
            stmts,
        },
    })
}
