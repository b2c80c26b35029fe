//! A program whose objects count: `add` counts one, `twice` counts one and calls `add` on its own object, and `two` only calls `add`,
//! two times, so it takes no lock.

ghost use Rattle.std.specs.Prelude.{◌≡◌, [], IfOk};
ghost use Rattle.ca_program.specs.Plain.{this, no_expressions, invoke, no_statements, statement_and};
ghost use Rattle.ca_program.specs.View.{class_view, method_view, program_view, statement_view, statements_view};
ghost use Rattle.ca_counters.specs.Counters.{add, calls_add, counter_class, counters, counts, counts_one, method, operation, starts, twice};

use ca_logs::Task;
use ca_model::Heap;
use ca_parallel::{Arguments, Op};
use ca_program::{
    Body, Class, ClassId, Expr, FieldId, FieldInfo, Method, OpId, Program, Stmt, StmtForm,
    ValueType,
};
use ca_tree::{AssignOp, Name};
use std::alloc::{AllocError, Global};
use std::test::Fail;

/// The statement that counts.
fn count() -> Stmt
    ensures { statement_view result ≡ counts_one }
{
    Stmt {
        line: 1,
        kind: StmtForm::PutField(
            FieldId {
                class: ClassId(0),
                field: 0,
            },
            AssignOp::Add,
            Expr::Number(1),
        ),
    }
}

/// An operation without parameters.
fn operation_of(alloc: Global, name: Name, stmts: Vec<Stmt>) -> Method
    requires { name ≡ [] }
    ensures { method_view result ≡ method (statements_view stmts.items) }
{
    Method {
        class: ClassId(0),
        name,
        params: 0,
        body: Body {
            locals: Vec::new(alloc),
            stmts,
        },
        result: None,
    }
}

/// `void add() { n += 1; }`
fn adding(alloc: Global) -> Result<Method, AllocError>
    ensures { IfOk result (λ m. method_view m ≡ method (counts no_statements)) }
{
    let name = Name::new(alloc, &[])?;
    let mut stmts = Vec::new(alloc);
    stmts.push(count())?;
    Ok(operation_of(alloc, name, stmts))
}

/// The statement that calls `add` on the object itself.
fn call_add(alloc: Global) -> Stmt
    ensures { statement_view result ≡ invoke 1 this add no_expressions }
{
    Stmt {
        line: 1,
        kind: StmtForm::Invoke(Expr::This, OpId(0), Vec::new(alloc)),
    }
}

/// `void twice() { n += 1; this->add(); }`
fn counting_twice(alloc: Global) -> Result<Method, AllocError>
    ensures { IfOk result (λ m. method_view m ≡ method (counts (calls_add no_statements))) }
{
    let name = Name::new(alloc, &[])?;
    let mut stmts = Vec::new(alloc);
    stmts.push(count())?;
    stmts.push(call_add(alloc))?;
    Ok(operation_of(alloc, name, stmts))
}

/// `void two() { this->add(); this->add(); }`
fn calling_twice(alloc: Global) -> Result<Method, AllocError>
    ensures { IfOk result (λ m. method_view m ≡ method (calls_add (calls_add no_statements))) }
{
    let name = Name::new(alloc, &[])?;
    let mut stmts = Vec::new(alloc);
    stmts.push(call_add(alloc))?;
    stmts.push(call_add(alloc))?;
    Ok(operation_of(alloc, name, stmts))
}

/// The class of the objects.
fn class(alloc: Global) -> Result<Class, AllocError>
    ensures { IfOk result (λ class. class_view class ≡ counter_class) }
{
    let name = Name::new(alloc, &[])?;
    let mut fields = Vec::new(alloc);
    fields.push(FieldInfo {
        name: Name::new(alloc, &[])?,
        ty: ValueType::Long,
        length: None,
    })?;
    Ok(Class { name, fields })
}

/// The program.
pub fn program(alloc: Global) -> Result<Program, AllocError>
    ensures { IfOk result (λ program. program_view program ≡ counters) }
{
    let mut classes = Vec::new(alloc);
    classes.push(class(alloc)?)?;
    let mut ops = Vec::new(alloc);
    ops.push(adding(alloc)?)?;
    ops.push(counting_twice(alloc)?)?;
    ops.push(calling_twice(alloc)?)?;
    Ok(Program {
        classes,
        ops,
        functions: Vec::new(alloc),
        main: Body {
            locals: Vec::new(alloc),
            stmts: Vec::new(alloc),
        },
    })
}

/// A heap of so many objects that have counted nothing.
pub fn heap(alloc: Global, program: &Program, count: u32) -> Result<Heap, Fail>
    requires { program_view program.now ≡ counters }
    ensures { IfOk result (λ heap. heap ≡ starts count) }
{
    let mut heap = Heap::new(alloc);
    let mut made = 0;
    while made < count {
        match heap.create(program, ClassId(0)) {
            Ok(_) => made += 1,
            Err(_) => return Err(Fail::new("no object")),
        }
    }
    Ok(heap)
}

/// How many operations there are.
pub const OPERATIONS: u32 = 3;

/// The task that calls the operation of this number on an object.
pub fn task_of(alloc: Global, op: u32, object: u32) -> Task
    ensures { result ≡ record { op = record { receiver = object; op = operation op; args = [] }; after = 0 } }
{
    Task {
        op: Op {
            receiver: object,
            op: OpId(op),
            args: Arguments::new(alloc),
        },
        after: 0,
    }
}

/// The task that counts twice on an object.
pub fn twice(alloc: Global, object: u32) -> Task
    ensures { result ≡ record { op = record { receiver = object; op = twice; args = [] }; after = 0 } }
{
    Task {
        op: Op {
            receiver: object,
            op: OpId(1),
            args: Arguments::new(alloc),
        },
        after: 0,
    }
}

/// Lets a value go, by one call.
pub fn let_go<T: Drop>(_value: T) {}
