//! The work list: which methods are reached by calls.

ghost use Rattle.std.specs.Prelude.{◌≡◌, ◌<◌, IfOk, length, map, slice_get};
ghost use Rattle.ca_program.specs.View.{method_view, statements_view};
ghost use Rattle.ca_meaning.specs.Functions.{body_of};
ghost use Rattle.ca_extent.specs.clauses.Reached.{IsReached, Turn, calls_at};

use crate::numbers::{Callees, add_all_numbers};
use crate::rising::rise;
use ca_base::Memory;
use ca_program::{Method, Stmt};
use std::alloc::Global;

/// The statements of the method of this number; none where there is no such method.
pub(crate) fn body_at(methods: &[Method], n: u32) -> &[Stmt]
    ensures { statements_view result.now ≡ body_of (slice_get (map method_view methods.now) n) }
{
    if (n as usize) < methods.len() {
        methods[n as usize].body.stmts.as_slice()
    } else {
        &[]
    }
}

/// Looks at the number at a place: where it has no mark it gets one, and what its body calls is met.
fn look(
    callees: Callees,
    methods: &[Method],
    place: usize,
    marks: &mut Vec<bool>,
    met: &mut Vec<u32>,
) -> Result<(), Memory>
    requires { place < length met.old.items }
    ensures { IfOk result (λ _. Turn (calls_at callees (map method_view methods.now)) place marks.old.items met.old.items marks.new.items met.new.items) }
{
    let number = met[place];
    let at = number as usize;
    if at >= marks.len() {
        return Ok(());
    }
    if marks[at] {
        return Ok(());
    }
    marks[at] = true;
    add_all_numbers(callees, body_at(methods, number), met)?;
    Ok(())
}

/// The numbers that are reached from the roots through the bodies of these methods. Each body is read once.
pub(crate) fn reached(
    alloc: Global,
    callees: Callees,
    methods: &[Method],
    roots: Vec<u32>,
) -> Result<Vec<u32>, Memory>
    ensures { IfOk result (λ xs. IsReached (calls_at callees (map method_view methods.now)) roots.items xs.items) }
{
    let mut met = roots;
    let mut marks = vec![in alloc; false; methods.len()]?;
    let mut done = 0;
    while done < met.len() {
        look(callees, methods, done, &mut marks, &mut met)?;
        done += 1;
    }
    rise(&mut met);
    Ok(met)
}
