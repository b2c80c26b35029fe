//! Calls of operations by their texts.

ghost use Rattle.std.specs.Prelude.{◌≡◌, ◌↔◌, ◌<◌, ◌++◌, codes, length, Some, IsTrue, IfOk, IfSome, MatchOption};
ghost use Rattle.ca_program.specs.View.{program_view, method_view};
ghost use Rattle.ca_trace.specs.Texts.{method_name};
ghost use Rattle.ca_meaning.specs.WellTyped.{parameters_of};
ghost use Rattle.ca_lines.specs.Named.{NamesGood, HasName, NoName, IsCall, NoCall};

use crate::names::Names;
use crate::numbers::number_in;
use crate::pieces::{behind, is, split_at};
use crate::values::add_values;
use ca_parallel::{Arguments, Op};
use ca_program::{Method, OpId, Program, ValueType};
use std::alloc::{AllocError, Global};

/// Whether the operation is called so, with its class in front.
fn is_named(program: &Program, method: &Method, name: &[u8]) -> bool
    ensures { IsTrue result ↔ (method_name (program_view program.now) (Some (method_view method.now)) ≡ name.now) }
{
    match program.classes.get(method.class.0 as usize) {
        Some(class) => follows(name, class.name.as_bytes(), method.name.as_bytes()),
        None => follows(name, b"", method.name.as_bytes()),
    }
}

/// Whether the text is two names with `::` between them.
fn follows(text: &[u8], class: &[u8], method: &[u8]) -> bool
    ensures { IsTrue result ↔ (class.now ++ (codes "::" ++ method.now) ≡ text.now) }
{
    match behind(text, class) {
        Some(rest) => match behind(rest, b"::") {
            Some(last) => is(last, method),
            None => false,
        },
        None => false,
    }
}

/// The operation of this name that the table tells, if it tells one.
fn told_by(program: &Program, names: &Names, name: &[u8]) -> Option<OpId>
    ensures { IfSome result (λ id. HasName (program_view program.now) name.now id.0) }
{
    let n = names.get(name)?;
    if (n as usize) < program.ops.len() {
        let id = OpId(n);
        if is_named(program, program.op(id), name) {
            return Some(id);
        }
    }
    None
}

/// The operation of this name.
fn op_named(program: &Program, names: &Names, name: &[u8]) -> Option<OpId>
    requires few { length program.now.ops.items < 4294967296 }
    ensures { MatchOption result (NoName (program_view program.now) name.now) (λ id. HasName (program_view program.now) name.now id.0) }
{
    match told_by(program, names, name) {
        Some(id) => Some(id),
        None => searched(program, name),
    }
}

/// The operation of this name, looked for among all.
fn searched(program: &Program, name: &[u8]) -> Option<OpId>
    requires few { length program.now.ops.items < 4294967296 }
    ensures { MatchOption result (NoName (program_view program.now) name.now) (λ id. HasName (program_view program.now) name.now id.0) }
{
    let mut n: usize = 0;
    'operations: while n < program.ops.len() {
        let id = OpId(n as u32);
        if is_named(program, program.op(id), name) {
            return Some(id);
        }
        n += 1;
    }
    None
}

/// The types of the operation's parameters.
fn parameters(method: &Method) -> &[ValueType]
    ensures { result.now ≡ parameters_of (method_view method.now) }
{
    let types = method.body.locals.as_slice();
    let count = method.params as usize;
    if count < types.len() {
        &types[..count]
    } else {
        types
    }
}

/// The call whose text this is.
pub(crate) fn call_of(
    alloc: Global,
    program: &Program,
    names: &Names,
    text: &[u8],
) -> Result<Option<Op>, AllocError>
    requires few { length program.now.ops.items < 4294967296 }
    requires names { NamesGood (program_view program.now) }
    ensures { IfOk result (λ call. MatchOption call (NoCall (program_view program.now) text.now) (λ o. IsCall (program_view program.now) text.now o)) }
{
    let Some(behind_sign) = behind(text, b"#") else {
        return Ok(None);
    };
    let Some((digits, call)) = split_at(behind_sign, b' ') else {
        return Ok(None);
    };
    let Some(receiver) = number_in(digits, 0, u32::MAX as u64) else {
        return Ok(None);
    };
    let Some((name, arguments)) = split_at(call, b'(') else {
        return Ok(None);
    };
    let Some(op) = op_named(program, names, name) else {
        return Ok(None);
    };
    let Some((values, end)) = split_at(arguments, b')') else {
        return Ok(None);
    };
    if !end.is_empty() {
        return Ok(None);
    }
    let mut args = Arguments::new(alloc);
    let found = add_values(values, parameters(program.op(op)), &mut args)?;
    if found {
        Ok(Some(Op {
            receiver: receiver as u32,
            op,
            args,
        }))
    } else {
        Ok(None)
    }
}
