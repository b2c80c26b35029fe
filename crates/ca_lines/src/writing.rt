//! The text of lines.

ghost use Rattle.std.specs.Prelude.{◌≡◌, ◌++◌, ◌<◌, codes, decimal, length, All, Some, IfOk};
ghost use Rattle.std.specs.Fmt.{signed_decimal};
ghost use Rattle.ca_program.specs.View.{program_view, method_view};
ghost use Rattle.ca_model.specs.Texts.{value_text, further_values_text, values_text};
ghost use Rattle.ca_trace.specs.Texts.{kind_word, method_name, call_text, words_of_line, line_text, schedule_text, IsLineOf};

use ca_base::Memory;
use ca_model::{Trap, TrapKind, Value};
use ca_parallel::Op;
use ca_program::{Method, Program};
use ca_trace::Line;
use itoa::Buffer;
use std::alloc::{AllocError, Global};

fn add_number(number: u64, out: &mut Vec<u8>) -> Result<(), AllocError>
    ensures { IfOk result (λ _. out.new.items ≡ out.old.items ++ decimal number) }
{
    out.extend_from_slice(Buffer::new().format(number).as_bytes())
}

fn add_value(value: Value, out: &mut Vec<u8>) -> Result<(), AllocError>
    ensures { IfOk result (λ _. out.new.items ≡ out.old.items ++ value_text value) }
{
    match value {
        Value::Long(number) => out.extend_from_slice(Buffer::new().format(number).as_bytes()),
        Value::Bool(true) => out.extend_from_slice(b"true"),
        Value::Bool(false) => out.extend_from_slice(b"false"),
        Value::Null => out.extend_from_slice(b"null"),
        Value::Ref(id) => {
            out.push(b'#')?;
            add_number(u64::from(id), out)
        }
    }
}

fn add_further(values: &[Value], out: &mut Vec<u8>) -> Result<(), AllocError>
    ensures { IfOk result (λ _. out.new.items ≡ out.old.items ++ further_values_text values.now) }
{
    match values {
        [] => Ok(()),
        [first, more @ ..] => {
            out.push(b',')?;
            add_value(*first, out)?;
            add_further(more, out)
        }
    }
}

fn add_values(values: &[Value], out: &mut Vec<u8>) -> Result<(), AllocError>
    ensures { IfOk result (λ _. out.new.items ≡ out.old.items ++ values_text values.now) }
{
    match values {
        [] => Ok(()),
        [first, more @ ..] => {
            add_value(*first, out)?;
            add_further(more, out)
        }
    }
}

pub(crate) fn add_name(
    program: &Program,
    method: &Method,
    out: &mut Vec<u8>,
) -> Result<(), AllocError>
    ensures { IfOk result (λ _. out.new.items ≡ out.old.items ++ method_name (program_view program.now) (Some (method_view method.now))) }
{
    if let Some(class) = program.classes.get(method.class.0 as usize) {
        out.extend_from_slice(class.name.as_bytes())?;
    }
    out.extend_from_slice(b"::")?;
    out.extend_from_slice(method.name.as_bytes())
}

fn add_call(program: &Program, op: &Op, out: &mut Vec<u8>) -> Result<(), AllocError>
    requires { op.now.op.0 < length program.now.ops.items }
    ensures { IfOk result (λ _. out.new.items ≡ out.old.items ++ call_text (program_view program.now) op.now) }
{
    out.push(b'#')?;
    add_number(u64::from(op.receiver), out)?;
    out.push(b' ')?;
    add_name(program, program.op(op.op), out)?;
    out.push(b'(')?;
    add_values(op.args.as_slice(), out)?;
    out.push(b')')?;
    Ok(())
}

fn word_of(kind: TrapKind) -> &'static [u8]
    ensures { result.now ≡ kind_word kind }
{
    match kind {
        TrapKind::NullPointer => b"NullPointer",
        TrapKind::OutOfRange => b"OutOfRange",
        TrapKind::ZeroDivisor => b"ZeroDivisor",
        TrapKind::HeapFull => b"HeapFull",
    }
}

fn add_trap(trap: Trap, out: &mut Vec<u8>) -> Result<(), AllocError>
    ensures { IfOk result (λ _. out.new.items ≡ out.old.items ++ (codes "trap " ++ (decimal trap.line ++ (codes " " ++ kind_word trap.kind)))) }
{
    out.extend_from_slice(b"trap ")?;
    add_number(u64::from(trap.line), out)?;
    out.push(b' ')?;
    out.extend_from_slice(word_of(trap.kind))
}

fn add_words(program: &Program, line: &Line, out: &mut Vec<u8>) -> Result<(), AllocError>
    requires { IsLineOf (program_view program.now) line.now }
    ensures { IfOk result (λ _. out.new.items ≡ out.old.items ++ words_of_line (program_view program.now) line.now) }
{
    match line {
        Line::Block => out.extend_from_slice(b"block"),
        Line::End => out.extend_from_slice(b"end"),
        Line::Step(op) => add_call(program, op, out),
        Line::Declined => out.extend_from_slice(b"declined"),
        Line::Done(steps) => {
            out.extend_from_slice(b"done ")?;
            add_number(*steps, out)
        }
        Line::Trapped(trap) => add_trap(*trap, out),
        Line::Spent(budget) => {
            out.extend_from_slice(b"spent ")?;
            add_number(*budget, out)
        }
        Line::Close => out.extend_from_slice(b"*/"),
    }
}

/// The text of a schedule of these lines.
pub fn write_lines(alloc: Global, program: &Program, lines: &[Line]) -> Result<Vec<u8>, Memory>
    requires { All (IsLineOf (program_view program.now)) lines.now }
    ensures { IfOk result (λ text. text.items ≡ schedule_text (program_view program.now) lines.now) }
{
    let mut text = Vec::new(alloc);
    text.extend_from_slice(b"/*schedule\n")?;
    let mut n: usize = 0;
    'lines: while n < lines.len() {
        add_words(program, &lines[n], &mut text)?;
        text.push(b'\n')?;
        n += 1;
    }
    Ok(text)
}
