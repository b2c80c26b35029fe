//! Lines by their texts.

ghost use Rattle.std.specs.Prelude.{◌≡◌, ◌<◌, ◌++◌, length, codes, decimal, IfOk, MatchOption};
ghost use Rattle.ca_program.specs.View.{program_view};
ghost use Rattle.ca_model.specs.declared.value.Trap.{Trap};
ghost use Rattle.ca_model.specs.declared.value.TrapKind.{TrapKind};
ghost use Rattle.ca_trace.specs.Texts.{kind_word};
ghost use Rattle.ca_lines.specs.Named.{NamesGood, IsWords, NoWords, IsEnd, NoEnd};

use crate::names::Names;
use crate::numbers::number_in;
use crate::operations::call_of;
use crate::pieces::{behind, is, split_at};
use ca_model::{Trap, TrapKind};
use ca_program::Program;
use ca_trace::Line;
use std::alloc::{AllocError, Global};

/// The kind of trap whose word this is.
fn kind_of(word: &[u8]) -> Option<TrapKind>
    ensures { MatchOption result ((k : TrapKind) → kind_word k ≡ word.now → ⊥) (λ k. kind_word k ≡ word.now) }
{
    if is(word, b"NullPointer") {
        return Some(TrapKind::NullPointer);
    }
    if is(word, b"OutOfRange") {
        return Some(TrapKind::OutOfRange);
    }
    if is(word, b"ZeroDivisor") {
        return Some(TrapKind::ZeroDivisor);
    }
    if is(word, b"HeapFull") {
        return Some(TrapKind::HeapFull);
    }
    None
}

/// The trap whose line and word these are.
fn trap_of(text: &[u8]) -> Option<Trap>
    ensures { MatchOption result ((t : Trap) → t.line < 4294967296 → text.now ≡ decimal t.line ++ (codes " " ++ kind_word t.kind) → ⊥) (λ t. (text.now ≡ decimal t.line ++ (codes " " ++ kind_word t.kind)) × (t.line < 4294967296)) }
{
    let Some((digits, word)) = split_at(text, b' ') else {
        return None;
    };
    let Some(line) = number_in(digits, 0, u32::MAX as u64) else {
        return None;
    };
    let Some(kind) = kind_of(word) else {
        return None;
    };
    Some(Trap {
        line: line as u32,
        kind,
    })
}

/// The end of a run that these words tell.
fn end_of(text: &[u8]) -> Option<Line>
    ensures { MatchOption result (NoEnd text.now) (λ l. IsEnd text.now l) }
{
    if let Some(digits) = behind(text, b"done ") {
        return match number_in(digits, 0, u64::MAX) {
            Some(steps) => Some(Line::Done(steps)),
            None => None,
        };
    }
    if let Some(digits) = behind(text, b"spent ") {
        return match number_in(digits, 0, u64::MAX) {
            Some(budget) => Some(Line::Spent(budget)),
            None => None,
        };
    }
    let Some(rest) = behind(text, b"trap ") else {
        return None;
    };
    match trap_of(rest) {
        Some(trap) => Some(Line::Trapped(trap)),
        None => None,
    }
}

/// The line whose text this is, without its line feed.
pub(crate) fn line_of(
    alloc: Global,
    program: &Program,
    names: &Names,
    text: &[u8],
) -> Result<Option<Line>, AllocError>
    requires few { length program.now.ops.items < 4294967296 }
    requires names { NamesGood (program_view program.now) }
    ensures { IfOk result (λ line. MatchOption line (NoWords (program_view program.now) text.now) (λ l. IsWords (program_view program.now) text.now l)) }
{
    if is(text, b"block") {
        return Ok(Some(Line::Block));
    }
    if is(text, b"end") {
        return Ok(Some(Line::End));
    }
    if is(text, b"declined") {
        return Ok(Some(Line::Declined));
    }
    if is(text, b"*/") {
        return Ok(Some(Line::Close));
    }
    if let Some(line) = end_of(text) {
        return Ok(Some(line));
    }
    match call_of(alloc, program, names, text)? {
        Some(op) => Ok(Some(Line::Step(op))),
        None => Ok(None),
    }
}
