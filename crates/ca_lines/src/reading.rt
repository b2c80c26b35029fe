//! The lines of a schedule's text.

ghost use Rattle.std.specs.Prelude.{◌≡◌, ◌≤◌, length, IfOk, IfErr};
ghost use Rattle.ca_program.specs.View.{program_view};
ghost use Rattle.ca_trace.specs.Texts.{HasHeader, ReadsAs};
ghost use Rattle.ca_lines.specs.Named.{NamesGood};
ghost use Rattle.ca_lines.specs.Reads.{Bad};

use crate::lines::line_of;
use crate::names::Names;
use crate::pieces::{behind, split_at};
use ca_program::Program;
use ca_trace::Line;
use std::alloc::{AllocError, Global};

/// Why a text gives no lines.
#[derive(Clone, Copy, PartialEq, Eq, Debug)]
pub enum TraceError {
    /// The line of this number, counted from 1, is the first ill-formed one.
    BadLine(u32),
    Memory,
}

/// The lines of a schedule's text, from the second on.
pub fn read_lines(alloc: Global, program: &Program, text: &[u8]) -> Result<Vec<Line>, TraceError>
    requires header { HasHeader text.now }
    requires short { length text.now ≤ 67108864 }
    requires names { NamesGood (program_view program.now) }
    ensures read { IfOk result (λ lines. ReadsAs (program_view program.now) text.now lines.items) }
    ensures bad { IfErr result (λ e. Bad (program_view program.now) text.now e) }
{
    let Some(first) = behind(text, b"/*schedule\n") else {
        return Err(TraceError::BadLine(1));
    };
    // More operations than a number of 32 bits can name would take all memory that there is.
    if program.ops.len() > u32::MAX as usize {
        return Err(TraceError::Memory);
    }
    let Ok(names) = Names::of(alloc, program) else {
        return Err(TraceError::Memory);
    };
    let Ok(mut lines) = Vec::with_capacity(alloc, feeds(first)) else {
        return Err(TraceError::Memory);
    };
    let mut place: usize = 0;
    'lines: while place < first.len() {
        let Some((words, _)) = split_at(&first[place..], b'\n') else {
            return Err(TraceError::BadLine(lines.len() as u32 + 2));
        };
        let Ok(read) = line_of(alloc, program, &names, words) else {
            return Err(TraceError::Memory);
        };
        let Some(line) = read else {
            return Err(TraceError::BadLine(lines.len() as u32 + 2));
        };
        let Ok(_) = lines.push(line) else {
            return Err(TraceError::Memory);
        };
        place += words.len() + 1;
    }
    Ok(lines)
}

/// As many line feeds as there are: the room for all lines is taken at once.
fn feeds(bytes: &[u8]) -> usize {
    let mut count: usize = 0;
    let mut n: usize = 0;
    'bytes: while n < bytes.len() {
        if bytes[n] == b'\n' {
            count += 1;
        }
        n += 1;
    }
    count
}
