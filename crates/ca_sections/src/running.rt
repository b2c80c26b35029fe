//! Runs the body of a section to its end.

ghost use Rattle.std.specs.Prelude.{◌≡◌, ◌<◌, IfSome, length, map, slice_get};
ghost use Rattle.ca_code.specs.Codes.{code_seen};
ghost use Rattle.ca_undo.specs.Olds.{AllThere};
ghost use Rattle.ca_selection.specs.Ops.{Runs};
ghost use Rattle.ca_steps.specs.Stands.{back_seen, here_state};
ghost use Rattle.ca_steps.specs.Handed.{IsFirst};
ghost use Rattle.ca_sections.specs.Running.{Came, IsEnd, StandsWith, lasting, line_of_row, section_at};

use crate::access::InSection;
use crate::stop::{Stop, trapped};
use ca_code::Row;
use ca_steps::{Frames, Halt, Laid, row_at, run_from};

/// What came of a body, and the steps that are left.
#[derive(Clone, Copy)]
pub struct Ran {
    pub ended: Result<(), Stop>,
    pub left: u64,
}

/// The line of the row at a place.
fn line_at(rows: &[Row<'_>], at: usize) -> Option<u32>
    ensures { IfSome result (λ line. line ≡ line_of_row (slice_get rows.now at)) }
{
    match row_at(rows, at) {
        Some(row) => Some(row.line),
        None => None,
    }
}

/// What came of a body that stopped at a place.
#[inline(always)]
fn ended_as(halt: Halt, rows: &[Row<'_>], at: usize) -> Result<(), Stop>
    ensures { IsEnd rows.now at halt result }
{
    match halt {
        Halt::Ends => Ok(()),
        Halt::Spends => Err(Stop::Spent),
        Halt::Traps(kind) => match line_at(rows, at) {
            Some(line) => Err(trapped(line, kind)),
            None => Err(Stop::Memory),
        },
        Halt::Leaves => Err(Stop::Memory),
        Halt::Fails => Err(Stop::Memory),
        Halt::Memory => Err(Stop::Memory),
    }
}

/// Runs a body that begins at a place, on the object of a number, with so many steps.
#[inline(always)]
pub(crate) fn run(
    laid: &Laid<'_>,
    access: &mut InSection<'_>,
    frames: &mut Frames,
    at: u32,
    left: u64,
    number: u32,
) -> Ran
    requires laid { Runs (code_seen laid.now.code) laid.now.code.rows.items laid.now.ops.items }
    requires within { at < length laid.now.ops.items }
    requires first { IsFirst frames.old }
    requires fits { StandsWith access.old (map back_seen frames.old.below) }
    ensures came { Came access.old.frozen.now (code_seen laid.now.code) (here_state (record { at = at; base = 0; left = left }) number frames.old.below frames.old.slots.items (section_at access.old)) result frames.new (section_at access.new) }
    ensures lasts { lasting access.new ≡ lasting access.old }
    ensures there { AllThere access.new.olds.now access.new.slots.now }
    ensures base { frames.new.base ≡ frames.old.base }
{
    let halt = run_from(access, laid, frames, at, left, number);
    let ended = ended_as(halt, laid.code.rows.as_slice(), frames.at);
    Ran {
        ended,
        left: frames.left,
    }
}
