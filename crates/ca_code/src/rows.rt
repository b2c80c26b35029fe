//! The rows of a code as far as it is laid out.

ghost use Rattle.std.specs.Prelude.{◌≡◌, ◌≤◌, [], ◌∷◌, ◌++◌, false, true, length, map, IfOk, OnOk, slice_get};
ghost use Rattle.ca_code.specs.Seen.{placed, row_of};
ghost use Rattle.ca_code.specs.Laying.{Adds, Puts, behind, laid};

use crate::ins::{Ins, Row, reach};
use std::alloc::{AllocError, Global};
use std::marker::Model;

/// The most rows that a code has.
const MOST_ROWS: usize = 2_000_000_000;

/// Rows behind each other.
#[derive(Drop)]
pub struct Rows<'a> {
    rows: Vec<Row<'a>>,
    /// Whether there was no memory, or no number, for a row.
    failed: bool,
    /// How many slots the rows name.
    room: u32,
}

impl<'a> Model for Rows<'a> {
    ghost use Rattle.std.specs.Coded.{codes};
    ghost use Rattle.ca_program.specs.contracts.program.Stmt as stmt;
    ghost use Rattle.ca_code.specs.Laying.{Laying};

    ghost Value = { Laying };

    ghost coded = { Prim.hlevel (codes, stmt.the_row.coded) };

    ghost use Rattle.std.specs.Prelude.{◌≤◌, length};

    ghost view = { λ s. record { rows = s.rows.items; failed = s.failed } };

    ghost invariant = { λ s. length s.rows.items ≤ 2000000000 };
}

impl<'a> Rows<'a> {
    /// No rows.
    pub fn new(alloc: Global) -> Rows<'a>
        ensures { result ≡ record { rows = []; failed = false } }
    {
        Rows {
            rows: Vec::new(alloc),
            failed: false,
            room: 0,
        }
    }

    /// Goes on behind rows that are there, which name so many slots; or there are too many of them.
    pub fn behind_these(rows: Vec<Row<'a>>, room: u32) -> Result<Rows<'a>, AllocError>
        ensures { IfOk result (λ r. r ≡ record { rows = rows.entry.items; failed = false }) }
    {
        if rows.len() > MOST_ROWS {
            return Err(AllocError);
        }
        Ok(Rows {
            rows,
            failed: false,
            room,
        })
    }

    /// The row at a place, if there is one.
    #[inline(always)]
    pub fn at(&self, place: usize) -> Option<Row<'a>>
        ensures { result ≡ slice_get self.now.rows place }
    {
        self.rows.get(place).copied()
    }

    /// Adds a row, if there is memory.
    #[inline(always)]
    fn add_row(&mut self, line: u32, ins: Ins<'a>) -> Result<(), AllocError>
        ensures added { IfOk result (λ _. laid self.new ≡ laid self.old ++ row_of line ins.entry ∷ []) }
        ensures failed { self.new.failed ≡ self.old.failed }
    {
        if self.rows.len() >= MOST_ROWS {
            return Err(AllocError);
        }
        self.rows.push(Row { ins, line })?;
        Ok(())
    }

    /// Adds a row, if there is memory, with its slots.
    #[inline(always)]
    fn add(&mut self, line: u32, ins: Ins<'a>) -> Result<(), AllocError>
        ensures added { IfOk result (λ _. laid self.new ≡ laid self.old ++ row_of line ins.entry ∷ []) }
        ensures failed { self.new.failed ≡ self.old.failed }
    {
        self.add_row(line, ins)?;
        self.room = self.room.max(reach(ins));
        Ok(())
    }

    /// Adds a row, or keeps in mind that there was no memory.
    #[inline(always)]
    pub fn push(&mut self, line: u32, ins: Ins<'a>)
        ensures { Adds self.old self.new (row_of line ins.entry ∷ []) }
    {
        if self.add(line, ins).is_err() {
            self.failed = true;
        }
    }

    /// Adds a row that names no slot beyond those of another, or keeps in mind that there was no memory.
    #[inline(always)]
    pub(crate) fn again(&mut self, line: u32, ins: Ins<'a>)
        ensures { Adds self.old self.new (row_of line ins.entry ∷ []) }
    {
        if self.add_row(line, ins).is_err() {
            self.failed = true;
        }
    }

    /// Keeps in mind that there was no number for a slot.
    pub fn fail(&mut self)
        ensures { self.new.failed ≡ true }
    {
        self.failed = true;
    }

    /// The place of the next row.
    pub fn here(&self) -> usize
        ensures value { result ≡ length (laid self.now) }
        ensures few { result ≤ 2000000000 }
    {
        self.rows.len()
    }

    /// How many rows stand behind a place.
    pub fn behind(&self, place: usize) -> u32
        ensures value { result ≡ behind self.now place }
        ensures few { result ≤ 2000000000 }
    {
        self.rows.len().saturating_sub(place).saturating_sub(1) as u32
    }

    /// Puts a row in the place of another.
    pub fn put(&mut self, place: usize, line: u32, ins: Ins<'a>)
        ensures { Puts self.old self.new place (row_of line ins.entry) }
    {
        if place < self.rows.len() {
            self.rows[place] = Row { ins, line };
        } else {
            self.failed = true;
        }
    }

    /// How many slots a frame wants. What a row names that is put anew it named before.
    pub fn room(&self) -> u32 {
        self.room
    }

    /// All rows, if there was memory for them.
    pub fn finish(self) -> Result<Vec<Row<'a>>, AllocError>
        ensures rows { IfOk result (λ rows. map placed rows.items ≡ laid self.entry) }
        ensures failed { OnOk result (self.entry.failed ≡ false) }
    {
        if self.failed {
            return Err(AllocError);
        }
        Ok(self.rows)
    }
}
