//! A program with its code, by which sections run.

ghost use Rattle.std.specs.Prelude.{◌≡◌, true, IfNone, IfOk, IfSome, Some, slice_get};
ghost use Rattle.ca_program.specs.Plain.{PlainMethod};
ghost use Rattle.ca_program.specs.View.{program_view};
ghost use Rattle.ca_meaning.specs.ProgramTyped.{ProgramTyped};
ghost use Rattle.ca_code.specs.Codes.{code_seen};
ghost use Rattle.ca_code_laws.specs.Fitting.{FitsMethod, FunctionsFit};
ghost use Rattle.ca_code_laws.specs.Told.{IsLaidOut};
ghost use Rattle.ca_sections.specs.Fitting.{Starts};
ghost use Rattle.ca_selection.specs.Ops.{Runs};

use crate::fits::{NONE, places_of};
use ca_program::{OpId, Program};
use ca_steps::Laid;
use std::alloc::{AllocError, Global};
use std::marker::Model;

/// A code that is run, and the place in it where a body begins.
#[derive(Clone, Copy)]
pub struct Start<'a> {
    pub laid: &'a Laid<'a>,
    pub place: u32,
}

/// The place of an operation, if it is there.
#[inline(always)]
fn place_of(places: &[u32], index: u32) -> Option<u32>
    ensures { result ≡ slice_get places.now index }
{
    places.get(index as usize).copied()
}

/// A checked program and its code. Contracts see the program.
#[derive(Drop)]
pub struct Coded<'a> {
    pub(crate) program: &'a Program,
    pub(crate) laid: &'a Laid<'a>,
    /// Where the body of each operation begins that sections run; of others `NONE`.
    pub(crate) places: Vec<u32>,
}

impl<'a> Model for Coded<'a> {
    ghost use Rattle.std.specs.Coded.{codes};
    ghost use Rattle.ca_program.specs.contracts.program.Stmt as stmt;
    ghost use Rattle.ca_program.specs.declared.program.Program.{Program};
    ghost use Rattle.ca_sections.specs.Fitting.{IsCoded};

    ghost Value = { Program };

    ghost coded = { Prim.hlevel (codes, stmt.the_row.coded) };

    ghost view = { λ s. s.program.now };

    ghost invariant = { λ s. IsCoded s.program.now s.laid.now s.places.items };
}

impl<'a> Coded<'a> {
    /// A checked program with this code.
    pub fn of(
        alloc: Global,
        program: &'a Program,
        laid: &'a Laid<'a>,
    ) -> Result<Coded<'a>, AllocError>
        requires typed { ProgramTyped (program_view program.now) }
        requires laid { IsLaidOut (program_view program.now) (code_seen laid.now.code) }
        requires runs { Runs (code_seen laid.now.code) laid.now.code.rows.items laid.now.ops.items }
        ensures { IfOk result (λ c. c ≡ program.now) }
    {
        let places = places_of(alloc, program, laid.code.ops.as_slice())?;
        Ok(Coded {
            program,
            laid,
            places,
        })
    }

    /// The program.
    pub fn program(&self) -> &'a Program
        ensures { result.now ≡ self.now }
    {
        self.program
    }

    /// The body of an operation, if it fits; each separable operation has one that does.
    #[inline(always)]
    pub fn body(&self, op: OpId) -> Option<Start<'a>>
        ensures some { IfSome result (λ s. Starts (program_view self.now) op s.laid.now s.place) }
        ensures none { IfNone result ((m : PlainMethod) → slice_get (program_view self.now).ops op.0 ≡ Some m → FitsMethod (program_view self.now) true m → ⊥) }
    {
        match place_of(self.places.as_slice(), op.0) {
            Some(place) => {
                if place == NONE {
                    return None;
                }
                Some(Start {
                    laid: self.laid,
                    place,
                })
            }
            None => None,
        }
    }

    /// The program, each of whose value methods has a body that fits.
    #[inline(always)]
    pub(crate) fn fitting(&self) -> &'a Program
        ensures { FunctionsFit (program_view self.now) }
    {
        self.program
    }
}
