//! A text without its marks.
//!
//! `ca_canonical` says what a text without its marks is (`Erased`), and `specs/BadMarks.antt` which comments are refused
//! as marks. `front_of` tells what stands in front, and `erase` goes through the text once.
//!
//! Whoever reads the public clauses must believe `BadMarks` of `specs/`; what stands in `specs/clauses/` serves
//! clauses within the crate alone.
#![tactic(auto)]

mod front;
pub mod laws;

ghost use Rattle.std.specs.Prelude.{◌≡◌, ◌≤◌, length, Err, IfOk};
ghost use Rattle.ca_tree.specs.declared.name.Place.{Place};
ghost use Rattle.ca_canonical.specs.Erased.{Erased};
ghost use Rattle.ca_erase.specs.declared.EraseError.TheVariants.{BadMark, Memory};
ghost use Rattle.ca_erase.specs.BadMarks.{FirstBadMark};

use crate::front::{Front, front_of};
use ca_lex::{LONGEST_TEXT, end_place};
use ca_tree::Place;
use std::alloc::{AllocError, AllocFailed, Global};
use thiserror::Error;

/// Why a text has not been erased.
#[derive(Debug, Drop, Error)]
pub enum EraseError {
    /// The first comment that begins with `/*@` and is no mark stands there.
    #[error("no mark")]
    BadMark(Place),
    /// Out of memory.
    #[error("out of memory")]
    Memory,
}

impl From<AllocError> for EraseError {
    ghost from_gives = { λ _ e. e ≡ Memory };

    fn from(_e: AllocError) -> EraseError {
        EraseError::Memory
    }
}

/// The text without its marks, each left out with one space behind it.
pub fn erase(alloc: Global, text: &[u8]) -> Result<Vec<u8>, EraseError>
    requires { length text.now ≤ LONGEST_TEXT }
    ensures erased { IfOk result (λ out. Erased text.now out.items) }
    ensures bad_mark { (p : Place) → result ≡ Err (BadMark p) → FirstBadMark text.now p }
{
    let mut out = Vec::new(alloc);
    let mut start: usize = 0;
    'fronts: while start < text.len() {
        let rest = &text[start..];
        match front_of(rest) {
            Front::BadMark => return Err(EraseError::BadMark(end_place(&text[..start]))),
            Front::Left(len) => start += len,
            Front::Kept(len) => {
                out.extend_from_slice(&rest[..len])?;
                start += len;
            }
        }
    }
    Ok(out)
}
