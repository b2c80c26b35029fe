//! The calls and loops that are handed off.

ghost use Rattle.std.specs.Prelude.{◌≡◌, [], true, IfOk};
ghost use Rattle.ca_parallel.specs.Lists.{op_in};
ghost use Rattle.ca_serial.specs.clauses.Marked.{site_in};
ghost use Rattle.ca_serial.specs.clauses.Flags.{FlagsOf};

use ca_parallel::Marks;
use ca_program::{LoopId, OpId};
use std::alloc::{AllocError, Global};
use std::marker::Model;

/// Marks, with a flag for each operation of a program. Where none is marked there are no flags.
#[derive(Drop)]
pub struct Marked<'a> {
    marks: &'a Marks,
    flags: Vec<bool>,
}

impl<'a> Model for Marked<'a> {
    ghost use Rattle.ca_parallel.specs.Lists.{PlainMarks};
    ghost use Rattle.ca_serial.specs.clauses.Flags.{FlagsOf};

    ghost Value = { PlainMarks };

    ghost view = { λ m. m.marks.now };

    ghost invariant = { λ m. FlagsOf m.flags.items m.marks.now.ops };
}

impl<'a> Marked<'a> {
    /// These marks, of a program that has so many operations.
    pub fn new(alloc: Global, marks: &'a Marks, count: usize) -> Result<Marked<'a>, AllocError>
        ensures { IfOk result (λ marked. marked ≡ marks.now) }
    {
        let ops = marks.ops.as_slice();
        let flags = flags_of(alloc, ops, if ops.is_empty() { 0 } else { count })?;
        Ok(Marked { marks, flags })
    }

    /// Whether the operation is one of these.
    #[inline]
    pub fn holds(&self, op: OpId) -> bool
        ensures { result ≡ op_in self.now.ops op }
    {
        let place = op.0 as usize;
        if place < self.flags.len() {
            self.flags[place]
        } else {
            let marks = self.marks;
            is_among(marks.ops.as_slice(), op)
        }
    }

    /// Whether no loop is one of these.
    pub fn has_no_loop(&self) -> bool
        ensures none { result ≡ true → self.now.loops ≡ [] }
        ensures told { self.now.loops ≡ [] → result ≡ true }
    {
        let marks = self.marks;
        marks.loops.as_slice().is_empty()
    }

    /// Whether the loop with this number is one of these.
    pub fn holds_loop(&self, site: LoopId) -> bool
        ensures { result ≡ site_in self.now.loops site }
    {
        let marks = self.marks;
        is_site_among(marks.loops.as_slice(), site)
    }
}

/// A flag for each of the first operations, so many of them: whether it is one of these.
fn flags_of(alloc: Global, ops: &[OpId], count: usize) -> Result<Vec<bool>, AllocError>
    ensures { IfOk result (λ flags. FlagsOf flags.items ops.now) }
{
    let mut flags = vec![in alloc; false; count]?;
    let mut rest = ops;
    while let Some((first, others)) = rest.split_first() {
        let place = first.0 as usize;
        if place < flags.len() {
            flags[place] = true;
        }
        rest = others;
    }
    Ok(flags)
}

/// Whether the operation is one of these. Operations that a program has need no such walk.
fn is_among(ops: &[OpId], op: OpId) -> bool
    ensures { result ≡ op_in ops.now op }
{
    match ops.split_first() {
        Some((first, rest)) => first.0 == op.0 || is_among(rest, op),
        None => false,
    }
}

/// Whether the number is one of these.
fn is_site_among(sites: &[LoopId], site: LoopId) -> bool
    ensures { result ≡ site_in sites.now site }
{
    match sites.split_first() {
        Some((first, rest)) => site.0 == first.0 || is_site_among(rest, site),
        None => false,
    }
}
