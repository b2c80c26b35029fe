//! Verdicts on pairs that were judged where both operations can be executed, each once.

ghost use Rattle.std.specs.Prelude.{◌≡◌, ◌<◌, length, Some, slice_set, Contains, IfOk, OnOk, IfSome, IsTrue};
ghost use Rattle.ca_program.specs.Plain.{PlainProgram};
ghost use Rattle.ca_program.specs.View.{program_view};
ghost use Rattle.ca_plan.specs.clauses.Keeping.{AllFit, Fits, IsOn};

use crate::plans::PairVerdict;
use ca_base::Memory;
use ca_program::{OpId, Program};
use ca_verdicts::verdict_where_executable;
use std::alloc::{AllocError, Global};

/// Of the pairs of so many operations verdicts are kept: the language allows no more.
const MOST_OPERATIONS: usize = 256;

/// Verdicts on pairs of a program's operations, each at the place of its pair. Nothing rests on which place that is, since
/// each carries its own pair.
#[derive(Drop)]
pub(crate) struct Known {
    width: usize,
    slots: Vec<Option<PairVerdict>>,
}

/// So many empty slots.
fn empty(alloc: Global, count: usize) -> Result<Vec<Option<PairVerdict>>, AllocError>
    ensures { IfOk result (λ slots. (p : PlainProgram) → AllFit p slots.items) }
{
    let mut slots = Vec::with_capacity(alloc, count)?;
    'places: for _place in 0..count {
        slots.push(None)?;
    }
    Ok(slots)
}

/// What is kept at a place.
fn kept_at(slots: &[Option<PairVerdict>], place: usize) -> Option<&PairVerdict>
    ensures { IfSome result (λ v. Contains slots.now (Some v.now)) }
{
    if place >= slots.len() {
        return None;
    }
    match &slots[place] {
        Some(pair) => Some(pair),
        None => None,
    }
}

/// Puts a verdict at a place, if there is such a place.
fn put_at(slots: &mut Vec<Option<PairVerdict>>, place: usize, pair: PairVerdict)
    ensures { slots.new.items ≡ slice_set slots.old.items place (Some pair) }
{
    if place < slots.len() {
        slots[place] = Some(pair);
    }
}

/// Whether a verdict is on these two.
fn is_on(pair: &PairVerdict, a: OpId, b: OpId) -> bool
    ensures { IsTrue result → IsOn a b pair.now }
{
    if pair.first().0 != a.0 {
        return false;
    }
    pair.second().0 == b.0
}

/// The verdict on two operations in each extent in which both can be executed.
fn judged(alloc: Global, program: &Program, a: OpId, b: OpId) -> Result<PairVerdict, Memory>
    requires first { a.0 < length program.now.ops.items }
    requires second { b.0 < length program.now.ops.items }
    ensures pair { IfOk result (IsOn a b) }
    ensures fits { IfOk result (Fits (program_view program.now)) }
{
    let verdict = verdict_where_executable(alloc, program, a, b)?;
    let pair = PairVerdict::of(alloc, a, b, verdict)?;
    Ok(pair)
}

impl Known {
    /// None yet.
    pub fn new(alloc: Global, program: &Program) -> Result<Known, Memory>
        ensures { IfOk result (λ known. (p : PlainProgram) → AllFit p known.slots.items) }
    {
        let count = program.ops.len();
        let width = if count > MOST_OPERATIONS { 0 } else { count };
        let slots = empty(alloc, width.wrapping_mul(width))?;
        Ok(Known { width, slots })
    }

    /// The place of two operations.
    fn place_of(&self, a: OpId, b: OpId) -> usize {
        (a.0 as usize)
            .wrapping_mul(self.width)
            .wrapping_add(b.0 as usize)
    }

    /// The one on these two, if it is kept.
    fn find(&self, a: OpId, b: OpId) -> Result<Option<PairVerdict>, AllocError>
        ensures pair { IfOk result (λ found. IfSome found (IsOn a b)) }
        ensures kept { IfOk result (λ found. IfSome found (λ v. Contains self.now.slots.items (Some v))) }
    {
        let place = self.place_of(a, b);
        let Some(kept) = kept_at(self.slots.as_slice(), place) else {
            return Ok(None);
        };
        if !is_on(kept, a, b) {
            return Ok(None);
        }
        let pair = kept.share()?;
        Ok(Some(pair))
    }

    /// Keeps one.
    fn keep(&mut self, pair: PairVerdict)
        ensures { (p : PlainProgram) → AllFit p self.old.slots.items → Fits p pair → AllFit p self.new.slots.items }
    {
        let place = self.place_of(pair.first(), pair.second());
        put_at(&mut self.slots, place, pair);
    }

    /// The verdict on two operations in each extent in which both can be executed. Each pair is judged once.
    pub fn verdict(
        &mut self,
        alloc: Global,
        program: &Program,
        a: OpId,
        b: OpId,
    ) -> Result<PairVerdict, Memory>
        requires first { a.0 < length program.now.ops.items }
        requires second { b.0 < length program.now.ops.items }
        requires known { AllFit (program_view program.now) self.old.slots.items }
        ensures pair { IfOk result (IsOn a b) }
        ensures fits { IfOk result (Fits (program_view program.now)) }
        ensures known { OnOk result (AllFit (program_view program.now) self.new.slots.items) }
    {
        let found = self.find(a, b)?;
        match found {
            Some(pair) => Ok(pair),
            None => {
                let pair = judged(alloc, program, a, b)?;
                let shared = pair.share()?;
                self.keep(shared);
                Ok(pair)
            }
        }
    }
}
