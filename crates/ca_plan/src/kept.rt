//! The extents that were judged, each once.

ghost use Rattle.std.specs.Prelude.{◌≡◌, Contains, IfOk, OnOk, IfSome, IsTrue};
ghost use Rattle.ca_program.specs.Plain.{PlainProgram};
ghost use Rattle.ca_program.specs.View.{program_view};
ghost use Rattle.ca_parallel.specs.ExtentsOf.{ExtentOf};
ghost use Rattle.ca_plan.specs.clauses.Keeping.{AreKept};
ghost use Rattle.ca_plan.specs.Told.{WhollyTold, shared};

use crate::known::Known;
use crate::pairs::pairs_of;
use crate::plans::Judged;
use ca_base::Memory;
use ca_extent::{Extent, extent_of};
use ca_program::{OpId, Program};
use std::alloc::{AllocError, Global};
use std::rc::Rc;

/// Extents with their verdicts, each shared where it comes again, and the verdicts that hold in further extents too.
#[derive(Drop)]
pub(crate) struct Kept {
    all: Vec<Rc<Judged>>,
    known: Known,
}

/// Whether these are the same operations.
fn same_ops(a: &[OpId], b: &[OpId]) -> bool
    ensures { IsTrue result → a.now ≡ b.now }
{
    if a.len() != b.len() {
        return false;
    }
    for i in 0..a.len() {
        if a[i].0 != b[i].0 {
            return false;
        }
    }
    true
}

impl Kept {
    /// None.
    pub fn new(alloc: Global, program: &Program) -> Result<Kept, Memory>
        ensures { IfOk result (AreKept (program_view program.now)) }
    {
        let known = Known::new(alloc, program)?;
        let all = Vec::new(alloc);
        Ok(Kept { all, known })
    }

    /// The one with the operations of this extent, if there is one: it is the same extent.
    fn find(&self, extent: &Extent) -> Result<Option<Rc<Judged>>, AllocError>
        ensures extent { IfOk result (λ found. IfSome found (λ j. j.value.extent.ops ≡ extent.now.ops)) }
        ensures kept { IfOk result (λ found. IfSome found (λ j. Contains (shared self.now.all.items) j.value)) }
    {
        for j in &self.all {
            if same_ops(j.extent().ops(), extent.ops()) {
                let shared = j.clone()?;
                return Ok(Some(shared));
            }
        }
        Ok(None)
    }

    /// Keeps one more.
    fn keep(&mut self, alloc: Global, judged: Judged) -> Result<Rc<Judged>, AllocError>
        ensures result { IfOk result (λ j. j.value ≡ judged) }
        ensures kept { OnOk result ((p : PlainProgram) → AreKept p self.old → WhollyTold p judged → AreKept p self.new) }
    {
        let judged = Rc::new(alloc, judged)?;
        let shared = judged.clone()?;
        self.all.push(shared)?;
        Ok(judged)
    }

    /// The extent of the roots, with its verdicts.
    pub fn judged(
        &mut self,
        alloc: Global,
        program: &Program,
        roots: &[OpId],
    ) -> Result<Rc<Judged>, Memory>
        requires { AreKept (program_view program.now) self.old }
        ensures extent { IfOk result (λ j. ExtentOf (program_view program.now) roots.now j.value.extent) }
        ensures told { IfOk result (λ j. WhollyTold (program_view program.now) j.value) }
        ensures kept { OnOk result (AreKept (program_view program.now) self.new) }
    {
        let extent = extent_of(alloc, program, roots)?;
        let found = self.find(&extent)?;
        match found {
            Some(judged) => Ok(judged),
            None => {
                let pairs = pairs_of(alloc, program, &extent, &mut self.known)?;
                Ok(self.keep(alloc, Judged { extent, pairs })?)
            }
        }
    }
}
