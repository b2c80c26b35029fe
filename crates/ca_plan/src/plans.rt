//! What a plan says.

ghost use Rattle.std.specs.Prelude.{◌≡◌, IfOk};
ghost use Rattle.ca_plan.specs.Told.{shared};

use ca_extent::Extent;
use ca_parallel::Marks;
use ca_program::{LoopId, OpId};
use ca_verdicts::Verdict;
use std::alloc::{AllocError, Global};
use std::marker::Model;
use std::rc::Rc;

/// Two operations of one class in an extent, of which the first doesn't come behind the second, and the verdict on them,
/// which is one value in memory for all extents that hold both.
#[derive(Drop)]
pub struct PairVerdict {
    pub(crate) a: OpId,
    pub(crate) b: OpId,
    pub(crate) verdict: Rc<Verdict>,
}

impl Model for PairVerdict {
    ghost use Rattle.ca_plan.specs.Plans.{PairVerdict as PlainPair};

    ghost Value = { PlainPair };

    ghost use Rattle.ca_plan.specs.Codes.{coded_pair};

    ghost coded = { coded_pair };

    ghost view = { λ v. record { a = v.a; b = v.b; verdict = v.verdict.value } };
}

impl PairVerdict {
    /// A verdict on two operations.
    pub(crate) fn of(
        alloc: Global,
        a: OpId,
        b: OpId,
        verdict: Verdict,
    ) -> Result<PairVerdict, AllocError>
        ensures { IfOk result (λ v. v ≡ record { a = a; b = b; verdict = verdict }) }
    {
        let verdict = Rc::new(alloc, verdict)?;
        Ok(PairVerdict { a, b, verdict })
    }

    /// The first of the two.
    pub fn first(&self) -> OpId
        ensures { result ≡ self.now.a }
    {
        self.a
    }

    /// The second of the two.
    pub fn second(&self) -> OpId
        ensures { result ≡ self.now.b }
    {
        self.b
    }

    /// The verdict on them.
    pub fn verdict(&self) -> &Verdict
        ensures { result.now ≡ self.now.verdict }
    {
        &self.verdict
    }

    /// The same verdict on other two.
    pub(crate) fn on(&self, a: OpId, b: OpId) -> Result<PairVerdict, AllocError>
        ensures { IfOk result (λ v. v ≡ record { a = a; b = b; verdict = self.now.verdict }) }
    {
        let verdict = self.verdict.clone()?;
        Ok(PairVerdict { a, b, verdict })
    }

    /// The same once more.
    pub fn share(&self) -> Result<PairVerdict, AllocError>
        ensures { IfOk result (λ v. v ≡ self.now) }
    {
        let verdict = self.verdict.clone()?;
        Ok(PairVerdict {
            a: self.a,
            b: self.b,
            verdict,
        })
    }
}

/// An extent, with a verdict on each of its pairs.
#[derive(Drop)]
pub struct Judged {
    pub(crate) extent: Extent,
    pub(crate) pairs: Vec<PairVerdict>,
}

impl Model for Judged {
    ghost use Rattle.ca_plan.specs.Plans.{Judged as PlainJudged};

    ghost Value = { PlainJudged };

    ghost use Rattle.ca_plan.specs.Codes.{coded_judged};

    ghost coded = { coded_judged };

    ghost view = { λ j. record { extent = j.extent; pairs = j.pairs.items } };
}

impl Judged {
    /// The extent.
    pub fn extent(&self) -> &Extent
        ensures { result.now ≡ self.now.extent }
    {
        &self.extent
    }

    /// The verdicts on its pairs, by the first of the two and then by the second.
    pub fn pairs(&self) -> &[PairVerdict]
        ensures { result.now ≡ self.now.pairs }
    {
        self.pairs.as_slice()
    }
}

/// A loop of calls by its number and its line, with the extent of its calls.
#[derive(Drop)]
pub struct JudgedLoop {
    pub(crate) site: LoopId,
    pub(crate) line: u32,
    pub(crate) judged: Rc<Judged>,
}

impl Model for JudgedLoop {
    ghost use Rattle.ca_plan.specs.Plans.{JudgedLoop as PlainLoop};

    ghost Value = { PlainLoop };

    ghost use Rattle.ca_plan.specs.Codes.{coded_judged_loop};

    ghost coded = { coded_judged_loop };

    ghost view = { λ l. record { site = l.site; line = l.line; judged = l.judged.value } };
}

impl JudgedLoop {
    /// Its number.
    pub fn site(&self) -> LoopId
        ensures { result ≡ self.now.site }
    {
        self.site
    }

    /// Its line.
    pub fn line(&self) -> u32
        ensures { result ≡ self.now.line }
    {
        self.line
    }

    /// The extent of its calls.
    pub fn judged(&self) -> &Judged
        ensures { result.now ≡ self.now.judged }
    {
        &self.judged
    }
}

/// The plan of a program: for each operation and for each loop of calls the extent with its verdicts, and the marks on
/// those whose calls may run in any order. Equal extents are one value in memory.
#[derive(Drop)]
pub struct Plan {
    pub(crate) marks: Marks,
    pub(crate) ops: Vec<Rc<Judged>>,
    pub(crate) loops: Vec<JudgedLoop>,
}

impl Model for Plan {
    ghost use Rattle.std.specs.Prelude.{map};
    ghost use Rattle.ca_plan.specs.Plans.{PlainPlan};

    ghost Value = { PlainPlan };

    ghost use Rattle.ca_plan.specs.Codes.{coded_plan};

    ghost coded = { coded_plan };

    ghost view = { λ p. record { marks = p.marks; ops = map (λ j. j.value) p.ops.items; loops = p.loops.items } };
}

impl Plan {
    /// The marked operations.
    pub fn marked_ops(&self) -> &[OpId]
        ensures { result.now ≡ self.now.marks.ops }
    {
        self.marks.ops.as_slice()
    }

    /// The marked loops.
    pub fn marked_loops(&self) -> &[LoopId]
        ensures { result.now ≡ self.now.marks.loops }
    {
        self.marks.loops.as_slice()
    }

    /// The extents of the operations, in order.
    pub fn ops(&self) -> &[Rc<Judged>]
        ensures { shared result.now ≡ self.now.ops }
    {
        self.ops.as_slice()
    }

    /// The loops of calls, in the order of the text.
    pub fn loops(&self) -> &[JudgedLoop]
        ensures { result.now ≡ self.now.loops }
    {
        self.loops.as_slice()
    }

    /// The marks.
    pub fn marks(&self) -> &Marks
        ensures { result.now ≡ self.now.marks }
    {
        &self.marks
    }
}

/// Lets a plan go. Who calls it drops no plan of its own, so that nothing is proved once more of what a plan holds.
#[inline(never)]
pub fn let_go(_plan: Plan) {}
