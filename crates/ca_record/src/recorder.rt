//! The engine that records.

ghost use Rattle.std.specs.Prelude.{◌≡◌, ◌≤◌, map, true, [], ℕ, List, IfOk, OnOk, OnErr};
ghost use Rattle.ca_trace.specs.declared.line.Line.{Line};
ghost use Rattle.ca_trace.specs.Engines.{Recorded};

use crate::tracer::Tracer;
use ca_base::Memory;
use ca_model::Heap;
use ca_parallel::Op;
use ca_sections::Coded;
use ca_serial::{ExtentAnswer, Extents};
use ca_steps::Mark;
use ca_trace::Line;
use std::alloc::Global;
use std::sync::Wait;
use std::thread::Threads;

/// An engine that keeps the lines of all that a tracer ran.
#[derive(Drop)]
pub struct Recorder<E: Tracer> {
    engine: E,
    lines: Vec<Line>,
}

impl<E: Tracer> Recorder<E> {
    /// No lines yet. It takes no memory.
    pub fn new(alloc: Global, engine: E) -> Recorder<E>
        ensures { result.lines.items ≡ [] }
    {
        Recorder {
            engine,
            lines: Vec::new(alloc),
        }
    }

    /// The lines. It takes no memory.
    pub fn lines(self) -> Vec<Line>
    where
        E: Drop,
        ensures { result.items ≡ self.lines.items }
    {
        self.lines
    }
}

impl<E: Tracer> Extents for Recorder<E> {
    ghost Account = { List Line };

    ghost account = { λ r. r.lines.items };

    ghost serves = { true };

    ghost ready = { E.ready };

    ghost Accounts = { Recorded };

    fn run<R: Threads + Wait + Sync>(
        &mut self,
        rt: &R,
        program: &Coded<'_>,
        heap: &mut Heap,
        operations: &[Op],
        budget: u64,
    ) -> Result<ExtentAnswer, Memory> {
        self.engine
            .trace(rt, program, heap, operations, budget, &mut self.lines)
    }

    fn in_order(&self, _heap: &Heap, _mark: Mark) -> bool {
        false
    }

    fn first_steps(&self, _mark: Mark) -> u64 {
        u64::MAX
    }

    fn gains(&mut self, _program: &Coded<'_>, _heap: &Heap, _first: &[Op], _budget: u64) -> bool {
        true
    }

    fn pass(&self, _object: u32) {}
}
