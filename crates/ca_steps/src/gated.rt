//! The world of a run that passes a door.

ghost use Rattle.std.specs.Prelude.{◌≡◌};

use crate::access::{Access, Look};
use crate::doors::Door;
use crate::run::InRun;
use ca_code::Code;
use ca_model::{Heap, Value};
use ca_program::{FieldId, Program};

/// A run, and the door that it tells of calls within what was handed on: of those that enter a body in front of a place.
#[derive(Drop)]
pub(crate) struct Gated<'s, 'd, D: Door> {
    pub(crate) run: InRun<'s>,
    pub(crate) door: &'d D,
    pub(crate) plain: u32,
}

/// The place where the bodies of operations begin that heed marks. Those that heed none stand in front, and are entered only within
/// what was handed on. Where no body heeds marks it is 0.
fn plain_of(code: &Code<'_>) -> u32 {
    let heeding = code.heeding.as_slice();
    if heeding.len() > 0 { heeding[0] } else { 0 }
}

impl<'s, 'd, D: Door> Gated<'s, 'd, D> {
    /// A run over a code from this heap on.
    pub(crate) fn of(
        program: &'s Program,
        heap: Heap,
        door: &'d D,
        code: &Code<'_>,
    ) -> Gated<'s, 'd, D>
        ensures program { result.run.program.now ≡ program.now }
        ensures heap { result.run.heap ≡ heap }
    {
        Gated {
            run: InRun { program, heap },
            door,
            plain: plain_of(code),
        }
    }
}

impl<'s, 'd, D: Door> Access for Gated<'s, 'd, D> {
    ghost use Rattle.ca_program.specs.declared.program.Program.{Program};
    ghost use Rattle.ca_program.specs.View.{program_view};
    ghost use Rattle.ca_meaning.specs.Serial.{World as RunWorld, in_heap};
    ghost use Rattle.ca_code_laws.specs.Runs.{run_access};

    ghost World = { RunWorld };

    ghost Past = { RunWorld };

    ghost world = { λ s past. in_heap past s.run.heap };

    ghost Fixed = { Program };

    ghost fixed = { λ s. s.run.program.now };

    ghost accesses = { λ p. run_access (program_view p) };

    ghost Fits = { λ s bs. Unit {0} };

    ghost at_hand = { λ s. s.run.heap };

    #[inline(always)]
    fn enters(&self) -> bool {
        true
    }

    #[inline(always)]
    fn reach(&self, receiver: i64, start: u32) {
        if start < self.plain && receiver > 0 && receiver <= u32::MAX as i64 {
            self.door.pass((receiver - 1) as u32);
        }
    }

    #[inline(always)]
    fn stand(&mut self, _deep: bool) {}

    #[inline(always)]
    fn own(&self, this: Value, f: FieldId) -> Option<Value> {
        self.run.own(this, f)
    }

    #[inline(always)]
    fn own_item(&self, this: Value, f: FieldId, index: i64) -> Look {
        self.run.own_item(this, f, index)
    }

    #[inline(always)]
    fn heap(&self) -> &Heap {
        &self.run.heap
    }

    #[inline(always)]
    fn reads(&self, _n: usize, _f: FieldId) -> bool {
        true
    }

    #[inline(always)]
    fn put(&mut self, this: Value, f: FieldId, item: u32, value: Value) -> bool {
        self.run.put(this, f, item, value)
    }

    #[inline(always)]
    fn add(&mut self, this: u32, f: FieldId, n: i64) -> Option<i64> {
        self.run.add(this, f, n)
    }
}
