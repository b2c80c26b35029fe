//! The world of a run: everything is read and put in the heap.

ghost use Rattle.std.specs.Prelude.{◌≡◌, true, false};
ghost use Rattle.ca_meaning.specs.Serial.{put_own};
ghost use Rattle.ca_steps.specs.Lacking.{LacksItem};

use crate::access::{Access, Look};
use crate::frames::receiver_of;
use crate::loads::{field_of, own_field, own_look};
use crate::numbers::sum_of;
use ca_model::{Heap, Value};
use ca_program::{FieldId, Program};

/// Puts a value into an item of a field of the object that a value names, if there is one.
#[inline(always)]
pub(crate) fn store(heap: &mut Heap, this: Value, f: FieldId, item: u32, value: Value) -> bool
    ensures put { result ≡ true → heap.new ≡ put_own heap.old this f item value }
    ensures none { result ≡ false → LacksItem heap.old this f item }
{
    let Value::Ref(n) = this else {
        return false;
    };
    if heap.has_slot(n, f.field, item) {
        heap.store(n, f.field, item, value);
        true
    } else {
        false
    }
}

/// A run of a program, with its heap. What it has printed and noted is past.
#[derive(Drop)]
pub struct InRun<'a> {
    pub program: &'a Program,
    pub heap: Heap,
}

impl<'a> Access for InRun<'a> {
    ghost use Rattle.ca_program.specs.declared.program.Program.{Program};
    ghost use Rattle.ca_program.specs.View.{program_view};
    ghost use Rattle.ca_meaning.specs.Serial.{World as RunWorld, in_heap};
    ghost use Rattle.ca_code_laws.specs.Runs.{run_access};

    ghost World = { RunWorld };

    ghost Past = { RunWorld };

    ghost world = { λ s past. in_heap past s.heap };

    ghost Fixed = { Program };

    ghost fixed = { λ s. s.program.now };

    ghost accesses = { λ p. run_access (program_view p) };

    ghost Fits = { λ s bs. Unit {0} };

    ghost at_hand = { λ s. s.heap };

    #[inline(always)]
    fn enters(&self) -> bool {
        true
    }

    #[inline(always)]
    fn stand(&mut self, _deep: bool) {}

    #[inline(always)]
    fn own(&self, this: Value, f: FieldId) -> Option<Value> {
        Some(own_field(&self.heap, this, f))
    }

    #[inline(always)]
    fn own_item(&self, this: Value, f: FieldId, index: i64) -> Look {
        own_look(&self.heap, this, f, index)
    }

    #[inline(always)]
    fn heap(&self) -> &Heap {
        &self.heap
    }

    #[inline(always)]
    fn reads(&self, _n: usize, _f: FieldId) -> bool {
        true
    }

    #[inline(always)]
    fn put(&mut self, this: Value, f: FieldId, item: u32, value: Value) -> bool {
        store(&mut self.heap, this, f, item, value)
    }

    #[inline(always)]
    fn add(&mut self, this: u32, f: FieldId, n: i64) -> Option<i64> {
        let me = receiver_of(this);
        let Value::Ref(o) = me else {
            return None;
        };
        let Value::Long(a) = field_of(&self.heap, o, f) else {
            return None;
        };
        let sum = sum_of(a, n);
        if store(&mut self.heap, me, f, 0, Value::Long(sum)) {
            Some(sum)
        } else {
            None
        }
    }
}
