//! What is handed on from a frame: the arguments of calls, and the locals of loops; and how it goes on behind that.

ghost use Rattle.std.specs.Prelude.{◌≡◌, ◌<◌, ◌≤◌, ◌+◌, ◌++◌, IfOk, length, map, slice_set, true};
ghost use Rattle.ca_program.specs.Kinds.{kind_type};
ghost use Rattle.ca_code.specs.Seen.{kind_seen};
ghost use Rattle.ca_code_laws.specs.Machine.{row};
ghost use Rattle.ca_steps.specs.Stands.{seen};
ghost use Rattle.ca_steps.specs.Handed.{PutLocals, WordsPut};

use crate::frames::Frames;
use crate::words::{has_kind, word};
use ca_base::Memory;
use ca_code::{Kind, kind_type};
use ca_model::Value;
use ca_program::ValueType;

/// The most locals that are put back.
const MOST_LOCALS: usize = 2_000_000_000;

/// Puts a number into a slot.
#[inline(always)]
fn put_at(slots: &mut Vec<i64>, place: usize, n: i64)
    requires { place < length slots.old.items }
    ensures { slots.new.items ≡ slice_set slots.old.items place n }
{
    slots[place] = n;
}

/// Puts the numbers of values into slots from one on, if each is of its kind.
#[inline(always)]
fn put_words(slots: &mut Vec<i64>, base: usize, kinds: &[Kind], values: &[Value]) -> bool
    requires many { length kinds.now ≡ length values.now }
    requires room { base + length values.now ≤ length slots.old.items }
    ensures { result ≡ true → WordsPut slots.old.items base (map kind_seen kinds.now) values.now slots.new.items }
{
    let mut i = values.len();
    'values: while i > 0 {
        let value = values[i - 1];
        if !has_kind(kinds[i - 1], value) {
            return false;
        }
        put_at(slots, base + (i - 1), word(value));
        i -= 1;
    }
    true
}

impl Frames {
    /// Adds the values of slots from one on, of these kinds.
    pub fn values(&self, first: u32, kinds: &[Kind], into: &mut Vec<Value>) -> Result<(), Memory>
        ensures { IfOk result (λ _. into.new.items ≡ into.old.items ++ row (seen self.now.slots.items) (self.now.base + first) (map kind_seen kinds.now)) }
    {
        let mut a = first;
        'values: for kind in kinds {
            let Some(value) = self.value(*kind, a) else {
                return Err(Memory);
            };
            into.push(value)?;
            if a == u32::MAX {
                return Err(Memory);
            }
            a += 1;
        }
        Ok(())
    }

    /// Adds the values of the first slots, of these types.
    pub fn locals(&self, types: &[ValueType], into: &mut Vec<Value>) -> Result<(), Memory>
        ensures { IfOk result (λ _. into.new.items ≡ into.old.items ++ row (seen self.now.slots.items) self.now.base (map kind_type types.now)) }
    {
        let mut a: u32 = 0;
        'locals: for ty in types {
            let Some(value) = self.value(kind_type(*ty), a) else {
                return Err(Memory);
            };
            into.push(value)?;
            if a == u32::MAX {
                return Err(Memory);
            }
            a += 1;
        }
        Ok(())
    }

    /// Goes on behind the instruction where it is, with so many steps left.
    pub fn pass(&mut self, left: u64) -> Result<(), Memory>
        ensures { IfOk result (λ _. self.new ≡ record self.old { at = self.old.at + 1; left = left }) }
    {
        self.jump(0, left)
    }

    /// Goes on so many instructions behind it.
    pub fn jump(&mut self, n: u32, left: u64) -> Result<(), Memory>
        ensures { IfOk result (λ _. self.new ≡ record self.old { at = self.old.at + 1 + n; left = left }) }
    {
        if self.at > u32::MAX as usize {
            return Err(Memory);
        }
        self.at = self.at + 1 + n as usize;
        self.left = left;
        Ok(())
    }

    /// Puts values into the first slots, if each is of its type and there are as many.
    pub fn put_locals(&mut self, types: &[ValueType], values: &[Value]) -> Result<(), Memory>
        ensures { IfOk result (λ _. PutLocals self.old (map kind_type types.now) values.now self.new) }
    {
        if types.len() != values.len() || values.len() > MOST_LOCALS {
            return Err(Memory);
        }
        let mut i = values.len();
        'values: while i > 0 {
            let value = values[i - 1];
            if !has_kind(kind_type(types[i - 1]), value) {
                return Err(Memory);
            }
            let place = self.base as usize + (i - 1);
            if !self.put(place, word(value)) {
                return Err(Memory);
            }
            i -= 1;
        }
        Ok(())
    }

    /// Puts values into the first slots, if each is of its kind and there are as many.
    #[inline(always)]
    pub fn put_values(&mut self, kinds: &[Kind], values: &[Value]) -> Result<(), Memory>
        ensures { IfOk result (λ _. PutLocals self.old (map kind_seen kinds.now) values.now self.new) }
    {
        let base = self.base as usize;
        let len = self.slots.len();
        if kinds.len() != values.len() || len < base || len - base < values.len() {
            return Err(Memory);
        }
        if put_words(&mut self.slots, base, kinds, values) {
            Ok(())
        } else {
            Err(Memory)
        }
    }
}
