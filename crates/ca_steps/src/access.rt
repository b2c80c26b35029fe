//! How a world is accessed.

ghost use Rattle.std.specs.Prelude.{◌≡◌, IfSome, ℕ, pos, map, slice_get, true};
ghost use Rattle.ca_model.specs.declared.value.Value.TheVariants.{Long};
ghost use Rattle.ca_meaning.specs.Expressions.{Invocation, invocation, one_in, slot_of};
ghost use Rattle.ca_code.specs.Seen.{kind_seen};
ghost use Rattle.ca_code_laws.specs.Machine.{Back, enters, listed, row};
ghost use Rattle.ca_code_laws.specs.Words.{pointer_of};
ghost use Rattle.ca_steps.specs.Lists.{has_some};
ghost use Rattle.ca_steps.specs.Stands.{seen};
ghost use Rattle.ca_steps.specs.Telling.{Adds, Looks};

use ca_code::Kind;
use ca_model::{Heap, Value};
use ca_program::{FieldId, OpId};

/// What an index finds: an item, at its place; nothing; or it isn't told.
#[derive(Clone, Copy)]
pub enum Look {
    Holds(u32, Value),
    Outside,
    Unknown,
}

/// A world, as far as instructions access it within a frame.
pub trait Access {
    ghost use Rattle.std.specs.Prelude.{List};
    ghost use Rattle.ca_model.specs.declared.value.Object.{Object};
    ghost use Rattle.ca_model.specs.declared.value.Value.{Value as Datum};
    ghost use Rattle.ca_code_laws.specs.Machine.{Accesses, Back};

    ghost World: { Type 0 };

    /// What a world has besides that isn't kept in memory, as what was printed.
    ghost Past: { Type 0 };

    ghost world: { Self → Past → World };

    /// What stays as it is while instructions run.
    ghost Fixed: { Type 0 };

    ghost fixed: { Self → Fixed };

    ghost accesses: { Fixed → Accesses World };

    /// Which bodies may stand below.
    ghost Fits: { Self → List Back → Type 0 };

    /// The heap that is at hand to read other objects in.
    ghost at_hand: { Self → List Object };

    /// Whether a call of an operation enters its body.
    fn enters(&self) -> bool
        ensures { result ≡ true → (w : World) (i : Invocation) (k : ℕ) → (accesses (fixed self.now)).call w i k ≡ enters w };

    /// Lists a call of an operation on an object, whose arguments stand in slots from one on, by their kinds, if calls are listed.
    #[inline(always)]
    fn list(
        &mut self,
        _op: OpId,
        _receiver: u32,
        _kinds: &[Kind],
        _slots: &[i64],
        _first: usize,
    ) -> bool
        ensures listed { result ≡ true → (past : Past) (k : ℕ) → (accesses (fixed self.old)).call (world self.old past) (invocation _receiver _op (row (seen _slots.now) _first (map kind_seen _kinds.now))) k ≡ listed (world self.new past) }
        ensures fixed { fixed self.new ≡ fixed self.old }
        ensures fits { (bs : List Back) → Fits self.old bs → Fits self.new bs }
    {
        false
    }

    /// An operation whose body begins at a place is about to be entered on the object that this number names in a slot, if it names one.
    #[inline(always)]
    fn reach(&self, _receiver: i64, _start: u32) {}

    /// A body runs with others below it, or with none.
    fn stand(&mut self, deep: bool)
        ensures world { (past : Past) → world self.new past ≡ world self.old past }
        ensures fixed { fixed self.new ≡ fixed self.old }
        ensures fits { (bs cs : List Back) → Fits self.old bs → has_some cs ≡ deep → Fits self.new cs };

    /// The single value of an own field.
    fn own(&self, this: Value, f: FieldId) -> Option<Value>
        ensures { IfSome result (λ v. (past : Past) (bs : List Back) → Fits self.now bs → one_in (slice_get ((accesses (fixed self.now)).own bs (world self.now past) this) f.field) ≡ v) };

    /// An item of an own field.
    fn own_item(&self, this: Value, f: FieldId, index: i64) -> Look
        ensures { (past : Past) (bs : List Back) (line k : ℕ) → Fits self.now bs → Looks line (slice_get ((accesses (fixed self.now)).own bs (world self.now past) this) f.field) index k result };

    /// That heap.
    fn heap(&self) -> &Heap
        ensures { result.now ≡ at_hand self.now };

    /// Whether a field of object n stands there as in the world.
    fn reads(&self, n: usize, f: FieldId) -> bool
        ensures { result ≡ true → (past : Past) (bs : List Back) → Fits self.now bs → slot_of (at_hand self.now) n f ≡ slot_of ((accesses (fixed self.now)).heap (world self.now past)) n f };

    /// Puts a value into an item of an own field, if there is one.
    fn put(&mut self, this: Value, f: FieldId, item: u32, value: Value) -> bool
        ensures put { result ≡ true → (past : Past) → world self.new past ≡ (accesses (fixed self.old)).put (world self.old past) this f item value }
        ensures fixed { fixed self.new ≡ fixed self.old }
        ensures fits { (bs : List Back) → Fits self.old bs → Fits self.new bs };

    /// Adds a number to an own field of the receiver of this number that holds one, and tells the sum.
    fn add(&mut self, this: u32, f: FieldId, n: i64) -> Option<i64>
        ensures adds { IfSome result (λ m. (past : Past) (bs : List Back) → Fits self.old bs → Adds (one_in (slice_get ((accesses (fixed self.old)).own bs (world self.old past) (pointer_of (pos this))) f.field)) n m) }
        ensures put { IfSome result (λ m. (past : Past) (bs : List Back) → Fits self.old bs → world self.new past ≡ (accesses (fixed self.old)).put (world self.old past) (pointer_of (pos this)) f 0 (Long m)) }
        ensures fixed { fixed self.new ≡ fixed self.old }
        ensures fits { (bs : List Back) → Fits self.old bs → Fits self.new bs };
}
