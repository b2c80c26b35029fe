//! Old values of a call that runs on copies, and what of them is at hand: a call that adds again and again to one number keeps its old
//! value once.

ghost use Rattle.std.specs.Prelude.{◌≡◌, ◌∷◌, [], List, true, false, MatchOption};
ghost use Rattle.ca_undo.specs.declared.puts.Put.{Put};
ghost use Rattle.ca_undo.specs.Hands.{IsHand, IsTop};

use crate::puts::{Put, Puts};
use std::alloc::Global;
use std::marker::Model;

// Two words: what would be left of one behind a shorter number would be filled too.
/// The field of an object whose old value was kept last. Where none is told, the object's number is one of more than 32 bits.
#[derive(Clone, Copy)]
pub struct LastOld {
    pub object: u64,
    pub field: u64,
}

/// Old values, the last one first.
#[derive(Drop)]
pub struct OldSums {
    puts: Puts,
    hand: LastOld,
}

impl Model for OldSums {
    ghost use Rattle.std.specs.Prelude.{List};
    ghost use Rattle.ca_undo.specs.declared.puts.Put.{Put};
    ghost use Rattle.ca_undo.specs.Hands.{IsHand};

    ghost Value = { List Put };

    ghost view = { λ s. s.puts };

    ghost invariant = { λ s. IsHand s.hand s.puts };
}

/// None.
#[inline(always)]
fn none_at_hand() -> LastOld
    ensures { (os : List Put) → IsHand result os }
{
    LastOld {
        object: u64::MAX,
        field: 0,
    }
}

/// An old value, if it is of a single value.
#[inline(always)]
fn hand_of(old: Put) -> LastOld
    ensures { (os : List Put) → IsHand result (old ∷ os) }
{
    if old.item == 0 {
        return LastOld {
            object: old.object as u64,
            field: old.field as u64,
        };
    }
    none_at_hand()
}

/// Keeps an old value among others, if there is memory.
#[inline(always)]
fn add_to(puts: &mut Puts, old: Put) -> bool
    ensures added { result ≡ true → puts.new ≡ old ∷ puts.old }
    ensures same { result ≡ false → puts.new ≡ puts.old }
{
    if puts.add(old) {
        return true;
    }
    let again = Put {
        object: old.object,
        field: old.field,
        item: old.item,
        value: old.value,
    };
    puts.push(again)
}

impl OldSums {
    /// None. It takes no memory.
    pub fn new(alloc: Global) -> OldSums
        ensures { result ≡ [] }
    {
        OldSums {
            puts: Puts::new(alloc),
            hand: none_at_hand(),
        }
    }

    /// Forgets all, and keeps the memory.
    pub fn forget(&mut self)
        ensures { self.new ≡ [] }
    {
        self.hand = none_at_hand();
        self.puts.forget();
    }

    /// Keeps an old value, if there is memory.
    #[inline(always)]
    pub fn keep(&mut self, old: Put) -> bool
        ensures added { result ≡ true → self.new ≡ old ∷ self.old }
        ensures same { result ≡ false → self.new ≡ self.old }
    {
        if !add_to(&mut self.puts, old) {
            return false;
        }
        self.hand = hand_of(old);
        true
    }

    /// Keeps an old value, if there is room.
    #[inline(always)]
    pub fn keep_at_once(&mut self, old: Put) -> bool
        ensures added { result ≡ true → self.new ≡ old ∷ self.old }
        ensures same { result ≡ false → self.new ≡ self.old }
    {
        if !self.puts.add(old) {
            return false;
        }
        self.hand = hand_of(old);
        true
    }

    /// Takes the last one out.
    pub fn last(&mut self) -> Option<Put>
        ensures { MatchOption result ((self.old ≡ []) × (self.new ≡ [])) (λ x. self.old ≡ x ∷ self.new) }
    {
        self.hand = none_at_hand();
        self.puts.last()
    }

    /// Whether the old value that was kept last is that of this field of object n.
    #[inline(always)]
    pub fn is_last(&self, n: u32, field: u32) -> bool
        ensures { result ≡ true → IsTop self.now n field 0 }
    {
        let hand = self.hand;
        let number = n as u64;
        let place = field as u64;
        if hand.object != number {
            return false;
        }
        if hand.field != place {
            return false;
        }
        true
    }
}
