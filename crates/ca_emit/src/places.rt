//! Places that are looked up.

ghost use Rattle.std.specs.Prelude.{◌≡◌, ℕ, map, IfOk};
ghost use Rattle.ca_emit.specs.Annotations.{number_in, place_in, place_number};

use ca_base::Memory;
use ca_tree::Place;
use std::alloc::{AllocError, Global};
use std::marker::Model;

/// Places, in an order in which one is found by halving.
#[derive(Drop)]
pub(crate) struct Places {
    numbers: Vec<u64>,
}

impl Model for Places {
    ghost use Rattle.std.specs.Prelude.{ℕ, List, ◌≤◌, ◌<◌, length, get_or};

    ghost Value = { List ℕ };

    ghost view = { λ p. p.numbers.items };

    ghost invariant = { λ p. (i j : ℕ) → i ≤ j → j < length p.numbers.items → get_or p.numbers.items i 0 ≤ get_or p.numbers.items j 0 };
}

/// The number of a place.
fn number_of(at: Place) -> u64
    ensures { result ≡ place_number at }
{
    u64::from(at.line) * 4_294_967_296 + u64::from(at.column)
}

/// The numbers of places.
fn numbers_of(alloc: Global, places: &[Place]) -> Result<Vec<u64>, AllocError>
    ensures { IfOk result (λ ns. ns.items ≡ map place_number places.now) }
{
    let mut numbers = Vec::new(alloc);
    for at in places {
        numbers.push(number_of(*at))?;
    }
    Ok(numbers)
}

impl Places {
    /// These places.
    pub fn of(alloc: Global, places: &[Place]) -> Result<Places, Memory>
        ensures { IfOk result (λ p. (n : ℕ) → number_in p n ≡ number_in (map place_number places.now) n) }
    {
        let mut numbers = numbers_of(alloc, places)?;
        numbers.sort_unstable();
        Ok(Places { numbers })
    }

    /// Whether a place is among them.
    pub fn has(&self, at: Place) -> bool
        ensures { result ≡ number_in self.now (place_number at) }
    {
        self.numbers.binary_search(&number_of(at)).is_ok()
    }
}
