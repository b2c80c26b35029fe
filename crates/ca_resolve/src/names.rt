//! Names by their numbers, from a name to its number: `number_of` of `specs/Scopes.antt`.

ghost use Rattle.std.specs.Prelude.{◌≡◌, IfOk, map};
ghost use Rattle.ca_resolve.specs.Scopes.{number_of};

use ca_tree::Name;
use std::alloc::{AllocError, Global};
use std::collections::BTreeMap;
use std::marker::Model;

/// A list of names, in which each is found by the first place where it stands.
#[derive(Drop)]
pub struct Names<'a> {
    all: Vec<&'a Name>,
    numbers: BTreeMap<&'a [u8], u32>,
}

impl<'a> Model for Names<'a> {
    ghost use Rattle.std.specs.Prelude.{List, ℕ, map};

    ghost Value = { List (List ℕ) };

    ghost use Rattle.ca_resolve.specs.clauses.Index.{IsIndex};

    ghost view = { λ s. map (λ n. n.now) s.all.items };

    ghost invariant = { λ s. IsIndex s.numbers (map (λ n. n.now) s.all.items) };
}

impl<'a> Names<'a> {
    /// The names in order.
    pub fn new(alloc: Global, all: Vec<&'a Name>) -> Result<Names<'a>, AllocError>
        ensures { IfOk result (λ names. names ≡ map (λ n. n.now) all.entry.items) }
    {
        let mut numbers = BTreeMap::new(alloc);
        for (i, name) in all.iter().enumerate() {
            if !numbers.contains_key(name.as_bytes()) {
                let Ok(number) = u32::try_from(i) else {
                    return Err(AllocError);
                };
                numbers.insert(name.as_bytes(), number)?;
            }
        }
        Ok(Names { all, numbers })
    }

    /// The number of the first of the names that is this one.
    pub fn number(&self, name: &Name) -> Option<u32>
        ensures { result ≡ number_of self.now name.now }
    {
        self.numbers.get(name.as_bytes()).copied()
    }
}
