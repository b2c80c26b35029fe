//! The arguments of a call. A few of them take no memory of their own.

ghost use Rattle.std.specs.Prelude.{◌≡◌, [], ◌∷◌, ◌++◌, length, slice_get, IfOk, OnErr};

use ca_model::Value;
use smallvec::SmallVec;
use std::alloc::{AllocError, Global};
use std::marker::Model;

/// How many arguments stand in the call itself.
pub const HELD: usize = 2;

/// The arguments of a call.
#[derive(Drop)]
pub struct Arguments {
    items: SmallVec<Value, HELD>,
}

impl Model for Arguments {
    ghost use Rattle.std.specs.Prelude.{List};
    ghost use Rattle.ca_model.specs.declared.value.Value.{Value as Datum};

    ghost Value = { List Datum };

    ghost view = { λ s. s.items.items };
}

impl Arguments {
    /// No arguments. It takes no memory.
    #[inline]
    pub fn new(alloc: Global) -> Self
        ensures { result ≡ [] }
    {
        Arguments {
            items: SmallVec::new(alloc),
        }
    }

    /// No arguments, with room for so many.
    #[inline]
    pub fn with_room(alloc: Global, count: usize) -> Result<Self, AllocError>
        ensures { IfOk result (λ arguments. arguments ≡ []) }
    {
        Ok(Arguments {
            items: SmallVec::with_capacity(alloc, count)?,
        })
    }

    /// Adds an argument at the end. Without memory for it they are as before.
    #[inline]
    pub fn push(&mut self, value: Value) -> Result<(), AllocError>
        ensures added { IfOk result (λ _. self.new ≡ self.old ++ value ∷ []) }
        ensures kept { OnErr result (self.new ≡ self.old) }
    {
        self.items.push(value)?;
        Ok(())
    }

    /// Drops all arguments. What memory they have stays.
    #[inline]
    pub fn clear(&mut self)
        ensures { self.new ≡ [] }
    {
        self.items.clear();
    }

    /// How many there are.
    #[inline]
    pub fn len(&self) -> usize
        ensures { result ≡ length self.now }
    {
        self.items.len()
    }

    /// The argument at a place, if there is one.
    pub fn get(&self, index: usize) -> Option<Value>
        ensures { result ≡ slice_get self.now index }
    {
        self.as_slice().get(index).copied()
    }

    /// All of them.
    #[inline]
    pub fn as_slice(&self) -> &[Value]
        ensures { result.now ≡ self.now }
    {
        self.items.as_slice()
    }

    /// The same arguments once more.
    pub fn copy(&self) -> Result<Arguments, AllocError>
        ensures { IfOk result (λ arguments. arguments ≡ self.now) }
    {
        Ok(Arguments {
            items: SmallVec::from_slice(*self.items.allocator(), self.items.as_slice())?,
        })
    }
}
