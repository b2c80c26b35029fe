//! The values that a heap had before puts.

ghost use Rattle.std.specs.Prelude.{◌≡◌, ◌∷◌, [], true, false, List, Some, None, IfOk, MatchOption};
ghost use Rattle.ca_model.specs.declared.value.Object.{Object};
ghost use Rattle.ca_model.specs.Heaps.{stored};
ghost use Rattle.ca_undo.specs.Puts.{before, put_back, restored};

use crate::olds::value_of;
use ca_model::{Heap, Value};
use std::alloc::Global;
use std::marker::Model;
use std::mem;

/// So many old values are kept before it is asked whether the heap has as many: that is, wherever there is no room for one more.
const MANY: usize = 65_536;

/// The value that an item of a field of an object had before a put.
#[derive(Clone, Copy)]
pub struct Put {
    pub object: u32,
    pub field: u32,
    pub item: u32,
    pub value: Value,
}

/// The old values, the last one first.
#[derive(Drop)]
pub struct Puts {
    items: Vec<Put>,
}

impl Model for Puts {
    ghost use Rattle.std.specs.Prelude.{List, reverse};
    ghost use Rattle.ca_undo.specs.declared.puts.Put.{Put};

    ghost Value = { List Put };

    ghost view = { λ s. reverse s.items.items };
}

impl Puts {
    /// None. It takes no memory.
    pub fn new(alloc: Global) -> Puts
        ensures { result ≡ [] }
    {
        Puts {
            items: Vec::new(alloc),
        }
    }

    /// How many there are.
    fn len(&self) -> usize {
        self.items.len()
    }

    /// Forgets all, and keeps the memory.
    pub fn forget(&mut self)
        ensures { self.new ≡ [] }
    {
        self.items.clear();
    }

    /// Adds an old value, if there is room.
    #[inline(always)]
    pub fn add(&mut self, old: Put) -> bool
        ensures added { result ≡ true → self.new ≡ old ∷ self.old }
        ensures same { result ≡ false → self.new ≡ self.old }
    {
        if self.items.len() == self.items.capacity() {
            return false;
        }
        self.items.push_reserved(old);
        true
    }

    /// Adds an old value, and takes memory for it and as many more, if there is memory.
    pub fn push(&mut self, old: Put) -> bool
        ensures added { result ≡ true → self.new ≡ old ∷ self.old }
        ensures same { result ≡ false → self.new ≡ self.old }
    {
        match self.items.push(old) {
            Ok(()) => true,
            Err(_) => false,
        }
    }

    /// Takes the last one out.
    pub fn last(&mut self) -> Option<Put>
        ensures { MatchOption result ((self.old ≡ []) × (self.new ≡ [])) (λ x. self.old ≡ x ∷ self.new) }
    {
        self.items.pop()
    }

    /// Puts all old values back, and forgets them. It takes no memory.
    fn put_back(&mut self, heap: &mut Heap)
        ensures heap { heap.new ≡ restored self.old heap.old }
        ensures none { self.new ≡ [] }
    {
        'olds: while let Some(old) = self.last() {
            put_back(heap, old);
        }
    }
}

/// Puts an old value back, where its place is there.
#[inline(always)]
fn put_back(heap: &mut Heap, old: Put)
    ensures { heap.new ≡ put_back old heap.old }
{
    if heap.has_slot(old.object, old.field, old.item) {
        heap.store(old.object, old.field, old.item, old.value);
    }
}

/// What undoes the puts of a run: their old values; or the heap as it was, where there was no room for more of them than it has values.
#[derive(Drop)]
pub struct Kept {
    pub puts: Puts,
    pub whole: Option<Heap>,
}

impl Kept {
    /// Nothing. It takes no memory.
    pub fn new(alloc: Global) -> Kept
        ensures puts { result.puts ≡ [] }
        ensures whole { result.whole ≡ None }
    {
        Kept {
            puts: Puts::new(alloc),
            whole: None,
        }
    }

    /// Forgets all.
    pub fn forget(&mut self)
        ensures puts { self.new.puts ≡ [] }
        ensures whole { self.new.whole ≡ None }
    {
        self.puts.forget();
        self.whole = None;
    }

    /// Puts a value into an item, if there is one, and keeps what undoes it. Whatever comes of it, undoing gives what it gave before.
    #[inline(always)]
    pub fn put(&mut self, heap: &mut Heap, object: u32, field: u32, item: u32, value: Value) -> bool
        ensures put { result ≡ true → heap.new ≡ stored heap.old object field item value }
        ensures before { before self.new heap.new ≡ before self.old heap.old }
    {
        if !heap.has_slot(object, field, item) {
            return false;
        }
        let there = value_of(&heap.get(object).slots, field, item);
        let old = Put {
            object,
            field,
            item,
            value: there,
        };
        if !self.keep(heap, old) {
            return false;
        }
        heap.store(object, field, item, value);
        true
    }

    /// Keeps an old value of a put to come, if there is memory.
    #[inline(always)]
    fn keep(&mut self, heap: &mut Heap, old: Put) -> bool
        ensures heap { heap.new ≡ heap.old }
        ensures kept { result ≡ true → (g : List Object) → put_back old g ≡ heap.old → before self.new g ≡ before self.old heap.old }
        ensures same { result ≡ false → before self.new heap.old ≡ before self.old heap.old }
    {
        if self.puts.add(old) {
            return true;
        }
        self.keep_more(heap, old)
    }

    /// The same, where there is no room.
    #[cold]
    #[inline(never)]
    fn keep_more(&mut self, heap: &mut Heap, old: Put) -> bool
        ensures heap { heap.new ≡ heap.old }
        ensures kept { result ≡ true → (g : List Object) → put_back old g ≡ heap.old → before self.new g ≡ before self.old heap.old }
        ensures same { result ≡ false → before self.new heap.old ≡ before self.old heap.old }
    {
        if self.whole.is_some() {
            self.puts.forget();
            return true;
        }
        let count = self.puts.len();
        if count >= MANY && count >= heap.values() as usize {
            return self.keep_whole(heap);
        }
        self.puts.push(old)
    }

    /// Keeps the whole heap as it was in place of old values.
    fn keep_whole(&mut self, heap: &mut Heap) -> bool
        requires { self.old.whole ≡ None }
        ensures heap { heap.new ≡ heap.old }
        ensures whole { result ≡ true → self.new.whole ≡ Some (before self.old heap.old) }
        ensures same { result ≡ false → self.new ≡ self.old }
    {
        let Ok(mut whole) = heap.copy() else {
            return false;
        };
        self.puts.put_back(heap);
        mem::swap(heap, &mut whole);
        self.whole = Some(whole);
        true
    }

    /// Puts all back. It takes no memory.
    pub fn undo(&mut self, heap: &mut Heap)
        ensures { heap.new ≡ before self.old heap.old }
    {
        match Option::take(&mut self.whole) {
            Some(mut whole) => mem::swap(heap, &mut whole),
            None => self.puts.put_back(heap),
        }
    }
}
