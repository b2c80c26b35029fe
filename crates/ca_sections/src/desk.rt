//! What a section works with.

ghost use Rattle.std.specs.Prelude.{◌≡◌, ◌++◌, [], IfOk, OnErr};

use ca_base::Memory;
use ca_model::{Slots, Value};
use ca_parallel::{Arguments, HELD, Op};
use ca_program::FieldInfo;
use ca_steps::Frames;
use ca_undo::Olds;
use std::alloc::{AllocError, Global};
use std::mem;

/// What stays of a section until the next one: its old values.
#[derive(Drop)]
pub struct State {
    pub olds: Olds,
}

/// Serves sections, one behind the other, and keeps the memory that they took. An engine keeps one for each worker.
#[derive(Drop)]
pub struct Desk {
    pub(crate) frames: Frames,
    pub(crate) state: State,
    /// The locals behind a loop.
    pub(crate) values: Vec<Value>,
    /// Operations whose lists of arguments serve others. What they hold is no matter.
    pub(crate) spare: Vec<Op>,
    /// Whose memory serves what sections list. What it holds is no matter.
    pub(crate) list: Vec<Op>,
    /// Whose memory serves the old values of several sections. What it holds is no matter.
    pub(crate) room: Olds,
}

/// No slots, for a section that has none in hand. They take no memory.
#[inline(always)]
pub(crate) fn no_slots(alloc: Global) -> Result<Slots, Memory> {
    let fields: &[FieldInfo] = &[];
    Ok(Slots::start(alloc, fields)?)
}

impl Desk {
    /// A desk.
    pub fn new(alloc: Global) -> Result<Desk, Memory> {
        Ok(Desk {
            frames: Frames::none(alloc),
            state: State {
                olds: Olds::new(alloc),
            },
            values: Vec::new(alloc),
            spare: Vec::new(alloc),
            list: Vec::new(alloc),
            room: Olds::new(alloc),
        })
    }

    /// An empty list for what a section lists, in memory that served before.
    #[inline(always)]
    pub fn take_list(&mut self, alloc: Global) -> Vec<Op>
        ensures none { result.items ≡ [] }
        ensures state { self.new.state ≡ self.old.state }
    {
        let mut list = mem::replace(&mut self.list, Vec::new(alloc));
        list.clear();
        list
    }

    /// Takes a list that is used no more, for its memory.
    #[inline(always)]
    pub fn give_back_list(&mut self, list: Vec<Op>)
        ensures { self.new.state ≡ self.old.state }
    {
        self.list = list;
    }

    /// No old values of several sections yet, in memory that served before.
    pub fn take_room(&mut self, alloc: Global) -> Olds
        ensures none { result ≡ [] }
        ensures state { self.new.state ≡ self.old.state }
    {
        let mut all = mem::replace(&mut self.room, Olds::new(alloc));
        all.forget();
        all
    }

    /// Takes old values that are used no more, for their memory.
    pub fn give_back_room(&mut self, all: Olds)
        ensures { self.new.state ≡ self.old.state }
    {
        self.room = all;
    }

    /// Moves the old values of the desk's last section, which was done, to those of sections before it on the same object.
    /// Without memory for it both are as before.
    pub fn keep_olds(&mut self, all: &mut Olds) -> Result<(), AllocError>
        ensures added { IfOk result (λ _. all.new ≡ self.old.state.olds ++ all.old) }
        ensures none { IfOk result (λ _. self.new.state.olds ≡ []) }
        ensures kept { OnErr result ((all.new ≡ all.old) × (self.new.state.olds ≡ self.old.state.olds)) }
    {
        all.add_later(&mut self.state.olds)
    }

    /// Takes an operation that was listed and is used no more, for its memory, if it has any and there is room for it.
    #[inline]
    pub fn give_back(&mut self, op: Op)
        ensures { self.new.state ≡ self.old.state }
    {
        if op.args.len() > HELD {
            let _kept = self.spare.push(op);
        }
    }

    /// Takes all operations of a list that are used no more, for their memory. None are left in the list.
    pub fn give_back_all(&mut self, ops: &mut Vec<Op>)
        ensures state { self.new.state ≡ self.old.state }
        ensures none { ops.new.items ≡ [] }
    {
        mem::swap(&mut self.spare, ops);
        ops.clear();
    }

    /// An empty list. Where that for so many values takes memory it is one that was given back, if there is such a one.
    #[inline(always)]
    pub(crate) fn no_values(
        spare: &mut Vec<Op>,
        alloc: Global,
        count: usize,
    ) -> Result<Arguments, AllocError>
        ensures none { IfOk result (λ values. values ≡ []) }
    {
        if count > HELD {
            if let Some(spare) = spare.pop() {
                let mut values = spare.args;
                values.clear();
                return Ok(values);
            }
            return Arguments::with_room(alloc, count);
        }
        Ok(Arguments::new(alloc))
    }
}
