//! Tasks, entries and histories, as plain data.

ghost use Rattle.std.specs.Prelude.{◌≡◌, IfOk};

use crate::entries::Entries;
use ca_model::{Object, Trap};
use ca_parallel::Op;
use std::alloc::AllocError;
use std::marker::Model;
use std::snapshot::Snapshot;

/// An operation that is to run, with the clock of the entry that listed it, or 0.
#[derive(Drop)]
pub struct Task {
    pub op: Op,
    pub after: u64,
}

impl Task {
    /// The same task once more.
    pub fn copy(&self) -> Result<Task, AllocError>
        ensures { IfOk result (λ task. task ≡ self.now) }
    {
        Ok(Task {
            op: self.op.copy()?,
            after: self.after,
        })
    }
}

/// Why a section didn't end.
#[derive(Clone, Copy, PartialEq, Eq)]
pub enum Stop {
    Trapped(Trap),
    Spent,
}

/// A list of operations.
#[derive(Drop)]
pub struct Ops {
    items: Vec<Op>,
}

impl Model for Ops {
    ghost use Rattle.std.specs.Prelude.{List};
    ghost use Rattle.ca_parallel.specs.declared.op.Op.{Op};

    ghost Value = { List Op };

    ghost view = { λ s. s.items.items };
}

impl Ops {
    /// These operations. It takes no memory.
    pub fn of(items: Vec<Op>) -> Ops
        ensures { result ≡ items.items }
    {
        Ops { items }
    }
}

/// A section that ran on an object, or that stopped there, and then took no steps and listed nothing.
#[derive(Drop)]
pub struct Entry {
    pub task: Task,
    pub clock: u64,
    pub steps: u64,
    pub invoked: Ops,
    pub stop: Option<Stop>,
}

/// A cell's history: the object as it was opened, which only contracts see, the object as its entries left it, and
/// these.
#[derive(Drop)]
pub struct CellLog {
    pub opened: Snapshot<Object>,
    pub object: Object,
    pub entries: Entries,
}
