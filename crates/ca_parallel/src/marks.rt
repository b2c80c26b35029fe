//! Marks on calls and loops in memory; `PlainMarks` of `specs/Lists.antt` is their plain value.

ghost use Rattle.std.specs.Prelude.{◌≡◌};
ghost use Rattle.ca_parallel.specs.Lists.{no_marks};

use ca_program::{LoopId, OpId};
use std::alloc::Global;
use std::marker::Model;

/// The operations whose calls may be handed to an engine, and the loops that may.
#[derive(Drop)]
pub struct Marks {
    pub ops: Vec<OpId>,
    pub loops: Vec<LoopId>,
}

impl Model for Marks {
    ghost use Rattle.ca_parallel.specs.Lists.{PlainMarks};

    ghost Value = { PlainMarks };

    ghost view = { λ m. record { ops = m.ops.items; loops = m.loops.items } };
}

impl Marks {
    /// No marks. It takes no memory.
    pub fn none(alloc: Global) -> Marks
        ensures { result ≡ no_marks }
    {
        Marks {
            ops: Vec::new(alloc),
            loops: Vec::new(alloc),
        }
    }
}
