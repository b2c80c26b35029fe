//! Before which operations the calling thread passes the gate, where it runs them alone, and where a run goes on into their calls:
//! neighbours of one receiver pass one gate. Where it runs them alone, an operation that takes no lock passes none. No clause speaks of it.

use crate::policy::MOST_NEIGHBOURS;
use crate::weights::Known;
use ca_base::Gate;
use ca_extent::extent_of;
use ca_parallel::Op;
use ca_program::{OpId, Program};
use ca_section::locks;
use std::alloc::Global;
use std::cell::Cell;

/// A gate that is passed, or gone by.
#[derive(Drop)]
pub struct SharedGate<'g, G: Gate> {
    pub gate: &'g G,
    pub passes: bool,
}

impl<'g, G: Gate> Gate for SharedGate<'g, G> {
    fn inside(&self, worker: u32, object: u32) {
        if self.passes {
            self.gate.inside(worker, object);
        }
    }
}

/// The operations of one receiver that were the last to run of those that take a lock.
#[derive(Clone, Copy)]
pub struct Neighbours {
    receiver: u32,
    count: u32,
}

/// Whether an operation takes a lock, in the extent of its own calls. Without memory for that it is taken to.
#[inline(never)]
fn asked(alloc: Global, program: &Program, op: OpId) -> bool {
    let roots = [op];
    match extent_of(alloc, program, &roots) {
        Ok(extent) => locks(program, &extent, op),
        Err(_) => true,
    }
}

/// Whether an operation takes a lock, which is asked once for each that is known.
pub fn takes_lock(alloc: Global, program: &Program, known: &mut Vec<Known>, op: OpId) -> bool {
    let number = op.0 as usize;
    if number >= known.len() {
        return true;
    }
    match known[number].locks {
        Some(answer) => answer,
        None => {
            let answer = asked(alloc, program, op);
            let item = &mut known[number];
            item.locks = Some(answer);
            answer
        }
    }
}

impl Neighbours {
    /// None ran yet.
    pub fn none() -> Neighbours {
        Neighbours {
            receiver: 0,
            count: 0,
        }
    }

    /// Whether an operation of this receiver that takes a lock begins anew: it is no neighbour of those that ran last, or they
    /// are as many as may pass one gate.
    fn begins(&mut self, receiver: u32) -> bool {
        let few = self.count > 0 && self.count < MOST_NEIGHBOURS;
        if few && self.receiver == receiver {
            self.count += 1;
            return false;
        }
        self.receiver = receiver;
        self.count = 1;
        true
    }

    /// Whether an operation, which runs now, passes the gate.
    pub fn pass_with(
        &mut self,
        alloc: Global,
        program: &Program,
        known: &mut Vec<Known>,
        op: &Op,
    ) -> bool {
        takes_lock(alloc, program, known, op.op) && self.begins(op.receiver)
    }
}

/// The calls of what a run goes on into, as they come: neighbours of one receiver pass one gate. The calls of a list that was handed to
/// an engine, and comes to be run in order since that declined, pass none.
#[derive(Drop)]
pub struct Entered {
    passes: Cell<bool>,
    last: Cell<Neighbours>,
    refused: Cell<bool>,
}

impl Entered {
    /// No call came yet.
    pub fn none() -> Entered {
        Entered {
            passes: Cell::new(false),
            last: Cell::new(Neighbours::none()),
            refused: Cell::new(false),
        }
    }

    /// The loop that comes next isn't handed on, since its first calls gain nothing.
    pub fn refuse(&self) {
        self.refused.set(true);
    }

    /// Whether what comes is such a loop.
    pub fn is_refused(&self) -> bool {
        self.refused.replace(false)
    }

    /// A marked call comes, or a marked loop: the run goes on into it, or hands it on.
    pub fn begin(&self, goes_on: bool) {
        self.passes.set(goes_on);
        self.last.set(Neighbours::none());
    }

    /// Whether a call on this object, which runs now, passes the gate.
    pub fn passes(&self, object: u32) -> bool {
        if !self.passes.get() {
            return false;
        }
        let mut last = self.last.get();
        let begins = last.begins(object);
        self.last.set(last);
        begins
    }
}
