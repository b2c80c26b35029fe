//! The demands of an execution, in groups under their conditions: `demands_of` of `specs/Demanded.antt`.

ghost use Rattle.std.specs.Prelude.{◌≡◌, ◌<◌, ◌^◌, [], ◌∷◌, length, false, IfOk, OnOk};
ghost use Rattle.ca_symbolic.specs.States.{demand};
ghost use Rattle.ca_symbolic.specs.Demanded.{kind_of, demands_of, nothing_demanded, with_demands, under};
ghost use Rattle.ca_shared_terms.specs.Heavy.{is_heavy};

use ca_program::{FieldId, FunctionId, LoopId, OpId};
use ca_shared_terms::LightTerm;
use std::alloc::{AllocError, Global};
use std::marker::Model;
use std::mem;

/// What is demanded: that a pointer is not null, that an index lies in an array, a call of a value method, a call of an
/// operation, a loop of calls, or that a range lies in an array.
#[derive(Clone, Copy)]
pub enum DemandKind {
    NotNull,
    InRange(FieldId),
    Calls(FunctionId),
    Invokes(OpId),
    Loops(LoopId),
    Sweeps(FieldId),
}

/// A demand. Its parts are the pointer; the index; the receiver and then the arguments; what the locals hold that a
/// loop reads; or the bounds of the range.
#[derive(Drop)]
pub struct Demand {
    pub kind: DemandKind,
    pub parts: Vec<LightTerm>,
}

/// Demands under one condition, in the order of evaluation.
#[derive(Drop)]
pub struct Group {
    pub guard: LightTerm,
    pub items: Vec<Demand>,
}

/// All demands so far in the order of evaluation, and the condition under which the next ones come. A group begins where
/// the condition changes, so a condition is kept once and looked at once.
#[derive(Drop)]
pub struct Demands {
    closed: Vec<Group>,
    guard: LightTerm,
    items: Vec<Demand>,
    /// At least as many as there are.
    count: u64,
}

impl Model for Demands {
    ghost use Rattle.std.specs.Prelude.{◌≤◌, ◌<◌, ◌^◌, ◌++◌, length, map};
    ghost use Rattle.ca_symbolic.specs.Demanded.{Demanded, demand_of, demands_of};

    ghost Value = { Demanded };

    ghost use Rattle.ca_symbolic.specs.StateCodes.{coded_demanded};

    ghost coded = { coded_demanded };

    ghost view = { λ d. record { guard = d.guard; list = demands_of d.closed.items ++ map (demand_of d.guard) d.items.items } };

    ghost invariant = { λ d. (length (demands_of d.closed.items ++ map (demand_of d.guard) d.items.items) ≤ d.count) × (d.count < 2 ^ 64) };
}

impl Demands {
    /// None, and no condition.
    pub fn new(alloc: Global) -> Result<Demands, AllocError>
        ensures { IfOk result (λ d. d ≡ nothing_demanded) }
    {
        let guard = LightTerm::truth(alloc, true)?;
        Ok(Demands {
            closed: Vec::new(alloc),
            guard,
            items: Vec::new(alloc),
            count: 0,
        })
    }

    /// The condition under which the next ones come.
    pub fn guard(&self) -> Result<LightTerm, AllocError>
        ensures { IfOk result (λ t. t ≡ self.now.guard) }
    {
        self.guard.share()
    }

    /// From here on they come under another condition.
    pub fn open(&mut self, alloc: Global, guard: LightTerm) -> Result<(), AllocError>
        ensures { OnOk result (self.new ≡ under self.old guard) }
    {
        let items = mem::replace(&mut self.items, Vec::new(alloc));
        let guard = mem::replace(&mut self.guard, guard);
        if !items.is_empty() {
            self.closed.push(Group { guard, items })?;
        }
        Ok(())
    }

    /// One more.
    pub fn push(&mut self, kind: DemandKind, parts: Vec<LightTerm>) -> Result<(), AllocError>
        ensures { OnOk result (self.new ≡ with_demands self.old (demand self.old.guard (kind_of kind) parts.items ∷ [])) }
    {
        let Some(count) = self.count.checked_add(1) else {
            return Err(AllocError);
        };
        self.count = count;
        self.items.push(Demand { kind, parts })?;
        Ok(())
    }

    /// All of them, by groups. Their number fits a word.
    pub fn into_groups(self) -> Result<Vec<Group>, AllocError>
        ensures list { IfOk result (λ v. demands_of v.items ≡ self.list) }
        ensures few { IfOk result (λ v. length (demands_of v.items) < 2 ^ 64) }
    {
        let mut closed = self.closed;
        closed.push(Group {
            guard: self.guard,
            items: self.items,
        })?;
        Ok(closed)
    }
}
