//! One task, run on a replica.

ghost use Rattle.std.specs.Prelude.{◌≡◌, ◌≢◌, ◌+◌, [], true, map, ℕ, List, IfOk};
ghost use Rattle.ca_program.specs.View.{program_view};
ghost use Rattle.ca_parallel.specs.Extents.{Extent};
ghost use Rattle.ca_parallel.specs.declared.op.Op.{Op};
ghost use Rattle.ca_meaning.specs.Multisets.{weight};
ghost use Rattle.ca_order_laws.specs.Order.{StandsFor};
ghost use Rattle.ca_logs.specs.declared.log.Task.{Task};
ghost use Rattle.ca_logs.specs.Entries.{task_after};
ghost use Rattle.ca_deques.specs.Settings.{Fits, AllFit};
ghost use Rattle.ca_deques.specs.Thieves.{owner_key};
ghost use Rattle.ca_replica.specs.Applied.{IsRound, sums};
ghost use Rattle.ca_replica.specs.Calls.{Marks};
ghost use Rattle.ca_sum_pool.specs.Parts.{Keeps, Performed, Tells, WentSo, WentWhole, next_task, no_extent, setting_of};
ghost use Rattle.ca_sum_pool.specs.Rounded.{last_clock};

use crate::next::Next;
use ca_base::{Gate, Memory};
use ca_deques::taking::{keep, open_some};
use ca_deques::{Owner, Round};
use ca_extent::Extent;
use ca_logs::{Stop, Task};
use ca_model::Heap;
use ca_parallel::Op;
use ca_replica::{Bench, FieldMark, Replica};
use ca_sections::{Coded, Desk, SectionAnswer};
use std::alloc::Global;
use std::marker::Brand;
use std::mem;

/// The extent of a round, the list of calls that it begins with, and the steps that are left. Whoever begins one picks them.
pub trait Sums {
    ghost extent: { Extent };

    ghost listed: { List Op };

    ghost left: { ℕ };
}

impl Sums for Brand {
    ghost extent = { no_extent };

    ghost listed = { [] };

    ghost left = { 0 };
}

/// A task whose section stopped, and why.
#[derive(Drop)]
pub struct Stuck {
    pub task: Task,
    pub why: Stop,
}

/// How a call went.
#[derive(Drop)]
pub enum Went {
    /// Its section is done. It lists these operations, which run behind this clock, and took so many steps.
    Ran {
        ops: Vec<Op>,
        clock: u64,
        steps: u64,
    },
    /// Its section stopped.
    Stopped(Stop),
}

/// Runs a call that waited behind a clock, on the replica. What its section lists goes into a list whose memory is given.
#[inline(always)]
pub fn run_task(
    desk: &mut Desk,
    alloc: Global,
    program: &Coded<'_>,
    extent: &Extent,
    frozen: &Heap,
    replica: &mut Replica,
    left: u64,
    op: &Op,
    after: u64,
    room: Vec<Op>,
) -> Result<Went, Memory>
    requires round { IsRound (program_view program.now) extent.now frozen.now }
    requires stands { StandsFor (program_view program.now) extent.now frozen.now (sums extent.now.written frozen.now replica.old.copies) }
    requires fits { Fits (setting_of (program_view program.now) extent.now frozen.now) (task_after after op.now) }
    requires clock { after ≢ last_clock }
    requires room { room.items ≡ [] }
    ensures { IfOk result (WentSo (program_view program.now) extent.now frozen.now left (task_after after op.now) replica.old.copies replica.new.copies) }
{
    let clock = after + 1;
    let mut ops = room;
    match replica.apply(desk, alloc, program, extent, frozen, op, left, &mut ops) {
        Ok(SectionAnswer::Done { steps }) => Ok(Went::Ran { ops, clock, steps }),
        Ok(SectionAnswer::Trapped(trap)) => Ok(Went::Stopped(Stop::Trapped(trap))),
        Ok(SectionAnswer::Spent) => Ok(Went::Stopped(Stop::Spent)),
        Err(cause) => Err(cause),
    }
}

/// How a worker goes on behind a task.
#[derive(Drop)]
pub enum Turn {
    /// It ran, in so many steps.
    Ran { steps: u64 },
    /// It was kept, since no clock is behind its own.
    Kept,
    /// Its section stopped.
    Stopped(Stuck),
    /// Memory was wanting.
    Short,
}

/// How a worker runs calls with all that they lead to in a round: within so many steps each, and whether one was done so.
#[derive(Clone, Copy)]
pub struct WholeCalls {
    pub steps: u64,
    pub went: bool,
}

/// What a worker begins with.
pub const PATIENCE: WholeCalls = WholeCalls {
    steps: 16_384,
    went: false,
};

/// Runs a call with all that it leads to, if that is asked for, within so many steps as are left, and within a patience, of which
/// nothing is left where it isn't done: long calls are worth more where others take parts of them. `None`: then all sums are as before.
fn run_whole<G: Gate>(
    whole: bool,
    bench: &mut Bench,
    marks: &[FieldMark],
    alloc: Global,
    program: &Coded<'_>,
    extent: &Extent,
    frozen: &Heap,
    gate: &G,
    worker: u32,
    replica: &mut Replica,
    patience: &mut WholeCalls,
    left: u64,
    op: &Op,
    after: u64,
) -> Option<u64>
    requires round { IsRound (program_view program.now) extent.now frozen.now }
    requires marks { Marks extent.now.written marks.now }
    requires stands { StandsFor (program_view program.now) extent.now frozen.now (sums extent.now.written frozen.now replica.old.copies) }
    requires fits { Fits (setting_of (program_view program.now) extent.now frozen.now) (task_after after op.now) }
    ensures { WentWhole (program_view program.now) extent.now frozen.now (task_after after op.now) replica.old.copies replica.new.copies result }
{
    if !whole {
        return None;
    }
    let most = left.min(patience.steps);
    match replica.complete(
        bench, marks, alloc, program, extent, frozen, gate, worker, op, most,
    ) {
        Ok(Some(steps)) => {
            patience.went = true;
            Some(steps)
        }
        Ok(None) => {
            patience.steps = 0;
            None
        }
        Err(_) => None,
    }
}

/// Runs a task, or a call of the list, on a worker's replica: with all that it leads to, where it may be and that is soon done,
/// and else its section. Tasks that this lists are pushed; one that is kept goes into the share. The memory of a list of operations
/// serves the next one.
pub fn perform<'f, N: Round, G: Gate>(
    alloc: Global,
    desk: &mut Desk,
    bench: &mut Bench,
    marks: &[FieldMark],
    program: &Coded<'_>,
    extent: &Extent,
    frozen: &Heap,
    gate: &G,
    worker: u32,
    owner: &mut Owner<N>,
    replica: &mut Replica,
    share: &mut Vec<Task>,
    whole: bool,
    patience: &mut WholeCalls,
    left: u64,
    room: &mut Vec<Op>,
    next: Next<'f>,
) -> Turn
    requires round { IsRound (program_view program.now) extent.now frozen.now }
    requires marks { Marks extent.now.written marks.now }
    requires setting { N.setting ≡ setting_of (program_view program.now) extent.now frozen.now }
    requires share { AllFit N.setting share.old.items }
    requires fits { Fits N.setting (next_task next) }
    requires stands { StandsFor (program_view program.now) extent.now frozen.now (sums extent.now.written frozen.now replica.old.copies) }
    ensures { Performed N.setting extent.now left (next_task next.entry) owner.old owner.new replica.old.copies replica.new.copies share.old.items share.new.items result }
{
    let after = next.behind();
    let op = next.call();
    match run_whole(
        whole, bench, marks, alloc, program, extent, frozen, gate, worker, replica, patience, left,
        op, after,
    ) {
        Some(steps) => Turn::Ran { steps },
        None => perform_section(
            alloc, desk, program, extent, frozen, gate, worker, owner, replica, share, left, room,
            next,
        ),
    }
}

/// Runs the section of a task, or of a call of the list, on a worker's replica. Tasks that it lists are pushed; one that is kept
/// goes into the share.
fn perform_section<'f, N: Round, G: Gate>(
    alloc: Global,
    desk: &mut Desk,
    program: &Coded<'_>,
    extent: &Extent,
    frozen: &Heap,
    gate: &G,
    worker: u32,
    owner: &mut Owner<N>,
    replica: &mut Replica,
    share: &mut Vec<Task>,
    left: u64,
    room: &mut Vec<Op>,
    next: Next<'f>,
) -> Turn
    requires round { IsRound (program_view program.now) extent.now frozen.now }
    requires setting { N.setting ≡ setting_of (program_view program.now) extent.now frozen.now }
    requires share { AllFit N.setting share.old.items }
    requires fits { Fits N.setting (next_task next) }
    requires stands { StandsFor (program_view program.now) extent.now frozen.now (sums extent.now.written frozen.now replica.old.copies) }
    ensures { Performed N.setting extent.now left (next_task next.entry) owner.old owner.new replica.old.copies replica.new.copies share.old.items share.new.items result }
{
    let after = next.behind();
    if after == u64::MAX {
        return kept(share, next);
    }
    let op = next.call();
    gate.inside(worker, op.receiver);
    let mut list = mem::replace(room, Vec::new(alloc));
    list.clear();
    match run_task(
        desk, alloc, program, extent, frozen, replica, left, op, after, list,
    ) {
        Ok(Went::Ran { ops, clock, steps }) => {
            if push_ops(owner, share, ops, clock, room) {
                Turn::Ran { steps }
            } else {
                Turn::Short
            }
        }
        Ok(Went::Stopped(why)) => stopped(next, why),
        Err(_) => Turn::Short,
    }
}

/// Adds a task for each operation, which runs behind a clock, to the share, and opens some of it; the memory of their list is
/// room for others. `false` is out of memory.
#[inline(always)]
fn push_ops<N: Round>(
    owner: &mut Owner<N>,
    share: &mut Vec<Task>,
    ops: Vec<Op>,
    clock: u64,
    room: &mut Vec<Op>,
) -> bool
    requires share { AllFit N.setting share.old.items }
    requires fits { AllFit N.setting (map (task_after clock) ops.items) }
    ensures same { owner_key owner.new ≡ owner_key owner.old }
    ensures taken { owner.new.hand.taken ≡ owner.old.hand.taken }
    ensures share { AllFit N.setting share.new.items }
    ensures pushed { result ≡ true → (h : Task → ℕ) → weight h owner.new.hand.pushed + weight h share.new.items ≡ weight h owner.old.hand.pushed + weight h share.old.items + weight h (map (task_after clock) ops.items) }
{
    if ops.len() == 0 {
        *room = ops;
        return true;
    }
    if !keep_ops::<N>(share, ops, clock, room) {
        return false;
    }
    open_some(owner, share, &[]);
    true
}

/// Adds a task for each operation, which runs behind a clock, to the share; the memory of their list is room for others. `false`
/// is out of memory.
fn keep_ops<N: Round>(
    share: &mut Vec<Task>,
    mut ops: Vec<Op>,
    clock: u64,
    room: &mut Vec<Op>,
) -> bool
    requires share { AllFit N.setting share.old.items }
    requires fits { AllFit N.setting (map (task_after clock) ops.items) }
    ensures share { AllFit N.setting share.new.items }
    ensures added { result ≡ true → (h : Task → ℕ) → weight h share.new.items ≡ weight h share.old.items + weight h (map (task_after clock) ops.items) }
{
    while let Some(op) = ops.pop() {
        if keep(share, Task { op, after: clock }) {
            continue;
        }
        return false;
    }
    *room = ops;
    true
}

/// Keeps a task in the share.
fn kept<'f>(share: &mut Vec<Task>, next: Next<'f>) -> Turn
    ensures { Keeps share.old.items (next_task next.entry) share.new.items result }
{
    let Ok(task) = next.into_task() else {
        return Turn::Short;
    };
    if keep(share, task) {
        Turn::Kept
    } else {
        Turn::Short
    }
}

/// A task whose section stopped.
fn stopped<'f>(next: Next<'f>, why: Stop) -> Turn
    ensures { Tells (next_task next.entry) why result }
{
    match next.into_task() {
        Ok(task) => Turn::Stopped(Stuck { task, why }),
        Err(_) => Turn::Short,
    }
}
