//! What one worker has, and its loop.

ghost use Rattle.std.specs.Prelude.{◌≡◌, ℕ, [], map};
ghost use Rattle.ca_program.specs.View.{program_view};
ghost use Rattle.ca_meaning.specs.Multisets.{weight};
ghost use Rattle.ca_logs.specs.declared.log.Task.{Task};
ghost use Rattle.ca_logs.specs.Entries.{task_after};
ghost use Rattle.ca_deques.specs.Hands.{IsUnused};
ghost use Rattle.ca_deques.specs.Settings.{AllFit};
ghost use Rattle.ca_deques.specs.Thieves.{owner_key, key_of, taken_by_thief};
ghost use Rattle.ca_replica.specs.Applied.{IsRound};
ghost use Rattle.ca_replica.specs.Calls.{Marks};
ghost use Rattle.ca_sum_pool.specs.Parts.{Sound, begun, setting_of};

use crate::callers::callers_of;
use crate::counting::{add_steps, one_more};
use crate::next::{runs_whole, take_next};
use crate::performing::{PATIENCE, Stuck, Sums, Turn, WholeCalls, perform};
use ca_base::Gate;
use ca_deques::{Owner, Round, Thieves};
use ca_extent::Extent;
use ca_logs::Task;
use ca_model::Heap;
use ca_parallel::Op;
use ca_program::OpId;
use ca_replica::{Bench, FieldMark, Replica, marks_of};
use ca_sections::{Coded, Desk};
use std::alloc::Global;
use std::marker::{Model, PhantomData};

/// What one worker has: its deque, its passes on the others', its replica, its share of what is left, its calls of the list
/// that the round began with, and the task whose section stopped. Contracts see it as what stays the same while it runs. What each
/// task changes stands in the middle: no line of a cache has that and something of another part.
#[derive(Drop)]
pub struct Part<N: Round, K: Sums> {
    owner: Owner<N>,
    thieves: Thieves<N>,
    replica: Replica,
    share: Vec<Task>,
    /// Its calls of the list, from one place on, up to another,
    from: usize,
    to: usize,
    /// and those of them that neither ran nor are opened to others.
    at: usize,
    end: usize,
    /// So many tasks ran, or more.
    count: u32,
    /// Their steps, unless they are more than are left.
    steps: Option<u64>,
    stuck: Option<Stuck>,
    /// Memory was wanting.
    short: bool,
    worker: u32,
    /// How many tasks it may run, and within how many steps each.
    quota: u32,
    left: u64,
    alloc: Global,
    of: PhantomData<K>,
}

impl<N: Round, K: Sums> Model for Part<N, K> {
    ghost use Rattle.std.specs.Prelude.{◌≡◌, map};
    ghost use Rattle.ca_deques.specs.Thieves.{owner_key, key_of};
    ghost use Rattle.ca_sum_pool.specs.Parts.{PartKey, Sound, begun};

    ghost Value = { PartKey };

    ghost view = { λ p. record { owner = owner_key p.owner; thieves = map key_of p.thieves; mine = begun K.listed p.from p.to } };

    ghost invariant = { λ p. (p.left ≡ K.left) × Sound N.setting K.extent K.left p.owner.hand p.thieves p.replica.copies p.share.items (begun K.listed p.from p.to) (begun K.listed p.at p.end) p.stuck p.count p.steps p.short };
}

/// What a part is made of.
pub struct Pieces<N: Round> {
    pub owner: Owner<N>,
    pub thieves: Thieves<N>,
    pub replica: Replica,
    pub share: Vec<Task>,
    pub from: usize,
    pub to: usize,
    pub at: usize,
    pub end: usize,
    pub stuck: Option<Stuck>,
    pub count: u32,
    pub steps: Option<u64>,
    pub short: bool,
}

impl<N: Round, K: Sums> Part<N, K> {
    /// The part of a worker that has run nothing, with a replica without sums, and the calls of the list from one place on, up
    /// to another. It takes no memory.
    pub fn of(
        alloc: Global,
        owner: Owner<N>,
        thieves: Thieves<N>,
        replica: Replica,
        from: usize,
        to: usize,
        worker: u32,
        quota: u32,
        left: u64,
    ) -> Part<N, K>
        requires unused { IsUnused owner.hand × ((h : Task → ℕ) → weight (taken_by_thief h) thieves ≡ 0) }
        requires none { replica.copies ≡ [] }
        requires left { left ≡ K.left }
        ensures { result ≡ record { owner = owner_key owner; thieves = map key_of thieves; mine = begun K.listed from to } }
    {
        Part {
            owner,
            thieves,
            replica,
            share: Vec::new(alloc),
            from,
            to,
            at: from,
            end: to,
            stuck: None,
            count: 0,
            steps: Some(0),
            short: false,
            worker,
            quota,
            left,
            alloc,
            of: PhantomData,
        }
    }

    /// Takes it apart. What is known of it is known of its pieces.
    pub fn apart(self) -> Pieces<N>
        ensures same { self ≡ record { owner = owner_key result.owner; thieves = map key_of result.thieves; mine = begun K.listed result.from result.to } }
        ensures sound { Sound N.setting K.extent K.left result.owner.hand result.thieves result.replica.copies result.share.items (begun K.listed result.from result.to) (begun K.listed result.at result.end) result.stuck result.count result.steps result.short }
    {
        let Part {
            owner,
            thieves,
            replica,
            share,
            from,
            to,
            at,
            end,
            stuck,
            count,
            steps,
            short,
            worker: _,
            quota: _,
            left: _,
            alloc: _,
            of: _,
        } = self;
        Pieces {
            owner,
            thieves,
            replica,
            share,
            from,
            to,
            at,
            end,
            stuck,
            count,
            steps,
            short,
        }
    }

    /// Takes a task, or a call of the list, and runs it, with all that it leads to where there are others; there is room for what its
    /// section lists. `false` where it found none, or where it is the last one of this round.
    fn step<G: Gate>(
        &mut self,
        desk: &mut Desk,
        bench: &mut Bench,
        marks: &[FieldMark],
        callers: &[OpId],
        program: &Coded<'_>,
        extent: &Extent,
        frozen: &Heap,
        gate: &G,
        listed: &[Op],
        patience: &mut WholeCalls,
        room: &mut Vec<Op>,
    ) -> bool
        requires marks { Marks extent.now.written marks.now }
        requires picked { K.extent ≡ extent.now }
        requires listed { K.listed ≡ listed.now }
        requires calls { AllFit N.setting (map (task_after 0) listed.now) }
        requires round { IsRound (program_view program.now) extent.now frozen.now }
        requires setting { N.setting ≡ setting_of (program_view program.now) extent.now frozen.now }
        ensures { self.new ≡ self.old }
    {
        if self.short {
            return false;
        }
        if self.stuck.is_some() {
            return false;
        }
        let Some(next) = take_next(
            &mut self.owner,
            &mut self.thieves,
            &mut self.share,
            listed,
            &mut self.at,
            &mut self.end,
        ) else {
            return false;
        };
        let alloc = self.alloc;
        let left = self.left;
        let worker = self.worker;
        let op = next.call().op;
        let whole = runs_whole(*patience, &self.share, self.at, self.end, callers, op);
        let turn = perform::<N, G>(
            alloc,
            desk,
            bench,
            marks,
            program,
            extent,
            frozen,
            gate,
            worker,
            &mut self.owner,
            &mut self.replica,
            &mut self.share,
            whole,
            patience,
            left,
            room,
            next,
        );
        match turn {
            Turn::Ran { steps } => {
                self.count = one_more(self.count, self.quota);
                self.steps = add_steps(self.steps, steps, left);
                true
            }
            Turn::Kept => false,
            Turn::Stopped(stuck) => {
                self.stuck = Some(stuck);
                false
            }
            Turn::Short => {
                self.short = true;
                false
            }
        }
    }

    /// Runs at most so many tasks as the quota says.
    fn run_quota<G: Gate>(
        &mut self,
        desk: &mut Desk,
        marks: &[FieldMark],
        callers: &[OpId],
        program: &Coded<'_>,
        extent: &Extent,
        frozen: &Heap,
        gate: &G,
        listed: &[Op],
    )
        requires marks { Marks extent.now.written marks.now }
        requires picked { K.extent ≡ extent.now }
        requires listed { K.listed ≡ listed.now }
        requires calls { AllFit N.setting (map (task_after 0) listed.now) }
        requires round { IsRound (program_view program.now) extent.now frozen.now }
        requires setting { N.setting ≡ setting_of (program_view program.now) extent.now frozen.now }
        ensures { self.new ≡ self.old }
    {
        let mut room = Vec::new(self.alloc);
        let mut bench = Bench::new(self.alloc);
        let mut patience = PATIENCE;
        for _ in 0..self.quota {
            if !self.step(
                desk,
                &mut bench,
                marks,
                callers,
                program,
                extent,
                frozen,
                gate,
                listed,
                &mut patience,
                &mut room,
            ) {
                return;
            }
        }
    }

    /// Runs at most so many tasks as the quota says, at a desk of its own.
    pub fn run<G: Gate>(
        &mut self,
        program: &Coded<'_>,
        extent: &Extent,
        frozen: &Heap,
        gate: &G,
        listed: &[Op],
    )
        requires picked { K.extent ≡ extent.now }
        requires listed { K.listed ≡ listed.now }
        requires calls { AllFit N.setting (map (task_after 0) listed.now) }
        requires round { IsRound (program_view program.now) extent.now frozen.now }
        requires setting { N.setting ≡ setting_of (program_view program.now) extent.now frozen.now }
        ensures { self.new ≡ self.old }
    {
        let Ok(mut desk) = Desk::new(self.alloc) else {
            self.short = true;
            return;
        };
        let Ok(marks) = marks_of(self.alloc, extent) else {
            self.short = true;
            return;
        };
        let Ok(callers) = callers_of(self.alloc, program, extent) else {
            self.short = true;
            return;
        };
        self.run_quota(
            &mut desk,
            marks.as_slice(),
            callers.as_slice(),
            program,
            extent,
            frozen,
            gate,
            listed,
        )
    }
}
