//! A turn: a round of what waits, in cells or on replicas, and what it changed put beside the heap; or, where rounds don't pay, a run of what
//! waits in order.

ghost use Rattle.std.specs.Prelude.{◌≡◌, ◌↔◌, ◌<◌, ◌≤◌, ◌+◌, ◌*◌, true, All, Contains, IsTrue, List, length, IfOk};
ghost use Rattle.ca_program.specs.View.{program_view};
ghost use Rattle.ca_program.specs.declared.program.OpId.{OpId};
ghost use Rattle.ca_model.specs.declared.value.Object.{Object};
ghost use Rattle.ca_model.specs.Heaps.{values_in};
ghost use Rattle.ca_beside.specs.Beside.{present};
ghost use Rattle.ca_cells.specs.Logs.{touched_in};
ghost use Rattle.ca_logs.specs.declared.log.Task.{Task};
ghost use Rattle.ca_logs.specs.Entries.{task_calls};
ghost use Rattle.ca_logs.specs.Laws.{objects_of};
ghost use Rattle.ca_logs.specs.Touched.{logs_of};
ghost use Rattle.ca_pool.specs.Gathered.{IsTold};
ghost use Rattle.ca_sum_laws.specs.Summed.{HasOnlySums};
ghost use Rattle.ca_replica.specs.Adding.{Once};
ghost use Rattle.ca_workers.specs.clauses.Runs.{BeginsAnew, IsSetting, MayWait, TurnedTo, with_lent};

use crate::reading::met_in;
use crate::rounds::{Left, Rounds, at_work};
use crate::storing::{store, store_sums};
use crate::tasks::{
    all_tasks, as_many, begin_anew, behind, calls_of, lent_from, most_of, newest_of, tasks_of,
    together,
};
use ca_base::{Gate, Memory};
use ca_beside::Beside;
use ca_cells::RoundLog;
use ca_logs::Task;
use ca_model::Heap;
use ca_parallel::Op;
use ca_replica::summed;
use ca_run::{Progress, run_some};
use ca_schedule::may_copy;
use ca_sections::Desk;
use ca_sum_pool::{SummedRound, round_summed};
use std::alloc::AllocError;
use std::sync::Wait;
use std::thread::Threads;

/// What waits behind a turn: the first ones of the calls that are lent, so many, and tasks behind them; and the steps that it
/// took.
#[derive(Drop)]
pub struct Turn {
    pub lent: usize,
    pub rest: Vec<Task>,
    pub steps: u64,
}

/// What waits behind a round in cells, whose objects, those that it touched, go beside the heap.
pub(crate) fn turn_behind(left: Left, beside: &mut Beside) -> Result<Turn, AllocError>
    requires { IsTold left.log }
    ensures turn { IfOk result (λ turn. turn ≡ record { lent = 0; rest = left.rest; steps = left.steps }) }
    ensures heap { IfOk result (λ _. (h : List Object) → present h beside.new ≡ objects_of (logs_of (present h beside.old) (touched_in left.log))) }
{
    let Left { log, rest, steps } = left;
    let RoundLog {
        numbers,
        logs,
        loose: _,
        heap: _,
        beside: _,
        keeps: _,
    } = log;
    store(numbers, logs, beside)?;
    Ok(Turn {
        lent: 0,
        rest,
        steps,
    })
}

/// A turn in order runs so many operations at most; no run takes as long.
const MOST_IN_ORDER: u64 = u64::MAX;

/// Puts spare memory back beside the heap.
fn give_back(memory: Beside, beside: &mut Beside)
    ensures { beside.new ≡ beside.old }
{
    let _none = memory.into_items(beside);
}

impl<'s, R: Threads + Wait + Sync, G: Gate + Sync> Rounds<'s, R, G> {
    /// Whether each worker keeps sums of its own: where the extent only sums, and copies for each aren't too much.
    pub fn keeps_sums(&self, frozen: &Heap) -> bool
        ensures { IsTrue result ↔ ((values_in frozen.now * self.now.workers ≤ 16000000) × ((op : OpId) → Contains self.now.extent.now.ops op → HasOnlySums (program_view self.now.program.now) self.now.extent.now.written op)) }
    {
        if !may_copy(self.workers, frozen.values()) {
            return false;
        }
        summed(self.program.program(), self.extent)
    }

    /// Runs a round in cells, and takes the objects that it touched beside the heap. Copies are made in the memory of spare objects
    /// that stand there.
    fn turn_in_cells(
        &self,
        frozen: &Heap,
        beside: &mut Beside,
        listed: &[Op],
        waiting: Vec<Task>,
        quota: u32,
        left: u64,
    ) -> Result<Option<Turn>, Memory>
        requires setting { IsSetting (program_view self.now.program.now) self.now.extent.now frozen.now }
        requires waiting { MayWait (program_view self.now.program.now) self.now.extent.now frozen.now (present frozen.now beside.old) (task_calls (with_lent listed.now waiting.items)) }
        requires begins { All (λ (t : Task). t.after ≡ 0) waiting.items }
        requires some { 0 < length listed.now + length waiting.items }
        requires quota { 0 < quota }
        ensures turned { IfOk result (TurnedTo (program_view self.now.program.now) frozen.now (present frozen.now beside.old) listed.now waiting.items left (present frozen.now beside.new)) }
        ensures begins { IfOk result BeginsAnew }
    {
        let tasks = all_tasks(self.alloc, listed, waiting)?;
        let most = most_of(self.workers, quota);
        let mut memory = beside.lend(self.alloc, 0, most);
        let went = self.run_round(frozen, beside, tasks, quota, left, false, &mut memory)?;
        let round = match went {
            Some(round) => round,
            None => return Ok(None),
        };
        self.weigh(&round);
        let turn = turn_behind(round, beside)?;
        give_back(memory, beside);
        Ok(Some(turn))
    }

    /// Runs a round on replicas, and adds their sums to the objects beside the heap.
    ///
    /// The round is given as many of the calls and tasks as its workers may run, the newest; the others stay where they are,
    /// before what the round leaves.
    fn turn_summed(
        &self,
        frozen: &Heap,
        beside: &mut Beside,
        listed: &[Op],
        waiting: Vec<Task>,
        quota: u32,
        left: u64,
    ) -> Result<Option<Turn>, Memory>
        requires setting { IsSetting (program_view self.now.program.now) self.now.extent.now frozen.now }
        requires sums { (op : OpId) → Contains self.now.extent.now.ops op → HasOnlySums (program_view self.now.program.now) self.now.extent.now.written op }
        requires once { Once self.now.extent.now.written }
        requires waiting { MayWait (program_view self.now.program.now) self.now.extent.now frozen.now (present frozen.now beside.old) (task_calls (with_lent listed.now waiting.items)) }
        requires begins { All (λ (t : Task). t.after ≡ 0) waiting.items }
        requires some { 0 < length listed.now + length waiting.items }
        requires quota { 0 < quota }
        ensures turned { IfOk result (TurnedTo (program_view self.now.program.now) frozen.now (present frozen.now beside.old) listed.now waiting.items left (present frozen.now beside.new)) }
        ensures begins { IfOk result BeginsAnew }
    {
        let mut others = waiting;
        let most = most_of(self.workers, quota);
        let first = newest_of(self.alloc, &mut others, most)?;
        let from = lent_from(listed, &others, &first, most);
        let calls = &listed[from..];
        let given = as_many(calls, &first);
        let count = at_work(self.workers, given);
        let SummedRound {
            replicas,
            mut rest,
            steps: sum,
            stop,
        } = round_summed(
            self.rt,
            self.alloc,
            self.program,
            self.extent,
            frozen,
            self.gate,
            count as usize,
            calls,
            first,
            quota,
            left,
            beside,
        )?;
        if stop.is_some() {
            return Ok(None);
        }
        match sum {
            Some(steps) => {
                self.weigh_sums(given, steps);
                store_sums(replicas, self.extent, frozen, beside)?;
                begin_anew(&mut rest);
                let waits = together(others, rest)?;
                Ok(Some(Turn {
                    lent: from,
                    rest: waits,
                    steps,
                }))
            }
            None => Ok(None),
        }
    }

    /// Runs what waits on the calling thread, one operation after the other and beside the heap, and passes the gate before each as
    /// worker 0.
    fn turn_in_order(
        &self,
        frozen: &Heap,
        beside: &mut Beside,
        listed: &[Op],
        waiting: Vec<Task>,
        left: u64,
    ) -> Result<Option<Turn>, Memory>
        requires setting { IsSetting (program_view self.now.program.now) self.now.extent.now frozen.now }
        requires waiting { MayWait (program_view self.now.program.now) self.now.extent.now frozen.now (present frozen.now beside.old) (task_calls (with_lent listed.now waiting.items)) }
        requires some { 0 < length listed.now + length waiting.items }
        ensures turned { IfOk result (TurnedTo (program_view self.now.program.now) frozen.now (present frozen.now beside.old) listed.now waiting.items left (present frozen.now beside.new)) }
        ensures begins { IfOk result BeginsAnew }
    {
        let mut desk = Desk::new(self.alloc)?;
        let mut ops = calls_of(self.alloc, waiting)?;
        let mut next: usize = 0;
        let went = run_some(
            self.gate,
            &mut desk,
            self.alloc,
            self.program,
            frozen,
            beside,
            listed,
            &mut next,
            &mut ops,
            left,
            MOST_IN_ORDER,
        )?;
        let steps = match went {
            Progress::Went { steps } => steps,
            Progress::Stuck => return Ok(None),
        };
        let tasks = tasks_of(self.alloc, ops)?;
        let rest = all_tasks(self.alloc, behind(listed, next), tasks)?;
        Ok(Some(Turn {
            lent: 0,
            rest,
            steps,
        }))
    }

    /// Notes whether a round in cells met more than was expected.
    fn weigh(&self, round: &Left) {
        let met = met_in(&round.log, round.steps);
        self.pays.set(self.expected.goes_on(met));
    }

    /// Notes whether a round of sums did, in which so many calls took so many steps.
    fn weigh_sums(&self, calls: usize, steps: u64) {
        self.pays.set(self.expected.sums_go_on(calls, steps));
    }

    /// Runs a round, on replicas where the workers keep sums, and else in cells; or, behind one that met more than was expected, what waits
    /// in order. What changed is beside the heap then. `None`: what waits has no complete run within the budget.
    pub fn turn(
        &self,
        frozen: &Heap,
        beside: &mut Beside,
        listed: &[Op],
        waiting: Vec<Task>,
        quota: u32,
        left: u64,
        sums: bool,
    ) -> Result<Option<Turn>, Memory>
        requires setting { IsSetting (program_view self.now.program.now) self.now.extent.now frozen.now }
        requires sums { sums ≡ true → (op : OpId) → Contains self.now.extent.now.ops op → HasOnlySums (program_view self.now.program.now) self.now.extent.now.written op }
        requires once { Once self.now.extent.now.written }
        requires waiting { MayWait (program_view self.now.program.now) self.now.extent.now frozen.now (present frozen.now beside.old) (task_calls (with_lent listed.now waiting.items)) }
        requires begins { All (λ (t : Task). t.after ≡ 0) waiting.items }
        requires some { 0 < length listed.now + length waiting.items }
        requires quota { 0 < quota }
        ensures turned { IfOk result (TurnedTo (program_view self.now.program.now) frozen.now (present frozen.now beside.old) listed.now waiting.items left (present frozen.now beside.new)) }
        ensures begins { IfOk result BeginsAnew }
    {
        if !self.met_as_expected() {
            return self.turn_in_order(frozen, beside, listed, waiting, left);
        }
        if sums {
            return self.turn_summed(frozen, beside, listed, waiting, quota, left);
        }
        self.turn_in_cells(frozen, beside, listed, waiting, quota, left)
    }
}
