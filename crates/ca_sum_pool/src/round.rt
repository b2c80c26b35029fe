//! Rounds of replicas: from first tasks to replicas and what is left, `Rounded` of `specs/Rounded.antt`.

ghost use Rattle.std.specs.Prelude.{◌≡◌, ◌<◌, ◌++◌, All, map, IfOk};
ghost use Rattle.ca_program.specs.View.{program_view};
ghost use Rattle.ca_logs.specs.declared.log.Task.{Task};
ghost use Rattle.ca_logs.specs.Entries.{task_after};
ghost use Rattle.ca_sum_laws.specs.Replicas.{MayRun};
ghost use Rattle.ca_replica.specs.Applied.{IsRound};
ghost use Rattle.ca_replica.specs.Adding.{Once};
ghost use Rattle.ca_sum_pool.specs.Parts.{setting_of};
ghost use Rattle.ca_sum_pool.specs.Rounded.{Rounded};

use crate::finishing::{add_tasks_of, finish, first_why_of};
use crate::performing::Sums;
use crate::working::{Left, work};
use ca_base::{Gate, Memory};
use ca_beside::Beside;
use ca_deques::Round as Setting;
use ca_extent::Extent;
use ca_logs::{Stop, Task};
use ca_model::Heap;
use ca_parallel::Op;
use ca_replica::Replica;
use ca_sections::Coded;
use std::alloc::Global;
use std::marker::Brand;
use std::sync::Wait;
use std::thread::Threads;

/// What a round leaves: what each worker added, the caller last, the tasks that are left, the steps of all that ran,
/// unless these are more than are left, and why a section stopped.
#[derive(Drop)]
pub struct SummedRound {
    pub replicas: Vec<Replica>,
    pub rest: Vec<Task>,
    pub steps: Option<u64>,
    pub stop: Option<Stop>,
}

/// A round, in its setting.
fn run_round<
    N: Setting + Send + Sync,
    K: Sums + Send + Sync,
    R: Threads + Wait + Sync,
    G: Gate + Sync,
>(
    rt: &R,
    alloc: Global,
    program: &Coded<'_>,
    extent: &Extent,
    frozen: &Heap,
    gate: &G,
    workers: usize,
    listed: &[Op],
    first: Vec<Task>,
    quota: u32,
    left: u64,
    memory: &mut Beside,
) -> Result<SummedRound, Memory>
    requires picked { (K.extent ≡ extent.now) × (left ≡ K.left) }
    requires lent { K.listed ≡ listed.now }
    requires round { IsRound (program_view program.now) extent.now frozen.now }
    requires once { Once extent.now.written }
    requires setting { N.setting ≡ setting_of (program_view program.now) extent.now frozen.now }
    requires some { 0 < workers }
    requires listed { All (MayRun (program_view program.now) extent.now frozen.now) (map (task_after 0) listed.now) }
    requires first { All (MayRun (program_view program.now) extent.now frozen.now) first.items × All (λ (t : Task). t.after ≡ 0) first.items }
    requires quota { 0 < quota }
    ensures rounded { IfOk result (Rounded (program_view program.now) extent.now frozen.now left quota (map (task_after 0) listed.now ++ first.items)) }
    ensures memory { IfOk result (λ _. memory.new ≡ memory.old) }
{
    let Left {
        mut replicas,
        mut rest,
        mut stuck,
        count,
        mut steps,
    } = work::<N, K, R, G>(
        rt, alloc, program, extent, frozen, gate, workers, listed, first, quota, left, memory,
    )?;
    let replica = finish(
        alloc, program, extent, frozen, &mut rest, &mut stuck, &mut steps, quota, left, count,
    )?;
    replicas.push(replica)?;
    let stop = first_why_of(stuck.as_slice());
    add_tasks_of(stuck.as_slice(), &mut rest)?;
    Ok(SummedRound {
        replicas,
        rest,
        steps,
        stop,
    })
}

/// Runs a round of an extent that only sums: lends each worker some of the calls of a list, deals the first tasks to them, lets
/// each run as many tasks as the quota on a replica of its own, and, where fewer entries than the quota are there, no section
/// stopped and there are clocks, goes on by itself. The gate is passed by each worker before each section, and not by the
/// caller. First tasks are those of the list and the others. Copies are made in the memory of spare objects that stand beside
/// the heap, as far as there are some; what changed there stays.
///
/// Over all interleavings: each task runs once and is collected once. The stop is that of the first entry with one. Where
/// there is a first task there is an entry; where there is no stop, the rest isn't empty and no entry has the last clock,
/// there are as many entries as the quota. Each entry without a stop is the complete section of its task on the frozen
/// object, and one with a stop stops so there. With all replicas added, any heap that stands for the frozen one becomes
/// what a run of the pending machine leaves, by clock and object.
pub fn round_summed<R: Threads + Wait + Sync, G: Gate + Sync>(
    rt: &R,
    alloc: Global,
    program: &Coded<'_>,
    extent: &Extent,
    frozen: &Heap,
    gate: &G,
    workers: usize,
    listed: &[Op],
    first: Vec<Task>,
    quota: u32,
    left: u64,
    memory: &mut Beside,
) -> Result<SummedRound, Memory>
    requires round { IsRound (program_view program.now) extent.now frozen.now }
    requires once { Once extent.now.written }
    requires some { 0 < workers }
    requires listed { All (MayRun (program_view program.now) extent.now frozen.now) (map (task_after 0) listed.now) }
    requires first { All (MayRun (program_view program.now) extent.now frozen.now) first.items × All (λ (t : Task). t.after ≡ 0) first.items }
    requires quota { 0 < quota }
    ensures rounded { IfOk result (Rounded (program_view program.now) extent.now frozen.now left quota (map (task_after 0) listed.now ++ first.items)) }
    ensures memory { IfOk result (λ _. memory.new ≡ memory.old) }
{
    run_round::<Brand, Brand, R, G>(
        rt, alloc, program, extent, frozen, gate, workers, listed, first, quota, left, memory,
    )
}
