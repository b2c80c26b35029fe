//! The workers' part of a round, from the first tasks to what is left.

ghost use Rattle.std.specs.Prelude.{◌≡◌, ◌<◌, ◌++◌, map, IfOk};
ghost use Rattle.ca_program.specs.View.{program_view};
ghost use Rattle.ca_logs.specs.Entries.{task_after};
ghost use Rattle.ca_deques.specs.Settings.{AllFit};
ghost use Rattle.ca_replica.specs.Applied.{IsRound};
ghost use Rattle.ca_sum_pool.specs.Parts.{Worked, setting_of};

use crate::assembling::{Apart, assemble, take_apart};
use crate::performing::{Stuck, Sums};
use crate::running::run_all;
use ca_base::Gate;
use ca_beside::Beside;
use ca_deques::{Round, deal, open_owners, open_thieves, settle};
use ca_extent::Extent;
use ca_logs::Task;
use ca_model::Heap;
use ca_parallel::Op;
use ca_replica::Replica;
use ca_sections::Coded;
use std::alloc::{AllocError, Global};
use std::sync::Wait;
use std::thread::Threads;

/// What workers leave: their replicas, the tasks that are left, those whose sections stopped, and how many ran, or
/// more, in how many steps.
#[derive(Drop)]
pub struct Left {
    pub replicas: Vec<Replica>,
    pub rest: Vec<Task>,
    pub stuck: Vec<Stuck>,
    pub count: u32,
    pub steps: Option<u64>,
}

/// Deals the first tasks to the workers, lends each its calls of the list and memory for copies, lets them run, and takes back
/// their passes and what their deques and shares hold.
pub fn work<
    N: Round + Send + Sync,
    K: Sums + Send + Sync,
    R: Threads + Wait + Sync,
    G: Gate + Sync,
>(
    rt: &R,
    alloc: Global,
    program: &Coded<'_>,
    extent: &Extent,
    frozen: &Heap,
    gate: &G,
    workers: usize,
    listed: &[Op],
    first: Vec<Task>,
    quota: u32,
    left: u64,
    memory: &mut Beside,
) -> Result<Left, AllocError>
    requires picked { (K.extent ≡ extent.now) × (left ≡ K.left) }
    requires round { IsRound (program_view program.now) extent.now frozen.now }
    requires setting { N.setting ≡ setting_of (program_view program.now) extent.now frozen.now }
    requires some { 0 < workers }
    requires listed { K.listed ≡ listed.now }
    requires calls { AllFit N.setting (map (task_after 0) listed.now) }
    requires first { AllFit N.setting first.items }
    ensures worked { IfOk result (Worked N.setting K.extent K.left (map (task_after 0) listed.now ++ first.items)) }
    ensures memory { IfOk result (λ _. memory.new ≡ memory.old) }
{
    let mut rest = Vec::new(alloc);
    let mut owners = open_owners::<N>(alloc, workers)?;
    let thieves = open_thieves(alloc, &mut owners)?;
    deal(&mut owners, first, &mut rest, &[])?;
    let mut parts = assemble::<N, K>(alloc, owners, thieves, listed.len(), quota, left, memory)?;
    run_all(
        rt,
        program,
        extent,
        frozen,
        gate,
        listed,
        parts.as_mut_slice(),
    );
    let Apart {
        owners,
        thieves,
        replicas,
        stuck,
        count,
        steps,
        mut rest,
    } = take_apart(alloc, parts, rest, listed, left)?;
    settle(rt, owners, thieves, &mut rest)?;
    Ok(Left {
        replicas,
        rest,
        stuck,
        count,
        steps,
    })
}
