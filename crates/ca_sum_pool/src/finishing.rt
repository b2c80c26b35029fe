//! The tasks that the caller runs itself, on a replica of its own, when all workers have ended.

ghost use Rattle.std.specs.Prelude.{◌≡◌, ◌++◌, [], IfOk};
ghost use Rattle.ca_program.specs.View.{program_view};
ghost use Rattle.ca_order_laws.specs.Order.{StandsFor};
ghost use Rattle.ca_deques.specs.Settings.{Fits, AllFit};
ghost use Rattle.ca_replica.specs.Applied.{IsRound, sums};
ghost use Rattle.ca_sum_pool.specs.Parts.{Finished, RanAlone, first_why, setting_of, tasks_of};

use crate::counting::add_steps;
use crate::performing::{Stuck, Went, run_task};
use ca_base::Memory;
use ca_deques::taking::pour_ops;
use ca_extent::Extent;
use ca_logs::{Stop, Task};
use ca_model::Heap;
use ca_replica::Replica;
use ca_sections::{Coded, Desk};
use std::alloc::{AllocError, Global};

/// Runs a task on the caller's replica. What its section lists goes into the rest, and so does the task where no clock is
/// behind its own. `false`: it didn't run.
fn run_alone(
    desk: &mut Desk,
    alloc: Global,
    program: &Coded<'_>,
    extent: &Extent,
    frozen: &Heap,
    replica: &mut Replica,
    rest: &mut Vec<Task>,
    stuck: &mut Vec<Stuck>,
    steps: &mut Option<u64>,
    left: u64,
    task: Task,
) -> Result<bool, Memory>
    requires round { IsRound (program_view program.now) extent.now frozen.now }
    requires stands { StandsFor (program_view program.now) extent.now frozen.now (sums extent.now.written frozen.now replica.old.copies) }
    requires fits { Fits (setting_of (program_view program.now) extent.now frozen.now) task }
    ensures { IfOk result (RanAlone (program_view program.now) extent.now frozen.now left task replica.old.copies replica.new.copies rest.old.items rest.new.items stuck.old.items stuck.new.items steps.old steps.new) }
{
    if task.after == u64::MAX {
        rest.push(task)?;
        return Ok(false);
    }
    let room = Vec::new(alloc);
    match run_task(
        desk, alloc, program, extent, frozen, replica, left, &task.op, task.after, room,
    ) {
        Ok(
            Went::Ran {
                ops,
                clock,
                steps: more,
            },
        ) => {
            pour_ops(ops, clock, rest)?;
            *steps = add_steps(*steps, more, left);
            Ok(true)
        }
        Ok(Went::Stopped(why)) => {
            stuck.push(Stuck { task, why })?;
            Ok(false)
        }
        Err(cause) => Err(cause),
    }
}

/// Runs tasks of the rest on the caller's replica, as long as there are any, each runs, and there are fewer than the quota.
fn run_rest(
    desk: &mut Desk,
    alloc: Global,
    program: &Coded<'_>,
    extent: &Extent,
    frozen: &Heap,
    replica: &mut Replica,
    rest: &mut Vec<Task>,
    stuck: &mut Vec<Stuck>,
    steps: &mut Option<u64>,
    quota: u32,
    left: u64,
    count: u32,
) -> Result<(), Memory>
    requires round { IsRound (program_view program.now) extent.now frozen.now }
    requires fits { AllFit (setting_of (program_view program.now) extent.now frozen.now) rest.old.items }
    requires none { replica.old.copies ≡ [] }
    ensures { IfOk result (λ _. Finished (program_view program.now) extent.now frozen.now left quota count rest.old.items rest.new.items stuck.old.items stuck.new.items steps.old replica.new.copies steps.new) }
{
    let mut ran = count;
    while ran < quota {
        let Some(task) = rest.pop() else {
            return Ok(());
        };
        let goes_on = run_alone(
            desk, alloc, program, extent, frozen, replica, rest, stuck, steps, left, task,
        )?;
        if !goes_on {
            return Ok(());
        }
        ran += 1;
    }
    Ok(())
}

/// Runs tasks of the rest on a replica of the caller's own, as long as there are any, no section stopped, there are fewer
/// entries than the quota, and each has a clock behind its own. Adds their steps.
pub fn finish(
    alloc: Global,
    program: &Coded<'_>,
    extent: &Extent,
    frozen: &Heap,
    rest: &mut Vec<Task>,
    stuck: &mut Vec<Stuck>,
    steps: &mut Option<u64>,
    quota: u32,
    left: u64,
    count: u32,
) -> Result<Replica, Memory>
    requires round { IsRound (program_view program.now) extent.now frozen.now }
    requires fits { AllFit (setting_of (program_view program.now) extent.now frozen.now) rest.old.items }
    ensures { IfOk result (λ replica. Finished (program_view program.now) extent.now frozen.now left quota count rest.old.items rest.new.items stuck.old.items stuck.new.items steps.old replica.copies steps.new) }
{
    let mut replica = Replica::new(alloc);
    if stuck.len() > 0 {
        return Ok(replica);
    }
    let mut desk = Desk::new(alloc)?;
    run_rest(
        &mut desk,
        alloc,
        program,
        extent,
        frozen,
        &mut replica,
        rest,
        stuck,
        steps,
        quota,
        left,
        count,
    )?;
    Ok(replica)
}

/// Why the first of these stopped.
pub fn first_why_of(stuck: &[Stuck]) -> Option<Stop>
    ensures { result ≡ first_why stuck.now }
{
    if stuck.len() == 0 {
        return None;
    }
    Some(stuck[0].why)
}

/// Adds the tasks whose sections stopped.
pub fn add_tasks_of(stuck: &[Stuck], rest: &mut Vec<Task>) -> Result<(), AllocError>
    ensures { IfOk result (λ _. rest.new.items ≡ rest.old.items ++ tasks_of stuck.now) }
{
    for one in stuck {
        let task = one.task.copy()?;
        rest.push(task)?;
    }
    Ok(())
}
