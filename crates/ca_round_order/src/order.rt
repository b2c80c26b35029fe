//! Operations with their clocks, collected and sorted.

ghost use Rattle.std.specs.Prelude.{◌≡◌, ◌++◌, ◌∷◌, [], map, IfOk};
ghost use Rattle.ca_parallel.specs.Calls.{invocations_of};
ghost use Rattle.ca_logs.specs.Entries.{all_entries, entries_of, loose_entries, ran_in, task_calls, tasks_in};
ghost use Rattle.ca_logs.specs.LogOrder.{order_of};
ghost use Rattle.ca_round_order.specs.Timed.{IsOrdered, op_in, timed_of};

use ca_base::Memory;
use ca_logs::{CellLog, Entries, Entry};
use ca_parallel::Op;
use std::alloc::{AllocError, Global};

/// An operation with the clock and the object of its entry.
#[derive(Drop)]
pub struct Timed {
    pub clock: u64,
    pub number: u32,
    pub op: Op,
}

/// Adds that of an entry, if it ran.
fn add_entry(timed: &mut Vec<Timed>, entry: &Entry) -> Result<(), AllocError>
    ensures { IfOk result (λ _. timed.new.items ≡ timed.old.items ++ map timed_of (ran_in (entry.now ∷ []))) }
{
    if entry.stop.is_some() {
        return Ok(());
    }
    timed.push(Timed {
        clock: entry.clock,
        number: entry.task.op.receiver,
        op: entry.task.op.copy()?,
    })?;
    Ok(())
}

/// Adds those of a list that ran. One whose entries aren't in memory is as one for which memory is wanting.
fn add_entries(timed: &mut Vec<Timed>, entries: &Entries) -> Result<(), Memory>
    ensures { IfOk result (λ _. timed.new.items ≡ timed.old.items ++ map timed_of (ran_in entries.now)) }
{
    let Some(kept) = entries.kept() else {
        return Err(Memory);
    };
    for entry in kept {
        add_entry(timed, entry)?;
    }
    Ok(())
}

/// Adds those of all histories that ran, one history behind the other.
fn add_histories(timed: &mut Vec<Timed>, logs: &[CellLog]) -> Result<(), Memory>
    ensures { IfOk result (λ _. timed.new.items ≡ timed.old.items ++ map timed_of (ran_in (entries_of logs.now))) }
{
    for log in logs {
        add_entries(timed, &log.entries)?;
    }
    Ok(())
}

/// Adds those of all loose lists that ran, one list behind the other.
fn add_loose(timed: &mut Vec<Timed>, loose: &[Entries]) -> Result<(), Memory>
    ensures { IfOk result (λ _. timed.new.items ≡ timed.old.items ++ map timed_of (ran_in (loose_entries loose.now))) }
{
    for entries in loose {
        add_entries(timed, entries)?;
    }
    Ok(())
}

/// Those of histories, and then the loose ones.
fn all_timed(alloc: Global, logs: &[CellLog], loose: &[Entries]) -> Result<Vec<Timed>, Memory>
    ensures { IfOk result (λ timed. timed.items ≡ map timed_of (ran_in (all_entries logs.now loose.now))) }
{
    let mut timed = Vec::new(alloc);
    add_histories(&mut timed, logs)?;
    add_loose(&mut timed, loose)?;
    Ok(timed)
}

/// Sorts by clock, and where two clocks are equal by object. Those that are equal in both stay as they stood.
fn sort(timed: &mut Vec<Timed>) -> Result<(), AllocError>
    ensures { IfOk result (λ _. IsOrdered timed.old.items timed.new.items) }
{
    timed.sort_by_key(|t| (t.clock, t.number))?;
    Ok(())
}

/// Their operations.
fn ops_of(alloc: Global, timed: Vec<Timed>) -> Result<Vec<Op>, AllocError>
    ensures { IfOk result (λ ops. ops.items ≡ map op_in timed.items) }
{
    timed.into_iter().map(|t| t.op).collect(alloc)
}

/// The operations that ran in a round, of its histories and its loose lists, in the order of the log. The round keeps its
/// entries in memory.
pub fn in_order(alloc: Global, logs: &[CellLog], loose: &[Entries]) -> Result<Vec<Op>, Memory>
    ensures { IfOk result (λ ops. invocations_of ops.items ≡ task_calls (tasks_in (order_of logs.now loose.now))) }
{
    let mut timed = all_timed(alloc, logs, loose)?;
    sort(&mut timed)?;
    let ops = ops_of(alloc, timed)?;
    Ok(ops)
}
