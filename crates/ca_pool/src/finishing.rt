//! The tasks that the caller runs on the gathered histories, when all workers have ended.

ghost use Rattle.std.specs.Prelude.{◌≡◌, ◌+◌, ◌≤◌, true, false, List, [], ◌∷◌, ◌++◌, length, IfOk};
ghost use Rattle.ca_program.specs.View.{program_view};
ghost use Rattle.ca_logs.specs.declared.log.CellLog.{CellLog};
ghost use Rattle.ca_logs.specs.declared.log.Entry.{Entry};
ghost use Rattle.ca_logs.specs.Entries.{all_entries, entries_of, loose_entries};
ghost use Rattle.ca_logs.specs.Lasts.{last_of};
ghost use Rattle.ca_beside.specs.Beside.{present};
ghost use Rattle.ca_cells.specs.Logs.{began_with, logs_in, loose_in};
ghost use Rattle.ca_pool.specs.Gathered.{Ended, Gathered, HasClosing, IsRunOf, IsTold, closes};

use crate::spreading::{all_numbers, spread};
use crate::work::Work;
use ca_base::Memory;
use ca_beside::Beside;
use ca_cells::{Added, RoundLog, add};
use ca_deques::taking::pour;
use ca_logs::{CellLog, Entries, Task};
use ca_model::Heap;
use ca_sections::{Coded, Desk};
use std::alloc::Global;
use std::mem;

/// How many entries of histories there are, but no more than so many.
fn count_entries(logs: &[CellLog], most: usize) -> usize
    ensures { (result ≤ most) × (result ≤ length (entries_of logs.now)) }
{
    let mut count = 0;
    for at in 0..logs.len() {
        let here = logs[at].entries.len();
        if here < most - count {
            count += here;
        } else {
            return most;
        }
    }
    count
}

/// How many loose entries there are, but no more than so many.
fn count_loose(loose: &[Entries], most: usize) -> usize
    ensures { (result ≤ most) × (result ≤ length (loose_entries loose.now)) }
{
    let mut count = 0;
    for at in 0..loose.len() {
        let here = loose[at].len();
        if here < most - count {
            count += here;
        } else {
            return most;
        }
    }
    count
}

/// How many entries there are, but no more than so many.
fn count_all(logs: &[CellLog], loose: &[Entries], most: usize) -> usize
    ensures { (result ≤ most) × (result ≤ length (all_entries logs.now loose.now)) }
{
    let count = count_entries(logs, most);
    count + count_loose(loose, most - count)
}

/// Whether no entry comes behind these.
fn is_closed(entries: &Entries) -> bool
    ensures { result ≡ closes (last_of entries.now) }
{
    entries.stuck().is_some() || entries.last_clock() == u64::MAX
}

/// Whether some history takes no more entries.
fn any_closed(logs: &[CellLog]) -> bool
    ensures { result ≡ true → (loose : List (List Entry)) → HasClosing logs.now loose }
{
    for log in logs {
        if is_closed(&log.entries) {
            return true;
        }
    }
    false
}

/// Whether some loose list takes no more entries.
fn any_ended(loose: &[Entries]) -> bool
    ensures { result ≡ true → (logs : List CellLog) → HasClosing logs loose.now }
{
    for entries in loose {
        if is_closed(entries) {
            return true;
        }
    }
    false
}

/// Runs a task on the history of its object. What its section lists goes into the rest, and so does the task where it
/// is kept. `false` where an entry closes its history, or is a loose one of that kind.
fn run_one<K: Work>(
    desk: &mut Desk,
    alloc: Global,
    program: &Coded<'_>,
    frozen: &Heap,
    logs: &mut Vec<CellLog>,
    _loose: &[Entries],
    rest: &mut Vec<Task>,
    task: Task,
    left: u64,
) -> Result<bool, Memory>
    requires run { IsRunOf K.cells (program_view program.now) frozen.now }
    requires gathered { Gathered K.cells left K.first logs.old.items _loose.now (rest.old.items ++ task ∷ []) }
    ensures gathered { IfOk result (λ _. Gathered K.cells left K.first logs.new.items _loose.now rest.new.items) }
    ensures goes_on { IfOk result (λ goes. goes ≡ true → length (all_entries logs.new.items _loose.now) ≡ length (all_entries logs.old.items _loose.now) + 1) }
    ensures ends { IfOk result (λ goes. goes ≡ false → HasClosing logs.new.items _loose.now) }
{
    let at = task.op.receiver as usize;
    let log = &mut logs[at];
    match add(desk, log, alloc, program, frozen, &task, left) {
        Ok(Added::Ran { tasks, steps: _ }) => {
            let closed = is_closed(&log.entries);
            pour(tasks, rest)?;
            Ok(!closed)
        }
        Ok(Added::Stuck(_)) => Ok(false),
        Ok(Added::Kept) => {
            rest.push(task)?;
            Ok(false)
        }
        Err(cause) => Err(cause),
    }
}

/// Runs tasks of the rest as long as there are any, no history is closed by one, and there are fewer entries than the
/// quota, loose ones with them.
fn run_rest<K: Work>(
    desk: &mut Desk,
    alloc: Global,
    program: &Coded<'_>,
    frozen: &Heap,
    logs: &mut Vec<CellLog>,
    loose: &[Entries],
    rest: &mut Vec<Task>,
    quota: u32,
    left: u64,
) -> Result<(), Memory>
    requires run { IsRunOf K.cells (program_view program.now) frozen.now }
    requires gathered { Gathered K.cells left K.first logs.old.items loose.now rest.old.items }
    ensures gathered { IfOk result (λ _. Gathered K.cells left K.first logs.new.items loose.now rest.new.items) }
    ensures ended { IfOk result (λ _. Ended quota logs.new.items loose.now rest.new.items) }
{
    let most = quota as usize;
    let mut count = count_all(logs.as_slice(), loose, most);
    while count < most {
        let Some(task) = rest.pop() else {
            return Ok(());
        };
        if !run_one::<K>(desk, alloc, program, frozen, logs, loose, rest, task, left)? {
            return Ok(());
        }
        count += 1;
    }
    Ok(())
}

/// Runs tasks of the rest as long as there are any, no history and no loose list is closed, and there are fewer entries than
/// the quota. For that all histories are spread out.
pub fn finish<K: Work>(
    alloc: Global,
    program: &Coded<'_>,
    frozen: &Heap,
    beside: &Beside,
    log: &mut RoundLog,
    rest: &mut Vec<Task>,
    quota: u32,
    left: u64,
) -> Result<(), Memory>
    requires run { IsRunOf K.cells (program_view program.now) frozen.now }
    requires began { began_with log.old ≡ present frozen.now beside.now }
    requires told { IsTold log.old }
    requires gathered { Gathered K.cells left K.first (logs_in log.old) (loose_in log.old) rest.old.items }
    ensures began { IfOk result (λ _. began_with log.new ≡ began_with log.old) }
    ensures told { IfOk result (λ _. IsTold log.new) }
    ensures keeps { IfOk result (λ _. log.new.keeps ≡ log.old.keeps) }
    ensures gathered { IfOk result (λ _. Gathered K.cells left K.first (logs_in log.new) (loose_in log.new) rest.new.items) }
    ensures ended { IfOk result (λ _. Ended quota (logs_in log.new) (loose_in log.new) rest.new.items) }
{
    if rest.len() == 0 {
        return Ok(());
    }
    if any_closed(log.logs.as_slice()) {
        return Ok(());
    }
    if any_ended(log.loose.as_slice()) {
        return Ok(());
    }
    let most = quota as usize;
    if count_all(log.logs.as_slice(), log.loose.as_slice(), most) >= most {
        return Ok(());
    }
    let mut desk = Desk::new(alloc)?;
    let objects = frozen.len();
    let places = all_numbers(alloc, objects)?;
    let numbers = mem::replace(&mut log.numbers, places);
    let logs = mem::replace(&mut log.logs, Vec::new(alloc));
    let mut all = spread(alloc, frozen, beside, log.keeps, numbers, logs)?;
    let loose = log.loose.as_slice();
    run_rest::<K>(
        &mut desk, alloc, program, frozen, &mut all, loose, rest, quota, left,
    )?;
    log.logs = all;
    Ok(())
}
