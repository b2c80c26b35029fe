//! The entry that a task of a free operation adds, which stands in no history.

ghost use Rattle.std.specs.Prelude.{◌≡◌, suc, true, false, [], ◌∷◌, ◌++◌, map, IfOk, OnErr, MatchOption};
ghost use Rattle.ca_program.specs.View.{program_view};
ghost use Rattle.ca_meaning.specs.WellTyped.{WellTyped};
ghost use Rattle.ca_parallel.specs.Bodies.{targets_of_all};
ghost use Rattle.ca_parallel.specs.Extents.{operation_body};
ghost use Rattle.ca_logs.specs.Entries.{call_of, task_after};
ghost use Rattle.ca_cells.specs.Free.{AddsFree, is_closed_free};
ghost use Rattle.ca_cells.specs.Histories.{ran_entry, stuck_entry};
ghost use Rattle.ca_cells.specs.declared.adding.Added.TheVariants.{Stuck};

use crate::adding::{Added, tasks_after};
use ca_base::Memory;
use ca_logs::{Entries, Stop, Task};
use ca_model::Heap;
use ca_parallel::Op;
use ca_sections::{Coded, Desk, SectionAnswer, section_frozen};
use std::alloc::Global;

/// The clock of an entry of a task that may run after this clock, unless none is taken.
fn next_clock(loose: &Entries, after: u64) -> Option<u64>
    ensures { MatchOption result (is_closed_free loose.now after ≡ true) (λ clock. (is_closed_free loose.now after ≡ false) × (clock ≡ suc after)) }
{
    if loose.stuck().is_some() {
        return None;
    }
    if after == u64::MAX {
        return None;
    }
    Some(after + 1)
}

/// Adds an entry with a stop.
fn stick_free(
    loose: &mut Entries,
    alloc: Global,
    task: &Task,
    clock: u64,
    stop: Stop,
) -> Result<Added, Memory>
    ensures added { IfOk result (λ answer. (answer ≡ Stuck stop) × (loose.new ≡ loose.old ++ stuck_entry task.now clock stop ∷ [])) }
    ensures kept { OnErr result (loose.new ≡ loose.old) }
{
    loose.stick(alloc, task, clock, stop)?;
    Ok(Added::Stuck(stop))
}

/// Adds the entry of a complete section, and gives what it listed as tasks.
fn grow_free(
    loose: &mut Entries,
    alloc: Global,
    task: &Task,
    clock: u64,
    steps: u64,
    listed: &mut Vec<Op>,
) -> Result<Vec<Task>, Memory>
    ensures tasks { IfOk result (λ tasks. tasks.items ≡ map (task_after clock) listed.old.items) }
    ensures added { IfOk result (λ _. loose.new ≡ loose.old ++ ran_entry task.now clock steps listed.old.items ∷ []) }
    ensures kept { OnErr result (loose.new ≡ loose.old) }
{
    let tasks = tasks_after(alloc, clock, listed)?;
    loose.ran(alloc, task, clock, steps, &tasks)?;
    Ok(tasks)
}

/// Runs the section of a task of a free operation on its receiver's object in the frozen heap, and adds its entry.
///
/// It is `Kept`, and nothing changes, exactly where the last entry has a stop, or the task's clock is the last one. Else it
/// is `Stuck` exactly where the section traps or takes more than `left` steps, and else `Ran`. It copies no object. Without
/// memory the entries are as before.
pub fn add_free(
    desk: &mut Desk,
    loose: &mut Entries,
    alloc: Global,
    program: &Coded<'_>,
    frozen: &Heap,
    task: &Task,
    left: u64,
) -> Result<Added, Memory>
    requires typed { WellTyped (program_view program.now) frozen.now (call_of task.now) }
    requires free { targets_of_all (operation_body (program_view program.now) task.now.op.op) ≡ [] }
    ensures exact { IfOk result (λ answer. AddsFree (program_view program.now) frozen.now task.now left loose.old loose.new answer) }
    ensures kept { OnErr result (loose.new ≡ loose.old) }
{
    let Some(clock) = next_clock(loose, task.after) else {
        return Ok(Added::Kept);
    };
    let mut listed = desk.take_list(alloc);
    match section_frozen(desk, alloc, program, frozen, &task.op, left, &mut listed)? {
        SectionAnswer::Done { steps } => {
            let tasks = grow_free(loose, alloc, task, clock, steps, &mut listed)?;
            desk.give_back_list(listed);
            Ok(Added::Ran { tasks, steps })
        }
        SectionAnswer::Trapped(trap) => stick_free(loose, alloc, task, clock, Stop::Trapped(trap)),
        SectionAnswer::Spent => stick_free(loose, alloc, task, clock, Stop::Spent),
    }
}
