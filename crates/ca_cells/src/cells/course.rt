//! Tasks of one object, run in its history one after the other.

ghost use Rattle.std.specs.Prelude.{◌≡◌, ◌<◌, ◌++◌, true, false, [], All, take, length, IfOk, OnErr};
ghost use Rattle.ca_program.specs.View.{program_view};
ghost use Rattle.ca_sections.specs.Answers.{CanUndo};
ghost use Rattle.ca_logs.specs.Entries.{HasReceiver};
ghost use Rattle.ca_logs.specs.Telling.{IsMark};
ghost use Rattle.ca_cells.specs.Rounds.{IsLegal, IsRound, MayRun, program_of, frozen_of};
ghost use Rattle.ca_cells.specs.Seats.{cells_key};
ghost use Rattle.ca_cells.specs.clauses.Courses.{Backable, Behind, Nexts, RunsTo, Undoable};
ghost use Rattle.ca_cells.specs.declared.cells.course.Next.TheVariants.{Ran};

use super::Cells;
use crate::adding::{Added, add};
use ca_base::Memory;
use ca_logs::{CellLog, Mark, Stop, Task};
use ca_model::Heap;
use ca_sections::{Coded, Desk};
use ca_undo::Olds;
use std::alloc::Global;
use std::mem;
use std::snapshot::Snapshot;

/// How tasks of one object ended: why the last section didn't end, how many tasks have an entry, and whether the history takes
/// no entry of the next one.
#[derive(Clone, Copy)]
pub struct Course {
    pub stop: Option<Stop>,
    pub count: usize,
    pub closed: bool,
}

/// What the next task did. Where no entry of it is taken it is told whether the history is the cause, and not its own clock.
#[derive(Clone, Copy)]
pub enum Next {
    Ran,
    Stuck(Stop),
    Closed(bool),
}

/// Adds tasks at the end. `false` is out of memory.
fn join(list: &mut Vec<Task>, mut more: Vec<Task>) -> bool
    ensures { result ≡ true → list.new.items ≡ list.old.items ++ more.items }
{
    if list.len() == 0 {
        mem::swap(list, &mut more);
        return true;
    }
    list.append(&mut more).is_ok()
}

/// Takes back what tasks did to a history.
fn take_back(log: &mut CellLog, mut olds: Olds, _found: &Snapshot<CellLog>, mark: Mark)
    requires back { Backable olds log.old _found.now.value }
    requires mark { IsMark _found.now.value.entries mark }
    ensures { log.new ≡ _found.now.value }
{
    olds.put_back(&mut log.object.slots);
    log.entries.back_to(mark);
}

impl Cells {
    /// Runs the next task. Without memory the history is as before.
    fn run_next(
        &self,
        desk: &mut Desk,
        log: &mut CellLog,
        alloc: Global,
        program: &Coded<'_>,
        frozen: &Heap,
        _number: u32,
        task: &Task,
        left: u64,
        made: &mut Vec<Task>,
    ) -> Result<Next, Memory>
        requires given { (program_of (cells_key self.now) ≡ program_view program.now) × (frozen_of (cells_key self.now) ≡ frozen.now) }
        requires legal { IsRound (cells_key self.now) × IsLegal (cells_key self.now) _number log.old }
        requires task { MayRun (cells_key self.now) task.now × HasReceiver _number task.now }
        ensures next { IfOk result (λ next. Nexts (cells_key self.now) left _number task.now log.old log.new made.old.items made.new.items next) }
        ensures undo { IfOk result (λ next. next ≡ Ran → CanUndo desk.new log.new.object log.old.object) }
        ensures kept { OnErr result (log.new ≡ log.old) }
    {
        let mark = log.entries.mark();
        let added = add(desk, log, alloc, program, frozen, task, left)?;
        match added {
            Added::Ran { tasks, steps: _ } => {
                if !join(made, tasks) {
                    desk.undo(&mut log.object);
                    log.entries.back_to(mark);
                    return Err(Memory);
                }
                Ok(Next::Ran)
            }
            Added::Stuck(stop) => Ok(Next::Stuck(stop)),
            Added::Kept => Ok(Next::Closed(task.after != u64::MAX)),
        }
    }

    /// Runs the next task behind others, whose old values are kept.
    fn run_behind(
        &self,
        desk: &mut Desk,
        olds: &mut Olds,
        log: &mut CellLog,
        alloc: Global,
        program: &Coded<'_>,
        frozen: &Heap,
        _number: u32,
        task: &Task,
        left: u64,
        made: &mut Vec<Task>,
        _found: &Snapshot<CellLog>,
    ) -> Result<Next, Memory>
        requires given { (program_of (cells_key self.now) ≡ program_view program.now) × (frozen_of (cells_key self.now) ≡ frozen.now) }
        requires legal { IsRound (cells_key self.now) × IsLegal (cells_key self.now) _number log.old }
        requires task { MayRun (cells_key self.now) task.now × HasReceiver _number task.now }
        requires undo { Undoable desk.old olds.old log.old _found.now.value }
        ensures next { IfOk result (λ next. Nexts (cells_key self.now) left _number task.now log.old log.new made.old.items made.new.items next) }
        ensures undo { IfOk result (λ next. next ≡ Ran → Undoable desk.new olds.new log.new _found.now.value) }
        ensures back { OnErr result (Backable olds.new log.new _found.now.value) }
    {
        if desk.keep_olds(olds).is_err() {
            desk.undo(&mut log.object);
            return Err(Memory);
        }
        self.run_next(desk, log, alloc, program, frozen, _number, task, left, made)
    }

    /// Runs the tasks behind the first one.
    fn run_more(
        &self,
        desk: &mut Desk,
        log: &mut CellLog,
        alloc: Global,
        program: &Coded<'_>,
        frozen: &Heap,
        number: u32,
        tasks: &[Task],
        left: u64,
        made: &mut Vec<Task>,
        found: &Snapshot<CellLog>,
        mark: Mark,
    ) -> Result<Course, Memory>
        requires given { (program_of (cells_key self.now) ≡ program_view program.now) × (frozen_of (cells_key self.now) ≡ frozen.now) }
        requires round { IsRound (cells_key self.now) }
        requires tasks { All (MayRun (cells_key self.now)) tasks.now × All (HasReceiver number) tasks.now × (0 < length tasks.now) }
        requires behind { Behind (cells_key self.now) left number found.now.value (take 1 tasks.now) made.old.items log.old }
        requires undo { Undoable desk.old [] log.old found.now.value }
        requires mark { IsMark found.now.value.entries mark }
        ensures ran { IfOk result (λ course. RunsTo (cells_key self.now) left number found.now.value tasks.now made.new.items course log.new) }
        ensures kept { OnErr result (log.new ≡ found.now.value) }
    {
        let mut olds = desk.take_room(alloc);
        let mut done = 1;
        while done < tasks.len() {
            let next = self.run_behind(
                desk,
                &mut olds,
                log,
                alloc,
                program,
                frozen,
                number,
                &tasks[done],
                left,
                made,
                found,
            );
            let step = match next {
                Ok(step) => step,
                Err(cause) => {
                    take_back(log, olds, found, mark);
                    return Err(cause);
                }
            };
            match step {
                Next::Ran => done += 1,
                Next::Stuck(stop) => {
                    desk.give_back_room(olds);
                    return Ok(Course {
                        stop: Some(stop),
                        count: done + 1,
                        closed: false,
                    });
                }
                Next::Closed(closed) => {
                    desk.give_back_room(olds);
                    return Ok(Course {
                        stop: None,
                        count: done,
                        closed,
                    });
                }
            }
        }
        desk.give_back_room(olds);
        Ok(Course {
            stop: None,
            count: done,
            closed: false,
        })
    }

    /// Runs tasks of one object in its history. What their sections list comes into `made`. Without memory the history is as
    /// before.
    pub(super) fn run_tasks(
        &self,
        desk: &mut Desk,
        log: &mut CellLog,
        alloc: Global,
        program: &Coded<'_>,
        frozen: &Heap,
        number: u32,
        tasks: &[Task],
        left: u64,
        made: &mut Vec<Task>,
    ) -> Result<Course, Memory>
        requires given { (program_of (cells_key self.now) ≡ program_view program.now) × (frozen_of (cells_key self.now) ≡ frozen.now) }
        requires legal { IsRound (cells_key self.now) × IsLegal (cells_key self.now) number log.old }
        requires tasks { All (MayRun (cells_key self.now)) tasks.now × All (HasReceiver number) tasks.now × (0 < length tasks.now) }
        requires none { length made.old.items ≡ 0 }
        ensures ran { IfOk result (λ course. RunsTo (cells_key self.now) left number log.old tasks.now made.new.items course log.new) }
        ensures kept { OnErr result (log.new ≡ log.old) }
    {
        let found = Snapshot::of(&*log);
        let mark = log.entries.mark();
        let next = self.run_next(
            desk, log, alloc, program, frozen, number, &tasks[0], left, made,
        )?;
        match next {
            Next::Ran => self.run_more(
                desk, log, alloc, program, frozen, number, tasks, left, made, &found, mark,
            ),
            Next::Stuck(stop) => Ok(Course {
                stop: Some(stop),
                count: 1,
                closed: false,
            }),
            Next::Closed(closed) => Ok(Course {
                stop: None,
                count: 0,
                closed,
            }),
        }
    }
}
