//! Runs tasks of one object under one claim of its class: `AppliesAll` of `specs/Items.antt`.

ghost use Rattle.std.specs.Prelude.{◌≡◌, ◌<◌, ◌≤◌, ℕ, true, List, [], All, length, drop, IfOk, IfErr, OnErr};
ghost use Rattle.ca_program.specs.View.{program_view};
ghost use Rattle.ca_beside.specs.Beside.{present};
ghost use Rattle.ca_logs.specs.Entries.{HasReceiver};
ghost use Rattle.ca_cells.specs.Rounds.{IsLegal, IsRound, MayRun, program_of, frozen_of, now_of};
ghost use Rattle.ca_cells.specs.Notes.{IsKept, last_place};
ghost use Rattle.ca_cells.specs.Seats.{IsOf, IsSameSeat, cells_key, loose_of, notes_of, kept_of};
ghost use Rattle.ca_cells.specs.Items.{AppliesAll, closing_place};
ghost use Rattle.ca_cells.specs.clauses.Courses.{RunsTo};
ghost use Rattle.ca_cells.specs.clauses.Plays.{ChainBy, Holds, IsInside, giving};
ghost use Rattle.ca_cells.specs.declared.rule.Note.{Note};

use super::course::Course;
use super::{AppliedAll, Cells, Inner, RefusedAll, Seat};
use crate::slot::{Out, SlotLog};
use ca_base::{Gate, Memory};
use ca_beside::Beside;
use ca_logs::Task;
use ca_model::Heap;
use ca_sections::{Coded, Desk};
use std::alloc::Global;
use std::snapshot::Snapshot;
use std::sync::Wait;

/// The receiver of tasks of one object.
fn receiver_of(tasks: &[Task]) -> u32
    requires { 0 < length tasks.now }
    ensures { (number : ℕ) → All (HasReceiver number) tasks.now → result ≡ number }
{
    tasks[0].op.receiver
}

/// Lets go of all tasks, which were run. The desk takes the memory of their operations.
fn let_go(desk: &mut Desk, tasks: &mut Vec<Task>)
    ensures { tasks.new.items ≡ [] }
{
    while let Some(task) = tasks.pop() {
        desk.give_back(task.op);
    }
}

/// What is left of tasks without the first ones, which were run. It takes no memory.
fn behind(desk: &mut Desk, mut tasks: Vec<Task>, count: usize) -> Vec<Task>
    requires { count ≤ length tasks.items }
    ensures { result.items ≡ drop count tasks.items }
{
    if count == tasks.len() {
        let_go(desk, &mut tasks);
        return tasks;
    }
    let mut gone = 0;
    while gone < count {
        let first = tasks.remove(0);
        desk.give_back(first.op);
        gone += 1;
    }
    tasks
}

impl Cells {
    /// Frees a class, with the place of a history's last entry noted or not.
    fn give_back(
        &self,
        seat: &mut Inner,
        number: u32,
        out: Out,
        log: SlotLog,
        found: &Snapshot<SlotLog>,
        closed: bool,
    )
        requires table { (seat.old.table_id ≡ self.now.table.shared.table_id) × (out.class < self.now.table.shared.table_id.words) }
        requires held { Holds self.now.table.shared.table_id.slots seat.old.me number found.now.value out }
        requires inside { IsInside seat.old.me.0.given number }
        requires next { (notes : List Note) × ChainBy seat.old.me.0.given number found.now.value notes log }
        requires closing { closed ≡ true → IsKept log (last_place number log) }
        ensures table { seat.new.table_id ≡ seat.old.table_id }
        ensures noted { (notes : List Note) → ChainBy seat.old.me.0.given number found.now.value notes log → seat.new.me ≡ (giving seat.old.me.0 notes (closing_place number log closed), []) }
    {
        if closed {
            self.release_kept(seat, number, out, log, found);
        } else {
            self.release(seat, number, out, log, found);
        }
    }

    /// Runs tasks of one object in its history in a slot.
    fn run_in_slot(
        &self,
        desk: &mut Desk,
        log: &mut SlotLog,
        alloc: Global,
        program: &Coded<'_>,
        frozen: &Heap,
        number: u32,
        tasks: &[Task],
        left: u64,
        made: &mut Vec<Task>,
    ) -> Result<Course, Memory>
        requires given { (program_of (cells_key self.now) ≡ program_view program.now) × (frozen_of (cells_key self.now) ≡ frozen.now) }
        requires legal { IsRound (cells_key self.now) × IsLegal (cells_key self.now) number log.old }
        requires tasks { All (MayRun (cells_key self.now)) tasks.now × All (HasReceiver number) tasks.now × (0 < length tasks.now) }
        requires none { length made.old.items ≡ 0 }
        ensures ran { IfOk result (λ course. RunsTo (cells_key self.now) left number log.old tasks.now made.new.items course log.new) }
        ensures kept { OnErr result (log.new ≡ log.old) }
    {
        self.run_tasks(
            desk,
            &mut log.log,
            alloc,
            program,
            frozen,
            number,
            tasks,
            left,
            made,
        )
    }

    /// Waits for the class of the receiver of 1 to 16 tasks, passes the gate, runs their sections on the object one after the
    /// other, adds an entry for each and gives the class back.
    ///
    /// The tasks have one receiver. What their sections list comes as tasks that may run after their entries. There is a stop
    /// exactly where the section of a task in its turn stops; the tasks behind it are kept. Else tasks are kept from the first
    /// one on of which the cell takes no entry: its last entry has a stop, or its clock or the task's is the last one.
    /// Without memory all tasks come back, and the cell is as it was.
    #[inline(never)]
    pub fn apply_all<R: Wait, G: Gate>(
        &self,
        rt: &R,
        alloc: Global,
        desk: &mut Desk,
        memory: &mut Beside,
        worker: &mut Seat,
        program: &Coded<'_>,
        frozen: &Heap,
        beside: &Beside,
        tasks: Vec<Task>,
        left: u64,
        gate: &G,
    ) -> Result<AppliedAll, RefusedAll>
        requires place { IsOf self.now worker.old }
        requires given { (program_of (cells_key self.now) ≡ program_view program.now) × (frozen_of (cells_key self.now) ≡ frozen.now) }
        requires now { now_of (cells_key self.now) ≡ present frozen.now beside.now }
        requires tasks { (0 < length tasks.items) × (length tasks.items ≤ 16) }
        requires one { (number : ℕ) × All (HasReceiver number) tasks.items }
        requires may_run { All (MayRun (cells_key self.now)) tasks.items }
        ensures same { IsSameSeat worker.old worker.new }
        ensures loose { loose_of worker.new ≡ loose_of worker.old }
        ensures applied { IfOk result (λ a. AppliesAll (cells_key self.now) tasks.items left worker.old worker.new a.made.items a.stop a.kept.items) }
        ensures refused { IfErr result (λ refused. (refused.tasks ≡ tasks) × (notes_of worker.new ≡ notes_of worker.old) × (kept_of worker.new ≡ kept_of worker.old)) }
        ensures memory { memory.new ≡ memory.old }
    {
        let inner = &mut worker.inner;
        let number = receiver_of(tasks.as_slice());
        let (mut log, out) = match self.take(rt, alloc, memory, frozen, beside, inner, number) {
            Ok(taken) => taken,
            Err(cause) => return Err(RefusedAll { tasks, cause }),
        };
        let found = Snapshot::of(&log);
        gate.inside(worker.worker, number);
        let mut made = Vec::new(alloc);
        let ran = self.run_in_slot(
            desk,
            &mut log,
            alloc,
            program,
            frozen,
            number,
            tasks.as_slice(),
            left,
            &mut made,
        );
        match ran {
            Ok(course) => {
                self.give_back(inner, number, out, log, &found, course.closed);
                Ok(AppliedAll {
                    made,
                    stop: course.stop,
                    kept: behind(desk, tasks, course.count),
                })
            }
            Err(cause) => {
                self.release_same(inner, number, out, log);
                Err(RefusedAll { tasks, cause })
            }
        }
    }
}
