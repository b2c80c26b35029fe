//! What tasks do to the history of one counting object, and what seats are answered.

ghost use Rattle.std.specs.Prelude.{◌≡◌};
ghost use Rattle.ca_program.specs.View.{program_view};
ghost use Rattle.ca_logs.specs.Legal.{LegalCell};
ghost use Rattle.ca_beside.specs.Beside.{present};
ghost use Rattle.ca_cells.specs.Rounds.{now_of};
ghost use Rattle.ca_cells.specs.Seats.{IsOf, IsSameSeat, cells_key};
ghost use Rattle.ca_counters.specs.Counters.{IsSetFor, counters, starts, twice};

use crate::setting::{coded, objects, set};
use ca_base::{Memory, OpenGate};
use ca_beside::Beside;
use ca_cells::{Added, Applied, Cells, Seat, add, open};
use ca_counters::{let_go, twice};
use ca_logs::{CellLog, Stop};
use ca_model::Heap;
use ca_sections::{Coded, Desk};
use std::alloc::Global;
use std::process::Abort;
use std::sync::Wait;

/// Adds a task that counts twice.
fn add_twice<'a>(
    desk: &mut Desk,
    log: &mut CellLog,
    alloc: Global,
    program: &'a Coded<'_>,
    frozen: &Heap,
    left: u64,
) -> Result<Added, Memory>
    requires set { (program_view program.now ≡ counters) × (frozen.now ≡ starts 1) }
    requires legal { LegalCell counters (starts 1) 0 log.old }
    ensures { LegalCell counters (starts 1) 0 log.new }
{
    let task = twice(alloc, 0);
    add(desk, log, alloc, program, frozen, &task, left)
}

/// Whether the two entries stand in memory where they are kept: one that ran in a step, and one with a stop.
fn are_kept(log: &CellLog, keeps: bool) -> bool {
    match log.entries.kept() {
        Some(entries) => {
            keeps
                && entries.len() == 2
                && entries[0].stop.is_none()
                && entries[0].steps == 1
                && entries[1].stop.is_some()
        }
        None => !keeps,
    }
}

/// Ends the test unless a fresh history takes a task, then one that is spent, and then none, and keeps these entries or none.
fn takes_two<R: AllocGlobal + Abort>(rt: &R, program: &Coded<'_>, keeps: bool)
    requires { program_view program.now ≡ counters }
{
    let alloc = rt.alloc();
    let heap = objects(rt, program, 1);
    let Ok(mut cell) = open(alloc, heap.get(0), keeps) else {
        panic!(rt; "no history");
    };
    let mut desk = Desk::new(alloc).expect(rt, "a desk");
    let ran = add_twice(&mut desk, &mut cell, alloc, program, &heap, 100);
    let spent = add_twice(&mut desk, &mut cell, alloc, program, &heap, 0);
    let kept = add_twice(&mut desk, &mut cell, alloc, program, &heap, 100);
    let added = is_ran(&ran) && is_spent(&spent) && is_kept(&kept);
    let fits = added && cell.entries.len() == 2 && are_kept(&cell, keeps);
    let_go(heap);
    let_go(ran);
    let_go(spent);
    let_go(kept);
    let_go(desk);
    let_go(cell);
    assert!(rt; fits);
}

fn is_ran(answer: &Result<Added, Memory>) -> bool {
    match answer {
        Ok(Added::Ran { tasks, steps }) => tasks.len() == 1 && *steps == 1,
        _ => false,
    }
}

fn is_spent(answer: &Result<Added, Memory>) -> bool {
    match answer {
        Ok(Added::Stuck(Stop::Spent)) => true,
        _ => false,
    }
}

fn is_kept(answer: &Result<Added, Memory>) -> bool {
    match answer {
        Ok(Added::Kept) => true,
        _ => false,
    }
}

/// A history takes no task behind a stop, and entries that are kept stand in memory.
#[test]
fn a_history_takes_no_task_behind_a_stop(rt: HostRuntime) {
    let program = coded(&rt);
    takes_two(&rt, program, false);
    takes_two(&rt, program, true);
}

/// Applies a task that counts twice, within so many steps, and tells whether it is spent, and whether it is kept.
fn apply_twice<'a, R: Wait>(
    rt: &R,
    alloc: Global,
    desk: &mut Desk,
    cells: &Cells,
    seat: &mut Seat,
    program: &'a Coded<'_>,
    frozen: &Heap,
    beside: &Beside,
    left: u64,
) -> (bool, bool)
    requires place { IsOf cells.now seat.old }
    requires set { IsSetFor twice (cells_key cells.now) 1 × (program_view program.now ≡ counters) × (frozen.now ≡ starts 1) }
    requires now { now_of (cells_key cells.now) ≡ present frozen.now beside.now }
    ensures { IsSameSeat seat.old seat.new }
{
    let task = twice(alloc, 0);
    let gate = &OpenGate;
    let mut memory = Beside::new(alloc);
    match cells.apply(
        rt,
        alloc,
        desk,
        &mut memory,
        seat,
        program,
        frozen,
        beside,
        task,
        left,
        gate,
    ) {
        Ok(Applied::Stuck(Stop::Spent)) => (true, false),
        Ok(Applied::Kept(task)) => (false, task.after == 0),
        _ => (false, false),
    }
}

/// Ends the test unless a task that is spent closes its cell to the next one.
fn closes<R: Wait + AllocGlobal + Abort>(rt: &R, program: &Coded<'_>)
    requires { program_view program.now ≡ counters }
{
    let alloc = rt.alloc();
    let (extent, heap, beside, cells, mut seats) = set(rt, program, 1, 1, 1, false);
    let_go(extent);
    let Some(mut seat) = seats.pop() else {
        panic!(rt; "no seat");
    };
    let mut desk = Desk::new(alloc).expect(rt, "a desk");
    let first = apply_twice(
        rt, alloc, &mut desk, &cells, &mut seat, program, &heap, &beside, 0,
    );
    let second = apply_twice(
        rt, alloc, &mut desk, &cells, &mut seat, program, &heap, &beside, 100,
    );
    let_go(heap);
    let_go(beside);
    let_go(desk);
    let Ok(()) = seats.push(seat) else {
        panic!(rt; "no room");
    };
    let Ok(loose) = Vec::with_capacity(alloc, seats.len()) else {
        panic!(rt; "no room");
    };
    let log = cells.gather(seats, loose);
    let mut entries = 0;
    for cell in &log.logs {
        entries = cell.entries.len();
    }
    let_go(log);
    assert!(rt; first.0 && second.1 && entries == 1);
}

#[test]
fn a_cell_takes_no_task_behind_a_stop(rt: HostRuntime) {
    closes(&rt, coded(&rt));
}
