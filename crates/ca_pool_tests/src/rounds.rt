//! Rounds over counting objects.

ghost use Rattle.std.specs.Prelude.{◌≡◌, ◌<◌};
ghost use Rattle.std.specs.Thread.{IsSync};
ghost use Rattle.ca_program.specs.View.{program_view};
ghost use Rattle.ca_beside.specs.Beside.{present};
ghost use Rattle.ca_cells.specs.Rounds.{now_of};
ghost use Rattle.ca_cells.specs.Seats.{AreAll, IsOf, IsSameSeat, cells_key};
ghost use Rattle.ca_counters.specs.Counters.{IsSetFor, counters, starts, twice};

use crate::setting::{coded, set};
use ca_base::OpenGate;
use ca_beside::Beside;
use ca_cells::{Applied, Cells, RoundLog, Seat};
use ca_counters::{let_go, twice};
use ca_model::{Object, Slot, Value};
use ca_parallel::Op;
use ca_pool::work::Reads;
use ca_program::OpId;
use ca_round_order::in_order;
use ca_sections::{Coded, Desk};
use std::alloc::Global;
use std::process::Abort;
use std::sync::Wait;
use std::thread::{self, Threads};

/// Counts twice on an object, by two tasks, and tells whether both ran.
fn count_twice<'a, R: Wait>(
    rt: &R,
    alloc: Global,
    desk: &mut Desk,
    cells: &Cells,
    seat: &mut Seat,
    program: &'a Coded<'_>,
    reads: &Reads<'_>,
    object: u32,
) -> bool
    requires place { IsOf cells.now seat.old }
    requires set { IsSetFor twice (cells_key cells.now) 10 × (program_view program.now ≡ counters) × (reads.now.frozen.now ≡ starts 10) }
    requires now { now_of (cells_key cells.now) ≡ present reads.now.frozen.now reads.now.beside.now }
    requires object { object < 10 }
    ensures { IsSameSeat seat.old seat.new }
{
    let task = twice(alloc, object);
    let gate = &OpenGate;
    let frozen = reads.frozen;
    let beside = reads.beside;
    let mut memory = Beside::new(alloc);
    match cells.apply(
        rt,
        alloc,
        desk,
        &mut memory,
        seat,
        program,
        frozen,
        beside,
        task,
        100,
        gate,
    ) {
        Ok(Applied::Ran { mut tasks, .. }) => match tasks.pop() {
            Some(next) => {
                let again = cells.apply(
                    rt,
                    alloc,
                    desk,
                    &mut memory,
                    seat,
                    program,
                    frozen,
                    beside,
                    next,
                    100,
                    gate,
                );
                has_run(again)
            }
            None => false,
        },
        _ => false,
    }
}

/// Whether a task ran.
fn has_run(answer: Result<Applied, ca_cells::Refused>) -> bool {
    match answer {
        Ok(Applied::Ran { .. }) => true,
        _ => false,
    }
}

/// Counts twice on one object after the other, so many times in all.
fn work<'a, R: Wait>(
    rt: &R,
    alloc: Global,
    cells: &Cells,
    seat: &mut Seat,
    program: &'a Coded<'_>,
    reads: &Reads<'_>,
    times: u32,
)
    requires place { IsOf cells.now seat.old }
    requires set { IsSetFor twice (cells_key cells.now) 10 × (program_view program.now ≡ counters) × (reads.now.frozen.now ≡ starts 10) }
    requires now { now_of (cells_key cells.now) ≡ present reads.now.frozen.now reads.now.beside.now }
    ensures { IsSameSeat seat.old seat.new }
{
    let Ok(mut desk) = Desk::new(alloc) else {
        return;
    };
    let mut n = 0;
    while n < times {
        if !count_twice(rt, alloc, &mut desk, cells, seat, program, reads, n % 10) {
            return;
        }
        n += 1;
    }
}

/// Each seat works on a thread of its own.
fn work_all<R: Threads + Wait + Sync>(
    rt: &R,
    alloc: Global,
    cells: &Cells,
    seats: &mut [Seat],
    program: &Coded<'_>,
    reads: &Reads<'_>,
    times: u32,
)
    requires all { AreAll cells.now seats.old }
    requires set { IsSetFor twice (cells_key cells.now) 10 × (program_view program.now ≡ counters) × (reads.now.frozen.now ≡ starts 10) }
    requires now { now_of (cells_key cells.now) ≡ present reads.now.frozen.now reads.now.beside.now }
    ensures { AreAll cells.now seats.new }
{
    let part = |_: usize, seat: &mut Seat|
        requires { IsSync R.row × IsOf cells.now seat.now × IsSetFor twice (cells_key cells.now) 10 × (program_view program.now ≡ counters) × (reads.now.frozen.now ≡ starts 10) × (now_of (cells_key cells.now) ≡ present reads.now.frozen.now reads.now.beside.now) }
        ensures { IsSameSeat seat.entry.now seat.exit.now }
    { work(rt, alloc, cells, seat, program, reads, times) };
    thread::for_each_mut(rt, seats, 4, &part);
}

/// A round of four workers, each of which counts twice so many times, that keeps its entries in memory or not.
fn round<R: Threads + Wait + Sync + AllocGlobal + Abort>(
    rt: &R,
    program: &Coded<'_>,
    times: u32,
    keeps: bool,
) -> RoundLog
    requires { program_view program.now ≡ counters }
{
    let alloc = rt.alloc();
    let (extent, heap, beside, cells, mut seats) = set(rt, program, 1, 10, 4, keeps);
    let_go(extent);
    let reads = Reads::of(&heap, &beside, &[]);
    work_all(
        rt,
        alloc,
        &cells,
        seats.as_mut_slice(),
        program,
        &reads,
        times,
    );
    let Ok(loose) = Vec::with_capacity(alloc, seats.len()) else {
        panic!(rt; "no room");
    };
    let_go(heap);
    let_go(beside);
    cells.gather(seats, loose)
}

/// What an object has counted.
fn counted(object: &Object) -> i64 {
    match object.slots.get(0) {
        Some(Slot::One(Value::Long(n))) => *n,
        _ => -1,
    }
}

/// How many entries there are, and whether each object has 1,000 and counted each.
fn entries(log: &RoundLog) -> (usize, bool) {
    let mut count: usize = 0;
    let mut fits = true;
    for cell in &log.logs {
        let here = cell.entries.len();
        if here != 1_000 || counted(&cell.object) != 1_000 {
            fits = false;
        }
        count = count.wrapping_add(here);
    }
    (count, fits)
}

#[test]
fn four_threads_share_ten_objects(rt: HostRuntime) {
    let log = round(&rt, coded(&rt), 1_250, false);
    let (count, fits) = entries(&log);
    let objects = log.logs.len();
    let_go(log);
    assert!(rt; objects == 10 && count == 10_000 && fits);
}

/// Whether the first one of so many is of this operation.
fn begins_with(ops: &[Op], count: usize, op: OpId) -> bool {
    match ops.first() {
        Some(first) => ops.len() == count && first.op.0 == op.0,
        None => false,
    }
}

/// Ends the test unless the entries of a round have an order where they are kept, and none where they are only told.
fn orders<R: Threads + Wait + Sync + AllocGlobal + Abort>(rt: &R, program: &Coded<'_>, keeps: bool)
    requires { program_view program.now ≡ counters }
{
    let log = round(rt, program, 250, keeps);
    let ops = in_order(rt.alloc(), log.logs.as_slice(), log.loose.as_slice());
    let fits = match &ops {
        Ok(ops) => keeps && begins_with(ops.as_slice(), 2_000, OpId(1)),
        Err(_) => !keeps,
    };
    let_go(ops);
    let_go(log);
    assert!(rt; fits);
}

#[test]
fn entries_that_are_kept_have_an_order(rt: HostRuntime) {
    let program = coded(&rt);
    orders(&rt, program, true);
    orders(&rt, program, false);
}
