//! Rounds of a pool over 1,000 counting objects: each task is collected once.

ghost use Rattle.std.specs.Prelude.{◌≡◌, ℕ, ◌<◌, ◌≤◌, All, IfOk};
ghost use Rattle.ca_program.specs.View.{program_view};
ghost use Rattle.ca_logs.specs.declared.log.Task.{Task};
ghost use Rattle.ca_cells.specs.Rounds.{MayRun};
ghost use Rattle.ca_cells.specs.declared.rule.Given.{Given};
ghost use Rattle.ca_counters.specs.Counters.{IsSetFor, counters, twice};

use crate::neighbours::CountingGate;
use crate::setting::{coded, set};
use ca_beside::Beside;
use ca_cells::RoundLog;
use ca_counters::{let_go, twice};
use ca_logs::Task;
use ca_pool::Pool;
use ca_sections::Coded;
use std::alloc::{AllocError, Global};
use std::process::Abort;
use std::sync::Wait;
use std::thread::Threads;

/// The task that counts twice on each object.
fn first_tasks(alloc: Global, count: u32) -> Result<Vec<Task>, AllocError>
    ensures may_run { IfOk result (λ tasks. (key : Given) → IsSetFor twice key count → All (MayRun key) tasks.items) }
    ensures begins { IfOk result (λ tasks. All (λ (t : Task). t.after ≡ 0) tasks.items) }
{
    let mut tasks = Vec::new(alloc);
    for object in 0..count {
        tasks.push(twice(alloc, object))?;
    }
    Ok(tasks)
}

/// How many of the tasks wait for each object.
fn waiting(alloc: Global, rest: &[Task], objects: usize) -> Result<Vec<u32>, AllocError> {
    let mut counts: Vec<u32> = vec![in alloc; 0; objects]?;
    for task in rest {
        let at = task.op.receiver as usize;
        if at < counts.len() {
            counts[at] = counts[at].wrapping_add(1);
        }
    }
    Ok(counts)
}

/// Whether each object's first task ran or waits, and where it ran the second one too.
fn are_there(log: &RoundLog, counts: &[u32]) -> bool {
    let mut at: usize = 0;
    for number in 0..counts.len() {
        let mut ran = 0;
        if at < log.logs.len() && at < log.numbers.len() && log.numbers[at] as usize == number {
            ran = log.logs[at].entries.len();
            at = at.wrapping_add(1);
        }
        let due = if ran == 0 { 1 } else { 2 };
        if ran.wrapping_add(counts[number] as usize) != due {
            return false;
        }
    }
    at == log.logs.len()
}

/// How many entries a round has.
fn entries(log: &RoundLog) -> usize {
    let mut entries: usize = 0;
    for cell in &log.logs {
        entries = entries.wrapping_add(cell.entries.len());
    }
    entries
}

/// Ends the test unless a round collects every task once.
fn collects<R: Threads + Wait + Sync + AllocGlobal + Abort>(
    rt: &R,
    program: &Coded<'_>,
    workers: u32,
    quota: u32,
)
    requires { (program_view program.now ≡ counters) × (0 < workers) × (workers ≤ 64) × (0 < quota) }
{
    let alloc = rt.alloc();
    let (extent, heap, beside, cells, seats) = set(rt, program, 1, 1_000, workers, false);
    let Ok(first) = first_tasks(alloc, 1_000) else {
        panic!(rt; "no tasks");
    };
    let mut pool = Pool::make(workers);
    let gate = CountingGate::new();
    let mut memory = Beside::new(alloc);
    let ran = pool.round(
        rt,
        alloc,
        program,
        &extent,
        &heap,
        &beside,
        cells,
        seats,
        first,
        quota,
        100,
        &mut memory,
        &gate,
    );
    let_go(memory);
    let_go(extent);
    let_go(heap);
    let_go(beside);
    let round = ran.expect(rt, "a round");
    let counts = waiting(alloc, round.rest.as_slice(), 1_000).expect(rt, "counts");
    let is_full = round.rest.is_empty() || entries(&round.log) >= quota as usize;
    let fits = is_full && round.stop.is_none() && are_there(&round.log, counts.as_slice());
    let_go(round);
    let_go(counts);
    assert!(rt; fits, "{workers} workers, {quota} tasks");
}

/// Ends the test unless rounds with these quotas collect every task once.
fn collects_all<R: Threads + Wait + Sync + AllocGlobal + Abort>(
    rt: &R,
    program: &Coded<'_>,
    workers: u32,
)
    requires { (program_view program.now ≡ counters) × (0 < workers) × (workers ≤ 64) }
{
    collects(rt, program, workers, 1);
    collects(rt, program, workers, 7);
    collects(rt, program, workers, 16_384);
}

#[test]
fn workers_collect_every_task_once(rt: HostRuntime) {
    let program = coded(&rt);
    collects_all(&rt, program, 1);
    collects_all(&rt, program, 2);
    collects_all(&rt, program, 4);
    collects_all(&rt, program, 64);
}
