//! How often a round passes the gate: once for neighbours of one receiver, of which there are 16 at most, and not for an operation
//! that takes no lock.

ghost use Rattle.std.specs.Prelude.{◌≡◌, ◌<◌, ◌≤◌, All, IfOk};
ghost use Rattle.ca_program.specs.View.{program_view};
ghost use Rattle.ca_logs.specs.declared.log.Task.{Task};
ghost use Rattle.ca_cells.specs.Rounds.{MayRun};
ghost use Rattle.ca_cells.specs.declared.rule.Given.{Given};
ghost use Rattle.ca_counters.specs.Counters.{IsSetFor, counters, operation};

use crate::setting::{coded, set};
use ca_base::Gate;
use ca_beside::Beside;
use ca_cells::RoundLog;
use ca_counters::{OPERATIONS, let_go, task_of};
use ca_logs::Task;
use ca_pool::Pool;
use ca_sections::Coded;
use std::alloc::{AllocError, Global};
use std::process::Abort;
use std::sync::Wait;
use std::sync::atomic::{AtomicU64, Ordering};
use std::thread::Threads;

/// A round of so many workers, whose first tasks call an operation so many times, on so many objects in turn: `add` is 0, `twice`
/// is 1, and `two`, which takes no lock, is 2. Then how often it passes the gate, and how many entries it has on objects, and how
/// many that stand in no history. A line with `//` tells what the rows behind it are for.
const ROWS: &str = "// a task that takes no lock lists two neighbours
1 2 1 1 1 2 1
2 2 1 1 1 2 1
64 2 1 1 1 2 1
// so do four on four objects, and four on one
1 2 4 4 4 8 4
1 2 4 1 4 8 4
// one that takes the lock is no neighbour of the one that it lists
1 1 1 1 2 2 0
1 1 3 3 6 6 0
// but three are, and the three that they list
1 1 3 1 2 6 0
// neighbours that come first
1 0 1 1 1 1 0
1 0 2 1 1 2 0
1 0 16 1 1 16 0
1 0 17 1 2 17 0
1 0 33 1 3 33 0
4 0 33 1 3 33 0
// receivers that take turns
1 0 2 2 2 2 0
1 0 8 2 8 8 0
1 0 9 3 9 9 0";

/// Counts how often it is passed. All rounds of a pool here pass this one, so that they are compiled once.
#[derive(Drop)]
pub struct CountingGate {
    passed: AtomicU64,
}

impl CountingGate {
    /// A gate that nobody passed.
    pub fn new() -> CountingGate {
        CountingGate {
            passed: AtomicU64::new(0),
        }
    }
}

impl Gate for CountingGate {
    fn inside(&self, _worker: u32, _object: u32) {
        self.passed.fetch_add(1, Ordering::SeqCst);
    }
}

/// Tasks that call an operation, so many times, on so many objects in turn.
fn first_tasks(alloc: Global, op: u32, count: u32, objects: u32) -> Result<Vec<Task>, AllocError>
    requires { (op < 3) × (0 < objects) }
    ensures may_run { IfOk result (λ tasks. (key : Given) → IsSetFor (operation op) key objects → All (MayRun key) tasks.items) }
    ensures begins { IfOk result (λ tasks. All (λ (t : Task). t.after ≡ 0) tasks.items) }
{
    let mut tasks = Vec::new(alloc);
    let mut object = 0;
    'tasks: for _ in 0..count {
        tasks.push(task_of(alloc, op, object))?;
        object += 1;
        if object == objects {
            object = 0;
        }
    }
    Ok(tasks)
}

/// How many entries a round has on objects, and how many that stand in no history.
fn entries(log: &RoundLog) -> (usize, usize) {
    let mut count: usize = 0;
    for cell in &log.logs {
        count = count.wrapping_add(cell.entries.len());
    }
    let mut free: usize = 0;
    for entries in &log.loose {
        free = free.wrapping_add(entries.len());
    }
    (count, free)
}

/// How often a round passes the gate, and how many entries it has, where all its tasks ran.
fn passes<R: Threads + Wait + Sync + AllocGlobal + Abort>(
    rt: &R,
    program: &Coded<'_>,
    workers: u32,
    op: u32,
    count: u32,
    objects: u32,
) -> (u64, usize, usize)
    requires program { program_view program.now ≡ counters }
    requires row { (0 < workers) × (workers ≤ 64) × (op < 3) × (0 < objects) }
{
    let alloc = rt.alloc();
    let (extent, heap, beside, cells, seats) = set(rt, program, op, objects, workers, false);
    let Ok(first) = first_tasks(alloc, op, count, objects) else {
        panic!(rt; "no tasks");
    };
    let mut pool = Pool::make(workers);
    let gate = CountingGate::new();
    let mut memory = Beside::new(alloc);
    let ran = pool.round(
        rt,
        alloc,
        program,
        &extent,
        &heap,
        &beside,
        cells,
        seats,
        first,
        16_384,
        100,
        &mut memory,
        &gate,
    );
    let_go(memory);
    let_go(extent);
    let_go(heap);
    let_go(beside);
    let round = ran.expect(rt, "a round");
    let all_ran = round.rest.is_empty() && round.stop.is_none();
    let (there, free) = entries(&round.log);
    let_go(round);
    assert!(rt; all_ran);
    (gate.passed.load(Ordering::SeqCst), there, free)
}

/// The number of a word.
fn number<R: Abort>(rt: &R, word: &str) -> u32 {
    word.parse().expect(rt, "a number")
}

/// The word that a row begins with, as a number, and the row behind it.
fn first_number<'a, R: Abort>(rt: &R, row: &'a str) -> (u32, &'a str) {
    let (word, row) = row.split_once(' ').expect(rt, "two words");
    (number(rt, word), row)
}

/// Ends the test unless a row is as it says.
fn holds<R: Threads + Wait + Sync + AllocGlobal + Abort>(rt: &R, program: &Coded<'_>, row: &str)
    requires { program_view program.now ≡ counters }
{
    let (workers, rest) = first_number(rt, row);
    let (op, rest) = first_number(rt, rest);
    let (count, rest) = first_number(rt, rest);
    let (objects, rest) = first_number(rt, rest);
    let (passed, rest) = first_number(rt, rest);
    let (there, rest) = first_number(rt, rest);
    let free = number(rt, rest);
    assert!(rt; workers > 0 && workers <= 64 && op < OPERATIONS && objects > 0);
    let round = passes(rt, program, workers, op, count, objects);
    let due = (u64::from(passed), there as usize, free as usize);
    assert!(rt; round == due, "{row}");
}

#[test]
fn neighbours_pass_one_gate(rt: HostRuntime) {
    let program = coded(&rt);
    for row in ROWS.lines() {
        if !row.starts_with("//") {
            holds(&rt, program, row);
        }
    }
}
