//! Runs of programs, and the command `run`.

ghost use Rattle.std.specs.Prelude.{◌≡◌, ◌≤◌, IfOk};
ghost use Rattle.ca_base.specs.Devices.{Rose, Writes};
ghost use Rattle.ca_program.specs.View.{program_view};
ghost use Rattle.ca_meaning.specs.Output.{output, prints_text};
ghost use Rattle.ca_meaning.specs.Serial.{serial};
ghost use Rattle.ca_parallel.specs.Marks.{SoundMarks};
ghost use Rattle.ca_words.specs.Words.{IsWorkers};
ghost use Rattle.ca_serial.specs.Runs.{run_with, prints_of, OnWrite};
ghost use Rattle.ca_plan.specs.Checked.{Checked};
ghost use Rattle.ca_plan.specs.Plans.{PlainPlan, PlanOf};
ghost use Rattle.ca_app.specs.Ends.{Ends, SinkCause};
ghost use Rattle.ca_app.specs.clauses.Ended.{ended};

use crate::ending::{Status, Unwritten, finish};
use crate::lines::{write_spent, write_trap};
use ca_base::{Gate, Memory, Sink};
use ca_model::print_heap;
use ca_parallel::Marks;
use ca_plan::{let_go, plan};
use ca_program::Program;
use ca_run::OneWorker;
use ca_serial::{Outcome, RunError, drive};
use ca_workers::drive_by_many;
use std::alloc::Global;
use std::sync::Wait;
use std::thread::Threads;

/// Runs a program by so many workers, which pass the gate as their engine does. What it prints is written as it comes. What is
/// written doesn't depend on the workers.
pub fn run_program<R: Threads + Wait + Sync, K: Sink, G: Gate + Sync>(
    rt: &R,
    alloc: Global,
    program: &Program,
    workers: u32,
    budget: u32,
    sink: &mut K,
    gate: &G,
) -> Result<Status, Unwritten>
    requires checked { Checked (program_view program.now) }
    requires workers { IsWorkers workers }
    ensures ends { Ends (output (program_view program.now) budget) (ended result) (K.written sink.old) (K.written sink.new) }
    ensures write_fault { SinkCause (ended result) (K.faults sink.old) (K.faults sink.new) }
{
    match run_by_plan(rt, alloc, program, workers, u64::from(budget), sink, gate) {
        Ok(Outcome::Done { heap, .. }) => finish(print_heap(program, &heap, sink), Status::Done),
        Ok(Outcome::Trapped(trap)) => finish(write_trap(trap, sink), Status::Trapped),
        Ok(Outcome::Spent) => finish(write_spent(budget, sink), Status::Spent),
        Err(RunError::Write) => Err(Unwritten::Write),
        Err(RunError::Memory) => Err(Unwritten::Memory),
    }
}

/// Runs a program, whose marked operations and loops an engine of so many workers runs: `OneWorker` for one, and the engine of
/// `ca_workers` for more.
pub fn run_by_plan<R: Threads + Wait + Sync, K: Sink, G: Gate + Sync>(
    rt: &R,
    alloc: Global,
    program: &Program,
    workers: u32,
    budget: u64,
    sink: &mut K,
    gate: &G,
) -> Result<Outcome, RunError>
    requires checked { Checked (program_view program.now) }
    requires workers { IsWorkers workers }
    ensures outcome { IfOk result (λ outcome. serial (program_view program.now) budget ≡ run_with (prints_of (serial (program_view program.now) budget)) outcome) }
    ensures prints { Writes (K.written sink.old) (K.written sink.new) result (prints_text (prints_of (serial (program_view program.now) budget))) }
    ensures write { OnWrite result (Rose (K.faults sink.old) (K.faults sink.new)) }
    ensures later { K.faults sink.old ≤ K.faults sink.new }
{
    let Ok(marks) = marks_of(alloc, program) else {
        return Err(RunError::Memory);
    };
    if workers > 1 {
        return drive_by_many(rt, alloc, program, &marks, budget, workers, gate, sink);
    }
    let mut engine = OneWorker::new(alloc, gate);
    drive(rt, alloc, program, &marks, budget, &mut engine, sink)
}

/// The marks of a program's plan. The rest of the plan is let go before the run.
pub fn marks_of(alloc: Global, program: &Program) -> Result<Marks, Memory>
    requires { Checked (program_view program.now) }
    ensures planned { IfOk result (λ marks. (of : PlainPlan) × PlanOf (program_view program.now) of × (marks ≡ of.marks)) }
    ensures sound { IfOk result (SoundMarks (program_view program.now)) }
{
    match plan(alloc, program) {
        Ok(plan) => {
            let marks = same_marks(alloc, plan.marks());
            let_go(plan);
            marks
        }
        Err(wanting) => Err(wanting),
    }
}

/// The same marks once more.
fn same_marks(alloc: Global, marks: &Marks) -> Result<Marks, Memory>
    ensures { IfOk result (λ copy. copy ≡ marks.now) }
{
    Ok(Marks {
        ops: Vec::from_slice(alloc, &marks.ops)?,
        loops: Vec::from_slice(alloc, &marks.loops)?,
    })
}
