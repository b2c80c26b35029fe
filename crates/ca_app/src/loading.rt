//! The command that runs a large text which it makes: `load`.

ghost use Rattle.std.specs.Prelude.{◌≡◌, List, IfOk};
ghost use Rattle.ca_program.specs.View.{program_view};
ghost use Rattle.ca_model.specs.declared.value.Value.{Value as Datum};
ghost use Rattle.ca_meaning.specs.Serial.{done, serial};
ghost use Rattle.ca_words.specs.declared.LoneCommand.TheVariants.{Load};
ghost use Rattle.ca_words.specs.Words.{IsSize, IsWorkers};
ghost use Rattle.ca_plan.specs.Checked.{Checked};
ghost use Rattle.ca_app.specs.Causes.{IsDone};
ghost use Rattle.ca_app.specs.Ends.{EndsWith, SinkCause};
ghost use Rattle.ca_app.specs.Reply.{IsLoaded, UnreadReplies};
ghost use Rattle.ca_app.specs.clauses.Ended.{ended};

use crate::ending::{Status, Unwritten, finish};
use crate::generating::generate;
use crate::reading::{NoProgram, read_program};
use crate::running::run_by_plan;
use crate::summary::write_summary;
use ca_base::{Gate, Memory, Sink, SureSink};
use ca_model::Heap;
use ca_program::Program;
use ca_serial::{Outcome, RunError};
use std::alloc::Global;
use std::sync::Wait;
use std::thread::Threads;

/// The most steps of a run; it takes far fewer.
const BUDGET: u64 = 1_000_000_000;

/// What a run left, and how many steps it took.
#[derive(Drop)]
struct Loaded {
    heap: Heap,
    steps: u64,
}

/// Runs the text of a seed and a size by so many workers, which pass the gate as their engine does, and then writes the summary
/// of what the run left.
pub fn load<R: Threads + Wait + Sync, K: Sink, G: Gate + Sync>(
    rt: &R,
    alloc: Global,
    seed: u64,
    size: u32,
    workers: u32,
    sink: &mut K,
    gate: &G,
) -> Result<Status, Unwritten>
    requires size { IsSize size }
    requires workers { IsWorkers workers }
    ensures ends { EndsWith (UnreadReplies (Load seed size workers)) (ended result) (K.written sink.old) (K.written sink.new) }
    ensures write_fault { SinkCause (ended result) (K.faults sink.old) (K.faults sink.new) }
{
    match run_generated(rt, alloc, seed, size, workers, gate) {
        Ok(loaded) => finish(
            write_summary(&loaded.heap, loaded.steps, sink),
            Status::Done,
        ),
        Err(_) => Err(Unwritten::Memory),
    }
}

/// Runs the text of a seed and a size.
fn run_generated<R: Threads + Wait + Sync, G: Gate + Sync>(
    rt: &R,
    alloc: Global,
    seed: u64,
    size: u32,
    workers: u32,
    gate: &G,
) -> Result<Loaded, Memory>
    requires size { IsSize size }
    requires workers { IsWorkers workers }
    ensures { IfOk result (λ loaded. IsLoaded seed size loaded.heap loaded.steps) }
{
    let text = generate(alloc, seed, size)?;
    match read_program(alloc, &text) {
        Ok(reading) => run_to_end(rt, alloc, &reading.program, workers, gate),
        Err(NoProgram::Refused(_)) => unreachable!(),
        Err(NoProgram::Memory) => Err(Memory),
    }
}

/// Runs a program whose serial run is done within the budget. What it prints goes nowhere.
fn run_to_end<R: Threads + Wait + Sync, G: Gate + Sync>(
    rt: &R,
    alloc: Global,
    program: &Program,
    workers: u32,
    gate: &G,
) -> Result<Loaded, Memory>
    requires checked { Checked (program_view program.now) }
    requires workers { IsWorkers workers }
    requires done { IsDone (serial (program_view program.now) BUDGET) }
    ensures { IfOk result (λ loaded. (prints : List Datum) × (serial (program_view program.now) BUDGET ≡ done prints loaded.heap loaded.steps)) }
{
    let mut sink = SureSink::new();
    match run_by_plan(rt, alloc, program, workers, BUDGET, &mut sink, gate) {
        Ok(Outcome::Done { heap, steps }) => Ok(Loaded { heap, steps }),
        Ok(Outcome::Trapped(_)) => unreachable!(),
        Ok(Outcome::Spent) => unreachable!(),
        Err(RunError::Write) => unreachable!(),
        Err(RunError::Memory) => Err(Memory),
    }
}
