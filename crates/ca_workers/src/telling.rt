//! Rounds that tell their operations, line by line.

ghost use Rattle.std.specs.Prelude.{◌≡◌, ◌<◌, true, map, All, length, IfOk, OnErr};
ghost use Rattle.ca_program.specs.View.{program_view};
ghost use Rattle.ca_beside.specs.Beside.{present};
ghost use Rattle.ca_cells.specs.Logs.{loose_in};
ghost use Rattle.ca_logs.specs.declared.log.Task.{Task};
ghost use Rattle.ca_logs.specs.Entries.{task_calls};
ghost use Rattle.ca_trace.specs.Lines.{step_of};
ghost use Rattle.ca_run.specs.Traced.{LinesBehind};
ghost use Rattle.ca_workers.specs.clauses.Runs.{BeginsAnew, IsSetting, MayWait};
ghost use Rattle.ca_workers.specs.clauses.Told.{Adds, RoundTold, ToldTo};

use crate::rounds::{FIRST_QUOTA, Rounds, next_quota};
use crate::turning::{Turn, turn_behind};
use ca_base::{Gate, Memory};
use ca_beside::Beside;
use ca_cells::RoundLog;
use ca_logs::Task;
use ca_model::Heap;
use ca_parallel::Op;
use ca_round_order::in_order;
use ca_trace::Line;
use std::alloc::{AllocError, Global};
use std::mem;
use std::sync::Wait;
use std::thread::Threads;

/// A line for each operation.
fn lines_of(alloc: Global, ops: Vec<Op>) -> Result<Vec<Line>, AllocError>
    ensures { IfOk result (λ lines. lines.items ≡ map step_of ops.items) }
{
    ops.into_iter().map(|op| Line::Step(op)).collect(alloc)
}

/// Adds the lines of a round that keeps its entries, in its order. After an error none is added.
fn add_lines(alloc: Global, log: &RoundLog, lines: &mut Vec<Line>) -> Result<(), Memory>
    requires { log.now.keeps ≡ true }
    ensures added { IfOk result (λ _. Adds lines.old.items log.now.logs.items (loose_in log.now) lines.new.items) }
    ensures kept { OnErr result (lines.new.items ≡ lines.old.items) }
{
    let ops = in_order(alloc, log.logs.as_slice(), log.loose.as_slice())?;
    let mut more = lines_of(alloc, ops)?;
    lines.append(&mut more)?;
    Ok(())
}

impl<'s, R: Threads + Wait + Sync, G: Gate + Sync> Rounds<'s, R, G> {
    /// Runs a round in cells, adds a line for each operation that ran, and takes the objects that it touched beside the heap.
    /// `None`: what waits has no complete run within the budget.
    fn tell_round(
        &self,
        frozen: &Heap,
        beside: &mut Beside,
        waiting: Vec<Task>,
        quota: u32,
        left: u64,
        lines: &mut Vec<Line>,
    ) -> Result<Option<Turn>, Memory>
        requires setting { IsSetting (program_view self.now.program.now) self.now.extent.now frozen.now }
        requires waiting { MayWait (program_view self.now.program.now) self.now.extent.now frozen.now (present frozen.now beside.old) (task_calls waiting.items) }
        requires begins { All (λ (t : Task). t.after ≡ 0) waiting.items }
        requires some { 0 < length waiting.items }
        requires quota { 0 < quota }
        ensures told { IfOk result (RoundTold (program_view self.now.program.now) frozen.now (present frozen.now beside.old) (task_calls waiting.items) left lines.old.items (present frozen.now beside.new) lines.new.items) }
        ensures begins { IfOk result BeginsAnew }
        ensures behind { LinesBehind lines.old.items lines.new.items }
    {
        let mut memory = Beside::new(self.alloc);
        let went = self.run_round(frozen, beside, waiting, quota, left, true, &mut memory)?;
        let round = match went {
            Some(round) => round,
            None => return Ok(None),
        };
        add_lines(self.alloc, &round.log, lines)?;
        let turn = turn_behind(round, beside)?;
        Ok(Some(turn))
    }

    /// Runs rounds until nothing waits, each from where the one before it ended, adds a line for each operation that ran, in an
    /// order in which they may run one by one, and tells the steps of all. The heap stays as it is; what changes is kept beside
    /// it. `None`: what waits has no complete run within the budget.
    pub fn tell_rounds(
        &self,
        frozen: &Heap,
        beside: &mut Beside,
        first: Vec<Task>,
        left: u64,
        lines: &mut Vec<Line>,
    ) -> Result<Option<u64>, Memory>
        requires setting { IsSetting (program_view self.now.program.now) self.now.extent.now frozen.now }
        requires waiting { MayWait (program_view self.now.program.now) self.now.extent.now frozen.now (present frozen.now beside.old) (task_calls first.items) }
        requires begins { All (λ (t : Task). t.after ≡ 0) first.items }
        ensures told { IfOk result (ToldTo (program_view self.now.program.now) frozen.now (present frozen.now beside.old) (task_calls first.items) left lines.old.items (present frozen.now beside.new) lines.new.items) }
        ensures behind { LinesBehind lines.old.items lines.new.items }
    {
        let mut waiting = first;
        let mut quota = FIRST_QUOTA;
        let mut still = left;
        'rounds: while waiting.len() > 0 {
            let tasks = mem::replace(&mut waiting, Vec::new(self.alloc));
            let told = self.tell_round(frozen, beside, tasks, quota, still, lines)?;
            let turn = match told {
                Some(turn) => turn,
                None => return Ok(None),
            };
            waiting = turn.rest;
            quota = next_quota(quota);
            still -= turn.steps;
        }
        Ok(Some(left - still))
    }
}
