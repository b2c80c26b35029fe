//! Runs a task of a free operation, which claims no class: `AppliesFree` of `specs/Free.antt`.

ghost use Rattle.std.specs.Prelude.{◌≡◌, [], All, IfOk, IfErr};
ghost use Rattle.ca_program.specs.View.{program_view};
ghost use Rattle.ca_parallel.specs.Bodies.{targets_of_all};
ghost use Rattle.ca_parallel.specs.Extents.{operation_body};
ghost use Rattle.ca_parallel.specs.Free.{IsFree};
ghost use Rattle.ca_logs.specs.Loose.{LegalLoose};
ghost use Rattle.ca_cells.specs.Rounds.{IsRound, MayRun, program_of, extent_of, frozen_of};
ghost use Rattle.ca_cells.specs.Seats.{IsSameSeat, cells_key, loose_of, notes_of, kept_of};
ghost use Rattle.ca_cells.specs.Free.{AppliesFree};

use super::{Applied, Cells, Refused, Seat};
use crate::adding::Added;
use crate::freeing::add_free;
use ca_logs::Task;
use ca_model::Heap;
use ca_sections::{Coded, Desk};
use std::alloc::Global;

impl Cells {
    /// Runs the section of a task of a free operation on its receiver's object in the frozen heap, and adds the entry to those of
    /// the seat. It waits for nobody and passes no gate.
    ///
    /// It is `Kept` exactly where the task's clock is the last one or the seat's last entry has a stop, else `Stuck` exactly
    /// where the section stops, and else `Ran`. Without memory the task comes back, and the seat is as it was.
    pub fn apply_free(
        &self,
        alloc: Global,
        desk: &mut Desk,
        worker: &mut Seat,
        program: &Coded<'_>,
        frozen: &Heap,
        task: Task,
        left: u64,
    ) -> Result<Applied, Refused>
        requires given { (program_of (cells_key self.now) ≡ program_view program.now) × (frozen_of (cells_key self.now) ≡ frozen.now) }
        requires round { IsRound (cells_key self.now) }
        requires may_run { MayRun (cells_key self.now) task }
        requires free { targets_of_all (operation_body (program_view program.now) task.op.op) ≡ [] }
        ensures same { IsSameSeat worker.old worker.new × (notes_of worker.new ≡ notes_of worker.old) × (kept_of worker.new ≡ kept_of worker.old) }
        ensures applied { IfOk result (λ answer. AppliesFree (cells_key self.now) task left (loose_of worker.old) (loose_of worker.new) answer) }
        ensures legal { IfOk result (λ _. IsFree (program_of (cells_key self.now)) (extent_of (cells_key self.now)).written task.op.op → All (LegalLoose (program_of (cells_key self.now)) (extent_of (cells_key self.now)) (frozen_of (cells_key self.now))) (loose_of worker.old) → All (LegalLoose (program_of (cells_key self.now)) (extent_of (cells_key self.now)) (frozen_of (cells_key self.now))) (loose_of worker.new)) }
        ensures refused { IfErr result (λ refused. (refused.task ≡ task) × (loose_of worker.new ≡ loose_of worker.old)) }
    {
        let loose = &mut worker.loose;
        match add_free(desk, loose, alloc, program, frozen, &task, left) {
            Ok(Added::Ran { tasks, steps }) => {
                desk.give_back(task.op);
                Ok(Applied::Ran { tasks, steps })
            }
            Ok(Added::Stuck(stop)) => Ok(Applied::Stuck(stop)),
            Ok(Added::Kept) => Ok(Applied::Kept(task)),
            Err(cause) => Err(Refused { task, cause }),
        }
    }
}
