//! From a program to its plan, the verdicts and then the marks: `PlanOf` of `specs/Plans.antt`.

ghost use Rattle.std.specs.Prelude.{IfOk};
ghost use Rattle.ca_program.specs.View.{program_view};
ghost use Rattle.ca_plan.specs.Plans.{PlanOf};
ghost use Rattle.ca_plan.specs.Told.{PlanTold};

use crate::calls::call_loops;
use crate::judging::{judged_loops, judged_ops};
use crate::kept::Kept;
use crate::marking::{marked_loops, marked_ops};
use crate::plans::Plan;
use ca_base::Memory;
use ca_parallel::Marks;
use ca_program::Program;
use std::alloc::Global;

/// The plan, and that its verdicts are right.
pub(crate) fn made(alloc: Global, program: &Program) -> Result<Plan, Memory>
    ensures exact { IfOk result (λ plan. PlanOf (program_view program.now) plan) }
    ensures told { IfOk result (λ plan. PlanTold (program_view program.now) plan) }
{
    let mut kept = Kept::new(alloc, program)?;
    let ops = judged_ops(alloc, program, &mut kept)?;
    let found = call_loops(alloc, program)?;
    let loops = judged_loops(alloc, program, &found, &mut kept)?;
    let marked = marked_ops(alloc, program, &ops)?;
    let sites = marked_loops(alloc, program, &found, &loops)?;
    let marks = Marks {
        ops: marked,
        loops: sites,
    };
    Ok(Plan { marks, ops, loops })
}
