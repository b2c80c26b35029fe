//! What may run in any order, and what is told of it.
//!
//! `specs/Plans.antt` says what the plan of a program is: for each operation and each call loop the extent with the
//! verdicts on its pairs (`specs/Pairs.antt`), and the marks. `specs/Texts.antt` has what `pairs` and `plan` write of it.
//! `kept` has the extents that were judged, `offences` tells which operations of an extent are separable, and `known` has the
//! verdicts on pairs of such operations, each judged once for all extents.
//!
//! `plan` promises the plan of the definition, and of a program of the checker that its marks are sound and that each pair
//! which it calls commuting does commute; `print_pairs` and `print_plan` write these texts, or a beginning before a fault.
//!
//! Whoever reads the public clauses must believe `Checked`, `Codes`, `Pairs`, `Plans`, `Texts` and `Told` of
//! `specs/`; what stands in `specs/clauses/` serves clauses within the crate alone.
#![tactic(auto)]

mod calls;
mod judging;
mod kept;
mod known;
pub mod laws;
mod making;
mod marking;
mod modes;
mod names;
mod offences;
mod pairs;
mod plans;
mod sharing;
mod texts;

ghost use Rattle.std.specs.Prelude.{IfOk};
ghost use Rattle.ca_program.specs.View.{program_view};
ghost use Rattle.ca_parallel.specs.Marks.{SoundMarks};
ghost use Rattle.ca_plan.specs.Checked.{Checked};
ghost use Rattle.ca_plan.specs.Plans.{CommuteAsTold, PlanOf};

use crate::making::made;
use ca_base::Memory;
use ca_program::Program;
pub use modes::{is_loop_in, is_op_in, print_plan};
pub use plans::{Judged, JudgedLoop, PairVerdict, Plan, let_go};
use std::alloc::Global;
pub use texts::print_pairs;

/// The plan of a program. Where the program is one of the checker, operations of which it says so commute, and its marks
/// are sound.
pub fn plan(alloc: Global, program: &Program) -> Result<Plan, Memory>
    ensures exact { IfOk result (λ plan. PlanOf (program_view program.now) plan) }
    ensures commute { Checked (program_view program.now) → IfOk result (λ plan. CommuteAsTold (program_view program.now) plan) }
    ensures sound { Checked (program_view program.now) → IfOk result (λ plan. SoundMarks (program_view program.now) plan.marks) }
{
    made(alloc, program)
}
