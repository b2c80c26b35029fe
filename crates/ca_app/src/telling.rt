//! The commands that tell the plan of a program: `pairs`, `plan` and `emit`.

ghost use Rattle.std.specs.Prelude.{◌≡◌, ℕ, List};
ghost use Rattle.ca_tree.specs.View.{tree_view};
ghost use Rattle.ca_program.specs.View.{program_view};
ghost use Rattle.ca_words.specs.declared.TextCommand.TheVariants.{Tell};
ghost use Rattle.ca_plan.specs.Checked.{Checked};
ghost use Rattle.ca_app.specs.Ends.{Ends, EndsWith, SinkCause};
ghost use Rattle.ca_app.specs.Reply.{ProgramReplies};
ghost use Rattle.ca_app.specs.Told.{ProgramTold, Tells};
ghost use Rattle.ca_app.specs.clauses.Ended.{ended};
ghost use Rattle.ca_app.specs.declared.serving.TheConstants.{DONE};

use crate::ending::{Status, Unwritten, finish};
use crate::reading::Reading;
use ca_base::{Sink, write_all};
use ca_emit::emit;
use ca_plan::{Plan, let_go, plan, print_pairs, print_plan};
use ca_words::PlanCommand;
use std::alloc::Global;

/// Makes the plan of the program that was read, and tells it. The annotated text is made whole before it is written.
pub fn tell_plan<K: Sink>(
    alloc: Global,
    command: PlanCommand,
    reading: &Reading,
    sink: &mut K,
) -> Result<Status, Unwritten>
    requires checked { Checked (program_view reading.now.program) }
    ensures ends { EndsWith (ProgramReplies (tree_view reading.now.tree) (program_view reading.now.program) (Tell command)) (ended result) (K.written sink.old) (K.written sink.new) }
    ensures told { ended result ≡ DONE → ProgramTold (tree_view reading.now.tree) (program_view reading.now.program) command (K.written sink.old) (K.written sink.new) }
    ensures write_fault { SinkCause (ended result) (K.faults sink.old) (K.faults sink.new) }
{
    match plan(alloc, &reading.program) {
        Ok(plan) => {
            let status = tell(alloc, command, reading, &plan, sink);
            let_go(plan);
            status
        }
        Err(_) => Err(Unwritten::Memory),
    }
}

/// Writes what a command tells of the plan of the program that was read.
fn tell<K: Sink>(
    alloc: Global,
    command: PlanCommand,
    reading: &Reading,
    plan: &Plan,
    sink: &mut K,
) -> Result<Status, Unwritten>
    ensures ends { (bytes : List ℕ) → Tells (tree_view reading.now.tree) (program_view reading.now.program) plan.now command bytes → Ends (record { status = DONE; bytes = bytes }) (ended result) (K.written sink.old) (K.written sink.new) }
    ensures write_fault { SinkCause (ended result) (K.faults sink.old) (K.faults sink.new) }
{
    match command {
        PlanCommand::Pairs => finish(print_pairs(&reading.program, plan, sink), Status::Done),
        PlanCommand::Plan => finish(print_plan(&reading.program, plan, sink), Status::Done),
        PlanCommand::Emit => match emit(alloc, &reading.program, &reading.tree, plan) {
            Ok(text) => finish(write_all(sink, &text), Status::Done),
            Err(_) => Err(Unwritten::Memory),
        },
    }
}
