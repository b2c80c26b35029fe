//! The laws of order.

ghost use Rattle.ca_order_laws.specs.Complete.{LoopSectionsEndAlike, RunsEndAlike, SectionsEndAlike};
ghost use Rattle.ca_order_laws.specs.Order.{AnyFrozenHeap, DepthFirst, Diamond, Finishes, LoopThenList, OneEnd, Rounds, RunsStay, SectionThenList};

/// A section reads constants of the frozen heap alone, so whoever runs sections may keep any heap that
/// stands for the frozen one.
pub fn any_frozen_heap_serves()
    ensures { AnyFrozenHeap }
{}

/// Where there is a complete run, each operation that waits can run next: no choice of a worker is wrong.
pub fn any_operation_runs_next()
    ensures { Diamond }
{}

/// All complete runs end in one heap with one sum of steps, so an engine may stop at the first that it finds.
pub fn all_complete_runs_end_alike()
    ensures { OneEnd }
{}

/// What is left behind any run can be completed, with the steps that are left, so an engine that stops in the
/// middle may be followed by any other.
pub fn any_run_can_be_completed()
    ensures { Finishes }
{}

/// Whatever a run leaves may be asked all this again: its heap stands for the frozen one, and what waits is well typed
/// and of the extent. An engine carries no types of its own.
pub fn runs_stay_in_the_extent()
    ensures { RunsStay }
{}

/// A run, and then a run from where it ended, are one run, so an engine may go in rounds.
pub fn rounds_are_one_run()
    ensures { Rounds }
{}

/// A call may be run as its section and then what that lists, and the other way round: what an engine that runs
/// sections does and what the serial run does are one, for each call alone.
pub fn a_call_is_its_section_and_its_list()
    ensures { SectionThenList }
{}

/// So is a loop of calls: its calls may be listed first, and then run as any list of operations is.
pub fn a_call_loop_is_its_section_and_its_list()
    ensures { LoopThenList }
{}

/// The serial run is a complete run of the pending machine, and any complete run tells how the serial run ends: with
/// it an engine that runs the operations of a parallel extent in an order of its own answers what the serial run would.
pub fn depth_first_is_a_complete_run()
    ensures { DepthFirst }
{}

/// A complete section is so, with one outcome, within each budget that has its steps and within no other: an engine may
/// run it within whatever is left.
pub fn sections_end_alike()
    ensures { SectionsEndAlike }
{}

/// So is the section of a loop of serial code: what it did within the budget of a run it does within that of another.
pub fn loop_sections_end_alike()
    ensures { LoopSectionsEndAlike }
{}

/// So is the serial run of operations in order: what an engine answers within a budget holds of each that has the steps,
/// and there is one such answer.
pub fn serial_runs_end_alike()
    ensures { RunsEndAlike }
{}
