//! The laws of summed extents.

ghost use Rattle.ca_sum_laws.specs.Calls.{CallsLead};
ghost use Rattle.ca_sum_laws.specs.Facts.{EntriesRanOnTheFrozenObjects};
ghost use Rattle.ca_sum_laws.specs.Moves.{SummedSectionsMoveAlike};
ghost use Rattle.ca_sum_laws.specs.Replicas.{ReplicasAreARun};
ghost use Rattle.ca_sum_laws.specs.Summed.{SeparableSumsAreSummed};

/// A separable operation whose accesses to written fields are sums is summed.
pub fn separable_sums_are_summed()
    ensures { SeparableSumsAreSummed }
{}

/// A summed section takes the same steps, lists the same calls and adds the same to each object that agrees on constants.
pub fn summed_sections_move_alike()
    ensures { SummedSectionsMoveAlike }
{}

/// What workers did each to a heap of its own, merged, is what a run of the pending machine leaves.
pub fn replicas_are_a_run()
    ensures { ReplicasAreARun }
{}

/// Each entry of a replica is the complete section of its task on the frozen object.
pub fn entries_ran_on_the_frozen_objects()
    ensures { EntriesRanOnTheFrozenObjects }
{}

/// A call that is done, with all that it leads to, is what entries lead to: each section of its run, once.
pub fn calls_lead()
    ensures { CallsLead }
{}
