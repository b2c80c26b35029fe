//! Laws of sums that are added.

ghost use Rattle.ca_replica.specs.Adding.{AddingIsMerging, RisingListsHoldEachOnce};
ghost use Rattle.ca_replica.specs.Applied.{NoSumsStand, SectionsAdd};
ghost use Rattle.ca_replica.specs.Together.{SumsAreARun};

/// Copies that begin at 0 stand for the frozen heap.
pub fn no_sums_stand()
    ensures { NoSumsStand }
{}

/// A section on a copy adds to its sums what it adds to each object that agrees with the frozen one on constants.
pub fn sections_add()
    ensures { SectionsAdd }
{}

/// Adding the sums of copies that began at 0 is merging what changed in them.
pub fn adding_is_merging()
    ensures { AddingIsMerging }
{}

/// In a list of fields that rises each field stands once.
pub fn rising_lists_hold_each_once()
    ensures { RisingListsHoldEachOnce }
{}

/// The sums of all workers, added to a heap, are a run.
pub fn sums_are_a_run()
    ensures { SumsAreARun }
{}
