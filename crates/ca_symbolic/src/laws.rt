//! Laws of symbolic execution.

ghost use Rattle.ca_symbolic.specs.Laws.{AlikeIsEqual, CallLoopsAreTold, LoopsAreFewer};

/// The index of a put and that of the item on its right side are compared as they are written, so a sum at an item
/// is told without a proof about values.
pub fn alike_is_equal()
    ensures { AlikeIsEqual }
{}

/// Whether a loop is a loop of calls is a test, so a verdict can tell the first loop that is none.
pub fn call_loops_are_told()
    ensures { CallLoopsAreTold }
{}

/// A body whose loops are all known in an extent has no other loop where nothing is written, so it can be executed before an
/// extent is known.
pub fn loops_are_fewer()
    ensures { LoopsAreFewer }
{}
