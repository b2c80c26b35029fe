//! The laws of verdicts: `OneVerdict`, `NoneIsLost` and `MovingPairsCommute` of `specs/Laws.antt`.

ghost use Rattle.ca_verdicts.specs.Laws.{OneVerdict, NoneIsLost, MovingPairsCommute};

/// No pair has two verdicts, but for which of the demands that differ is told.
pub fn one_verdict()
    ensures { OneVerdict }
{}

/// What commutes by forms alone has the verdict Commutes.
pub fn none_is_lost()
    ensures { NoneIsLost }
{}

/// So has a pair that raises one field, or lowers it.
pub fn moving_pairs_commute()
    ensures { MovingPairsCommute }
{}
