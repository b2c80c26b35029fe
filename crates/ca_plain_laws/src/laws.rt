//! The laws of plain pairs.

ghost use Rattle.ca_plain_laws.specs.Laws.{PlainPairsAreSeparable, PlainPairsHaveNoLoops, PlainPairsAreLight, PlainPairsLookSame};

/// The operations of a plain pair are separable, so a verdict is not refused for an access.
pub fn plain_pairs_are_separable()
    ensures { PlainPairsAreSeparable }
{}

/// They have no loops, so it is not refused for one.
pub fn plain_pairs_have_no_loops()
    ensures { PlainPairsHaveNoLoops }
{}

/// No term of a plain pair is too heavy, so it is not refused for one.
pub fn plain_pairs_are_light()
    ensures { PlainPairsAreLight }
{}

/// Both orders of a plain pair end in the same normal forms and demand the same.
pub fn plain_pairs_look_same()
    ensures { PlainPairsLookSame }
{}
