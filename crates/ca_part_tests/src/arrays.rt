//! Normal forms of arrays.

use crate::terms::{hold, hold_for_each};

const ROWS: &str = "// a sum that is taken back at an item leaves the form as it was
differ 0s0p1nA 0s
alike 0s0p1nA0p1mA 0s
formed 0s0p1nA
// sums at two items have one form in either order, and a put and a sum don't
alike 0s0p2pA1p3pA 0s1p3pA0p2pA
differ 0s1p3pA0p2pU 0s0p2pU1p3pA
// two ranges, a range and an item, have one form in either order; what is taken off again, what is added to nothing, and a range
// between equal bounds leave nothing; a put stays where it was
alike 0s0p1p2pW3p4p5pW 0s3p4p5pW0p1p2pW
alike 0s0p1p2pW3p4pA 0s3p4pA0p1p2pW
alike 0s0p1p2pW0p1p2pNW 0s
alike 0s0p1p2pW0p1p3pW 0s0p1p2p3p+W
alike 0s0p1p0nW 0s
alike 0s0p0p2pW 0s
differ 0s5n3n2pW 0s
differ 0s0p1p2pW3p4pU 0s3p4pU0p1p2pW
differ 0s0p1p2pW 0s0p3p2pW
differ 0s0p1p2pW1p3p2pW 0s0p3p2pW
// the item at a constant between constant bounds has what is added, one before or behind them hasn't, and so it is with bounds that
// are the other way round
alike 0s2n5n0pW2nS 0s2nS0p+
alike 0s2n5n0pW4nS 0s4nS0p+
alike 0s2n5n0pW1nS 0s1nS
alike 0s2n5n0pW5nS 0s5nS
alike 0s5n2n0pW3nS 0s3nS
alike 0s1m5n0pW0nS 0s0nS0p+
differ 0s1p2p0pW3pS 0s3pS
formed 0s1p2p0pW3pS
alike 0s1p2p0pW3pS 0s3pS3p1p<!3p2p<&0p0n?+
// the item at a constant index over a put at another constant is the item before it, and at an equal index it is what was put
alike 0s1n0pU2nS 0s2nS
alike 0s1n0pU1nS 0p
differ 0s1n0pU1pS 0s1pS
// a choice is taken at each item where both sides agree but for sums, so it has the items' choice
alike 2b0s0p1pA0s? 0s0p2b1p0n?A
// sixty puts have a form, and an item over them is too heavy
formed 0s,60:0ip100pU
large 0s,60:0ip100pU,101pS";

#[test]
fn arrays_have_forms(rt: HostRuntime) {
    hold(&rt, ROWS);
}

/// An item behind so many ranges has a product for itself and one for each range, in its weight. An index and an addend of 15,006
/// products each are no 15,006 times 15,006 pairs.
#[test]
fn heavy_arrays_have_forms(rt: HostRuntime) {
    hold_for_each(
        &rt,
        "heaviest\nformed",
        "$ 0s,254:0p1p2pW,0pS,0s,254:0p1p2pW,0pS*",
    );
    hold(&rt, "large 0s,255:0p1p2pW,0pS,0s,254:0p1p2pW,0pS*");
    let sum = ",0p,121:1ip+,200p,122:201ip+,*400p,121:401ip+,600p,122:601ip+,*A";
    hold_for_each(&rt, sum, "light 0s$\ndiffer 0s$ 0s$$");
}

/// An array inside one more, of each kind, so often.
const KINDS: &str = "6000:0p1pU
6000:0p1pA
6000:0p1p2pW
3000:2pS0sx0pxU
6000:2bx1s?
6000:2bx1sx?";

/// Arrays of 6,000 levels are past the limit and have forms, which are copied and compared; everything is dropped without running out
/// of stack.
#[test]
fn takes_deep_arrays(rt: HostRuntime) {
    hold_for_each(&rt, KINDS, "past 0s,$\narray 0s,$");
}
