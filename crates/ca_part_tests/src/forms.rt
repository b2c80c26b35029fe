//! Weights and normal forms of terms.

use crate::terms::{hold, hold_for_each};

const ROWS: &str =
    "// a difference gives back what a sum had put to it, and a form's copy is the form
alike 0p0o+0o- 0p
differ 0o 0p
formed 0p
// a term of depth 4,096 has a form, and one more is too heavy
heaviest 0f,4095:0p+
formed 0f,4095:0p+
large 0f,4095:0p+,z+
// sixteen sums multiplied weigh exactly the most, and one more addend is too much
heaviest 0p1p+,15:0p1p+*
formed 0p1p+,15:0p1p+*
large 0p1p+,15:0p1p+*,1n+
// coefficients wrap round, and only where all of them do is a product zero
alike 2n4611686018427387904n2n0p*** 0n
differ 9223372036854775808m0p0p1n+** 0n";

#[test]
fn terms_have_forms(rt: HostRuntime) {
    hold(&rt, ROWS);
}

/// A power of 8,192, the square of a square of .. of a field, times the square of a sum of 127 fields is found quickly, since a
/// monomial keeps each part once: it has at most 320 powers.
#[test]
fn keeps_powers(rt: HostRuntime) {
    let rows = "alike 13w,$,$,** $,$,*13w*\npowers 13w,$,$,**";
    hold_for_each(&rt, "1f,126:2if+", rows);
}

/// A term inside one more, of each kind.
const KINDS: &str = "V
N
D
M
!
R
C
0p<
0pxL
0px=
0p+
0px-
0p*
0pG
0px^
0pP
0pxI
0pS
1b&
1bx|
1bx0p?";

/// Terms of 6,000 levels, around a number and around a pointer, are past the limit and have forms, which are copied and compared;
/// everything is dropped without running out of stack, and in time that grows with the depth and not with its power. Comparisons
/// inside comparisons are found in time that grows with their number: with twice the time a level none of these would end.
#[test]
fn takes_deep_terms(rt: HostRuntime) {
    let rows = "past 0f,6000:$\nscalar 0f,6000:$\npast 0q,6000:$\nscalar 0q,6000:$";
    hold_for_each(&rt, KINDS, rows);
    let rows = "formed 0f,1000:$\nformed 0f,2000:$\nformed 0f,4000:$";
    hold_for_each(&rt, "0p<\n0pxL\n0px=", rows);
}
