//! Sources that ask much of a verdict. Each has one, in little time and memory.

use crate::sources::{program, spread, with_number};
use crate::verdicts::is_said;
use std::process::Abort;

/// One remainder of another, 2,000 times.
const REMAINDERS: &str = "1|class A { public: long x; void m() {
2000| x = x % 7;
1| } }; int main() { }";

/// Under a condition with 8,192 products, 5,000 calls.
const DEMANDS: &str = "1|class A { public: A *o; long y;
13| long x#;
1| void m() { if (
13| (x# + 1) *
1| 1 < y) {
5000| o->k(1#);
1| } } void k(long n) { } }; int main() { }";

/// An index and an addend of 15,129 products each.
const SIDES: &str = "1|class A { public: long a[4];
123| long x#;
123| long y#;
1| void m() { long s = 0; long t = 0;
123| s = s + x#;
123| t = t + y#;
1| a[s * t] += s * t; } }; int main() { }";

/// Ends the test unless this is said of the first operation and the one with this number, in the extent of a root.
fn says<R: AllocGlobal + Abort>(rt: &R, rows: &str, root: u32, other: u32, wanted: &str) {
    let text = spread(rt, rows);
    let said = is_said(rt, program(rt, &text), root, 0, other, wanted);
    assert!(rt; said, "{wanted} of {rows}");
}

#[test]
fn each_has_a_verdict(rt: HostRuntime) {
    says(&rt, REMAINDERS, 0, 0, "Commutes");
    says(&rt, DEMANDS, 0, 0, "Commutes");
    says(&rt, SIDES, 0, 0, "Commutes");
}

/// A condition over 256 fields and 256 locals, which compares a product of some powers: each of them, made by so many
/// squarings, is of 2^(squarings + 1) - 1 nodes. The second operation does nothing.
const TARGETS: &str = "1|class A { public:
256| long x#;
1| void m(long y, long z) { long s = z;
253| long t# = 0;
SQUARINGS| s = s * s;
1| if (s
FACTORS| * s
1| < y) {
256| x#PUT;
253| t# = 1;
1| s = 1; y = 1; z = 1; } } void k() { } void both() { m(1, 2); k(); } }; int main() { }";

/// Ends the test unless this is said of the first operation and the one with this number, where so many squarings make a power, and
/// it is multiplied with itself so often.
fn says_of_targets<R: AllocGlobal + Abort>(
    rt: &R,
    squarings: u32,
    factors: u32,
    put: &str,
    other: u32,
    wanted: &str,
) {
    let rows = with_number(rt, TARGETS, "SQUARINGS", squarings);
    let rows = with_number(rt, &rows, "FACTORS", factors);
    let rows = rows.replace(rt.alloc(), "PUT", put).expect(rt, "rows");
    says(rt, &rows, 2, other, wanted);
}

/// The condition has 60,417 nodes, so what one run of the operation leaves fits, and what two runs leave is too heavy. One of
/// 24,577 nodes makes each target come to 49,159; and one of 12,289 nodes stands three times in each sum.
#[test]
fn heavy_conditions_over_many_targets_have_verdicts(rt: HostRuntime) {
    says_of_targets(&rt, 9, 58, " = 1", 1, "Commutes");
    says_of_targets(&rt, 9, 58, " = 1", 0, "Large");
    says_of_targets(&rt, 12, 2, " = 1", 0, "Commutes");
    says_of_targets(&rt, 11, 2, " += y", 0, "Commutes");
}
