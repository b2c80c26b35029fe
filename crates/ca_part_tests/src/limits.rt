//! Texts at their limits, laid out and run: slots, distances and numbers that fit no byte, or just do.

use crate::instructions::run;
use crate::sources::{spread, with_number};
use std::process::Abort;
use std::sync::Wait;

/// Bodies with locals. By ten turns `x` comes to 10, so `half` gives 5, and 29 is added and put into an item.
const WIDE: &str = "1|class W { public: long s; long a[3]; W *p; long half(long n) {
OTHERS| long y#;
1| y0000 = n / 2; if (y0000 < 0 || n > 20) return 0; return y0000 + 0; } void put(long n) {
OTHERS| long y# = 1;
1| s += n * y0007; a[n % 3] = s; } }; int main() { W *w = new W(); long x = 0;
FEWER| long y# = 1;
1| while (x < 10) { x += 1; } if (w->half(x) == 5) w->put(x * 3 - 1); else w->put(7 / 0);
1| if (w->p == nullptr && w != nullptr) print(w->half(8) + w->s * x - x % 3); print(w->a[w->s % 3] + y0001); }";

/// Ends the test unless the text whose bodies have so many locals, and two more, runs.
fn runs_wide<R: AllocGlobal + Abort + Wait>(rt: &R, fewer: u32) {
    let rows = with_number(rt, WIDE, "FEWER", fewer);
    let rows = with_number(rt, &rows, "OTHERS", fewer.wrapping_add(1));
    run(rt, &spread(rt, &rows), "20 done 7:293 30");
}

#[test]
fn runs_wide_frames(rt: HostRuntime) {
    runs_wide(&rt, 8);
    for fewer in 245..255 {
        runs_wide(&rt, fewer);
    }
}

/// Three turns of a loop whose branches add one so often, and take as much away.
const LONG: &str = "1|int main() { long x = 1; long n = 0; while (n < 3) { if (x == 1) {
TIMES| x++;
1| } else {
TIMES| x--;
1| } n++; } print(x); }";

#[test]
fn runs_long_bodies(rt: HostRuntime) {
    for times in [1, 61, 62, 63, 126, 127, 128, 33_000].as_slice() {
        let text = spread(&rt, &with_number(&rt, LONG, "TIMES", *times));
        let row = with_number(&rt, "3 done 0:SUM", "SUM", (*times).wrapping_add(1));
        run(&rt, &text, &row);
    }
}

/// Blocks in blocks.
const DEEP: &str = "1|int main() { long x = 0;
99| if (x < 1000) {
1| { x++; }
99| x++; }
199| {
1| x++;
199| }
1| print(x); }";

/// The first has 1,000 tokens. The others have 997, and a slot for each bracket behind those of fifty locals.
const EXPRESSIONS: &str = "1|int main() {
50| long x# = 1;
1| print(-1
499|+1
1|); print(
249|x0001+(
1|x0049
249|)
1|); print(
249|2-(
1|2
249|)
1|); }";

/// Numbers about 2^31 and 2^32, and the greatest.
const NUMBERS: &str = "int main() { long n = 2147483646;
  while (n < 2147483650) { n++; print(n - 2147483647); if (n == 2147483648) print(7); }
  print(n + 2147483648); print(n / 2 * 4294967296 / 4294967297); print(9223372036854775807 - n); }";

#[test]
fn runs_deep_and_long_texts(rt: HostRuntime) {
    run(&rt, &spread(&rt, DEEP), "0 done 0:101");
    run(&rt, &spread(&rt, EXPRESSIONS), "0 done 0:498 250 0");
    let row = "4 done 0:0 1 7 2 3 4294967298 1073741824 9223372034707292157";
    run(&rt, NUMBERS, row);
}

/// Operation `i` makes `i - n` of `n`, so half of `i + 1` of every other.
#[test]
fn runs_many_operations(rt: HostRuntime) {
    let mut rows = String::new(rt.alloc());
    rows.push_str("1|class A { public: long n;")
        .expect(&rt, "a row");
    for i in 0..256 {
        let row = format!(in rt.alloc(); "\n1| void m{i:04}() {{ n = {i} - n; }}");
        rows.push_str(&row.expect(&rt, "a row"))
            .expect(&rt, "a row");
    }
    let rest = "\n1| }; int main() { A *a = new A();\n256| a->m#();\n1| print(a->n); }";
    rows.push_str(rest).expect(&rt, "a row");
    run(&rt, &spread(&rt, &rows), "256 done 0:128");
}
