//! Runs by one worker and by many.

use crate::calls::{Call, add, add_lines};
use crate::sources::{
    ACCUMULATOR, BINS, DEEP_THEN_HIT, FIRST, GRAPH_VISIT, HIT_THEN_DEEP, LONG_LIST,
    LONGER_AND_LONGER, PRINTS, PRODUCTS_ON_ONE, STEPS_IN_A_LIST, STEPS_IN_A_LOOP, THREE_BINS,
    TRAP_IN_A_LIST, TRAP_IN_A_LOOP, TWO_BINS, WRAPPING_SUM,
};
use std::alloc::Global;
use std::process::Abort;
use std::sync::Wait;
use std::thread::Threads;

/// How many workers run each of them.
const WORKERS: [u32; 5] = [1, 2, 4, 8, 64];

/// Runs of small texts. A line with a text stands before the lines of its runs: the budget, the status, `:` and what is
/// written, with `$` for the end of a line. A line with `//` tells what the text behind it is for.
const RUNS: &str = "of int main() { }
1 0:
of int main() { long x = 9223372036854775807; }
1 0:
of int main() { print(-7 / 2); print(-7 % 2); print((-9223372036854775807 - 1) / -1); print((-9223372036854775807 - 1) % -1); print(1 < 2 && !false); }
1 0:-3$-1$-9223372036854775808$0$true$
of int main() { print(1); long z = 0; print(5 / z); }
1 3:1$trap 1 ZeroDivisor$
of int main() { long z = 0; print(true || 5 / z == 0); print(false && 5 % z == 0); }
1 0:true$false$
of class A { public: long n; void add(long v) { n += v; } void two(long v) { add(v); add(v + 1); } }; int main() { A *a = new A(); a->two(3); }
3 0:#0 A n=7$
of class A { public: long n; void add(long v) { n += v; } void two(long v) { add(v); add(v + 1); } }; int main() { A *a = nullptr; a->two(3); }
9 3:trap 1 NullPointer$
of class F { public: long f(long n) { return f(n); } }; int main() { F *a = new F(); print(a->f(1)); }
10 4:spent 10$
of class T { public: }; int main() { for (long i = 0; i < 2000000; i++) { T *t = new T(); } }
1000000000 3:trap 1 HeapFull$
of class Acc {$public:$  long sum;$  Acc *peer;$  void add(long p) { sum = sum + p; }$  void tie(Acc *q) { peer = q; }$};$int main() {$  Acc *a = new Acc();$  Acc *b = nullptr;$  a->add(3);$  b->add(4);$  a->tie(b);$  a->add(5);$  return 0;$}$
100 3:trap 12 NullPointer$
1 3:trap 12 NullPointer$
// arguments come before the null check
of class F { public: long f(long n) { return n; } }; int main() { F *a = nullptr; long z = 0; print(a->f(1 / z)); }
9 3:trap 1 ZeroDivisor$
// and the null check before the step
of class F { public: long f(long n) { return n; } }; int main() { F *a = nullptr; F *b = new F(); print(b->f(1)); print(a->f(1)); }
1 3:1$trap 1 NullPointer$
// an index is checked before the right side
of class C { public: long a[2]; void put(long z) { a[2] = 1 / z; } }; int main() { C *c = new C(); c->put(0); }
9 3:trap 1 OutOfRange$
// and is no number modulo 2^32
of class C { public: long a[2]; void put() { a[4294967296] = 1; } }; int main() { C *c = new C(); c->put(); }
9 3:trap 1 OutOfRange$
// a local begins anew at its declaration
of int main() { for (long i = 0; i < 3; i++) { long s; s += 1; print(s); } }
9 0:1$1$1$
// comments, and what is added and taken away by one
of int main() { long x = 5; x++; /* , */ x--; x *= 2; print(x); // done$ }
1 0:10$
// what many workers run in the heap ahead of a call that traps, or has no step left, is undone, and the run goes on into the loop
of class A { public: long n; long same(long v) { long k = v; for (long i = 0; i < 1; i++) k = v; return k; } void put(long v) { n += 10 / same(v); } }; class B { public: A *at[20]; void fill() { for (long i = 0; i < 20; i++) at[i] = new A(); } }; int main() { B *b = new B(); b->fill(); for (long i = 0; i < 20; i++) b->at[i]->put(15 - i); }
1000 3:trap 1 ZeroDivisor$
60 4:spent 60$
// so it is where one call only calls these
of class A { public: long n; long same(long v) { long k = v; for (long i = 0; i < 1; i++) k = v; return k; } void put(long v) { n += 10 / same(v); } }; class B { public: A *at[20]; void fill() { for (long i = 0; i < 20; i++) at[i] = new A(); } void all(long v) { for (long i = 0; i < 20; i++) at[i]->put(v - i); } }; int main() { B *b = new B(); b->fill(); b->all(15); }
1000 3:trap 1 ZeroDivisor$
60 4:spent 60$
// bits, and the greater and the less of two; `&` binds more than `^`, and `^` more than `|`
of int main() { print(6 & 3); print(6 | 3); print(6 ^ 3); print(max(-1, 2)); print(min(-1, 2)); print(1 | 6 & 3); }
1 0:2$7$5$2$-1$3$
of int main() { print(6 ^ 3 & 5); print(1 | 3 ^ 3); print(6 & 1 + 1); print(-6 & 3); print((1 | 2) == 3 && (6 & 3) < 3); print(-max(1, 2) * 3); long x = 6; x &= 3; x |= 5; x ^= 2; print(x); }
1 0:7$1$2$2$true$-6$5$
// the right side of `&` is asked for, that of `&&` isn't
of int main() { long z = 0; print(false && (0 & 1 / z) == 0); print(0 & 1 / z); }
1 3:false$trap 1 ZeroDivisor$
// each side of `max` takes its steps once
of class F { public: long f(long n) { return n; } }; int main() { F *a = new F(); print(max(a->f(1), a->f(2))); }
2 0:2$#0 F$
1 4:spent 1$
// a parity, of which two cancel
of class X { public: long x; void f(long v) { x ^= v; } void g() { f(5); f(5); f(3); } }; int main() { X *a = new X(); a->g(); }
4 0:#0 X x=3$
3 4:spent 3$
// ranges of an array and an item, a range that goes past the array, and one of nothing
of class V { public: long a[10]; void add(long f, long t, long v) { for (long i = f; i < t; i++) a[i] += v; } void one(long j) { a[j] = a[j] + 1; } void two() { add(0, 10, 3); one(4); add(2, 5, 1); } }; int main() { V *x = new V(); x->two(); }
17 0:#0 V a=[3,3,4,4,5,3,3,3,3,3]$
16 4:spent 16$
of class V { public: long a[3]; void add(long f, long t) {$for (long i = f; i < t; i++) a[i] += t; } void go(long f, long t) { add(0, 3); add(1, 2); add(f, t); } }; int main() { V *x = new V(); x->go(2, 4); }
1000 3:trap 2 OutOfRange$
of class V { public: long a[3]; void add(long f, long t) { for (long i = f; i < t; i++) a[i] += t; } void go(long f, long t) { add(0, 3); add(1, 2); add(f, t); } }; int main() { V *x = new V(); x->go(9, -5); }
8 0:#0 V a=[3,5,3]$
// what thirty calls gather
of class B { public: long any; long odd; long top; long low; void add(long v) { any |= v; odd ^= v; top = max(top, v); low = min(-v, low); } }; class R { public: B *b[3]; void make() { for (long i; i < 3; i++) b[i] = new B(); } void go() { for (long i; i < 30; i++) b[i % 3]->add(i); } }; int main() { R *r = new R(); r->make(); r->go(); }
65 0:#0 R b=[#1,#2,#3]$#1 B any=31 odd=11 top=27 low=-27$#2 B any=31 odd=21 top=28 low=-28$#3 B any=31 odd=31 top=29 low=-29$
// an inner block declares a name again, both branches return, and a local hides no method
of class A { public: void m() { print(2); } void n(long m) { m(); } long f(bool b) { if (b) return 3; else { return 4; } } }; int main() { long x; { bool x; print(x); } A *a = new A(); a->n(x); print(a->f(true)); print(a->f(x == 1)); }
9 0:false$2$3$4$#0 A$
// a call among numbers, one of two values, a local, an item, and an operation
of class A { public: long n, a[3]; long f(long p, long q) { return p - q; } long g(long x) { return x; } void o(long p) { n = p; } void m(long x) { print(n + f(x, 5)); a[x] = 1; o(x); } }; int main() { A *a = new A(); a->m(2); print(a->g(7)); }
4 0:-3$7$#0 A n=2 a=[0,0,1]$
3 4:-3$spent 3$";

/// The line of a run by so many workers within a budget.
fn line_of<R: Abort>(rt: &R, alloc: Global, workers: u32, budget: u32) -> String {
    format!(in alloc; "run {workers} {budget}").expect(rt, "a line")
}

/// Whether the run of a text by so many workers ends as a row tells.
fn ends<R: AllocGlobal + Threads + Wait + Sync + Abort>(
    rt: &R,
    text: &[u8],
    workers: u32,
    row: &str,
) -> bool {
    let (front, written) = row.split_once(':').expect(rt, "a row");
    let (budget, status) = front.split_once(' ').expect(rt, "a status");
    let status: u8 = status.parse().expect(rt, "a status");
    let line = format!(in rt.alloc(); "run {workers} {budget}").expect(rt, "a line");
    Call::of_bytes(&line, text).tells(rt, status, written)
}

/// Ends the test where a row isn't how the text ends by each number of workers.
fn runs<R: AllocGlobal + Threads + Wait + Sync + Abort>(rt: &R, text: &[u8], row: &str) {
    for workers in WORKERS.as_slice() {
        assert!(rt; ends(rt, text, *workers, row), "{row} by {workers}");
    }
}

/// The same for several rows.
fn all_run<R: AllocGlobal + Threads + Wait + Sync + Abort>(rt: &R, text: &str, rows: &str) {
    for row in rows.lines() {
        runs(rt, text.as_bytes(), row);
    }
}

/// Runs of small texts to the heap, a trap or a spent budget.
#[test]
fn small_texts_run_to_the_end(rt: HostRuntime) {
    let mut text = Vec::new(rt.alloc());
    for row in RUNS.lines() {
        if let Some(of) = row.strip_prefix("of ") {
            text = Vec::new(rt.alloc());
            add_lines(&rt, &mut text, of);
        } else if !row.starts_with("//") {
            runs(&rt, &text, row);
        }
    }
}

/// Runs to the heap, a trap or a spent budget.
#[test]
fn runs_to_the_end(rt: HostRuntime) {
    all_run(
        &rt,
        FIRST,
        "100 0:#0 Acc sum=8 peer=#1$#1 Acc sum=4 peer=null$\n4 0:#0 Acc sum=8 peer=#1$#1 Acc sum=4 peer=null$\n3 4:spent 3$",
    );
    all_run(
        &rt,
        GRAPH_VISIT,
        "100 0:#0 Graph mark=true value=3 sum=6 left=#1 right=#1$#1 Graph mark=true value=5 sum=6 left=#0 right=null$\n6 0:#0 Graph mark=true value=3 sum=6 left=#1 right=#1$#1 Graph mark=true value=5 sum=6 left=#0 right=null$\n1000000000 0:#0 Graph mark=true value=3 sum=6 left=#1 right=#1$#1 Graph mark=true value=5 sum=6 left=#0 right=null$\n5 4:spent 5$",
    );
    all_run(&rt, ACCUMULATOR, "6 0:#0 Acc sum=4$\n5 4:spent 5$");
    all_run(&rt, DEEP_THEN_HIT, "100 4:spent 100$");
    all_run(&rt, HIT_THEN_DEEP, "100 3:trap 7 OutOfRange$");
    all_run(
        &rt,
        WRAPPING_SUM,
        "4 0:#0 Acc sum=-9223372036854775807$\n3 4:spent 3$",
    );
    all_run(
        &rt,
        TWO_BINS,
        "5 0:#0 Pair b=[#1,#2]$#1 Bin n=1$#2 Bin n=2$\n4 4:spent 4$",
    );
    all_run(
        &rt,
        THREE_BINS,
        "7 0:#0 Pair b=[#1,#2,#3]$#1 Bin n=1$#2 Bin n=2$#3 Bin n=3$\n6 4:spent 6$",
    );
}

/// A text with an operation of so many locals, between what stands before them and what stands behind them.
fn wide<R: AllocGlobal + Abort>(rt: &R, front: &str, locals: u32, back: &str) -> Vec<u8> {
    let mut text = Vec::new(rt.alloc());
    add(
        rt,
        &mut text,
        b"class W { public: long s; W *p; long half(long n) { return n / 2; } void init(W *q) { p = q; } void f(long n) { ",
    );
    add(rt, &mut text, front.as_bytes());
    for number in 0..locals {
        let local = format!(in rt.alloc(); " long y{number} = 1;").expect(rt, "a local");
        add(rt, &mut text, local.as_bytes());
    }
    add(rt, &mut text, back.as_bytes());
    add(
        rt,
        &mut text,
        b" } }; int main() { W *a = new W(); W *b = new W(); a->init(b); a->f(4); }",
    );
    text
}

/// Operations whose locals take some 256 slots call one of another object, and a value method before it.
#[test]
fn wide_operations_run_to_the_end(rt: HostRuntime) {
    for locals in 251..256 {
        let text = wide(&rt, "s = s + n;", locals, " if (p != nullptr) p->f(n);");
        runs(&rt, &text, "3 0:#0 W s=4 p=#1$#1 W s=4 p=null$");
        let text = wide(
            &rt,
            "",
            locals,
            " s = s + half(n); if (p != nullptr) p->f(n);",
        );
        runs(&rt, &text, "5 0:#0 W s=2 p=#1$#1 W s=2 p=null$");
    }
}

/// Runs of lists, loops and large heaps.
#[test]
fn longer_texts_run_to_the_end(rt: HostRuntime) {
    // two products on one object, in either order
    all_run(&rt, PRODUCTS_ON_ONE, "4 0:#0 A n=24$\n3 4:spent 3$");
    all_run(&rt, BINS, "5002 4:spent 5002$");
    all_run(&rt, LONG_LIST, "299999 4:spent 299999$");
    all_run(&rt, PRINTS, "9 0:0$1$2$true$#0 Bin n=3$");
    // calls that a worker runs with all that they lead to, and some that are undone
    all_run(
        &rt,
        LONGER_AND_LONGER,
        "84033 0:#0 Set o=[#2,#3,#4,#5,#6,#7,#8,#9]$#1 Bin n=157479000$#2 Own b=#1$#3 Own b=#1$#4 Own b=#1$#5 Own b=#1$#6 Own b=#1$#7 Own b=#1$#8 Own b=#1$#9 Own b=#1$\n84032 4:spent 84032$",
    );
    // an operation whose second statement is not done at once, in the middle of a list and of a loop
    all_run(
        &rt,
        STEPS_IN_A_LIST,
        "7 0:#0 A n=28$\n6 4:spent 6$\n4 4:spent 4$",
    );
    all_run(
        &rt,
        STEPS_IN_A_LOOP,
        "10 0:#0 A n=22$\n9 4:spent 9$\n6 4:spent 6$",
    );
    all_run(&rt, TRAP_IN_A_LIST, "3 3:trap 7 ZeroDivisor$\n2 4:spent 2$");
    all_run(&rt, TRAP_IN_A_LOOP, "5 3:trap 7 ZeroDivisor$\n4 4:spent 4$");
}

/// The heap of a thousand objects with arrays.
fn heap_of_bins<R: Abort>(rt: &R, alloc: Global) -> Vec<u8> {
    let mut heap = Vec::new(alloc);
    add(rt, &mut heap, b"#0 Set b=[#1");
    for number in 2..1001 {
        let item = format!(in alloc; ",#{number}").expect(rt, "an item");
        add(rt, &mut heap, item.as_bytes());
    }
    add(rt, &mut heap, b"]\n#1 Bins a=[15,0,0]\n");
    for number in 2..1001 {
        let items = match number % 3 {
            0 => "0,0,15",
            1 => "15,0,0",
            _ => "0,15,0",
        };
        let line = format!(in alloc; "#{number} Bins a=[{items}]\n").expect(rt, "a line");
        add(rt, &mut heap, line.as_bytes());
    }
    heap
}

/// The heap of a list of 100,000 objects, behind what is printed.
fn heap_of_links<R: Abort>(rt: &R, alloc: Global) -> Vec<u8> {
    let mut heap = Vec::new(alloc);
    add(rt, &mut heap, b"1\n#0 Link next=null n=100000\n");
    for before in 0..99_999_u32 {
        let line = format!(in alloc;
            "#{} Link next=#{before} n={}\n",
            before + 1,
            99_999 - before
        );
        add(rt, &mut heap, line.expect(rt, "a line").as_bytes());
    }
    heap
}

/// Whether a text ends with a long output, by each number of workers.
fn writes_by_all<R: AllocGlobal + Threads + Wait + Sync + Abort>(
    rt: &R,
    budget: u32,
    text: &str,
    room: usize,
    written: &[u8],
) -> bool {
    let mut fits = true;
    for workers in WORKERS.as_slice() {
        let line = line_of(rt, rt.alloc(), *workers, budget);
        let call = Call {
            room,
            ..Call::new(&line, text)
        };
        fits = fits && call.ends(rt, 0, written);
    }
    fits
}

/// The heap of a thousand objects with arrays, and that of a list of 100,000 objects.
#[test]
fn writes_large_heaps(rt: HostRuntime) {
    let alloc = rt.alloc();
    let bins = heap_of_bins(&rt, alloc);
    assert!(rt; writes_by_all(&rt, 5_003, BINS, 100_000, &bins));
    let links = heap_of_links(&rt, alloc);
    assert!(rt; writes_by_all(&rt, 300_000, LONG_LIST, 10_000_000, &links));
}
