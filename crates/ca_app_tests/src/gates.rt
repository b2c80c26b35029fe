//! Who passes the gate of a run.

use crate::calls::{Call, add_lines};
use crate::sources::{GRAPH_HEAP, GRAPH_VISIT, TWO_BINS, TWO_BINS_HEAP};
use crate::watch::Watch;
use std::process::Abort;
use std::sync::Wait;
use std::thread::Threads;

/// Runs of small texts past a gate: the words, how often worker 0 passes it with the objects 0, 1 and 2 and how often it is passed
/// otherwise, and what is written, with `$` for the end of a line. A line with a text stands before its runs.
const ALONE: &str = "// light operations: the calling thread runs them in the heap itself
of class A { public: long n; void set(long v) { n = v; } void mul(long v) { n *= v; } void two(long v) { mul(v); mul(v + 1); } }; int main() { A *a = new A(); a->set(2); a->two(3); }
run 2 4 | 1 0 0 0 | #0 A n=24$
run 64 4 | 1 0 0 0 | #0 A n=24$
run 1 4 | 3 0 0 0 | #0 A n=24$
// operations that take so long that a list may gain: two neighbours on each of two objects in turn, of which the calling thread runs each alone
of class A { public: long n; A *to; long same(long v) { long k = v; for (long i = 0; i < 60; i++) k = k + 1; return k - 60; } void set(A *t) { n = 1; to = t; } void mul(long v, long m) { n *= same(v); if (m > 0) { if (m % 2 == 0) mul(v, m - 1); else to->mul(v, m - 1); } } }; int main() { A *a = new A(); A *b = new A(); a->set(b); b->set(a); a->mul(1, 700); }
run 2 100000 | 176 175 0 0 | #0 A n=1 to=#1$#1 A n=1 to=#0$
run 1 100000 | 351 350 0 0 | #0 A n=1 to=#1$#1 A n=1 to=#0$
// 33 neighbours
of class A { public: long n; A *to; long same(long v) { long k = v; for (long i = 0; i < 60; i++) k = k + 1; return k - 60; } void set(A *t) { n = 1; to = t; } void mul(long v, long m) { n *= same(v); if (m > 0) { if (m % 33 != 0) mul(v, m - 1); else to->mul(v, m - 1); } } }; int main() { A *a = new A(); A *b = new A(); a->set(b); b->set(a); a->mul(1, 659); }
run 2 100000 | 30 30 0 0 | #0 A n=1 to=#1$#1 A n=1 to=#0$
run 1 100000 | 330 330 0 0 | #0 A n=1 to=#1$#1 A n=1 to=#0$
// between two of them one that takes no lock
of class A { public: long n; A *to; long same(long v) { long k = v; for (long i = 0; i < 60; i++) k = k + 1; return k - 60; } void set(A *t) { n = 1; to = t; } void pass(long v, long m) { if (m > 0) to->mul(v, m - 1); } void mul(long v, long m) { n *= same(v); to->pass(v, m); } }; int main() { A *a = new A(); A *b = new A(); A *c = new A(); a->set(b); b->set(c); c->set(a); a->mul(1, 599); }
run 2 100000 | 200 200 200 0 | #0 A n=1 to=#1$#1 A n=1 to=#2$#2 A n=1 to=#0$
run 1 100000 | 400 400 400 0 | #0 A n=1 to=#1$#1 A n=1 to=#2$#2 A n=1 to=#0$
// operations whose text doesn't tell what they take, and that soon end: in order, each past the gate, as by one worker
of class A { public: long n; long same(long v) { long k = v; for (long i = 0; i < 1; i++) k = v; return k; } void set(long v) { n = v; } void mul(long v) { n *= v; } void two(long v) { mul(same(v)); mul(v + 1); } }; int main() { A *a = new A(); a->set(2); a->two(3); }
run 2 1000 | 3 0 0 0 | #0 A n=24$
run 64 1000 | 3 0 0 0 | #0 A n=24$
run 1 1000 | 3 0 0 0 | #0 A n=24$
// receivers that take turns, and then two and two
of class A { public: long n; A *one; A *two; long same(long v) { long k = v; for (long i = 0; i < 1; i++) k = v; return k; } void set(A *o, A *t) { n = 1; one = o; two = t; } void mul(long v) { n *= v; } void turns(long v) { one->mul(same(v)); two->mul(v); one->mul(v); two->mul(v); } }; int main() { A *a = new A(); A *b = new A(); A *c = new A(); a->set(b, c); b->set(b, c); c->set(b, c); a->turns(2); }
run 2 1000 | 1 2 2 0 | #0 A n=1 one=#1 two=#2$#1 A n=4 one=#1 two=#2$#2 A n=4 one=#1 two=#2$
run 1 1000 | 1 2 2 0 | #0 A n=1 one=#1 two=#2$#1 A n=4 one=#1 two=#2$#2 A n=4 one=#1 two=#2$
of class A { public: long n; A *one; A *two; long same(long v) { long k = v; for (long i = 0; i < 1; i++) k = v; return k; } void set(A *o, A *t) { n = 1; one = o; two = t; } void mul(long v) { n *= v; } void pairs(long v) { one->mul(same(v)); one->mul(v); two->mul(v); two->mul(v); } }; int main() { A *a = new A(); A *b = new A(); A *c = new A(); a->set(b, c); b->set(b, c); c->set(b, c); a->pairs(2); }
run 2 1000 | 1 2 2 0 | #0 A n=1 one=#1 two=#2$#1 A n=4 one=#1 two=#2$#2 A n=4 one=#1 two=#2$
run 1 1000 | 1 2 2 0 | #0 A n=1 one=#1 two=#2$#1 A n=4 one=#1 two=#2$#2 A n=4 one=#1 two=#2$
// one that takes the lock, and its neighbour
of class A { public: long n; long same(long v) { long k = v; for (long i = 0; i < 1; i++) k = v; return k; } void set(long v) { n = v; } void mul(long v) { n *= v; } void twice(long v) { n *= v; mul(same(v) + 1); } }; int main() { A *a = new A(); a->set(2); a->twice(3); }
run 2 1000 | 2 0 0 0 | #0 A n=24$
run 1 1000 | 2 0 0 0 | #0 A n=24$
// what reads fields that nobody writes takes no lock, and what reads one that another writes does
of class A { public: long n; long k; A *to; long same(long v) { long k = v; for (long i = 0; i < 1; i++) k = v; return k; } void set(long v, A *t) { k = v; to = t; } void add(long v) { n += v; } void pass(long v) { to->add(k + v); } void both(long v) { n += v; to->pass(same(v)); } }; int main() { A *a = new A(); A *b = new A(); A *c = new A(); a->set(1, b); b->set(2, c); a->both(5); }
run 2 1000 | 1 1 1 0 | #0 A n=5 k=1 to=#1$#1 A n=0 k=2 to=#2$#2 A n=7 k=0 to=null$
run 1 1000 | 1 1 1 0 | #0 A n=5 k=1 to=#1$#1 A n=0 k=2 to=#2$#2 A n=7 k=0 to=null$
// light calls of a marked loop on more than a few objects: the run goes on into it
of class A { public: long n; void set(long v) { n = v; } void mul(long v) { n *= v; } }; class B { public: A *at[16]; void fill() { for (long i = 0; i < 16; i++) { at[i] = new A(); at[i]->set(1); } } }; int main() { B *b = new B(); b->fill(); for (long i = 0; i < 16; i++) b->at[i]->mul(3); }
run 4 1000 | 0 1 1 14 | #0 B at=[#1,#2,#3,#4,#5,#6,#7,#8,#9,#10,#11,#12,#13,#14,#15,#16]$#1 A n=3$#2 A n=3$#3 A n=3$#4 A n=3$#5 A n=3$#6 A n=3$#7 A n=3$#8 A n=3$#9 A n=3$#10 A n=3$#11 A n=3$#12 A n=3$#13 A n=3$#14 A n=3$#15 A n=3$#16 A n=3$
run 1 1000 | 0 1 1 14 | #0 B at=[#1,#2,#3,#4,#5,#6,#7,#8,#9,#10,#11,#12,#13,#14,#15,#16]$#1 A n=3$#2 A n=3$#3 A n=3$#4 A n=3$#5 A n=3$#6 A n=3$#7 A n=3$#8 A n=3$#9 A n=3$#10 A n=3$#11 A n=3$#12 A n=3$#13 A n=3$#14 A n=3$#15 A n=3$#16 A n=3$
// serial operations pass nothing, nor does a call of one outside of what is marked
of class A { public: long n; void set(long v) { n = v; } void mul(long v) { n *= v; } }; int main() { A *a = new A(); a->set(1); a->mul(2); for (long i = 0; i < 3; i++) a->mul(3); }
run 1 1000 | 3 0 0 0 | #0 A n=54$
of class A { public: long n; A *to; long same(long v) { long k = v; for (long i = 0; i < 1; i++) k = v; return k; } void set(A *t) { to = t; } void add(long v) { n += v; } void look(long v) { long t = n; to->add(same(v)); } }; int main() { A *a = new A(); A *b = new A(); a->set(b); a->look(5); }
run 2 1000 | 1 1 0 0 | #0 A n=0 to=#1$#1 A n=5 to=null$";

/// Runs that begin with a round, in which workers pass the gate: the words, how often all of them do, and what is written.
const TOGETHER: &str = "// two lists of 30 neighbours on one object
of class A { public: long n; void set(long v) { n = v; } void mul(long v) { n *= v; } void many(long v) { for (long i = 0; i < 30; i++) mul(v); } }; int main() { A *a = new A(); a->set(1); for (long i = 0; i < 2; i++) a->many(2); }
run 2 200 | 4 | #0 A n=1152921504606846976$
run 4 200 | 4 | #0 A n=1152921504606846976$
run 64 200 | 4 | #0 A n=1152921504606846976$
run 1 200 | 62 | #0 A n=1152921504606846976$
// two lists of 33
of class A { public: long n; void set(long v) { n = v; } void mul(long v) { n *= v; } void many(long v) { for (long i = 0; i < 33; i++) mul(v); } }; int main() { A *a = new A(); a->set(1); for (long i = 0; i < 2; i++) a->many(-1); }
run 2 200 | 6 | #0 A n=1$
run 64 200 | 6 | #0 A n=1$";

/// One worker runs the two calls of a marked loop, each past the gate.
#[test]
fn one_worker_counts(rt: HostRuntime) {
    let gate = Watch::counting();
    assert!(rt; Call::new("run 1 5", TWO_BINS).ends_past(&rt, &gate, TWO_BINS_HEAP));
    assert!(rt; gate.counts() == (0, 1, 1, 0));
}

/// One worker runs a marked call and the three that it leads to.
#[test]
fn one_worker_visits(rt: HostRuntime) {
    let gate = Watch::counting();
    assert!(rt; Call::new("run 1 6", GRAPH_VISIT).ends_past(&rt, &gate, GRAPH_HEAP));
    assert!(rt; gate.counts() == (2, 2, 0, 0));
}

/// One worker runs the marked call of a generated text and the two that it leads to.
#[test]
fn one_worker_loads(rt: HostRuntime) {
    let gate = Watch::counting();
    let written = "load objects=2 steps=7 total=4\n";
    assert!(rt; Call::new("load 0 1 1", "").ends_past(&rt, &gate, written));
    assert!(rt; gate.counts() == (0, 3, 0, 0));
}

/// Whether a run past the gate is as a row tells, with how often it was passed with each object, or in all.
fn passes<R: AllocGlobal + Threads + Wait + Sync + Abort>(
    rt: &R,
    text: &[u8],
    row: &str,
    each: bool,
) -> bool {
    let alloc = rt.alloc();
    let (line, behind) = row.split_once(" | ").expect(rt, "a row");
    let (passed, heap) = behind.split_once(" | ").expect(rt, "a heap");
    let mut due = Vec::new(alloc);
    add_lines(rt, &mut due, heap);
    let gate = Watch::counting();
    let (status, written) = Call::of_bytes(line, text).run_past(rt, &gate);
    let (zero, one, two, others) = gate.counts();
    let all = zero
        .wrapping_add(one)
        .wrapping_add(two)
        .wrapping_add(others);
    let counts = if each {
        format!(in alloc; "{zero} {one} {two} {others}").expect(rt, "counts")
    } else {
        format!(in alloc; "{all}").expect(rt, "a count")
    };
    status == 0 && written == due && counts.as_str() == passed
}

/// Ends the test where a row isn't how a run past the gate goes.
fn all_pass<R: AllocGlobal + Threads + Wait + Sync + Abort>(rt: &R, rows: &str, each: bool) {
    let mut text = Vec::new(rt.alloc());
    for row in rows.lines() {
        if let Some(of) = row.strip_prefix("of ") {
            text = Vec::new(rt.alloc());
            add_lines(rt, &mut text, of);
        } else if !row.starts_with("//") {
            assert!(rt; passes(rt, &text, row, each), "{row}");
        }
    }
}

/// The calling thread runs a marked call alone: neighbours of one receiver pass the gate once, 16 at most, and operations that take
/// no lock don't. By one worker each operation does.
#[test]
fn neighbours_alone_pass_once(rt: HostRuntime) {
    all_pass(&rt, ALONE, true);
}

/// So they do where workers run them in rounds.
#[test]
fn neighbours_in_rounds_pass_once(rt: HostRuntime) {
    all_pass(&rt, TOGETHER, false);
}
