//! Verdicts on pairs of operations of texts.

use crate::sources::{let_go, program, with_lines};
use ca_extent::extent_of;
use ca_program::{OpId, Program};
use ca_symbolic::DemandKind;
use ca_verdicts::{Reason, Verdict, verdict};
use std::process::Abort;

/// Texts, with `$` for the end of a line, each before its rows: the operation whose extent is asked for, two operations by
/// their numbers, and behind `:` what is said of them. A line with `//` tells what the text behind it is for.
const ROWS: &str =
    "of class Graph { public: bool mark; long value; long sum; Graph *left; Graph *right;$ void init(long v, Graph *l, Graph *r) { value = v; left = l; right = r; }$ void visit(long p) { sum = sum + p; if (!mark) { mark = true;$ if (left != nullptr) left->visit(value); if (right != nullptr) right->visit(value); } } };$ int main() { }
0 0 0:Field 1
1 1 1:Commutes
of class Acc { public: long sum; void add(long p) { sum = sum + p; } void sub(long p) { sum = sum - p; }$ void mul(long p) { sum = sum * p; } void mix(long p) { add(p); mul(p); } void par(long p) { add(p); sub(p); } };$ int main() { }
3 0 0:Commutes
3 0 2:Field 0
3 0 3:Commutes
3 2 2:Commutes
3 3 3:Commutes
4 0 1:Commutes
4 1 4:Commutes
of class Stack { public: long buf[8]; long n; void put(long v) { buf[n] = v; n = n + 1; } }; int main() { }
0 0 0:Field 0
of class Bins { public: long a[3]; void add(long i, long v) { a[i] = a[i] + v; } };$ class Set { public: Bins *b[1000];$ void all(long v) { for (long i = 0; i < 1000; i++) b[i]->add(i % 3, v); } };$ int main() { }
0 0 0:Commutes
1 1 1:Commutes
of class Cell { public: long sum; long base; long last; Cell *next;$ void late(long p) { sum = sum + p; if (next != nullptr) next->late(p);$ last = sum; }$ void early(long p) { sum = sum + p; if (next != nullptr) next->early(base); } };$ int main() { }
0 0 0:NotSeparable 0 3 AccessAfterCall
1 1 1:Commutes
// The greatest of two values is the same in every order of the three numbers, and so is the least; the greatest and then the least isn't.
of class M { public: long x; void up(long v) { if (x < v) x = v; } void lo(long v) { if (v <= x) { x = v; } }$ void to(long v) { if (7 > x) x = 7; } void ge(long v) { x = max(x, v); } void all(long v) { up(v); lo(v); to(v); ge(v); } };$ int main() { }
0 0 0:Commutes
4 1 1:Commutes
4 0 2:Commutes
4 2 2:Commutes
4 0 1:Field 0
4 1 2:Field 0
4 0 3:Field 0
4 3 3:Commutes
// Five points, and six; an array is not compared by orders; who has the greatest value depends on the order where two are equal.
of class O { public: long x; O *who; long a[3]; void m(long v) { if (2 < v && v < 9 && x < v) x = v; }$ void n(long v) { if (2 < v && v < 9 && v != 5 && x < v) x = v; } void i(long v) { if (a[0] < v) a[0] = v; }$ void w(long v, O *o) { if (x < v) { x = v; who = o; } } void all(long v, O *o) { m(v); n(v); i(v); w(v, o); } };$ int main() { }
4 0 0:Commutes
4 1 1:Field 0
4 2 2:Field 2
4 3 3:Field 1
// How often a record is set depends on the order, and so does what is called then.
of class R { public: long x; R *o; void m(long v) { if (x < v) { x = v; o->t(); } } void t() { } }; int main() { }
0 0 0:Demand Invokes 1
of class D { public: long n; D *o; void m(long p) { n = n + p; o->k(n); } void k(long v) { } }; int main() { }
0 0 0:Demand Invokes 1
of class E { public: long n; long a[4]; void m(long p) { n = n + p; long t = a[n]; } }; int main() { }
0 0 0:Demand InRange 1
of class F { public: long a[4]; void m() { while (a[0] < 1) a[0] += 1; } }; int main() { }
0 0 0:LoopForm 1
// Ranges of an array and items of it change places; what is put doesn't.
of class V { public: long a[10]; void add(long f, long t, long v) { for (long i = f; i < t; i++) a[i] += v; } void one(long j) { a[j] = a[j] + 1; }$ void two() { add(0, 10, 3); one(4); add(2, 5, 1); } void set(long j) { a[j] = 2; } void all() { two(); set(1); } };$ int main() { }
2 0 0:Commutes
2 0 1:Commutes
2 0 2:Commutes
2 1 1:Commutes
2 1 2:Commutes
2 2 2:Commutes
4 0 3:Field 0
of class V { public: long a[10]; void add(long f, long t, long v) { for (long i = f; i < t; i++) a[i] = v; } }; int main() { }
0 0 0:LoopForm 1
// A bound may be a field in an extent that doesn't write it.
of class A { public: long a[9]; long c; void k(long v) {$ for (long i; i < c; i++) a[i] += v; } void s() { c += 1; } void w() { k(1); s(); } };$ int main() { }
0 0 0:Commutes
2 0 0:LoopForm 2
2 0 1:LoopForm 2
2 1 2:Commutes
// What is read stands in the range, or doesn't; and a range is checked where its condition holds.
of class R { public: long a[9]; long s; void m(long v) { for (long i = 2; i < 5; i++) a[i] -= v; } void n() { s += a[1] + a[5]; }$ void o() { s += a[4]; } void p(long t) { s += t; if (s > 3) for (long i; i < t; i++) a[i] += 0; } void all() { m(1); n(); o(); p(1); } };$ int main() { }
4 0 1:Commutes
4 0 2:Field 1
4 3 3:Demand Sweeps 0
of class C { public: long x; bool b; void t(long p) { if (b) x = x + p; else x = x - p; } void s(bool q) { b = b || q; }$ void both(long p, bool q) { t(p); s(q); } };$ int main() { }
2 0 0:Commutes
2 1 1:Commutes
2 0 1:Field 0
// A counter that is declared outside may be read behind its loop, so this is no call loop.
of class G { public: long n; G *q; void a(long p) { } void m() { long i = 0; for (i = 0; i < 3; i++) q->a(i); } };$ int main() { }
1 1 1:LoopForm 1
// The item and then two addends are no sum at the item.
of class H { public: long a[3]; void m(long i, long x, long y) { a[i] = a[i] + x + y; } }; int main() { }
0 0 0:Field 0
of class H { public: long a[3]; void m(long i, long x, long y) { a[i] = a[i] + (x + y); } }; int main() { }
0 0 0:Commutes
// Here the index is checked twice, and here once: the first sum reads the item again.
of class H { public: long a[3]; void m(long i, long x) { a[i] = a[i] + x; } void n(long i, long x) { a[i] += x; }$ void both(long i, long x) { m(i, x); n(i, x); } }; int main() { }
2 0 1:Commutes
// So where the branches leave the same, how often the index is checked depends on the condition, which the other puts.
of class H { public: bool b; long a[3]; void m(long i, long x) { if (b) a[i] = a[i] + x; else a[i] += x; }$ void s(bool q) { b = b || q; } void both(long i, long x, bool q) { m(i, x); s(q); } }; int main() { }
2 0 1:Demand InRange 1
// Offences of both stand before loops, and loops of both before what is too heavy.
of class I { public: long n; void m() { while (n < 1) n = 1; }$ void k() { print(n); } void both() { m(); k(); } }; int main() { }
2 0 1:NotSeparable 1 2 Prints
of class J { public: long n; void m(long x) { n = ((x + 1) * (x + 2)) * ((x + 3) * (x + 4)) * ((x + 5) * (x + 6)) * ((x + 7) * (x + 8)); n = n * n * n * n; }$ void k() { while (n < 1) n = 1; } void both() { m(1); k(); } }; int main() { }
2 0 1:LoopForm 2
of class J { public: long n; void m(long x) { n = ((x + 1) * (x + 2)) * ((x + 3) * (x + 4)) * ((x + 5) * (x + 6)) * ((x + 7) * (x + 8)); n = n * n * n * n; } };$ int main() { }
0 0 0:Large
// What is demanded on the right side of && is demanded where the left side holds.
of class K { public: bool b; K *o; long n; void m(bool q) { b = b || q; if (b && o->n < 3) { } } }; int main() { }
0 0 0:Demand NotNull 0
// The greatest and the least, bits, and what cancels or stands twice.
of class M { public: long x; void up(long v) { x = max(x, v); } void lo(long v) { x = min(v, x); }$ void both(long v) { up(v); lo(v); } };$ int main() { }
2 0 0:Commutes
2 0 1:Field 0
2 1 1:Commutes
2 0 2:Commutes
2 2 2:Commutes
of class W { public: long n; void a(long v) { n &= v; } void o(long v) { n = v | n | 6; } void x(long v) { n ^= v; }$ void t(long v) { n ^= v; n ^= v; } void s(long v) { n = max(n, n) & -1 | 0; } void p(long v) { n = v; }$ void all(long v) { a(v); o(v); x(v); t(v); s(v); p(v); } };$ int main() { }
6 0 0:Commutes
6 1 1:Commutes
6 2 2:Commutes
6 0 1:Field 0
6 0 2:Field 0
6 1 2:Field 0
6 3 5:Commutes
6 4 5:Commutes
6 2 5:Field 0
// Operands of another operator stay one, a choice by the order of numbers is decided, and two that are put at one item differ.
of class V { public: long n; long a[3]; void m(long v) { n = n & v | v; } void c(long v) { if (v < 3) n |= v; }$ void i(long v) { a[0] |= v; } void u(long v) { n = max(n, min(v, 7)); } void all(long v) { m(v); c(v); i(v); u(v); } };$ int main() { }
4 0 0:Field 0
4 1 1:Commutes
4 2 2:Field 1
4 3 3:Commutes
// Steps of a value method are demanded.
of class L { public: long n; L *o; long f(long x) { return x; } void m(long p) { n = n + p; long t = o->f(n); } }; int main() { }
0 0 0:Demand Calls 0";

/// What a verdict says, without the forms: the operation, the line and why, the line of the loop, the field, or what is
/// demanded.
fn without_forms<R: AllocGlobal + Abort>(rt: &R, verdict: &Verdict) -> String {
    let alloc = rt.alloc();
    let told = match verdict {
        Verdict::Commutes => String::from_str(alloc, "Commutes"),
        Verdict::Unproved(Reason::NotSeparable { op, line, why }) => {
            format!(in alloc; "NotSeparable {} {line} {why:?}", op.0)
        }
        Verdict::Unproved(Reason::LoopForm(line)) => format!(in alloc; "LoopForm {line}"),
        Verdict::Unproved(Reason::Large) => String::from_str(alloc, "Large"),
        Verdict::Unproved(Reason::FieldDiffers { field, .. }) => {
            format!(in alloc; "Field {}", field.field)
        }
        Verdict::Unproved(Reason::DemandsDiffer { kind, .. }) => {
            let (what, number) = demanded(kind);
            format!(in alloc; "Demand {what} {number}")
        }
    };
    told.expect(rt, "a text")
}

/// What is demanded, and the number in its class of the field, or that of the function, the operation or the loop.
fn demanded(kind: &DemandKind) -> (&'static str, u32) {
    match kind {
        DemandKind::NotNull => ("NotNull", 0),
        DemandKind::InRange(field) => ("InRange", field.field),
        DemandKind::Calls(function) => ("Calls", function.0),
        DemandKind::Invokes(op) => ("Invokes", op.0),
        DemandKind::Loops(at) => ("Loops", at.0),
        DemandKind::Sweeps(field) => ("Sweeps", field.field),
    }
}

/// Whether this is said of two operations of a program, in the extent of a root.
pub fn is_said<R: AllocGlobal + Abort>(
    rt: &R,
    program: &Program,
    root: u32,
    a: u32,
    b: u32,
    wanted: &str,
) -> bool {
    let alloc = rt.alloc();
    let roots = [OpId(root)];
    let extent = extent_of(alloc, program, roots.as_slice()).expect(rt, "an extent");
    assert!(rt; (a as usize) < program.ops.len() && (b as usize) < program.ops.len());
    let verdict = verdict(alloc, program, &extent, OpId(a), OpId(b)).expect(rt, "a verdict");
    let told = without_forms(rt, &verdict);
    let_go(verdict);
    let_go(extent);
    told.as_str() == wanted
}

/// The number of a word.
fn number<R: Abort>(rt: &R, word: Option<&str>) -> u32 {
    let word = word.expect(rt, "a word");
    word.parse().expect(rt, "a number")
}

/// Whether a row tells what is said of the text.
fn is_right<R: AllocGlobal + Abort>(rt: &R, text: &str, row: &str) -> bool {
    let (numbers, wanted) = row.split_once(':').expect(rt, "a row");
    let mut words = numbers.split_whitespace();
    let root = number(rt, words.next());
    let a = number(rt, words.next());
    let b = number(rt, words.next());
    is_said(rt, program(rt, text), root, a, b, wanted)
}

#[test]
fn each_pair_has_its_verdict(rt: HostRuntime) {
    let mut text = String::new(rt.alloc());
    for row in ROWS.lines() {
        if let Some(of) = row.strip_prefix("of ") {
            text = with_lines(&rt, of);
        } else if !row.starts_with("//") {
            assert!(rt; is_right(&rt, &text, row), "{row} of {text}");
        }
    }
}
