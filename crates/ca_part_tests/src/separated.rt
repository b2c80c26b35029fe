//! Which operations are separable in their own extent, and the first place that keeps one from it.

use crate::sources::{let_go, program, with_lines};
use ca_extent::extent_of;
use ca_program::OpId;
use ca_section::{Separability, separable};
use std::process::Abort;

/// The number of an operation, what is said of it, and behind `=>` the text, with `$` for the end of a line.
const ROWS: &str =
    "0 No 1 ForeignRead => class A { public: long n; A *o; void m() { n = o->n; } }; int main() { }
0 No 1 FunctionRead => class A { public: long n; long f() { return n; } void m() { n = f(); } }; int main() { }
0 No 1 Prints => class A { public: long n; void m() { print(n); } }; int main() { }
0 No 1 DividesByVariable => class A { public: long n; void m(long p) { n = n / p; } }; int main() { }
0 Yes => class A { public: long n; void m(long p) { n = n / -2; } }; int main() { }
0 No 1 DividesByVariable => class A { public: long n; void m(long p) { n = n / 0; } }; int main() { }
0 No 10 AccessAfterCall => class Cell {$public:$  long sum;$  long base;$  long last;$  Cell *next;$  void late(long p) {$    sum = sum + p;$    if (next != nullptr) next->late(p);$    last = sum;$  }$  void early(long p) {$    sum = sum + p;$    if (next != nullptr) next->early(base);$  }$};$int main() { }$
1 Yes => class Cell {$public:$  long sum;$  long base;$  long last;$  Cell *next;$  void late(long p) {$    sum = sum + p;$    if (next != nullptr) next->late(p);$    last = sum;$  }$  void early(long p) {$    sum = sum + p;$    if (next != nullptr) next->early(base);$  }$};$int main() { }$
1 No 9 Creates => class Bin {$public:$  long n;$  void add(long v) { n = n + v; }$};$class Pair {$public:$  Bin *b[2];$  void fill() { b[0] = new Bin(); b[1] = new Bin(); }$};$int main() {$  Pair *s = new Pair();$  s->fill();$  for (long i = 0; i < 2; i++) s->b[i]->add(i + 1);$}$
0 Yes => class Bin {$public:$  long n;$  void add(long v) { n = n + v; }$};$class Pair {$public:$  Bin *b[2];$  void fill() { b[0] = new Bin(); b[1] = new Bin(); }$};$int main() {$  Pair *s = new Pair();$  s->fill();$  for (long i = 0; i < 2; i++) s->b[i]->add(i + 1);$}$";

/// Whether a row tells what is said of its operation.
fn is_said<R: AllocGlobal + Abort>(rt: &R, row: &str) -> bool {
    let (front, text) = row.split_once(" => ").expect(rt, "a text");
    let (op, due) = front.split_once(' ').expect(rt, "an answer");
    let op = OpId(op.parse().expect(rt, "a number"));
    let program = program(rt, &with_lines(rt, text));
    let extent = extent_of(rt.alloc(), program, [op].as_slice()).expect(rt, "an extent");
    let answer = separable(rt.alloc(), program, &extent, op).expect(rt, "an answer");
    let_go(extent);
    match answer {
        Separability::Yes => due == "Yes",
        Separability::No { line, why } => {
            let said = format!(in rt.alloc(); "No {line} {why:?}").expect(rt, "a text");
            said.as_str() == due
        }
    }
}

#[test]
fn each_operation_has_its_offence(rt: HostRuntime) {
    for row in ROWS.lines() {
        assert!(rt; is_said(&rt, row), "{row}");
    }
}
