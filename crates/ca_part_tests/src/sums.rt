//! Whether extents only sum, and sums that are added to a heap.

use crate::sources::{let_go, program, with_lines};
use ca_extent::extent_of;
use ca_model::Heap;
use ca_program::OpId;
use ca_replica::{Replica, summed};
use std::process::Abort;

/// An operation, whether its own extent only sums, and behind `=>` the text, with `$` for the end of a line.
const ROWS: &str = "0 true => class A { public: long n; void m(long v) { n += v; } };$int main() { }
0 true => class A { public: long n; long base; void m(long v) { n = n - (v + base); } };$int main() { }
0 true => class A { public: long n; A *o; void m(long v) { n = n + v; if (o != nullptr) o->m(v - 1); } };$int main() { }
0 false => class A { public: long n; void m(long v) { n *= v; } };$int main() { }
0 false => class A { public: long n; void m(long v) { n = v + n; } };$int main() { }
0 false => class A { public: long n; void m(long v) { n = v; } };$int main() { }
0 false => class A { public: long n; void m(long v) { n += n; } };$int main() { }
0 false => class A { public: long n; long k; void m(long v) { n += v; k = n + v; } };$int main() { }
0 false => class A { public: long n; A *o; void m() { n += o->n; } };$int main() { }
0 false => class A { public: long a[2]; void m(long v) { a[0] += v; } };$int main() { }
1 false => class Graph {$public:$  bool mark;$  long value;$  long sum;$  Graph *left;$  Graph *right;$  void init(long v, Graph *l, Graph *r) {$    value = v;$    left = l;$    right = r;$  }$  void visit(long p) {$    sum = sum + p;$    if (!mark) {$      mark = true;$      if (left != nullptr) left->visit(value);$      if (right != nullptr) right->visit(value);$    }$  }$};$int main() {$  Graph *a = new Graph();$  Graph *b = new Graph();$  a->init(3, b, b);$  b->init(5, a, nullptr);$  a->visit(1);$  return 0;$}$
2 false => class A { public: long n; void set(long v) { n = v; } void mul(long v) { n *= v; } void two(long v) { mul(v); mul(v + 1); } }; int main() { A *a = new A(); a->set(2); a->two(3); }
0 false => class N { public: long sum; bool mark; N *next; void visit(long p) { sum = sum + p; if (!mark) { mark = true; if (next != nullptr) next->visit(p); } } };$int main() { }
2 false => class A { public: long n; void set(long v) { n = v; } void mul(long v) { n *= v; } void two(long v) { mul(v); mul(v + 1); } };$int main() { }";

/// Whether a row tells what is answered.
fn is_told<R: AllocGlobal + Abort>(rt: &R, row: &str) -> bool {
    let (front, text) = row.split_once(" => ").expect(rt, "a row");
    let (op, answer) = front.split_once(' ').expect(rt, "an operation");
    let op = OpId(op.parse().expect(rt, "a number"));
    let program = program(rt, &with_lines(rt, text));
    let extent = extent_of(rt.alloc(), program, [op].as_slice()).expect(rt, "an extent");
    let sums = summed(program, &extent);
    let_go(extent);
    sums == (answer == "true")
}

#[test]
fn tells_sums(rt: HostRuntime) {
    for row in ROWS.lines() {
        assert!(rt; is_told(&rt, row), "{row}");
    }
}

/// No sums change nothing.
#[test]
fn adds_none(rt: HostRuntime) {
    let alloc = rt.alloc();
    let text = "class A { public: long n; void m(long v) { n += v; } };\nint main() { }";
    let program = program(&rt, text);
    let extent = extent_of(alloc, program, [OpId(0)].as_slice()).expect(&rt, "an extent");
    let mut heap = Heap::new(alloc);
    let replica = Replica::new(alloc);
    replica.add_to(&extent, &mut heap);
    assert!(rt; heap.len() == 0 && heap.values() == 0);
    let_go(extent);
    let_go(heap);
    let_go(replica);
}
