//! Programs laid out as instructions, and run. Where memory runs out the test ends.
//!
//! A row is a run of a text: the budget, how it ends, and behind `:` the numbers that it prints. It is `done` with so many steps left,
//! `spent` where a step is too many, or at a trap on a line: `null`, `outside` or `divided`.

use crate::shut::Shut;
use crate::sources::{let_go, program};
use ca_code::{PlainBodies, lay_out_once, lay_out_with};
use ca_model::{Heap, TrapKind, Value};
use ca_selection::Op;
use ca_steps::{Event, Frames, InRun, Laid, run_on};
use std::process::Abort;
use std::sync::Wait;

/// How a run ends: with so many steps left; at a trap, with its line; or where a step is too many.
#[derive(Clone, Copy, PartialEq, Eq)]
enum End {
    Done(u64),
    Trapped(TrapKind, u32),
    Spent,
}

/// Runs a text within a budget, checks the numbers that it prints, and tells how it ends.
fn ends<R: AllocGlobal + Abort + Wait>(rt: &R, text: &str, budget: u64, numbers: &[i64]) -> End {
    let alloc = rt.alloc();
    let program = program(rt, text);
    let code = lay_out_once(alloc, program).expect(rt, "a code");
    let laid = Laid::of(alloc, code).expect(rt, "what is run");
    let mut frames = Frames::before(alloc, laid.code.room, laid.code.main, budget).expect(
        rt, "frames",
    );
    let mut run = InRun {
        program,
        heap: Heap::new(alloc),
    };
    let mut count: usize = 0;
    let mut end = End::Spent;
    for _ in rt.forever() {
        match run_on(rt, alloc, &mut run, &Shut, &laid, &mut frames) {
            Event::Prints(value) => {
                assert!(rt; count < numbers.len() && value == Value::Long(numbers[count]));
                count += 1;
            }
            Event::Traps(trap) => {
                end = End::Trapped(trap.kind, trap.line);
                break;
            }
            Event::Ends => {
                end = End::Done(frames.left());
                break;
            }
            Event::Spends => break,
            Event::Hands(_, _, _) => panic!(rt; "a call is handed on"),
            Event::Begins(_, _, _, _) => panic!(rt; "a loop is handed on"),
            Event::Fails => panic!(rt; "it isn't told"),
            Event::Memory => panic!(rt; "memory runs out"),
        }
    }
    assert!(rt; count == numbers.len());
    let_go(laid);
    let_go(frames);
    let_go(run);
    end
}

/// The end that a row tells.
fn end_of<R: Abort>(rt: &R, end: &str) -> End {
    let (end, number) = end.split_once(' ').unwrap_or((end, "0"));
    let number: u32 = number.parse().expect(rt, "a number");
    match end {
        "spent" => End::Spent,
        "null" => End::Trapped(TrapKind::NullPointer, number),
        "outside" => End::Trapped(TrapKind::OutOfRange, number),
        "divided" => End::Trapped(TrapKind::ZeroDivisor, number),
        _ => End::Done(u64::from(number)),
    }
}

/// The numbers of a text.
fn numbers<R: AllocGlobal + Abort>(rt: &R, text: &str) -> Vec<i64> {
    let mut numbers = Vec::new(rt.alloc());
    for word in text.split_whitespace() {
        let number: i64 = word.parse().expect(rt, "a number");
        numbers.push(number).expect(rt, "numbers");
    }
    numbers
}

/// Whether a text runs as a row tells.
fn is_run<R: AllocGlobal + Abort + Wait>(rt: &R, text: &str, row: &str) -> bool {
    let (front, printed) = row.split_once(':').expect(rt, "a row");
    let (budget, end) = front.split_once(' ').expect(rt, "an end");
    let budget: u64 = budget.parse().expect(rt, "a budget");
    let numbers = numbers(rt, printed);
    let ended = ends(rt, text, budget, numbers.as_slice());
    let_go(numbers);
    ended == end_of(rt, end)
}

/// Ends the test unless a text runs as each row tells.
pub fn run<R: AllocGlobal + Abort + Wait>(rt: &R, text: &str, rows: &str) {
    for row in rows.lines() {
        assert!(rt; is_run(rt, text, row), "{row}");
    }
}

/// Value methods that call themselves, with choices and right sides that are passed over: `fib(10)` is 177 calls, `even(7)` eight.
const FIB: &str = "class M { public: long x;
  long fib(long n) { if (n < 2) return n; return this->fib(n - 1) + this->fib(n - 2); }
  bool odd(long n) { if (n == 0) return false; return this->even(n - 1); }
  bool even(long n) { if (n == 0 || n == 2) return true; return n > 0 && this->odd(n - 1); } };
int main() { M *m = new M(); print(m->fib(10)); if (m->even(7)) print(1); else print(0); }";

/// Loops, arrays, fields of other objects and operations. Four calls of `fill` take 20 steps, four of `grow` four, and the sum of
/// 3, 9 and 3, 6 and 2, 3 and 1 as many.
const LINKS: &str = "class N { public: long v; N *next; long a[4];
  void fill(long n) { for (long i = 0; i < 4; i++) a[i] = n * i; v += a[3]; }
  void grow(long n) { if (n > 0) { next = new N(); next->fill(n); next->grow(n - 1); } }
  long sum() { long s = v; N *p = next; while (p != nullptr) { s += p->v + p->a[1]; p = p->next; } return s; } };
int main() { N *n = new N(); n->fill(1); n->grow(3); print(n->sum()); print(n->next->a[2]); }";

/// Truth values, assignments of other kinds than sums, and pointers to one object: of seven conditions one digit each.
const TRUTHS: &str = "class T { public: bool on; bool all[3]; long n; long v[2]; T *next;
  void tie(T *t) { next = t; }
  void set(bool x) { on = x; all[1] = !x; all[2] = on || all[1]; }
  void change(long k) { n -= k; n *= 4; n ^= 1; v[1] += k; v[1] -= 2; v[0] = -v[1]; }
  long count() { long c = 0;
    if (on && all[2]) c += 1; if (all[0] == all[1]) c += 10; if (on != all[1]) c += 100; if (!(on || all[1])) c += 1000;
    if (next->on) c += 10000; if (next->all[1] && !on) c += 100000; if (next == this) c += 1000000; return c; } };
int main() { T *t = new T(); T *u = new T(); t->tie(u); u->tie(u); t->set(true); u->set(false);
  print(t->count()); print(u->count()); t->change(3); print(t->n); print(t->v[0]); print(t->v[1]); }";

/// Traps, each on the line of its statement.
const NULL: &str = "class A { public: long x; A *p; };
int main() {
  A *a = new A();
  print(3);
  print(a->p->x);
}";

const OUTSIDE: &str = "class A { public: long a[2];
  void put(long i) {
    a[i] = 1;
  } };
int main() { A *a = new A(); a->put(1); a->put(2); }";

const BELOW: &str = "class A { public: long a[2];
  long get(long i) {
    return a[i];
  } };
int main() { A *a = new A();
  print(a->get(0));
  print(a->get(-1)); }";

const BY_ZERO: &str = "int main() {
  long n = 0;
  print(7 / n);
}";

const BY_NOTHING: &str = "int main() {
  print(7 % 2);
  print(7 % 0);
}";

const NOBODY: &str = "class A { public: void go() { } };
int main() {
  A *a;
  a->go();
}";

/// A loop takes a step a turn.
const TURNS: &str = "int main() { long i = 0; while (i < 5) i++; print(i); }";

/// A deep recursion of value methods, 1,001 calls, and as many of operations.
const DEEP: &str = "class D { public: long n;
  long down(long k) { if (k == 0) return 0; return this->down(k - 1) + 1; }
  void sink(long k) { if (k > 0) { n++; this->sink(k - 1); } } };
int main() { D *d = new D(); print(d->down(1000)); d->sink(1000); print(d->n); }";

/// Bits, the greatest and the least, and right sides, of which that of `&` is asked for, and so divides by zero.
const BITS: &str = "class A { public: long x;
  long bits(long n) { long b = max(n, 3) & 6 | n ^ 1; b ^= min(n, 0); return b; }
  long lazy(long n) { if (n != 0 && (0 & 1 / n) == 0) return 1; return 2; }
  long eager(long n) { if ((0 & 1 / n) == 0) return 1; return 2; } };
int main() { A *a = new A(); print(a->bits(9)); print(a->bits(-7)); print(a->lazy(0)); print(a->eager(1)); print(a->eager(0)); }";

#[test]
fn texts_run(rt: HostRuntime) {
    let fib = "1000 done 815:55 0\n185 done 0:55 0\n184 spent:55\n177 spent:55\n176 spent:";
    run(&rt, FIB, fib);
    run(
        &rt,
        LINKS,
        "10000 done 9972:27 6\n28 done 0:27 6\n27 spent:",
    );
    run(&rt, TRUTHS, "7 done 0:111 1100100 -11 -1 1");
    run(&rt, TURNS, "7 done 2:5\n5 done 0:5\n4 spent:");
    run(&rt, DEEP, "5000 done 2998:1000 1000");
    run(&rt, BITS, "9 divided 4:8 3 2 1\n4 spent:8 3 2 1");
}

#[test]
fn traps_on_its_line(rt: HostRuntime) {
    run(&rt, NULL, "10 null 5:3");
    run(&rt, OUTSIDE, "10 outside 3:");
    run(&rt, BELOW, "10 outside 3:0");
    run(&rt, BY_ZERO, "10 divided 3:");
    run(&rt, BY_NOTHING, "10 divided 3:1");
    run(&rt, NOBODY, "0 null 4:");
}

/// Three rows of this are looked at as it runs: that of the creation, that of the print, and the one before that, whence more than
/// one instruction could pass the end.
const CHOSEN: &str = "class A { public: bool off; long n; A *p;
  void f(long k) { while (k > 0 && !off) { n -= k; k--; } if (p != nullptr || n == -6) off = true; } };
int main() { A *a = new A(); a->f(3); print(a->n); }";

#[test]
fn chooses_what_is_run(rt: HostRuntime) {
    let alloc = rt.alloc();
    let code = lay_out_with(alloc, program(&rt, CHOSEN), &PlainBodies).expect(&rt, "a code");
    let laid = Laid::of(alloc, code).expect(&rt, "what is run");
    let mut rows: usize = 0;
    for op in laid.ops.as_slice() {
        if let Op::Row = *op {
            rows = rows.wrapping_add(1);
        }
    }
    let_go(laid);
    assert!(rt; rows == 3);
    run(&rt, CHOSEN, "4 done 0:-6");
}
