//! Programs laid out with marks: what is handed on. Where memory runs out the test ends.

use crate::shut::Shut;
use crate::sources::{let_go, program};
use ca_model::{Heap, Value};
use ca_parallel::Marks;
use ca_program::{LoopId, OpId};
use ca_serial::lay_out_marked;
use ca_steps::{Event, Frames, InRun, Laid, Went, run_on};
use std::process::Abort;
use std::sync::Wait;

/// Adds the marks of a row: operations, and behind `|` loops.
fn mark<R: Abort>(rt: &R, marks: &mut Marks, row: &str) {
    let (ops, loops) = row.split_once('|').expect(rt, "two lists");
    for word in ops.split_whitespace() {
        let number: u32 = word.parse().expect(rt, "a number");
        marks.ops.push(OpId(number)).expect(rt, "a mark");
    }
    for word in loops.split_whitespace() {
        let number: u32 = word.parse().expect(rt, "a number");
        marks.loops.push(LoopId(number)).expect(rt, "a mark");
    }
}

/// How many calls and how many loops a run with the marks of a row hands on, where each of them runs here, and the number that it
/// prints, as a text.
fn handed<R: AllocGlobal + Abort + Wait>(rt: &R, text: &str, row: &str) -> String {
    let alloc = rt.alloc();
    let program = program(rt, text);
    let mut marks = Marks::none(alloc);
    mark(rt, &mut marks, row);
    let code = lay_out_marked(alloc, program, &marks).expect(rt, "a code");
    let laid = Laid::of(alloc, code).expect(rt, "what is run");
    let mut frames = Frames::before(alloc, laid.code.room, laid.code.main, 1_000).expect(
        rt, "frames",
    );
    let mut run = InRun {
        program,
        heap: Heap::new(alloc),
    };
    let mut calls: u32 = 0;
    let mut begun: u32 = 0;
    let mut last: i64 = 0;
    for _ in rt.forever() {
        match run_on(rt, alloc, &mut run, &Shut, &laid, &mut frames) {
            Event::Prints(value) => {
                if let Value::Long(n) = value {
                    last = n;
                }
            }
            Event::Hands(op, first, receiver) => {
                calls = calls.saturating_add(1);
                let went = frames.enter_operation(laid.code.ops.as_slice(), op, receiver, first);
                assert!(rt; matches!(went, Ok(Went::On)));
            }
            Event::Begins(_, _, _, _) => {
                begun = begun.saturating_add(1);
                let left = frames.left();
                frames.pass(left).expect(rt, "a place");
            }
            Event::Ends => break,
            _ => panic!(rt; "the run doesn't end"),
        }
    }
    let_go(laid);
    let_go(frames);
    let_go(run);
    let_go(marks);
    format!(in alloc; "{calls} {begun} {last}").expect(rt, "a text")
}

/// Ends the test unless each row has the marks, and behind `:` what is handed on.
fn hands<R: AllocGlobal + Abort + Wait>(rt: &R, text: &str, rows: &str) {
    for row in rows.lines() {
        let (marks, wanted) = row.split_once(':').expect(rt, "a row");
        assert!(rt; handed(rt, text, marks).as_str() == wanted, "{row}");
    }
}

/// A call of `add`, and in a loop three of `twice`, which calls it twice.
const ADDS: &str = "class A { public: long n;
  void add(long x) { n += x; }
  void twice(long x) { this->add(x); this->add(x); } };
int main() { A *a = new A(); a->add(1); for (long i = 0; i < 3; i++) a->twice(i); print(a->n); }";

#[test]
fn hands_marked_calls_and_loops_on(rt: HostRuntime) {
    hands(
        &rt,
        ADDS,
        "|:0 0 7\n0|:7 0 7\n1|:3 0 7\n0 1|:4 0 7\n|0:0 1 7\n0 1|0:1 1 7\n1|1:3 0 7",
    );
}
