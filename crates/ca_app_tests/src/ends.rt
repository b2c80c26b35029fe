//! Texts that end too early, expressions at their limit, and runs that end at each place of a list.

use crate::calls::{Call, add};
use crate::sources::GRAPH_VISIT;
use std::alloc::Global;
use std::process::Abort;
use std::sync::Wait;
use std::thread::Threads;

/// Ends the test unless each beginning of a text that lacks more than its last line feed is refused where it ends or breaks off.
pub fn refuses_beginnings<R: AllocGlobal + Threads + Wait + Sync + Abort>(rt: &R, line: &str) {
    let (_, shorter) = GRAPH_VISIT.as_bytes().split_last().expect(rt, "a text");
    for end in 0..shorter.len() {
        let (status, written) = Call::of_bytes(line, &shorter[..end]).run(rt);
        assert!(rt; status == 1 && written.ends_with(b" E10\n"), "of {end}");
    }
}

/// A beginning of a text that lacks more than its last line feed is refused where it ends or breaks off.
#[test]
fn refuses_each_beginning(rt: HostRuntime) {
    refuses_beginnings(&rt, "run 1 100");
}

/// A program that prints the sum of so many ones more than one.
fn sum_of_ones<R: Abort>(rt: &R, alloc: Global, more: usize) -> Vec<u8> {
    let mut text = Vec::new(alloc);
    add(rt, &mut text, b"int main() { print(1");
    for _ in 0..more {
        add(rt, &mut text, b"+1");
    }
    add(rt, &mut text, b"); }");
    text
}

/// An expression of the most tokens is run, and one with two more is past the limit.
#[test]
fn tells_where_an_expression_is_too_long(rt: HostRuntime) {
    let text = sum_of_ones(&rt, rt.alloc(), 499);
    assert!(rt; Call::of_bytes("run 1 1", &text).ends(&rt, 0, b"500\n"));
    let text = sum_of_ones(&rt, rt.alloc(), 500);
    assert!(rt; Call::of_bytes("run 1 1", &text).ends(&rt, 8, b"limit 1:1020 E11\n"));
}

/// Ten calls of which the one behind so many calls has an index out of range.
const TEN_BINS: (&str, &str) = (
    "class Bin {\npublic:\n  long a[2];\n  void add(long i) { a[i] = a[i] + 1; }\n};\nclass Row {\npublic:\n  Bin *b[10];\n  long k[10];\n  void fill(long j) {\n    for (long i = 0; i < 10; i++) b[i] = new Bin();\n    k[j] = 2;\n  }\n};\nint main() {\n  Row *r = new Row();\n  r->fill(",
    ");\n  for (long i = 0; i < 10; i++) r->b[i]->add(r->k[i]);\n}\n",
);

/// Whether the run of a text by so many workers within a budget has this status and writes this.
fn ends<R: AllocGlobal + Threads + Wait + Sync + Abort>(
    rt: &R,
    text: &str,
    workers: u32,
    budget: u64,
    status: u8,
    written: &[u8],
) -> bool {
    let line = format!(in rt.alloc(); "run {workers} {budget}").expect(rt, "a line");
    Call::new(&line, text).ends(rt, status, written)
}

/// Whether a text by so many workers traps within 100 steps and within the least that it takes, and has spent its budget
/// within one less, which is told so.
fn stops<R: AllocGlobal + Threads + Wait + Sync + Abort>(
    rt: &R,
    text: &str,
    workers: u32,
    least: u64,
    less: u64,
    spent: &str,
) -> bool {
    let trap = b"trap 4 OutOfRange\n";
    ends(rt, text, workers, 100, 3, trap)
        && ends(rt, text, workers, least, 3, trap)
        && ends(rt, text, workers, less, 4, spent.as_bytes())
}

/// By 1, 2 and 4 workers: at each place of a list the call that traps is reached with as many steps as the calls before
/// it take, and with one step less the budget is spent.
#[test]
fn stops_at_each_place_of_a_list(rt: HostRuntime) {
    let (front, back) = TEN_BINS;
    for place in 0u64..10 {
        let text = format!(in rt.alloc(); "{front}{place}{back}").expect(&rt, "a text");
        let less = 12 + 2 * place;
        let spent = format!(in rt.alloc(); "spent {less}\n").expect(&rt, "a line");
        for workers in [1, 2, 4].as_slice() {
            let stopped = stops(&rt, &text, *workers, less + 1, less, &spent);
            assert!(rt; stopped, "of {place} by {workers}");
        }
    }
}
