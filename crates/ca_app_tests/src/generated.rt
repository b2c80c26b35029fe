//! Large inputs from numbers.

use crate::calls::Call;
use crate::sources::FIRST;
use ca_app::generate;
use std::process::Abort;
use std::sync::Wait;
use std::thread::Threads;

/// Three nodes, linked by the numbers of seed 7.
pub const OF_SEED_7: &str =
    "class Node {\npublic:\n  bool mark;\n  long value;\n  long sum;\n  Node *left;\n  Node *right;\n  void set(long v, Node *l, Node *r) {\n    value = v;\n    left = l;\n    right = r;\n  }\n  void visit(long p) {\n    sum += p;\n    if (!mark) {\n      mark = true;\n      left->visit(value);\n      right->visit(value);\n    }\n  }\n};\nclass Table {\npublic:\n  Node *at[3];\n  void fill() {\n    for (long i = 0; i < 3; i++) at[i] = new Node();\n  }\n  void link(long i, long l, long r) {\n    at[i]->set(i + 1, at[l], at[r]);\n  }\n};\nint main() {\n  Table *t = new Table();\n  t->fill();\n  t->link(0, 1, 2);\n  t->link(1, 2, 0);\n  t->link(2, 2, 2);\n  t->at[0]->visit(1);\n  return 0;\n}\n";

const HEAP_OF_SEED_7: &str =
    "#0 Table at=[#1,#2,#3]\n#1 Node mark=true value=1 sum=3 left=#2 right=#3\n#2 Node mark=true value=2 sum=1 left=#3 right=#1\n#3 Node mark=true value=3 sum=9 left=#3 right=#3\n";

const OF_LOAD_7: &str = "load objects=4 steps=17 total=19\n";

/// Ends the test unless a call over devices, of which the read and the write of these numbers fail, where they are not 0, has
/// this status and writes this.
fn gives<R: AllocGlobal + Threads + Wait + Sync + Abort>(
    rt: &R,
    line: &str,
    text: &str,
    failing: (u64, u64),
    status: u8,
    written: &str,
) {
    let call = Call {
        failing,
        ..Call::new(line, text)
    };
    let ended = call.ends(rt, status, written.as_bytes());
    assert!(rt; ended, "of {line}");
}

/// A text of three nodes, its runs, and summaries of runs.
#[test]
fn writes_and_runs_generated_texts(rt: HostRuntime) {
    gives(&rt, "gen 7 3", FIRST, (0, 0), 0, OF_SEED_7);
    gives(&rt, "gen 2147483655 3", "", (0, 0), 0, OF_SEED_7);
    // nothing is read, so no read fails
    gives(&rt, "gen 7 3", FIRST, (1, 0), 0, OF_SEED_7);
    gives(&rt, "gen 7 3", FIRST, (0, 1), 7, "");
    gives(&rt, "run 1 17", OF_SEED_7, (0, 0), 0, HEAP_OF_SEED_7);
    gives(&rt, "run 1 16", OF_SEED_7, (0, 0), 4, "spent 16\n");
    let least = "load objects=2 steps=7 total=4\n";
    gives(&rt, "load 0 1 1", "", (0, 0), 0, least);
    gives(&rt, "load 7 3 4", FIRST, (0, 0), 0, OF_LOAD_7);
    gives(&rt, "load 7 3 4", FIRST, (1, 0), 0, OF_LOAD_7);
    gives(&rt, "load 7 3 4", FIRST, (0, 1), 7, "");
    let text = generate(rt.alloc(), 7, 3).expect(&rt, "a text");
    assert!(rt; text.as_slice() == OF_SEED_7.as_bytes());
}

/// Ends the test unless each line's run of three nodes has this status and writes this.
fn all_end<R: AllocGlobal + Threads + Wait + Sync + Abort>(
    rt: &R,
    lines: &str,
    status: u8,
    written: &str,
) {
    for line in lines.lines() {
        let call = Call::new(line, OF_SEED_7);
        assert!(rt; call.ends(rt, status, written.as_bytes()), "of {line}");
    }
}

/// By 1, 2, 3 and 64 workers a text of three nodes ends alike.
#[test]
fn many_workers_run_a_generated_text(rt: HostRuntime) {
    let done = "run 1 17\nrun 2 17\nrun 3 17\nrun 64 17";
    all_end(&rt, done, 0, HEAP_OF_SEED_7);
    let spent = "run 1 16\nrun 2 16\nrun 3 16\nrun 64 16";
    all_end(&rt, spent, 4, "spent 16\n");
}

/// How many lines a text has.
fn lines_of(text: &[u8]) -> u32 {
    let mut lines: u32 = 0;
    for byte in text {
        if *byte == b'\n' {
            lines = lines.wrapping_add(1);
        }
    }
    lines
}

/// A text of 10,000 nodes has one heap, of 10,001 lines, by 1 and by 8 workers.
#[test]
fn many_workers_run_a_large_text(rt: HostRuntime) {
    let text = generate(rt.alloc(), 7, 10_000).expect(&rt, "a text");
    let call = Call {
        room: 1_000_000,
        ..Call::of_bytes("run 1 1000000", &text)
    };
    let (status, heap) = call.run(&rt);
    assert!(rt; status == 0);
    assert!(rt; lines_of(&heap) == 10_001);
    let call = Call {
        line: "run 8 1000000",
        ..call
    };
    assert!(rt; call.ends(&rt, 0, &heap));
}

/// Loads of the most nodes.
const LOADS: &str = "load 7 20000 1
load 7 20000 8
load 7 20000 8
load 7 20000 64";

/// A text of the most nodes has one summary, however often and by however many workers it is run.
#[test]
fn many_workers_load_one_summary(rt: HostRuntime) {
    for line in LOADS.lines() {
        let written = b"load objects=20001 steps=90290 total=479533391\n";
        assert!(rt; Call::new(line, "").ends(&rt, 0, written), "of {line}");
    }
}
