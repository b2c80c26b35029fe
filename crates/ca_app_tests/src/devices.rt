//! Faulty words, and devices that fail.

use crate::calls::{Call, serve};
use crate::sources::{FIRST, FIRST_HEAP, GRAPH_HEAP, GRAPH_VISIT, PRINTED, PRINTS};
use crate::watch::Watch;
use ca_base::{MemSink, MemSource, SureSink, SureSource};
use std::process::Abort;
use std::sync::Wait;
use std::thread::Threads;

const USAGE: &str =
    "usage: commute run WORKERS BUDGET | pairs | plan | emit | gen SEED SIZE | load SEED SIZE WORKERS | trace WORKERS BUDGET | verify BUDGET\n";

/// Faulty command lines. The first is empty.
const FAULTY: &str = "
run 0 5
run 65 5
run 01 5
run 2
run 2 0
run 2 1000000001
gen 18446744073709551616 1
gen 0 0
gen 0 20001
load 0 1
load 0 1 0
load 0 1 65
load 0 20001 1
load 18446744073709551616 1 1
plans
gen 07 3
gen 7
run 1 05
load 7 0 4
verify 01
trace 04 100
pairs x
verify
verify 0
verify 1000000001
verify 1 100
trace
trace 4
trace 0 100
trace 65 100
trace 4 0
trace 4 1000000001
trace 4 100 1
--help";

/// Faulty command lines, one of them with a failing write.
#[test]
fn answers_the_usage_line(rt: HostRuntime) {
    for line in FAULTY.lines() {
        let call = Call::new(line, FIRST);
        assert!(rt; call.ends(&rt, 2, USAGE.as_bytes()), "of {line}");
    }
    let call = Call {
        failing: (0, 1),
        ..Call::new("pairs x", FIRST)
    };
    assert!(rt; call.ends(&rt, 7, b""));
}

/// A line on a visit of two objects, of whose reads and writes one fails.
fn visit(line: &'static str, reads: u64, writes: u64) -> Call<'static> {
    Call {
        failing: (reads, writes),
        ..Call::new(line, GRAPH_VISIT)
    }
}

/// Whether reads and writes of a visit that fail in turn give their status.
fn gives_way<R: AllocGlobal + Threads + Wait + Sync + Abort>(rt: &R, line: &'static str) -> bool {
    visit(line, 1, 0).ends(rt, 6, b"")
        && visit(line, 2, 0).ends(rt, 6, b"")
        && visit(line, 3, 0).ends(rt, 0, GRAPH_HEAP.as_bytes())
        && visit(line, 0, 1).ends(rt, 7, b"")
}

/// Reads and writes of a visit failing in turn.
#[test]
fn gives_way_to_faults(rt: HostRuntime) {
    assert!(rt; gives_way(&rt, "run 1 100"));
    assert!(rt; gives_way(&rt, "run 2 100"));
    assert!(rt; gives_way(&rt, "run 64 100"));
    let refused = Call {
        failing: (0, 1),
        ..Call::new("run 1 9", "")
    };
    assert!(rt; refused.ends(&rt, 7, b""));
}

/// The status of a line on a text from a source and to a sink in memory, of whose reads and writes the one of this number fails,
/// where it is not 0, and what was written.
fn in_memory<R: AllocGlobal + Threads + Wait + Sync + Abort>(
    rt: &R,
    line: &str,
    text: &str,
    read: u64,
    write: u64,
) -> (u8, Vec<u8>) {
    let alloc = rt.alloc();
    let text = Vec::from_slice(alloc, text.as_bytes()).expect(rt, "a text");
    let failing_reads = vec![in alloc; read; 1].expect(rt, "a number");
    let failing_writes = vec![in alloc; write; 1].expect(rt, "a number");
    let mut source = MemSource::new(text, failing_reads);
    let mut sink = MemSink::new(alloc, 2000, failing_writes).expect(rt, "a sink");
    let status = serve(rt, line, &mut source, &mut sink, &Watch::open());
    let written = Vec::from_slice(alloc, sink.bytes()).expect(rt, "what was written");
    (status, written)
}

/// Ends the test unless a second read that fails leaves nothing, and each of the six writes of a heap of two lines that fails what
/// went before it: a line goes out as a `#`, a number and the rest, so the third one leaves the first two.
fn gives_way_in_memory<R: AllocGlobal + Threads + Wait + Sync + Abort>(
    rt: &R,
    line: &str,
    text: &str,
    heap: &str,
) {
    let (status, written) = in_memory(rt, line, text, 2, 0);
    assert!(rt; status == 6 && written.is_empty(), "of {line}");
    let mut before: usize = 0;
    for number in 1..7u64 {
        let (status, written) = in_memory(rt, line, text, 0, number);
        let is_begun = heap.as_bytes().starts_with(&written) && written.len() < heap.len();
        let is_more = number == 1 || before < written.len();
        assert!(rt;
            status == 7 && is_begun && is_more,
            "of {line} by write {number}"
        );
        before = written.len();
    }
    let (status, written) = in_memory(rt, line, text, 0, 3);
    assert!(rt;
        status == 7 && written.as_slice() == "#0".as_bytes(),
        "of {line}"
    );
    let (status, written) = in_memory(rt, line, text, 0, 7);
    assert!(rt;
        status == 0 && written.as_slice() == heap.as_bytes(),
        "of {line}"
    );
}

/// Reads and writes of devices in memory failing in turn: the third write leaves a beginning of the heap's first line.
#[test]
fn writes_a_line_in_three(rt: HostRuntime) {
    gives_way_in_memory(&rt, "run 1 100", FIRST, FIRST_HEAP);
    gives_way_in_memory(&rt, "run 1 100", GRAPH_VISIT, GRAPH_HEAP);
    gives_way_in_memory(&rt, "run 2 100", GRAPH_VISIT, GRAPH_HEAP);
    gives_way_in_memory(&rt, "run 64 100", GRAPH_VISIT, GRAPH_HEAP);
}

/// The status of a run that prints, of whose reads and writes one fails, how much it wrote, and whether that is a
/// beginning of what is right.
fn prints<R: AllocGlobal + Threads + Wait + Sync + Abort>(
    rt: &R,
    reads: u64,
    writes: u64,
) -> (u8, usize, bool) {
    let call = Call {
        failing: (reads, writes),
        ..Call::new("run 1 9", PRINTS)
    };
    let (status, written) = call.run(rt);
    let begun = PRINTED.as_bytes().starts_with(&written);
    (status, written.len(), begun)
}

/// Each read and each write failing in turn, over a program with four prints, of a write each, and a heap of one line, of three.
#[test]
fn gives_way_to_each_fault(rt: HostRuntime) {
    let whole = PRINTED.len();
    for number in 1..13 {
        let (status, len, begun) = prints(&rt, 0, number);
        let fails = status == 7 && len != whole;
        let writes = status == 0 && len == whole;
        assert!(rt;
            begun && if number < 8 { fails } else { writes },
            "of {number}"
        );
        let (status, len, _) = prints(&rt, number, 0);
        let fails = status == 6 && len == 0;
        let writes = status == 0 && len == whole;
        assert!(rt; if number < 3 { fails } else { writes }, "of read {number}");
    }
}

/// Over devices that never fail, status 6 and 7 don't come.
#[test]
fn runs_over_sure_devices(rt: HostRuntime) {
    let text = Vec::from_slice(rt.alloc(), FIRST.as_bytes()).expect(&rt, "a text");
    let mut source = SureSource::new(text);
    let status = serve(
        &rt,
        "run 1 100",
        &mut source,
        &mut SureSink::new(),
        &Watch::open(),
    );
    assert!(rt; status == 0);
}
