//! Schedules that the program records: it verifies each of them.

use crate::calls::{Call, add, add_lines};
use crate::pieces::left;
use crate::sources::{
    ACCUMULATOR, BINS, DEEP_THEN_HIT, GRAPH_VISIT, HIT_THEN_DEEP, ONE_BIN, PRINTS, PRODUCTS_ON_ONE,
    STEPS_IN_A_LIST, STEPS_IN_A_LOOP, THREE_PRODUCTS, TRAP_IN_A_LIST, TRAP_IN_A_LOOP, TWO_BINS,
};
use std::process::Abort;
use std::sync::Wait;
use std::thread::Threads;

/// How many workers run each text.
const WORKERS: [u32; 5] = [1, 2, 4, 8, 64];

/// The two schedules that the two calls of a marked loop can have.
const ORDERS: [&str; 2] = [
    "$/*schedule$block$#1 Bin::add(1)$#2 Bin::add(2)$end$done 5$*/$",
    "$/*schedule$block$#2 Bin::add(2)$#1 Bin::add(1)$end$done 5$*/$",
];

/// Whether `verify` of a budget says yes to a text with a schedule behind it.
pub fn is_verified<R: AllocGlobal + Threads + Wait + Sync + Abort>(
    rt: &R,
    text: &str,
    schedule: &[u8],
    budget: u32,
) -> bool {
    let mut whole = Vec::new(rt.alloc());
    add(rt, &mut whole, text.as_bytes());
    add(rt, &mut whole, schedule);
    let line = format!(in rt.alloc(); "verify {budget}").expect(rt, "a line");
    Call::of_bytes(&line, &whole).ends(rt, 0, b"yes\n")
}

/// Ends the test unless by each number of workers the text is traced with this status, and what is written is verified.
fn follows<R: AllocGlobal + Threads + Wait + Sync + Abort>(
    rt: &R,
    text: &str,
    budget: u32,
    status: u8,
) {
    for workers in WORKERS.as_slice() {
        let line = format!(in rt.alloc(); "trace {workers} {budget}").expect(rt, "a line");
        let call = Call {
            room: 1_000_000,
            ..Call::new(&line, text)
        };
        let (answer, schedule) = call.run(rt);
        let verified = is_verified(rt, text, &schedule, budget);
        assert!(rt; answer == status && verified, "{line} of {text}");
    }
}

/// Runs that are done, with lists of one order and of many, in one round and in several.
#[test]
fn schedules_follow(rt: HostRuntime) {
    follows(&rt, GRAPH_VISIT, 100, 0);
    follows(&rt, GRAPH_VISIT, 6, 0);
    follows(&rt, ACCUMULATOR, 6, 0);
    follows(&rt, TWO_BINS, 5, 0);
    follows(&rt, ONE_BIN, 5, 0);
    follows(&rt, THREE_PRODUCTS, 10, 0);
    follows(&rt, PRODUCTS_ON_ONE, 4, 0);
    follows(&rt, PRINTS, 9, 0);
    follows(&rt, STEPS_IN_A_LIST, 7, 0);
    follows(&rt, STEPS_IN_A_LOOP, 10, 0);
    follows(&rt, BINS, 5003, 0);
}

/// Runs that trap, and that spend their budget.
#[test]
fn schedules_of_other_ends_follow(rt: HostRuntime) {
    follows(&rt, GRAPH_VISIT, 5, 4);
    follows(&rt, BINS, 5002, 4);
    follows(&rt, ACCUMULATOR, 5, 4);
    follows(&rt, DEEP_THEN_HIT, 100, 4);
    follows(&rt, HIT_THEN_DEEP, 100, 3);
    follows(&rt, TRAP_IN_A_LIST, 3, 3);
    follows(&rt, TRAP_IN_A_LIST, 2, 4);
    follows(&rt, TRAP_IN_A_LOOP, 5, 3);
}

/// How many bytes of a schedule of the two calls were written; `None` where they begin none.
fn begun<R: AllocGlobal + Abort>(rt: &R, written: &[u8]) -> Option<usize> {
    for order in ORDERS.as_slice() {
        let mut schedule = Vec::new(rt.alloc());
        add_lines(rt, &mut schedule, order);
        if schedule.starts_with(written) {
            return Some(written.len());
        }
    }
    None
}

/// By two workers, byte by byte: where a write fails there are as many bytes of a schedule as writes went before, and where a
/// read fails there are none.
#[test]
fn each_fault_leaves_a_beginning(rt: HostRuntime) {
    let whole = ORDERS[0].len();
    for before in 0..whole + 1 {
        let (status, written) = left(&rt, "trace 2 5", TWO_BINS, 1, (0, before as u64 + 1));
        let due = if before < whole { 7 } else { 0 };
        assert!(rt;
            status == due && begun(&rt, &written) == Some(before),
            "of write {before}"
        );
    }
    let reads = TWO_BINS.len() as u64 + 1;
    for before in 0..reads {
        let (status, written) = left(&rt, "trace 2 5", TWO_BINS, 1, (before + 1, 0));
        assert!(rt; status == 6 && written.is_empty(), "of read {before}");
    }
}

/// The same over devices in memory, which take a whole piece at once.
#[test]
fn gives_way_to_faults(rt: HostRuntime) {
    for number in 1..5 {
        let call = Call {
            failing: (0, number),
            ..Call::new("trace 2 5", TWO_BINS)
        };
        let (status, written) = call.run(&rt);
        let len = if number == 1 {
            0
        } else if number == 2 {
            1
        } else {
            ORDERS[0].len()
        };
        let due = if number < 3 { 7 } else { 0 };
        assert!(rt;
            status == due && begun(&rt, &written) == Some(len),
            "of write {number}"
        );
        let call = Call {
            failing: (number, 0),
            ..Call::new("trace 2 5", TWO_BINS)
        };
        let (status, written) = call.run(&rt);
        let due = if number < 3 { 6 } else { 0 };
        let len = if number < 3 { 0 } else { ORDERS[0].len() };
        assert!(rt;
            status == due && begun(&rt, &written) == Some(len),
            "of read {number}"
        );
    }
}
