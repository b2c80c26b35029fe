//! Sections of different workers that are inside at one time.

use crate::calls::{Call, add};
use crate::sources::{
    MANY_PRODUCTS, ONE_BIN, ONE_BIN_BESIDE_MANY, ONE_BIN_BESIDE_MORE, ONE_BIN_HEAP, THREE_BINS,
    THREE_BINS_HEAP, THREE_PRODUCTS, THREE_PRODUCTS_HEAP, TWO_BINS, TWO_BINS_HEAP, TWO_PRODUCTS,
    TWO_PRODUCTS_HEAP,
};
use crate::traced::is_verified;
use crate::watch::{MOST_TURNS, Watch};
use std::process::Abort;

/// Two calls of a marked loop run at one time.
#[test]
fn two_sections_meet(rt: HostRuntime) {
    let gate = Watch::meeting(1, 2);
    assert!(rt; Call::new("run 2 5", TWO_BINS).ends_past(&rt, &gate, TWO_BINS_HEAP));
    assert!(rt; gate.counts() == (1, 1, 0, 0));
}

/// They do where the run is recorded, and what is recorded follows.
#[test]
fn trace_meets(rt: HostRuntime) {
    let gate = Watch::meeting(1, 2);
    let (status, schedule) = Call::new("trace 2 5", TWO_BINS).run_past(&rt, &gate);
    assert!(rt; status == 0 && gate.counts() == (1, 1, 0, 0));
    assert!(rt; is_verified(&rt, TWO_BINS, &schedule, 5));
}

/// Of three calls the first and the last run at one time.
#[test]
fn thief_meets_owner(rt: HostRuntime) {
    let gate = Watch::meeting(1, 3);
    assert!(rt; Call::new("run 2 7", THREE_BINS).ends_past(&rt, &gate, THREE_BINS_HEAP));
    assert!(rt; gate.counts() == (1, 1, 1, 0));
}

/// The first two calls are lent to one worker, which opens one of them to others: the other worker, which has the third, steals it.
#[test]
fn thief_meets_owner_of_sums(rt: HostRuntime) {
    let gate = Watch::stealing(1, 2);
    assert!(rt; Call::new("run 2 7", THREE_BINS).ends_past(&rt, &gate, THREE_BINS_HEAP));
    assert!(rt; gate.counts() == (1, 1, 1, 0));
}

/// The same of calls that multiply, for which each object has a lock.
#[test]
fn two_products_meet(rt: HostRuntime) {
    let gate = Watch::meeting(1, 2);
    assert!(rt; Call::new("run 2 7", TWO_PRODUCTS).ends_past(&rt, &gate, TWO_PRODUCTS_HEAP));
    assert!(rt; gate.counts() == (1, 1, 0, 0));
}

/// And of three, of which the first and the last are dealt to one worker: the other takes one.
#[test]
fn thief_meets_owner_of_products(rt: HostRuntime) {
    let gate = Watch::meeting(1, 3);
    assert!(rt; Call::new("run 2 10", THREE_PRODUCTS).ends_past(&rt, &gate, THREE_PRODUCTS_HEAP));
    assert!(rt; gate.counts() == (1, 1, 1, 0));
}

/// Two calls that add to one object run at one time, for each worker adds to a copy of its own.
#[test]
fn two_meet_on_one(rt: HostRuntime) {
    let gate = Watch::sharing(1, MOST_TURNS);
    assert!(rt; Call::new("run 2 5", ONE_BIN).ends_past(&rt, &gate, ONE_BIN_HEAP));
    assert!(rt; gate.counts() == (2, 1, 0, 0));
    assert!(rt; Call::new("run 2 4", ONE_BIN).tells(&rt, 4, "spent 4$"));
}

/// They do beside as many values as all workers may copy, and not beside one more: there the object has a lock, and both run
/// behind each other, past one gate.
#[test]
fn two_meet_beside_so_many_values(rt: HostRuntime) {
    let gate = Watch::sharing(1, MOST_TURNS);
    let mut call = Call::new("run 64 5", ONE_BIN_BESIDE_MANY);
    call.room = 1_000_000;
    let (status, _) = call.run_past(&rt, &gate);
    assert!(rt; status == 0 && gate.counts() == (2, 1, 0, 0));
    let gate = Watch::sharing(1, 100_000);
    let mut call = Call::new("run 64 5", ONE_BIN_BESIDE_MORE);
    call.room = 1_000_000;
    let (status, _) = call.run_past(&rt, &gate);
    let (passes, _, others, in_vain) = gate.counts();
    assert!(rt; status == 0 && (passes, others, in_vain) == (1, 0, 1));
}

/// The heap that the long products on 64 objects leave, of which the call of number i multiplies 1 by i and 2,000.
fn products<R: AllocGlobal + Abort>(rt: &R) -> Vec<u8> {
    let alloc = rt.alloc();
    let mut text = Vec::new(alloc);
    add(rt, &mut text, b"#0 Set b=[#1");
    for id in 2..65 {
        let item = format!(in alloc; ",#{id}").expect(rt, "an item");
        add(rt, &mut text, item.as_bytes());
    }
    add(rt, &mut text, b"]\n");
    for id in 1..65u32 {
        let line = format!(in alloc; "#{id} Bin n={}\n", id + 1999).expect(rt, "a line");
        add(rt, &mut text, line.as_bytes());
    }
    text
}

/// On a heap of 65 objects, too, two workers are inside at one time where each of 64 calls takes 2,000 turns, whatever the calling
/// thread runs ahead of a round. Each object is taken once.
#[test]
fn two_workers_share_many_objects(rt: HostRuntime) {
    let gate = Watch::working(32);
    let (status, written) = Call::new("run 2 1000000", MANY_PRODUCTS).run_past(&rt, &gate);
    let (of_first, of_others, ahead, in_vain) = gate.counts();
    assert!(rt; of_first > 0 && of_others > 0 && in_vain == 0);
    assert!(rt; of_first.wrapping_add(of_others).wrapping_add(ahead) == 64);
    assert!(rt; status == 0 && written == products(&rt));
}

/// Two workers run the marked call of a generated text past the gate.
#[test]
fn two_workers_load(rt: HostRuntime) {
    let gate = Watch::meeting(2, 3);
    let written = "load objects=2 steps=7 total=4\n";
    assert!(rt; Call::new("load 0 1 2", "").ends_past(&rt, &gate, written));
    let (one, other, third, in_vain) = gate.counts();
    assert!(rt; (one, other, in_vain) == (0, 0, 0) && third >= 1);
}
