//! Copies of values, objects, heaps and calls.

use crate::sources::{let_go, program};
use ca_model::{Heap, Slot, Slots, Value, Values};
use ca_parallel::{Arguments, Op};
use ca_program::{ClassId, OpId, Program};
use std::process::Abort;

/// A heap of two objects, of which one has changed.
fn two_objects<R: AllocGlobal + Abort>(rt: &R, program: &Program) -> Heap {
    let mut heap = Heap::new(rt.alloc());
    heap.create(program, ClassId(0)).expect(rt, "an object");
    heap.create(program, ClassId(0)).expect(rt, "an object");
    assert!(rt; heap.has_slot(1, 1, 2));
    heap.store(1, 1, 2, Value::Long(7));
    heap
}

/// Whether a copy of the second field of the slots is an array that ends in 0 and 7.
fn has_items<R: Abort>(rt: &R, slots: &Slots) -> bool {
    let slot = slots.get(1).expect(rt, "a slot");
    let copy = slot.copy().expect(rt, "a copy");
    let answer = match &copy {
        Slot::Many(items) => are_items(rt, items),
        Slot::One(_) => false,
    };
    let_go(copy);
    answer
}

/// Whether a copy of the items ends in 0 and 7.
fn are_items<R: Abort>(rt: &R, items: &Values) -> bool {
    let again = items.copy().expect(rt, "a copy");
    let is_old = again.get(1) == Some(Value::Long(0));
    let is_new = again.get(2) == Some(Value::Long(7));
    let_go(again);
    is_old && is_new
}

/// A copy has what the original had, and stays as it is where that changes.
#[test]
fn copies_a_heap(rt: HostRuntime) {
    let text = "class A { public: A *peer; long seen[3]; }; int main() { }";
    let program = program(&rt, text);
    let mut heap = two_objects(&rt, program);
    let copy = heap.copy().expect(&rt, "a copy");
    assert!(rt; heap.has_slot(1, 1, 2) && copy.len() == 2);
    heap.store(1, 1, 2, Value::Long(8));
    let object = copy.get(1).copy().expect(&rt, "a copy");
    let slots = object.slots.copy().expect(&rt, "a copy");
    assert!(rt; object.class == ClassId(0) && slots.len() == 2);
    assert!(rt; has_items(&rt, &slots));
    let_go(slots);
    let_go(object);
    let_go(copy);
    let_go(heap);
}

/// A call is copied with its arguments.
#[test]
fn copies_a_call(rt: HostRuntime) {
    let mut args = Arguments::new(rt.alloc());
    args.push(Value::Bool(false)).expect(&rt, "an argument");
    args.push(Value::Bool(true)).expect(&rt, "another");
    let op = Op {
        receiver: 3,
        op: OpId(1),
        args,
    };
    let copy = op.copy().expect(&rt, "a copy");
    assert!(rt; copy.receiver == 3 && copy.op == OpId(1) && copy.args.len() == 2);
    assert!(rt; copy.args.get(1) == Some(Value::Bool(true)));
    let_go(copy);
    let_go(op);
}
