//! The heap and its text.

use crate::sources::{let_go, program};
use ca_base::MemSink;
use ca_model::{Heap, Value, Values, print_heap};
use ca_program::{ClassId, Program};
use std::process::Abort;

/// Stores a value where there is a place for it.
fn put<R: Abort>(rt: &R, heap: &mut Heap, id: u32, field: u32, item: u32, value: Value) {
    assert!(rt; heap.has_slot(id, field, item));
    heap.store(id, field, item, value);
}

/// The lines of two objects, of which stores change a number, a pointer and an item.
fn lines_of<R: AllocGlobal + Abort>(rt: &R, program: &Program) -> MemSink {
    let alloc = rt.alloc();
    let mut sink = MemSink::new(alloc, 100, Vec::new(alloc)).expect(rt, "a sink");
    let mut heap = Heap::new(alloc);
    let first = heap.create(program, ClassId(0)).expect(rt, "an object");
    let second = heap.create(program, ClassId(0)).expect(rt, "an object");
    assert!(rt; first == 0 && second == 1 && heap.len() == 2);
    put(rt, &mut heap, 0, 0, 0, Value::Long(-8));
    put(rt, &mut heap, 0, 1, 0, Value::Ref(1));
    put(rt, &mut heap, 1, 2, 2, Value::Long(4));
    print_heap(program, &heap, &mut sink).expect(rt, "lines");
    let_go(heap);
    sink
}

#[test]
fn prints_what_was_stored(rt: HostRuntime) {
    let text = "class Acc { public: long sum; Acc *peer; long seen[3]; }; int main() { }";
    let program = program(&rt, text);
    let sink = lines_of(&rt, program);
    let expected = "#0 Acc sum=-8 peer=#1 seen=[0,0,0]\n#1 Acc sum=0 peer=null seen=[0,0,4]\n";
    assert!(rt; sink.bytes() == expected.as_bytes());
}

/// Makes so many objects of the first class.
fn make<R: Abort>(rt: &R, program: &Program, heap: &mut Heap, count: usize) {
    for _ in 0..count {
        heap.create(program, ClassId(0)).expect(rt, "an object");
    }
}

/// Whether the heap's text is written before the sink's call with this number fails.
fn is_written_before<R: AllocGlobal + Abort>(
    rt: &R,
    program: &Program,
    heap: &Heap,
    call: u64,
) -> bool {
    let alloc = rt.alloc();
    let failing = vec![in alloc; call; 1].expect(rt, "a number");
    let mut sink = MemSink::new(alloc, 50_000, failing).expect(rt, "a sink");
    print_heap(program, heap, &mut sink).is_ok()
}

/// Whole lines go out together: 1,000 lines of 25,890 bytes take nine writes.
#[test]
fn writes_lines_together(rt: HostRuntime) {
    let text = "class Node { public: long sum; Node *next; }; int main() { }";
    let program = program(&rt, text);
    let mut heap = Heap::new(rt.alloc());
    make(&rt, program, &mut heap, 1_000);
    let in_nine = is_written_before(&rt, program, &heap, 10);
    let in_eight = is_written_before(&rt, program, &heap, 9);
    let_go(heap);
    assert!(rt; in_nine && !in_eight);
}

/// A list of values takes one more.
#[test]
fn adds_a_value(rt: HostRuntime) {
    let mut values = Values::filled(rt.alloc(), Value::Null, 2).expect(&rt, "values");
    values.push(Value::Bool(true)).expect(&rt, "a value");
    assert!(rt; values.len() == 3 && values.get(2) == Some(Value::Bool(true)));
    let_go(values);
}
