//! Sections of operations and of loops. Where memory runs out the test ends, and what is made of programs and objects is let go by
//! one call, so that no destructor is written out at a function's end.
//!
//! A row is a section of an operation with a number, on a new object of class 0, which stands for the last of one or two new objects
//! of the heap: `receiver op number left | puts | end | values | calls`. The object begins with the puts and has the values behind the
//! section, which lists the calls. A put or a value is `field.item=value`, where the value is a number, `t`, `f`, `null`, or `r` and a
//! receiver, and a call is `receiver.op.number`. `-` stands for none. A section that is `undone` is done first, and one that is `frozen`
//! puts nothing and reads the heap alone.

ghost use Rattle.ca_program.specs.View.{program_view};
ghost use Rattle.ca_meaning.specs.ProgramTyped.{ProgramTyped};

use crate::sources::{coded, lent, let_go, program};
use ca_model::{Heap, Object, Slot, Slots, Trap, TrapKind, Value};
use ca_parallel::{Arguments, Marks, Op};
use ca_program::{ClassId, LoopId, OpId, Program};
use ca_sections::{
    Coded, Desk, SectionAnswer, section, section_frozen, section_loop, section_of_loop, with_loops,
};
use ca_serial::lay_out_marked;
use ca_steps::Laid;
use std::process::Abort;

/// The number of a word.
fn number<R: Abort>(rt: &R, word: &str) -> u32 {
    word.parse().expect(rt, "a number")
}

/// The number of a word, which may be below zero.
fn long<R: Abort>(rt: &R, word: &str) -> i64 {
    word.parse().expect(rt, "a number")
}

/// The two parts of a text about a mark.
fn parts<'a, R: Abort>(rt: &R, text: &'a str, mark: &str) -> (&'a str, &'a str) {
    text.split_once(mark).expect(rt, "two parts")
}

/// The value of a word.
fn value<R: Abort>(rt: &R, word: &str) -> Value {
    match word {
        "t" => Value::Bool(true),
        "f" => Value::Bool(false),
        "null" => Value::Null,
        _ => match word.split_once("r") {
            Some((_, id)) => Value::Ref(number(rt, id)),
            None => Value::Long(long(rt, word)),
        },
    }
}

/// The field, the item and the value of a word.
fn put<R: Abort>(rt: &R, word: &str) -> (u32, u32, Value) {
    let (place, word) = parts(rt, word, "=");
    let (field, item) = parts(rt, place, ".");
    (number(rt, field), number(rt, item), value(rt, word))
}

/// A heap of so many new objects of class 0.
fn heap<R: AllocGlobal + Abort>(rt: &R, program: &Program, count: u32) -> Heap {
    let mut heap = Heap::new(rt.alloc());
    for _ in 0..count {
        heap.create(program, ClassId(0)).expect(rt, "an object");
    }
    heap
}

/// A new object of class 0 with these values.
fn object<R: AllocGlobal + Abort>(rt: &R, program: &Program, puts: &str) -> Object {
    let fields = program.classes.get(0).expect(rt, "a class");
    let mut slots = Slots::start(rt.alloc(), &fields.fields).expect(rt, "slots");
    for word in puts.split(' ') {
        if word != "-" {
            let (field, item, value) = put(rt, word);
            assert!(rt; slots.has(field, item));
            slots.put(field, item, value);
        }
    }
    Object {
        class: ClassId(0),
        slots,
    }
}

/// The value of an item of a field.
fn found(object: &Object, field: u32, item: u32) -> Option<Value> {
    match object.slots.get(field) {
        Some(Slot::One(value)) => Some(*value),
        Some(Slot::Many(values)) => values.get(item as usize),
        None => None,
    }
}

/// Whether the object has these values.
fn holds<R: Abort>(rt: &R, object: &Object, values: &str) -> bool {
    for word in values.split(' ') {
        if word != "-" {
            let (field, item, value) = put(rt, word);
            if found(object, field, item) != Some(value) {
                return false;
            }
        }
    }
    true
}

/// Whether it is this call.
fn is_call<R: Abort>(rt: &R, op: &Op, word: &str) -> bool {
    let (receiver, call) = parts(rt, word, ".");
    let (called, argument) = parts(rt, call, ".");
    op.receiver == number(rt, receiver)
        && op.op == OpId(number(rt, called))
        && op.args.len() == 1
        && op.args.get(0) == Some(Value::Long(long(rt, argument)))
}

/// Whether the call of this number is it.
fn is_listed<R: Abort>(rt: &R, out: &[Op], at: usize, word: &str) -> bool {
    match out.get(at) {
        Some(op) => is_call(rt, op, word),
        None => false,
    }
}

/// Whether these calls were listed, and no others.
fn lists<R: Abort>(rt: &R, out: &[Op], calls: &str) -> bool {
    let mut at: usize = 0;
    for word in calls.split(' ') {
        if word != "-" {
            if !is_listed(rt, out, at, word) {
                return false;
            }
            at = at.wrapping_add(1);
        }
    }
    at == out.len()
}

/// The answer of a section that ends so: with its steps, or at a trap on a line, or where a step is too many.
fn wanted<R: Abort>(rt: &R, end: &str) -> SectionAnswer {
    let (end, word) = end.split_once(' ').unwrap_or((end, "0"));
    let line = number(rt, word);
    match end {
        "spent" => SectionAnswer::Spent,
        "outside" => SectionAnswer::Trapped(Trap {
            line,
            kind: TrapKind::OutOfRange,
        }),
        "divided" => SectionAnswer::Trapped(Trap {
            line,
            kind: TrapKind::ZeroDivisor,
        }),
        _ => SectionAnswer::Done {
            steps: u64::from(line),
        },
    }
}

/// The call of an operation with a number.
fn call<R: AllocGlobal + Abort>(rt: &R, receiver: u32, op: &str, argument: &str) -> Op {
    let mut args = Arguments::new(rt.alloc());
    args.push(Value::Long(long(rt, argument)))
        .expect(rt, "an argument");
    Op {
        receiver,
        op: OpId(number(rt, op)),
        args,
    }
}

/// Runs the section of a call on an object, and undoes it where that is asked for and it is done.
fn on_object<R: AllocGlobal + Abort>(
    rt: &R,
    desk: &mut Desk,
    coded: &Coded<'_>,
    heap: &Heap,
    object: &mut Object,
    op: &Op,
    left: u64,
    out: &mut Vec<Op>,
    undone: bool,
) -> SectionAnswer {
    let ran = section(desk, rt.alloc(), coded, heap, object, op, left, out);
    let answer = ran.expect(rt, "a section");
    if undone {
        if let SectionAnswer::Done { .. } = answer {
            desk.undo(object);
        }
    }
    answer
}

/// Runs the section of a row's call on a new desk, as its end asks for it.
fn run<R: AllocGlobal + Abort>(
    rt: &R,
    coded: &Coded<'_>,
    row: &str,
    end: &str,
    object: &mut Object,
    out: &mut Vec<Op>,
) -> SectionAnswer {
    let alloc = rt.alloc();
    let (receiver, row) = parts(rt, row, " ");
    let receiver = number(rt, receiver);
    let (op, row) = parts(rt, row, " ");
    let (argument, left) = parts(rt, row, " ");
    let left = u64::from(number(rt, left));
    let op = call(rt, receiver, op, argument);
    let heap = heap(rt, coded.program(), receiver.saturating_add(1));
    let mut desk = Desk::new(alloc).expect(rt, "a desk");
    let answer = if end.starts_with("frozen") {
        let ran = section_frozen(&mut desk, alloc, coded, &heap, &op, left, out);
        ran.expect(rt, "a section")
    } else {
        let undone = end.starts_with("undone");
        on_object(rt, &mut desk, coded, &heap, object, &op, left, out, undone)
    };
    let_go(op);
    let_go(heap);
    let_go(desk);
    answer
}

/// Whether a row holds.
fn is_told<R: AllocGlobal + Abort>(rt: &R, coded: &Coded<'_>, row: &str) -> bool {
    let (call, row) = parts(rt, row, " | ");
    let (puts, row) = parts(rt, row, " | ");
    let (end, row) = parts(rt, row, " | ");
    let (values, calls) = parts(rt, row, " | ");
    let mut object = object(rt, coded.program(), puts);
    let mut out = Vec::new(rt.alloc());
    let ends = run(rt, coded, call, end, &mut object, &mut out) == wanted(rt, end);
    let told = ends && holds(rt, &object, values) && lists(rt, out.as_slice(), calls);
    let_go(object);
    let_go(out);
    told
}

/// Ends the test unless all rows of the text hold.
pub fn tell<R: AllocGlobal + Abort>(rt: &R, text: &str, rows: &str) {
    let coded = coded(rt, text);
    for row in rows.lines() {
        assert!(rt; is_told(rt, coded, row), "{row}");
    }
}

/// A node that is visited for the first time visits its neighbours.
const GRAPH: &str =
    "class Graph { public: bool mark; long value; long sum; Graph *left; Graph *right;
    void init(long v, Graph *l, Graph *r) { value = v; left = l; right = r; }
    void visit(long p) { sum = sum + p; if (!mark) { mark = true;
      if (left != nullptr) left->visit(value); if (right != nullptr) right->visit(value); } }
    void pass(long p) { if (p > 0) this->visit(p + value); } };
    int main() { }";

/// Two nodes, of which the second points to the first; no step is left for a visit; one that is undone; and calls that are listed
/// by an operation that puts nothing.
const VISITS: &str = "1 1 3 1 | 1.0=5 3.0=r0 | done 1 | 0.0=t 1.0=5 2.0=3 3.0=r0 4.0=null | 0.1.5
1 1 3 0 | 1.0=5 3.0=r0 | spent | 0.0=f 1.0=5 2.0=0 3.0=r0 | -
1 1 3 9 | 1.0=5 2.0=4 3.0=r0 | undone 1 | 0.0=f 1.0=5 2.0=4 3.0=r0 | 0.1.5
1 2 3 9 | 1.0=5 | done 1 | 0.0=f 1.0=5 | 1.1.8
1 2 3 9 | 1.0=5 | frozen 1 | 1.0=5 | 1.1.3
1 2 0 1 | - | frozen 1 | - | -";

#[test]
fn visits_list_visits(rt: HostRuntime) {
    tell(&rt, GRAPH, VISITS);
}

/// Operations without arguments of note: many turns that put into one field, a deep value method, many puts
/// and then a trap, and reads of the own and of a foreign field behind a put.
const LONG: &str = "class A { public: long n; long k; long a[100000];
    long down(long m) { if (m == 0) return 0; return this->down(m - 1) + 1; }
    void turns(long m) { for (long i = 0; i < m; i++) n = n + i; }
    void deep(long m) { n = this->down(m); }
    void traps(long m) { for (long i = 0; i < m; i++) a[i] = i + 1; n = 1;
      a[m] = 1; }
    void reads(long m) { n = m; k = 10 * n + this->n;
      A *o = this; k = 10 * k + o->n; } };
    int main() { }";

const LONG_SECTIONS: &str = "0 0 1000000 1000001 | - | done 1000001 | 0.0=499999500000 | -
0 1 100000 1000000 | - | done 100002 | 0.0=100000 | -
0 2 100000 1000000 | - | outside 6 | 0.0=0 2.0=0 2.99999=0 | -
0 3 7 1 | - | done 1 | 1.0=770 | -";

#[test]
fn long_sections_end(rt: HostRuntime) {
    tell(&rt, LONG, LONG_SECTIONS);
}

/// A pair of bins, and a loop that calls each.
const PAIR: &str = "class Bin { public: Bin *b[2]; long n; void add(long v) { n = n + v; } };
    int main() { Bin *s = new Bin(); for (long i = 0; i < 2; i++) s->b[i]->add(i + 1); }";

/// A bin that has two others.
fn pair<R: AllocGlobal + Abort>(rt: &R, program: &Program) -> Heap {
    let mut heap = heap(rt, program, 3);
    assert!(rt; heap.has_slot(0, 0, 0));
    heap.store(0, 0, 0, Value::Ref(1));
    assert!(rt; heap.has_slot(0, 0, 1));
    heap.store(0, 0, 1, Value::Ref(2));
    heap
}

/// The section of the first loop that is handed on, where it stands on its own.
fn on_its_own<R: AllocGlobal + Abort>(
    rt: &R,
    desk: &mut Desk,
    program: &Program,
    heap: &Heap,
    locals: &mut Vec<Value>,
    left: u64,
    out: &mut Vec<Op>,
) -> SectionAnswer
    requires { ProgramTyped (program_view program.now) }
{
    let alloc = rt.alloc();
    let mut marks = Marks::none(alloc);
    marks.loops.push(LoopId(0)).expect(rt, "a mark");
    let Ok(code) = lay_out_marked(alloc, program, &marks) else {
        panic!(rt; "no code");
    };
    let_go(marks);
    let Ok((code, places)) = with_loops(alloc, program, code) else {
        panic!(rt; "no loops");
    };
    let Ok(laid) = Laid::of(alloc, code) else {
        panic!(rt; "nothing to run");
    };
    let laid = lent(rt, laid);
    let Ok(coded) = Coded::of(alloc, program, laid) else {
        panic!(rt; "no bodies that fit");
    };
    let coded = lent(rt, coded);
    let [found, ..] = places.as_slice() else {
        panic!(rt; "no loop");
    };
    let answer = section_of_loop(
        desk,
        alloc,
        coded,
        laid,
        found.place,
        heap,
        Value::Null,
        locals,
        found.types,
        found.line,
        found.s,
        left,
        out,
    );
    answer.expect(rt, "a section")
}

/// Whether the section of the loop ends so, with this counter behind it, and so does that of the loop by its number, which
/// lists its calls first; and whether these calls were listed by both.
fn bins_end<R: AllocGlobal + Abort>(
    rt: &R,
    program: &Program,
    left: u64,
    due: SectionAnswer,
    counter: i64,
    calls: &str,
) -> bool
    requires { ProgramTyped (program_view program.now) }
{
    let alloc = rt.alloc();
    let heap = pair(rt, program);
    let mut locals = Vec::new(alloc);
    locals.push(Value::Ref(0)).expect(rt, "a local");
    locals.push(Value::Long(7)).expect(rt, "a local");
    let mut out = Vec::new(alloc);
    let mut desk = Desk::new(alloc).expect(rt, "a desk");
    let found = section_loop(
        &mut desk,
        alloc,
        program,
        &heap,
        None,
        locals.as_slice(),
        LoopId(0),
        left,
        &mut out,
    );
    let found = found.expect(rt, "a section");
    let answer = on_its_own(rt, &mut desk, program, &heap, &mut locals, left, &mut out);
    let behind = [Value::Ref(0), Value::Long(counter)];
    let is_left = locals.as_slice() == behind.as_slice();
    let is_due = lists(rt, out.as_slice(), calls);
    let_go(out);
    let_go(heap);
    let_go(desk);
    found == due && answer == due && is_left && is_due
}

#[test]
fn a_loop_lists_its_calls(rt: HostRuntime) {
    let program = program(&rt, PAIR);
    let done = SectionAnswer::Done { steps: 2 };
    assert!(rt; bins_end(&rt, program, 2, done, 2, "1.0.1 2.0.2 1.0.1 2.0.2"));
    assert!(rt; bins_end(&rt, program, 1, SectionAnswer::Spent, 7, "-"));
}
