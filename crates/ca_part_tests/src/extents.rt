//! Tests of `ca_extent`: from operations of small programs to their extents.

use crate::sources::{let_go, program};
use ca_extent::extent_of;
use ca_program::{ClassId, FieldId, FunctionId, OpId};

/// What is reached through a loop and from a value method, and what nobody calls.
#[test]
fn finds_extents(rt: HostRuntime) {
    let alloc = rt.alloc();
    let text = "class A { public: long n; long m; long f() { return g(); } long g() { return n; }\
        void a(long p) { while (p > 0) { b(); p = p - 1; } } void b() { m = m + f(); b(); }\
        void c() { n = 1; } }; int main() { }";
    let program = program(&rt, text);
    let first = extent_of(alloc, program, [OpId(0)].as_slice()).expect(&rt, "an extent");
    let last = extent_of(alloc, program, [OpId(2), OpId(2)].as_slice()).expect(&rt, "an extent");
    let n = FieldId {
        class: ClassId(0),
        field: 0,
    };
    let m = FieldId {
        class: ClassId(0),
        field: 1,
    };
    assert!(rt; first.ops() == [OpId(0), OpId(1)].as_slice());
    assert!(rt; first.functions() == [FunctionId(0), FunctionId(1)].as_slice());
    assert!(rt; first.written() == [m].as_slice());
    assert!(rt; first.is_constant(n) && !first.is_constant(m));
    assert!(rt; last.ops() == [OpId(2)].as_slice());
    assert!(rt; last.is_constant(m) && !last.is_constant(n));
    let_go(first);
    let_go(last);
}
