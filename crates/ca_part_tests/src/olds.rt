//! Old values.

use crate::sources::{let_go, program};
use ca_model::{Slot, Slots, Value};
use ca_undo::Olds;

/// Whether a field has this single value.
fn is_one(slots: &Slots, field: u32, value: Value) -> bool {
    match slots.get(field) {
        Some(Slot::One(found)) => *found == value,
        _ => false,
    }
}

/// What two fields hold after puts that are put back.
#[test]
fn puts_old_values_back(rt: HostRuntime) {
    let alloc = rt.alloc();
    let text = "class A { public: long n; bool b; }; int main() { }";
    let program = program(&rt, text);
    assert!(rt; program.classes.len() == 1);
    let mut slots = Slots::start(alloc, &program.classes[0].fields).expect(&rt, "slots");
    let mut olds = Olds::new(alloc);
    assert!(rt; slots.has(0, 0));
    olds.put(&mut slots, 0, 0, Value::Long(5))
        .expect(&rt, "a put");
    assert!(rt; slots.has(1, 0));
    olds.put(&mut slots, 1, 0, Value::Bool(true))
        .expect(&rt, "a put");
    assert!(rt; is_one(&slots, 0, Value::Long(5)));
    olds.put_back(&mut slots);
    assert!(rt; is_one(&slots, 0, Value::Long(0)) && is_one(&slots, 1, Value::Bool(false)));
    let_go(olds);
    let_go(slots);
}
