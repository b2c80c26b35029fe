//! Whether each worker may keep a copy of what an extent writes, and whether an object is too large for a copy of it to be worth what few or light
//! operations do.

ghost use Rattle.std.specs.Prelude.{◌↔◌, ◌<◌, ◌≤◌, ◌*◌, IsTrue};

use crate::policy::{LARGE_ARRAY, MOST_COPIED};
use ca_model::Heap;
use ca_parallel::Op;

/// Whether a copy of so many values for each worker isn't too much.
pub fn may_copy(workers: u32, values: u32) -> bool
    requires { 0 < workers }
    ensures { IsTrue result ↔ (values * workers ≤ 16000000) }
{
    u64::from(values) <= MOST_COPIED / u64::from(workers)
}

/// Whether an object has a field of so many items that it isn't copied for a sample.
pub fn is_large(heap: &Heap, number: u32) -> bool {
    if heap.values() <= LARGE_ARRAY {
        return false;
    }
    if number >= heap.len() {
        return false;
    }
    let fields = heap.get(number).slots.len().min(u32::MAX as usize) as u32;
    'fields: for field in 0..fields {
        if heap.has_slot(number, field, LARGE_ARRAY) {
            return true;
        }
    }
    false
}

/// Whether one of these calls is on such an object.
pub fn some_large(heap: &Heap, calls: &[Op]) -> bool {
    if heap.values() <= LARGE_ARRAY {
        return false;
    }
    'calls: for op in calls {
        if is_large(heap, op.receiver) {
            return true;
        }
    }
    false
}
