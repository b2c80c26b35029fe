//! Which tasks stay together: neighbours of one receiver, which one claim serves.
//!
//! A row tells for each operation, by its number, whether it takes a lock. Those that stand past its end stay with none. An
//! empty row says that nothing takes a lock, and then none is looked at.

ghost use Rattle.std.specs.Prelude.{◌≡◌, ◌<◌, ◌≤◌, true, length};

use ca_logs::Task;
use ca_program::OpId;

/// How many tasks an item has at most where operations take locks, and how many one claim serves.
const MANY: usize = 16;

/// How many tasks an item has at most where nothing takes a lock.
const MANY_FREE: usize = 64;

/// How many tasks an item has at most, by the row.
fn most_in(locks: &[bool]) -> usize
    ensures { 0 < result }
{
    if locks.len() == 0 { MANY_FREE } else { MANY }
}

/// How many of so many tasks go into one item.
pub(crate) fn together(tasks: usize, locks: &[bool]) -> usize
    ensures { 0 < result }
{
    let part = tasks / 4;
    if part < 1 {
        return 1;
    }
    let most = most_in(locks);
    if part < most { part } else { most }
}

/// So many, but no more than one claim serves.
pub(crate) fn at_most_many(most: usize) -> usize
    ensures few { (result ≤ most) × (result ≤ 16) }
    ensures some { 0 < most → 0 < result }
{
    if most < MANY { most } else { MANY }
}

/// Whether the operation takes a lock, by the row.
#[inline]
fn takes_lock(locks: &[bool], op: OpId) -> bool {
    let at = op.0 as usize;
    if at < locks.len() { locks[at] } else { false }
}

/// Whether a task is of this receiver, and its operation takes a lock.
#[inline]
pub(crate) fn is_of(task: &Task, receiver: u32, locks: &[bool]) -> bool
    ensures { result ≡ true → task.now.op.receiver ≡ receiver }
{
    if task.op.receiver == receiver {
        return takes_lock(locks, task.op.op);
    }
    false
}

/// Whether the newest task of a share is of this receiver, and its operation takes a lock.
#[inline]
pub fn has_neighbour(share: &Vec<Task>, receiver: u32, locks: &[bool]) -> bool {
    let count = share.len();
    if count == 0 {
        return false;
    }
    is_of(&share[count - 1], receiver, locks)
}

/// Whether a list that is cut in two at this place is cut between neighbours.
fn is_between(tasks: &[Task], at: usize, locks: &[bool]) -> bool
    requires { (0 < at) × (at < length tasks.now) }
{
    let task = &tasks[at];
    if is_of(&tasks[at - 1], task.op.receiver, locks) {
        return takes_lock(locks, task.op.op);
    }
    false
}

/// How many of the last tasks stay together: so many, and those before them that are neighbours of the first of these, as
/// far as they are at most one more than an item has.
fn whole(tasks: &[Task], count: usize, locks: &[bool]) -> usize
    requires { (0 < count) × (0 < length tasks.now) }
    ensures { 0 < result }
{
    let all = tasks.len();
    if locks.len() == 0 {
        return if count < all { count } else { all };
    }
    let least = all.saturating_sub(MANY + 1);
    let mut at = all.saturating_sub(count);
    'run: while least < at {
        if !is_between(tasks, at, locks) {
            break;
        }
        at -= 1;
    }
    all - at
}

/// How many of the last tasks go into one item: so many, or more where neighbours stay together.
pub(crate) fn in_item(tasks: &[Task], count: usize, locks: &[bool]) -> usize
    requires { (0 < count) × (0 < length tasks.now) }
    ensures { 0 < result }
{
    let many = whole(tasks, count, locks);
    let most = most_in(locks);
    if many < most { many } else { most }
}

/// How many of the newest tasks of a share are opened to others as one item: none where they are all that there are, or
/// more neighbours than an item has, which others would only wait for.
pub(crate) fn to_open(share: &[Task], locks: &[bool]) -> usize
    requires { 0 < length share.now }
{
    let many = whole(share, together(share.len(), locks), locks);
    if most_in(locks) < many || share.len() <= many {
        0
    } else {
        many
    }
}
