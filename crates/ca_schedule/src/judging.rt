//! Whether a list gains by rounds, from what was counted of it. No clause speaks of it.

use crate::policy::{
    FREE_TASK, FRESH_OBJECT, LEADS, LOCKED_TASK, OFTEN, SUM_TASK, WHOLE, WORTH, WORTH_AT_ONCE,
    of_workers,
};
use crate::sampling::Counts;

/// About how many steps a call takes; where none ended, and none listed many, more than can be told.
pub fn steps_of_each(counts: Counts) -> u32 {
    if counts.ended == 0 && !counts.wide {
        return u32::MAX;
    }
    let all = counts.steps.saturating_add(counts.rest);
    let each = all / counts.begun.max(1);
    if each >= u64::from(u32::MAX) {
        return u32::MAX;
    }
    (each as u32).max(1)
}

/// To about how many operations a call leads, with itself: as far as they were listed.
pub fn leads_of(counts: Counts) -> u32 {
    let all = counts.ran.saturating_add(counts.waiting) / counts.begun.max(1);
    all.max(1).min(65_536) as u32
}

/// Whether so many calls are worth a round's start, each of which takes about so many steps.
pub fn is_worth(calls: usize, each: u32) -> bool {
    (calls as u64).saturating_mul(u64::from(each)) >= WORTH
}

/// Whether they are worth that a round begins at once.
pub fn is_worth_at_once(calls: usize, each: u32) -> bool {
    each < u32::MAX && (calls as u64).saturating_mul(u64::from(each)) >= WORTH_AT_ONCE
}

/// Whether so many calls lead to many operations for each of so many objects, so that they come to the same ones again and again.
fn comes_often(counts: Counts, calls: usize, objects: u32) -> bool {
    let below = counts.callers.saturating_mul(counts.ran) / OFTEN;
    if below >= u64::from(objects) {
        return true;
    }
    let all = (calls as u64).saturating_mul(u64::from(leads_of(counts)));
    counts.begun >= 2 && all / OFTEN >= u64::from(objects)
}

/// Whether rounds of sums pay: each operation takes longer than its task; or calls are run whole, lead to some operations, and come to the
/// same objects again.
fn sums_pay(counts: Counts, often: bool, workers: u32) -> bool {
    if counts.parts >= of_workers(counts.ran.saturating_mul(SUM_TASK), workers) {
        return true;
    }
    if counts.objects.saturating_mul(2) > counts.ran && !often {
        return false;
    }
    u64::from(leads_of(counts)) >= LEADS && steps_of_each(counts) as usize <= WHOLE
}

/// How many of the operations came to an object that none came to before, if the others of the list do as these: where they came to half of
/// those that may be tried by those behind.
fn fresh_of(counts: Counts) -> u64 {
    if counts.ran <= counts.half {
        return counts.objects;
    }
    let later = counts.objects.saturating_sub(counts.near);
    let behind = counts.ran.saturating_sub(counts.half).max(1);
    counts.ran.saturating_mul(later) / behind
}

/// Whether rounds in cells pay: what runs takes as long as what the tasks cost, and the objects that they come to.
///
/// With four workers what takes W, and costs O more, takes (W + O) / 4: half as long as by one where W is O, at twice the processor time.
fn cells_pay(counts: Counts, often: bool, workers: u32) -> bool {
    if counts.locked == 0 {
        let tasks = counts.ran.saturating_add(counts.waiting);
        return counts.parts >= of_workers(tasks.saturating_mul(LOCKED_TASK), workers);
    }
    // One lock is taken by one worker at a time.
    if counts.objects < 2 {
        return false;
    }
    let free = counts.ran.saturating_sub(counts.locked);
    let fresh = if often { 0 } else { fresh_of(counts) };
    let cost = counts
        .locked
        .saturating_mul(LOCKED_TASK)
        .saturating_add(free.saturating_mul(FREE_TASK))
        .saturating_add(fresh.saturating_mul(FRESH_OBJECT));
    counts.parts >= of_workers(cost, workers)
}

/// Whether so many calls gain by rounds of so many workers, on a heap of so many objects, where all only sum or not.
pub fn pays(counts: Counts, calls: usize, objects: u32, workers: u32, sums: bool) -> bool {
    let often = comes_often(counts, calls, objects);
    if sums {
        sums_pay(counts, often, workers)
    } else {
        cells_pay(counts, often, workers)
    }
}
