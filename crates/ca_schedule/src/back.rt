//! The way back of a list that has begun rounds: what its rounds are expected to meet, what one met, and whether others come behind it. No
//! clause speaks of it.

use crate::policy::{
    FREE_TASK, FRESH_OBJECT, LOCKED_TASK, SUM_TASK, TOO_DEAR, TRIED, WHOLE, of_workers,
};
use crate::sampling::Counts;

/// What was told by a sample of a list that gains by rounds of so many workers.
#[derive(Clone, Copy)]
pub struct Expected {
    workers: u32,
    /// What a step weighs on the mean; 0 where nothing was tried.
    step: u64,
    /// Whether an operation weighs less than its task costs in a round of sums.
    light: bool,
}

/// What a round met: so many operations, of which so many took a lock, so many steps of theirs, and so many objects that took a lock.
#[derive(Clone, Copy)]
pub struct Met {
    pub ran: u64,
    pub locked: u64,
    pub steps: u64,
    pub objects: u64,
}

/// What a step weighs on the mean of those that were counted, and 1 at least.
pub fn step_of(counts: Counts) -> u64 {
    (counts.parts / counts.steps.max(1)).max(1)
}

/// Whether an operation weighs less than its task costs in a round of sums.
pub fn is_light_sum(counts: Counts) -> bool {
    counts.parts < counts.ran.saturating_mul(SUM_TASK)
}

impl Expected {
    /// Nothing was tried: rounds go on whatever one meets.
    pub fn nothing() -> Expected {
        Expected {
            workers: 0,
            step: 0,
            light: false,
        }
    }

    /// What was counted, for so many workers.
    pub fn of(workers: u32, step: u64, light: bool) -> Expected {
        Expected {
            workers,
            step,
            light,
        }
    }

    /// Whether rounds in cells go on behind one that met this: it tells no more than the sample did, or didn't cost too much for what it ran.
    pub fn goes_on(&self, met: Met) -> bool {
        if self.step == 0 || met.ran < TRIED {
            return true;
        }
        // One lock is taken by one worker at a time.
        if met.locked > 0 && met.objects < 2 {
            return false;
        }
        let free = met.ran.saturating_sub(met.locked);
        let cost = met
            .locked
            .saturating_mul(LOCKED_TASK)
            .saturating_add(free.saturating_mul(FREE_TASK))
            .saturating_add(met.objects.saturating_mul(FRESH_OBJECT));
        let work = met.steps.saturating_mul(self.step);
        work.saturating_mul(TOO_DEAR) >= of_workers(cost, self.workers)
    }

    /// Whether rounds of sums go on behind one in which so many calls took so many steps: light operations gain only where calls are run whole.
    pub fn sums_go_on(&self, calls: usize, steps: u64) -> bool {
        !self.light || steps / (WHOLE as u64) <= calls as u64
    }
}
