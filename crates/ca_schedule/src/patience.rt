//! How long the calling thread runs operations alone before the first round. No clause speaks of it.

ghost use Rattle.std.specs.Prelude.{◌<◌};

use crate::copies::may_copy;
use crate::policy::{ALONE, ALONE_AN_OBJECT, ALONE_AN_OBJECT_OF_SUMS, LIGHT, MANY_OBJECTS, REST};
use crate::roots::extent_of_calls;
use ca_parallel::Op;
use ca_replica::summed;
use ca_sections::Coded;
use std::alloc::Global;

/// What the calling thread ran ahead of the first round, and when that is enough. Whether the operations only sum is asked once, when
/// that makes a difference.
#[derive(Drop)]
pub struct Patience<'s> {
    alloc: Global,
    program: &'s Coded<'s>,
    first: &'s [Op],
    calls: usize,
    workers: u32,
    objects: u32,
    values: u32,
    enough: u64,
    light: u64,
    asks: bool,
    /// What ran weighs so much, it was so many operations and took so many steps.
    ran: u64,
    count: u64,
    steps: u64,
    ghost some: { 0 < workers },
}

impl<'s> Patience<'s> {
    /// For so many calls, which are these or come of these, so many workers, and a heap of so many objects and values.
    pub fn new(
        alloc: Global,
        program: &'s Coded<'s>,
        first: &'s [Op],
        calls: usize,
        workers: u32,
        objects: u32,
        values: u32,
    ) -> Patience<'s>
        requires { 0 < workers }
    {
        Patience {
            alloc,
            program,
            first,
            calls,
            workers,
            objects,
            values,
            enough: ALONE + ALONE_AN_OBJECT_OF_SUMS * u64::from(objects),
            light: u64::from(LIGHT),
            asks: true,
            ran: 0,
            count: 0,
            steps: 0,
        }
    }

    /// Notes that an operation ran in so many steps, of which the first weighs so much and each further one so much.
    pub fn went(&mut self, steps: u64, weight: u64, turn: u64) {
        let further = turn.saturating_mul(steps.saturating_sub(1));
        self.ran = self.ran.saturating_add(weight).saturating_add(further);
        self.count = self.count.saturating_add(1);
        self.steps = self.steps.saturating_add(steps);
    }

    /// The steps of all that ran.
    pub fn steps(&self) -> u64 {
        self.steps
    }

    /// Whether it is enough where the next operation weighs so much, and each further step of it, and so many wait that were listed, and
    /// so many in all. While a single one waits it isn't.
    pub fn is_over(&mut self, weight: u64, turn: u64, listed: u64, waits: u64) -> bool {
        if waits < 2 {
            return false;
        }
        if self.asks {
            if self.ran < self.enough {
                return false;
            }
            self.asks = false;
            self.decide();
        }
        if listed == 0 && self.rest(weight, turn, waits) < REST {
            return false;
        }
        let wait = self.mean(weight).saturating_mul(waits);
        if self.ran.saturating_add(wait).saturating_add(wait) < self.enough {
            return false;
        }
        let all = self.ran.saturating_add(weight.saturating_mul(listed));
        all >= self.count.saturating_add(listed).saturating_mul(self.light)
    }

    /// About how many tasks each worker runs where so many of the calls wait, and the others ran with what they listed, and a quarter
    /// more: on the mean each leads to as many as ran for one of these. None where they wait as tasks.
    pub fn tasks_of_each(&self, calls: usize) -> usize {
        let done = self.calls.saturating_sub(calls);
        let for_one = self.count as usize / done.max(1);
        let each = calls.saturating_mul(for_one) / self.workers as usize;
        each.saturating_add(each / 4)
    }

    /// About what the next operation weighs, of which a step weighs so much: as those that ran on the mean, if that is more.
    fn mean(&self, weight: u64) -> u64 {
        weight.max(self.ran / self.count.max(1))
    }

    /// About what so many operations weigh, each as this one with as many further steps as those took that ran, on the mean.
    fn rest(&self, weight: u64, turn: u64, waits: u64) -> u64 {
        let further = self.steps / self.count.max(1);
        weight
            .saturating_add(turn.saturating_mul(further))
            .saturating_mul(waits)
    }

    /// How much is enough, by what the operations do.
    fn decide(&mut self) {
        if self.only_sums() {
            self.enough = 0;
            self.light = 0;
        } else {
            let large = u64::from(self.objects / MANY_OBJECTS) + 1;
            let alone = ALONE + ALONE_AN_OBJECT * u64::from(self.objects);
            self.enough = alone.saturating_mul(large);
        }
    }

    /// Whether the rounds will be rounds of sums.
    fn only_sums(&self) -> bool {
        if !may_copy(self.workers, self.values) {
            return false;
        }
        match extent_of_calls(self.alloc, self.program, self.first) {
            Ok(extent) => summed(self.program.program(), &extent),
            Err(_) => false,
        }
    }
}
