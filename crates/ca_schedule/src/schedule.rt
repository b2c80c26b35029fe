//! How a marked list is run, decided by what is known of it: by its text, by a sample, and by what was learned of lists before it. It is
//! asked in this order, and the first answer counts:
//!
//! 1. before anything is listed, of a mark: `in_order`;
//! 2. of the first calls of a loop that isn't soon listed: `gains`;
//! 3. of a whole list: `treatment`.
//!
//! Each answer is sound, so no clause speaks of it.

ghost use Rattle.std.specs.Prelude.{◌≡◌, ◌<◌, IfOk};
ghost use Rattle.ca_schedule.specs.Fewer.{FewerMarks};

use crate::back::Expected;
use crate::copies::{may_copy, some_large};
use crate::habits::Habit;
use crate::judging::{is_worth, is_worth_at_once, pays, steps_of_each};
use crate::policy::{ALONE, FEW_OBJECTS, MOST_AT_ONCE};
use crate::reaches::{all_brief, all_light, is_long, some_long};
use crate::roots::extent_of_calls;
use crate::sampling::Sampler;
use crate::tables::Tables;
use crate::thinning::thinned;
use crate::weights::{Known, greatest_weight};
use ca_model::Heap;
use ca_parallel::{Marks, Op};
use ca_program::{LoopId, Program};
use ca_replica::summed;
use ca_sections::Coded;
use ca_steps::Mark;
use std::alloc::{AllocError, Global};

/// How a list is run.
#[derive(Clone, Copy)]
pub enum Treatment {
    /// In the heap itself and in order, as one worker runs it.
    InOrder,
    /// In rounds from the first on, in which each worker is expected to run so many operations.
    Rounds { each: usize },
    /// On the calling thread until that is enough, and then in rounds.
    AloneFirst,
}

/// What is known of a program and of its lists, for so many workers.
#[derive(Drop)]
pub struct Schedule {
    alloc: Global,
    workers: u32,
    tables: Tables,
    habit: Habit,
    sampler: Sampler,
    ghost some: { 0 < workers },
}

impl Schedule {
    /// Nothing is known yet. It takes no memory.
    pub fn new(alloc: Global, workers: u32) -> Schedule
        requires { 0 < workers }
    {
        Schedule {
            alloc,
            workers,
            tables: Tables::new(alloc),
            habit: Habit::new(),
            sampler: Sampler::new(alloc),
        }
    }

    /// Learns a program with its marks.
    pub fn learn(&mut self, program: &Program, marks: &Marks) {
        self.tables.learn(self.alloc, program, marks);
    }

    /// The marks that are handed on: a marked operation that only opens marked loops leaves its mark to them, so that their calls are listed
    /// under `gains`.
    pub fn fewer_marks(&mut self, program: &Program, marks: &Marks) -> Result<Marks, AllocError>
        ensures { IfOk result (λ fewer. FewerMarks fewer marks.now) }
    {
        thinned(self.alloc, program, marks, &mut self.tables.known)
    }

    /// What is known of the program's operations.
    pub fn known(&mut self) -> &mut Vec<Known> {
        self.tables.known()
    }

    /// Whether what is marked would run in order in the heap itself, with so many objects there.
    pub fn in_order(&self, objects: u32, mark: Mark) -> bool {
        match mark {
            Mark::Call(op) => self.tables.is_call_in_order(op),
            Mark::Loop(site) => self.is_loop_in_order(objects, site),
        }
    }

    fn is_loop_in_order(&self, objects: u32, site: LoopId) -> bool {
        let Some(of) = self.tables.known_loop(site) else {
            return false;
        };
        if is_long(of.reach) || self.tables.never_gains(of.op) {
            return true;
        }
        if !self.tables.is_loop_in_order(of) {
            return false;
        }
        objects >= FEW_OBJECTS || self.habit.would_go_alone(self.tables.count_of(of))
    }

    /// Within how many steps the first calls of a marked loop are listed, which `gains` looks at: the most that there are where it is to be
    /// listed whole.
    pub fn first_steps(&self, mark: Mark) -> u64 {
        match mark {
            Mark::Call(_) => u64::MAX,
            Mark::Loop(site) => match self.tables.known_loop(site) {
                Some(of) => self.tables.first_steps(of),
                None => u64::MAX,
            },
        }
    }

    /// Whether the loop gains by rounds whose first calls are these.
    pub fn gains(&mut self, program: &Coded<'_>, heap: &Heap, first: &[Op], left: u64) -> bool {
        if first.len() == 0 || (heap.len() < FEW_OBJECTS && first.len() <= MOST_AT_ONCE) {
            return true;
        }
        if self.is_plain(program, first) {
            return false;
        }
        self.steps_by_rounds(program, heap, first, left) > 0
    }

    /// Whether the text of the calls tells that they run in order.
    fn is_plain(&mut self, program: &Coded<'_>, first: &[Op]) -> bool {
        let alloc = self.alloc;
        let known = &mut self.tables.known;
        some_long(alloc, program.program(), known, first)
            || all_light(alloc, program.program(), known, first)
    }

    /// Whether the rounds of these calls would be rounds of sums.
    fn only_sums(&self, program: &Coded<'_>, heap: &Heap, first: &[Op]) -> bool {
        if !may_copy(self.workers, heap.values()) {
            return false;
        }
        match extent_of_calls(self.alloc, program, first) {
            Ok(extent) => summed(program.program(), &extent),
            Err(_) => false,
        }
    }

    /// About how many steps each of some calls takes, where they gain by rounds; 0 where they don't. They are tried where that isn't known.
    fn steps_by_rounds(
        &mut self,
        program: &Coded<'_>,
        heap: &Heap,
        first: &[Op],
        left: u64,
    ) -> u32 {
        if let Some(each) = self.tables.steps_now(first) {
            return each;
        }
        let known = &mut self.tables.known;
        let Some(counts) = self.sampler.sample(program, heap, known, first, left) else {
            self.tables.note_loss(first);
            return 0;
        };
        let sums = self.only_sums(program, heap, first);
        let gains = pays(counts, first.len(), heap.len(), self.workers, sums);
        let each = if gains { steps_of_each(counts) } else { 0 };
        self.tables.note_steps(first, each, counts);
        each
    }

    /// Whether a list begins with a round since there are few objects, so that it costs what it touches; unless those before it weren't worth
    /// one, a large object would be copied for it, or enough of it was tried, and gains nothing.
    fn few_begin(&mut self, program: &Coded<'_>, heap: &Heap, first: &[Op], left: u64) -> bool {
        if first.len() < 2 || heap.len() >= FEW_OBJECTS || self.habit.goes_alone(first.len()) {
            return false;
        }
        if some_large(heap, first) {
            return false;
        }
        if all_brief(self.alloc, program.program(), &mut self.tables.known, first) {
            return true;
        }
        let each = self.steps_by_rounds(program, heap, first, left);
        each > 0 || !self.tables.never_gains(first[0].op)
    }

    /// How a list is run.
    pub fn treatment(
        &mut self,
        program: &Coded<'_>,
        heap: &Heap,
        first: &[Op],
        left: u64,
    ) -> Treatment {
        self.tables.note(first);
        if some_long(self.alloc, program.program(), &mut self.tables.known, first) {
            return Treatment::InOrder;
        }
        if self.few_begin(program, heap, first, left) {
            return self.rounds(first);
        }
        if all_light(self.alloc, program.program(), &mut self.tables.known, first) {
            return Treatment::InOrder;
        }
        let each = self.steps_by_rounds(program, heap, first, left);
        if !is_worth(first.len(), each) {
            return Treatment::InOrder;
        }
        let two_each = first.len() >= (self.workers as usize).saturating_mul(2);
        if two_each && is_worth_at_once(first.len(), each) {
            self.habit.was_large();
            return self.rounds(first);
        }
        Treatment::AloneFirst
    }

    /// In rounds, of which the first is as long as all is expected to take, and a quarter more.
    fn rounds(&self, first: &[Op]) -> Treatment {
        let all = first.len().saturating_mul(self.tables.leads(first));
        let share = all / (self.workers as usize).max(1);
        Treatment::Rounds {
            each: share.saturating_add(share / 4),
        }
    }

    /// What the rounds of a list are expected to meet.
    pub fn expected(&self, first: &[Op]) -> Expected {
        self.tables.expected(self.workers, first)
    }

    /// Notes whether the rounds of a list met no more than was expected: else it is believed that lists that begin alike gain nothing.
    pub fn note_rounds(&mut self, first: &[Op], as_expected: bool) {
        if !as_expected {
            self.tables.note_loss(first);
        }
    }

    /// Notes how a list ended that began with a round, in so many steps.
    pub fn ended(&mut self, first: &[Op], ended: Option<u64>) {
        let Some(steps) = ended else {
            return;
        };
        let weight = greatest_weight(&self.tables.known, first);
        if steps < ALONE && steps.saturating_mul(weight) < ALONE {
            self.habit.was_small();
        }
    }

    /// Notes that a list outlasted its run alone.
    pub fn outlasted(&mut self) {
        self.habit.was_large();
    }
}
