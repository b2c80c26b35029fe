//! What is known of a program and of its lists: of each operation and each marked loop, learned once. No clause speaks of it.

use crate::back::{Expected, is_light_sum, step_of};
use crate::judging::{is_worth, leads_of};
use crate::policy::{FIRST_STEPS, SEEN, SHORT};
use crate::reaches::{is_light, is_long, is_small, reach_of, reach_of_all, unknown_reach};
use crate::sampling::Counts;
use crate::texts::{add_calls, calls_told, marked_loops, site_of};
use crate::weights::{Known, Reach, UNTOLD, weights_of};
use ca_parallel::{Marks, Op};
use ca_program::{LoopId, OpId, Program, Stmt};
use std::alloc::Global;

/// What is known of a marked loop: what the operations that it calls reach, the first of them, and how many calls it lists, where its
/// text tells.
#[derive(Clone, Copy)]
pub struct KnownLoop {
    pub reach: Reach,
    pub op: OpId,
    pub count: usize,
}

/// What is known of a program and of its lists.
#[derive(Drop)]
pub struct Tables {
    pub known: Vec<Known>,
    /// By the numbers of loops.
    loops: Vec<KnownLoop>,
}

impl Tables {
    /// Nothing is known yet.
    pub fn new(alloc: Global) -> Tables {
        Tables {
            known: Vec::new(alloc),
            loops: Vec::new(alloc),
        }
    }

    /// Learns a program with its marks. Without memory for it, or for other programs, it is only less well known how lists are best run.
    pub fn learn(&mut self, alloc: Global, program: &Program, marks: &Marks) {
        if let Ok(known) = weights_of(alloc, program) {
            self.known = known;
        }
        'operations: for op in marks.ops.as_slice() {
            let reach = reach_of(alloc, program, &mut self.known, *op);
            self.note_plain(*op, is_light(reach, false) || is_long(reach));
        }
        let found = marked_loops(alloc, program, marks);
        'loops: for at in 0..found.len() {
            let s = found[at];
            if let Some(site) = site_of(s) {
                let of = self.loop_of(alloc, program, s);
                self.keep(site, of);
            }
        }
    }

    /// Notes whether a call of an operation runs in order by its text.
    fn note_plain(&mut self, op: OpId, plain: bool) {
        let number = op.0 as usize;
        if number < self.known.len() {
            let item = &mut self.known[number];
            item.plain = plain;
        }
    }

    /// What is known of a loop by its text.
    fn loop_of(&self, alloc: Global, program: &Program, s: &Stmt) -> KnownLoop {
        let mut ops = Vec::new(alloc);
        add_calls(s, &mut ops);
        let reach = reach_of_all(alloc, program, &self.known, ops.as_slice());
        let count = calls_told(s, ops.len());
        let op = if ops.len() > 0 {
            ops[0]
        } else {
            OpId(u32::MAX)
        };
        KnownLoop { reach, op, count }
    }

    /// Keeps what is known of the loop with a number, as far as there is room.
    fn keep(&mut self, site: LoopId, of: KnownLoop) {
        let number = site.0 as usize;
        'loops: for _ in self.loops.len()..number.saturating_add(1) {
            let none = KnownLoop {
                reach: unknown_reach(),
                op: OpId(u32::MAX),
                count: UNTOLD,
            };
            let _kept = self.loops.push(none);
        }
        if number < self.loops.len() {
            self.loops[number] = of;
        }
    }

    /// What is known of the operations.
    pub fn known(&mut self) -> &mut Vec<Known> {
        &mut self.known
    }

    /// What is known of a loop.
    pub fn known_loop(&self, site: LoopId) -> Option<KnownLoop> {
        let number = site.0 as usize;
        if number < self.loops.len() {
            Some(self.loops[number])
        } else {
            None
        }
    }

    /// What is known of an operation.
    fn known_op(&self, op: OpId) -> Option<&Known> {
        let number = op.0 as usize;
        if number < self.known.len() {
            Some(&self.known[number])
        } else {
            None
        }
    }

    /// Whether so many operations of lists that begin with one of this were tried that it is believed that none gains.
    pub fn never_gains(&self, op: OpId) -> bool {
        match self.known_op(op) {
            Some(item) => item.learned.tried >= SEEN && item.learned.each == Some(0),
            None => false,
        }
    }

    /// Whether so many calls that begin with one of this operation run in order since those that were tried gained nothing, or are soon
    /// done. How many there are is believed where it is told; where the text doesn't tell what they take, some have to have been tried.
    fn stays(&self, reach: Reach, op: OpId, calls: usize, told: bool) -> bool {
        let Some(item) = self.known_op(op) else {
            return false;
        };
        let each = item.learned.each.unwrap_or(u32::MAX);
        if is_small(reach) {
            return !is_worth(calls, each);
        }
        if item.learned.tried < SEEN {
            return false;
        }
        each == 0 || (told && !is_worth(calls, each))
    }

    /// Whether a call of an operation runs in order in the heap itself.
    pub fn is_call_in_order(&self, op: OpId) -> bool {
        let Some(item) = self.known_op(op) else {
            return false;
        };
        if item.plain {
            return true;
        }
        match item.reach {
            Some(reach) => self.stays(reach, op, 1, true),
            None => false,
        }
    }

    /// How many calls a loop lists: as many as its text tells, or as the last list had that began with such a call.
    pub fn count_of(&self, of: KnownLoop) -> usize {
        if of.count != UNTOLD {
            return of.count;
        }
        match self.known_op(of.op) {
            Some(item) => item.count,
            None => UNTOLD,
        }
    }

    /// Whether the calls of a loop run in order in the heap itself, wherever few objects don't decide.
    pub fn is_loop_in_order(&self, of: KnownLoop) -> bool {
        let told = of.count != UNTOLD;
        is_light(of.reach, true) || self.stays(of.reach, of.op, self.count_of(of), told)
    }

    /// Within how many steps the first calls of a loop are listed: the most that there are where it is known that it gains, or is short.
    pub fn first_steps(&self, of: KnownLoop) -> u64 {
        let count = self.count_of(of);
        if count < SHORT {
            return u64::MAX;
        }
        match self.known_op(of.op) {
            Some(item) => {
                if item.learned.each.unwrap_or(0) > 0 {
                    u64::MAX
                } else {
                    FIRST_STEPS
                }
            }
            None => u64::MAX,
        }
    }

    /// About how many steps a call takes of a list that begins so, which gains by rounds; 0 of one that doesn't gain. `None`: it is to be
    /// tried. Where few operations were tried, and gained nothing, the next list is, and then the next but one, and so on, twice as many
    /// between each time.
    pub fn steps_now(&mut self, first: &[Op]) -> Option<u32> {
        if first.len() == 0 {
            return Some(0);
        }
        let number = first[0].op.0 as usize;
        if number >= self.known.len() {
            return Some(u32::MAX);
        }
        let item = &mut self.known[number];
        let told = item.learned.each;
        if item.learned.tried >= SEEN || told.unwrap_or(0) > 0 {
            return told;
        }
        if item.learned.since < item.learned.next {
            item.learned.since += 1;
            return told;
        }
        item.learned.since = 0;
        item.learned.next = item.learned.next.saturating_mul(2).max(1);
        None
    }

    /// To about how many operations a call of a list leads that begins so.
    pub fn leads(&self, first: &[Op]) -> usize {
        if first.len() == 0 {
            return 1;
        }
        match self.known_op(first[0].op) {
            Some(item) => item.learned.leads as usize,
            None => 1,
        }
    }

    /// Notes the steps of each call of a list, 0 where it gains nothing, and what was counted of those that were tried.
    pub fn note_steps(&mut self, first: &[Op], each: u32, counts: Counts) {
        if first.len() == 0 {
            return;
        }
        let number = first[0].op.0 as usize;
        if number < self.known.len() {
            let item = &mut self.known[number];
            item.learned.each = Some(each);
            item.learned.leads = leads_of(counts);
            item.learned.step = step_of(counts);
            item.learned.light = is_light_sum(counts);
            item.learned.tried = item
                .learned
                .tried
                .saturating_add(counts.ran.min(65_536) as u32);
        }
    }

    /// What rounds of a list are expected to meet: nothing is known of one that began though its sample didn't say that it gains.
    pub fn expected(&self, workers: u32, first: &[Op]) -> Expected {
        if first.len() == 0 {
            return Expected::nothing();
        }
        let Some(item) = self.known_op(first[0].op) else {
            return Expected::nothing();
        };
        if item.learned.each.unwrap_or(0) == 0 {
            return Expected::nothing();
        }
        Expected::of(workers, item.learned.step, item.learned.light)
    }

    /// Notes that a list gained nothing though its sample said that it does, or can't be tried: it is believed of all to come.
    pub fn note_loss(&mut self, first: &[Op]) {
        if first.len() == 0 {
            return;
        }
        let number = first[0].op.0 as usize;
        if number < self.known.len() {
            let item = &mut self.known[number];
            item.learned.each = Some(0);
            item.learned.tried = item.learned.tried.max(SEEN);
        }
    }

    /// Notes how many calls a list has that comes.
    pub fn note(&mut self, first: &[Op]) {
        if first.len() < 2 {
            return;
        }
        let number = first[0].op.0 as usize;
        if number < self.known.len() {
            let item = &mut self.known[number];
            item.count = first.len();
        }
    }
}
