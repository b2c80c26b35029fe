//! What is tried of a list: some of its operations run beside the heap and past no gate, are counted, and are forgotten. Only objects of those
//! that take a lock are copied. No clause speaks of it: it leaves the heap, which is lent, as it was.

ghost use Rattle.std.specs.Prelude.{◌<◌};

use crate::copies::is_large;
use crate::neighbours::takes_lock;
use crate::policy::{LOCKED_TASK, PLACES, TRIED, TRIED_BY_ONE, TRIED_OF_FEW, TRIED_PARTS, WIDE};
use crate::weights::{Known, calls_in_loop, turn_of, weight_of};
use ca_base::{Memory, OpenGate};
use ca_beside::Beside;
use ca_model::Heap;
use ca_parallel::Op;
use ca_run::{Progress, run_some};
use ca_sections::{Coded, Desk, SectionAnswer, section_frozen};
use std::alloc::Global;
use std::mem;

/// What was tried of a list.
#[derive(Clone, Copy)]
pub struct Counts {
    /// So many operations ran, in so many steps, which weigh so much, and so many of them took a lock.
    pub ran: u64,
    pub steps: u64,
    pub parts: u64,
    pub locked: u64,
    /// So many calls were begun, and so many of these ended.
    pub begun: u64,
    pub ended: u64,
    /// So many operations wait behind them, of which so many call others in a loop. They are taken to take so many steps.
    pub waiting: u64,
    pub callers: u64,
    pub rest: u64,
    /// A call listed many.
    pub wide: bool,
    /// Those with a lock came to so many objects; so many operations, half of those that may be tried, came to so many.
    pub objects: u64,
    pub half: u64,
    pub near: u64,
}

/// A walk from a place of a list on.
#[derive(Drop)]
struct Walk {
    next: usize,
    waiting: Vec<Op>,
    /// The most that waited, and the steps before that.
    peak: usize,
    before: u64,
    /// What was tried here weighs so much.
    spent: u64,
}

/// Runs samples, and keeps the memory that they took.
#[derive(Drop)]
pub struct Sampler {
    alloc: Global,
    beside: Beside,
    desk: Option<Desk>,
}

/// The operation that runs next: the last one that waits, and where none waits the next one of those that were handed in.
pub fn at_hand<'o>(ops: &'o [Op], next: usize, waiting: &'o Vec<Op>) -> Option<&'o Op> {
    if let Some(op) = waiting.last() {
        return Some(op);
    }
    if next < ops.len() {
        Some(&ops[next])
    } else {
        None
    }
}

/// How many operations are tried on a heap of so many objects.
fn tries(objects: u32) -> u64 {
    TRIED.min(TRIED_OF_FEW + 2 * u64::from(objects))
}

/// At how many places a list of so many calls is tried: a short one from its first call on.
fn places_of(calls: usize) -> usize
    ensures { 0 < result }
{
    if calls <= PLACES { 1 } else { PLACES }
}

/// So many calls from a place on, as far as there are.
fn some_from(calls: &[Op], from: usize, count: usize) -> &[Op] {
    if from >= calls.len() {
        return &calls[calls.len()..];
    }
    let rest = &calls[from..];
    if count < rest.len() {
        &rest[..count]
    } else {
        rest
    }
}

/// The steps of a section that is done.
fn steps_in(went: Result<SectionAnswer, Memory>) -> Option<u64> {
    match went {
        Ok(SectionAnswer::Done { steps }) => Some(steps),
        Ok(SectionAnswer::Trapped(_)) => None,
        Ok(SectionAnswer::Spent) => None,
        Err(_) => None,
    }
}

/// Runs the next operation of a walk, which takes no lock, on its object as it is in the heap. Its steps, where it is done.
fn run_free(
    desk: &mut Desk,
    alloc: Global,
    program: &Coded<'_>,
    heap: &Heap,
    calls: &[Op],
    left: u64,
    walk: &mut Walk,
) -> Option<u64> {
    if let Some(op) = walk.waiting.pop() {
        let went = section_frozen(desk, alloc, program, heap, &op, left, &mut walk.waiting);
        desk.give_back(op);
        return steps_in(went);
    }
    let at = walk.next;
    if at >= calls.len() {
        return None;
    }
    walk.next = at + 1;
    let went = section_frozen(
        desk,
        alloc,
        program,
        heap,
        &calls[at],
        left,
        &mut walk.waiting,
    );
    steps_in(went)
}

impl Counts {
    /// Nothing was tried yet, of so many at most.
    fn none(most: u64) -> Counts {
        Counts {
            ran: 0,
            steps: 0,
            parts: 0,
            locked: 0,
            begun: 0,
            ended: 0,
            waiting: 0,
            callers: 0,
            rest: 0,
            wide: false,
            objects: 0,
            half: most / 2,
            near: 0,
        }
    }

    /// Counts an operation that ran in so many steps, of which the first weighs so much and each further one so much. What it weighs in all.
    fn add(&mut self, steps: u64, weight: u64, turn: u64, locks: bool) -> u64 {
        let further = turn.saturating_mul(steps.saturating_sub(1));
        let own = weight.saturating_add(further);
        self.ran = self.ran.saturating_add(1);
        self.steps = self.steps.saturating_add(steps);
        self.parts = self.parts.saturating_add(own);
        if locks {
            self.locked = self.locked.saturating_add(1);
        }
        own
    }

    /// Counts what waits behind a walk: it is taken to go on as what waited before.
    fn end(&mut self, known: &Vec<Known>, walk: &Walk) {
        let waits = walk.waiting.len();
        let begun = walk.next as u64;
        let open: u64 = if waits > 0 { 1 } else { 0 };
        let took = self.steps.saturating_sub(walk.before);
        let gone = (walk.peak.saturating_sub(waits) as u64).max(1);
        self.begun = self.begun.saturating_add(begun);
        self.ended = self.ended.saturating_add(begun.saturating_sub(open));
        self.waiting = self.waiting.saturating_add(waits as u64);
        self.rest = self
            .rest
            .saturating_add(took.saturating_mul(waits as u64) / gone);
        self.wide = self.wide || walk.peak >= WIDE;
        'waiting: for op in &walk.waiting {
            if calls_in_loop(known, op) {
                self.callers = self.callers.saturating_add(1);
            }
        }
    }
}

impl Sampler {
    /// Takes no memory before its first sample.
    pub fn new(alloc: Global) -> Sampler {
        Sampler {
            alloc,
            beside: Beside::new(alloc),
            desk: None,
        }
    }

    /// Runs the next operation of a walk, which takes a lock, on a copy of its object. Its steps, where it is done.
    fn run_locked(
        &mut self,
        desk: &mut Desk,
        program: &Coded<'_>,
        heap: &Heap,
        calls: &[Op],
        left: u64,
        walk: &mut Walk,
    ) -> Option<u64> {
        let went = run_some(
            &OpenGate,
            desk,
            self.alloc,
            program,
            heap,
            &mut self.beside,
            calls,
            &mut walk.next,
            &mut walk.waiting,
            left,
            1,
        );
        match went {
            Ok(Progress::Went { steps }) => Some(steps),
            Ok(Progress::Stuck) => None,
            Err(_) => None,
        }
    }

    /// Tries the next operation of a walk: `Some(false)` where none is left, `None` where it is stuck, memory is wanting, or a large object
    /// would be copied.
    fn try_next(
        &mut self,
        desk: &mut Desk,
        program: &Coded<'_>,
        heap: &Heap,
        known: &mut Vec<Known>,
        calls: &[Op],
        left: u64,
        counts: &mut Counts,
        walk: &mut Walk,
    ) -> Option<bool> {
        let Some(op) = at_hand(calls, walk.next, &walk.waiting) else {
            return Some(false);
        };
        let weight = weight_of(known, op);
        let turn = turn_of(known, op);
        let opens = calls_in_loop(known, op);
        let locks = takes_lock(self.alloc, program.program(), known, op.op);
        if locks && is_large(heap, op.receiver) {
            return None;
        }
        let waited = walk.waiting.len();
        let still = left.saturating_sub(counts.steps);
        let went = if locks {
            self.run_locked(desk, program, heap, calls, still, walk)
        } else {
            run_free(desk, self.alloc, program, heap, calls, still, walk)
        };
        let Some(steps) = went else {
            return None;
        };
        let own = counts.add(steps, weight, turn, locks);
        let waits = walk.waiting.len();
        if waits > walk.peak {
            walk.peak = waits;
            walk.before = counts.steps;
        }
        if counts.ran == counts.half {
            counts.near = self.beside.items().len() as u64;
        }
        // What only lists tells nothing of what it lists.
        let listed = waits.saturating_sub(waited) as u64;
        if !opens || own >= listed.saturating_mul(LOCKED_TASK) {
            walk.spent = walk.spent.saturating_add(own);
        }
        Some(true)
    }

    /// Tries so many operations of some calls, and no more than weigh so much. Whether none is stuck.
    fn try_calls(
        &mut self,
        desk: &mut Desk,
        program: &Coded<'_>,
        heap: &Heap,
        known: &mut Vec<Known>,
        calls: &[Op],
        left: u64,
        most: u64,
        heavy: u64,
        counts: &mut Counts,
    ) -> bool {
        let mut walk = Walk {
            next: 0,
            waiting: Vec::new(self.alloc),
            peak: 0,
            before: counts.steps,
            spent: 0,
        };
        'turns: for _ in 0..most {
            match self.try_next(desk, program, heap, known, calls, left, counts, &mut walk) {
                Some(true) => {
                    if walk.spent >= heavy {
                        break;
                    }
                }
                Some(false) => break,
                None => return false,
            }
        }
        counts.end(known, &walk);
        true
    }

    /// Tries a list at its places. Whether none is stuck.
    fn try_list(
        &mut self,
        desk: &mut Desk,
        program: &Coded<'_>,
        heap: &Heap,
        known: &mut Vec<Known>,
        first: &[Op],
        left: u64,
        most: u64,
        counts: &mut Counts,
    ) -> bool {
        let places = places_of(first.len());
        let each = first.len() / places;
        let few = most / (places as u64);
        let heavy = TRIED_PARTS / (places as u64);
        'places: for place in 0..places {
            let calls = some_from(first, place.saturating_mul(each), each);
            if !self.try_calls(desk, program, heap, known, calls, left, few, heavy, counts) {
                return false;
            }
            if counts.parts >= TRIED_BY_ONE {
                break;
            }
        }
        true
    }

    /// A desk that was kept, or a new one.
    fn take_desk(&mut self) -> Result<Desk, Memory> {
        match mem::replace(&mut self.desk, None) {
            Some(desk) => Ok(desk),
            None => Desk::new(self.alloc),
        }
    }

    /// What some operations of a list count, and of what these lead to. `None`: one is stuck, or memory is wanting.
    pub fn sample(
        &mut self,
        program: &Coded<'_>,
        heap: &Heap,
        known: &mut Vec<Known>,
        first: &[Op],
        left: u64,
    ) -> Option<Counts> {
        let Ok(mut desk) = self.take_desk() else {
            return None;
        };
        let most = tries(heap.len());
        let mut counts = Counts::none(most);
        self.beside.forget();
        let goes = self.try_list(
            &mut desk,
            program,
            heap,
            known,
            first,
            left,
            most,
            &mut counts,
        );
        counts.objects = self.beside.items().len() as u64;
        self.beside.forget();
        self.desk = Some(desk);
        if goes { Some(counts) } else { None }
    }
}
