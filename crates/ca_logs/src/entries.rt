//! Lists of entries, which contracts see, and which stand in memory only where they are kept.

ghost use Rattle.std.specs.Prelude.{◌≡◌, ℕ, ◌+◌, List, [], ◌∷◌, ◌++◌, length, map, take, Some, None, IfOk, IfSome, OnErr, option_copied};
ghost use Rattle.ca_logs.specs.Lasts.{last_of};
ghost use Rattle.ca_logs.specs.Telling.{AreKept, IsMark, StepsAre, clock_of, entry_with, operation_in, ran_entry, steps_of, stopped_in, stuck_entry, told_entry, told_in};

use crate::log::{Entry, Ops, Stop, Task};
use ca_parallel::Op;
use std::alloc::{AllocError, Global};
use std::marker::Model;
use std::mem;
use std::snapshot::Snapshot;

/// An entry as contracts see it, with what its section listed as tasks. It has no bytes.
#[derive(Drop)]
pub struct Told {
    pub task: Snapshot<Task>,
    pub clock: Snapshot<u64>,
    pub steps: Snapshot<u64>,
    pub listed: Snapshot<Vec<Task>>,
    pub stop: Snapshot<Option<Stop>>,
}

/// Entries as contracts see them: none, one more behind others, or those that stood at a mark. It takes no memory, since all
/// that it is made of are snapshots.
#[derive(Drop)]
pub enum Past {
    Nothing,
    More(Snapshot<Past>, Told),
    Same(Snapshot<Snapshot<Past>>),
}

/// A list of entries. They are told to contracts alone, and stand in memory too where they are kept. Beside them are how many
/// there are, the clock of the last one, the steps of all, unless they are more than a number tells, and the last one where it
/// has a stop. What whoever adds one reads first stands in front, beside the object's own fields.
#[derive(Drop)]
pub struct Entries {
    told: Snapshot<Past>,
    stuck: Option<Box<Entry>>,
    clock: u64,
    count: usize,
    steps: Option<u64>,
    kept: Option<Vec<Entry>>,
}

impl Model for Entries {
    ghost use Rattle.std.specs.Prelude.{List};
    ghost use Rattle.ca_logs.specs.declared.log.Entry.{Entry};
    ghost use Rattle.ca_logs.specs.Telling.{Tallies, told_in, unboxed};

    ghost Value = { List Entry };

    ghost view = { λ s. told_in s.told.value };

    ghost invariant = { λ s. Tallies (told_in s.told.value) s.kept s.count s.clock s.steps (unboxed s.stuck) };
}

/// Where a list of entries stood: how many there were, as contracts see them, the clock of the last one, and the steps of all.
#[derive(Drop)]
pub struct Mark {
    pub count: usize,
    pub told: Snapshot<Snapshot<Past>>,
    pub clock: u64,
    pub steps: Option<u64>,
}

/// The steps and those of one entry more.
fn more_steps(steps: Option<u64>, by: u64) -> Option<u64>
    ensures { (total : ℕ) → StepsAre steps total → StepsAre result (total + by) }
{
    match steps {
        Some(sum) => sum.checked_add(by),
        None => None,
    }
}

/// The operations of these tasks.
fn operations_in(alloc: Global, tasks: &[Task]) -> Result<Vec<Op>, AllocError>
    ensures { IfOk result (λ ops. ops.items ≡ map operation_in tasks.now) }
{
    let mut ops = Vec::with_capacity(alloc, tasks.len())?;
    for task in tasks {
        ops.push(task.op.copy()?)?;
    }
    Ok(ops)
}

/// An entry of this task, in memory, with the operations of what it listed.
fn entry_of(
    alloc: Global,
    task: &Task,
    clock: u64,
    steps: u64,
    listed: &Vec<Task>,
    stop: Option<Stop>,
) -> Result<Entry, AllocError>
    ensures { IfOk result (λ entry. entry ≡ entry_with task.now clock steps (map operation_in listed.now.items) stop) }
{
    Ok(Entry {
        task: task.copy()?,
        clock,
        steps,
        invoked: Ops::of(operations_in(alloc, listed.as_slice())?),
        stop,
    })
}

/// An entry of this task, told.
fn tell(task: &Task, clock: u64, steps: u64, listed: &Vec<Task>, stop: Option<Stop>) -> Told
    ensures { told_entry result ≡ entry_with task.now clock steps (map operation_in listed.now.items) stop }
{
    Told {
        task: Snapshot::of(task),
        clock: Snapshot::of(&clock),
        steps: Snapshot::of(&steps),
        listed: Snapshot::of(listed),
        stop: Snapshot::of(&stop),
    }
}

/// Adds an entry at the end, in memory. Without memory for it they are as before.
#[inline(never)]
fn keep(
    entries: &mut Vec<Entry>,
    alloc: Global,
    task: &Task,
    clock: u64,
    steps: u64,
    listed: &Vec<Task>,
    stop: Option<Stop>,
) -> Result<(), AllocError>
    ensures added { IfOk result (λ _. entries.new.items ≡ entries.old.items ++ entry_with task.now clock steps (map operation_in listed.now.items) stop ∷ []) }
    ensures as_before { OnErr result (entries.new.items ≡ entries.old.items) }
{
    let entry = entry_of(alloc, task, clock, steps, listed, stop)?;
    entries.push(entry)?;
    Ok(())
}

/// Adds what is told of an entry at the end.
#[inline(always)]
fn add_told(past: &mut Snapshot<Past>, told: Told)
    ensures { told_in past.new.value ≡ told_in past.old.value ++ told_entry told ∷ [] }
{
    let before = mem::replace(past, Snapshot::of(&Past::Nothing));
    let more = Past::More(before, told);
    *past = Snapshot::of(&more);
}

/// Keeps the first entries, where they are kept.
fn cut(kept: &mut Option<Vec<Entry>>, count: usize)
    ensures { (es : List Entry) → AreKept kept.old es → AreKept kept.new (take count es) }
{
    match kept {
        Some(entries) => entries.truncate(count),
        None => {}
    }
}

/// An entry in memory of its own.
fn boxed(alloc: Global, entry: Entry) -> Result<Box<Entry>, AllocError>
    ensures { IfOk result (λ b. b.value ≡ entry) }
{
    Ok(Box::new(alloc, entry)?)
}

/// Lets go of an entry.
#[cold]
#[inline(never)]
fn let_go(stuck: &mut Option<Box<Entry>>)
    ensures { stuck.new ≡ None }
{
    *stuck = None;
}

/// No entries, which are kept or not.
fn room_for(alloc: Global, keeps: bool) -> Option<Vec<Entry>>
    ensures { AreKept result [] }
{
    if keeps {
        return Some(Vec::new(alloc));
    }
    None
}

/// Adds an entry at the end of those that are kept. Without memory for it they are as before.
#[inline(always)]
fn keep_one(
    kept: &mut Option<Vec<Entry>>,
    alloc: Global,
    task: &Task,
    clock: u64,
    steps: u64,
    listed: &Vec<Task>,
    stop: Option<Stop>,
) -> Result<(), AllocError>
    ensures added { IfOk result (λ _. (es : List Entry) → AreKept kept.old es → AreKept kept.new (es ++ entry_with task.now clock steps (map operation_in listed.now.items) stop ∷ [])) }
    ensures as_before { OnErr result ((es : List Entry) → AreKept kept.old es → AreKept kept.new es) }
{
    match kept {
        Some(entries) => keep(entries, alloc, task, clock, steps, listed, stop),
        None => Ok(()),
    }
}

impl Entries {
    /// No entries. Those that come are kept in memory, or told to contracts alone. It takes no memory.
    pub fn none(alloc: Global, keeps: bool) -> Entries
        ensures { result ≡ [] }
    {
        Entries {
            told: Snapshot::of(&Past::Nothing),
            stuck: None,
            clock: 0,
            count: 0,
            steps: Some(0),
            kept: room_for(alloc, keeps),
        }
    }

    /// Adds that of a section that ran and listed these tasks. Without memory for it the entries are as before; where
    /// they aren't kept it takes none.
    #[inline(always)]
    pub fn ran(
        &mut self,
        alloc: Global,
        task: &Task,
        clock: u64,
        steps: u64,
        listed: &Vec<Task>,
    ) -> Result<(), AllocError>
        ensures added { IfOk result (λ _. self.new ≡ self.old ++ ran_entry task.now clock steps (map operation_in listed.now.items) ∷ []) }
        ensures kept { OnErr result (self.new ≡ self.old) }
    {
        let full = self.count == usize::MAX;
        if full {
            return Err(AllocError);
        }
        keep_one(&mut self.kept, alloc, task, clock, steps, listed, None)?;
        add_told(&mut self.told, tell(task, clock, steps, listed, None));
        self.count += 1;
        self.clock = clock;
        self.steps = more_steps(self.steps, steps);
        if self.stuck.is_some() {
            let_go(&mut self.stuck);
        }
        Ok(())
    }

    /// Adds that of a section that stopped. Without memory for it the entries are as before.
    #[cold]
    #[inline(never)]
    pub fn stick(
        &mut self,
        alloc: Global,
        task: &Task,
        clock: u64,
        stop: Stop,
    ) -> Result<(), AllocError>
        ensures added { IfOk result (λ _. self.new ≡ self.old ++ stuck_entry task.now clock stop ∷ []) }
        ensures kept { OnErr result (self.new ≡ self.old) }
    {
        let none = Vec::new(alloc);
        let made = entry_of(alloc, task, clock, 0, &none, Some(stop))?;
        let entry = boxed(alloc, made)?;
        let full = self.count == usize::MAX;
        if full {
            return Err(AllocError);
        }
        keep_one(&mut self.kept, alloc, task, clock, 0, &none, Some(stop))?;
        add_told(&mut self.told, tell(task, clock, 0, &none, Some(stop)));
        self.count += 1;
        self.clock = clock;
        self.stuck = Some(entry);
        Ok(())
    }

    /// Where they stand, for `back_to`: it serves where the last one has no stop.
    #[inline]
    pub fn mark(&self) -> Mark
        ensures { stopped_in (last_of self.now) ≡ None → IsMark self.now result }
    {
        Mark {
            count: self.count,
            told: Snapshot::of(&self.told),
            clock: self.clock,
            steps: self.steps,
        }
    }

    /// Takes back the entries that came behind a mark. It takes no memory.
    pub fn back_to(&mut self, mark: Mark)
        requires { IsMark (take mark.count self.old) mark }
        ensures { self.new ≡ take mark.count self.old }
    {
        cut(&mut self.kept, mark.count);
        let past = Past::Same(mark.told);
        self.told = Snapshot::of(&past);
        self.count = mark.count;
        self.clock = mark.clock;
        self.steps = mark.steps;
        self.stuck = None;
    }

    /// How many there are.
    pub fn len(&self) -> usize
        ensures { result ≡ length self.now }
    {
        self.count
    }

    /// The entries, where they are kept.
    pub fn kept(&self) -> Option<&[Entry]>
        ensures { IfSome result (λ entries. entries.now ≡ self.now) }
    {
        match &self.kept {
            Some(entries) => Some(entries.as_slice()),
            None => None,
        }
    }

    /// The clock of the last one, and 0 where there is none.
    pub fn last_clock(&self) -> u64
        ensures { result ≡ clock_of (last_of self.now) }
    {
        self.clock
    }

    /// The steps of all, unless they are more than a number tells.
    pub fn steps(&self) -> Option<u64>
        ensures { StepsAre result (steps_of self.now) }
    {
        self.steps
    }

    /// The last one, where it has a stop.
    pub fn stuck(&self) -> Option<&Entry>
        ensures { option_copied result ≡ stopped_in (last_of self.now) }
    {
        match &self.stuck {
            Some(entry) => Some(&**entry),
            None => None,
        }
    }
}
