//! What stands in a slot: a shelf, which has the histories of a class of objects that have begun, each in memory of its own.

ghost use Rattle.std.specs.Prelude.{◌≡◌, ℕ, ◌<◌, true, false, List, [], ◌∷◌, ◌++◌, length, slice_get, Some, None, IfOk, IfErr, MatchOption, OnErr, option_to_list};
ghost use Rattle.ca_program.specs.View.{program_view};
ghost use Rattle.ca_model.specs.Typed.{TypedHeap};
ghost use Rattle.ca_meaning.specs.Agree.{AgreesAt};
ghost use Rattle.ca_meaning.specs.ProgramTyped.{ProgramTyped};
ghost use Rattle.ca_meaning.specs.WellTyped.{WellTyped, AllWellTyped};
ghost use Rattle.ca_parallel.specs.Extents.{Extent};
ghost use Rattle.ca_order_laws.specs.Order.{AllInside};
ghost use Rattle.ca_logs.specs.declared.log.Task.{Task};
ghost use Rattle.ca_logs.specs.Entries.{call_of, task_calls};
ghost use Rattle.ca_logs.specs.declared.log.CellLog.{CellLog};
ghost use Rattle.ca_logs.specs.Legal.{LegalCell};
ghost use Rattle.ca_beside.specs.Beside.{present};
ghost use Rattle.ca_cells.specs.Rounds.{SeparableIn, now_of};
ghost use Rattle.ca_cells.specs.Adds.{Adds, IsRan};
ghost use Rattle.ca_cells.specs.clauses.Shelves.{found, AreOnce, IsNumbered, Without};
ghost use Rattle.ca_cells.specs.clauses.Rule.{Stands};
ghost use Rattle.ca_cells.specs.declared.rule.Given.{Given};
ghost use Rattle.ca_cells.specs.declared.slot.Held.{Held};

use crate::adding;
use crate::adding::Added;
use ca_base::Memory;
use ca_beside::Beside;
use ca_logs::{CellLog, Entries, Task};
use ca_model::{Heap, Object};
use ca_sections::{Coded, Desk};
use std::alloc::{AllocError, Global};
use std::marker::Model;
use std::snapshot::Snapshot;

/// A history in memory of its own. Contracts see it as the history.
#[derive(Drop)]
pub struct SlotLog {
    pub(crate) log: Box<CellLog>,
}

impl Model for SlotLog {
    ghost use Rattle.ca_logs.specs.declared.log.CellLog.{CellLog};

    ghost Value = { CellLog };

    ghost view = { λ s. s.log.value };
}

impl SlotLog {
    /// The history, in memory of its own.
    pub(crate) fn of(alloc: Global, log: CellLog) -> Result<SlotLog, AllocError>
        ensures { IfOk result (λ slot. slot ≡ log) }
    {
        Ok(SlotLog {
            log: Box::new(alloc, log)?,
        })
    }

    /// The history. Its memory is freed.
    pub(crate) fn into_log(self) -> CellLog
        ensures { result ≡ self }
    {
        let SlotLog { log } = self;
        Box::into_inner(log)
    }

    /// Whether it has an entry.
    fn has_entries(&self) -> bool
        ensures has { result ≡ true → 0 < length self.now.entries }
        ensures none { result ≡ false → length self.now.entries ≡ 0 }
    {
        0 < self.log.entries.len()
    }
}

/// The history of an object, and the object's number.
#[derive(Drop)]
pub struct Held {
    pub number: u32,
    pub log: SlotLog,
}

/// The histories of a class of objects that have begun, and by itself that of the one that was worked on last, which takes no
/// memory for its place. Contracts see it as their list, with that one at the end.
#[derive(Drop)]
pub struct Shelf {
    others: Vec<Held>,
    last: Option<Held>,
}

impl Model for Shelf {
    ghost use Rattle.std.specs.Prelude.{List, ◌++◌, option_to_list};
    ghost use Rattle.ca_cells.specs.declared.slot.Held.{Held};

    ghost Value = { List Held };

    ghost view = { λ s. s.others.items ++ option_to_list s.last };
}

/// A shelf without the history of one object.
#[derive(Drop)]
pub struct Out {
    pub class: usize,
    pub others: Vec<Held>,
}

impl Shelf {
    /// No history. It takes no memory.
    pub(crate) fn none(alloc: Global) -> Shelf
        ensures { result ≡ [] }
    {
        Shelf {
            others: Vec::new(alloc),
            last: None,
        }
    }

    /// These, and one that stands by itself.
    #[inline(always)]
    pub(crate) fn of(others: Vec<Held>, last: Option<Held>) -> Shelf
        ensures { result ≡ others.items ++ option_to_list last }
    {
        Shelf { others, last }
    }

    /// Its histories: the last one by itself.
    #[inline(always)]
    pub(crate) fn into_parts(self) -> (Vec<Held>, Option<Held>)
        ensures { result.0.items ++ option_to_list result.1 ≡ self }
    {
        let Shelf { others, last } = self;
        (others, last)
    }
}

/// The shelf with the history back.
pub(crate) fn put_back(out: Out, number: u32, log: SlotLog) -> Shelf
    ensures { result ≡ out.others.items ++ record { number = number; log = log } ∷ [] }
{
    let Out { class: _, others } = out;
    Shelf {
        others,
        last: Some(Held { number, log }),
    }
}

/// The shelf with a history back that is as it was. One without entries is left out, so that an object that had none has
/// none.
pub(crate) fn put_back_same(out: Out, number: u32, log: SlotLog) -> Shelf
    ensures back { 0 < length log.entries → result ≡ out.others.items ++ record { number = number; log = log } ∷ [] }
    ensures out { length log.entries ≡ 0 → result ≡ out.others.items }
{
    if log.has_entries() {
        return put_back(out, number, log);
    }
    let Out { class: _, others } = out;
    Shelf { others, last: None }
}

/// Where the history of an object stands. Those that came last are looked at first.
fn place(items: &Vec<Held>, number: u32) -> Option<usize>
    ensures { MatchOption result (found items.now.items number ≡ None) (λ at. (held : Held) × (slice_get items.now.items at ≡ Some held) × (held.number ≡ number)) }
{
    let mut at = items.len();
    'places: while 0 < at {
        at -= 1;
        if items[at].number == number {
            return Some(at);
        }
    }
    None
}

/// A history without entries of the object, which keeps those that come in memory, or tells them to contracts alone.
pub fn open(alloc: Global, object: &Object, keeps: bool) -> Result<CellLog, Memory>
    ensures { IfOk result (λ log. (log.entries ≡ []) × (log.object ≡ object.now) × (log.opened.value ≡ object.now)) }
{
    Ok(CellLog {
        opened: Snapshot::of(object),
        object: object.copy()?,
        entries: Entries::none(alloc, keeps),
    })
}

/// The same, with the object in the memory of a spare one where that fits.
fn open_in(
    alloc: Global,
    memory: &mut Beside,
    object: &Object,
    keeps: bool,
) -> Result<CellLog, Memory>
    ensures log { IfOk result (λ log. (log.entries ≡ []) × (log.object ≡ object.now) × (log.opened.value ≡ object.now)) }
    ensures memory { memory.new ≡ memory.old }
{
    Ok(CellLog {
        opened: Snapshot::of(object),
        object: memory.copied(object)?,
        entries: Entries::none(alloc, keeps),
    })
}

/// The same, in memory of its own.
fn opened(
    alloc: Global,
    memory: &mut Beside,
    object: &Object,
    keeps: bool,
) -> Result<SlotLog, Memory>
    ensures log { IfOk result (λ log. (log.entries ≡ []) × (log.object ≡ object.now) × (log.opened.value ≡ object.now)) }
    ensures memory { memory.new ≡ memory.old }
{
    let log = open_in(alloc, memory, object, keeps)?;
    Ok(SlotLog::of(alloc, log)?)
}

/// The history of an object that has not begun begins, with a copy in spare memory where there is some that fits. Without memory
/// the others come back.
#[inline(never)]
fn begin(
    alloc: Global,
    memory: &mut Beside,
    heap: &Heap,
    beside: &Beside,
    class: usize,
    number: u32,
    keeps: bool,
    items: Vec<Held>,
) -> Result<(SlotLog, Out), Shelf>
    requires inside { number < length heap.now }
    requires none { found items.items number ≡ None }
    requires once { AreOnce items.items }
    ensures class { IfOk result (λ taken. taken.1.class ≡ class) }
    ensures out { IfOk result (λ taken. Without items.items number taken.1.others.items) }
    ensures log { IfOk result (λ taken. (given : Given) (history : CellLog) → now_of given ≡ present heap.now beside.now → Stands given number None history → taken.0 ≡ history) }
    ensures back { IfErr result (λ back. back ≡ items.items) }
    ensures memory { memory.new ≡ memory.old }
{
    match opened(alloc, memory, beside.get(heap, number), keeps) {
        Ok(log) => Ok((
            log,
            Out {
                class,
                others: items,
            },
        )),
        Err(_) => Err(Shelf {
            others: items,
            last: None,
        }),
    }
}

/// All histories of a shelf, where one stands by itself. Without memory for that the shelf comes back.
fn joined(mut others: Vec<Held>, last: Held) -> Result<Vec<Held>, Shelf>
    ensures all { IfOk result (λ all. all.items ≡ others.items ++ last ∷ []) }
    ensures back { IfErr result (λ back. back ≡ others.items ++ last ∷ []) }
{
    if others.reserve(1).is_err() {
        return Err(Shelf {
            others,
            last: Some(last),
        });
    }
    others.push_reserved(last);
    Ok(others)
}

/// Takes the history of an object out of those of its class. One that has not begun begins. Without memory for that they come
/// back.
#[inline(never)]
fn search(
    alloc: Global,
    memory: &mut Beside,
    heap: &Heap,
    beside: &Beside,
    class: usize,
    number: u32,
    keeps: bool,
    mut items: Vec<Held>,
) -> Result<(SlotLog, Out), Shelf>
    requires inside { number < length heap.now }
    requires once { AreOnce items.items }
    ensures class { IfOk result (λ taken. taken.1.class ≡ class) }
    ensures out { IfOk result (λ taken. Without items.items number taken.1.others.items) }
    ensures log { IfOk result (λ taken. (given : Given) (history : CellLog) → now_of given ≡ present heap.now beside.now → Stands given number (found items.items number) history → taken.0 ≡ history) }
    ensures back { IfErr result (λ back. back ≡ items.items) }
    ensures memory { memory.new ≡ memory.old }
{
    match place(&items, number) {
        Some(at) => {
            let Held { number: _, log } = items.remove(at);
            Ok((
                log,
                Out {
                    class,
                    others: items,
                },
            ))
        }
        None => begin(alloc, memory, heap, beside, class, number, keeps, items),
    }
}

/// Whether a history stands by itself, and is of this object.
#[inline(always)]
pub(crate) fn is_numbered(last: &Option<Held>, number: u32) -> bool
    ensures { result ≡ true → IsNumbered number last.now }
{
    match last {
        Some(held) => held.number == number,
        None => false,
    }
}

/// Takes out the history that stands by itself.
#[inline(always)]
pub(crate) fn take_last(
    class: usize,
    _number: u32,
    others: Vec<Held>,
    last: Option<Held>,
) -> (SlotLog, Out)
    requires mine { IsNumbered _number last }
    requires once { AreOnce (others.items ++ option_to_list last) }
    ensures class { result.1.class ≡ class }
    ensures out { Without (others.items ++ option_to_list last) _number result.1.others.items }
    ensures log { (given : Given) (history : CellLog) → Stands given _number (found (others.items ++ option_to_list last) _number) history → result.0 ≡ history }
{
    match last {
        Some(held) => {
            let Held { number: _, log } = held;
            (log, Out { class, others })
        }
        None => unreachable!(),
    }
}

/// Takes the history of an object out of its shelf. One that has not begun begins. Without memory for that the shelf
/// comes back.
pub(crate) fn take_out(
    alloc: Global,
    memory: &mut Beside,
    heap: &Heap,
    beside: &Beside,
    class: usize,
    number: u32,
    keeps: bool,
    shelf: Shelf,
) -> Result<(SlotLog, Out), Shelf>
    requires inside { number < length heap.now }
    requires once { AreOnce shelf }
    ensures class { IfOk result (λ taken. taken.1.class ≡ class) }
    ensures out { IfOk result (λ taken. Without shelf number taken.1.others.items) }
    ensures log { IfOk result (λ taken. (given : Given) (history : CellLog) → now_of given ≡ present heap.now beside.now → Stands given number (found shelf number) history → taken.0 ≡ history) }
    ensures back { IfErr result (λ back. back ≡ shelf) }
    ensures memory { memory.new ≡ memory.old }
{
    let (others, last) = shelf.into_parts();
    match last {
        Some(held) => {
            let mine = held.number == number;
            if mine {
                let Held { number: _, log } = held;
                return Ok((log, Out { class, others }));
            }
            match joined(others, held) {
                Ok(all) => search(alloc, memory, heap, beside, class, number, keeps, all),
                Err(back) => Err(back),
            }
        }
        None => search(alloc, memory, heap, beside, class, number, keeps, others),
    }
}

/// Runs the section of a task on the object of a history in a slot and adds its entry, as `add` of `adding` does.
#[inline(always)]
pub(crate) fn add(
    desk: &mut Desk,
    log: &mut SlotLog,
    alloc: Global,
    program: &Coded<'_>,
    frozen: &Heap,
    task: &Task,
    left: u64,
) -> Result<Added, Memory>
    requires program { ProgramTyped (program_view program.now) }
    requires heap { TypedHeap (program_view program.now) frozen.now }
    requires legal { LegalCell (program_view program.now) frozen.now task.now.op.receiver log.old }
    requires typed { WellTyped (program_view program.now) frozen.now (call_of task.now) }
    ensures exact { IfOk result (λ answer. Adds (program_view program.now) frozen.now task.now left log.old log.new answer) }
    ensures legal { LegalCell (program_view program.now) frozen.now task.now.op.receiver log.new }
    ensures agrees { (x : Extent) → SeparableIn (program_view program.now) x task.now.op.op → AgreesAt x.written log.old.object frozen.now task.now.op.receiver → AgreesAt x.written log.new.object frozen.now task.now.op.receiver }
    ensures typed { IfOk result (λ answer. (made : List Task) (steps : ℕ) → IsRan answer made steps → AllWellTyped (program_view program.now) frozen.now (task_calls made)) }
    ensures inside { IfOk result (λ answer. (x : Extent) → SeparableIn (program_view program.now) x task.now.op.op → (made : List Task) (steps : ℕ) → IsRan answer made steps → AllInside x (task_calls made)) }
    ensures kept { OnErr result (log.new ≡ log.old) }
{
    adding::add(desk, &mut log.log, alloc, program, frozen, task, left)
}
