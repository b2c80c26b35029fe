//! The histories of all objects, each at its number, where those that were touched aren't enough.

ghost use Rattle.std.specs.Prelude.{◌≡◌, ◌<◌, length, map, slice_set, IfOk};
ghost use Rattle.ca_beside.specs.Beside.{present};
ghost use Rattle.ca_logs.specs.Touched.{AreBelow, AreRising, fresh, logs_of, pairs, put_logs};
ghost use Rattle.ca_pool.specs.Gathered.{AreAllNumbers};

use ca_base::Memory;
use ca_beside::Beside;
use ca_cells::open;
use ca_logs::{CellLog, last_touched};
use ca_model::Heap;
use std::alloc::Global;
use std::mem;

/// The numbers of all objects.
pub fn all_numbers(alloc: Global, objects: u32) -> Result<Vec<u32>, Memory>
    ensures { IfOk result (λ numbers. AreAllNumbers objects numbers.items) }
{
    let mut numbers = Vec::with_capacity(alloc, objects as usize)?;
    let mut number = 0;
    while number < objects {
        numbers.push(number)?;
        number += 1;
    }
    Ok(numbers)
}

/// A history without entries for each object.
fn all_fresh(
    alloc: Global,
    frozen: &Heap,
    beside: &Beside,
    keeps: bool,
) -> Result<Vec<CellLog>, Memory>
    ensures { IfOk result (λ logs. logs.items ≡ map fresh (present frozen.now beside.now)) }
{
    let objects = frozen.len();
    let mut logs = Vec::with_capacity(alloc, objects as usize)?;
    let mut number = 0;
    while number < objects {
        let log = open(alloc, beside.get(frozen, number), keeps)?;
        logs.push(log)?;
        number += 1;
    }
    Ok(logs)
}

/// Puts a history in the place of another one.
fn put(all: &mut Vec<CellLog>, number: u32, log: CellLog)
    requires { number < length all.old.items }
    ensures { all.new.items ≡ slice_set all.old.items number log }
{
    let _old = mem::replace(&mut all[number as usize], log);
}

/// Puts histories at their numbers, the last one first. It takes no memory.
fn put_all(mut numbers: Vec<u32>, mut logs: Vec<CellLog>, all: &mut Vec<CellLog>)
    requires alike { length logs.items ≡ length numbers.items }
    requires rising { AreRising (pairs numbers.items logs.items) }
    requires below { AreBelow (pairs numbers.items logs.items) (length all.old.items) }
    ensures { all.new.items ≡ put_logs (pairs numbers.items logs.items) all.old.items }
{
    while let Some((number, log)) = last_touched(&mut numbers, &mut logs) {
        put(all, number, log);
    }
}

/// The histories of all objects: those that were touched at their numbers, elsewhere one without entries.
pub fn spread(
    alloc: Global,
    frozen: &Heap,
    beside: &Beside,
    keeps: bool,
    numbers: Vec<u32>,
    logs: Vec<CellLog>,
) -> Result<Vec<CellLog>, Memory>
    requires alike { length numbers.items ≡ length logs.items }
    requires rising { AreRising (pairs numbers.items logs.items) }
    requires below { AreBelow (pairs numbers.items logs.items) (length (present frozen.now beside.now)) }
    ensures { IfOk result (λ all. all.items ≡ logs_of (present frozen.now beside.now) (pairs numbers.items logs.items)) }
{
    let mut all = all_fresh(alloc, frozen, beside, keeps)?;
    put_all(numbers, logs, &mut all);
    Ok(all)
}
