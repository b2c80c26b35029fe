//! Which operations are light: the texts of all that one leads to tell that each takes little, so the calling thread runs its calls in
//! the heap itself, as one worker runs them. No clause speaks of it.

use crate::policy::{LIGHT, WHOLE};
use crate::weights::{Known, Reach, told_of};
use ca_extent::{Extent, extent_of};
use ca_parallel::Op;
use ca_program::{OpId, Program};
use ca_replica::summed;
use std::alloc::Global;

/// Whether calls of what reaches so far are light, several of them, or a single one, which stands for those that it lists. Where all
/// only sum, and calls lead to others in a loop, none is: a worker runs each whole, on copies of its own, so the way to it is paid
/// once.
pub fn is_light(reach: Reach, several: bool) -> bool {
    let sums = if several {
        reach.sums
    } else {
        reach.sums_below
    };
    !sums && is_small(reach)
}

/// Whether they would be light if they did more than sum.
pub fn is_small(reach: Reach) -> bool {
    reach.parts <= LIGHT
}

/// The most parts of one of these.
fn most_parts(known: &Vec<Known>, ops: &[OpId]) -> u32 {
    let mut most: u32 = 0;
    for op in ops {
        let number = op.0 as usize;
        if number >= known.len() {
            return u32::MAX;
        }
        most = most.max(known[number].text);
    }
    most
}

/// The most calls that a loop of one of these lists of operations that call none.
fn most_told(known: &Vec<Known>, ops: &[OpId]) -> usize {
    let mut most: usize = 0;
    'operations: for op in ops {
        most = most.max(told_of(known, *op));
    }
    most
}

/// Whether one of these operations calls others.
fn some_call(known: &Vec<Known>, ops: &[OpId]) -> bool {
    'operations: for op in ops {
        let number = op.0 as usize;
        if number >= known.len() || known[number].calls {
            return true;
        }
    }
    false
}

/// Whether all calls of a list are small, and call no others.
pub fn all_brief(alloc: Global, program: &Program, known: &mut Vec<Known>, first: &[Op]) -> bool {
    for op in first {
        let reach = reach_of(alloc, program, known, op.op);
        if reach.calls || !is_small(reach) {
            return false;
        }
    }
    true
}

/// Whether calls of what reaches so far run in order by their text: each operation is small, and a loop of one lists so many of them that no
/// worker runs it whole.
pub fn is_long(reach: Reach) -> bool {
    is_small(reach) && reach.told > WHOLE
}

/// Whether an operation calls others in a loop.
fn loops(known: &Vec<Known>, op: OpId) -> bool {
    let number = op.0 as usize;
    if number < known.len() {
        return known[number].loops;
    }
    false
}

/// Whether one of these does that isn't this one.
fn others_loop(known: &Vec<Known>, ops: &[OpId], one: OpId) -> bool {
    for op in ops {
        if op.0 != one.0 && loops(known, *op) {
            return true;
        }
    }
    false
}

/// What the operations of the extent of some are, of which this is the first.
fn reached(program: &Program, known: &Vec<Known>, extent: &Extent, one: OpId) -> Reach {
    let parts = most_parts(known, extent.ops());
    let only = summed(program, extent);
    let below = only && others_loop(known, extent.ops(), one);
    Reach {
        parts,
        sums: below || (only && loops(known, one)),
        sums_below: below,
        told: most_told(known, extent.ops()),
        calls: some_call(known, extent.ops()),
    }
}

/// What operations reach of which nothing is known.
pub fn unknown_reach() -> Reach {
    Reach {
        parts: u32::MAX,
        sums: false,
        sums_below: false,
        told: 0,
        calls: true,
    }
}

/// What these operations reach.
#[inline(never)]
pub fn reach_of_all(alloc: Global, program: &Program, known: &Vec<Known>, roots: &[OpId]) -> Reach {
    if roots.len() == 0 {
        return unknown_reach();
    }
    match extent_of(alloc, program, roots) {
        Ok(extent) => reached(program, known, &extent, roots[0]),
        Err(_) => unknown_reach(),
    }
}

/// What one reaches, which is asked once for each operation that is known.
pub fn reach_of(alloc: Global, program: &Program, known: &mut Vec<Known>, op: OpId) -> Reach {
    let number = op.0 as usize;
    if number >= known.len() {
        return unknown_reach();
    }
    match known[number].reach {
        Some(answer) => answer,
        None => {
            let roots = [op];
            let answer = reach_of_all(alloc, program, known, &roots);
            let item = &mut known[number];
            item.reach = Some(answer);
            answer
        }
    }
}

/// Whether some call of a list is long by its text.
pub fn some_long(alloc: Global, program: &Program, known: &mut Vec<Known>, first: &[Op]) -> bool {
    for op in first {
        if is_long(reach_of(alloc, program, known, op.op)) {
            return true;
        }
    }
    false
}

/// Whether all calls of a list are light.
pub fn all_light(alloc: Global, program: &Program, known: &mut Vec<Known>, first: &[Op]) -> bool {
    let several = first.len() != 1;
    for op in first {
        if !is_light(reach_of(alloc, program, known, op.op), several) {
            return false;
        }
    }
    true
}
