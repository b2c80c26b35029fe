//! What is known of operations by their texts: what they weigh, about how many parts of a body run in a step of theirs, statements and what
//! their expressions are made of, and whether they call others. No clause speaks of it.

use crate::further::{all_further, further_of};
use crate::policy::{FAR, HEAVY, STEP, UNKNOWN, VALUE};
use crate::texts::{add_calls, calls_told};
use ca_parallel::Op;
use ca_program::{Expr, FunctionId, OpId, Program, Stmt, StmtForm};
use std::alloc::{AllocError, Global};

/// Of a number of calls that nothing tells.
pub const UNTOLD: usize = usize::MAX;

/// What is known of an operation.
#[derive(Clone, Copy)]
pub struct Known {
    pub weight: u32,
    /// What a further step takes: as much where it has a loop, else a turn of a loop of the value methods that it calls.
    pub turn: u32,
    /// The most calls that a loop of it lists of operations that call none, where its text tells, else 0.
    pub told: usize,
    /// How many parts its text tells of, with those of the value methods that it calls: `HEAVY` and more where it doesn't tell.
    pub text: u32,
    /// Whether it calls others, and whether it does so in a loop.
    pub calls: bool,
    pub loops: bool,
    /// Whether it takes a lock, where it was asked.
    pub locks: Option<bool>,
    /// What it and all that it leads to are, where it was asked.
    pub reach: Option<Reach>,
    /// Whether a call of it runs in order by that: it is asked at each marked call that a run goes on into.
    pub plain: bool,
    /// What the lists told that began with one of it.
    pub learned: Learned,
    /// How many calls the last list of two or more had that began with one of it.
    pub count: usize,
}

/// What was learned of lists.
#[derive(Clone, Copy)]
pub struct Learned {
    /// About how many steps each call took of one that was tried, and gained by rounds; 0 where it didn't.
    pub each: Option<u32>,
    /// To about how many operations each call led that was tried last, with itself.
    pub leads: u32,
    /// What a step weighed of those that were tried last, and whether an operation weighed less than its task in a round of sums.
    pub step: u64,
    pub light: bool,
    /// How many operations were tried in all.
    pub tried: u32,
    /// How many lists came since the last trial, and how many have to come before the next.
    pub since: u32,
    pub next: u32,
}

/// What operations, and all that they lead to, are.
#[derive(Clone, Copy)]
pub struct Reach {
    /// The most parts of one of them.
    pub parts: u32,
    /// Whether all only sum, and one of them calls others in a loop,
    pub sums: bool,
    /// one that isn't the first.
    pub sums_below: bool,
    /// The most calls that a loop of one of them lists of operations that call none, where the text tells; else 0.
    pub told: usize,
    /// Whether one of them calls others.
    pub calls: bool,
}

/// What is counted for a call of a value method, by its number as far as they are known, and for a loop whose turns list nothing.
#[derive(Clone, Copy)]
pub struct Costs<'c> {
    pub values: &'c [u32],
    pub other: u32,
    pub turns: u32,
}

/// How many parts run, about, and whether they list operations, and in a loop.
#[derive(Clone, Copy)]
pub struct Count {
    pub parts: u32,
    pub lists: bool,
    pub loops: bool,
}

/// What a call of a value method takes by itself.
fn value_cost(costs: Costs<'_>, function: FunctionId) -> u32 {
    let number = function.0 as usize;
    if number < costs.values.len() {
        costs.values[number]
    } else {
        costs.other
    }
}

/// How many parts an expression has.
#[cycle(parts)]
pub fn parts_in(e: &Expr, costs: Costs<'_>) -> u32 {
    match e {
        Expr::OwnItem(_, index) => parts_in(index, costs).saturating_add(1),
        Expr::Read(of, _) => parts_in(of, costs).saturating_add(1),
        Expr::ReadItem(of, _, index) => {
            parts_in(of, costs)
                .saturating_add(parts_in(index, costs))
                .saturating_add(1)
        }
        Expr::Value(of, function, args) => {
            let given = all_parts(args.as_slice(), costs);
            parts_in(of, costs)
                .saturating_add(given)
                .saturating_add(value_cost(costs, *function))
        }
        Expr::Unary(_, of) => parts_in(of, costs).saturating_add(1),
        Expr::Binary(_, left, right) => {
            parts_in(left, costs)
                .saturating_add(parts_in(right, costs))
                .saturating_add(1)
        }
        _ => 1,
    }
}

#[cycle(parts)]
fn all_parts(args: &[Expr], costs: Costs<'_>) -> u32 {
    let mut sum: u32 = 0;
    'expressions: for e in args {
        sum = sum.saturating_add(parts_in(e, costs));
    }
    sum
}

/// So many parts and one more, which list nothing.
fn one_more(parts: u32) -> Count {
    Count {
        parts: parts.saturating_add(1),
        lists: false,
        loops: false,
    }
}

/// A turn of a loop with this head.
fn turn_with(head: u32, body: Count, costs: Costs<'_>) -> Count {
    let parts = body.parts.saturating_add(head);
    if body.lists {
        return Count {
            parts,
            lists: true,
            loops: true,
        };
    }
    Count {
        parts: parts.saturating_add(costs.turns),
        lists: false,
        loops: false,
    }
}

/// How many parts of a statement run, about: of an `if` the longer branch, of a loop those of a turn.
#[cycle(counts)]
pub fn count_in(s: &Stmt, costs: Costs<'_>) -> Count {
    match &s.kind {
        StmtForm::Block(stmts) => count_all(stmts.as_slice(), costs),
        StmtForm::PutLocal(_, _, value) => one_more(parts_in(value, costs)),
        StmtForm::PutField(_, _, value) => one_more(parts_in(value, costs)),
        StmtForm::PutItem(_, at, _, value) => {
            one_more(parts_in(at, costs).saturating_add(parts_in(value, costs)))
        }
        StmtForm::Invoke(of, _, args) => {
            let given = all_parts(args.as_slice(), costs);
            Count {
                parts: parts_in(of, costs).saturating_add(given).saturating_add(1),
                lists: true,
                loops: false,
            }
        }
        StmtForm::If(test, yes, no) => {
            let one = count_in(yes, costs);
            let other = count_in(no, costs);
            Count {
                parts: parts_in(test, costs).saturating_add(one.parts.max(other.parts)),
                lists: one.lists || other.lists,
                loops: one.loops || other.loops,
            }
        }
        StmtForm::While(test, body) => {
            turn_with(parts_in(test, costs), count_in(body, costs), costs)
        }
        StmtForm::For(_, _, _, test, next, body) => {
            let head = parts_in(test, costs).saturating_add(count_in(next, costs).parts);
            turn_with(head, count_in(body, costs), costs)
        }
        StmtForm::Return(value) => one_more(parts_in(value, costs)),
        _ => one_more(0),
    }
}

#[cycle(counts)]
pub fn count_all(stmts: &[Stmt], costs: Costs<'_>) -> Count {
    let mut parts: u32 = 0;
    let mut lists = false;
    let mut loops = false;
    'statements: for s in stmts {
        let count = count_in(s, costs);
        parts = parts.saturating_add(count.parts);
        lists = lists || count.lists;
        loops = loops || count.loops;
    }
    Count {
        parts,
        lists,
        loops,
    }
}

/// What a call of each value method takes, by their numbers.
fn values_of(alloc: Global, program: &Program) -> Result<Vec<u32>, AllocError> {
    let costs = Costs {
        values: &[],
        other: HEAVY,
        turns: HEAVY,
    };
    let mut values = Vec::with_capacity(alloc, program.functions.len())?;
    for function in &program.functions {
        let count = count_all(function.body.stmts.as_slice(), costs);
        values.push(count.parts.saturating_add(VALUE))?;
    }
    Ok(values)
}

/// Nothing was learned yet.
fn nothing_learned() -> Learned {
    Learned {
        each: None,
        leads: 1,
        step: 0,
        light: false,
        tried: 0,
        since: 0,
        next: 0,
    }
}

/// What is known of an operation by its text, with these costs of value methods and of their further steps.
fn known_of(stmts: &[Stmt], values: &[u32], further: &[u32]) -> Known {
    let turns = Costs {
        values: &[],
        other: VALUE,
        turns: 0,
    };
    let own = Costs {
        values: &[],
        other: VALUE,
        turns: HEAVY,
    };
    let text = Costs {
        values,
        other: HEAVY,
        turns: HEAVY,
    };
    let told = count_all(stmts, text);
    let weight = count_all(stmts, turns).parts.saturating_add(STEP);
    let looped = told.loops || count_all(stmts, own).parts >= HEAVY;
    let turn = if looped {
        weight
    } else {
        all_further(stmts, further).max(FAR)
    };
    Known {
        weight,
        turn,
        told: 0,
        text: told.parts,
        calls: told.lists,
        loops: told.loops,
        locks: None,
        reach: None,
        plain: false,
        learned: nothing_learned(),
        count: UNTOLD,
    }
}

/// What is known of the operations of a program at first, by their numbers.
pub fn weights_of(alloc: Global, program: &Program) -> Result<Vec<Known>, AllocError> {
    let values = values_of(alloc, program)?;
    let further = further_of(alloc, program)?;
    let mut known = Vec::with_capacity(alloc, program.ops.len())?;
    for op in &program.ops {
        let stmts = op.body.stmts.as_slice();
        known.push(known_of(stmts, values.as_slice(), further.as_slice()))?;
    }
    note_told(alloc, program, &mut known);
    Ok(known)
}

/// Whether all of these operations call none.
fn all_call_none(known: &Vec<Known>, ops: &[OpId]) -> bool {
    'operations: for op in ops {
        let number = op.0 as usize;
        if number >= known.len() || known[number].calls {
            return false;
        }
    }
    true
}

/// The most calls that a loop of these statements lists of operations that call none, where the text tells; else 0.
fn told_in(alloc: Global, known: &Vec<Known>, stmts: &[Stmt]) -> usize {
    let mut most: usize = 0;
    'statements: for s in stmts {
        let count = calls_told(s, 1);
        if count != UNTOLD && count > most {
            let mut ops = Vec::new(alloc);
            add_calls(s, &mut ops);
            if ops.len() > 0 && all_call_none(known, ops.as_slice()) {
                most = count;
            }
        }
    }
    most
}

/// Notes how many calls the loops of all operations list.
fn note_told(alloc: Global, program: &Program, known: &mut Vec<Known>) {
    let mut at: usize = 0;
    'operations: for op in &program.ops {
        let told = told_in(alloc, known, op.body.stmts.as_slice());
        if at < known.len() {
            let item = &mut known[at];
            item.told = told;
        }
        at = at.saturating_add(1);
    }
}

/// The most calls that a loop of an operation lists, where its text tells; else 0.
pub fn told_of(known: &Vec<Known>, op: OpId) -> usize {
    let number = op.0 as usize;
    if number < known.len() {
        known[number].told
    } else {
        0
    }
}

/// Whether this call is of an operation that calls no others.
pub fn calls_none(known: &Vec<Known>, op: &Op) -> bool {
    let number = op.op.0 as usize;
    if number < known.len() {
        return !known[number].calls;
    }
    false
}

/// Whether this call is of an operation that calls others in a loop.
pub fn calls_in_loop(known: &Vec<Known>, op: &Op) -> bool {
    let number = op.op.0 as usize;
    if number < known.len() {
        return known[number].loops;
    }
    false
}

/// What a step of this call weighs.
pub fn weight_of(known: &Vec<Known>, op: &Op) -> u64 {
    let number = op.op.0 as usize;
    if number < known.len() {
        u64::from(known[number].weight)
    } else {
        u64::from(UNKNOWN)
    }
}

/// What a further step of it takes.
pub fn turn_of(known: &Vec<Known>, op: &Op) -> u64 {
    let number = op.op.0 as usize;
    if number < known.len() {
        u64::from(known[number].turn)
    } else {
        u64::from(UNKNOWN)
    }
}

/// The most that a step of one of these calls weighs.
pub fn greatest_weight(known: &Vec<Known>, ops: &[Op]) -> u64 {
    let mut greatest = 0;
    for op in ops {
        greatest = weight_of(known, op).max(greatest);
    }
    greatest
}
