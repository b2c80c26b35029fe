//! Parts of a round, put together before the workers run and taken apart behind them.

ghost use Rattle.std.specs.Prelude.{◌≡◌, ◌<◌, ◌≤◌, ℕ, [], ◌∷◌, ◌++◌, length, map, option_to_list, IfOk, IfSome, IfNone};
ghost use Rattle.ca_meaning.specs.Multisets.{weight};
ghost use Rattle.ca_logs.specs.declared.log.Task.{Task};
ghost use Rattle.ca_logs.specs.Entries.{task_after};
ghost use Rattle.ca_deques.specs.Settings.{AllFit};
ghost use Rattle.ca_deques.specs.Thieves.{taken_by_thief};
ghost use Rattle.ca_deques.specs.Settling.{AreUnused, all_of as all_thieves};
ghost use Rattle.ca_sum_pool.specs.Parts.{Assembled, Given, Torn, TornOff};
ghost use Rattle.ca_sum_pool.specs.Rounded.{copies_in};

use crate::counting::{both_counts, both_steps};
use crate::next::add_calls;
use crate::part::{Part, Pieces};
use crate::performing::{Stuck, Sums};
use ca_beside::Beside;
use ca_deques::taking::pour;
use ca_deques::{Owner, Round, Thieves};
use ca_logs::Task;
use ca_parallel::Op;
use ca_replica::Replica;
use std::alloc::{AllocError, Global};

/// What the last worker has.
fn last_worker<N: Round>(
    owners: &mut Vec<Owner<N>>,
    thieves: &mut Vec<Thieves<N>>,
) -> Option<(Owner<N>, Thieves<N>)>
    requires { length thieves.old.items ≡ length owners.old.items }
    ensures last { IfSome result (λ r. (owners.old.items ≡ owners.new.items ++ r.0 ∷ []) × (thieves.old.items ≡ thieves.new.items ++ r.1 ∷ [])) }
    ensures none { IfNone result (owners.old.items ≡ []) }
{
    let owner = owners.pop()?;
    let Some(mine) = thieves.pop() else {
        unreachable!();
    };
    Some((owner, mine))
}

/// Where the calls of a worker begin, of those up to a place, which so many workers before it get, too.
fn begin_of(end: usize, before: usize) -> usize
    ensures within { result ≤ end }
    ensures all { before ≡ 0 → result ≡ 0 }
{
    if before == 0 {
        return 0;
    }
    if before < 64 {
        end - end / (before + 1)
    } else {
        end - end / 64
    }
}

/// A part for each worker, that of the last one first, with about as many calls of the list each, and as much memory for
/// copies from beside the heap.
pub fn assemble<N: Round, K: Sums>(
    alloc: Global,
    mut owners: Vec<Owner<N>>,
    mut thieves: Vec<Thieves<N>>,
    calls: usize,
    quota: u32,
    left: u64,
    memory: &mut Beside,
) -> Result<Vec<Part<N, K>>, AllocError>
    requires count { length thieves.items ≡ length owners.items }
    requires some { 0 < length owners.items }
    requires calls { calls ≡ length K.listed }
    requires unused { AreUnused owners.items × ((h : Task → ℕ) → weight (taken_by_thief h) (all_thieves thieves.items) ≡ 0) }
    requires left { left ≡ K.left }
    ensures assembled { IfOk result (λ parts. Assembled owners.items thieves.items parts.items) }
    ensures given { IfOk result (λ parts. Given K.listed parts.items) }
    ensures memory { IfOk result (λ _. memory.new ≡ memory.old) }
{
    let mut parts = Vec::new(alloc);
    let mut end = calls;
    while let Some((owner, mine)) = last_worker(&mut owners, &mut thieves) {
        let before = owners.len();
        let worker = if before < 64 { before as u32 } else { 64 };
        let from = begin_of(end, before);
        let replica = Replica::lent(alloc, memory, before, quota as usize);
        let part = Part::<N, K>::of(alloc, owner, mine, replica, from, end, worker, quota, left);
        parts.push(part)?;
        end = from;
    }
    Ok(parts)
}

/// What all workers had, in their order, what is left of their tasks, and how many ran in how many steps.
#[derive(Drop)]
pub struct Apart<N: Round> {
    pub owners: Vec<Owner<N>>,
    pub thieves: Vec<Thieves<N>>,
    pub replicas: Vec<Replica>,
    pub stuck: Vec<Stuck>,
    pub count: u32,
    pub steps: Option<u64>,
    pub rest: Vec<Task>,
}

/// Adds a task whose section stopped, if there is one.
fn add_stuck(all: &mut Vec<Stuck>, stuck: Option<Stuck>) -> Result<(), AllocError>
    ensures { IfOk result (λ _. all.new.items ≡ all.old.items ++ option_to_list stuck) }
{
    match stuck {
        Some(one) => {
            all.push(one)?;
            Ok(())
        }
        None => Ok(()),
    }
}

/// Puts the pieces of a part behind those of others. Its share, and its calls that are left, go into the rest. It is refused
/// too where the worker lacked memory.
fn put_apart<N: Round, K: Sums>(
    part: Part<N, K>,
    apart: &mut Apart<N>,
    listed: &[Op],
    left: u64,
) -> Result<(), AllocError>
    requires left { left ≡ K.left }
    requires listed { K.listed ≡ listed.now }
    requires calls { AllFit N.setting (map (task_after 0) listed.now) }
    ensures { IfOk result (λ _. TornOff N.setting K.extent K.left part apart.old.owners.items apart.new.owners.items apart.old.thieves.items apart.new.thieves.items (copies_in apart.old.replicas.items) (copies_in apart.new.replicas.items) apart.old.stuck.items apart.new.stuck.items apart.old.count apart.new.count apart.old.steps apart.new.steps apart.old.rest.items apart.new.rest.items) }
{
    let Pieces {
        owner,
        thieves,
        replica,
        share,
        from: _,
        to: _,
        at,
        end,
        stuck,
        count,
        steps,
        short,
    } = part.apart();
    if short {
        return Err(AllocError);
    }
    apart.owners.push(owner)?;
    apart.thieves.push(thieves)?;
    apart.replicas.push(replica)?;
    add_stuck(&mut apart.stuck, stuck)?;
    apart.count = both_counts(apart.count, count);
    apart.steps = both_steps(apart.steps, steps, left);
    add_calls(listed, at, end, &mut apart.rest)?;
    pour(share, &mut apart.rest)
}

/// Takes all parts apart. What is left of their tasks and calls goes into the rest. It is refused too where a worker lacked
/// memory.
pub fn take_apart<N: Round, K: Sums>(
    alloc: Global,
    mut parts: Vec<Part<N, K>>,
    rest: Vec<Task>,
    listed: &[Op],
    left: u64,
) -> Result<Apart<N>, AllocError>
    requires fits { AllFit N.setting rest.items }
    requires listed { K.listed ≡ listed.now }
    requires calls { AllFit N.setting (map (task_after 0) listed.now) }
    requires left { left ≡ K.left }
    ensures { IfOk result (λ apart. Torn N.setting K.extent K.left parts.items apart.owners.items apart.thieves.items (copies_in apart.replicas.items) apart.stuck.items apart.count apart.steps rest.items apart.rest.items) }
{
    let mut apart = Apart {
        owners: Vec::new(alloc),
        thieves: Vec::new(alloc),
        replicas: Vec::new(alloc),
        stuck: Vec::new(alloc),
        count: 0,
        steps: Some(0),
        rest,
    };
    while let Some(part) = parts.pop() {
        put_apart(part, &mut apart, listed, left)?;
    }
    Ok(apart)
}
