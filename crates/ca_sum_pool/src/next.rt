//! What a worker runs next: a task, or a call of the list that the round began with, which is lent and isn't copied.

ghost use Rattle.std.specs.Prelude.{◌≡◌, ℕ, ◌+◌, [], map, None, option_copied, option_to_list, IfOk};
ghost use Rattle.ca_meaning.specs.Multisets.{weight};
ghost use Rattle.ca_logs.specs.declared.log.Task.{Task};
ghost use Rattle.ca_logs.specs.Entries.{task_after};
ghost use Rattle.ca_deques.specs.Settings.{Setting, AllFit};
ghost use Rattle.ca_deques.specs.Hands.{Drains};
ghost use Rattle.ca_deques.specs.Thieves.{owner_key, key_of, taken_by_thief};
ghost use Rattle.ca_sum_pool.specs.Parts.{begun, next_task, taken_of, Took};

use crate::callers::is_one;
use crate::performing::WholeCalls;
use ca_deques::taking::{keep, open_some, take_any};
use ca_deques::{Owner, Round, Thieves};
use ca_logs::Task;
use ca_parallel::Op;
use ca_program::OpId;
use std::alloc::AllocError;

/// When a deque holds as few items, its owner opens more.
const FEW: usize = 4;

/// So many calls go from the list into the share at once, whence some are opened to others.
const MANY: usize = 64;

/// A worker looks whether others have enough each time it has run so many tasks of a long share.
const OFTEN: usize = 32;

/// A task, or a call of the list.
#[derive(Drop)]
pub enum Next<'f> {
    Own(Task),
    Call(&'f Op),
}

impl<'f> Next<'f> {
    /// The call.
    #[inline]
    pub fn call(&self) -> &Op
        ensures { result.now ≡ (next_task self.now).op }
    {
        match self {
            Next::Own(task) => &task.op,
            Next::Call(op) => *op,
        }
    }

    /// The clock behind which it runs.
    #[inline]
    pub fn behind(&self) -> u64
        ensures { result ≡ (next_task self.now).after }
    {
        match self {
            Next::Own(task) => task.after,
            Next::Call(_) => 0,
        }
    }

    /// It, as a task of its own.
    pub fn into_task(self) -> Result<Task, AllocError>
        ensures { IfOk result (λ task. task ≡ next_task self.entry) }
    {
        match self {
            Next::Own(task) => Ok(task),
            Next::Call(op) => task_of(op),
        }
    }
}

/// A call as a task that begins the round.
fn task_of(op: &Op) -> Result<Task, AllocError>
    ensures { IfOk result (λ task. task ≡ task_after 0 op.now) }
{
    Ok(Task {
        op: op.copy()?,
        after: 0,
    })
}

/// Takes the first of a worker's calls.
#[inline]
fn take_first<'f>(listed: &'f [Op], at: &mut usize, end: usize) -> Option<&'f Op>
    ensures took { Took listed.now at.old at.new end (option_copied result) }
    ensures none { result ≡ None → begun listed.now at.old end ≡ [] }
{
    let place = *at;
    if end <= place {
        return None;
    }
    if listed.len() <= place {
        return None;
    }
    *at = place + 1;
    Some(&listed[place])
}

/// The same, where the share has no task.
#[inline]
fn take_call<'f>(share: &Vec<Task>, listed: &'f [Op], at: &mut usize, end: usize) -> Option<&'f Op>
    ensures took { Took listed.now at.old at.new end (option_copied result) }
    ensures none { result ≡ None → share.now.items ≡ [] → begun listed.now at.old end ≡ [] }
{
    if share.len() > 0 {
        return None;
    }
    take_first(listed, at, end)
}

/// A task of its own, if there is one.
fn own_task<'f>(task: Option<Task>) -> Option<Next<'f>>
    ensures { taken_of result ≡ task }
{
    match task {
        Some(task) => Some(Next::Own(task)),
        None => None,
    }
}

/// Adds a worker's calls to the rest, as tasks.
pub fn add_calls(
    listed: &[Op],
    first: usize,
    end: usize,
    rest: &mut Vec<Task>,
) -> Result<(), AllocError>
    ensures fits { IfOk result (λ _. (s : Setting) → AllFit s (map (task_after 0) listed.now) → AllFit s rest.old.items → AllFit s rest.new.items) }
    ensures added { IfOk result (λ _. (h : Task → ℕ) → weight h rest.new.items ≡ weight h rest.old.items + weight h (begun listed.now first end)) }
{
    let mut at = first;
    while let Some(call) = take_first(listed, &mut at, end) {
        let task = task_of(call)?;
        rest.push(task)?;
    }
    Ok(())
}

/// Brings the last of a worker's calls into its share, as a task. `false`: there is none, or no memory.
fn bring(listed: &[Op], at: usize, end: &mut usize, share: &mut Vec<Task>) -> bool
    ensures moved { (h : Task → ℕ) → weight h share.new.items + weight h (begun listed.now at end.new) ≡ weight h share.old.items + weight h (begun listed.now at end.old) }
    ensures fits { (s : Setting) → AllFit s (map (task_after 0) listed.now) → AllFit s share.old.items → AllFit s share.new.items }
{
    let place = *end;
    if place <= at {
        return false;
    }
    if listed.len() < place {
        return false;
    }
    let Ok(task) = task_of(&listed[place - 1]) else {
        return false;
    };
    if keep(share, task) {
        *end = place - 1;
        return true;
    }
    false
}

/// Brings some of a worker's calls into its share, as far as there is memory.
fn bring_some(listed: &[Op], at: usize, end: &mut usize, share: &mut Vec<Task>)
    ensures moved { (h : Task → ℕ) → weight h share.new.items + weight h (begun listed.now at end.new) ≡ weight h share.old.items + weight h (begun listed.now at end.old) }
    ensures fits { (s : Setting) → AllFit s (map (task_after 0) listed.now) → AllFit s share.old.items → AllFit s share.new.items }
{
    'calls: for _ in 0..MANY {
        if !bring(listed, at, end, share) {
            return;
        }
    }
}

/// Opens tasks of the share to others, until the deque has enough.
fn open_more<N: Round>(owner: &mut Owner<N>, share: &mut Vec<Task>)
    requires { AllFit N.setting share.old.items }
    ensures same { owner_key owner.new ≡ owner_key owner.old }
    ensures taken { owner.new.hand.taken ≡ owner.old.hand.taken }
    ensures share { AllFit N.setting share.new.items }
    ensures pushed { (h : Task → ℕ) → weight h owner.new.hand.pushed + weight h share.new.items ≡ weight h owner.old.hand.pushed + weight h share.old.items }
{
    'items: for _ in 0..FEW {
        open_some(owner, share, &[]);
    }
}

/// Opens some of a worker's calls to others, where its share has no task and its deque few items.
fn open_calls<N: Round>(
    owner: &mut Owner<N>,
    share: &mut Vec<Task>,
    listed: &[Op],
    at: usize,
    end: &mut usize,
)
    requires share { AllFit N.setting share.old.items }
    requires listed { AllFit N.setting (map (task_after 0) listed.now) }
    ensures same { owner_key owner.new ≡ owner_key owner.old }
    ensures taken { owner.new.hand.taken ≡ owner.old.hand.taken }
    ensures share { AllFit N.setting share.new.items }
    ensures pushed { (h : Task → ℕ) → weight h owner.new.hand.pushed + weight h share.new.items + weight h (begun listed.now at end.new) ≡ weight h owner.old.hand.pushed + weight h share.old.items + weight h (begun listed.now at end.old) }
{
    if share.len() > 0 {
        return;
    }
    if owner.len() >= FEW {
        return;
    }
    bring_some(listed, at, end, share);
    open_more(owner, share);
}

/// Opens tasks of a long share to others now and then, where the deque has few items.
#[inline]
fn open_now_and_then<N: Round>(owner: &mut Owner<N>, share: &mut Vec<Task>)
    requires { AllFit N.setting share.old.items }
    ensures same { owner_key owner.new ≡ owner_key owner.old }
    ensures taken { owner.new.hand.taken ≡ owner.old.hand.taken }
    ensures share { AllFit N.setting share.new.items }
    ensures pushed { (h : Task → ℕ) → weight h owner.new.hand.pushed + weight h share.new.items ≡ weight h owner.old.hand.pushed + weight h share.old.items }
{
    let count = share.len();
    if count >= OFTEN && count % OFTEN == 0 {
        open_more(owner, share);
    }
}

/// Whether a worker runs an operation with all that this leads to, as long as it has patience: one that calls others, where its share
/// or its list has more to run, so that nobody waits for these, or where one was done so: the next one is soon done, too.
#[inline]
pub fn runs_whole(
    patience: WholeCalls,
    share: &Vec<Task>,
    at: usize,
    end: usize,
    callers: &[OpId],
    op: OpId,
) -> bool {
    if patience.steps == 0 {
        return false;
    }
    if !is_one(callers, op) {
        return false;
    }
    if patience.went {
        return true;
    }
    if share.len() > 0 {
        return true;
    }
    at < end
}

/// The newest task of a share.
#[inline]
fn take_own<'f, N: Round>(share: &mut Vec<Task>) -> Option<Next<'f>>
    requires { AllFit N.setting share.old.items }
    ensures share { AllFit N.setting share.new.items }
    ensures fits { AllFit N.setting (option_to_list (taken_of result)) }
    ensures taken { (h : Task → ℕ) → weight h share.old.items ≡ weight h share.new.items + weight h (option_to_list (taken_of result)) }
{
    match share.pop() {
        Some(task) => Some(Next::Own(task)),
        None => None,
    }
}

/// A worker's next call of the list, where its share has no task; and where there is none, a task of its deque, or of another's.
#[inline]
fn take_elsewhere<'f, N: Round>(
    owner: &mut Owner<N>,
    thieves: &mut Thieves<N>,
    share: &mut Vec<Task>,
    listed: &'f [Op],
    at: &mut usize,
    end: &mut usize,
) -> Option<Next<'f>>
    requires share { AllFit N.setting share.old.items }
    requires listed { AllFit N.setting (map (task_after 0) listed.now) }
    ensures same { owner_key owner.new ≡ owner_key owner.old }
    ensures keys { map key_of thieves.new ≡ map key_of thieves.old }
    ensures share { AllFit N.setting share.new.items }
    ensures fits { AllFit N.setting (option_to_list (taken_of result)) }
    ensures taken { (h : Task → ℕ) → weight h owner.new.hand.taken + weight (taken_by_thief h) thieves.new + weight h owner.old.hand.pushed + weight h share.old.items + weight h (begun listed.now at.old end.old) ≡ weight h owner.old.hand.taken + weight (taken_by_thief h) thieves.old + weight h owner.new.hand.pushed + weight h share.new.items + weight h (begun listed.now at.new end.new) + weight h (option_to_list (taken_of result)) }
    ensures none { result ≡ None → (share.new.items ≡ []) × (begun listed.now at.new end.new ≡ []) × Drains owner.new.hand }
{
    open_calls(owner, share, listed, *at, end);
    match take_call(share, listed, at, *end) {
        Some(call) => Some(Next::Call(call)),
        None => own_task(take_any(owner, thieves, share)),
    }
}

/// What a worker runs next: the newest task of its share; where there is none, its next call of the list; and then a task of
/// its deque, or of another's. `None` only where share and list have none and its deque gave none.
#[inline]
pub fn take_next<'f, N: Round>(
    owner: &mut Owner<N>,
    thieves: &mut Thieves<N>,
    share: &mut Vec<Task>,
    listed: &'f [Op],
    at: &mut usize,
    end: &mut usize,
) -> Option<Next<'f>>
    requires share { AllFit N.setting share.old.items }
    requires listed { AllFit N.setting (map (task_after 0) listed.now) }
    ensures same { owner_key owner.new ≡ owner_key owner.old }
    ensures keys { map key_of thieves.new ≡ map key_of thieves.old }
    ensures share { AllFit N.setting share.new.items }
    ensures fits { AllFit N.setting (option_to_list (taken_of result)) }
    ensures taken { (h : Task → ℕ) → weight h owner.new.hand.taken + weight (taken_by_thief h) thieves.new + weight h owner.old.hand.pushed + weight h share.old.items + weight h (begun listed.now at.old end.old) ≡ weight h owner.old.hand.taken + weight (taken_by_thief h) thieves.old + weight h owner.new.hand.pushed + weight h share.new.items + weight h (begun listed.now at.new end.new) + weight h (option_to_list (taken_of result)) }
    ensures none { result ≡ None → (share.new.items ≡ []) × (begun listed.now at.new end.new ≡ []) × Drains owner.new.hand }
{
    open_now_and_then(owner, share);
    match take_own::<N>(share) {
        Some(own) => Some(own),
        None => take_elsewhere(owner, thieves, share, listed, at, end),
    }
}
