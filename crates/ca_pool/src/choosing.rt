//! Which task a worker runs next.

ghost use Rattle.std.specs.Prelude.{◌≡◌, ◌<◌, ℕ, ◌+◌, [], true, None, length, map, option_to_list};
ghost use Rattle.ca_meaning.specs.Multisets.{weight};
ghost use Rattle.ca_logs.specs.declared.log.Task.{Task};
ghost use Rattle.ca_cells.specs.Rounds.{frozen_of};
ghost use Rattle.ca_cells.specs.Seats.{cells_key};
ghost use Rattle.ca_deques.specs.Settings.{Fits, AllFit};
ghost use Rattle.ca_deques.specs.Hands.{Drains};
ghost use Rattle.ca_deques.specs.Thieves.{owner_key, key_of, taken_by_thief};
ghost use Rattle.ca_pool.specs.Work.{setting_of};

use crate::performing::is_free;
use ca_cells::Cells;
use ca_deques::taking::{open_some, put_behind, steal_behind, take_any};
use ca_deques::{Owner, Round, Thieves};
use ca_logs::Task;

/// How many tasks a worker puts back before it waits.
const TRIES: usize = 4;

/// Whether a task would wait just now: whether somebody holds its object. One whose operation takes no lock, by the row, never
/// waits.
#[inline(always)]
fn would_wait(cells: &Cells, locks: &[bool], task: &Task) -> bool
    requires { task.now.op.receiver < length (frozen_of (cells_key cells.now)) }
{
    !is_free(locks, task.op.op) && cells.is_held(task.op.receiver)
}

/// A task that waits for nobody: one whose object is held takes the place of an own one, of the newest at first, then of the
/// one before it, and so on a few times, and that one is tried. Where it has no other of its own it goes behind one that is
/// stolen. Then it is the one at hand.
fn pass_held<N: Round>(
    cells: &Cells,
    locks: &[bool],
    owner: &mut Owner<N>,
    thieves: &mut Thieves<N>,
    share: &mut Vec<Task>,
    task: Task,
) -> Task
    requires setting { N.setting ≡ setting_of (cells_key cells.now) }
    requires share { AllFit N.setting share.old.items }
    requires fits { Fits N.setting task }
    ensures same { owner_key owner.new ≡ owner_key owner.old }
    ensures keys { map key_of thieves.new ≡ map key_of thieves.old }
    ensures share { AllFit N.setting share.new.items }
    ensures fits { Fits N.setting result }
    ensures moved { (h : Task → ℕ) → weight h owner.new.hand.taken + weight (taken_by_thief h) thieves.new + weight h owner.old.hand.pushed + weight h share.old.items + h task ≡ weight h owner.old.hand.taken + weight (taken_by_thief h) thieves.old + weight h owner.new.hand.pushed + weight h share.new.items + h result }
{
    let mut next = task;
    'tries: for behind in 0..TRIES {
        if !would_wait(cells, locks, &next) {
            return next;
        }
        next = put_behind::<N>(owner, share, next, behind);
        if share.len() == 0 {
            return steal_behind::<N>(owner, thieves, share, next);
        }
    }
    next
}

/// As `take_free` says, where the newest task of the share has to wait, or there is none.
#[inline(never)]
fn take_slowly<N: Round>(
    cells: &Cells,
    locks: &[bool],
    owner: &mut Owner<N>,
    thieves: &mut Thieves<N>,
    share: &mut Vec<Task>,
) -> Option<Task>
    requires setting { N.setting ≡ setting_of (cells_key cells.now) }
    requires share { AllFit N.setting share.old.items }
    ensures same { owner_key owner.new ≡ owner_key owner.old }
    ensures keys { map key_of thieves.new ≡ map key_of thieves.old }
    ensures share { AllFit N.setting share.new.items }
    ensures fits { AllFit N.setting (option_to_list result) }
    ensures taken { (h : Task → ℕ) → weight h owner.new.hand.taken + weight (taken_by_thief h) thieves.new + weight h share.old.items + weight h owner.old.hand.pushed ≡ weight h owner.old.hand.taken + weight (taken_by_thief h) thieves.old + weight h share.new.items + weight h (option_to_list result) + weight h owner.new.hand.pushed }
    ensures none { result ≡ None → (share.new.items ≡ []) × Drains owner.new.hand }
{
    match take_any::<N>(owner, thieves, share) {
        Some(task) => Some(pass_held::<N>(cells, locks, owner, thieves, share, task)),
        None => None,
    }
}

/// The newest task of a share.
#[inline(always)]
fn newest<N: Round>(share: &mut Vec<Task>) -> Option<Task>
    requires { AllFit N.setting share.old.items }
    ensures share { AllFit N.setting share.new.items }
    ensures fits { AllFit N.setting (option_to_list result) }
    ensures taken { (h : Task → ℕ) → weight h share.old.items ≡ weight h share.new.items + weight h (option_to_list result) }
    ensures none { result ≡ None → share.old.items ≡ [] }
{
    share.pop()
}

/// Whether a share has a newest task and this waits for nobody just now; the latter nothing rests on.
#[inline(always)]
fn is_ready<N: Round>(cells: &Cells, locks: &[bool], share: &Vec<Task>) -> bool
    requires setting { N.setting ≡ setting_of (cells_key cells.now) }
    requires share { AllFit N.setting share.now.items }
    ensures { result ≡ true → 0 < length share.now.items }
{
    let count = share.len();
    if count == 0 {
        return false;
    }
    !would_wait(cells, locks, &share[count - 1])
}

/// The newest task of the own share that waits for nobody, as far as a few tries find one; where the share has none, of
/// the own deque; and where that has none, one of another's. Before it gives one that has to wait, where it has no other, it
/// tries to steal. Before that it opens tasks of the share to others. `None` only where the share has none
/// then and the deque gave none.
#[inline(always)]
pub fn take_free<N: Round>(
    cells: &Cells,
    locks: &[bool],
    owner: &mut Owner<N>,
    thieves: &mut Thieves<N>,
    share: &mut Vec<Task>,
) -> Option<Task>
    requires setting { N.setting ≡ setting_of (cells_key cells.now) }
    requires share { AllFit N.setting share.old.items }
    ensures same { owner_key owner.new ≡ owner_key owner.old }
    ensures keys { map key_of thieves.new ≡ map key_of thieves.old }
    ensures share { AllFit N.setting share.new.items }
    ensures fits { AllFit N.setting (option_to_list result) }
    ensures taken { (h : Task → ℕ) → weight h owner.new.hand.taken + weight (taken_by_thief h) thieves.new + weight h share.old.items + weight h owner.old.hand.pushed ≡ weight h owner.old.hand.taken + weight (taken_by_thief h) thieves.old + weight h share.new.items + weight h (option_to_list result) + weight h owner.new.hand.pushed }
    ensures none { result ≡ None → (share.new.items ≡ []) × Drains owner.new.hand }
{
    open_some::<N>(owner, share, locks);
    if is_ready::<N>(cells, locks, share) {
        return newest::<N>(share);
    }
    take_slowly::<N>(cells, locks, owner, thieves, share)
}
