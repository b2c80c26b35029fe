//! Deques of tasks, one a worker: what their owners pushed is what was taken and what is left.
//!
//! Over all interleavings of pushes, pops and steals no task is lost and none comes twice. A deque's rule
//! (`specs/Hands.antt`) is kept by each step on it: what it holds, with what all passes took from it, is what its owner
//! pushed, each task as often; and each task fits the round (`specs/Settings.antt`). `handles` has the calls: an `Owner`
//! pushes and pops, and a `Thief`, a pass on another's deque, steals; `thieves` has those of one worker. `taking` has where a
//! worker finds its next task, and where the tasks go that a section lists, and `runs` which neighbours stay together.
//! `opening` makes the deques of a round and the
//! passes, and `settling` takes the passes back and drains the deques; their equations are sums over all owners and all
//! passes (`specs/Settling.antt`). Who uses the deques needs no word of threads.
//!
//! Whoever reads the public clauses must believe each file of `specs/`.
#![tactic(auto)]

pub mod handles;
mod item;
pub mod opening;
pub mod rule;
pub mod runs;
pub mod settling;
pub mod taking;
pub mod thieves;

pub use handles::{Owner, Thief};
pub use opening::{deal, open_owners, open_thieves};
pub use rule::Round;
pub use settling::settle;
pub use thieves::Thieves;
