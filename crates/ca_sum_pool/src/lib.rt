//! Rounds of replicas: workers that need no cells, where an extent only sums.
//!
//! A round deals its first tasks to the workers, each with a deque and a replica of its own, and each worker runs at most
//! a quota of tasks, its own or stolen ones, on its replica: no worker waits for another. Where it has more to run, or ran one so
//! before, it runs one with all that it leads to, if that is soon done; else the section alone, whose calls become tasks. A list of calls with which a round
//! begins is lent: each worker has some of them, and runs them as they stand there. What is left comes back as the rest.
//! `next` has what a worker runs next, `callers` which operations call others, `performing` the run of one task, `counting` counts and sums of steps, `part` one
//! worker's loop and the invariant of its part (`specs/Parts.antt`), and `running` the loop over all workers by halves.
//! `assembling` makes the parts and takes them apart, and `working` has the workers' share of a round from end to end. When
//! all have ended, `finishing` has the tasks that the caller runs itself, on a replica of its own, and `round` the whole.
//!
//! What a round says of its entries (`specs/Rounded.antt`) it says of entries that nobody stores.
//!
//! Whoever reads the public clauses must believe `specs/Rounded.antt`; `Parts.antt` serves clauses within the crate.
#![tactic(auto)]

mod assembling;
mod callers;
mod counting;
mod finishing;
pub mod next;
mod part;
pub mod performing;
mod round;
mod running;
mod working;

pub use performing::Stuck;
pub use round::{SummedRound, round_summed};
