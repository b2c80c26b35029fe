//! Schedules that are followed.
//!
//! `Machine` is the pending machine in memory: operations wait, and whichever of them the caller names runs its section
//! next. `Replayer` is an engine that runs each list along the lines of a schedule, by a `Machine`, and keeps the first bad
//! line; where lines don't go on, the engine for one worker runs the list. `check` runs a program by it, and tells
//! whether a schedule follows, or its first bad line.
//! `specs/Steps.antt` says what a step of the machine answers, `specs/Following.antt` how far lines are followed, and
//! `specs/Ending.antt` how lines end.
//!
//! Whoever reads the public clauses must believe each file of `specs/`.
#![tactic(auto)]

mod checking;
mod following;
mod hints;
mod machine;
mod replay;
mod same;

pub use checking::check;
pub use machine::{Machine, StepAnswer};
pub use replay::Replayer;
