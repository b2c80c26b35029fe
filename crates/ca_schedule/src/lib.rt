//! How marked lists are run: in order, in rounds at once, or in rounds behind a run alone.
//!
//! Each way ends as the serial run or is undone, so each choice is sound, and hardly a clause is here. `policy` has all numbers that decide,
//! each with what it was measured by; `schedule` has the decision. It knows a program by its text (`weights`, `further`, `texts`, `reaches`),
//! a list by a sample of its operations, which run beside the heap and are forgotten (`sampling`, `judging`), and lists to come by those
//! before them (`tables`, `habits`). `thinning` leaves the marks of operations that only open marked loops to these.
//!
//! `back` has the way back of a list that has begun rounds: where one met more than the sample told, what is left goes on in order.
//! `patience` tells how long what runs ahead of rounds may take, and `neighbours` which operations pass the gate there. `roots` has the
//! extent of calls, and `copies` whether each worker may keep sums of its own.
#![tactic(auto)]

mod back;
mod copies;
mod further;
mod habits;
mod judging;
mod neighbours;
mod patience;
mod policy;
mod reaches;
mod roots;
mod sampling;
mod schedule;
mod tables;
mod texts;
mod thinning;
mod weights;

pub use back::{Expected, Met};
pub use copies::may_copy;
pub use neighbours::{Entered, Neighbours, SharedGate, takes_lock};
pub use patience::Patience;
pub use roots::extent_of_calls;
pub use sampling::at_hand;
pub use schedule::{Schedule, Treatment};
pub use weights::{Known, calls_in_loop, calls_none, turn_of, weight_of};
