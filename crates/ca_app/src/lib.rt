//! All that the program does: words and a source in, bytes and a status out.
//!
//! `top` promises that what it writes is the reply of the words and the text, which for a run is the
//! text of the depth-first serial run; or it answers out of memory, or a failed read or write of a
//! device whose count of faults rose in this call. It holds for every source and sink, since it is
//! stated on what they tell. It serves `run WORKERS BUDGET`, by `ca_serial` and the engine `OneWorker`
//! of `ca_run` or, for more workers, that of `ca_workers`, and `pairs`, `plan` and `emit`, all by the plan of `ca_plan`.
//! `gen SEED SIZE` and `load SEED SIZE WORKERS` read no text: the one writes that which `generate` gives, which is accepted and
//! runs to its end, and the other runs it and writes what it left in one line.
//! `trace WORKERS BUDGET` runs a source as `run` does and writes the schedule of the run: the order in which the operations of
//! its parallel extents ran. It has as many replies as there are such orders, and `top` promises one of them.
//! `verify BUDGET` reads a source with a schedule behind it, and tells whether a run can have had that order.
//! `specs/Accepted.antt` and `specs/Refusals.antt` say which texts are accepted and where the others
//! are refused, `specs/Reply.antt` has the replies, and `specs/Ends.antt` how a call ends.
//!
//! Whoever reads the public clauses must believe `Accepted`, `Causes`, `Ends`, `Numbers`, `Refusals`, `Reply`, `Summary`, `Told`,
//! `Traced` and `Verified` of `specs/`; what stands in `specs/clauses/` serves clauses within the crate alone.
#![tactic(auto)]

mod ending;
mod generating;
mod laws;
mod lines;
mod loading;
mod reading;
mod refusals;
mod running;
mod serving;
mod summary;
mod telling;
mod tracing;
mod unread;
mod verifying;

pub use generating::generate;
pub use laws::{
    accepted_programs_are_typed, annotated_texts_keep_the_lock, codes_and_statuses_are_these,
    one_reply, traces_are_verified,
};
pub use serving::top;
