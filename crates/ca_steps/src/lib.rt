//! Instructions, one after the other: in the frame of a body, and from frame to frame.
#![tactic(auto)]

mod access;
mod body;
mod calls;
mod creations;
mod doors;
mod fast;
mod frames;
mod fused;
mod gated;
mod handed;
mod here;
mod inside;
mod loads;
mod numbers;
mod objects;
mod pieces;
mod ran;
mod row;
mod run;
mod running;
mod stack;
mod step;
mod wide;
mod words;

pub use access::{Access, Look};
pub use body::run_body;
pub use calls::Went;
pub use creations::Made;
pub use doors::{Door, Mark};
pub use fast::do_op;
pub use frames::{Frames, Waiting, number_of, receiver_of};
pub use here::Here;
pub use inside::run_on;
pub use loads::{Read, Target, field_of, look_at, own_field, own_look};
pub use numbers::{Out, sum_of};
pub use ran::{Exit, Ran, Stop};
pub use run::InRun;
pub use running::{Event, Halt, Laid, row_at, run_from};
pub use step::{Step, do_one};
pub use words::{has_kind, read_as, word};
