//! Programs laid out as instructions.
#![tactic(auto)]

mod acts;
mod bodies;
mod expressions;
mod ins;
mod layout;
mod rows;
mod scope;
mod statements;

pub use bodies::{Bodies, PlainBodies, ValueBodies};
pub use ins::{Ins, Kind, Row, kind_type};
pub use layout::{Code, lay_out_once, lay_out_with};
pub use rows::Rows;
pub use scope::Scope;
