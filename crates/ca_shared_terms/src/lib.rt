//! Terms that are not too heavy for a normal form, shared by all that they stand in.
//!
//! A `LightTerm` means a term of `ca_norm`. Each maker gives the term that its name says, and refuses exactly the one that
//! is too heavy (`specs/Heavy.antt`). The normal form of a term, or its part as a number or as a polynomial, is that of
//! the term with nothing shared.
//!
//! Whoever reads the public clauses must believe each file of `specs/` itself; what stands in `specs/clauses/` serves
//! clauses within the crate alone.
#![tactic(auto)]

mod errors;
mod formed;
mod kept;
mod light;
mod operands;
mod same;
mod starts;

pub use crate::errors::ExecutionError;
pub use crate::kept::Conditions;
pub use crate::light::LightTerm;
pub use crate::starts::{FIELDS, fields_of, sort_of_slot, sort_of_type};
