//! Normal forms as values: polynomials modulo 2^64 over atoms, comparisons, quotients, reads and results, for
//! numbers and truth values, and the forms of pointers and arrays. They are built product by product in an
//! ordered map, copied and compared. What a form is the form of, and what it means, stands in ca_norm.
//!
//! Whoever reads the public clauses must believe `ArrayFalls`, `ArrayRules`, `Arrays`, `ArraysSeen`, `Compare`,
//! `Falls`, `Lists`, `Plain`, `Products`, `Rules`, `Seen` and `Trees` of `specs/`; what stands in `specs/clauses/`
//! serves clauses within the crate alone.
#![tactic(auto)]

pub mod array;
pub mod array_rules;
mod copies;
pub mod folds;
mod form;
mod operands;
mod order;
pub mod parts;
pub mod pointers;
pub mod polynomial;
mod products;
pub mod rules;
mod selections;
mod sort;
pub mod sums;

pub use crate::form::Normal;
pub use crate::order::compare_scalars;
pub use crate::sort::Sort;
