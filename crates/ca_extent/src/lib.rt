//! The extents of operations: what a run of them may invoke, directly or indirectly, and what that writes.
//!
//! `extent_of` computes the extent of some operations by a work list over the calls in their bodies, and
//! one over the value methods; `Extent::is_constant` tells whether a field keeps its value. Both equal
//! their definitions in `ca_parallel`. `numbers` and `targets` read a body, `reached` is the work list, and
//! `rising` puts what was found in order.
//!
//! The public clauses cite definitions of the crates below; what stands in `specs/clauses/` serves clauses within
//! the crate alone.
#![tactic(auto)]

mod extent;
mod numbers;
mod reached;
mod rising;
mod targets;

pub use extent::{Extent, extent_of};
