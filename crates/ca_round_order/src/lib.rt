//! The operations of a round, in the order of its log.
//!
//! A round leaves its entries history by history, and then the loose ones list by list. In the order of the log they are a run
//! of the pending machine (`ca_logs`): by clock, then by object, and those that are equal in both as they stood. That is what a
//! stable sort gives, for such an order there is only one.
//!
//! Whoever reads the public clause must believe `ca_logs/specs`; what stands in `specs/` here serves clauses within the crate
//! alone.
#![tactic(auto)]

mod order;

pub use order::in_order;
