//! Sweeps: loops that add the same to each item of a range of an array.
#![tactic(auto)]

pub mod laws;
mod loops;

pub use crate::loops::{SweepLoop, counts_up, sweep_at, sweep_form, sweep_in};
