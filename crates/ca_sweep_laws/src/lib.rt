//! The law of the sections of sweeps.
#![tactic(auto)]

pub mod laws;
