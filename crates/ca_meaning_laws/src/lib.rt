//! Laws of what a program means, above its definitions in ca_meaning.
//!
//! Each law is the contract of a public function with an empty body, so that whoever stands on this
//! crate may cite it. `budgets`: what ends after s steps ends so, with the same result, within every
//! budget of at least s, and what traps within a budget traps alike within every greater one; with it
//! every proof above speaks of the steps that a run takes, and of no budget. `typing`: every construct
//! of a well typed program keeps a typed heap typed, its values have their types, and the calls that it
//! makes are well typed; so do sections with their object and their list.
//! The lemmas behind them are in `proofs/`: `Steady` and `Bigs` for budgets, `Values` and on for types;
//! `Examples` has runs that show what the premises on types are for.
//!
//! Whoever reads the public clauses must believe each file of `specs/`.
#![tactic(auto)]

pub mod budgets;
pub mod typing;
