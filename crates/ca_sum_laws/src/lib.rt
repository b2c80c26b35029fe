//! The laws of summed extents.
//!
//! In a summed extent the written fields are only added to, and what is added, what else is evaluated and whom a body
//! calls depend on constants alone (`specs/Summed.antt`). So a section moves each object of its class by the same
//! differences (`Moves`), and workers that each run sections on copies of their own, from whatever heap stands for the
//! frozen one, have done together what one run of the pending machine does (`Replicas`). Each law is the contract of a
//! function of `laws`. The lemmas are in `proofs/`: `Slots` and `Alike` (one section on two objects), `OnlySums`, `Heaps`
//! and `Merging` (heaps that move by differences), `Entering` (what an entry changes), `Running` (replicas of the frozen
//! heap), `FromHeap` and `Facts` (replicas of others), `Calls` (a whole call as entries). `Examples` has a bin that is added to in two ways and one whose sum
//! is read.
//!
//! Whoever reads the public clauses must believe each file of `specs/`.
#![tactic(auto)]

pub mod laws;
