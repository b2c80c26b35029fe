//! Laws of order: why the operations of a parallel extent may run in any order.
//!
//! In a parallel extent every operation is a section, which changes its receiver alone, and then a list of calls,
//! and sections on one object commute. `specs/Pending.antt` has the machine that runs sections of waiting operations
//! in any order, `Order.antt` the laws as statements; each is the contract of a public function of `laws` with an
//! empty body, so that whoever stands on this crate may cite it. The premises are a typed program, typed heaps,
//! well typed operations of an extent, and that the extent is parallel, or for a call alone that it is separable.
//! The lemmas are in `proofs/`: `Likes` to `Agreeing` (values agree in heaps that differ in written fields alone),
//! `Grown` and `Frames` (what sections and runs change), `Related`, `First` and `Back` (from the serial run to the
//! section and its list, and back), `Weights` to `DepthFirst` (the machine), `Setting` (sections as its steps).
//! `Examples` has an extent of three operations that run in two orders, a loop of calls in `main`, and two calls that
//! don't commute; `IllTyped` a program that is not typed, where all else holds and two orders have two ends.
//!
//! Whoever reads the public clauses must believe each file of `specs/`.
#![tactic(auto)]

pub mod laws;
