//! Replicas: what each worker added to the objects of an extent that only sums.
//!
//! `summed` tells whether an extent only sums: whether all that its operations do with a field that they write is to add
//! to it. A `Replica` has copies of the objects that a worker touched, in which the written numbers began at 0
//! (`zeroing`), so what stands in them is what the worker's sections added. It runs sections on these copies, or a call with all
//! that it leads to (`in_place`, `ground`, `values`, `marks`), and adds the sums to a heap, or to the objects beside one (`adding`).
//! `specs/Zeroed.antt` and `Adding.antt` say what copies that begin at 0 and sums are, `Applied.antt` what a section adds, `Calls.antt`
//! what came of a whole call, and `Together.antt` that the sums of all workers, added one after the other to a heap, are what a run of
//! the pending machine leaves.
//!
//! Whoever reads the public clauses must believe each file of `specs/`; `InPlace.antt` and `Unsummed.antt` serve clauses within the
//! crate.
#![tactic(auto)]

mod adding;
mod deciding;
mod ground;
mod in_place;
pub mod laws;
mod marks;
mod replica;
mod values;
mod zeroing;

pub use deciding::summed;
pub use marks::{FieldMark, marks_of};
pub use replica::{Bench, Replica};
