//! Laws of notes: what a run with marks hands off.
//!
//! A run with marks takes a note of each call of a marked operation and of each marked loop before it runs it, and
//! whoever has an engine hands the notes off. `specs/Handed.antt` says that each note has a typed heap and well typed
//! operations that may run in any order, where the program is typed and the marks are sound, and that without its notes
//! the run is the serial one. So a machine that hands calls off carries no types of its own: what it hands off stands in
//! the list. Each law is the contract of a public function of `laws` with an empty body. The proof, in `proofs/`, goes
//! through the run as that of types of ca_meaning_laws does, with "all notes are good" as part of the good state.
//!
//! Whoever reads the public clauses must believe each file of `specs/`.
#![tactic(auto)]

pub mod laws;
