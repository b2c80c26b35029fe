//! Laws of laid-out programs: the instructions of a program do what it means.
//!
//! A program is laid out as rows of instructions (`Kinds.antt`, `Instructions.antt` and `Layout.antt` of `ca_program/specs`,
//! and with marks `specs/Heeding.antt`), and a machine runs them over slots of numbers (`Words.antt`) and a world (`Machine.antt`),
//! which is that of a run or of a section (`Runs.antt`).
//! Each law is the contract of a public function of `laws` with an empty body. The README of this crate says what each
//! says, and how it is proved.
//!
//! Whoever reads the public clauses must believe each file of `specs/`.
#![tactic(auto)]

pub mod laws;
