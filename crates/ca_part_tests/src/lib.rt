//! Tests of the parts of the program: each call that takes memory, or that a device serves, and an answer of each other, where there
//! is ample memory, but for what the tests of the pool and of the whole program call. What the calls answer is proved where they
//! stand. The tests have a crate of their own so that those crates are proved once, and one for them all, since each crate of tests
//! reads all libraries below it twice.
#![tactic(auto)]

#[cfg(test)]
mod arrays;
#[cfg(test)]
mod canonical;
#[cfg(test)]
mod copies;
#[cfg(test)]
mod devices;
#[cfg(test)]
mod erased;
#[cfg(test)]
mod expressions;
#[cfg(test)]
mod extents;
#[cfg(test)]
mod faults;
#[cfg(test)]
mod folds;
#[cfg(test)]
mod forms;
#[cfg(test)]
mod heaps;
#[cfg(test)]
mod hostile;
#[cfg(test)]
mod instructions;
#[cfg(test)]
mod lexer;
#[cfg(test)]
mod limits;
#[cfg(test)]
mod marked;
#[cfg(test)]
mod olds;
#[cfg(test)]
mod operators;
#[cfg(test)]
mod orders;
#[cfg(test)]
mod runs;
#[cfg(test)]
mod sections;
#[cfg(test)]
mod separated;
#[cfg(test)]
mod shut;
#[cfg(test)]
mod sources;
#[cfg(test)]
mod sums;
#[cfg(test)]
mod terms;
#[cfg(test)]
mod values;
#[cfg(test)]
mod verdicts;
#[cfg(test)]
mod wholes;
#[cfg(test)]
mod words;
