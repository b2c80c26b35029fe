//! Tests of cells and of the pool: each call where there is ample memory, four threads that share ten objects, and rounds of 1, 2, 4
//! and 64 workers over 1,000 tasks, with quotas of 1, 7 and 16,384; and how often rounds pass the gate.
//!
//! What the calls answer, and that a round loses no task, is proved where they stand. The tests have a crate of their own so that
//! cells and pool are proved once.
#![tactic(auto)]

#[cfg(test)]
mod collected;
#[cfg(test)]
mod histories;
#[cfg(test)]
mod neighbours;
#[cfg(test)]
mod rounds;
#[cfg(test)]
mod setting;
