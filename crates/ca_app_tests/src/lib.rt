//! Tests of the whole program: calls of `top` over devices in memory, with ample memory, and over devices that give and take at most
//! so many bytes a call, each read and each write failing in turn. What `top` answers is proved where it stands. The tests have a
//! crate of their own so that it is proved once.
#![tactic(auto)]

#[cfg(test)]
mod calls;
#[cfg(test)]
mod devices;
#[cfg(test)]
mod ends;
#[cfg(test)]
mod gates;
#[cfg(test)]
mod generated;
#[cfg(test)]
mod meetings;
#[cfg(test)]
mod pieces;
#[cfg(test)]
mod plans;
#[cfg(test)]
mod refusals;
#[cfg(test)]
mod refused;
#[cfg(test)]
mod replies;
#[cfg(test)]
mod runs;
#[cfg(test)]
mod samples;
#[cfg(test)]
mod sources;
#[cfg(test)]
mod traced;
#[cfg(test)]
mod verified;
#[cfg(test)]
mod watch;
