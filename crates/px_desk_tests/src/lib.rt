//! Tests of turns, desks and executives: threads that take turns, a seat that counts what another one posts, and an
//! executive whose disk has failed.
//!
//! A crate with tests is proved a second time for them, so those of the threads stand together above what they test.
#![tactic(auto)]

#[cfg(test)]
mod closed;
#[cfg(test)]
mod opening;
#[cfg(test)]
mod turns;
#[cfg(test)]
mod two_seats;
