//! Tests of the crates below, and nothing else: public calls that can run out of memory and that the program doesn't
//! make, once with enough of it; what no clause can say of writers, of disks, of reads and writes that fail, of workers,
//! and of how often an octet is passed over; and a few values of which two clauses speak, as the paths of a graph and the
//! walks that are followed one by one.
//!
//! It has no wrong bodies of its own: nothing stands on a test, so there is no contract here to refuse one. What its tests
//! are worth shows where a body that they call is wrong.
#![tactic(auto)]

#[cfg(test)]
mod tests;
