//! Tests of disks and the journal, with memory that is ample: bytes that were worked out by hand, disks that fail at
//! each call, and what crashes leave. It has only tests, so that the crates with the code are proved once.
#![tactic(auto)]

#[cfg(test)]
mod compare;
#[cfg(test)]
mod disks;
#[cfg(test)]
mod journal;
