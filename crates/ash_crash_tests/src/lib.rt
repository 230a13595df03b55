//! Tests of stores with host objects and a service whose disks fail at each call, that crash at each moment, or that
//! are refused memory once. Each is opened with new boxes, to the state after some of the requests, all that were
//! acknowledged among them.
//!
//! - `checks`: comparisons.
//! - `plans`: what is asked of a store, and what is found after each request, as data.
//! - `visits`: a store that is made or opened with new boxes, and is asked lines.
//! - `records`: the bytes of a record.
//! - `moments`: stops at each call of either disk, and crashes at each moment.
//! - `refusals`: memory that is refused once.
#![tactic(auto)]

#[cfg(test)]
mod checks;
#[cfg(test)]
mod moments;
#[cfg(test)]
mod plans;
#[cfg(test)]
mod records;
#[cfg(test)]
mod refusals;
#[cfg(test)]
mod visits;
