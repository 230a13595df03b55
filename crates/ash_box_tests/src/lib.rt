//! Tests of stores that are made and opened with boxes of host objects. They are in a crate of tests alone, which uses
//! no more than the durable host, so that they need not wait for what serves it.
//!
//! - `watched`: a box that reports what becomes of it, and the reports as a text.
//! - `visits`: a store that is made or opened with such boxes, and is asked something, as data.
//! - `files`: the files of such stores, written by hand.
//! - `services`: which services a host takes, with what states, and what becomes of the other boxes.
//! - `objects`: which boxes host objects take, and when those are given up.
//! - `refused`: stores that are not made or not opened, in the order of what is wrong, and whose disks read as before.
//! - `moments`: crashes at each moment of a making and of an opening.
//! - `refusals`: memory that is refused once.
#![tactic(auto)]

#[cfg(test)]
mod checks;
#[cfg(test)]
mod files;
#[cfg(test)]
mod moments;
#[cfg(test)]
mod objects;
#[cfg(test)]
mod refusals;
#[cfg(test)]
mod refused;
#[cfg(test)]
mod services;
#[cfg(test)]
mod visits;
#[cfg(test)]
mod watched;
