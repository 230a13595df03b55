//! Tests of what the crates below the front end have: integers, kinds of host objects, and the table of objects. They
//! are in a crate of tests only, so that the crates with the code are proved once.
//!
//! - `checks`: how a test names the row of a table that is not met.
//! - `rows` and `conversions`: every operator on every type of integers at its extremes, worked out by hand.
//! - `kinds`: what each kind of host objects answers to rows of calls, what it saves, and what it comes back from.
//! - `table`, `reporter` and `steps`: a table whose boxes report that they are given up, and its calls as data, with
//!   memory that is ample or refused once.
//! - `sequences`, `marks`, `arrays`, `limits` and `guesses`: sequences of calls with the events that they leave, what is
//!   named as changed, arrays, a table at its limits, and numbers with the same last bits, with memory that is ample.
//! - `by_slot`: each call that takes a slot beside the one that takes a number.
//! - `states`, `restoring`, `reading`, `pools` and `refused_states`: tables from what a state holds, what is read of one,
//!   the boxes that they take, and those that are given up where a state is refused.
//! - `refusals`: memory that is refused once.
//! - `sentences`: what each fault says to a person.
#![tactic(auto)]

#[cfg(test)]
mod arrays;
#[cfg(test)]
mod by_slot;
#[cfg(test)]
mod checks;
#[cfg(test)]
mod conversions;
#[cfg(test)]
mod guesses;
#[cfg(test)]
mod kinds;
#[cfg(test)]
mod limits;
#[cfg(test)]
mod marks;
#[cfg(test)]
mod pools;
#[cfg(test)]
mod reading;
#[cfg(test)]
mod refusals;
#[cfg(test)]
mod refused_states;
#[cfg(test)]
mod reporter;
#[cfg(test)]
mod restoring;
#[cfg(test)]
mod rows;
#[cfg(test)]
mod sentences;
#[cfg(test)]
mod sequences;
#[cfg(test)]
mod states;
#[cfg(test)]
mod steps;
#[cfg(test)]
mod table;
