//! Tests of what crosses the host: in `stores` its calls and the stores that they leave, and in the other modules
//! serving: requests and their replies, byte for byte, where a disk, a reader or a writer fails or is interrupted and
//! after a crash, and stores with what the program registers. It has tests alone, so that the crates with the code are
//! proved once; what requests to the program itself show is in the transcripts and rows of `tests/`.
//!
//! `hosts` makes the hosts of the others and has them serve requests, and `rows` compares their replies: the rows are
//! in `limits`, `integers`, `exceptions`, `classes`, `interfaces`, `arrays`, `host_objects` and `requests`.
#![tactic(auto)]

#[cfg(test)]
mod arrays;
#[cfg(test)]
mod checks;
#[cfg(test)]
mod classes;
#[cfg(test)]
mod disks;
#[cfg(test)]
mod exceptions;
#[cfg(test)]
mod host_objects;
#[cfg(test)]
mod hosts;
#[cfg(test)]
mod integers;
#[cfg(test)]
mod interfaces;
#[cfg(test)]
mod interrupted;
#[cfg(test)]
mod limits;
#[cfg(test)]
mod registered;
#[cfg(test)]
mod requests;
#[cfg(test)]
mod rows;
#[cfg(test)]
mod serving;
#[cfg(test)]
mod stores;
