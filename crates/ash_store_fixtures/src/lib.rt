//! What the tests of a host share: hosts over disks in memory, and the files of stores written by hand. It promises
//! nothing of what it gives; each call of a host is in a function of its own, so that its contract is seen once and not
//! in every test.
//!
//! `hosts` makes hosts and calls them, `files`, `deltas` and `full` write the files of stores, and `lives` handles what
//! is asked of a host as data.
#![tactic(auto)]

pub mod deltas;
pub mod files;
pub mod full;
pub mod hosts;
pub mod lives;
