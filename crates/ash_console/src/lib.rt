//! What the commands of `sibreult` share: how they end, the files of scripts and of stores, and what requests come to, in
//! sentences.
//!
//! The status of an ending has a contract. The rest is safe and ends, and what it prints is tested: no contract speaks of
//! files, nor of sentences.
//!
//! In reading order: `ending`, the statuses; `script`, the file of a script; `store`, the files of a store, and why they
//! can't be used; `stored`, the modules of a store that is not open yet; `replies`, what a request came to.
#![tactic(auto)]

pub mod ending;
pub mod replies;
pub mod script;
pub mod store;
pub mod stored;
