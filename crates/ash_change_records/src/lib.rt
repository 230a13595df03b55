//! What a request changed, as a delta.
#![tactic(auto)]

pub mod laws;
