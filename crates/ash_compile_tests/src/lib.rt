//! Tests that sources are compiled: their code is valid, and has what their modules declare.
#![tactic(auto)]

#[cfg(test)]
mod compiled;
