//! The trees of scripts, from their smallest parts up.

pub mod expressions;
pub mod items;
pub mod operators;
pub mod places;
pub mod statements;
pub mod types;
