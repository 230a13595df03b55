//! Typed trees, from their smallest parts up.

pub mod expressions;
pub mod items;
pub mod operations;
pub mod statements;
