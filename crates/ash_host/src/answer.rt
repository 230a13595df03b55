//! What a call of a host object answers.

use crate::Word;

/// What a call of a host object answers.
#[derive(Clone, Copy, Debug)]
pub enum HostAnswer {
    /// The result of a method that has one.
    Value(Word),
    /// That the call is done and has no result.
    Nothing,
    /// An exception of the script, with a code that the object chooses. What the object changed stays.
    Raise(u16),
    /// That memory ran out.
    NoMemory,
}
