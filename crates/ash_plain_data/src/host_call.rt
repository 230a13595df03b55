//! Calls of host objects and services, and what they answer.

use ash_host::{HostAnswer, Target, Word};

/// A call of a host object or a service, with what it is handed.
#[derive(Drop)]
pub enum HostCall {
    /// Its construction.
    Start { args: Vec<Word> },
    /// A method, or a function of a service.
    Invoke { method: u16, args: Vec<Word> },
    /// What a property has.
    Get { property: u16 },
    /// A property that gets a value.
    Set { property: u16, value: Word },
}

/// One call: whom it went to, what it was, the state before it, the answer, and the state after it.
#[derive(Drop)]
pub struct HostRecord {
    pub target: Target,
    pub call: HostCall,
    pub before: Vec<u8>,
    pub answer: HostAnswer,
    pub after: Vec<u8>,
}
