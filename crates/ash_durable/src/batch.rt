//! Several requests in one call, and the replies to them.

use ash_host::Word;
use ash_requests::{Answer, Arg, Shown};
use ash_states::state::HostRefusal;

/// A request of a batch.
#[derive(Clone, Copy)]
pub enum BatchRequest<'a> {
    /// Load a source as a module of this name.
    Load {
        name: &'a str,
        source: &'a [u8],
    },
    /// Call a function of a module.
    Call {
        module: &'a str,
        function: &'a str,
        args: &'a [Arg],
    },
    /// Remove a module.
    Discard {
        name: &'a str,
    },
    /// Look at a global of a module.
    Global {
        module: &'a str,
        name: &'a str,
    },
    /// Look at the object of a number.
    Object(u64),
    /// How many requests have been answered?
    Seq,
    /// What is no request, by the number of its refusal.
    Bad(u16),
}

/// The reply to a request of a batch.
#[derive(Drop)]
pub enum BatchReply {
    Answer(Answer),
    Value(Word),
    Shown(Shown),
    Seq(u64),
    Refused(BatchRefusal),
}

/// Why a request of a batch is refused.
#[derive(Drop)]
pub enum BatchRefusal {
    /// The host refuses it.
    Host(HostRefusal),
    /// It is no request. The number is the one that the batch gave for it.
    Bad(u16),
}
