//! What is asked.

use crate::Arg;

/// One request. Its texts are borrowed from whoever asks.
#[derive(Clone, Copy)]
pub enum Request<'a> {
    /// Read this source and run its initializers, as a module of this name.
    Load {
        module: &'a str,
        source: &'a [u8],
    },
    /// Call a function of a module.
    Call {
        module: &'a str,
        function: &'a str,
        arguments: &'a [Arg],
    },
    /// Remove a module.
    Discard {
        module: &'a str,
    },
    /// What a global of a module holds.
    Global {
        module: &'a str,
        name: &'a str,
    },
    /// What the object of a number is, and has in it.
    Object {
        number: u64,
    },
    /// How many requests have been answered.
    Seq,
    /// Write the whole state afresh, which changes nothing of it.
    Snapshot,
}
