//! Where requests come from.

ghost use Rattle.std.specs.Prelude.{◌≡◌};
ghost use Rattle.ash_lines.specs.Source.{Feed, IsFeed, ReadsNext, ReadyComesNext, read_code};

use thiserror::Error;

/// Why no byte could be read.
#[derive(Clone, Copy, Debug, PartialEq, Eq, Error)]
pub enum ReadFault {
    /// More bytes came than may be read in one run.
    #[error("more than 2^40 bytes came")]
    TooLong,
    /// The reader failed.
    #[error("the input could not be read")]
    Failed,
}

impl ReadFault {
    /// The code by which it is reported: its number and its name.
    pub fn code(self) -> &'static str
        ensures coded { result.now ≡ read_code self }
    {
        match self {
            ReadFault::TooLong => "604 TooLong",
            ReadFault::Failed => "605 Read",
        }
    }
}

/// Bytes that come one at a time, up to an allowance.
pub trait Source {
    /// What was read between two moments, and what is left at one.
    ghost feed: { Feed Self };

    /// The next byte, or `None` at the end. What is ready comes first.
    fn next(&mut self) -> Result<Option<u8>, ReadFault>
        ensures byte { ReadsNext feed self.old result self.new }
        ensures ready { ReadyComesNext (feed.ready self.old) result (feed.ready self.new) };

    /// The next bytes, as far as they can be had without waiting for them.
    fn ready(&self) -> &[u8]
        ensures ready { result.now ≡ feed.ready self.now };

    ghost is_feed: { IsFeed feed };
}
