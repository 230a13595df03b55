//! Where replies go.

ghost use Rattle.ash_lines.specs.Sink.{Outlet, IsOutlet, Writes, Flushes};

use thiserror::Error;

/// A write failed, or took no byte.
#[derive(Clone, Copy, Debug, PartialEq, Eq, Error)]
#[error("the output could not be written")]
pub struct WriteFault;

/// Takes bytes, which it may buffer until it is flushed.
pub trait Sink {
    /// What went out between two moments, and what is buffered at one.
    ghost outlet: { Outlet Self };

    /// Writes bytes after those that are buffered. Some may go out at once.
    fn write(&mut self, bytes: &[u8]) -> Result<(), WriteFault>
        ensures written { Writes outlet self.old bytes.now result self.new };

    /// Writes out all that is buffered.
    fn flush(&mut self) -> Result<(), WriteFault>
        ensures flushed { Flushes outlet self.old result self.new };

    ghost is_outlet: { IsOutlet outlet };
}
