//! A call that a disk in memory records.

/// A call that succeeded and that what a crash leaves depends on.
#[derive(Drop)]
pub(crate) enum Call {
    /// These bytes were written at an offset.
    Write { at: usize, bytes: Vec<u8> },
    /// All that was written before is on the device.
    Sync,
}
