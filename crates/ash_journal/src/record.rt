//! A record that was found.

/// A record, and the offset in bytes of the gate before it.
#[derive(Debug, Drop)]
pub struct Record {
    pub gate: u64,
    pub body: Vec<u8>,
}
