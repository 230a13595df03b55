//! What comes back where two disks were not opened, or no journal was created over them.

use crate::error::{CreateFault, OpenFault};

/// Why two disks were not opened, and the disks.
#[derive(Drop)]
pub struct OpenRefused<D> {
    pub fault: OpenFault,
    pub first: D,
    pub second: D,
}

/// Why no journal was created over two disks, and the disks.
#[derive(Drop)]
pub struct CreateRefused<D> {
    pub fault: CreateFault,
    pub first: D,
    pub second: D,
}
