//! What a store has of an object.

use crate::body::Body;

/// What changes while an object lives.
#[derive(Drop)]
pub struct Occupant<B> {
    /// How many fields and elements hold it, and one for each `hold` that was not undone.
    pub count: u128,
    /// Whether it was made or changed since the marks were cleared.
    pub touched: bool,
    pub body: Body<B>,
}

/// An object in its slot.
#[derive(Drop)]
pub struct Entry<B> {
    pub number: u64,
    /// Whether the next sweep looks at it.
    pub waiting: bool,
    pub item: Occupant<B>,
}
