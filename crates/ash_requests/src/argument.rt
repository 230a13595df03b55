//! What a request hands to a function.

/// An argument of a call from outside.
#[derive(Clone, Copy, Debug)]
pub enum Arg {
    /// `true` or `false`
    Truth(bool),
    /// A number, which is converted to the integer type of the parameter where that holds it.
    Number(i128),
}
