//! What happens to host objects during a request.

/// What a call goes to.
#[derive(Clone, Copy, Debug, PartialEq, Eq)]
pub enum Target {
    /// The live object of this number.
    Object(u64),
    /// The service at this place in the order of registration, from 0.
    Service(u16),
}

/// What happened to a host object or a service while a request ran.
#[derive(Clone, Copy, Debug, PartialEq, Eq)]
pub enum Event {
    /// An object was taken from the pool and got this number.
    Drew(u64),
    /// A method of this registered number was run.
    Called(Target, u16),
    /// The object of this number was given up.
    Dropped(u64),
}
