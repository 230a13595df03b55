//! What a row is.

use crate::steps::HostStep;

/// A request as a line, where a source follows the name of its module; its reply as the program writes it; its events.
pub type Exchange<'a> = (&'a str, &'a str, &'a str);

/// What is found before the first request.
#[derive(Clone, Copy)]
pub struct Host {
    /// How many counters are free.
    pub counters: usize,
    /// How many ticks a request has.
    pub budget: u64,
    /// The last number that was given to an object.
    pub last: u64,
}

/// Two counters are free.
pub const HOST: Host = Host {
    counters: 2,
    budget: 1000,
    last: 0,
};

/// A row: what it shows, what is found before the first request, the requests, and the state that they leave.
#[derive(Clone, Copy)]
pub struct Row<'a> {
    pub what: &'a str,
    pub host: Host,
    /// What is asked of counters and the service, in order.
    pub steps: &'a [HostStep],
    pub exchanges: &'a [Exchange<'a>],
    pub left: &'a str,
}
