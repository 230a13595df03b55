//! What a request comes to.

use crate::state::{Hosts, PlainState};
use ash_requests::Reply;

/// What a request comes to: the reply, the state after it, and what of the hosts is left.
#[derive(Drop)]
pub struct Step<F: Drop> {
    pub reply: Reply<F>,
    pub state: PlainState,
    pub hosts: Hosts,
}
