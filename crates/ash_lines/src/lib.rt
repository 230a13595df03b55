//! Requests and replies as bytes: which lines are which request, and which bytes are which reply, over any source of
//! bytes and any sink.
//!
//! `source` and `sink` are what both ends give; `line`, `words`, `number`, `request_line` and `bytes` read a request;
//! `reply` writes the text of a reply, by `answer`, `object`, and `refusal` with `faults` and `details` (what the
//! faults of sources report), in `pieces`; `reader` and `writer` are a source and a sink over std's traits.
#![tactic(auto)]

mod answer;
pub mod bytes;
mod details;
mod faults;
pub mod line;
mod number;
mod object;
mod pieces;
pub mod reader;
mod refusal;
pub mod reply;
pub mod request_line;
pub mod sink;
pub mod source;
mod words;
pub mod writer;

pub use number::{MAX_BATCH, MAX_DIGITS};
