//! The request loop: from the bytes of requests to the bytes of replies, over the host of `ash_durable`, the lines of
//! `ash_lines`, and std's `Read` and `Write`. It promises that what is written is the text of the replies to the
//! requests and batches of which the input consists, in order, or a prefix of it if a write fails; that no reply is left
//! in the buffer when a command is read that is not whole in the input's buffer, and never more than 8,192 bytes; that
//! what the host was asked and gave is a run of the written steps, up to the first call by which it must be reopened;
//! and that nothing of a batch is handled before all of it is read.
//!
//! `handler` is what handles requests: the host. `serve` is the loop: a `session` reads a command, which is a request or
//! a batch of them, into its `buffers`, and has the host handle it; the requests of a batch are `owned` until all are
//! read. `reply` is what a command is replied, which `ash_lines` writes. `run` is that loop over std's traits. `program`
//! has what `ashd` does with its words; there `check` reads a script, has it checked, and writes the verdict.
#![tactic(auto)]

pub mod buffers;
pub mod fault;
pub mod handler;
pub mod owned;
pub mod program;
pub mod reply;
pub mod run;
pub mod serve;
mod session;

pub use ash_lines::source::ReadFault;
pub use fault::RunFault;
