//! The loop over a reader and a writer.

ghost use Rattle.std.specs.Prelude.{List};
ghost use Rattle.ash_durable.specs.Hosting.{IsSaved, RunsSound};
ghost use Rattle.ash_durable.specs.KeptAnswers.{KeepsAnswers};
ghost use Rattle.ash_durable.specs.Lives.{LivesOn};
ghost use Rattle.ash_durable.specs.RequestRuns.{RunsToFailure};
ghost use Rattle.ash_lines.specs.Lines.{Command};
ghost use Rattle.ash_serve.specs.CommandReplies.{CommandReply};
ghost use Rattle.ash_serve.specs.HostCalls.{hosting, host_calls, host_results};
ghost use Rattle.ash_serve.specs.StreamRuns.{RunEnds};
ghost use Rattle.ash_serve.specs.Serving.{RepliesToAll, run_state};

use crate::fault::RunFault;
use crate::serve::serve;
use ash_disk::Disk;
use ash_durable::Host;
use ash_host::HostObject;
use ash_lines::reader::Reader;
use ash_lines::writer::Writer;
use std::alloc::Global;
use std::io::{Read, Write};

/// The most bytes of replies that are buffered.
pub(crate) const MAX_BUFFERED_BYTES: usize = 8192;

/// Reads requests, has the host handle each with this budget in ticks, and writes the replies in order. A batch is read
/// whole before its requests are handled, in one call. Replies are flushed before anything is read that may have to be
/// waited for, and at the end: at most 8,192 bytes of replies wait for that. std's traits cannot say when a byte is
/// written, so that is promised by `serve`, the loop, of every source and sink. Ends at the end of the input between two
/// commands, or when the reply to `quit` is written.
///
/// `Truncated` if the input ends inside a request or a batch, `Read(TooLong)` past 2^40 bytes, `Read(Failed)` and `Write`
/// if the reader or the writer fails, `NoMemory` if there is none for the buffers, or for the requests of a batch while
/// it is read; no other memory is taken. After any of these nothing of an unfinished batch is handled. However it
/// ends, the files of a host that runs hold its state afterwards, if they did before, and every life of its store goes
/// on: each request of which a byte of the answer was written is in every image that a crash may leave.
#[tactic(auto, using(crate::proofs::DefinedLemmas::replies_run, crate::proofs::DefinedLemmas::replies_live))]
pub fn run<D: Disk, B: HostObject, R: Read + Drop, W: Write>(
    alloc: Global,
    reader: R,
    writer: &mut W,
    host: &mut Host<D, B>,
    budget: u64,
) -> Result<(), RunFault>
    ensures ends { RunEnds (hosting D.Disk B.HostObject budget)
        (run_state (R.remaining reader) (W.contents writer.old) host.old) result
        (W.contents writer.new) host.new }
    // What the host was asked, and what it answered, is a run of the written steps, up to the first call by which it must
    // be reopened.
    ensures defined { (commands : List Command) (replies : List CommandReply)
        → RepliesToAll (hosting D.Disk B.HostObject budget) host.old commands replies host.new
        → RunsToFailure D.Disk B.HostObject budget host.old (host_calls commands)
        (host_results replies) host.new }
    // Every life of the store goes on with the requests that were answered, however the run ends: each of them, written
    // or not, is acknowledged in it.
    ensures lives { (commands : List Command) (replies : List CommandReply)
        → RepliesToAll (hosting D.Disk B.HostObject budget) host.old commands replies host.new
        → LivesOn D.Disk B.HostObject budget host.old (host_calls commands) (host_results replies)
        host.new }
    // Whenever a crash comes, at any moment of a call of the host, between two, or afterwards: each answer so far is in
    // all that it leaves.
    ensures kept { (commands : List Command) (replies : List CommandReply)
        → RepliesToAll (hosting D.Disk B.HostObject budget) host.old commands replies host.new
        → KeepsAnswers D.Disk B.HostObject budget host.old (host_calls commands)
        (host_results replies) host.new }
    ensures saved { IsSaved D.Disk host.old → IsSaved D.Disk host.new }
    // So do the boxes stay those of the state.
    ensures sound { RunsSound B.HostObject host.old → RunsSound B.HostObject host.new }
{
    let mut input = Reader::new(alloc, reader)?;
    let buffer = Vec::with_capacity(alloc, MAX_BUFFERED_BYTES)?;
    let mut output = Writer::new(writer, buffer);
    let result = serve(alloc, &mut input, &mut output, host, budget);
    let lent = output.into_writer();
    // No effect at run time: the proof reads from it what the writer holds.
    let _ = &*lent;
    result
}
