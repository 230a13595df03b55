//! What commands are replied.

ghost use Rattle.std.specs.Prelude.{◌≡◌, map, replicate};
ghost use Rattle.ash_durable.specs.BatchViews.{batch_reply_seen};
ghost use Rattle.ash_lines.specs.ReplyText.{HostReply, line_reply_of, reply_line, text_of};
ghost use Rattle.ash_lines.specs.Sink.{Writes};
ghost use Rattle.ash_requests.specs.RequestViews.{refusal_seen};
ghost use Rattle.ash_requests.specs.Requests.{Refused};
ghost use Rattle.ash_serve.specs.CommandReplies.{batch_line_reply, command_reply_of, command_text};
ghost use Rattle.ash_sources.specs.SourceFaults.{fault_of};

use crate::owned::LINE_TOO_LONG;
use ash_durable::batch::{BatchRefusal, BatchReply};
use ash_lines::reply::{LineReply, write_line_reply};
use ash_lines::sink::{Sink, WriteFault};
use ash_requests::{Refusal, Reply};
use ash_sources::fault::SourceFault;

/// What a command is replied.
#[derive(Drop)]
pub enum CommandReply {
    /// The reply to a request line.
    Single(LineReply),
    /// What the host replies to a batch of so many lines.
    Batch {
        count: usize,
        result: Result<Vec<BatchReply>, Refusal<SourceFault>>,
    },
}

/// Writes the reply to a command, line by line. A refusal of a batch is written for each of its lines. It may stay
/// buffered until the sink is flushed.
pub(crate) fn write_command_reply<K: Sink>(
    output: &mut K,
    reply: CommandReply,
) -> Result<(), WriteFault>
    ensures text { Writes K.outlet output.old (command_text (command_reply_of reply)) result
        output.new }
{
    match reply {
        CommandReply::Single(reply) => write_line_reply(output, &reply),
        CommandReply::Batch {
            count: _,
            result: Ok(replies),
        } => write_batch_replies(output, replies),
        CommandReply::Batch {
            count,
            result: Err(refusal),
        } => write_refusals(output, count, refusal),
    }
}

/// Writes the replies to the requests of a batch, each as a line.
fn write_batch_replies<K: Sink>(output: &mut K, replies: Vec<BatchReply>) -> Result<(), WriteFault>
    ensures text { Writes K.outlet output.old
        (text_of (map batch_line_reply (map batch_reply_seen replies.items))) result output.new }
{
    for reply in replies {
        write_batch_reply(output, reply)?;
    }
    Ok(())
}

fn write_batch_reply<K: Sink>(output: &mut K, reply: BatchReply) -> Result<(), WriteFault>
    ensures text { Writes K.outlet output.old
        (reply_line (batch_line_reply (batch_reply_seen reply))) result output.new }
{
    let reply = line_reply(reply);
    write_line_reply(output, &reply)
}

/// Writes a refusal for each line of a batch.
fn write_refusals<K: Sink>(
    output: &mut K,
    count: usize,
    refusal: Refusal<SourceFault>,
) -> Result<(), WriteFault>
    ensures text { Writes K.outlet output.old
        (text_of (replicate count (HostReply (Refused (refusal_seen fault_of refusal))))) result
        output.new }
{
    let reply = LineReply::Host(Reply::Refused(refusal));
    write_repeatedly(output, count, &reply)
}

/// Writes a reply so many times, each as a line.
fn write_repeatedly<K: Sink>(
    output: &mut K,
    count: usize,
    reply: &LineReply,
) -> Result<(), WriteFault>
    ensures text { Writes K.outlet output.old
        (text_of (replicate count (line_reply_of reply.now))) result output.new }
{
    for i in 0..count {
        write_line_reply(output, reply)?;
    }
    Ok(())
}

/// A reply to a request of a batch, as the reply to its line.
fn line_reply(reply: BatchReply) -> LineReply
    ensures same { line_reply_of result ≡ batch_line_reply (batch_reply_seen reply) }
{
    match reply {
        BatchReply::Answer(answer) => LineReply::Host(Reply::Answer(answer)),
        BatchReply::Value(word) => LineReply::Host(Reply::Value(word)),
        BatchReply::Shown(shown) => LineReply::Host(Reply::Shown(shown)),
        BatchReply::Seq(seq) => LineReply::Host(Reply::Seq(seq)),
        BatchReply::Refused(BatchRefusal::Host(refusal)) => {
            LineReply::Host(Reply::Refused(refusal))
        }
        BatchReply::Refused(BatchRefusal::Bad(number)) => {
            if number == LINE_TOO_LONG {
                LineReply::LineTooLong
            } else {
                LineReply::BadRequest
            }
        }
    }
}
