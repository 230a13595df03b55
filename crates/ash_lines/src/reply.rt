//! Writing a reply as a line of text.

ghost use Rattle.std.specs.Prelude.{◌≡◌, ◌∷◌, [], ◌++◌};
ghost use Rattle.ash_requests.specs.RequestViews.{reply_seen};
ghost use Rattle.ash_sources.specs.SourceFaults.{fault_of};
ghost use Rattle.ash_lines.specs.Sink.{Writes, WritesAndFlushes};
ghost use Rattle.ash_lines.specs.RefusalTexts.{fault_text};
ghost use Rattle.ash_lines.specs.ReplyText.{line_reply_of, reply_line, reply_text};

use crate::answer::write_answer;
use crate::object::{write_ok, write_shown};
use crate::pieces::write_all;
use crate::refusal::{write_fault, write_refusal};
use crate::sink::{Sink, WriteFault};
use ash_requests::Reply;
use ash_sources::fault::SourceFault;
use itoa::Buffer;

/// The reply to a line.
#[derive(Drop)]
pub enum LineReply {
    /// What the host replies to the request.
    Host(Reply<SourceFault>),
    /// The run ends.
    Quit,
    /// The line is no request.
    BadRequest,
    /// The line is too long.
    LineTooLong,
}

/// Writes the reply to a line, as a line. It may stay buffered until the sink is flushed.
pub fn write_line_reply<K: Sink>(output: &mut K, reply: &LineReply) -> Result<(), WriteFault>
    ensures line { Writes K.outlet output.old (reply_line (line_reply_of reply.now))
        result output.new }
{
    match reply {
        LineReply::Host(reply) => write_reply_line(output, reply),
        LineReply::Quit => buffer_line(output, b"ok"),
        LineReply::BadRequest => buffer_line(output, b"refused 601 BadRequest"),
        LineReply::LineTooLong => buffer_line(output, b"refused 602 LineTooLong"),
    }
}

/// Writes a reply of the host as a line.
fn write_reply_line<K: Sink>(output: &mut K, reply: &Reply<SourceFault>) -> Result<(), WriteFault>
    ensures line { Writes K.outlet output.old
        (reply_text (reply_seen fault_of reply.now) ++ 10 ∷ []) result output.new }
{
    write_reply(output, reply)?;
    output.write(b"\n")
}

/// Writes a text as a line.
fn buffer_line<K: Sink>(output: &mut K, text: &[u8]) -> Result<(), WriteFault>
    ensures line { Writes K.outlet output.old (text.now ++ 10 ∷ []) result output.new }
{
    output.write(text)?;
    output.write(b"\n")
}

/// Writes the refusal of a source as a line, and flushes it.
pub fn write_fault_line<K: Sink>(output: &mut K, fault: &SourceFault) -> Result<(), WriteFault>
    ensures line { WritesAndFlushes K.outlet output.old
        (fault_text (fault_of fault.now) ++ 10 ∷ []) result output.new }
{
    write_fault(output, fault)?;
    end_line(output)
}

/// Writes a text as a line, and flushes it.
pub fn write_line<K: Sink>(output: &mut K, text: &[u8]) -> Result<(), WriteFault>
    ensures line { WritesAndFlushes K.outlet output.old (text.now ++ 10 ∷ []) result output.new }
{
    output.write(text)?;
    end_line(output)
}

/// Ends the line, and flushes all that is buffered.
fn end_line<K: Sink>(output: &mut K) -> Result<(), WriteFault>
    ensures line { WritesAndFlushes K.outlet output.old (10 ∷ []) result output.new }
{
    output.write(b"\n")?;
    output.flush()
}

fn write_reply<K: Sink>(output: &mut K, reply: &Reply<SourceFault>) -> Result<(), WriteFault>
    ensures text { Writes K.outlet output.old (reply_text (reply_seen fault_of reply.now))
        result output.new }
{
    match reply {
        Reply::Answer(answer) => write_answer(output, answer),
        Reply::Value(word) => write_ok(output, *word),
        Reply::Shown(shown) => write_shown(output, shown),
        Reply::Seq(seq) => {
            let mut digits = Buffer::new();
            write_all(output, &[b"ok ".as_slice(), digits.format(*seq).as_bytes()])
        }
        Reply::Done => output.write(b"ok"),
        Reply::Refused(refusal) => write_refusal(output, refusal),
    }
}
