//! The loop over a source and a sink.

ghost use Rattle.std.specs.Prelude.{◌≡◌, [], true, OnOk};
ghost use Rattle.ash_lines.specs.Sink.{Writes};
ghost use Rattle.ash_serve.specs.CommandReplies.{command_reply_of, command_text};
ghost use Rattle.ash_serve.specs.Serving.{Closes, HasCommand, IsPrompt, Serves, ends_run, relations};
ghost use Rattle.ash_serve.specs.Serving.{run_state, serving_with};

use crate::fault::RunFault;
use crate::handler::RequestHandler;
use crate::reply::{CommandReply, write_command_reply};
use crate::session::Session;
use ash_lines::reply::LineReply;
use ash_lines::sink::{Sink, WriteFault};
use ash_lines::source::Source;
use std::alloc::Global;

/// Reads requests, has the host handle each with this budget in ticks, and writes the replies in order. A batch is read
/// whole before its requests are handled. Replies are flushed before anything is read that may have to be waited for,
/// and at the end. Ends at the end of the input between two commands, or when the reply to `quit` is written.
pub fn serve<S: Source, K: Sink, H: RequestHandler>(
    alloc: Global,
    input: &mut S,
    output: &mut K,
    host: &mut H,
    budget: u64,
) -> Result<(), RunFault>
    requires nothing_buffered { K.outlet.buffered output.old ≡ [] }
    ensures serves { Serves
        (serving_with S.feed K.outlet (relations H.handles H.handles_batch budget))
        (run_state input.old output.old host.old) result
        (run_state input.new output.new host.new) }
{
    let mut session = Session::new(alloc, budget)?;
    'requests: loop {
        let reply = match session.handle_next(input, host) {
            Ok(Some(reply)) => reply,
            Ok(None) => return close(output, Ok(())),
            Err(fault) => return close(output, Err(fault)),
        };
        let ends = ends_run(&reply);
        write_reply(input, output, reply)?;
        if ends {
            return close(output, Ok(()));
        }
    }
}

/// Writes a reply. What is buffered is flushed unless the next request lies ready.
fn write_reply<S: Source, K: Sink>(
    input: &S,
    output: &mut K,
    reply: CommandReply,
) -> Result<(), WriteFault>
    ensures written { Writes K.outlet output.old (command_text (command_reply_of reply)) result
        output.new }
    ensures prompt { OnOk result (IsPrompt S.feed K.outlet input.now output.new) }
{
    write_command_reply(output, reply)?;
    if is_request(input.ready()) {
        Ok(())
    } else {
        output.flush()
    }
}

/// Whether these bytes begin with a whole request. Of a load or a batch they may have no more than the first line, so it
/// counts as none.
fn is_request(bytes: &[u8]) -> bool
    ensures whole { result ≡ true → HasCommand bytes.now }
{
    bytes.contains(&b'\n') && !bytes.starts_with(b"load ") && !bytes.starts_with(b"batch ")
}

/// Ends a run: what is buffered is written out.
fn close<K: Sink>(output: &mut K, end: Result<(), RunFault>) -> Result<(), RunFault>
    ensures closes { Closes K.outlet output.old end result output.new }
{
    match output.flush() {
        Ok(()) => end,
        Err(WriteFault) => Err(RunFault::Write),
    }
}

/// Whether the run ends with this reply.
fn ends_run(reply: &CommandReply) -> bool
    ensures quit { result ≡ ends_run (command_reply_of reply.now) }
{
    matches!(reply, CommandReply::Single(LineReply::Quit))
}
