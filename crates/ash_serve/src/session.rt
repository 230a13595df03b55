//! A session: the next command is read, and the host handles it.

ghost use Rattle.std.specs.Prelude.{◌≡◌, ◌≤◌, ℕ, List, length, vec_capacity, IfOk};
ghost use Rattle.ash_lines.specs.Lines.{LoadHeader as Header, BatchLine, max_line_bytes, max_batch};
ghost use Rattle.ash_lines.specs.Lines.{next_line, parse_line};
ghost use Rattle.ash_lines.specs.Reading.{ReadsWholeLine, max_prefix_bytes};
ghost use Rattle.ash_serve.specs.InputItems.{ReadsItem};
ghost use Rattle.ash_serve.specs.Session.{HasSessionRoom};
ghost use Rattle.ash_serve.specs.Serving.{HandlesNext, HandlesCommand, handling_with};
ghost use Rattle.ash_serve.specs.Serving.{relations, request_state};

use crate::buffers::{Buffers, SourceRead, read_source};
use crate::fault::RunFault;
use crate::handler::RequestHandler;
use crate::owned::batch_requests;
use crate::reply::CommandReply;
use ash_lines::line::{LineRead, read_line};
use ash_lines::reply::LineReply;
use ash_lines::request_line::{LoadHeader, ParsedLine, parse_line};
use ash_lines::source::Source;
use ash_requests::Request;
use std::alloc::{AllocError, Global};

/// What a session handles requests with: the ticks that each may take, buffers, and the memory that batches are kept in
/// while they are read.
#[derive(Drop)]
pub(crate) struct Session {
    alloc: Global,
    budget: u64,
    buffers: Buffers,
}

impl Session {
    pub(crate) fn new(alloc: Global, budget: u64) -> Result<Session, AllocError>
        ensures room { IfOk result HasSessionRoom }
        ensures budget { IfOk result (λ session. session.budget ≡ budget) }
    {
        let buffers = Buffers::new(alloc)?;
        Ok(Session {
            alloc,
            budget,
            buffers,
        })
    }

    /// Reads the next command and has the host handle it. The reply, or `None` at the end of the input.
    pub(crate) fn handle_next<S: Source, H: RequestHandler>(
        &mut self,
        input: &mut S,
        host: &mut H,
    ) -> Result<Option<CommandReply>, RunFault>
        requires room { HasSessionRoom self.old }
        ensures handled { HandlesNext
            (handling_with S.feed (relations H.handles H.handles_batch self.old.budget))
            (request_state input.old host.old) result (request_state input.new host.new) }
        ensures room { HasSessionRoom self.new }
        ensures budget { self.new.budget ≡ self.old.budget }
    {
        match read_line(input, &mut self.buffers.line)? {
            LineRead::End => Ok(None),
            LineRead::Cut => Err(RunFault::Truncated),
            LineRead::TooLong => Ok(Some(CommandReply::Single(LineReply::LineTooLong))),
            LineRead::Whole => Ok(Some(self.handle_line(input, host)?)),
        }
    }

    /// Has the host handle the command of the line that was read. Of a load the source is read first, and of a batch its
    /// lines.
    fn handle_line<S: Source, H: RequestHandler>(
        &mut self,
        input: &mut S,
        host: &mut H,
    ) -> Result<CommandReply, RunFault>
        requires room { HasSessionRoom self.old }
        requires short { length self.old.buffers.line.items ≤ max_line_bytes }
        ensures handled { (start : S)
            → ReadsWholeLine S.feed start self.old.buffers.line.items input.old
            → HandlesCommand
            (handling_with S.feed (relations H.handles H.handles_batch self.old.budget))
            (request_state start host.old) result (request_state input.new host.new) }
        ensures room { HasSessionRoom self.new }
        ensures budget { self.new.budget ≡ self.old.budget }
    {
        let line = self.buffers.line.as_slice();
        match parse_line(line, &mut self.buffers.arguments) {
            ParsedLine::Request(request) => Ok(CommandReply::Single(LineReply::Host(host.handle(
                &request,
                self.budget,
            )))),
            ParsedLine::Call(header) => {
                let request = Request::Call {
                    module: header.module,
                    function: header.function,
                    arguments: self.buffers.arguments.as_slice(),
                };
                let reply = host.handle(&request, self.budget);
                Ok(CommandReply::Single(LineReply::Host(reply)))
            }
            ParsedLine::Load(header) => {
                handle_load(input, host, self.budget, header, &mut self.buffers.prefix)
            }
            ParsedLine::Batch(count) => self.handle_batch(input, host, count),
            ParsedLine::Quit => Ok(CommandReply::Single(LineReply::Quit)),
            ParsedLine::BadRequest => Ok(CommandReply::Single(LineReply::BadRequest)),
        }
    }

    /// Reads the lines of a batch whole, and has the host handle them.
    fn handle_batch<S: Source, H: RequestHandler>(
        &mut self,
        input: &mut S,
        host: &mut H,
        count: usize,
    ) -> Result<CommandReply, RunFault>
        requires room { HasSessionRoom self.old }
        requires few { count ≤ max_batch }
        ensures handled { (start : S) → ReadsItem next_line S.feed start (BatchLine count) input.old
            → HandlesCommand
            (handling_with S.feed (relations H.handles H.handles_batch self.old.budget))
            (request_state start host.old) result (request_state input.new host.new) }
        ensures room { HasSessionRoom self.new }
        ensures budget { self.new.budget ≡ self.old.budget }
    {
        let kept = self.buffers.read_batch(self.alloc, input, count)?;
        let requests = batch_requests(self.alloc, kept.as_slice())?;
        let result = host.batch(requests.as_slice(), self.budget);
        Ok(CommandReply::Batch { count, result })
    }
}

/// Reads a source and the end of its line, and has the host load it.
fn handle_load<S: Source, H: RequestHandler>(
    input: &mut S,
    host: &mut H,
    budget: u64,
    header: LoadHeader<'_>,
    prefix: &mut Vec<u8>,
) -> Result<CommandReply, RunFault>
    requires room { max_prefix_bytes ≤ vec_capacity prefix.old }
    ensures handled { (start : S) (line : List ℕ) → ReadsWholeLine S.feed start line input.old
        → length line ≤ max_line_bytes
        → parse_line line ≡ Header header.entry.name.now header.entry.length
        → HandlesCommand (handling_with S.feed (relations H.handles H.handles_batch budget))
        (request_state start host.old) result (request_state input.new host.new) }
    ensures room { max_prefix_bytes ≤ vec_capacity prefix.new }
{
    match read_source(input, header.length, prefix)? {
        SourceRead::Unended => Ok(CommandReply::Single(LineReply::BadRequest)),
        SourceRead::Whole => {
            let request = Request::Load {
                module: header.name,
                source: prefix.as_slice(),
            };
            let reply = host.handle(&request, budget);
            Ok(CommandReply::Single(LineReply::Host(reply)))
        }
    }
}
