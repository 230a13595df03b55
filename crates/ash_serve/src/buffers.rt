//! What lines of the input are read into.

ghost use Rattle.std.specs.Prelude.{◌≡◌, ◌≤◌, List, ℕ, length, vec_capacity, IfOk};
ghost use Rattle.ash_lines.specs.Lines.{LoadHeader as Header, max_line_bytes, parse_line};
ghost use Rattle.ash_lines.specs.Reading.{ReadsWholeLine, max_prefix_bytes};
ghost use Rattle.ash_serve.specs.BatchLines.{ReadsBatch, ReadsInner};
ghost use Rattle.ash_serve.specs.InputItems.{ReadsSource};
ghost use Rattle.ash_serve.specs.Session.{HasRoom};

use crate::fault::RunFault;
use crate::owned::{BAD_REQUEST, LINE_TOO_LONG, OwnedRequest, own_request};
use ash_lines::bytes::{BytesRead, MAX_PREFIX_BYTES, read_bytes};
use ash_lines::line::{LineRead, LineRest, MAX_LINE_BYTES, read_line, skip_line};
use ash_lines::request_line::{MAX_ARGUMENTS, ParsedLine, parse_line};
use ash_lines::source::Source;
use ash_requests::{Arg, Request};
use std::alloc::{AllocError, Global};

/// What lines of the input are read into. The buffers are made before the first request and used for each in turn, so
/// that no request by itself takes memory for them.
#[derive(Drop)]
pub struct Buffers {
    pub(crate) line: Vec<u8>,
    /// The arguments of a call.
    pub(crate) arguments: Vec<Arg>,
    /// The prefix of a source.
    pub(crate) prefix: Vec<u8>,
}

/// How the bytes that were read for a source end.
#[derive(Clone, Copy)]
pub enum SourceRead {
    /// With its line.
    Whole,
    /// With more bytes before the end of the line: there was no request.
    Unended,
}

impl Buffers {
    pub(crate) fn new(alloc: Global) -> Result<Buffers, AllocError>
        ensures room { IfOk result HasRoom }
    {
        Ok(Buffers {
            line: Vec::with_capacity(alloc, MAX_LINE_BYTES)?,
            arguments: Vec::with_capacity(alloc, MAX_ARGUMENTS)?,
            prefix: Vec::with_capacity(alloc, MAX_PREFIX_BYTES)?,
        })
    }

    /// Reads so many lines of a batch, and keeps their requests. An `Err(NoMemory)` means that memory was refused for
    /// one.
    pub(crate) fn read_batch<S: Source>(
        &mut self,
        alloc: Global,
        input: &mut S,
        count: usize,
    ) -> Result<Vec<OwnedRequest>, RunFault>
        requires room { HasRoom self.old }
        ensures read { ReadsBatch S.feed count input.old result input.new }
        ensures room { HasRoom self.new }
    {
        let mut requests = Vec::with_capacity(alloc, count)?;
        for i in 0..count {
            let request = self.read_inner(alloc, input)?;
            requests.push_reserved(request);
        }
        Ok(requests)
    }

    /// Reads a line of a batch, with its source if it has one, and keeps its request.
    fn read_inner<S: Source>(
        &mut self,
        alloc: Global,
        input: &mut S,
    ) -> Result<OwnedRequest, RunFault>
        requires room { HasRoom self.old }
        ensures read { ReadsInner S.feed input.old result input.new }
        ensures room { HasRoom self.new }
    {
        match read_line(input, &mut self.line)? {
            LineRead::End => Err(RunFault::Truncated),
            LineRead::Cut => Err(RunFault::Truncated),
            LineRead::TooLong => Ok(OwnedRequest::Bad(LINE_TOO_LONG)),
            LineRead::Whole => self.keep_line(alloc, input),
        }
    }

    /// Keeps the request of the line that was read. Of a load the source is read first.
    fn keep_line<S: Source>(
        &mut self,
        alloc: Global,
        input: &mut S,
    ) -> Result<OwnedRequest, RunFault>
        requires room { HasRoom self.old }
        requires short { length self.old.line.items ≤ max_line_bytes }
        ensures read { (start : S) → ReadsWholeLine S.feed start self.old.line.items input.old
            → ReadsInner S.feed start result input.new }
        ensures room { HasRoom self.new }
    {
        let line = self.line.as_slice();
        match parse_line(line, &mut self.arguments) {
            ParsedLine::Request(request) => Ok(own_request(alloc, &request)?),
            ParsedLine::Call(header) => {
                let request = Request::Call {
                    module: header.module,
                    function: header.function,
                    arguments: self.arguments.as_slice(),
                };
                Ok(own_request(alloc, &request)?)
            }
            ParsedLine::Load(header) => {
                match read_source(input, header.length, &mut self.prefix)? {
                    SourceRead::Unended => Ok(OwnedRequest::Bad(BAD_REQUEST)),
                    SourceRead::Whole => {
                        let request = Request::Load {
                            module: header.name,
                            source: self.prefix.as_slice(),
                        };
                        Ok(own_request(alloc, &request)?)
                    }
                }
            }
            ParsedLine::Batch(_) => Ok(OwnedRequest::Bad(BAD_REQUEST)),
            ParsedLine::Quit => Ok(OwnedRequest::Bad(BAD_REQUEST)),
            ParsedLine::BadRequest => Ok(OwnedRequest::Bad(BAD_REQUEST)),
        }
    }
}

/// Reads a source of so many bytes, and the end of its line. A source that is too long is refused whatever its bytes, so
/// no more is stored of it than shows that.
pub(crate) fn read_source<S: Source>(
    input: &mut S,
    bytes: u32,
    prefix: &mut Vec<u8>,
) -> Result<SourceRead, RunFault>
    requires room { max_prefix_bytes ≤ vec_capacity prefix.old }
    ensures read { (start : S) (line name : List ℕ) → ReadsWholeLine S.feed start line input.old
        → length line ≤ max_line_bytes → parse_line line ≡ Header name bytes
        → ReadsSource S.feed start name result prefix.new.items input.new }
    ensures room { max_prefix_bytes ≤ vec_capacity prefix.new }
{
    match read_bytes(input, bytes, prefix)? {
        BytesRead::Cut => return Err(RunFault::Truncated),
        BytesRead::All => {}
    }
    match skip_line(input)? {
        LineRest::Cut => Err(RunFault::Truncated),
        LineRest::Bytes => Ok(SourceRead::Unended),
        LineRest::Empty => Ok(SourceRead::Whole),
    }
}
