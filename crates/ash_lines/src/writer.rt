//! A sink over any writer.

ghost use Rattle.std.specs.Prelude.{◌≡◌, ◌≤◌, [], ◌++◌, length, take, false, IfOk, IfErr, OnOk, vec_capacity};
ghost use Rattle.std.specs.Io.KnownBytes.{Keeps, Appends};
ghost use Rattle.ash_lines.specs.Writer.{writer_outlet, writer_is_outlet, WritesOut, WritesThrough};

use crate::sink::{Sink, WriteFault};
use std::io::{ErrorKind, Write};

/// A writer with a buffer before it, so that a reply is one write. A write that is interrupted is tried again.
#[derive(Drop)]
pub struct Writer<'a, W> {
    writer: &'a mut W,
    buffer: Vec<u8>,
    /// The most bytes that are buffered.
    room: usize,
    failed: bool,
}

impl<'a, W: Write> Writer<'a, W> {
    /// A writer with this buffer before it, which is emptied first. No more is buffered than it has room for.
    pub fn new(writer: &'a mut W, mut buffer: Vec<u8>) -> Writer<'a, W>
        ensures buffered { result.buffer.items ≡ [] }
        ensures room { result.room ≡ vec_capacity buffer }
        ensures writer { result.writer ≡ writer.entry }
        ensures whole { result.failed ≡ false }
    {
        buffer.clear();
        let room = buffer.capacity();
        Writer {
            writer,
            buffer,
            room,
            failed: false,
        }
    }

    /// The writer. What is buffered is lost.
    pub fn into_writer(self) -> &'a mut W
        ensures same_writer { result ≡ self.entry.writer }
    {
        let Writer {
            writer,
            buffer,
            room: _,
            failed: _,
        } = self;
        drop(buffer);
        writer
    }
}

impl<'a, W: Write> Sink for Writer<'a, W> {
    ghost outlet = { writer_outlet W.contents };

    ghost is_outlet = { writer_is_outlet W.contents };

    fn write(&mut self, bytes: &[u8]) -> Result<(), WriteFault> {
        let room = self.room.min(self.buffer.capacity());
        if bytes.len() <= room.saturating_sub(self.buffer.len()) {
            self.buffer.extend_from_slice(bytes).unwrap();
            return Ok(());
        }
        self.write_buffered()?;
        self.write_through(bytes)
    }

    fn flush(&mut self) -> Result<(), WriteFault> {
        self.write_buffered()?;
        self.flush_writer()
    }
}

impl<'a, W: Write> Writer<'a, W> {
    /// Writes out what is buffered.
    fn write_buffered(&mut self) -> Result<(), WriteFault>
        ensures written { WritesThrough (writer_outlet W.contents) self.old self.old.buffer.items
            result self.new [] }
    {
        match write_out(self.writer, self.buffer.as_slice()) {
            Ok(()) => {
                self.buffer.clear();
                Ok(())
            }
            Err(_) => {
                self.failed = true;
                Err(WriteFault)
            }
        }
    }

    fn flush_writer(&mut self) -> Result<(), WriteFault>
        ensures flushed { WritesThrough (writer_outlet W.contents) self.old []
            result self.new self.old.buffer.items }
    {
        match self.writer.flush() {
            Ok(()) => Ok(()),
            Err(_) => {
                self.failed = true;
                Err(WriteFault)
            }
        }
    }

    /// Writes out these bytes, past the buffer.
    fn write_through(&mut self, bytes: &[u8]) -> Result<(), WriteFault>
        ensures written { WritesThrough (writer_outlet W.contents) self.old bytes.now
            result self.new self.old.buffer.items }
    {
        match write_out(self.writer, bytes) {
            Ok(()) => Ok(()),
            Err(_) => {
                self.failed = true;
                Err(WriteFault)
            }
        }
    }
}

/// Writes out the bytes; the error says how many of them went out before a write failed or took none.
fn write_out<W: Write>(writer: &mut W, bytes: &[u8]) -> Result<(), usize>
    ensures written { WritesOut (W.contents writer.old) bytes.now result (W.contents writer.new) }
{
    let mut written = 0;
    'tries: for _i in 0..u64::MAX {
        if written >= bytes.len() {
            return Ok(());
        }
        match writer.write(&bytes[written..]) {
            Ok(0) => return Err(written),
            Ok(count) => written += count,
            Err(fault) => {
                if fault.kind() != ErrorKind::Interrupted {
                    return Err(written);
                }
            }
        }
    }
    Err(written)
}
