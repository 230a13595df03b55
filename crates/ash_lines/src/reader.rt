//! A source over any reader.

ghost use Rattle.std.specs.Prelude.{◌≡◌, IfOk, None, false};
ghost use Rattle.std.specs.Io.Buffered.{reader_buffer, reader_remaining};
ghost use Rattle.std.specs.Io.KnownBytes.{Keeps};
ghost use Rattle.ash_lines.specs.Reader.{reader_feed, reader_is_feed, left_of, allowance_of};
ghost use Rattle.ash_lines.specs.Reader.{ReadsByte, TakesBuffered, max_input_bytes};

use crate::source::{ReadFault, Source};
use std::alloc::{AllocError, Global};
use std::io::{BufRead, BufReader, ErrorKind, Read};

/// The most bytes that are read in one run.
pub const MAX_INPUT_BYTES: u64 = 1 << 40;

/// How often in a row a read may be interrupted before it counts as failed.
const MAX_TRIES: u32 = u32::MAX;

/// The bytes of a reader, up to 2^40 of them, read through a buffer. A read that is interrupted is tried again.
#[derive(Drop)]
pub struct Reader<R> {
    reader: BufReader<R>,
    /// A byte that came past the allowance.
    extra: Option<u8>,
    allowance: u64,
    failed: bool,
}

/// What reading a byte came to.
enum ByteRead {
    Byte(u8),
    End,
    Failed,
}

impl<R: Read + Drop> Reader<R> {
    /// A source of the bytes of this reader, of which none is read yet. An `Err` means that memory was refused for the
    /// buffer.
    pub fn new(alloc: Global, reader: R) -> Result<Reader<R>, AllocError>
        ensures left { IfOk result (λ r. left_of R.remaining r ≡ R.remaining reader) }
        ensures allowance { IfOk result (λ r. allowance_of r ≡ max_input_bytes) }
        ensures whole { IfOk result (λ r. r.failed ≡ false) }
    {
        match BufReader::new(alloc, reader) {
            Err(_) => Err(AllocError),
            Ok(reader) => Ok(Reader {
                reader,
                extra: None,
                allowance: MAX_INPUT_BYTES,
                failed: false,
            }),
        }
    }
}

impl<R: Read + Drop> Source for Reader<R> {
    ghost feed = { reader_feed R.remaining };

    ghost is_feed = { reader_is_feed R.remaining };

    fn next(&mut self) -> Result<Option<u8>, ReadFault> {
        if self.extra.is_some() {
            return Err(ReadFault::TooLong);
        }
        match read_byte(&mut self.reader) {
            ByteRead::Failed => {
                self.failed = true;
                Err(ReadFault::Failed)
            }
            ByteRead::End => Ok(None),
            ByteRead::Byte(byte) => {
                if self.allowance == 0 {
                    self.extra = Some(byte);
                    return Err(ReadFault::TooLong);
                }
                self.allowance -= 1;
                Ok(Some(byte))
            }
        }
    }

    fn ready(&self) -> &[u8] {
        let bytes = self.reader.buffer();
        if self.extra.is_none() && bytes.len() as u64 <= self.allowance {
            bytes
        } else {
            b""
        }
    }
}

/// Reads one byte: the next one of the buffer, if it has one.
fn read_byte<R: Read>(reader: &mut BufReader<R>) -> ByteRead
    ensures byte { ReadsByte (reader_remaining R.remaining reader.old) result
        (reader_remaining R.remaining reader.new) }
    ensures buffered { TakesBuffered (reader_buffer reader.old) result (reader_buffer reader.new) }
{
    match reader.buffer().first() {
        Some(&byte) => {
            reader.consume(1);
            ByteRead::Byte(byte)
        }
        None => read_more(reader),
    }
}

/// Reads one byte, which may have to be waited for.
fn read_more<R: Read>(reader: &mut R) -> ByteRead
    ensures byte { ReadsByte (R.remaining reader.old) result (R.remaining reader.new) }
{
    let mut byte = [0u8; 1];
    'tries: for _i in 0..MAX_TRIES {
        match reader.read(&mut byte) {
            Ok(0) => return ByteRead::End,
            Ok(_) => return ByteRead::Byte(byte[0]),
            Err(fault) => {
                if fault.kind() != ErrorKind::Interrupted {
                    return ByteRead::Failed;
                }
            }
        }
    }
    ByteRead::Failed
}
