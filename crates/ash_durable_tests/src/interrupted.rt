//! Reads and writes that are interrupted are made again.

use crate::checks::check_bytes;
use crate::hosts::ending_of_new;
use std::io;
use std::io::{ErrorKind, Read, Write};
use std::test::Fail;

/// Gives the bytes one by one. Every other read is interrupted, the first among them.
#[derive(Drop)]
struct InterruptedReader<'a> {
    bytes: &'a [u8],
    interrupts: bool,
}

impl<'a> Read for InterruptedReader<'a> {
    fn read(&mut self, buf: &mut [u8]) -> io::Result<usize> {
        self.interrupts = !self.interrupts;
        if !self.interrupts {
            return Err(io::Error::new(ErrorKind::Interrupted, "interrupted"));
        }
        let count = self.bytes.len().min(buf.len()).min(1);
        buf[..count].copy_from_slice(&self.bytes[..count]);
        self.bytes = &self.bytes[count..];
        Ok(count)
    }
}

/// Takes the bytes one by one. Every other write is interrupted, the first among them.
#[derive(Drop)]
struct InterruptedWriter {
    bytes: Vec<u8>,
    interrupts: bool,
}

impl Write for InterruptedWriter {
    fn write(&mut self, buf: &[u8]) -> io::Result<usize> {
        self.interrupts = !self.interrupts;
        if !self.interrupts {
            return Err(io::Error::new(ErrorKind::Interrupted, "interrupted"));
        }
        if buf.is_empty() {
            return Ok(0);
        }
        self.bytes.push(buf[0])?;
        Ok(1)
    }

    fn flush(&mut self) -> io::Result<()> {
        Ok(())
    }
}

#[test]
fn an_interrupted_read_or_write_is_made_again(rt: HostRuntime) -> Result<(), Fail> {
    let alloc = rt.alloc();
    let reader = InterruptedReader {
        bytes: b"load m 10\nint n = 7;\nget m n\nquit\n",
        interrupts: true,
    };
    let mut writer = InterruptedWriter {
        bytes: Vec::new(alloc),
        interrupts: true,
    };
    ending_of_new(alloc, reader, &mut writer)??;
    let wanted = b"ok seq 1\nok 7\nok\n";
    check_bytes(&rt, &writer.bytes, wanted, "what is written");
    Ok(())
}
