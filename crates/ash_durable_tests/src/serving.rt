//! Serving and checking over readers and writers that fail, and a store that is served again from its disks.

use crate::checks::{check, check_bytes, check_text};
use crate::hosts::{
    Disks, boxed_disks, closed_disks, disks_after, ending, ending_of_new, unboxed,
    unregistered_host,
};
use ash_disk::{MemoryDisk, Survives};
use ash_registry::Registry;
use ash_serve::program::check::run_check;
use ash_serve::program::ending::ProgramEnd;
use ash_serve::program::fault::ProgramFault;
use ash_serve::program::service::{Service, ServiceEnd, serve_stored};
use ash_serve::{ReadFault, RunFault};
use ash_store_fixtures::hosts::{Boxes, found, image_after, no_boxes};
use std::alloc::Global;
use std::io;
use std::io::{ErrorKind, Read, Write};
use std::process::Abort;
use std::test::Fail;

/// Gives the bytes one by one, and fails once so many reads are done.
#[derive(Drop)]
struct Failing<'a> {
    bytes: &'a [u8],
    left: usize,
}

impl<'a> Read for Failing<'a> {
    fn read(&mut self, buf: &mut [u8]) -> io::Result<usize> {
        if self.left == 0 {
            return Err(io::Error::new(ErrorKind::Other, "failed"));
        }
        self.left -= 1;
        let count = self.bytes.len().min(buf.len()).min(1);
        buf[..count].copy_from_slice(&self.bytes[..count]);
        self.bytes = &self.bytes[count..];
        Ok(count)
    }
}

/// Takes a byte at a time, and fails once so many writes and flushes are done.
#[derive(Drop)]
struct Refusing {
    bytes: Vec<u8>,
    left: usize,
}

impl Write for Refusing {
    fn write(&mut self, buf: &[u8]) -> io::Result<usize> {
        if self.left == 0 || buf.is_empty() {
            return Ok(0);
        }
        self.left -= 1;
        self.bytes.push(buf[0])?;
        Ok(1)
    }

    fn flush(&mut self) -> io::Result<()> {
        if self.left == 0 {
            return Err(io::Error::new(ErrorKind::Other, "failed"));
        }
        self.left -= 1;
        Ok(())
    }
}

const INPUT: &[u8] =
    b"seq\n\nget m n\ncall m f 5 true -7\nload m 3\nabc\nload m 2\nabcd\nobject 1\nseq  \nquit\nseq\n";

const OUTPUT: &str =
    "ok 0\nrefused 601 BadRequest\nrefused 401 NoModule\nrefused 401 NoModule\nrefused 104 Unexpected 3\n\
    refused 601 BadRequest\nrefused 407 NoObject\nrefused 601 BadRequest\nok\n";

/// What is written where the store on two disks is served, and how that ends.
fn served_stored(
    alloc: Global,
    disks: Disks,
    requests: &[u8],
    written: &mut Vec<u8>,
) -> ServiceEnd<MemoryDisk> {
    let (a, b) = unboxed(disks);
    let Boxes { pool, services } = no_boxes(alloc);
    let service = Service {
        a,
        b,
        registry: Registry::new(alloc),
        pool,
        services,
        budget: 1000,
    };
    serve_stored(alloc, service, requests, written)
}

/// The disks after such a service, which ends well.
fn disks_after_service(
    alloc: Global,
    disks: Disks,
    requests: &[u8],
    written: &mut Vec<u8>,
) -> Result<Disks, Fail> {
    let ServiceEnd { end, a, b } = served_stored(alloc, disks, requests, written);
    let disks = boxed_disks(alloc, (a, b))?;
    end?;
    Ok(disks)
}

/// The disks of a store with a module after it was served, and what was written is added.
fn stored_and_served(alloc: Global, written: &mut Vec<u8>) -> Result<Disks, Fail> {
    let host = unregistered_host(alloc)?;
    let disks = disks_after(alloc, host, b"load m 10\nint n = 7;\n")?;
    disks_after_service(alloc, disks, b"load k 10\nint n = 8;\n", written)
}

#[test]
fn serves_again_from_the_disks_that_it_hands_back(rt: HostRuntime) -> Result<(), Fail> {
    let alloc = rt.alloc();
    let mut written = Vec::new(alloc);
    let disks = stored_and_served(alloc, &mut written)?;
    disks_after_service(alloc, disks, b"get m n\nget k n\nseq\n", &mut written)?;
    let wanted = b"ok seq 2\nok 7\nok 8\nok 2\n".as_slice();
    check(&rt, &written.as_slice(), &wanted, "a store that was served");
    Ok(())
}

/// Compares how a run ended after so many reads or writes, and that what was written is a prefix of the output.
fn check_prefix(
    rt: &impl Abort,
    left: usize,
    found: Result<(), RunFault>,
    wanted: RunFault,
    written: &[u8],
) {
    check(rt, &(left, found), &(left, Err(wanted)), "after so many");
    if !OUTPUT.as_bytes().starts_with(written) {
        panic!(rt; "after {left}: {}", written.escape_ascii());
    }
}

/// Compares how a run ends whose reader fails after so many reads.
fn check_reads(rt: &impl Abort, alloc: Global, left: usize) -> Result<(), Fail> {
    let mut written = Vec::new(alloc);
    let reader = Failing { bytes: INPUT, left };
    let found = ending_of_new(alloc, reader, &mut written)?;
    check_prefix(rt, left, found, RunFault::Read(ReadFault::Failed), &written);
    Ok(())
}

#[test]
fn a_read_that_fails_is_reported(rt: HostRuntime) -> Result<(), Fail> {
    for left in 0..79 {
        check_reads(&rt, rt.alloc(), left)?;
    }
    Ok(())
}

/// Compares how a run ends whose writer fails after so many writes and flushes.
fn check_writes(rt: &impl Abort, alloc: Global, left: usize) -> Result<(), Fail> {
    let mut writer = Refusing {
        bytes: Vec::new(alloc),
        left,
    };
    let found = ending_of_new(alloc, INPUT, &mut writer)?;
    check_prefix(rt, left, found, RunFault::Write, &writer.bytes);
    Ok(())
}

#[test]
fn a_write_that_fails_is_reported(rt: HostRuntime) -> Result<(), Fail> {
    for left in 0..150 {
        check_writes(&rt, rt.alloc(), left)?;
    }
    Ok(())
}

/// Requests of which each is answered.
const ANSWERED: &[u8] =
    b"load m 45\nint n = 2; int f(int k) { n += k; return n; }\ncall m f 5\ncall m f 1\ncall m f 1\n";

/// Serves those requests where a write of the replies fails after so many writes and flushes: what was written, and the
/// disks.
fn answered(alloc: Global, left: usize) -> Result<(Vec<u8>, Disks), Fail> {
    let mut host = unregistered_host(alloc)?;
    let mut writer = Refusing {
        bytes: Vec::new(alloc),
        left,
    };
    let _ = ending(alloc, ANSWERED, &mut writer, &mut host);
    Ok((writer.bytes, closed_disks(alloc, host)?))
}

/// How many requests were answered of those that are found after a crash.
fn seq_after_crash(alloc: Global, disks: &Disks, survives: Survives) -> Result<u64, Fail> {
    let first = image_after(&disks.first, usize::MAX, survives)?;
    let second = image_after(&disks.second, usize::MAX, survives)?;
    Ok(found(alloc, &first, &second)??)
}

/// Of how many answers a byte was written.
fn begun_answers(bytes: &[u8]) -> u64 {
    let mut written = 0_u64;
    let mut begins = true;
    for byte in bytes {
        if begins {
            written = written.wrapping_add(1);
        }
        begins = *byte == b'\n';
    }
    written
}

/// How many requests were answered and are found again after a crash, where a write of the replies fails after so many
/// writes and flushes, and of how many answers a byte was written.
fn found_and_written(alloc: Global, left: usize, survives: Survives) -> Result<(u64, u64), Fail> {
    let (written, disks) = answered(alloc, left)?;
    let found = seq_after_crash(alloc, &disks, survives)?;
    Ok((found, begun_answers(&written)))
}

/// Compares the two.
fn check_found(
    rt: &impl Abort,
    alloc: Global,
    left: usize,
    survives: Survives,
) -> Result<(), Fail> {
    let (found, written) = found_and_written(alloc, left, survives)?;
    let is_found = found >= written;
    check(
        rt,
        &(left, is_found),
        &(left, true),
        "the answers that are found",
    );
    Ok(())
}

#[test]
fn an_answer_of_which_a_byte_was_written_is_found(rt: HostRuntime) -> Result<(), Fail> {
    // Four replies of 9, 11, 11 and 11 bytes, each with its line feed, and a flush.
    for left in 0..50 {
        check_found(&rt, rt.alloc(), left, Survives::Nothing)?;
        check_found(&rt, rt.alloc(), left, Survives::Everything)?;
    }
    Ok(())
}

static NUMBERED: [(RunFault, &str); 5] = [
    (RunFault::Truncated, "603 Truncated"),
    (RunFault::Read(ReadFault::TooLong), "604 TooLong"),
    (RunFault::Read(ReadFault::Failed), "605 Read"),
    (RunFault::Write, "606 Write"),
    (RunFault::NoMemory, "509 NoMemory"),
];

/// Compares by which fault of a run a check ends, and that its status is 1.
fn check_end(rt: &impl Abort, end: &ProgramEnd, wanted: RunFault) {
    let fault = match &end.fault {
        Some(ProgramFault::Run(fault)) => Some(*fault),
        _ => None,
    };
    check(
        rt,
        &(end.status, fault),
        &(1, Some(wanted)),
        "how a check ends",
    );
}

/// How a check ends, with nothing registered.
fn end_of_check<R: Read + Drop, W: Write>(alloc: Global, reader: R, writer: &mut W) -> ProgramEnd {
    let registry = Registry::new(alloc);
    run_check(alloc, &registry, reader, writer)
}

/// Compares how a check ends whose reader fails amid a file: nothing is written.
fn check_unread(rt: &impl Abort, alloc: Global) {
    let reader = Failing {
        bytes: b"int n = 2;",
        left: 4,
    };
    let mut written = Vec::new(alloc);
    let end = end_of_check(alloc, reader, &mut written);
    check_end(rt, &end, RunFault::Read(ReadFault::Failed));
    check_bytes(rt, &written, b"", "what is written of a file");
}

/// Compares how a check ends whose writer fails amid its line.
fn check_unwritten(rt: &impl Abort, alloc: Global) {
    let mut writer = Refusing {
        bytes: Vec::new(alloc),
        left: 2,
    };
    let end = end_of_check(alloc, b"int n = 2;".as_slice(), &mut writer);
    check_end(rt, &end, RunFault::Write);
    check_bytes(rt, &writer.bytes, b"ok", "what is written of a line");
}

#[test]
fn a_check_whose_file_or_line_fails(rt: HostRuntime) {
    check_unread(&rt, rt.alloc());
    check_unwritten(&rt, rt.alloc());
}

#[test]
fn each_fault_has_its_number_and_a_sentence(rt: HostRuntime) -> Result<(), Fail> {
    for (fault, wanted) in &NUMBERED {
        check_text(&rt, fault.code(), wanted, "the code of a fault");
    }
    let sentence = format!(in rt.alloc(); "{}", ProgramFault::Run(RunFault::Truncated))?;
    check_text(
        &rt,
        &sentence,
        "the input ended inside a request",
        "a fault as a sentence",
    );
    Ok(())
}
