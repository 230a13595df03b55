//! A caller that makes every call of a journal, proved.
ghost use Rattle.std.specs.Prelude.{◌≡◌, ◌<◌, ◌∷◌, [], ℕ, List, length, IsTrue, IfOk};
ghost use Rattle.ash_journal.specs.Reading.{bodies_of};
ghost use Rattle.ash_journal.specs.Journal.{Holds, IsReady};
ghost use Rattle.ash_journal.specs.Layout.{length_limit};

use crate::compare::{check_bytes, check_number};
use ash_disk::{Disk, MemoryDisk};
use ash_journal::{Journal, OpenedJournal, RECORD_BYTES_LIMIT};
use std::alloc::Global;
use std::test::Fail;

// Why the caller gave up.
#[derive(Debug, Drop)]
enum CallerError {
    Refused,
    Full,
}

// A new journal with three records.
fn three_records<D: Disk + Drop>(
    alloc: Global,
    first: D,
    second: D,
    image: &[u8],
    body: &[u8],
) -> Result<Journal<D>, CallerError>
    requires image_short { length image.now < length_limit }
    requires body_short { length body.now < length_limit }
    ensures ready { IfOk result IsReady }
    ensures holds { IfOk result (λ j. IsTrue (D.honest first) → IsTrue (D.honest second)
        → Holds D.Disk j image.now (body.now ∷ body.now ∷ body.now ∷ [])) }
{
    let mut journal = match Journal::create(alloc, first, second, image) {
        Ok(journal) => journal,
        Err(_) => return Err(CallerError::Refused),
    };
    match journal.append(body) {
        Ok(()) => {}
        Err(_) => return Err(CallerError::Refused),
    }
    match journal.append(body) {
        Ok(()) => {}
        Err(_) => return Err(CallerError::Refused),
    }
    match journal.append(body) {
        Ok(()) => Ok(journal),
        Err(_) => Err(CallerError::Refused),
    }
}

// A generation and a record more, and then the journal is closed, opened again and settled.
fn reopened<D: Disk + Drop>(
    alloc: Global,
    mut journal: Journal<D>,
    image: &[u8],
    body: &[u8],
) -> Result<OpenedJournal<D>, CallerError>
    requires image_short { length image.now < length_limit }
    requires body_short { length body.now < length_limit }
    requires ready { IsReady journal }
    ensures ready { IfOk result (λ o. IsReady o.journal) }
    ensures found { IfOk result (λ o. (was : List ℕ) (bodies : List (List ℕ))
        → Holds D.Disk journal was bodies
        → (o.image.items ≡ image.now) × (bodies_of o.records.items ≡ body.now ∷ [])) }
    ensures holds { IfOk result (λ o. (was : List ℕ) (bodies : List (List ℕ))
        → Holds D.Disk journal was bodies
        → Holds D.Disk o.journal image.now (body.now ∷ [])) }
{
    match journal.install(image) {
        Ok(()) => {}
        Err(_) => return Err(CallerError::Refused),
    }
    match journal.append(body) {
        Ok(()) => {}
        Err(_) => return Err(CallerError::Refused),
    }
    let (first, second) = journal.close();
    let mut found = match Journal::open(alloc, first, second) {
        Ok(found) => found,
        Err(_) => return Err(CallerError::Refused),
    };
    match found.journal.settle() {
        Ok(()) => Ok(found),
        Err(_) => Err(CallerError::Refused),
    }
}

// All of that, and one record more.
fn composed<D: Disk + Drop>(
    alloc: Global,
    first: D,
    second: D,
    image: &[u8],
    body: &[u8],
) -> Result<Journal<D>, CallerError>
    requires image_short { length image.now < length_limit }
    requires body_short { length body.now < length_limit }
    ensures held { IfOk result (λ j. IsTrue (D.honest first) → IsTrue (D.honest second)
        → Holds D.Disk j image.now (body.now ∷ body.now ∷ [])) }
{
    let journal = three_records(alloc, first, second, image, body)?;
    let found = reopened(alloc, journal, image, body)?;
    let mut journal = found.journal;
    if journal.record_bytes() >= RECORD_BYTES_LIMIT {
        return Err(CallerError::Full);
    }
    match journal.append(body) {
        Ok(()) => Ok(journal),
        Err(_) => Err(CallerError::Refused),
    }
}

// The same, in memory.
fn composed_in_memory(alloc: Global) -> Result<Journal<MemoryDisk>, CallerError> {
    let (first, second) = (MemoryDisk::new(alloc), MemoryDisk::new(alloc));
    composed(alloc, first, second, b"image", b"body")
}

const CLOSED: &[u8] =
    b"\x01ASHOST01\x02\0\0\0\0\0\0\0\x05\0\0\0image\x01\x04\0\0\0body\x01\x04\0\0\0body\0";

#[test]
fn every_call_once(rt: HostRuntime) -> Result<(), Fail> {
    let journal = composed_in_memory(rt.alloc())?;
    check_number(
        &rt,
        journal.generation(),
        2,
        "every call once",
        "the generation",
    );
    check_number(
        &rt,
        journal.record_bytes(),
        18,
        "every call once",
        "the bytes of records",
    );
    let (_, second) = journal.close();
    check_bytes(
        &rt,
        second.bytes(),
        CLOSED,
        "every call once",
        "the second file",
    );
    Ok(())
}
