//! A journal of records over two disks, which outlives a crash at any moment. It uses `ash_disk`, and takes images
//! and records as strings of bytes of which it knows nothing. It promises that what was acknowledged is there after
//! every crash, that what was in progress is there whole or not at all, and that opening finds exactly what the bytes
//! hold or reports their fault.
//!
//! A file, with numbers little-endian:
//!
//! | bytes | what |
//! |---|---|
//! | 1 | gate: 1 is open, any other value closed |
//! | 8 | `ASHOST01` |
//! | 8 | the number of the generation |
//! | 4 | the length of the image, less than 2^28 |
//! | | the image |
//! | 1 | gate |
//! | 4 | for each record, the length of its body, less than 2^28 |
//! | | its body |
//! | 1 | gate |
//!
//! A record is there where the gate before it is 1. A file is open where its first gate is 1 and something follows. Of
//! two open files the one with the greater number is current, and the other stays as it is, an older generation.
//!
//! Nothing is written after a gate but while it is 0 on the device, and then the gate is written, alone, as 1: a torn
//! write changes one byte of which two values matter, and what follows it is whole by then. So a record is added by a
//! write and a sync of its length, body and next gate, and a write and a sync of the gate before it; and a generation
//! is installed by the same two steps in the file that is not current, whose first gate is shut and synced before.
//! After a crash a gate may hold another value than 0 and 1. It counts as closed, but what follows it may be
//! whole, so `settle` writes 0 over it before anything is written after it. A journal is ready for that once `settle`
//! has answered `Ok`, and is so no more once a device has failed in one of its calls.
//!
//! In reading order: `journal` (the calls) with its `generations` (how the next one is installed), `gate` (all writes
//! but that of 0 over the first gate of a new file), `bytes` (what is written), `creation`, `two_files` and `one_file`
//! (what files are read as), `first_append` (the first record after an opening), `other_state` (the file that is not
//! current), `record`, `refusal`, `error`. The words of the clauses are in `specs/Layout` (a file), `specs/Current`
//! (two files, and what they settle on), `specs/SettledSince` (moments), `specs/JournalFields` (what a clause sees of a
//! journal, and where its writes begin), `specs/Journal` (what a journal holds) and `specs/Opening` (faults).
#![tactic(auto)]

mod bytes;
mod creation;
mod error;
mod first_append;
mod gate;
mod journal;
mod one_file;
mod other_state;
mod record;
mod refusal;
mod two_files;

pub use bytes::LENGTH_LIMIT;
pub use error::{AppendError, CreateFault, InstallError, OpenFault};
pub use first_append::append_first;
pub use journal::{Journal, NextGeneration, OpenedJournal, RECORD_BYTES_LIMIT};
pub use record::Record;
pub use refusal::{CreateRefused, OpenRefused};
