//! The journal.
use crate::bytes::{HEADER_SIZE, record_bytes};
use crate::creation::create_both;
use crate::error::{AppendError, CreateFault, OpenFault};
use crate::gate::{Gate, commit, repair};
use crate::other_state::{Order, OtherState};
use crate::record::Record;
use crate::refusal::{CreateRefused, OpenRefused};
use crate::two_files::{ReadFiles, read_both};
use ash_disk::{DeviceFailed, Disk};
use std::alloc::Global;
use std::marker::Model;

mod generations;

/// A record is added only where the open records of a journal take fewer bytes than this.
pub const RECORD_BYTES_LIMIT: u64 = 1 << 62;

/// A journal over two disks: a generation's image, and records that were added to it.
#[derive(Drop)]
pub struct Journal<D: Disk> {
    alloc: Global,
    current: D,
    other: D,
    /// Whether the current disk was handed over as the second.
    swapped: bool,
    generation: u64,
    /// The offset of the gate after the last open record.
    end: u64,
    record_bytes: u64,
    /// Whether that gate is still to be written over.
    stray: bool,
    other_state: OtherState,
    /// Whether a device failed in a call: the journal is to be opened again.
    failed: bool,
}

impl<D: Disk> Model for Journal<D> {
    ghost use Rattle.ash_journal.specs.JournalFields.{JournalFields, IsPlaced};

    ghost Value = { JournalFields D };

    ghost view = { λ j. record {
      current = j.current;
      other = j.other;
      swapped = j.swapped;
      generation = j.generation;
      end = j.end;
      record_bytes = j.record_bytes;
      stray = j.stray;
      other_state = j.other_state;
      failed = j.failed;
    } };

    // An honest disk is written to at most at its end.
    ghost invariant = { λ j. IsPlaced D.Disk j.end j.record_bytes j.other_state j.current j.other };
}

/// Two disks that were opened: a journal over them, and what they hold.
#[derive(Drop)]
pub struct OpenedJournal<D: Disk> {
    pub journal: Journal<D>,
    /// The image of the current generation.
    pub image: Vec<u8>,
    /// Its open records, in order.
    pub records: Vec<Record>,
}

/// The generation that is to follow a journal's, with an image and no records: its bytes, in memory.
#[derive(Drop)]
pub struct NextGeneration {
    number: u64,
    /// What follows the first gate.
    bytes: Vec<u8>,
}

impl<D: Disk> Journal<D> {
    ghost use Rattle.std.specs.Prelude.{◌≡◌, ◌<◌, ◌≤◌, ◌+◌, ◌^◌, ◌↔◌, ◌∷◌, ◌++◌, []};
    ghost use Rattle.std.specs.Prelude.{ℕ, List, length, IsTrue, IfOk, IfErr, OnOk};
    ghost use Rattle.std.specs.Prelude.{OnErr, IsErr, IsErrOf, MatchResult};
    ghost use Rattle.ash_journal.specs.JournalFailures.{CountsFailuresOf};
    ghost use Rattle.ash_journal.specs.Journal.{first_disk, second_disk, generation};
    ghost use Rattle.ash_journal.specs.Journal.{record_bytes, record_bytes_limit, current_disk};
    ghost use Rattle.ash_journal.specs.Journal.{IsReady, IsRepaired, HasFailed};
    ghost use Rattle.ash_journal.specs.Journal.{HoldsBeforeRepair, Holds, CountsFailuresIn};
    ghost use Rattle.ash_journal.specs.Journal.{LeavesOther, LeavesRepaired, WritesGates};
    ghost use Rattle.ash_journal.specs.Current.{IsContents, Represent};
    ghost use Rattle.ash_disk.specs.Device.{IsOnlyRead, EveryMomentSince};
    ghost use Rattle.ash_journal.specs.Layout.{IsClosed, header_size, length_limit};
    ghost use Rattle.ash_journal.specs.Opening.{FaultIs, CreateFaultIs, IsCreatedOrClosed};
    ghost use Rattle.ash_journal.specs.Writes.{WasUnused};
    ghost use Rattle.ash_journal.specs.Reading.{AreAt, bodies_of};
    ghost use Rattle.ash_journal.specs.SettledSince.{Extends, NoContents};

    /// Makes a journal of two disks of which neither file is open: generation 1 with an image and no records, in the
    /// first. The journal is ready for records.
    ///
    /// Refusals, the first that holds: `DeviceFailed` at any call of a device, `AlreadyThere` where a file is open,
    /// `NoMemory`. They hand the disks back, and but for `DeviceFailed` nothing was written.
    ///
    /// Each file is looked at in two calls; then the first gate of each that isn't 0 there is written as 0, both files
    /// are synced, and the generation is committed by two writes and two syncs. Where each file has held at most one
    /// byte, or 0 for its first gate, since an earlier time, a crash since then leaves no file open, or the whole
    /// generation: a caller may have looked at the disks before.
    pub fn create(
        alloc: Global,
        first: D,
        second: D,
        image: &[u8],
    ) -> Result<Journal<D>, CreateRefused<D>>
        requires short { length image.now < length_limit }
        ensures created { IfOk result (λ j. IsTrue (D.honest first) → IsTrue (D.honest second)
            → Holds D.Disk j image.now []) }
        ensures ready { IfOk result IsReady }
        ensures in_first { IfOk result (λ j. current_disk j ≡ first_disk j) }
        ensures number { IfOk result (λ j. generation j ≡ 1) }
        ensures emptied { IfOk result (λ j. record_bytes j ≡ 0) }
        ensures closed { OnOk result (IsTrue (D.honest first) → IsTrue (D.honest second)
            → IsClosed (D.seen first) × IsClosed (D.seen second)) }
        ensures fault { IfErr result (λ r. IsTrue (D.honest first) → IsTrue (D.honest second)
            → CreateFaultIs r.fault (D.seen first) (D.seen second)
            (IsOnlyRead D.Disk first r.first
            × IsOnlyRead D.Disk second r.second)) }
        ensures moments { (a b : ℕ) → IsTrue (D.honest first) → IsTrue (D.honest second)
            → WasUnused D.Disk a first → WasUnused D.Disk b second
            → MatchResult result
            (λ j. EveryMomentSince D.Disk a b (first_disk j) (second_disk j)
            (IsCreatedOrClosed image.now))
            (λ r. EveryMomentSince D.Disk a b r.first r.second (IsCreatedOrClosed image.now)) }
        ensures honesty_first { MatchResult result (λ j. D.honest (first_disk j) ≡ D.honest first)
            (λ r. D.honest r.first ≡ D.honest first) }
        ensures honesty_second { MatchResult result
            (λ j. D.honest (second_disk j) ≡ D.honest second)
            (λ r. D.honest r.second ≡ D.honest second) }
        ensures cause { MatchResult result
            (λ j. CountsFailuresOf D.Disk ⊥ first second (first_disk j) (second_disk j))
            (λ r. CountsFailuresOf D.Disk (r.fault ≡ CreateFault.DeviceFailed)
            first second r.first r.second) }
    {
        let mut one = first;
        let mut two = second;
        match create_both(alloc, &mut one, &mut two, image) {
            Ok(()) => Ok(Journal {
                alloc,
                current: one,
                other: two,
                swapped: false,
                generation: 1,
                end: HEADER_SIZE + image.len() as u64,
                record_bytes: 0,
                stray: false,
                other_state: OtherState::Shut,
                failed: false,
            }),
            Err(fault) => Err(CreateRefused {
                fault,
                first: one,
                second: two,
            }),
        }
    }

    /// Opens two disks: syncs them, and reads which is current, its image and its open records, in order, with memory
    /// for these. It writes nothing, and leaves gates that are to be repaired to `settle`, which comes before the first
    /// record or image.
    ///
    /// Refusals: `NoGeneration` where no file is open; `Damaged` where an open file has no magic and generation, two
    /// open files have one number, or an image or a record of the current file is cut short or has a length of
    /// `LENGTH_LIMIT` or more, with the offset of the gate before that record, else 0; `DeviceFailed`; `NoMemory`. They
    /// hand the disks back as they were read. Nothing is read, and no memory is taken, for a length that is damage.
    pub fn open(alloc: Global, first: D, second: D) -> Result<OpenedJournal<D>, OpenRefused<D>>
        ensures found { IfOk result (λ o. IsTrue (D.honest first) → IsTrue (D.honest second)
            → HoldsBeforeRepair D.Disk o.journal o.image.items (bodies_of o.records.items)) }
        ensures offsets { IfOk result (λ o. IsTrue (D.honest first) → IsTrue (D.honest second)
            → AreAt (header_size + length o.image.items) o.records.items) }
        ensures fault { IfErr result (λ r. IsTrue (D.honest first) → IsTrue (D.honest second)
            → FaultIs r.fault (D.seen first) (D.seen second)) }
        ensures represented { IfOk result (λ o. IsTrue (D.honest first) → IsTrue (D.honest second)
            → Represent (o.image.items, bodies_of o.records.items) (D.seen first) (D.seen second)) }
        ensures extends { IsTrue (D.honest first) → IsTrue (D.honest second)
            → MatchResult result
            (λ o. Extends D.Disk first second (first_disk o.journal) (second_disk o.journal)
            NoContents)
            (λ r. Extends D.Disk first second r.first r.second NoContents) }
        ensures sound { IfOk result (λ o. HasFailed o.journal → ⊥) }
        ensures first_read { MatchResult result
            (λ o. IsOnlyRead D.Disk first (first_disk o.journal))
            (λ r. IsOnlyRead D.Disk first r.first) }
        ensures second_read { MatchResult result
            (λ o. IsOnlyRead D.Disk second (second_disk o.journal))
            (λ r. IsOnlyRead D.Disk second r.second) }
        ensures cause { MatchResult result
            (λ o. CountsFailuresOf D.Disk ⊥ first second
            (first_disk o.journal) (second_disk o.journal))
            (λ r. CountsFailuresOf D.Disk (r.fault ≡ OpenFault.DeviceFailed)
            first second r.first r.second) }
    {
        let mut one = first;
        let mut two = second;
        let contents = match read_both(alloc, &mut one, &mut two) {
            Ok(contents) => contents,
            Err(fault) => {
                return Err(OpenRefused {
                    fault,
                    first: one,
                    second: two,
                });
            }
        };
        let ReadFiles { choice, file } = contents;
        let swapped = choice.swapped;
        let (current, other) = Order { swapped }.arrange(one, two);
        let journal = Journal {
            alloc,
            current,
            other,
            swapped,
            generation: choice.generation,
            end: file.tail.end,
            record_bytes: file.tail.end - HEADER_SIZE - file.image.len() as u64,
            stray: file.tail.gate != 0,
            other_state: choice.other_state,
            failed: false,
        };
        Ok(OpenedJournal {
            journal,
            image: file.image,
            records: file.tail.records,
        })
    }

    /// The number of the current generation.
    pub fn generation(&self) -> u64
        ensures number { result ≡ generation self.now }
    {
        self.generation
    }

    /// Whether records and generations may be written: from `create`, or from a `settle` that answered `Ok` after
    /// `open`, until a `DeviceFailed`.
    pub fn is_ready(&self) -> bool
        ensures ready { IsTrue result ↔ IsReady self.now }
    {
        !self.failed && !self.stray && !self.other_state.is_stray()
    }

    /// Adds a record to the current generation, on a journal that is ready. At `Ok` the record is acknowledged, and
    /// every crash leaves it.
    ///
    /// The open records take fewer than `RECORD_BYTES_LIMIT` bytes, and the body is shorter than `LENGTH_LIMIT`.
    ///
    /// `NoMemory` comes before any call of a device, and changes nothing. After `DeviceFailed` the record is there or
    /// not, and the journal is ready no more: it is to be opened again. A record is one write and a sync, twice;
    /// nothing is read.
    pub fn append(&mut self, body: &[u8]) -> Result<(), AppendError>
        requires short { length body.now < length_limit }
        requires room { record_bytes self.old < record_bytes_limit }
        requires ready { IsReady self.old }
        ensures acknowledged { OnOk result ((image : List ℕ) (bodies : List (List ℕ))
            → Holds D.Disk self.old image bodies
            → Holds D.Disk self.new image (bodies ++ body.now ∷ [])) }
        ensures extends { (image : List ℕ) (bodies : List (List ℕ))
            → Holds D.Disk self.old image bodies
            → Extends D.Disk (first_disk self.old) (second_disk self.old)
            (first_disk self.new) (second_disk self.new)
            (IsContents (image, bodies ++ body.now ∷ [])) }
        ensures ready { (IsErrOf result AppendError.DeviceFailed → ⊥) → IsReady self.new }
        ensures failed { IsErrOf result AppendError.DeviceFailed → HasFailed self.new }
        ensures longer { OnOk result (record_bytes self.new
            ≡ record_bytes self.old + 5 + length body.now) }
        ensures no_longer { OnErr result (record_bytes self.new ≡ record_bytes self.old) }
        ensures untouched { LeavesOther self.old self.new }
        ensures number { generation self.new ≡ generation self.old }
        ensures cause { CountsFailuresIn D.Disk (IsErrOf result AppendError.DeviceFailed)
            self.old self.new }
        ensures memory { IsErrOf result AppendError.NoMemory → self.new ≡ self.old }
        ensures honesty_first { D.honest (first_disk self.new) ≡ D.honest (first_disk self.old) }
        ensures honesty_second { D.honest (second_disk self.new) ≡ D.honest (second_disk self.old) }
    {
        let bytes = record_bytes(self.alloc, body)?;
        match commit(&mut self.current, self.end, &bytes) {
            Ok(()) => {}
            Err(_) => {
                self.failed = true;
                return Err(AppendError::DeviceFailed);
            }
        }
        let added = bytes.len() as u64;
        self.end += added;
        self.record_bytes += added;
        Ok(())
    }

    /// The bytes of the open records: their lengths, bodies and gates.
    pub fn record_bytes(&self) -> u64
        ensures size { result ≡ record_bytes self.now }
    {
        self.record_bytes
    }

    /// The disks, the first and the second as they were handed over. Nothing is written.
    pub fn close(self) -> (D, D)
        ensures first { result.0 ≡ first_disk self }
        ensures second { result.1 ≡ second_disk self }
    {
        let Journal {
            alloc: _,
            current,
            other,
            swapped,
            generation: _,
            end: _,
            record_bytes: _,
            stray: _,
            other_state: _,
            failed: _,
        } = self;
        Order { swapped }.arrange(current, other)
    }

    /// Writes 0 over the gates that a crash left with another value: the one after the last open record, and the first
    /// of the file that isn't current unless that is an older generation. Each only where it isn't 0, and with its own
    /// sync. At `Ok` a journal is ready for records, unless one of its calls has failed before. It takes no memory.
    ///
    /// After `DeviceFailed` it is to be opened again.
    pub fn settle(&mut self) -> Result<(), DeviceFailed>
        ensures settled { OnOk result ((image : List ℕ) (bodies : List (List ℕ))
            → HoldsBeforeRepair D.Disk self.old image bodies
            → Holds D.Disk self.new image bodies) }
        ensures extends { (image : List ℕ) (bodies : List (List ℕ))
            → HoldsBeforeRepair D.Disk self.old image bodies
            → Extends D.Disk (first_disk self.old) (second_disk self.old)
            (first_disk self.new) (second_disk self.new) NoContents }
        ensures ready { OnOk result ((HasFailed self.old → ⊥) → IsReady self.new) }
        ensures failed { IsErr result → HasFailed self.new }
        ensures still_failed { HasFailed self.old → HasFailed self.new }
        ensures only_stray { IsRepaired self.old
            → (first_disk self.new ≡ first_disk self.old)
            × (second_disk self.new ≡ second_disk self.old) }
        ensures untouched { LeavesRepaired self.old self.new }
        ensures gates { (image : List ℕ) (bodies : List (List ℕ))
            → HoldsBeforeRepair D.Disk self.old image bodies
            → WritesGates D.Disk self.old self.new }
        ensures number { generation self.new ≡ generation self.old }
        ensures size { record_bytes self.new ≡ record_bytes self.old }
        ensures cause { CountsFailuresIn D.Disk (IsErr result) self.old self.new }
        ensures honesty_first { D.honest (first_disk self.new) ≡ D.honest (first_disk self.old) }
        ensures honesty_second { D.honest (second_disk self.new) ≡ D.honest (second_disk self.old) }
    {
        let last_gate = Gate {
            at: self.end,
            stray: self.stray,
        };
        match repair(&mut self.current, last_gate) {
            Ok(()) => self.stray = false,
            Err(failure) => {
                self.failed = true;
                return Err(failure);
            }
        }
        let first_gate = Gate {
            at: 0,
            stray: self.other_state.is_stray(),
        };
        match repair(&mut self.other, first_gate) {
            Ok(()) => self.other_state = self.other_state.repaired(),
            Err(failure) => {
                self.failed = true;
                return Err(failure);
            }
        }
        Ok(())
    }
}
