//! What two files are read as. Nothing here writes.
ghost use Rattle.std.specs.Prelude.{◌≡◌, ◌+◌, ◌<◌, ◌≤◌, ◌^◌};
ghost use Rattle.std.specs.Prelude.{ℕ, List, length, IsTrue, IfOk, OnOk, IsErr, IsErrOf};
ghost use Rattle.std.specs.Prelude.{IfSome, MatchOption, MatchResult, ◌⊎◌, if◌then◌else◌};
ghost use Rattle.ash_disk.specs.Device.{IsDurable, IsOnlyRead};
ghost use Rattle.ash_journal.specs.JournalFailures.{CountsFailuresOf};
ghost use Rattle.ash_journal.specs.Layout.{IsOpen, IsClosed, IsShut, HasMark, header_size, length_limit};
ghost use Rattle.ash_journal.specs.Opening.{HeadersAre, ChoiceIs, ContentsAre, FaultIs};
ghost use Rattle.ash_journal.specs.OtherState.{first_of, second_of};
ghost use Rattle.ash_journal.specs.Reading.{HeaderIs, ShutIs};

use crate::error::OpenFault;
use crate::one_file::{CurrentFile, FileHeader, FirstGate, read_current, read_header};
use crate::other_state::OtherState;
use ash_disk::{DeviceFailed, Disk};
use std::alloc::Global;

/// Which of two files is current, and the state of the other.
#[derive(Clone, Copy)]
pub(crate) struct Choice {
    pub(crate) swapped: bool,
    pub(crate) generation: u64,
    pub(crate) other_state: OtherState,
}

/// What two files are read as: which is current, and all of that one.
#[derive(Drop)]
pub(crate) struct ReadFiles {
    pub(crate) choice: Choice,
    pub(crate) file: CurrentFile,
}

// The state of a file that is closed.
fn closed_state(gate: FirstGate) -> OtherState
    ensures value { result ≡ (if gate.shut then OtherState.Shut else OtherState.Stray) }
{
    if gate.shut {
        OtherState::Shut
    } else {
        OtherState::Stray
    }
}

// Which file is current: the open one with the greater number.
fn choose(first: FileHeader, second: FileHeader) -> Result<Choice, OpenFault>
    ensures failed { IsErrOf result OpenFault.DeviceFailed → ⊥ }
    ensures shut { IfOk result (λ choice. choice.other_state ≡ OtherState.Shut
        → (file : List ℕ) → HeaderIs (second_of choice.swapped first second) file
        → IsShut file) }
    ensures answer { (x y : List ℕ) → HeaderIs first x → HeaderIs second y
        → MatchResult result (λ choice. ChoiceIs choice x y) (λ fault. FaultIs fault x y) }
{
    match (first, second) {
        (FileHeader::Unmarked, _) | (_, FileHeader::Unmarked) => Err(OpenFault::Damaged(0)),
        (FileHeader::Closed { .. }, FileHeader::Closed { .. }) => Err(OpenFault::NoGeneration),
        (FileHeader::Marked { generation }, FileHeader::Closed { gate }) => Ok(Choice {
            swapped: false,
            generation,
            other_state: closed_state(gate),
        }),
        (FileHeader::Closed { gate }, FileHeader::Marked { generation }) => Ok(Choice {
            swapped: true,
            generation,
            other_state: closed_state(gate),
        }),
        (FileHeader::Marked { generation: one }, FileHeader::Marked { generation: two }) => {
            choose_greater(one, two)
        }
    }
}

// Which of two generations is current.
fn choose_greater(first: u64, second: u64) -> Result<Choice, OpenFault>
    ensures failed { IsErrOf result OpenFault.DeviceFailed → ⊥ }
    ensures older { IfOk result (λ choice. choice.other_state ≡ OtherState.Older) }
    ensures answer { (x y : List ℕ) → HasMark first x → HasMark second y
        → MatchResult result (λ choice. ChoiceIs choice x y) (λ fault. FaultIs fault x y) }
{
    if first == second {
        return Err(OpenFault::Damaged(0));
    }
    if first > second {
        Ok(Choice {
            swapped: false,
            generation: first,
            other_state: OtherState::Older,
        })
    } else {
        Ok(Choice {
            swapped: true,
            generation: second,
            other_state: OtherState::Older,
        })
    }
}

fn sync_both<D: Disk>(first: &mut D, second: &mut D) -> Result<(), DeviceFailed>
    ensures durable_first { OnOk result (IsTrue (D.honest first.old)
        → IsDurable D.Disk first.new) }
    ensures durable_second { OnOk result (IsTrue (D.honest second.old)
        → IsDurable D.Disk second.new) }
    ensures first_read { IsOnlyRead D.Disk first.old first.new }
    ensures second_read { IsOnlyRead D.Disk second.old second.new }
    ensures cause { CountsFailuresOf D.Disk (IsErr result)
        first.old second.old first.new second.new }
{
    first.sync()?;
    second.sync()
}

/// The headers of two files, and their lengths.
#[derive(Drop)]
pub(crate) struct Headers {
    first: FileHeader,
    first_len: u64,
    second: FileHeader,
    second_len: u64,
}

pub(crate) fn read_headers<D: Disk>(first: &mut D, second: &mut D) -> Result<Headers, DeviceFailed>
    ensures answer { IfOk result (λ x. IsTrue (D.honest first.old) → IsTrue (D.honest second.old)
        → HeadersAre x (D.seen first.old) (D.seen second.old)) }
    ensures first_header { IfOk result (λ x. IsTrue (D.honest first.old)
        → HeaderIs x.first (D.seen first.old)) }
    ensures second_header { IfOk result (λ x. IsTrue (D.honest second.old)
        → HeaderIs x.second (D.seen second.old)) }
    ensures first_whole { IfOk result (λ x. IsTrue (D.honest first.old)
        → x.first_len ≡ length (D.seen first.old)) }
    ensures second_whole { IfOk result (λ x. IsTrue (D.honest second.old)
        → x.second_len ≡ length (D.seen second.old)) }
    ensures first_read { IsOnlyRead D.Disk first.old first.new }
    ensures second_read { IsOnlyRead D.Disk second.old second.new }
    ensures cause { CountsFailuresOf D.Disk (IsErr result)
        first.old second.old first.new second.new }
{
    let (one, first_len) = read_header(first)?;
    let (two, second_len) = read_header(second)?;
    Ok(Headers {
        first: one,
        first_len,
        second: two,
        second_len,
    })
}

/// The first gates of two files that are both closed.
pub(crate) fn both_closed(headers: &Headers) -> Option<(FirstGate, FirstGate)>
    ensures gates { (x y : List ℕ) → HeadersAre headers.now x y
        → MatchOption result (IsOpen x ⊎ IsOpen y)
        (λ gates. (IsClosed x × ShutIs gates.0.shut x) × (IsClosed y × ShutIs gates.1.shut y)) }
    ensures first { IfSome result (λ gates. (file : List ℕ) → HeaderIs headers.now.first file
        → ShutIs gates.0.shut file) }
    ensures second { IfSome result (λ gates. (file : List ℕ) → HeaderIs headers.now.second file
        → ShutIs gates.1.shut file) }
{
    match headers.first {
        FileHeader::Closed { gate: one } => match headers.second {
            FileHeader::Closed { gate: two } => Some((one, two)),
            FileHeader::Unmarked => None,
            FileHeader::Marked { .. } => None,
        },
        FileHeader::Unmarked => None,
        FileHeader::Marked { .. } => None,
    }
}

fn read_chosen<D: Disk>(
    alloc: Global,
    first: &mut D,
    second: &mut D,
    headers: &Headers,
    choice: Choice,
) -> Result<CurrentFile, OpenFault>
    requires first_whole { IsTrue (D.honest first.old)
        → headers.now.first_len ≡ length (D.seen first.old) }
    requires second_whole { IsTrue (D.honest second.old)
        → headers.now.second_len ≡ length (D.seen second.old) }
    ensures answer { IsTrue (D.honest first.old) → IsTrue (D.honest second.old)
        → HeadersAre headers.now (D.seen first.old) (D.seen second.old)
        → ChoiceIs choice (D.seen first.old) (D.seen second.old)
        → MatchResult result
        (λ r. ContentsAre choice r (D.seen first.old) (D.seen second.old))
        (λ fault. FaultIs fault (D.seen first.old) (D.seen second.old)) }
    ensures within { IfOk result (λ r. header_size + length r.image.items ≤ r.tail.end) }
    ensures inside { IfOk result (λ r. IsTrue (D.honest (first_of choice.swapped first.old second.old))
        → r.tail.end < length (D.seen (first_of choice.swapped first.old second.old))) }
    ensures short { IfOk result (λ r. length r.image.items < length_limit) }
    ensures first_read { IsOnlyRead D.Disk first.old first.new }
    ensures second_read { IsOnlyRead D.Disk second.old second.new }
    ensures cause { CountsFailuresOf D.Disk (IsErrOf result OpenFault.DeviceFailed)
        first.old second.old first.new second.new }
{
    if choice.swapped {
        read_current(alloc, second, headers.second_len)
    } else {
        read_current(alloc, first, headers.first_len)
    }
}

/// Syncs two files, and reads which is current, and all of that one.
pub(crate) fn read_both<D: Disk>(
    alloc: Global,
    first: &mut D,
    second: &mut D,
) -> Result<ReadFiles, OpenFault>
    ensures answer { IsTrue (D.honest first.old) → IsTrue (D.honest second.old)
        → MatchResult result
        (λ c. ContentsAre c.choice c.file (D.seen first.old) (D.seen second.old))
        (λ fault. FaultIs fault (D.seen first.old) (D.seen second.old)) }
    ensures durable_first { OnOk result (IsTrue (D.honest first.old)
        → IsDurable D.Disk first.new) }
    ensures durable_second { OnOk result (IsTrue (D.honest second.old)
        → IsDurable D.Disk second.new) }
    ensures within { IfOk result (λ c. header_size + length c.file.image.items ≤ c.file.tail.end) }
    ensures current_inside { IfOk result (λ c.
        IsTrue (D.honest (first_of c.choice.swapped first.new second.new))
        → c.file.tail.end < length (D.seen (first_of c.choice.swapped first.new second.new))) }
    ensures other_inside { IfOk result (λ c. c.choice.other_state ≡ OtherState.Shut
        → IsTrue (D.honest (second_of c.choice.swapped first.new second.new))
        → 0 < length (D.seen (second_of c.choice.swapped first.new second.new))) }
    ensures short { IfOk result (λ c. length c.file.image.items < length_limit) }
    ensures first_read { IsOnlyRead D.Disk first.old first.new }
    ensures second_read { IsOnlyRead D.Disk second.old second.new }
    ensures cause { CountsFailuresOf D.Disk (IsErrOf result OpenFault.DeviceFailed)
        first.old second.old first.new second.new }
{
    sync_both(first, second)?;
    let headers = read_headers(first, second)?;
    let choice = choose(headers.first, headers.second)?;
    let file = read_chosen(alloc, first, second, &headers, choice)?;
    Ok(ReadFiles { choice, file })
}
