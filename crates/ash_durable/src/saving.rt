//! Keeping a state in a journal: what a request changed as one record more, or the whole as a new generation.

ghost use Rattle.std.specs.Prelude.{◌≡◌, ◌<◌, length, Some, IsSome};
ghost use Rattle.ash_journal.specs.Journal.{IsReady, record_bytes, record_bytes_limit};
ghost use Rattle.ash_journal.specs.Layout.{length_limit};
ghost use Rattle.ash_engine.specs.LiveStates.{LiveState};
ghost use Rattle.ash_durable.specs.Saving.{Adds, AddsRecord, Installs};

use ash_disk::Disk;
use ash_engine::engine::Engine;
use ash_host::HostObject;
use ash_journal::{AppendError, InstallError, Journal};
use ash_requests::Refusal;
use ash_states::state::HostRefusal;

/// Adds a record with this body to a journal that is ready. At `Ok` every crash leaves it.
///
/// `NoMemory` comes before any call of a device, and changes nothing. After `DeviceFailed` the record is there or not,
/// and the journal is to be opened again.
pub fn add_record<D: Disk>(body: &[u8], journal: &mut Journal<D>) -> Result<(), HostRefusal>
    requires short { length body.now < length_limit }
    requires ready { IsReady journal.old }
    requires room { record_bytes journal.old < record_bytes_limit }
    ensures adds { AddsRecord D.Disk body.now journal.old result journal.new }
{
    match journal.append(body) {
        Ok(()) => Ok(()),
        Err(AppendError::NoMemory) => Err(Refusal::NoMemory),
        Err(AppendError::DeviceFailed) => Err(Refusal::DeviceFailed),
    }
}

/// Adds what the last request of an engine changed to a journal that is ready, as one record more. At `Ok` every crash
/// leaves it.
///
/// `NoMemory` comes before any call of a device, and changes nothing. After `DeviceFailed` the record is there or not,
/// and the journal is to be opened again.
pub fn add_state<D: Disk, B: HostObject>(
    engine: &Engine<B>,
    journal: &mut Journal<D>,
) -> Result<(), HostRefusal>
    requires live { IsSome engine.now.live }
    requires ready { IsReady journal.old }
    requires room { record_bytes journal.old < record_bytes_limit }
    ensures adds { (live : LiveState B) → engine.now.live ≡ Some live
        → Adds D.Disk live journal.old result journal.new }
{
    engine.facts();
    let body = engine.delta_body()?;
    add_record(&body, journal)
}

/// Writes the state of an engine, which a journal holds, into it as a new generation without records, in the file that
/// isn't current.
///
/// Refusals, the first that holds: `GenerationSpent`, `NoMemory`; both come before any call of a device, and change
/// nothing. After `DeviceFailed` the old generation is current or the new one, and the journal is to be opened again.
pub fn install_state<D: Disk, B: HostObject>(
    engine: &Engine<B>,
    journal: &mut Journal<D>,
) -> Result<(), HostRefusal>
    requires live { IsSome engine.now.live }
    requires ready { IsReady journal.old }
    ensures installs { (live : LiveState B) → engine.now.live ≡ Some live
        → Installs D.Disk live.durable journal.old result journal.new }
{
    if journal.generation() == u64::MAX {
        return Err(Refusal::GenerationSpent);
    }
    let image = engine.image()?;
    match journal.install(&image) {
        Ok(()) => Ok(()),
        Err(InstallError::GenerationSpent) => Err(Refusal::GenerationSpent),
        Err(InstallError::NoMemory) => Err(Refusal::NoMemory),
        Err(InstallError::DeviceFailed) => Err(Refusal::DeviceFailed),
    }
}
