//! Making a store on two disks, and finding its state there.

ghost use Rattle.std.specs.Prelude.{◌≡◌, Some, IsSome};
ghost use Rattle.ash_journal.specs.Journal.{first_disk, second_disk, HasFailed};
ghost use Rattle.ash_registry.specs.RegistryViews.{registered};
ghost use Rattle.ash_engine.specs.LiveStates.{LiveState};
ghost use Rattle.ash_durable.specs.OpenedStore.{OpensState, Moves, Prepares, Repairs, Revives, Settled};
ghost use Rattle.ash_durable.specs.Store.{FindsClosed, PreparesFirst, Makes};
ghost use Rattle.ash_durable.specs.StoreFaults.{fault_of_boxes};

use crate::fault::{OpenRefused, StoreFault};
use crate::header::read_header;
use ash_disk::Disk;
use ash_engine::engine::Engine;
use ash_host::HostObject;
use ash_image::version::Version;
use ash_journal::{CreateFault, Journal, NextGeneration, OpenFault, OpenedJournal};
use ash_objects::TableFault;
use ash_registry::Registry;
use ash_replay::state::state_in;
use ash_states::state::HostState;
use std::alloc::Global;

/// Neither file on two disks is open.
fn find_closed<D: Disk>(a: &mut D, b: &mut D) -> Result<(), CreateFault>
    ensures finds_closed { FindsClosed D.Disk a.old b.old result a.new b.new }
{
    let first = read_header(a)?;
    let second = read_header(b)?;
    if first.is_open() || second.is_open() {
        return Err(CreateFault::AlreadyThere);
    }
    Ok(())
}

/// What a store begins with: an engine before any request, and the image of its state.
#[derive(Drop)]
pub struct First<B: HostObject> {
    pub engine: Engine<B>,
    pub image: Vec<u8>,
}

/// The fault of boxes that were handed over, as one of the store, with this one where memory was refused.
fn fault_of_boxes(fault: TableFault, out_of_memory: StoreFault) -> StoreFault
    ensures value { result ≡ fault_of_boxes out_of_memory fault }
{
    match fault {
        TableFault::PoolShort(kind) => StoreFault::PoolShort(kind),
        TableFault::RestoreRefused(number) => StoreFault::RestoreRefused(number),
        TableFault::NoMemory => out_of_memory,
    }
}

/// What a store begins with, for two disks of which neither file is open.
fn prepare_first<D: Disk, B: HostObject>(
    alloc: Global,
    registry: Registry,
    pool: Vec<B>,
    services: Vec<B>,
    a: &mut D,
    b: &mut D,
) -> Result<First<B>, StoreFault>
    ensures prepares_first { PreparesFirst D.Disk B.HostObject (registered registry) pool.items
        services.items a.old b.old result a.new b.new }
{
    find_closed(a, b)?;
    let out_of_memory = StoreFault::Create(CreateFault::NoMemory);
    let engine = match Engine::new(alloc, registry, pool, services) {
        Ok(engine) => engine,
        Err(fault) => return Err(fault_of_boxes(fault, out_of_memory)),
    };
    let Ok(image) = engine.image() else {
        return Err(out_of_memory);
    };
    engine.facts();
    Ok(First { engine, image })
}

/// A store, with the engine whose state its journal holds.
#[derive(Drop)]
pub struct Found<D: Disk, B: HostObject> {
    pub engine: Engine<B>,
    pub journal: Journal<D>,
}

/// Makes a store, and an engine before any request, whose state is its first generation. The boxes are tested, and the
/// image is made, before anything is written.
///
/// Faults, the first that holds: `DeviceFailed` and `AlreadyThere`, each a `StoreFault::Create`; `PoolShort` with the
/// kind of the first service that lacks; `StoreFault::Create(NoMemory)`. Nothing is written except before
/// `DeviceFailed`.
pub fn make<D: Disk, B: HostObject>(
    alloc: Global,
    registry: Registry,
    pool: Vec<B>,
    services: Vec<B>,
    a: D,
    b: D,
) -> Result<Found<D, B>, OpenRefused<D>>
    ensures makes { Makes D.Disk B.HostObject (registered registry) pool.items services.items a b
        result }
{
    let mut a = a;
    let mut b = b;
    let first = match prepare_first(alloc, registry, pool, services, &mut a, &mut b) {
        Ok(first) => first,
        Err(fault) => return Err(OpenRefused { fault, a, b }),
    };
    match Journal::create(alloc, a, b, &first.image) {
        Ok(journal) => Ok(Found {
            engine: first.engine,
            journal,
        }),
        Err(refused) => Err(OpenRefused {
            fault: refused.fault.into(),
            a: refused.first,
            b: refused.second,
        }),
    }
}

/// Why a journal that was opened is of no use, and its disks.
fn refusal_of<D: Disk>(journal: Journal<D>, fault: StoreFault) -> OpenRefused<D>
    ensures fault { result.fault ≡ fault }
    ensures a { result.a ≡ first_disk journal }
    ensures b { result.b ≡ second_disk journal }
{
    let (a, b) = journal.close();
    OpenRefused { fault, a, b }
}

/// An engine with a state that was read of a journal, and the journal once its gates are written over that a crash
/// left.
fn repair<D: Disk, B: HostObject>(
    engine: Engine<B>,
    journal: Journal<D>,
) -> Result<Found<D, B>, OpenRefused<D>>
    ensures repairs { Repairs D.Disk engine journal result }
{
    let mut journal = journal;
    match journal.settle() {
        Ok(()) => Ok(Found { engine, journal }),
        Err(_) => Err(refusal_of(journal, StoreFault::Open(OpenFault::DeviceFailed))),
    }
}

/// The generation that is to follow a journal's, with the image of an engine's state in version 2.
fn next_generation<D: Disk, B: HostObject>(
    engine: &Engine<B>,
    journal: &Journal<D>,
) -> Result<NextGeneration, StoreFault>
    requires live { IsSome engine.now.live }
    ensures prepares { (live : LiveState B) → engine.now.live ≡ Some live
        → Prepares live.durable journal.now result }
{
    if journal.generation() == u64::MAX {
        return Err(StoreFault::GenerationSpent);
    }
    let Ok(image) = engine.image() else {
        return Err(StoreFault::Open(OpenFault::NoMemory));
    };
    match journal.next_generation(&image) {
        Ok(next) => Ok(next),
        Err(_) => Err(StoreFault::Open(OpenFault::NoMemory)),
    }
}

/// An engine with a state that was read of a journal in version 1, and the journal once it is repaired, and holds the
/// state in a new generation of version 2. All memory is taken before anything is written.
fn upgrade<D: Disk, B: HostObject>(
    engine: Engine<B>,
    journal: Journal<D>,
) -> Result<Found<D, B>, OpenRefused<D>>
    requires live { IsSome engine.live }
    requires not_failed { HasFailed journal → ⊥ }
    ensures moves { (live : LiveState B) → engine.live ≡ Some live
        → Moves D.Disk live.durable engine journal result }
{
    let next = match next_generation(&engine, &journal) {
        Ok(next) => next,
        Err(cause) => return Err(refusal_of(journal, cause)),
    };
    let mut found = repair(engine, journal)?;
    match found.journal.install_next(next) {
        Ok(()) => Ok(found),
        Err(_) => Err(refusal_of(found.journal, StoreFault::Open(OpenFault::DeviceFailed))),
    }
}

/// A state that was stored lives again in an engine, with these boxes.
fn revive<B: HostObject>(
    state: HostState,
    pool: Vec<B>,
    services: Vec<B>,
) -> Result<Engine<B>, StoreFault>
    ensures revives { Revives B.HostObject state pool.items services.items result }
{
    match Engine::restored(state, pool, services) {
        Ok(engine) => {
            engine.facts();
            Ok(engine)
        }
        Err(fault) => Err(fault_of_boxes(fault, StoreFault::Open(OpenFault::NoMemory))),
    }
}

/// The state that an opened journal holds, in an engine, and the journal once its gates are written over that a crash
/// left, and once it is moved where it is of version 1. The boxes take the state before anything is written.
fn settle<D: Disk, B: HostObject>(
    alloc: Global,
    registry: Registry,
    pool: Vec<B>,
    services: Vec<B>,
    opened: OpenedJournal<D>,
) -> Result<Found<D, B>, OpenRefused<D>>
    requires not_failed { HasFailed opened.journal → ⊥ }
    ensures settled { Settled D.Disk B.HostObject (registered registry) pool.items services.items
        opened result }
{
    let OpenedJournal {
        journal,
        image,
        records,
    } = opened;
    let read = match state_in(alloc, registry, &image, &records) {
        Ok(read) => read,
        Err(fault) => return Err(refusal_of(journal, fault.into())),
    };
    let engine = match revive(read.state, pool, services) {
        Ok(engine) => engine,
        Err(fault) => return Err(refusal_of(journal, fault)),
    };
    match read.version {
        Version::One => upgrade(engine, journal),
        Version::Two => repair(engine, journal),
    }
}

/// Finds the state of a store under this registry, gives it to these boxes, and keeps it in version 2. Nothing is
/// written before the whole state is read, and the boxes have taken it.
///
/// Faults, each a `StoreFault::Open` except `OtherInterface`, `PoolShort`, `RestoreRefused` and `GenerationSpent`, the
/// first that holds: those of `Journal::open`; those of `state_in`; those of the boxes; of a store of version 1
/// `GenerationSpent` and `NoMemory`; and `DeviceFailed` where the gates that a crash left are written over, or a new
/// generation is installed.
pub fn find<D: Disk, B: HostObject>(
    alloc: Global,
    registry: Registry,
    pool: Vec<B>,
    services: Vec<B>,
    a: D,
    b: D,
) -> Result<Found<D, B>, OpenRefused<D>>
    ensures opens_state { OpensState D.Disk B.HostObject (registered registry) pool.items
        services.items a b result }
{
    match Journal::open(alloc, a, b) {
        Ok(opened) => settle(alloc, registry, pool, services, opened),
        Err(refused) => Err(OpenRefused {
            fault: refused.fault.into(),
            a: refused.first,
            b: refused.second,
        }),
    }
}
