//! Memory that is refused once: `tests/program boxes` has each allocation of each of these tests fail in turn, and they
//! pass whichever it is. A store that is refused memory is not made or not opened, and is made or opened again.

use crate::checks::{check, check_bytes};
use crate::files::{File, bytes_of, disks_of};
use crate::visits::{Registered, begun, registry_of};
use ash_disk::MemoryDisk;
use ash_durable::{CreateFault, Host, OpenFault, OpenRefused, StoreFault};
use ash_host::{HostObject, NoMemory, Tally};
use ash_requests::{Arg, Request};
use ash_store_fixtures::hosts::{Boxes, SOURCE, closed, is_done, reopened, reply_to, seq};
use ash_store_fixtures::lives::Start;
use std::alloc::Global;
use std::process::Abort;
use std::test::Fail;

/// How a store is begun, on disks with which files, and the files that it leaves.
struct Scene {
    start: Start,
    files: (File, File),
    left: (File, File),
    seq: u64,
}

static MADE: Scene = Scene {
    start: Start::Make,
    files: (File::Bytes(&[1]), File::Bytes(&[7])),
    left: (File::Program(&[(2, 5)]), File::Bytes(&[0])),
    seq: 0,
};

static OPENED: Scene = Scene {
    start: Start::Open,
    files: (File::Program(&[(2, 5)]), File::Bytes(&[7])),
    left: (File::Program(&[(2, 5)]), File::Bytes(&[0])),
    seq: 0,
};

/// Compares both disks with the files of a scene.
fn check_disks(
    rt: &impl Abort,
    alloc: Global,
    disks: (&MemoryDisk, &MemoryDisk),
    files: (File, File),
    what: &str,
) -> Result<(), NoMemory> {
    check_bytes(rt, disks.0.bytes(), &bytes_of(alloc, files.0)?, what);
    check_bytes(rt, disks.1.bytes(), &bytes_of(alloc, files.1)?, what);
    Ok(())
}

/// A tally of 5 as the service, and a free box.
fn boxes(alloc: Global) -> Result<Boxes<Tally>, NoMemory> {
    let mut tally = Tally::new();
    let _ = tally.restore(&[5, 0, 0, 0]);
    Ok(Boxes {
        pool: vec![in alloc; Tally::new()]?,
        services: vec![in alloc; tally]?,
    })
}

/// The disks that are handed back of a store that is refused memory. A disk in memory that finds none has failed, and
/// may have been written to; else both read as before.
fn disks_of_refused(
    rt: &impl Abort,
    alloc: Global,
    scene: &Scene,
    refused: OpenRefused<MemoryDisk>,
) -> Result<(MemoryDisk, MemoryDisk), NoMemory> {
    let OpenRefused { fault, a, b } = refused;
    match fault {
        StoreFault::Create(CreateFault::NoMemory) | StoreFault::Open(OpenFault::NoMemory) => {
            check_disks(rt, alloc, (&a, &b), scene.files, "after 509")?;
        }
        fault => {
            let is_device = matches!(
                fault,
                StoreFault::Create(CreateFault::DeviceFailed)
                    | StoreFault::Open(OpenFault::DeviceFailed)
            );
            check(rt, &is_device, &true, "another fault");
        }
    }
    Ok((a, b))
}

/// Begins a scene with fresh boxes.
fn begin(
    alloc: Global,
    scene: &Scene,
    disks: (MemoryDisk, MemoryDisk),
) -> Result<Result<Host<MemoryDisk, Tally>, OpenRefused<MemoryDisk>>, NoMemory> {
    let Ok(registry) = registry_of(alloc, Registered::Program) else {
        return Err(NoMemory);
    };
    Ok(begun(disks, alloc, registry, boxes(alloc)?, scene.start))
}

/// Begins a scene, and once more where memory is refused on the way.
fn begun_at_last(
    rt: &impl Abort,
    alloc: Global,
    scene: &Scene,
) -> Result<Host<MemoryDisk, Tally>, NoMemory> {
    match begin(alloc, scene, disks_of(alloc, scene.files)?)? {
        Ok(host) => Ok(host),
        Err(refused) => {
            let disks = disks_of_refused(rt, alloc, scene, refused)?;
            match begin(alloc, scene, disks)? {
                Ok(host) => Ok(host),
                Err(_) => Err(NoMemory),
            }
        }
    }
}

/// Begins a scene, and compares what it leaves.
fn play(rt: &impl Abort, alloc: Global, scene: &Scene) -> Result<(), NoMemory> {
    let host = begun_at_last(rt, alloc, scene)?;
    check(rt, &seq(&host), &scene.seq, "requests that were answered");
    let (first, second) = closed(host);
    check_disks(rt, alloc, (&first, &second), scene.left, "the files")?;
    Ok(())
}

/// The same, and once more where memory is refused before it or after it.
fn play_at_last(rt: &impl Abort, alloc: Global, scene: &Scene) -> Result<(), NoMemory> {
    match play(rt, alloc, scene) {
        Ok(()) => Ok(()),
        Err(_) => play(rt, alloc, scene),
    }
}

/// What is asked of a host that has the store of a scene, in turn: a load, a call and a removal.
const REQUESTS: [Request<'static>; 3] = [
    Request::Load {
        module: "m",
        source: SOURCE,
    },
    Request::Call {
        module: "m",
        function: "f",
        arguments: &[Arg::Number(5)],
    },
    Request::Discard { module: "m" },
];

/// A host with the store of one that must be reopened.
fn reopened_at_last(
    alloc: Global,
    host: Host<MemoryDisk, Tally>,
) -> Result<Host<MemoryDisk, Tally>, NoMemory> {
    match reopened(host, boxes(alloc)?) {
        Ok(host) => Ok(host),
        Err(_) => Err(NoMemory),
    }
}

/// The host after a request that was refused memory. Where nothing changed, the same request is answered then. Else the
/// host must be reopened, and has the state before the request or the one after it.
fn after_a_refusal(
    rt: &impl Abort,
    alloc: Global,
    mut host: Host<MemoryDisk, Tally>,
    request: &Request<'_>,
    number: u64,
) -> Result<Host<MemoryDisk, Tally>, NoMemory> {
    check(rt, &seq(&host), &number, "the number after a refusal");
    if is_done(&reply_to(&mut host, request)) {
        return Ok(host);
    }
    let mut host = reopened_at_last(alloc, host)?;
    if seq(&host) == number {
        check(
            rt,
            &is_done(&reply_to(&mut host, request)),
            &true,
            "the request again",
        );
    }
    Ok(host)
}

/// Asks a host for each request, and once more where memory is refused. So many requests are answered in the end.
fn ask_all(rt: &impl Abort, alloc: Global) -> Result<(), NoMemory> {
    let mut host = begun_at_last(rt, alloc, &MADE)?;
    let mut number: u64 = 0;
    for request in &REQUESTS {
        if !is_done(&reply_to(&mut host, request)) {
            host = after_a_refusal(rt, alloc, host, request, number)?;
        }
        number = number.wrapping_add(1);
        check(rt, &seq(&host), &number, "the number of the last answer");
    }
    Ok(())
}

#[test]
fn a_making_that_is_refused_memory(rt: HostRuntime) -> Result<(), Fail> {
    Ok(play_at_last(&rt, rt.alloc(), &MADE)?)
}

#[test]
fn an_opening_that_is_refused_memory(rt: HostRuntime) -> Result<(), Fail> {
    Ok(play_at_last(&rt, rt.alloc(), &OPENED)?)
}

#[test]
fn requests_that_are_refused_memory(rt: HostRuntime) -> Result<(), Fail> {
    match ask_all(&rt, rt.alloc()) {
        Ok(()) => Ok(()),
        Err(_) => Ok(ask_all(&rt, rt.alloc())?),
    }
}
