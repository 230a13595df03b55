//! Serving from two disks: a host is opened or made on them, and runs.

ghost use Rattle.std.specs.Prelude.{◌≡◌, Err};
ghost use Rattle.ash_durable.specs.OpenedStore.{Opens};
ghost use Rattle.ash_durable.specs.Store.{Creates};
ghost use Rattle.ash_registry.specs.RegistryViews.{registered};
ghost use Rattle.ash_serve.specs.Service.{ServesHost, ServesFrom, service_remains, service_start};
ghost use Rattle.ash_serve.specs.Serving.{run_state};
ghost use Rattle.ash_serve.specs.declared.program.fault.ProgramFault.TheVariants as faults;

use super::fault::ProgramFault;
use crate::run::run;
use ash_disk::Disk;
use ash_durable::{Host, OpenRefused};
use ash_host::HostObject;
use ash_registry::Registry;
use std::alloc::Global;
use std::io::{Read, Write};

/// What is served: the store on two disks, what is registered with its host, the boxes of host objects that the host
/// is handed, and the ticks that each request may take.
#[derive(Drop)]
pub struct Service<D, B> {
    pub a: D,
    pub b: D,
    pub registry: Registry,
    /// The free boxes.
    pub pool: Vec<B>,
    /// The service at each place is of the kind that is registered there.
    pub services: Vec<B>,
    pub budget: u64,
}

/// How serving ended, and the disks as they are left.
#[derive(Drop)]
pub struct ServiceEnd<D> {
    pub end: Result<(), ProgramFault>,
    pub a: D,
    pub b: D,
}

/// Opens the store that is on the disks, with the boxes, serves a reader and a writer from it, and hands the disks back.
pub fn serve_stored<D: Disk, B: HostObject, R: Read + Drop, W: Write>(
    alloc: Global,
    service: Service<D, B>,
    reader: R,
    writer: &mut W,
) -> ServiceEnd<D>
    ensures serves { ServesFrom D.Disk B.HostObject service.budget
        (service_start (Opens D.Disk B.HostObject (registered service.registry) service.pool.items
        service.services.items service.a service.b) (R.remaining reader) (W.contents writer.old))
        result.end (service_remains result.a result.b (W.contents writer.new)) }
{
    let Service {
        a,
        b,
        registry,
        pool,
        services,
        budget,
    } = service;
    match Host::open(alloc, a, b, registry, pool, services) {
        Ok(host) => serve_host(alloc, host, reader, writer, budget),
        Err(refused) => end_without_host(refused),
    }
}

/// Creates a store on the disks, with the boxes, serves a reader and a writer from it, and hands the disks back.
pub fn serve_new<D: Disk, B: HostObject, R: Read + Drop, W: Write>(
    alloc: Global,
    service: Service<D, B>,
    reader: R,
    writer: &mut W,
) -> ServiceEnd<D>
    ensures serves { ServesFrom D.Disk B.HostObject service.budget
        (service_start (Creates D.Disk B.HostObject (registered service.registry) service.pool.items
        service.services.items service.a service.b) (R.remaining reader) (W.contents writer.old))
        result.end (service_remains result.a result.b (W.contents writer.new)) }
{
    let Service {
        a,
        b,
        registry,
        pool,
        services,
        budget,
    } = service;
    match Host::create(alloc, a, b, registry, pool, services) {
        Ok(host) => serve_host(alloc, host, reader, writer, budget),
        Err(refused) => end_without_host(refused),
    }
}

/// Serves a reader and a writer from a host, and closes it.
fn serve_host<D: Disk, B: HostObject, R: Read + Drop, W: Write>(
    alloc: Global,
    mut host: Host<D, B>,
    reader: R,
    writer: &mut W,
    budget: u64,
) -> ServiceEnd<D>
    ensures serves { ServesHost D.Disk B.HostObject budget
        (run_state (R.remaining reader) (W.contents writer.old) host)
        result.end (service_remains result.a result.b (W.contents writer.new)) }
{
    let end = match run(alloc, reader, writer, &mut host, budget) {
        Ok(()) => Ok(()),
        Err(fault) => Err(ProgramFault::Run(fault)),
    };
    let (a, b) = host.close();
    ServiceEnd { end, a, b }
}

/// Why there is no host, and the disks that it was to have.
fn end_without_host<D>(refused: OpenRefused<D>) -> ServiceEnd<D>
    ensures end { result.end ≡ Err (faults.Store refused.fault) }
    ensures a { result.a ≡ refused.a }
    ensures b { result.b ≡ refused.b }
{
    let OpenRefused { fault, a, b } = refused;
    ServiceEnd {
        end: Err(ProgramFault::Store(fault)),
        a,
        b,
    }
}
