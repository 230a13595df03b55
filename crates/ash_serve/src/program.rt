//! The program `ashd`: what it does, and its statuses.
//!
//! Only who makes boxes of host objects can name their type: what holds a host is generic in it. So the program has
//! three parts. `prepare` reads its words and opens the files that they name; `main`, in the crate of the program, makes
//! the boxes; `run_host` makes or opens a host with them, and serves.

pub mod check;
pub mod ending;
pub mod fault;
pub mod preparing;
pub mod registrations;
pub mod service;
pub mod store;
pub mod task;

use crate::fault::RunFault;
use ash_disk::{FileDisk, MemoryDisk};
use ash_durable::{CreateFault, Host, OpenRefused, StoreFault};
use ash_host::HostObject;
use check::run_check;
use ending::{Ending, ProgramEnd};
use fault::ProgramFault;
use preparing::HostTask;
use registrations::registrations;
use service::{Service, ServiceEnd, serve_new, serve_stored};
use std::fs::{File, Files};
use std::io;
use std::process::ExitCode;
use store::{MadeFiles, NewStore, Store};
use task::Limits;

/// Ends the program. The status to end with. A fault is written on standard error.
pub fn exit<R: Eprint>(rt: &R, end: &ProgramEnd) -> ExitCode {
    if let Some(fault) = &end.fault {
        let _ = eprintln!(rt; "ashd: {}", fault.code());
    }
    ExitCode::from(end.status)
}

/// Makes or opens a host with these free boxes and these services, and does with it what was asked for. Faults come in
/// this order: of what is registered, of the host or of memory, of the run.
pub fn run_host<R: Files<File = File> + Input + Print + AllocGlobal, B: HostObject>(
    rt: &R,
    task: HostTask,
    pool: Vec<B>,
    services: Vec<B>,
) -> Result<Ending, ProgramFault> {
    match task {
        HostTask::Try { limits } => serve_in_memory(rt, limits, pool, services)?,
        HostTask::Create { store } => create(rt, store, pool, services)?,
        HostTask::Serve { store, limits } => serve(rt, store, limits, pool, services)?,
    }
    Ok(Ending::Well)
}

/// Serves standard input and output, with the store in memory.
fn serve_in_memory<R: Input + Print + AllocGlobal, B: HostObject>(
    rt: &R,
    limits: Limits,
    pool: Vec<B>,
    services: Vec<B>,
) -> Result<(), ProgramFault> {
    let service = Service {
        a: MemoryDisk::new(rt.alloc()),
        b: MemoryDisk::new(rt.alloc()),
        registry: registrations(rt.alloc())?,
        pool,
        services,
        budget: limits.budget,
    };
    serve_new(rt.alloc(), service, rt.reader(), &mut io::writer(rt)).end
}

/// Serves standard input and output, with the store in these files.
fn serve<R: Input + Print + AllocGlobal, B: HostObject>(
    rt: &R,
    store: Store,
    limits: Limits,
    pool: Vec<B>,
    services: Vec<B>,
) -> Result<(), ProgramFault> {
    let Store { a, b, lock } = store;
    let service = Service {
        a,
        b,
        registry: registrations(rt.alloc())?,
        pool,
        services,
        budget: limits.budget,
    };
    let ServiceEnd { end, a, b } = serve_stored(
        rt.alloc(),
        service,
        rt.reader(),
        &mut io::writer(rt),
    );
    drop((a, b));
    drop(lock);
    end
}

/// Creates a store in these files, and reports it. A store that is there stays as it is.
fn create<R: Files<File = File> + Print + AllocGlobal, B: HostObject>(
    rt: &R,
    store: NewStore,
    pool: Vec<B>,
    services: Vec<B>,
) -> Result<(), ProgramFault> {
    let NewStore {
        files: Store { a, b, lock },
        made,
    } = store;
    let registry = registrations(rt.alloc())?;
    match Host::create(rt.alloc(), a, b, registry, pool, services) {
        Ok(host) => drop(host),
        Err(refused) => return Err(not_created(rt, refused, made)),
    }
    drop(lock);
    match println!(rt; "created") {
        Ok(()) => Ok(()),
        Err(_) => Err(ProgramFault::Run(RunFault::Write)),
    }
}

/// Why no store is created. If one is there, the files that were made beside it are removed.
fn not_created<R: Files<File = File>>(
    rt: &R,
    refused: OpenRefused<FileDisk>,
    made: MadeFiles,
) -> ProgramFault {
    let OpenRefused { fault, a, b } = refused;
    if matches!(&fault, StoreFault::Create(CreateFault::AlreadyThere)) {
        made.remove_empty(rt, a, b);
    }
    ProgramFault::Store(fault)
}

/// Checks the script in a file, writes the verdict, and returns how the program ends by it.
pub fn check_script<R: Print + AllocGlobal>(
    rt: &R,
    file: File,
) -> Result<ProgramEnd, ProgramFault> {
    let registry = registrations(rt.alloc())?;
    let end = run_check(rt.alloc(), &registry, file, &mut io::writer(rt));
    Ok(end)
}
