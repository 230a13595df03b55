//! A world for a game: a program of its own around the host, with a kind of its own, `Chest`. It uses `ash`, and from
//! `ash_serve` the loop that reads requests and writes replies. It promises nothing of itself; the contract of `Chest`
//! is in `chest`.
//!
//! `ash_world FOLDER` makes a store in the folder, or opens the one that is there, and serves standard input and output.
//! `examples/world` has scripts for it, a client and a session.
#![tactic(auto)]

mod chest;

use anyhow::bail;
use ash::{Disk, FileDisk, Host, HostObject, Registry, RegistryFault, Tally};
use ash_serve::run::run;
use chest::Chest;
use std::alloc::Global;
use std::cell::Cell;
use std::fs::{File, OpenOptions};
use std::path::Path;
use std::rc::Rc;
use std::{env, io};

/// How many steps of a script a request may take.
const TICKS: u64 = 20_000;

/// How many chests scripts may construct, and a store may have.
const CHESTS: usize = 8;

/// What scripts may use: chests, and one service, an object of the kind Tally.
fn registrations(alloc: Global) -> Result<Registry, RegistryFault> {
    let mut registry = Registry::new(alloc);
    registry.object_type("Chest", Chest::KIND)?;
    registry.factory("Chest", "Chest@ make(int capacity)")?;
    registry.method("Chest", "void put(int item)", 1)?;
    registry.method("Chest", "int take()", 2)?;
    registry.property("Chest", "int count", 1)?;
    registry.property("Chest", "int capacity", 2)?;
    registry.service(Tally::KIND)?;
    registry.function(0, "int tally(int amount)", 1)?;
    registry.function(0, "int total()", 2)?;
    Ok(registry)
}

/// Locks a file against other processes, up to the end of this one.
fn lock(rt: &HostRuntime, path: &str) -> anyhow::Result<File> {
    let mut options = OpenOptions::new();
    options.read(true).write(true);
    let file = options.open(rt, path)?;
    if file.try_lock().is_err() {
        bail!("another process serves this world");
    }
    Ok(file)
}

/// Makes a store in a folder, or opens the one that is there, and serves it.
///
/// A store is made only if both files are new or empty. If one of them has something in it, the other may be lost or
/// cut: then the store is opened or not, but never made again.
fn serve<B: HostObject>(
    rt: &HostRuntime,
    folder: &str,
    pool: Vec<B>,
    services: Vec<B>,
) -> anyhow::Result<()> {
    let alloc = rt.alloc();
    let first = Path::new(folder).join(alloc, "world.a")?;
    let second = Path::new(folder).join(alloc, "world.b")?;
    let mut a = FileDisk::open_or_make(rt, first.as_str())?;
    let mut b = FileDisk::open_or_make(rt, second.as_str())?;
    let lock = lock(rt, first.as_str())?;

    let registry = registrations(alloc)?;
    let is_new = a.len()? == 0 && b.len()? == 0;
    let made = if is_new {
        Host::create(alloc, a, b, registry, pool, services)
    } else {
        Host::open(alloc, a, b, registry, pool, services)
    };
    let mut host = made.map_err(|refused| refused.fault)?;

    run(alloc, rt.reader(), &mut io::writer(rt), &mut host, TICKS)?;
    drop(host.close());
    drop(lock);
    Ok(())
}

fn main(rt: HostRuntime) -> anyhow::Result<()> {
    let alloc = rt.alloc();
    let words: Vec<String> = env::args(&rt)?.collect(alloc)?;
    let [_, folder] = words.as_slice() else {
        bail!("the words are: ash_world FOLDER");
    };
    let puts = Rc::new(alloc, Cell::new(0))?;
    let mut pool: Vec<Box<dyn HostObject>> = Vec::new(alloc);
    for _ in 0..CHESTS {
        pool.push(Box::new(alloc, Chest::new(alloc, puts.clone()?))?)?;
    }
    let mut services: Vec<Box<dyn HostObject>> = Vec::new(alloc);
    services.push(Box::new(alloc, Tally::new())?)?;
    serve(&rt, folder, pool, services)?;
    eprintln!(rt; "ash_world: {} items were put into chests", puts.get())?;
    Ok(())
}
