//! A program that has the host within it: a shop whose gold outlives the process, in two files. It uses `ash` alone.
//! It promises nothing: it shows how a kind of host object is registered and a box of it handed over, and how a store is
//! made, asked, and found again.
//!
//! What holds a host has a type parameter, `B: HostObject`, for its boxes. Only `main`, which makes them, names their
//! type.
#![tactic(auto)]

use ash::{
    Arg, FileDisk, Host, HostObject, HostReply, Outcome, Registry, RegistryFault, Reply, Tally,
    Word,
};
use std::alloc::Global;
use std::fs::{File, Files};
use std::io;

/// The script of the shop.
const SHOP: &[u8] = b"int gold = 100; int buy(int price) { gold -= price; return gold; }";

/// How many steps of a script a request may take.
const TICKS: u64 = 1000;

/// The two files of the store, made where they are not there.
fn disks(rt: &impl Files<File = File>) -> io::Result<(FileDisk, FileDisk)> {
    let a = FileDisk::open_or_make(rt, "shop.a")?;
    let b = FileDisk::open_or_make(rt, "shop.b")?;
    Ok((a, b))
}

/// What scripts may use: one service, an object of the kind Tally with its two functions.
fn registrations(alloc: Global) -> Result<Registry, RegistryFault> {
    let mut registry = Registry::new(alloc);
    registry.service(Tally::KIND)?;
    registry.function(0, "int tally(int)", 1)?;
    registry.function(0, "int total()", 2)?;
    Ok(registry)
}

/// Makes the store with this service and without free boxes, loads the script and buys something.
fn first_start<B: HostObject>(
    rt: &(impl Print + Files<File = File>),
    alloc: Global,
    services: Vec<B>,
) -> anyhow::Result<()> {
    let (a, b) = disks(rt)?;
    let registry = registrations(alloc)?;
    let pool = Vec::new(alloc);
    let mut host = Host::create(alloc, a, b, registry, pool, services).map_err(
        |refused| refused.fault,
    )?;
    let loaded = host.load("shop", SHOP, TICKS);
    let bought = host.call("shop", "buy", &[Arg::Number(30)], TICKS);
    drop(host);
    show(rt, "load", &loaded)?;
    show(rt, "buy", &bought)?;
    Ok(())
}

/// Opens the store, as every later start does, also one after a crash. The service takes the state that is stored.
fn later_start<B: HostObject>(
    rt: &(impl Print + Files<File = File>),
    alloc: Global,
    services: Vec<B>,
) -> anyhow::Result<()> {
    let (a, b) = disks(rt)?;
    let registry = registrations(alloc)?;
    let pool = Vec::new(alloc);
    let mut host = Host::open(alloc, a, b, registry, pool, services).map_err(
        |refused| refused.fault,
    )?;
    let gold = host.global("shop", "gold");
    drop(host);
    show(rt, "gold", &gold)?;
    Ok(())
}

/// Prints what was replied: a number, how a run ended that gave none, or why the request was refused.
fn show(rt: &impl Print, asked: &str, reply: &HostReply) -> io::Result<()> {
    match reply {
        Reply::Value(Word::Int(number)) => println!(rt; "{asked}: {number}"),
        Reply::Answer(answer) => show_outcome(rt, asked, &answer.outcome),
        Reply::Refused(refusal) => println!(rt; "{asked}: refused, {refusal}"),
        _ => println!(rt; "{asked}: no number"),
    }
}

/// Prints how a run ended.
fn show_outcome(rt: &impl Print, asked: &str, outcome: &Outcome) -> io::Result<()> {
    match outcome {
        Outcome::Finished(Some(Word::Int(number))) => println!(rt; "{asked}: {number}"),
        Outcome::Finished(_) => println!(rt; "{asked}: done"),
        Outcome::Exception {
            code,
            function,
            line,
        } => println!(rt; "{asked}: {} in {function}, line {line}", code.name()),
        Outcome::Aborted { function, line } => {
            println!(rt; "{asked}: out of steps in {function}, line {line}")
        }
    }
}

fn main(rt: HostRuntime) -> anyhow::Result<()> {
    let alloc = rt.alloc();
    let mut services: Vec<Box<dyn HostObject>> = Vec::new(alloc);
    services.push(Box::new(alloc, Tally::new())?)?;
    first_start(&rt, alloc, services)?;

    let mut services: Vec<Box<dyn HostObject>> = Vec::new(alloc);
    services.push(Box::new(alloc, Tally::new())?)?;
    later_start(&rt, alloc, services)
}
