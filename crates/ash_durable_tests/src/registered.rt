//! Stores with what the program registers, which are opened again, with another registry too.

use crate::checks::{check, check_text};
use crate::hosts::{
    Disks, Refused, check_exchange, closed_disks, disks_after, disks_with, opened_registered,
    refused_opening, registered_host, reopened_host, replies_once,
};
use ash_disk::MemoryDisk;
use ash_durable::StoreFault;
use ash_registry::{Registry, RegistryFault};
use ash_serve::program::registrations::registrations;
use std::alloc::Global;
use std::process::Abort;
use std::test::Fail;

/// The file of a host that has no module, nothing registered, and has answered no request.
static EMPTY: [u8; 51] = [
    0x01, 0x41, 0x53, 0x48, 0x4f, 0x53, 0x54, 0x30, 0x31, 0x01, 0x00, 0x00, 0x00, 0x00, 0x00, 0x00,
    0x00, 0x1d, 0x00, 0x00, 0x00, 0x02, 0x00, 0x00, 0x00, 0x00, 0x00, 0x00, 0x00, 0x00, 0x00, 0x00,
    0x00, 0x00, 0x00, 0x00, 0x00, 0x00, 0x00, 0x00, 0x00, 0x00, 0x00, 0x00, 0x00, 0x00, 0x00, 0x00,
    0x00, 0x00, 0x00,
];

/// The program's registrations, and one more method.
fn one_more(alloc: Global) -> Result<Registry, RegistryFault> {
    let mut registry = registrations(alloc)?;
    registry.method("Counter", "int get()", 3)?;
    Ok(registry)
}

/// Why a store of this file isn't opened, whose disks read as before.
fn fault_of(refused: Refused, file: &[u8]) -> Result<StoreFault, Fail> {
    let (fault, disks) = refused;
    if disks.first.bytes() != file || disks.second.bytes() != [0].as_slice() {
        return Err("a disk was changed".into());
    }
    Ok(fault)
}

/// Why a store of this file isn't opened, if it isn't. The disks read as before.
fn refusal(refused: Option<Refused>, file: &[u8]) -> Result<Option<StoreFault>, Fail> {
    match refused {
        Some(refused) => Ok(Some(fault_of(refused, file)?)),
        None => Ok(None),
    }
}

fn refusal_with_none(alloc: Global, file: &[u8]) -> Result<Option<StoreFault>, Fail> {
    let disks = disks_with(alloc, file, &[0])?;
    refusal(refused_opening(alloc, disks, Registry::new(alloc))?, file)
}

fn refusal_with_program(alloc: Global, file: &[u8]) -> Result<Option<StoreFault>, Fail> {
    let disks = disks_with(alloc, file, &[0])?;
    refusal(refused_opening(alloc, disks, registrations(alloc)?)?, file)
}

/// What is refused of opening these disks with one method more, if it is.
fn refused_with_one_more(alloc: Global, disks: Disks) -> Result<Option<Refused>, Fail> {
    Ok(refused_opening(alloc, disks, one_more(alloc)?)?)
}

/// The disks of a store with the program's registrations and a module, handed back where it was opened with one method
/// more.
fn refused_disks(rt: &impl Abort, alloc: Global) -> Result<Disks, Fail> {
    let host = registered_host(alloc)?;
    let disks = disks_after(alloc, host, b"load m 10\nint n = 2;\n")?;
    let Some((fault, disks)) = refused_with_one_more(alloc, disks)? else {
        return Err("opened with another registry".into());
    };
    check(rt, &fault, &StoreFault::OtherInterface, "one more");
    Ok(disks)
}

/// The first of those disks after the store was opened with what is registered with it.
fn opened_with_its_own(rt: &impl Abort, alloc: Global) -> Result<Box<MemoryDisk>, Fail> {
    let host = opened_registered(alloc, refused_disks(rt, alloc)?)?;
    let exchange = (b"seq\nget m n\n".as_slice(), "ok 1\nok 2\n");
    let host = check_exchange(rt, alloc, host, exchange, "opened with its own")?;
    let Disks { first, second: _ } = closed_disks(alloc, host)?;
    Ok(first)
}

#[test]
fn one_more_method_is_another_interface(rt: HostRuntime) -> Result<(), Fail> {
    let first = opened_with_its_own(&rt, rt.alloc())?;
    // Nothing registered is another interface too, the other way round as well.
    let other = Some(StoreFault::OtherInterface);
    let found = refusal_with_none(rt.alloc(), first.bytes())?;
    check(&rt, &found, &other, "with none");
    let found = refusal_with_program(rt.alloc(), &EMPTY)?;
    check(&rt, &found, &other, "an empty one");
    let found = refusal_with_none(rt.alloc(), &EMPTY)?;
    check(&rt, &found, &None, "an empty one with none");
    Ok(())
}

#[test]
fn a_host_that_is_opened_again_has_what_was_registered(rt: HostRuntime) -> Result<(), Fail> {
    let host = reopened_host(rt.alloc(), registered_host(rt.alloc())?)?;
    let found = replies_once(rt.alloc(), host, b"load m 14\nint tally = 1;\n")?;
    check_text(
        &rt,
        &found,
        "refused 303 NameTaken 4\n",
        "a registered name",
    );
    Ok(())
}
