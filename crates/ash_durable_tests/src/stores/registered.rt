//! Stores with what is registered: damage to their bytes, and opening them with another registry.

use crate::checks::{check, check_bytes};
use crate::hosts::{
    BoxedHost, Disks, Refused, boxed_disk, closed_disks, disks_with, new_host, opened_host,
    refused_opening, when_done, with_module,
};
use ash_disk::MemoryDisk;
use ash_durable::{OpenFault, StoreFault};
use ash_registry::{Registry, RegistryFault};
use ash_store_fixtures::files::{ImageModule, StoreImage, add_image, generation, image_bytes};
use ash_store_fixtures::hosts::{discard, disk, second_generation, snapshot};
use std::alloc::{AllocError, Global};
use std::process::Abort;
use std::test::Fail;

/// One type, of this name.
fn one_type(alloc: Global, name: &str) -> Result<Registry, RegistryFault> {
    let mut registry = Registry::new(alloc);
    registry.object_type(name, 1)?;
    Ok(registry)
}

/// Why a store of this file isn't opened, whose disks read as before, and have had a sync each.
fn fault_of(refused: Refused, file: &[u8]) -> Result<StoreFault, Fail> {
    let (fault, disks) = refused;
    if disks.first.bytes() != file || disks.second.bytes() != [7].as_slice() {
        return Err("a disk was changed".into());
    }
    if disks.first.calls() != 1 || disks.second.calls() != 1 {
        return Err("a disk was written to".into());
    }
    Ok(fault)
}

/// What is refused of opening these disks with that type registered, if it is.
fn refused_with(alloc: Global, disks: Disks, name: &str) -> Result<Option<Refused>, Fail> {
    Ok(refused_opening(alloc, disks, one_type(alloc, name)?)?)
}

/// Why a store of this file isn't opened with that type registered, if it isn't.
fn refusal(alloc: Global, file: &[u8], name: &str) -> Result<Option<StoreFault>, Fail> {
    let disks = disks_with(alloc, file, &[7])?;
    match refused_with(alloc, disks, name)? {
        Some(refused) => Ok(Some(fault_of(refused, file)?)),
        None => Ok(None),
    }
}

const SOURCE: &[u8] = b"int Tale = 2;";

/// A new host with the type `Tall`.
fn tall_host(alloc: Global) -> Result<BoxedHost, Fail> {
    new_host(alloc, one_type(alloc, "Tall")?)
}

/// The same with a module.
fn loaded(alloc: Global) -> Result<BoxedHost, Fail> {
    with_module(alloc, tall_host(alloc)?, SOURCE)
}

/// The files of such a store: with the module in the image, with it in a record after an empty image, which adds it or
/// has the whole state, and with it in an image, and a record that takes it away.
#[derive(Clone, Copy, Debug, PartialEq)]
enum Place {
    Image,
    Record,
    WholeRecord,
    ImageBeforeRecord,
}

/// The first disk of a host.
fn first_disk(alloc: Global, host: BoxedHost) -> Result<Box<MemoryDisk>, AllocError> {
    let Disks { first, second: _ } = closed_disks(alloc, host)?;
    Ok(first)
}

/// The second disk of a host that takes its module away after a snapshot.
fn snapshot_and_discard(alloc: Global, mut host: BoxedHost) -> Result<Box<MemoryDisk>, Fail> {
    let reply = snapshot(&mut host);
    let mut host = when_done(alloc, host, reply)?;
    let reply = discard(&mut host);
    let host = when_done(alloc, host, reply)?;
    let Disks { first: _, second } = closed_disks(alloc, host)?;
    Ok(second)
}

/// The second disk of a host after a snapshot.
fn after_a_snapshot(alloc: Global, host: BoxedHost) -> Result<Box<MemoryDisk>, Fail> {
    let second = second_generation(alloc, Box::into_inner(host))?;
    Ok(boxed_disk(alloc, second)?)
}

const EMPTY_IMAGE: StoreImage<'static> = StoreImage {
    version: 2,
    text: "type Tall 1\n",
    seq: 0,
    services: &[],
    modules: &[],
};

const MODULE: ImageModule<'static> = ImageModule {
    name: "m",
    source: SOURCE,
    global: Some(2),
};

/// The file with the module in a record that has the whole state.
fn whole_record(alloc: Global) -> Result<Vec<u8>, AllocError> {
    let mut file = generation(alloc, 1, &image_bytes(alloc, &EMPTY_IMAGE)?)?;
    let image = StoreImage {
        seq: 1,
        modules: &[MODULE],
        ..EMPTY_IMAGE
    };
    add_image(&mut file, &image_bytes(alloc, &image)?)?;
    Ok(file)
}

fn stored(alloc: Global, place: Place) -> Result<Box<MemoryDisk>, Fail> {
    let host = loaded(alloc)?;
    match place {
        Place::Image => after_a_snapshot(alloc, host),
        Place::Record => Ok(first_disk(alloc, host)?),
        Place::WholeRecord => Ok(boxed_disk(alloc, disk(alloc, &whole_record(alloc)?)?)?),
        Place::ImageBeforeRecord => snapshot_and_discard(alloc, host),
    }
}

/// What is done to the file.
#[derive(Clone, Copy, Debug, PartialEq)]
enum Damage {
    /// Cut short to so many bytes.
    Cut(usize),
    /// This byte is at a place.
    Byte(usize, u8),
    /// The same for two places.
    Two(usize, usize, u8),
    /// This word is in the place of the global's, which begins at a place, and the length that counts it is this at
    /// another place.
    Word(usize, &'static [u8], usize, u8),
}

fn set_byte(file: &mut Vec<u8>, place: usize, byte: u8) {
    if let Some(old) = file.get_mut(place) {
        *old = byte;
    }
}

/// The file with another word in the place of its global's, which is an `int` of 5 bytes.
fn with_word(alloc: Global, file: &[u8], at: usize, word: &[u8]) -> Result<Vec<u8>, AllocError> {
    let before = file.get(..at).unwrap_or_default();
    let after = file.get(at.saturating_add(5)..).unwrap_or_default();
    let mut changed = Vec::from_slice(alloc, before)?;
    changed.extend_from_slice(word)?;
    changed.extend_from_slice(after)?;
    Ok(changed)
}

fn damaged(alloc: Global, file: &[u8], damage: Damage) -> Result<Vec<u8>, AllocError> {
    let mut changed = Vec::from_slice(alloc, file)?;
    match damage {
        Damage::Cut(length) => changed.truncate(length),
        Damage::Byte(place, byte) => set_byte(&mut changed, place, byte),
        Damage::Two(first, second, byte) => {
            set_byte(&mut changed, first, byte);
            set_byte(&mut changed, second, byte);
        }
        Damage::Word(at, word, place, length) => {
            changed = with_word(alloc, file, at, word)?;
            set_byte(&mut changed, place, length);
        }
    }
    Ok(changed)
}

/// A file, what is done to it, the registered type, and why it is not opened.
type Row = (Place, Damage, &'static str, Option<StoreFault>);

const OBJECT_9: &[u8] = &[6, 9, 0, 0, 0, 0, 0, 0, 0];

const NULL: &[u8] = &[5];

const DAMAGED: Option<StoreFault> = Some(StoreFault::Open(OpenFault::Damaged(0)));

const OTHER: Option<StoreFault> = Some(StoreFault::OtherInterface);

// The image has 67 bytes from 21 on: 29 where it is empty, 12 of text, `type Tall 1` and a line feed, from 27 on, and
// the module with 1 + 1 + 4 + 13 + 2 + 5. The last `l` is at 35, the global's word begins at 79, and the next gate is
// at 88.
static ROWS_OF_AN_IMAGE: [Row; 13] = [
    (Place::Image, Damage::Cut(89), "Tall", None),
    (Place::Image, Damage::Cut(89), "Tale", OTHER),
    // Cut short, the file is damaged for every registry.
    (Place::Image, Damage::Cut(80), "Tall", DAMAGED),
    (Place::Image, Damage::Cut(80), "Tale", DAMAGED),
    // With the text `type Tale 1` its source declares what is registered, which that registry alone can find.
    (Place::Image, Damage::Byte(35, b'e'), "Tale", DAMAGED),
    (Place::Image, Damage::Byte(35, b'e'), "Tall", OTHER),
    // Object 9 is none of the image's, whatever is registered.
    (
        Place::Image,
        Damage::Word(79, OBJECT_9, 17, 71),
        "Tall",
        DAMAGED,
    ),
    (
        Place::Image,
        Damage::Word(79, OBJECT_9, 17, 71),
        "Tale",
        DAMAGED,
    ),
    // Null is a word of a store, and none of an `int`.
    (
        Place::Image,
        Damage::Word(79, NULL, 17, 63),
        "Tall",
        DAMAGED,
    ),
    (Place::Image, Damage::Word(79, NULL, 17, 63), "Tale", OTHER),
    // A text that isn't UTF-8.
    (Place::Image, Damage::Byte(35, 0xff), "Tall", DAMAGED),
    // A gate that a crash left is no damage, and is only written over where the store is opened.
    (Place::Image, Damage::Byte(88, 2), "Tall", None),
    (Place::Image, Damage::Byte(88, 2), "Tale", OTHER),
];

const RECORD_DAMAGED: Option<StoreFault> = Some(StoreFault::Open(OpenFault::Damaged(62)));

// The image is the empty one with that text, 41 bytes from 21 on, whose last `l` is at 35, and the gate before the
// record is at 62. Its body has 56 bytes: a tag, at 67, and what adds the module. The index of its global is at 108,
// the word begins at 110, and the next gate is at 123.
static ROWS_OF_A_RECORD: [Row; 17] = [
    (Place::Record, Damage::Cut(124), "Tall", None),
    (Place::Record, Damage::Cut(124), "Tale", OTHER),
    (Place::Record, Damage::Cut(80), "Tall", RECORD_DAMAGED),
    (Place::Record, Damage::Cut(80), "Tale", RECORD_DAMAGED),
    (Place::Record, Damage::Cut(62), "Tale", DAMAGED),
    // With the other text its source declares what is registered.
    (
        Place::Record,
        Damage::Byte(35, b'e'),
        "Tale",
        RECORD_DAMAGED,
    ),
    (Place::Record, Damage::Byte(35, b'e'), "Tall", OTHER),
    // Object 9 is none of the state's, whatever is registered.
    (
        Place::Record,
        Damage::Word(110, OBJECT_9, 63, 60),
        "Tall",
        RECORD_DAMAGED,
    ),
    (
        Place::Record,
        Damage::Word(110, OBJECT_9, 63, 60),
        "Tale",
        RECORD_DAMAGED,
    ),
    (
        Place::Record,
        Damage::Word(110, NULL, 63, 52),
        "Tall",
        RECORD_DAMAGED,
    ),
    (
        Place::Record,
        Damage::Word(110, NULL, 63, 52),
        "Tale",
        OTHER,
    ),
    // Other tags: of nothing, and of a whole state.
    (Place::Record, Damage::Byte(67, 9), "Tale", RECORD_DAMAGED),
    (Place::Record, Damage::Byte(67, 1), "Tale", RECORD_DAMAGED),
    // A module that is added has all of its globals, from the first on.
    (Place::Record, Damage::Byte(108, 1), "Tall", RECORD_DAMAGED),
    (Place::Record, Damage::Byte(108, 1), "Tale", RECORD_DAMAGED),
    // The next gate.
    (Place::Record, Damage::Byte(123, 2), "Tall", None),
    (Place::Record, Damage::Byte(123, 2), "Tale", OTHER),
];

// The same with the whole state in the record. Its body has 68 bytes: a tag and then the image with the module, from 68
// on. The last `l` of its text is at 82, and the next gate is at 135.
static ROWS_OF_A_WHOLE_RECORD: [Row; 11] = [
    (Place::WholeRecord, Damage::Cut(136), "Tall", None),
    (Place::WholeRecord, Damage::Cut(136), "Tale", OTHER),
    // A record has the text of its generation's image, whatever is registered.
    (
        Place::WholeRecord,
        Damage::Byte(82, b'e'),
        "Tall",
        RECORD_DAMAGED,
    ),
    (
        Place::WholeRecord,
        Damage::Byte(82, b'e'),
        "Tale",
        RECORD_DAMAGED,
    ),
    (
        Place::WholeRecord,
        Damage::Byte(35, b'e'),
        "Tall",
        RECORD_DAMAGED,
    ),
    (
        Place::WholeRecord,
        Damage::Byte(35, b'e'),
        "Tale",
        RECORD_DAMAGED,
    ),
    // With the other text in both its source declares what is registered.
    (
        Place::WholeRecord,
        Damage::Two(35, 82, b'e'),
        "Tale",
        RECORD_DAMAGED,
    ),
    (Place::WholeRecord, Damage::Two(35, 82, b'e'), "Tall", OTHER),
    // The tag of what a request changed, and a text that isn't UTF-8.
    (
        Place::WholeRecord,
        Damage::Byte(67, 2),
        "Tale",
        RECORD_DAMAGED,
    ),
    (
        Place::WholeRecord,
        Damage::Byte(82, 0xff),
        "Tall",
        RECORD_DAMAGED,
    ),
    // The next gate.
    (Place::WholeRecord, Damage::Byte(135, 2), "Tall", None),
];

const LATER_DAMAGED: Option<StoreFault> = Some(StoreFault::Open(OpenFault::Damaged(88)));

// The image with the module, whose word is at 79. The gate before the record is at 88, its length follows, its tag is
// at 93, and what says that a module is removed is at 112.
static ROWS_OF_BOTH: [Row; 10] = [
    (Place::ImageBeforeRecord, Damage::Cut(500), "Tall", None),
    // What the image holds need not be admitted, since the record leads away from it.
    (
        Place::ImageBeforeRecord,
        Damage::Word(79, NULL, 17, 63),
        "Tall",
        None,
    ),
    (
        Place::ImageBeforeRecord,
        Damage::Word(79, NULL, 17, 63),
        "Tale",
        OTHER,
    ),
    (
        Place::ImageBeforeRecord,
        Damage::Byte(35, b'e'),
        "Tale",
        None,
    ),
    (
        Place::ImageBeforeRecord,
        Damage::Byte(35, b'e'),
        "Tall",
        OTHER,
    ),
    // But it is to keep the rules of an image.
    (
        Place::ImageBeforeRecord,
        Damage::Word(79, OBJECT_9, 17, 71),
        "Tall",
        DAMAGED,
    ),
    // The shapes of the record and of the image come before the text.
    (
        Place::ImageBeforeRecord,
        Damage::Byte(93, 9),
        "Tale",
        LATER_DAMAGED,
    ),
    (
        Place::ImageBeforeRecord,
        Damage::Byte(112, 3),
        "Tale",
        LATER_DAMAGED,
    ),
    (
        Place::ImageBeforeRecord,
        Damage::Byte(112, 0),
        "Tall",
        LATER_DAMAGED,
    ),
    (
        Place::ImageBeforeRecord,
        Damage::Byte(21, 9),
        "Tale",
        DAMAGED,
    ),
];

/// Why such a file isn't opened with this type registered, if it isn't.
fn refusal_of(
    alloc: Global,
    place: Place,
    damage: Damage,
    name: &str,
) -> Result<Option<StoreFault>, Fail> {
    let first = stored(alloc, place)?;
    let file = damaged(alloc, first.bytes(), damage)?;
    refusal(alloc, &file, name)
}

/// Compares why a damaged file isn't opened.
fn check_row(rt: &impl Abort, alloc: Global, row: &Row) -> Result<(), Fail> {
    let (place, damage, name, _) = *row;
    let found = (place, damage, name, refusal_of(alloc, place, damage, name)?);
    check(rt, &found, row, "damage, and the registered type");
    Ok(())
}

fn check_rows(rt: &impl Abort, alloc: Global, rows: &[Row]) -> Result<(), Fail> {
    for row in rows {
        check_row(rt, alloc, row)?;
    }
    Ok(())
}

#[test]
fn damage_before_the_interface_and_after_it(rt: HostRuntime) -> Result<(), Fail> {
    check_rows(&rt, rt.alloc(), &ROWS_OF_AN_IMAGE)
}

#[test]
fn a_record_damaged_before_the_interface_and_after_it(rt: HostRuntime) -> Result<(), Fail> {
    check_rows(&rt, rt.alloc(), &ROWS_OF_A_RECORD)
}

#[test]
fn a_whole_record_damaged_before_the_interface_and_after_it(rt: HostRuntime) -> Result<(), Fail> {
    check_rows(&rt, rt.alloc(), &ROWS_OF_A_WHOLE_RECORD)
}

#[test]
fn an_image_damaged_before_a_record(rt: HostRuntime) -> Result<(), Fail> {
    check_rows(&rt, rt.alloc(), &ROWS_OF_BOTH)
}

const TWICE_DAMAGED: Option<StoreFault> = Some(StoreFault::Open(OpenFault::Damaged(84)));

/// The damage to a value in an image, and one to the shape of the record after it.
fn damaged_twice(alloc: Global) -> Result<Vec<u8>, Fail> {
    let second = stored(alloc, Place::ImageBeforeRecord)?;
    // The word of the image is 4 bytes shorter, and so the gate before the record is at 84, and its tag at 89.
    let file = damaged(alloc, second.bytes(), Damage::Word(79, NULL, 17, 63))?;
    Ok(damaged(alloc, &file, Damage::Byte(89, 9))?)
}

#[test]
fn shapes_come_first(rt: HostRuntime) -> Result<(), Fail> {
    let file = damaged_twice(rt.alloc())?;
    for name in ["Tall", "Tale"] {
        let found = refusal(rt.alloc(), &file, name)?;
        check(&rt, &found, &TWICE_DAMAGED, name);
    }
    Ok(())
}

/// A host with the type `Tall` that is opened over disks of which the first holds these bytes.
fn tall_host_over(alloc: Global, first: &[u8]) -> Result<BoxedHost, Fail> {
    let disks = disks_with(alloc, first, &[0])?;
    opened_host(alloc, disks, one_type(alloc, "Tall")?)
}

/// The first disk of a store that is opened and then takes its module away.
fn after_a_discard(alloc: Global, first: &[u8]) -> Result<Box<MemoryDisk>, Fail> {
    let mut host = tall_host_over(alloc, first)?;
    let reply = discard(&mut host);
    Ok(first_disk(alloc, when_done(alloc, host, reply)?)?)
}

/// Compares the text at a place of a disk with that of what is registered.
fn check_text_at(rt: &impl Abort, disk: &MemoryDisk, at: usize, what: &str) {
    let found = disk
        .bytes()
        .get(at..at.wrapping_add(12))
        .unwrap_or_default();
    check_bytes(rt, found, b"type Tall 1\n", what);
}

/// Compares the length of a file whose image has the text.
fn check_length(rt: &impl Abort, disk: &MemoryDisk, wanted: usize, what: &str) {
    check_text_at(rt, disk, 27, what);
    check(rt, &disk.bytes().len(), &wanted, what);
}

#[test]
fn the_text_in_the_image_alone(rt: HostRuntime) -> Result<(), Fail> {
    let first = stored(rt.alloc(), Place::Record)?;
    check_length(&rt, &first, 124, "after a load");
    // What is opened goes on without it.
    let first = after_a_discard(rt.alloc(), first.bytes())?;
    check_length(&rt, &first, 124 + 35, "after a discard");
    Ok(())
}
