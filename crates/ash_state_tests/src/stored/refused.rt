//! Bytes that are the image of nothing, each for one reason, and some that are nearly so.

use crate::stored::compare::{ReadAs, body_read_as, check_read_as, image_read_as};
use crate::stored::images::{
    DANGLING, EACH_WORD, MODULE_A, MODULE_B, NOTHING, ONE, ONE_MODULE, ONE_SERVICE, THREE_TAGS,
    TWO, TWO_TAGS, image, modules, with_byte, with_tag,
};
use std::alloc::{AllocError, Global};
use std::process::Abort;
use std::test::Fail;

/// What is done to bytes.
#[derive(Clone, Copy)]
enum Change {
    /// They stay as they are.
    Same,
    /// They are cut to so many.
    Cut(usize),
    /// Another byte is at a place.
    Byte(usize, u8),
    /// Others come after them.
    More(&'static [u8]),
}

/// Bytes with a change.
fn changed(alloc: Global, bytes: &[u8], change: Change) -> Result<Vec<u8>, AllocError> {
    let mut changed = Vec::from_slice(alloc, bytes)?;
    match change {
        Change::Same => {}
        Change::Cut(length) => changed.truncate(length),
        Change::Byte(place, byte) => changed = with_byte(alloc, bytes, place, byte)?,
        Change::More(more) => changed.extend_from_slice(more)?,
    }
    Ok(changed)
}

/// Compares what bytes are read as, and what a body is read as that has them after the tag 1.
fn check_both(
    rt: &impl Abort,
    alloc: Global,
    bytes: &[u8],
    wanted: ReadAs,
    what: &str,
) -> Result<(), Fail> {
    check_read_as(rt, image_read_as(alloc, bytes)?, wanted, what);
    let body = with_tag(alloc, 1, bytes)?;
    check_read_as(rt, body_read_as(alloc, &body)?, wanted, what);
    Ok(())
}

/// Bytes: what they are called, a version, what follows it, what is done to that, and what they are read as then.
type Row = (&'static str, &'static [u8], &'static [u8], Change, ReadAs);

fn check_row(rt: &impl Abort, alloc: Global, row: &Row) -> Result<(), Fail> {
    let (what, version, rest, change, wanted) = *row;
    let bytes = changed(alloc, &image(alloc, version, rest)?, change)?;
    check_both(rt, alloc, &bytes, wanted, what)
}

fn check_rows(rt: &impl Abort, alloc: Global, rows: &[Row]) -> Result<(), Fail> {
    for row in rows {
        check_row(rt, alloc, row)?;
    }
    Ok(())
}

const FRAMES: [Row; 14] = [
    ("no bytes", b"", b"", Change::Same, ReadAs::Nothing),
    (
        "the version 0",
        b"\x00\x00",
        NOTHING,
        Change::Same,
        ReadAs::Nothing,
    ),
    ("the version 1", ONE, NOTHING, Change::Same, ReadAs::Image),
    ("the version 2", TWO, NOTHING, Change::Same, ReadAs::Image),
    (
        "the version 3",
        b"\x03\x00",
        NOTHING,
        Change::Same,
        ReadAs::Nothing,
    ),
    (
        "the version 258",
        b"\x02\x01",
        NOTHING,
        Change::Same,
        ReadAs::Nothing,
    ),
    (
        "a byte less",
        TWO,
        EACH_WORD,
        Change::Cut(69),
        ReadAs::Nothing,
    ),
    (
        "a byte more",
        TWO,
        NOTHING,
        Change::More(&[0]),
        ReadAs::Nothing,
    ),
    (
        "an image more",
        TWO,
        NOTHING,
        Change::More(b"\x02\x00"),
        ReadAs::Nothing,
    ),
    (
        "a handle to no object",
        TWO,
        DANGLING,
        Change::Same,
        ReadAs::Nothing,
    ),
    // The truth value is neither 0 nor 1, and then its tag is no tag.
    (
        "the truth value 2",
        TWO,
        EACH_WORD,
        Change::Byte(36, 2),
        ReadAs::Nothing,
    ),
    (
        "the tag 7",
        TWO,
        EACH_WORD,
        Change::Byte(35, 7),
        ReadAs::Nothing,
    ),
    (
        "a byte that begins no character",
        TWO,
        ONE_SERVICE,
        Change::Byte(6, 0xff),
        ReadAs::Nothing,
    ),
    (
        "a name of a digit",
        TWO,
        ONE_MODULE,
        Change::Byte(26, b'1'),
        ReadAs::Nothing,
    ),
];

#[test]
fn frames_of_images(rt: HostRuntime) -> Result<(), Fail> {
    check_rows(&rt, rt.alloc(), &FRAMES)
}

const OBJECTS: [Row; 2] = [
    (
        "an array in version 1",
        ONE,
        THREE_TAGS,
        Change::Same,
        ReadAs::Nothing,
    ),
    (
        "no array in version 1",
        ONE,
        TWO_TAGS,
        Change::Same,
        ReadAs::Image,
    ),
];

/// The image `THREE_TAGS` with another byte at a place: what it is called, the place, the byte, and what it is read as.
type Altered = (&'static str, usize, u8, ReadAs);

// In `THREE_TAGS` the last number is at 39, the service at 47, the numbers in the first global and the third at 116
// and 134, and the objects at 142: the object 1 at 146, its tag at 154; the object 2 at 164, its tag at 172; the
// object 4 at 189, its tag at 197.
const ALTERED: [Altered; 16] = [
    ("the last number below one", 39, 3, ReadAs::Nothing),
    ("the last number of them", 39, 4, ReadAs::Image),
    ("one service fewer", 47, 0, ReadAs::Nothing),
    ("a handle to the object 3", 134, 3, ReadAs::Nothing),
    ("the object 4 that nothing holds", 134, 2, ReadAs::Nothing),
    ("the object 1 that an array holds", 116, 2, ReadAs::Image),
    ("one object fewer", 142, 2, ReadAs::Nothing),
    ("one object more", 142, 4, ReadAs::Nothing),
    ("the number 0", 146, 0, ReadAs::Nothing),
    ("one number twice", 146, 2, ReadAs::Nothing),
    ("the tag 0 of an object", 154, 0, ReadAs::Nothing),
    ("the tag 4 of an object", 197, 4, ReadAs::Nothing),
    ("a class of no module", 155, 1, ReadAs::Nothing),
    ("elements of no module", 174, 1, ReadAs::Nothing),
    ("elements of the tag 7", 173, 7, ReadAs::Nothing),
    ("another kind", 198, 9, ReadAs::Image),
];

fn check_altered(rt: &impl Abort, alloc: Global, row: Altered) -> Result<(), Fail> {
    let (what, place, byte, wanted) = row;
    let image = image(alloc, TWO, THREE_TAGS)?;
    let bytes = with_byte(alloc, &image, place, byte)?;
    check_both(rt, alloc, &bytes, wanted, what)
}

#[test]
fn objects_of_images(rt: HostRuntime) -> Result<(), Fail> {
    check_rows(&rt, rt.alloc(), &OBJECTS)?;
    for row in &ALTERED {
        check_altered(&rt, rt.alloc(), *row)?;
    }
    Ok(())
}

/// Two modules: what they are called, another byte in the place of the first one's name, and what their image is
/// read as.
type Named = (&'static str, u8, ReadAs);

// The first is `B`, and its name is at 26; the second is `a`.
const NAMED: [Named; 4] = [
    ("`B` before `a`", b'B', ReadAs::Image),
    ("`C` before `a`", b'C', ReadAs::Image),
    ("one name twice", b'a', ReadAs::Nothing),
    ("`b` before `a`", b'b', ReadAs::Nothing),
];

fn check_named(rt: &impl Abort, alloc: Global, row: Named) -> Result<(), Fail> {
    let (what, byte, wanted) = row;
    let image = modules(alloc, MODULE_B, MODULE_A)?;
    let bytes = with_byte(alloc, &image, 26, byte)?;
    check_both(rt, alloc, &bytes, wanted, what)
}

/// The second module before the first.
fn check_exchanged(rt: &impl Abort, alloc: Global) -> Result<(), Fail> {
    let exchanged = modules(alloc, MODULE_A, MODULE_B)?;
    check_both(rt, alloc, &exchanged, ReadAs::Nothing, "`a` before `B`")
}

#[test]
fn modules_out_of_order(rt: HostRuntime) -> Result<(), Fail> {
    for row in &NAMED {
        check_named(&rt, rt.alloc(), *row)?;
    }
    check_exchanged(&rt, rt.alloc())
}
