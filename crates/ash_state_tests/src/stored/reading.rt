//! What images depict, and what the bodies of records lead to.

use crate::stored::compare::{ReadAs, body_read_as, check_bytes, check_text};
use crate::stored::encoding::encoded;
use crate::stored::images::{
    EACH_WORD, LOADED, MODULE_A, MODULE_B, NOTHING, ONE, ONE_MODULE, ONE_SERVICE, THREE_TAGS, TWO,
    TWO_TAGS, image, modules, with_tag,
};
use ash_image::image::{read_body, read_image};
use ash_image::stored::StoredImage;
use std::alloc::{AllocError, Global};
use std::process::Abort;
use std::test::Fail;

/// What was read, written out: the version, and what follows its name.
fn shown(alloc: Global, found: &Option<StoredImage>) -> Result<String, AllocError> {
    match found {
        Some(image) => format!(in alloc; "{:?} {:?}", image.version, image.state),
        None => String::from_str(alloc, "none"),
    }
}

/// What was read, as bytes.
fn bytes_of(alloc: Global, found: &Option<StoredImage>) -> Result<Vec<u8>, AllocError> {
    match found {
        Some(image) => encoded(alloc, image),
        None => Ok(Vec::new(alloc)),
    }
}

/// What is made of bytes that are read as an image.
#[derive(Drop)]
struct Reading {
    /// What was read, written out.
    text: String,
    /// What was read, as bytes.
    bytes: Vec<u8>,
}

fn reading_of(alloc: Global, image: &[u8]) -> Result<Reading, AllocError> {
    let found = read_image(alloc, image)?;
    Ok(Reading {
        text: shown(alloc, &found)?,
        bytes: bytes_of(alloc, &found)?,
    })
}

/// What is read of the body of a record, written out.
fn body_shown(alloc: Global, body: &[u8]) -> Result<String, AllocError> {
    shown(alloc, &read_body(alloc, body)?)
}

/// Compares what an image depicts, that the body which has it after the tag 1 leads to it, and that it is the image of
/// what is read.
fn check_read(
    rt: &impl Abort,
    alloc: Global,
    image: &[u8],
    wanted: &str,
    what: &str,
) -> Result<(), Fail> {
    let found = reading_of(alloc, image)?;
    check_text(rt, found.text.as_str(), wanted, what);
    check_bytes(rt, found.bytes.as_slice(), image, what);
    let body = with_tag(alloc, 1, image)?;
    let text = body_shown(alloc, &body)?;
    check_text(rt, text.as_str(), wanted, what);
    Ok(())
}

/// Compares that bytes are no image.
fn check_no_image(rt: &impl Abort, alloc: Global, bytes: &[u8], what: &str) -> Result<(), Fail> {
    let found = shown(alloc, &read_image(alloc, bytes)?)?;
    check_text(rt, found.as_str(), "none", what);
    Ok(())
}

/// An image: what it is called, its version, what follows it, and what it depicts.
type Row = (&'static str, &'static [u8], &'static [u8], &'static str);

const ROWS: [Row; 11] = [
    (
        "nothing",
        TWO,
        NOTHING,
        "Two StoredState { registered: \"\", seq: 0, last: 0, services: [], modules: [], objects: [] }",
    ),
    (
        "nothing, in version 1",
        ONE,
        NOTHING,
        "One StoredState { registered: \"\", seq: 0, last: 0, services: [], modules: [], objects: [] }",
    ),
    (
        "a registration",
        TWO,
        ONE_SERVICE,
        "Two StoredState { registered: \"service 2\\n\", seq: 0, last: 0, services: [], modules: [], \
            objects: [] }",
    ),
    (
        "a module",
        TWO,
        ONE_MODULE,
        "Two StoredState { registered: \"\", seq: 3, last: 0, services: [], modules: [\
            StoredModule { name: \"m\", source: [105, 110, 116, 32, 110, 59], globals: [Int(-2)] }], objects: [] }",
    ),
    (
        "a module, in version 1",
        ONE,
        ONE_MODULE,
        "One StoredState { registered: \"\", seq: 3, last: 0, services: [], modules: [\
            StoredModule { name: \"m\", source: [105, 110, 116, 32, 110, 59], globals: [Int(-2)] }], objects: [] }",
    ),
    (
        "each word",
        TWO,
        EACH_WORD,
        "Two StoredState { registered: \"\", seq: 258, last: 0, services: [], modules: [\
            StoredModule { name: \"_a9\", source: [], globals: [Bool(true), Int(-2147483648), Uint(4294967295), \
            Int64(9223372036854775807), Uint64(9223372036854775808), Null] }], objects: [] }",
    ),
    (
        "each word, in version 1",
        ONE,
        EACH_WORD,
        "One StoredState { registered: \"\", seq: 258, last: 0, services: [], modules: [\
            StoredModule { name: \"_a9\", source: [], globals: [Bool(true), Int(-2147483648), Uint(4294967295), \
            Int64(9223372036854775807), Uint64(9223372036854775808), Null] }], objects: [] }",
    ),
    (
        "a first load",
        TWO,
        LOADED,
        "Two StoredState { registered: \"\", seq: 1, last: 0, services: [], modules: [\
            StoredModule { name: \"m\", source: [], globals: [] }], objects: [] }",
    ),
    (
        "objects with three tags",
        TWO,
        THREE_TAGS,
        "Two StoredState { registered: \"type Counter 1\\nservice 2\\n\", seq: 2, last: 5, services: [\
            StoredHost { kind: 2, state: [9, 0, 0, 0] }], modules: [StoredModule { name: \"m\", source: [\
            99, 108, 97, 115, 115, 32, 65, 32, 123, 32, 105, 110, 116, 32, 118, 59, 32, 125, 32, 65, 64, 32, 97, 59, \
            32, 97, 114, 114, 97, 121, 60, 65, 64, 62, 32, 108, 59, 32, 67, 111, 117, 110, 116, 101, 114, 64, 32, 99, \
            59], globals: [Object(1), Object(2), Object(4)] }], objects: [\
            StoredObject { number: 1, body: Script(StoredScript { owner: 0, class: 0, fields: [Int(7)] }) }, \
            StoredObject { number: 2, body: Array(StoredArray { element: Class(0, 0), \
            elements: [Object(1), Null] }) }, \
            StoredObject { number: 4, body: Host(StoredHost { kind: 1, state: [7, 0, 0, 0] }) }] }",
    ),
    (
        "objects with two tags",
        TWO,
        TWO_TAGS,
        "Two StoredState { registered: \"type Counter 1\\n\", seq: 2, last: 2, services: [], modules: [\
            StoredModule { name: \"m\", source: [\
            99, 108, 97, 115, 115, 32, 65, 32, 123, 32, 105, 110, 116, 32, 118, 59, 32, 125, 32, 65, 64, 32, 97, 59, \
            32, 67, 111, 117, 110, 116, 101, 114, 64, 32, 99, 59], globals: [Object(1), Object(2)] }], objects: [\
            StoredObject { number: 1, body: Script(StoredScript { owner: 0, class: 0, fields: [Int(7)] }) }, \
            StoredObject { number: 2, body: Host(StoredHost { kind: 1, state: [] }) }] }",
    ),
    (
        "objects with two tags, in version 1",
        ONE,
        TWO_TAGS,
        "One StoredState { registered: \"type Counter 1\\n\", seq: 2, last: 2, services: [], modules: [\
            StoredModule { name: \"m\", source: [\
            99, 108, 97, 115, 115, 32, 65, 32, 123, 32, 105, 110, 116, 32, 118, 59, 32, 125, 32, 65, 64, 32, 97, 59, \
            32, 67, 111, 117, 110, 116, 101, 114, 64, 32, 99, 59], globals: [Object(1), Object(2)] }], objects: [\
            StoredObject { number: 1, body: Script(StoredScript { owner: 0, class: 0, fields: [Int(7)] }) }, \
            StoredObject { number: 2, body: Host(StoredHost { kind: 1, state: [] }) }] }",
    ),
];

fn check_row(rt: &impl Abort, alloc: Global, row: &Row) -> Result<(), Fail> {
    let (what, version, rest, wanted) = *row;
    let image = image(alloc, version, rest)?;
    check_read(rt, alloc, &image, wanted, what)
}

#[test]
fn what_images_depict(rt: HostRuntime) -> Result<(), Fail> {
    for row in &ROWS {
        check_row(&rt, rt.alloc(), row)?;
    }
    Ok(())
}

const TWO_MODULES: &str =
    "Two StoredState { registered: \"\", seq: 4, last: 0, services: [], modules: [\
        StoredModule { name: \"B\", source: [105, 110, 116, 32, 121, 32, 61, 32, 55, 59], globals: [Int(7)] }, \
        StoredModule { name: \"a\", source: [105, 110, 116, 32, 120, 32, 61, 32, 45, 49, 59, 32, 105, 110, 116, \
        32, 122, 32, 61, 32, 50, 53, 54, 59], globals: [Int(-1), Int(256)] }], objects: [] }";

/// Compares what two modules in the order of their names depict.
fn check_modules(rt: &impl Abort, alloc: Global) -> Result<(), Fail> {
    let image = modules(alloc, MODULE_B, MODULE_A)?;
    check_read(rt, alloc, &image, TWO_MODULES, "two modules")
}

#[test]
fn two_modules_by_name(rt: HostRuntime) -> Result<(), Fail> {
    check_modules(&rt, rt.alloc())?;
    let exchanged = modules(rt.alloc(), MODULE_A, MODULE_B)?;
    check_no_image(&rt, rt.alloc(), &exchanged, "`a` before `B`")
}

/// Compares what bytes are read as with what is wanted: what they are called, and their number.
fn check_numbered(rt: &impl Abort, found: ReadAs, wanted: ReadAs, what: (&str, usize)) {
    let (name, number) = what;
    if found != wanted {
        panic!(rt; "{name} {number}: found {found:?}, wanted {wanted:?}");
    }
}

/// Compares what bytes lead to as the body of a record.
fn check_body(
    rt: &impl Abort,
    alloc: Global,
    bytes: &[u8],
    wanted: ReadAs,
    what: (&str, usize),
) -> Result<(), Fail> {
    check_numbered(rt, body_read_as(alloc, bytes)?, wanted, what);
    Ok(())
}

/// Compares what an image after a tag leads to, which is an image after the tag 1 alone.
fn check_tag(rt: &impl Abort, alloc: Global, tag: u8, image: &[u8]) -> Result<(), Fail> {
    let body = with_tag(alloc, tag, image)?;
    let wanted = match tag {
        1 => ReadAs::Image,
        _ => ReadAs::Nothing,
    };
    check_body(rt, alloc, &body, wanted, ("the tag", usize::from(tag)))
}

#[test]
fn bodies_with_another_tag(rt: HostRuntime) -> Result<(), Fail> {
    let image = image(rt.alloc(), TWO, ONE_MODULE)?;
    for tag in 0..=255 {
        check_tag(&rt, rt.alloc(), tag, &image)?;
    }
    Ok(())
}

/// Compares what the first bytes lead to, of which 38 are the body of a record.
fn check_length(rt: &impl Abort, alloc: Global, length: usize, bytes: &[u8]) -> Result<(), Fail> {
    let bytes = bytes.get(..length).unwrap_or_default();
    let wanted = match length {
        38 => ReadAs::Image,
        _ => ReadAs::Nothing,
    };
    check_body(rt, alloc, bytes, wanted, ("a body of bytes", length))
}

/// Cuts bytes of which 38 are the body of a record. Those are no image, though their tag is the number of a version.
fn check_longer(rt: &impl Abort, alloc: Global, longer: &[u8]) -> Result<(), Fail> {
    for length in 0..=longer.len() {
        check_length(rt, alloc, length, longer)?;
    }
    let body = longer.get(..38).unwrap_or_default();
    check_no_image(rt, alloc, body, "a body as an image")
}

/// An image is no body without its tag, and none where a byte comes after it.
fn check_cut_and_longer(rt: &impl Abort, alloc: Global, image: &[u8]) -> Result<(), Fail> {
    let what = ("an image alone, of bytes", image.len());
    check_body(rt, alloc, image, ReadAs::Nothing, what)?;
    let mut longer = with_tag(alloc, 1, image)?;
    longer.push(0)?;
    check_longer(rt, alloc, &longer)
}

#[test]
fn bodies_that_are_cut_and_longer(rt: HostRuntime) -> Result<(), Fail> {
    let image = image(rt.alloc(), TWO, LOADED)?;
    check_cut_and_longer(&rt, rt.alloc(), &image)
}
