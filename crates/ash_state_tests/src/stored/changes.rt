//! Each byte of an image changed to every other, and each cut, whatever is registered: what is left is refused, or is
//! the image of another state.

use crate::stored::compare::{ReadAs, check_bytes, check_count, check_read_as, image_read_as};
use crate::stored::encoding::encoded;
use crate::stored::images::{
    NOTHING, ONE, ONE_MODULE, THREE_TAGS, TWO, TWO_TAGS, image, with_byte,
};
use ash_image::image::read_image;
use std::alloc::Global;
use std::process::Abort;
use std::test::Fail;

/// An image: what it is called, its version, what follows it, and how many changes of one byte leave an image.
type Row = (&'static str, &'static [u8], &'static [u8], usize);

// A change of any byte of the numbers counts, of the one that is the version's one that is another version, and of
// what is not looked into here: sources, kinds and classes.
const ROWS: [Row; 6] = [
    // The version, and two numbers of eight bytes.
    ("nothing", TWO, NOTHING, 1 + 16 * 255),
    ("nothing, in version 1", ONE, NOTHING, 1 + 16 * 255),
    // The same, one letter of a name for another or `_`, six bytes of source, the four of a value, and a value of
    // another type.
    (
        "a module",
        TWO,
        ONE_MODULE,
        1 + 16 * 255 + 52 + 6 * 255 + 4 * 255 + 1,
    ),
    (
        "a module, in version 1",
        ONE,
        ONE_MODULE,
        1 + 16 * 255 + 52 + 6 * 255 + 4 * 255 + 1,
    ),
    // No other version has an array. One length of the text is 8 more, where the number of answers is text and all else
    // is read 8 bytes later. 25 characters of text; the number of answers; the last number of an object, which is 4 at
    // the least; kind and state of the service; name and source. The first global may be of two other types and a
    // handle to two other objects, since the array holds its object; so may the first element. The class of the object,
    // the type and the value of its field; the class of the elements; the kind and the state of the host object.
    (
        "objects with three tags",
        TWO,
        THREE_TAGS,
        1 + 25 * 127
            + 8 * 255
            + (251 + 7 * 255)
            + 6 * 255
            + 52
            + 49 * 255
            + (2 + 2)
            + (2 + 2)
            + (2 * 255 + 1 + 4 * 255)
            + 2 * 255
            + 6 * 255,
    ),
    // The version, a length of the text that is 8 less, where all else is read 8 bytes before, 15 characters of text,
    // the numbers, of which the last is 2 at the least, name and source, the class, the type and the value of a
    // field, and a kind.
    (
        "objects with two tags, in version 1",
        ONE,
        TWO_TAGS,
        1 + 1
            + 15 * 127
            + 8 * 255
            + (253 + 7 * 255)
            + 52
            + 36 * 255
            + (2 * 255 + 1 + 4 * 255)
            + 2 * 255,
    ),
];

/// Whether bytes are an image. What they are read as has these bytes as its image.
fn is_image(rt: &impl Abort, alloc: Global, bytes: &[u8], what: &str) -> Result<bool, Fail> {
    match read_image(alloc, bytes)? {
        Some(read) => {
            check_bytes(rt, &encoded(alloc, &read)?, bytes, what);
            Ok(true)
        }
        None => Ok(false),
    }
}

/// How many changes of the byte at a place leave an image.
fn count_at(
    rt: &impl Abort,
    alloc: Global,
    image: &[u8],
    place: usize,
    what: &str,
) -> Result<usize, Fail> {
    let old = image.get(place).copied().unwrap_or(0);
    let mut count = 0_usize;
    for byte in 0..=255 {
        let bytes = with_byte(alloc, image, place, byte)?;
        if byte != old && is_image(rt, alloc, &bytes, what)? {
            count = count.wrapping_add(1);
        }
    }
    Ok(count)
}

fn check_changes(rt: &impl Abort, alloc: Global, row: &Row) -> Result<(), Fail> {
    let (what, version, rest, wanted) = *row;
    let image = image(alloc, version, rest)?;
    let mut count = 0_usize;
    for place in 0..image.len() {
        count = count.wrapping_add(count_at(rt, alloc, &image, place, what)?);
    }
    check_count(rt, count, wanted, what);
    Ok(())
}

#[test]
fn each_byte_changed(rt: HostRuntime) -> Result<(), Fail> {
    for row in &ROWS {
        check_changes(&rt, rt.alloc(), row)?;
    }
    Ok(())
}

/// Cuts an image to each shorter length.
fn check_cuts(rt: &impl Abort, alloc: Global, row: &Row) -> Result<(), Fail> {
    let (what, version, rest, _) = *row;
    let image = image(alloc, version, rest)?;
    for length in 0..image.len() {
        let cut = image.get(..length).unwrap_or_default();
        check_read_as(rt, image_read_as(alloc, cut)?, ReadAs::Nothing, what);
    }
    Ok(())
}

#[test]
fn each_cut(rt: HostRuntime) -> Result<(), Fail> {
    for row in &ROWS {
        check_cuts(&rt, rt.alloc(), row)?;
    }
    Ok(())
}
