//! Images by hand, with a part on each line. What follows the version is the same in both versions.

use std::alloc::{AllocError, Global};

/// The version that is written.
pub(crate) const TWO: &[u8] = b"\x02\x00";

/// The version without arrays.
pub(crate) const ONE: &[u8] = b"\x01\x00";

/// A host that has no module, nothing registered, and has answered no request: the length of the text, how many requests
/// were answered, and the last number of an object; no services, no modules, no objects.
pub(crate) const NOTHING: &[u8] = b"\
    \x00\x00\x00\x00\
    \x00\x00\x00\x00\x00\x00\x00\x00\
    \x00\x00\x00\x00\x00\x00\x00\x00\
    \x00\x00\
    \x00\
    \x00\x00\x00\x00";

/// The same with a service of the kind 2 registered, but none in the image, as hosts without services wrote it.
pub(crate) const ONE_SERVICE: &[u8] = b"\
    \x0a\x00\x00\x00service 2\n\
    \x00\x00\x00\x00\x00\x00\x00\x00\
    \x00\x00\x00\x00\x00\x00\x00\x00\
    \x00\x00\
    \x00\
    \x00\x00\x00\x00";

/// Such a host with a service of the kind 2, whose state is the `int` 5.
pub(crate) const ONE_SERVED: &[u8] = b"\
    \x0a\x00\x00\x00service 2\n\
    \x00\x00\x00\x00\x00\x00\x00\x00\
    \x00\x00\x00\x00\x00\x00\x00\x00\
    \x01\x00\
    \x02\x00\x04\x00\x05\x00\x00\x00\
    \x00\
    \x00\x00\x00\x00";

/// Such a host with a service of the kind 2 and one of the kind 1, whose states are the `int` 5 and the `int` -1.
pub(crate) const TWO_SERVED: &[u8] = b"\
    \x14\x00\x00\x00service 2\nservice 1\n\
    \x00\x00\x00\x00\x00\x00\x00\x00\
    \x00\x00\x00\x00\x00\x00\x00\x00\
    \x02\x00\
    \x02\x00\x04\x00\x05\x00\x00\x00\
    \x01\x00\x04\x00\xff\xff\xff\xff\
    \x00\
    \x00\x00\x00\x00";

/// The same with the first service alone.
pub(crate) const FEW_SERVED: &[u8] = b"\
    \x14\x00\x00\x00service 2\nservice 1\n\
    \x00\x00\x00\x00\x00\x00\x00\x00\
    \x00\x00\x00\x00\x00\x00\x00\x00\
    \x01\x00\
    \x02\x00\x04\x00\x05\x00\x00\x00\
    \x00\
    \x00\x00\x00\x00";

/// The same with the services in the other order.
pub(crate) const SWAPPED_SERVED: &[u8] = b"\
    \x14\x00\x00\x00service 2\nservice 1\n\
    \x00\x00\x00\x00\x00\x00\x00\x00\
    \x00\x00\x00\x00\x00\x00\x00\x00\
    \x02\x00\
    \x01\x00\x04\x00\xff\xff\xff\xff\
    \x02\x00\x04\x00\x05\x00\x00\x00\
    \x00\
    \x00\x00\x00\x00";

/// Both services where the first alone is registered.
pub(crate) const MORE_SERVED: &[u8] = b"\
    \x0a\x00\x00\x00service 2\n\
    \x00\x00\x00\x00\x00\x00\x00\x00\
    \x00\x00\x00\x00\x00\x00\x00\x00\
    \x02\x00\
    \x02\x00\x04\x00\x05\x00\x00\x00\
    \x01\x00\x04\x00\xff\xff\xff\xff\
    \x00\
    \x00\x00\x00\x00";

/// The module `m` with a global that holds -2, after three requests. After how many modules there are come its name, its
/// source, and its globals.
pub(crate) const ONE_MODULE: &[u8] = b"\
    \x00\x00\x00\x00\
    \x03\x00\x00\x00\x00\x00\x00\x00\
    \x00\x00\x00\x00\x00\x00\x00\x00\
    \x00\x00\
    \x01\
    \x01m\
    \x06\x00\x00\x00int n;\
    \x01\x00\
    \x01\xfe\xff\xff\xff\
    \x00\x00\x00\x00";

/// The same after a load of `k`, its discard, and the load of `m`.
pub(crate) const AFTER_THREE: &[u8] = b"\
    \x00\x00\x00\x00\
    \x03\x00\x00\x00\x00\x00\x00\x00\
    \x00\x00\x00\x00\x00\x00\x00\x00\
    \x00\x00\
    \x01\
    \x01m\
    \x0b\x00\x00\x00int n = -2;\
    \x01\x00\
    \x01\xfe\xff\xff\xff\
    \x00\x00\x00\x00";

/// The module `B`, whose global holds 7, and the module `a`, whose globals hold -1 and 256, after four requests. What
/// comes before the modules, each of them, and what comes after them.
pub(crate) const BEFORE_MODULES: &[u8] = b"\
    \x00\x00\x00\x00\
    \x04\x00\x00\x00\x00\x00\x00\x00\
    \x00\x00\x00\x00\x00\x00\x00\x00\
    \x00\x00\
    \x02";

pub(crate) const MODULE_B: &[u8] = b"\
    \x01B\
    \x0a\x00\x00\x00int y = 7;\
    \x01\x00\
    \x01\x07\x00\x00\x00";

pub(crate) const MODULE_A: &[u8] = b"\
    \x01a\
    \x18\x00\x00\x00int x = -1; int z = 256;\
    \x02\x00\
    \x01\xff\xff\xff\xff\
    \x01\x00\x01\x00\x00";

pub(crate) const NO_OBJECTS: &[u8] = b"\x00\x00\x00\x00";

/// The module `_a9` with no source, whose globals hold one word of each type but a handle to an object, after 258
/// requests.
pub(crate) const EACH_WORD: &[u8] = b"\
    \x00\x00\x00\x00\
    \x02\x01\x00\x00\x00\x00\x00\x00\
    \x00\x00\x00\x00\x00\x00\x00\x00\
    \x00\x00\
    \x01\
    \x03_a9\
    \x00\x00\x00\x00\
    \x06\x00\
    \x00\x01\
    \x01\x00\x00\x00\x80\
    \x02\xff\xff\xff\xff\
    \x03\xff\xff\xff\xff\xff\xff\xff\x7f\
    \x04\x00\x00\x00\x00\x00\x00\x00\x80\
    \x05\
    \x00\x00\x00\x00";

/// A module with a handle to the object 9, of which there is none.
pub(crate) const DANGLING: &[u8] = b"\
    \x00\x00\x00\x00\
    \x01\x00\x00\x00\x00\x00\x00\x00\
    \x09\x00\x00\x00\x00\x00\x00\x00\
    \x00\x00\
    \x01\
    \x01m\
    \x00\x00\x00\x00\
    \x01\x00\
    \x06\x09\x00\x00\x00\x00\x00\x00\x00\
    \x00\x00\x00\x00";

/// The module `m` with no source and no globals, after one request.
pub(crate) const LOADED: &[u8] = b"\
    \x00\x00\x00\x00\
    \x01\x00\x00\x00\x00\x00\x00\x00\
    \x00\x00\x00\x00\x00\x00\x00\x00\
    \x00\x00\
    \x01\
    \x01m\
    \x00\x00\x00\x00\
    \x00\x00\
    \x00\x00\x00\x00";

/// An object of a class, an array of handles to such, and a host object, after two requests, beside the state of a
/// service. The objects have the numbers 1, 2 and 4, of 5 that were given.
///
/// After how many services there are come its kind and its state. The last ten lines are the objects: the object 1, its
/// tag, its module and its class, and its field, which holds 7; the object 2, its tag, what its elements are and how many
/// there are, and each, the object 1 and null; the object 4, its tag and its kind, and its state.
pub(crate) const THREE_TAGS: &[u8] = b"\
    \x19\x00\x00\x00type Counter 1\nservice 2\n\
    \x02\x00\x00\x00\x00\x00\x00\x00\
    \x05\x00\x00\x00\x00\x00\x00\x00\
    \x01\x00\
    \x02\x00\x04\x00\x09\x00\x00\x00\
    \x01\
    \x01m\
    \x31\x00\x00\x00class A { int v; } A@ a; array<A@> l; Counter@ c;\
    \x03\x00\
    \x06\x01\x00\x00\x00\x00\x00\x00\x00\
    \x06\x02\x00\x00\x00\x00\x00\x00\x00\
    \x06\x04\x00\x00\x00\x00\x00\x00\x00\
    \x03\x00\x00\x00\
    \x01\x00\x00\x00\x00\x00\x00\x00\
    \x01\x00\x00\x00\x01\
    \x01\x07\x00\x00\x00\
    \x02\x00\x00\x00\x00\x00\x00\x00\
    \x03\x05\x00\x00\x00\x02\x00\
    \x06\x01\x00\x00\x00\x00\x00\x00\x00\
    \x05\
    \x04\x00\x00\x00\x00\x00\x00\x00\
    \x02\x01\x00\
    \x04\x00\x07\x00\x00\x00";

/// An object of a class and a host object, as version 1 has them.
pub(crate) const TWO_TAGS: &[u8] = b"\
    \x0f\x00\x00\x00type Counter 1\n\
    \x02\x00\x00\x00\x00\x00\x00\x00\
    \x02\x00\x00\x00\x00\x00\x00\x00\
    \x00\x00\
    \x01\
    \x01m\
    \x24\x00\x00\x00class A { int v; } A@ a; Counter@ c;\
    \x02\x00\
    \x06\x01\x00\x00\x00\x00\x00\x00\x00\
    \x06\x02\x00\x00\x00\x00\x00\x00\x00\
    \x02\x00\x00\x00\
    \x01\x00\x00\x00\x00\x00\x00\x00\
    \x01\x00\x00\x00\x01\
    \x01\x07\x00\x00\x00\
    \x02\x00\x00\x00\x00\x00\x00\x00\
    \x02\x01\x00\
    \x00\x00";

/// An object of a class and an array of numbers, after the load of the module `m`.
pub(crate) const CONSTRUCTED: &[u8] = b"\
    \x00\x00\x00\x00\
    \x01\x00\x00\x00\x00\x00\x00\x00\
    \x02\x00\x00\x00\x00\x00\x00\x00\
    \x00\x00\
    \x01\
    \x01m\
    \x33\x00\x00\x00class A { int v = 7; } A@ a = A(); array<int> l(2);\
    \x02\x00\
    \x06\x01\x00\x00\x00\x00\x00\x00\x00\
    \x06\x02\x00\x00\x00\x00\x00\x00\x00\
    \x02\x00\x00\x00\
    \x01\x00\x00\x00\x00\x00\x00\x00\
    \x01\x00\x00\x00\x01\
    \x01\x07\x00\x00\x00\
    \x02\x00\x00\x00\x00\x00\x00\x00\
    \x03\x01\x02\x00\
    \x01\x00\x00\x00\x00\
    \x01\x00\x00\x00\x00";

/// An object of a class and an array of numbers, with a type registered that the script doesn't use.
pub(crate) const STORED: &[u8] = b"\
    \x0f\x00\x00\x00type Counter 1\n\
    \x01\x00\x00\x00\x00\x00\x00\x00\
    \x02\x00\x00\x00\x00\x00\x00\x00\
    \x00\x00\
    \x01\
    \x01m\
    \x26\x00\x00\x00class A { int v; } A@ a; array<int> l;\
    \x02\x00\
    \x06\x01\x00\x00\x00\x00\x00\x00\x00\
    \x06\x02\x00\x00\x00\x00\x00\x00\x00\
    \x02\x00\x00\x00\
    \x01\x00\x00\x00\x00\x00\x00\x00\
    \x01\x00\x00\x00\x01\
    \x01\x07\x00\x00\x00\
    \x02\x00\x00\x00\x00\x00\x00\x00\
    \x03\x01\x02\x00\
    \x01\x07\x00\x00\x00\
    \x01\xff\xff\xff\xff";

/// The module `B` and the module `a`, which was loaded before it and has the objects of lower numbers, after two
/// requests. Each has an object of a class, and an array of handles to such. Those of `a` are of the second module,
/// those of `B` of the second class of the first.
///
/// The last ten lines are the objects: the object 1, its tag, its module and its class, and its field; the object 2, its
/// tag and what its elements are, and the one that it has; the object 3, which has no field; the object 4, which has no
/// element.
pub(crate) const OF_TWO_MODULES: &[u8] = b"\
    \x00\x00\x00\x00\
    \x02\x00\x00\x00\x00\x00\x00\x00\
    \x04\x00\x00\x00\x00\x00\x00\x00\
    \x00\x00\
    \x02\
    \x01B\
    \x30\x00\x00\x00class C { } class D { } D@ d = D(); array<D@> l;\
    \x02\x00\
    \x06\x03\x00\x00\x00\x00\x00\x00\x00\
    \x06\x04\x00\x00\x00\x00\x00\x00\x00\
    \x01a\
    \x32\x00\x00\x00class A { int v = 7; } A@ a = A(); array<A@> l(1);\
    \x02\x00\
    \x06\x01\x00\x00\x00\x00\x00\x00\x00\
    \x06\x02\x00\x00\x00\x00\x00\x00\x00\
    \x04\x00\x00\x00\
    \x01\x00\x00\x00\x00\x00\x00\x00\
    \x01\x01\x00\x00\x01\
    \x01\x07\x00\x00\x00\
    \x02\x00\x00\x00\x00\x00\x00\x00\
    \x03\x05\x01\x00\x00\x01\x00\
    \x05\
    \x03\x00\x00\x00\x00\x00\x00\x00\
    \x01\x00\x01\x00\x00\
    \x04\x00\x00\x00\x00\x00\x00\x00\
    \x03\x05\x00\x01\x00\x00\x00";

/// An image in a version.
pub(crate) fn image(alloc: Global, version: &[u8], rest: &[u8]) -> Result<Vec<u8>, AllocError> {
    let mut image = Vec::from_slice(alloc, version)?;
    image.extend_from_slice(rest)?;
    Ok(image)
}

/// The image of two modules in this order.
pub(crate) fn modules(alloc: Global, first: &[u8], second: &[u8]) -> Result<Vec<u8>, AllocError> {
    let mut image = image(alloc, TWO, BEFORE_MODULES)?;
    image.extend_from_slice(first)?;
    image.extend_from_slice(second)?;
    image.extend_from_slice(NO_OBJECTS)?;
    Ok(image)
}

/// Bytes after a tag, as the body of a record has an image.
pub(crate) fn with_tag(alloc: Global, tag: u8, bytes: &[u8]) -> Result<Vec<u8>, AllocError> {
    let mut body = Vec::from_slice(alloc, &[tag])?;
    body.extend_from_slice(bytes)?;
    Ok(body)
}

/// Bytes with another byte at a place.
pub(crate) fn with_byte(
    alloc: Global,
    bytes: &[u8],
    place: usize,
    byte: u8,
) -> Result<Vec<u8>, AllocError> {
    let mut changed = Vec::from_slice(alloc, bytes)?;
    if let Some(old) = changed.get_mut(place) {
        *old = byte;
    }
    Ok(changed)
}
