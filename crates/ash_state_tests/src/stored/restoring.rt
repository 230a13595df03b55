//! Images that are restored with what is registered, each byte of them changed to every other, and each cut: what is
//! left is refused, or is the image of the host that is restored. `reads_as` asks in the order in which a store does.

ghost use Rattle.ash_image.specs.Rules.{IsShaped};
ghost use Rattle.ash_image.specs.SnapshotViews.{snapshot_of};

use crate::stored::compare::{ReadAs, check_bytes, check_count, check_read_as};
use crate::stored::images::{
    DANGLING, EACH_WORD, FEW_SERVED, MORE_SERVED, NOTHING, OF_TWO_MODULES, ONE, ONE_MODULE,
    ONE_SERVICE, STORED, SWAPPED_SERVED, THREE_TAGS, TWO, TWO_SERVED, TWO_TAGS, image, with_byte,
};
use ash_image::image::read_image;
use ash_image::stored::StoredState;
use ash_registry::{Registry, RegistryFault};
use ash_states::state::HostState;
use std::alloc::{AllocError, Global};
use std::process::Abort;
use std::test::Fail;

/// What is registered.
#[derive(Clone, Copy)]
enum Registered {
    Nothing,
    /// The type `Counter`.
    Counter,
    /// That type, and a service.
    Both,
    /// A service of the kind 2.
    Service,
    /// That service, and after it one of the kind 1.
    Services,
}

fn registry_of(alloc: Global, registered: Registered) -> Result<Registry, RegistryFault> {
    let mut registry = Registry::new(alloc);
    match registered {
        Registered::Nothing => {}
        Registered::Counter => registry.object_type("Counter", 1)?,
        Registered::Both => {
            registry.object_type("Counter", 1)?;
            registry.service(2)?;
        }
        Registered::Service => {
            registry.service(2)?;
        }
        Registered::Services => {
            registry.service(2)?;
            registry.service(1)?;
        }
    }
    Ok(registry)
}

/// The host with this registry that is in the state that was stored: its text is that of the registry, and what it
/// holds is of the types that its sources say.
fn restored(
    alloc: Global,
    registry: Registry,
    stored: StoredState,
) -> Result<Option<HostState>, AllocError>
    requires shaped { IsShaped (snapshot_of stored) }
{
    if stored.registered.as_str() != registry.text() {
        return Ok(None);
    }
    HostState::restore(alloc, registry, stored)
}

/// The host with this registry that bytes are read as, if they are the image of one.
fn reads_as(
    alloc: Global,
    registry: Registry,
    bytes: &[u8],
) -> Result<Option<HostState>, AllocError> {
    match read_image(alloc, bytes)? {
        Some(stored) => restored(alloc, registry, stored.state),
        None => Ok(None),
    }
}

/// An image: what it is called, its version, what follows it, what is registered, and how many changes of one byte
/// leave the image of a host.
type Row = (
    &'static str,
    &'static [u8],
    &'static [u8],
    Registered,
    usize,
);

const ROWS: [Row; 6] = [
    // The version, and two numbers of eight bytes.
    ("nothing", TWO, NOTHING, Registered::Nothing, 1 + 16 * 255),
    (
        "nothing, in version 1",
        ONE,
        NOTHING,
        Registered::Nothing,
        1 + 16 * 255,
    ),
    // The same, one letter of a name for another or `_`, and so in the source, where the blank may be another; and the
    // bytes of a value.
    (
        "a module",
        TWO,
        ONE_MODULE,
        Registered::Nothing,
        1 + 16 * 255 + 52 + (52 + 3) + 4 * 255,
    ),
    (
        "a module, in version 1",
        ONE,
        ONE_MODULE,
        Registered::Nothing,
        1 + 16 * 255 + 52 + (52 + 3) + 4 * 255,
    ),
    // The version, two numbers of eight bytes, and the bytes of two states. A kind and a length have one value each.
    (
        "two services",
        TWO,
        TWO_SERVED,
        Registered::Services,
        1 + 16 * 255 + 8 * 255,
    ),
    // The numbers, of which the last is 2 at the least; the name; in the source three names of one letter, of which
    // two are taken by each other and by the class, nine blanks, of which two may be `;`, two a letter of the name
    // after them or `_`, and one an `@`, and the `@` of the first global, which may be a blank; the value of the
    // field, and of the elements.
    (
        "an object and an array",
        TWO,
        STORED,
        Registered::Counter,
        8 * 255
            + (253 + 7 * 255)
            + 52
            + (52 + 50 + 50 + 9 * 3 + 2 + 2 * 53 + 1 + 4)
            + 4 * 255
            + 8 * 255,
    ),
];

/// The bytes of an image in version 2.
fn in_version_two(alloc: Global, bytes: &[u8]) -> Result<Vec<u8>, AllocError> {
    with_byte(alloc, bytes, 0, 2)
}

/// The image of the host with this registered that bytes are read as, if they are the image of one.
fn image_again(
    alloc: Global,
    registered: Registered,
    bytes: &[u8],
) -> Result<Option<Vec<u8>>, Fail> {
    match reads_as(alloc, registry_of(alloc, registered)?, bytes)? {
        Some(state) => Ok(Some(state.image()?)),
        None => Ok(None),
    }
}

/// Whether bytes are read as the image of a host with this registered. Its image is these bytes, in version 2.
fn read_as_host(
    rt: &impl Abort,
    alloc: Global,
    registered: Registered,
    bytes: &[u8],
    what: &str,
) -> Result<ReadAs, Fail> {
    match image_again(alloc, registered, bytes)? {
        Some(again) => {
            let wanted = in_version_two(alloc, bytes)?;
            check_bytes(rt, &again, &wanted, what);
            Ok(ReadAs::Image)
        }
        None => Ok(ReadAs::Nothing),
    }
}

/// How many changes of the byte at a place leave the image of a host.
fn count_at(
    rt: &impl Abort,
    alloc: Global,
    row: &Row,
    image: &[u8],
    place: usize,
) -> Result<usize, Fail> {
    let old = image.get(place).copied().unwrap_or(0);
    let mut count = 0_usize;
    for byte in 0..=255 {
        let bytes = with_byte(alloc, image, place, byte)?;
        if byte != old && read_as_host(rt, alloc, row.3, &bytes, row.0)? == ReadAs::Image {
            count = count.wrapping_add(1);
        }
    }
    Ok(count)
}

fn check_changes(rt: &impl Abort, alloc: Global, row: &Row) -> Result<(), Fail> {
    let image = image(alloc, row.1, row.2)?;
    let unchanged = read_as_host(rt, alloc, row.3, &image, row.0)?;
    check_read_as(rt, unchanged, ReadAs::Image, row.0);
    let mut count = 0_usize;
    for place in 0..image.len() {
        count = count.wrapping_add(count_at(rt, alloc, row, &image, place)?);
    }
    check_count(rt, count, row.4, row.0);
    Ok(())
}

#[test]
fn each_byte_changed(rt: HostRuntime) -> Result<(), Fail> {
    for row in ROWS.iter().take(5) {
        check_changes(&rt, rt.alloc(), row)?;
    }
    Ok(())
}

#[test]
fn each_byte_changed_of_objects(rt: HostRuntime) -> Result<(), Fail> {
    for row in ROWS.iter().skip(5) {
        check_changes(&rt, rt.alloc(), row)?;
    }
    Ok(())
}

/// Cuts an image to each shorter length.
fn check_cuts(rt: &impl Abort, alloc: Global, row: &Row) -> Result<(), Fail> {
    let image = image(alloc, row.1, row.2)?;
    for length in 0..image.len() {
        let cut = image.get(..length).unwrap_or_default();
        let found = read_as_host(rt, alloc, row.3, cut, row.0)?;
        check_read_as(rt, found, ReadAs::Nothing, row.0);
    }
    Ok(())
}

#[test]
fn each_cut(rt: HostRuntime) -> Result<(), Fail> {
    for row in &ROWS {
        check_cuts(&rt, rt.alloc(), row)?;
    }
    Ok(())
}

/// Images that no host is restored from: what they are called, what follows the version, and what is registered.
type Refused = (&'static str, &'static [u8], Registered);

const REFUSED: [Refused; 12] = [
    // The text is another.
    (
        "a type where none is registered",
        STORED,
        Registered::Nothing,
    ),
    ("a type and no service", STORED, Registered::Both),
    (
        "nothing where a type is registered",
        NOTHING,
        Registered::Counter,
    ),
    (
        "a service where none is registered",
        ONE_SERVICE,
        Registered::Nothing,
    ),
    // A store of a program whose hosts had no services yet.
    (
        "no service where one is registered",
        ONE_SERVICE,
        Registered::Service,
    ),
    (
        "a service and no second one",
        FEW_SERVED,
        Registered::Services,
    ),
    (
        "a service of the kind of the other",
        SWAPPED_SERVED,
        Registered::Services,
    ),
    (
        "a service beyond those registered",
        MORE_SERVED,
        Registered::Service,
    ),
    // A host object, and a script that names its type.
    ("objects with two tags", TWO_TAGS, Registered::Counter),
    ("objects with three tags", THREE_TAGS, Registered::Both),
    // Globals that the source doesn't declare.
    ("each word", EACH_WORD, Registered::Nothing),
    ("a handle to no object", DANGLING, Registered::Nothing),
];

fn check_refused(rt: &impl Abort, alloc: Global, row: &Refused) -> Result<(), Fail> {
    let (what, rest, registered) = *row;
    let image = image(alloc, TWO, rest)?;
    let found = read_as_host(rt, alloc, registered, &image, what)?;
    check_read_as(rt, found, ReadAs::Nothing, what);
    Ok(())
}

#[test]
fn images_of_no_host(rt: HostRuntime) -> Result<(), Fail> {
    for row in &REFUSED {
        check_refused(&rt, rt.alloc(), row)?;
    }
    Ok(())
}

/// The image of objects of two modules with another byte at a place, which is the image of no host: what it is called.
type Exchanged = (&'static str, usize, u8);

// The object 1 begins at 179, the object 2 at 197, the object 3 at 213, and the object 4 at 226. After its number and
// its tag each has its module, where an array has what its elements are before that, and then its class.
const EXCHANGED: [Exchanged; 5] = [
    ("an object of the first class of the other module", 188, 0),
    ("elements of the first class of the other module", 207, 0),
    ("an object of a class that is not there", 222, 1),
    ("an object of the other class", 223, 0),
    ("elements of a class that is not there", 236, 1),
];

fn check_exchanged(rt: &impl Abort, alloc: Global, row: Exchanged) -> Result<(), Fail> {
    let (what, place, byte) = row;
    let image = image(alloc, TWO, OF_TWO_MODULES)?;
    let changed = with_byte(alloc, &image, place, byte)?;
    let found = read_as_host(rt, alloc, Registered::Nothing, &changed, what)?;
    check_read_as(rt, found, ReadAs::Nothing, what);
    Ok(())
}

/// The image of objects of two modules is that of a host.
fn check_unchanged(rt: &impl Abort, alloc: Global) -> Result<(), Fail> {
    let what = "objects of two modules";
    let image = image(alloc, TWO, OF_TWO_MODULES)?;
    check_count(rt, image.len(), 241, what);
    let found = read_as_host(rt, alloc, Registered::Nothing, &image, what)?;
    check_read_as(rt, found, ReadAs::Image, what);
    Ok(())
}

#[test]
fn objects_of_two_modules(rt: HostRuntime) -> Result<(), Fail> {
    check_unchanged(&rt, rt.alloc())?;
    for row in &EXCHANGED {
        check_exchanged(&rt, rt.alloc(), *row)?;
    }
    Ok(())
}
