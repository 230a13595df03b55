//! Stores with about as many bytes of records as make a host install a new generation, written by hand.

use crate::files::{ImageModule, add_image, generation, image};
use crate::hosts::SOURCE;
use ash_lex::MAX_SOURCE_BYTES;
use std::alloc::{AllocError, Global};

/// How long the shortest source of the last of 16 records is, of whose modules the others have as long sources as there
/// are, so that the 17 records of `full_file` have 16,777,216 bytes.
///
/// An image with 16 modules whose names have one byte, and which have no globals, has 29 + 16 * 8 bytes beside their
/// sources. A record has 6 around an image. So each of 15 records has 6 + 157 + 16 * 65,536 = 1,048,739 bytes, which
/// makes 15,731,085, and the last, of a module with 45 bytes of source and one global, 6 + 87. Of the 1,046,038 bytes
/// that are left, 163 are not those of sources, and 15 * 65,536 = 983,040 are those of the others.
pub const AT_THE_LIMIT: usize = 62_835;

static NAMES: [&str; 16] = [
    "A", "B", "C", "D", "E", "F", "G", "H", "I", "J", "K", "L", "M", "N", "O", "P",
];

/// A source of so many spaces.
pub fn spaces(alloc: Global, count: usize) -> Result<Vec<u8>, AllocError> {
    vec![in alloc; b' '; count]
}

/// The image of a host with sixteen modules, whose sources are spaces: so many of the last, and as many as there may be
/// of the others.
fn large_image(alloc: Global, seq: u64, last: usize) -> Result<Vec<u8>, AllocError> {
    let longest = spaces(alloc, MAX_SOURCE_BYTES)?;
    let source = longest.as_slice();
    let mut modules = Vec::new(alloc);
    for name in &NAMES {
        modules.push(ImageModule {
            name: *name,
            source,
            global: None,
        })?;
    }
    if let Some(module) = modules.as_mut_slice().last_mut() {
        module.source = source.get(..last).unwrap_or(source);
    }
    image(alloc, seq, &modules)
}

/// The image of a host with the module `m` that is asked for `n`, which is 2.
fn small_image(alloc: Global, seq: u64) -> Result<Vec<u8>, AllocError> {
    let module = ImageModule {
        name: "m",
        source: SOURCE,
        global: Some(2),
    };
    image(alloc, seq, &[module])
}

/// The file of a generation of this number with an empty image and 17 records of whole states, with the numbers from 1
/// on. Sixteen are of large states, the last of them with a source of so many bytes, and the seventeenth is of a host
/// with the module `m`.
pub fn full_file(alloc: Global, number: u64, last: usize) -> Result<Vec<u8>, AllocError> {
    let mut file = generation(alloc, number, &image(alloc, 0, &[])?)?;
    for seq in 1..16 {
        add_image(&mut file, &large_image(alloc, seq, MAX_SOURCE_BYTES)?)?;
    }
    add_image(&mut file, &large_image(alloc, 16, last)?)?;
    add_image(&mut file, &small_image(alloc, 17)?)?;
    Ok(file)
}
