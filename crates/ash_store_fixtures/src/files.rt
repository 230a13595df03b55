//! Files of a store, written by hand after their layout.

use std::alloc::{AllocError, Global};

/// A module as an image has it. Where it has a global, that is an `int`.
#[derive(Clone, Copy)]
pub struct ImageModule<'a> {
    pub name: &'static str,
    pub source: &'a [u8],
    pub global: Option<i32>,
}

/// The length of some bytes, in four.
pub fn length_of(bytes: &[u8]) -> [u8; 4] {
    let length = u32::try_from(bytes.len()).unwrap_or(u32::MAX);
    length.to_le_bytes()
}

/// Adds the name of a module, after its length.
pub fn add_name(bytes: &mut Vec<u8>, name: &str) -> Result<(), AllocError> {
    let [length, _, _, _] = length_of(name.as_bytes());
    bytes.push(length)?;
    bytes.extend_from_slice(name.as_bytes())
}

/// Adds the name and the source of a module.
pub fn add_source(bytes: &mut Vec<u8>, module: &ImageModule) -> Result<(), AllocError> {
    add_name(bytes, module.name)?;
    bytes.extend_from_slice(&length_of(module.source))?;
    bytes.extend_from_slice(module.source)
}

/// Adds a module to an image.
fn add_module(image: &mut Vec<u8>, module: &ImageModule) -> Result<(), AllocError> {
    add_source(image, module)?;
    match module.global {
        Some(number) => {
            image.extend_from_slice(&[1, 0, 1])?;
            image.extend_from_slice(&number.to_le_bytes())
        }
        None => image.extend_from_slice(&[0, 0]),
    }
}

/// An image in which there are no objects, and no number was given to one: its version, the text of what is registered,
/// its number, its services, each a kind and an `int` as its state, and its modules.
#[derive(Clone, Copy)]
pub struct StoreImage<'a> {
    pub version: u8,
    pub text: &'a str,
    pub seq: u64,
    pub services: &'a [(u16, i32)],
    pub modules: &'a [ImageModule<'a>],
}

/// Adds a service: its kind in an image, or its index in a delta, and an `int` as its state.
fn add_service(image: &mut Vec<u8>, service: (u16, i32)) -> Result<(), AllocError> {
    let (name, number) = service;
    image.extend_from_slice(&name.to_le_bytes())?;
    image.extend_from_slice(&[4, 0])?;
    image.extend_from_slice(&number.to_le_bytes())
}

/// Adds how many services there are, and each of them.
pub fn add_services(image: &mut Vec<u8>, services: &[(u16, i32)]) -> Result<(), AllocError> {
    let count = u16::try_from(services.len()).unwrap_or(u16::MAX);
    image.extend_from_slice(&count.to_le_bytes())?;
    for service in services {
        add_service(image, *service)?;
    }
    Ok(())
}

/// Adds how many modules there are to an image, and each of them.
fn add_modules(image: &mut Vec<u8>, modules: &[ImageModule]) -> Result<(), AllocError> {
    let count = u8::try_from(modules.len()).unwrap_or(u8::MAX);
    image.push(count)?;
    for module in modules {
        add_module(image, module)?;
    }
    Ok(())
}

/// The bytes of an image: the version, the text, its number, no object's number, its services, its modules, and no
/// objects.
pub fn image_bytes(alloc: Global, of: &StoreImage) -> Result<Vec<u8>, AllocError> {
    let mut image = Vec::from_slice(alloc, &[of.version, 0])?;
    image.extend_from_slice(&length_of(of.text.as_bytes()))?;
    image.extend_from_slice(of.text.as_bytes())?;
    image.extend_from_slice(&of.seq.to_le_bytes())?;
    image.extend_from_slice(&[0; 8])?;
    add_services(&mut image, of.services)?;
    add_modules(&mut image, of.modules)?;
    image.extend_from_slice(&[0; 4])?;
    Ok(image)
}

/// The image of a host in which nothing is registered, in a version, with its number and its modules.
pub fn image_in(
    alloc: Global,
    version: u8,
    seq: u64,
    modules: &[ImageModule],
) -> Result<Vec<u8>, AllocError> {
    let image = StoreImage {
        version,
        text: "",
        seq,
        services: &[],
        modules,
    };
    image_bytes(alloc, &image)
}

/// The same in the version that is written.
pub fn image(alloc: Global, seq: u64, modules: &[ImageModule]) -> Result<Vec<u8>, AllocError> {
    image_in(alloc, 2, seq, modules)
}

/// The file of a generation with an image and no records.
pub fn generation(alloc: Global, number: u64, image: &[u8]) -> Result<Vec<u8>, AllocError> {
    let mut file = Vec::from_slice(alloc, b"\x01ASHOST01")?;
    file.extend_from_slice(&number.to_le_bytes())?;
    file.extend_from_slice(&length_of(image))?;
    file.extend_from_slice(image)?;
    file.push(0)?;
    Ok(file)
}

/// Adds a record to a file, whose body is a tag and these bytes, and opens the gate before it.
pub fn add_record(file: &mut Vec<u8>, tag: u8, bytes: &[u8]) -> Result<(), AllocError> {
    if let Some(gate) = file.as_mut_slice().last_mut() {
        *gate = 1;
    }
    let length = u32::try_from(bytes.len()).unwrap_or(u32::MAX);
    file.extend_from_slice(&length.saturating_add(1).to_le_bytes())?;
    file.push(tag)?;
    file.extend_from_slice(bytes)?;
    file.push(0)?;
    Ok(())
}

/// Adds a record of a whole state to a file.
pub fn add_image(file: &mut Vec<u8>, image: &[u8]) -> Result<(), AllocError> {
    add_record(file, 1, image)
}
