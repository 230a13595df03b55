//! Reading scripts.

use ash_lines::bytes::{MAX_PREFIX_BYTES, read_bytes};
use ash_lines::reader::Reader;
use std::fs::{File, Files};
use std::io;
use std::path::Path;

/// The bytes of a script's file, 65,537 of them at the most: by so many it is seen to be too long.
pub fn read_script<R: Files<File = File> + AllocGlobal>(rt: &R, file: &str) -> io::Result<Vec<u8>> {
    let opened = File::open(rt, file)?;
    let mut input = Reader::new(rt.alloc(), opened)?;
    let mut script = Vec::with_capacity(rt.alloc(), MAX_PREFIX_BYTES)?;
    match read_bytes(&mut input, MAX_PREFIX_BYTES as u32, &mut script) {
        Ok(_) => Ok(script),
        Err(_) => Err(io::Error::new(io::ErrorKind::Other, "it can't be read")),
    }
}

/// What a person reads of a file that can't be opened or read.
pub fn file_trouble(error: &io::Error) -> &'static str {
    match error.kind() {
        io::ErrorKind::NotFound => "there is no such file",
        io::ErrorKind::PermissionDenied => "it may not be read: permission is denied",
        io::ErrorKind::IsADirectory => "it is a folder",
        io::ErrorKind::NotADirectory => "a folder of its path is no folder",
        io::ErrorKind::OutOfMemory => "there is no memory for it",
        _ => "it can't be read",
    }
}

/// The name of the module that a script's file makes: that of the file, without its folder and its extension.
pub fn module_of(file: &str) -> &str {
    Path::new(file).file_stem().unwrap_or("")
}
