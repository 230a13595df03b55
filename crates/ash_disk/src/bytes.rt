//! A write to bytes in memory.
ghost use Rattle.std.specs.Prelude.{◌≡◌, OnOk, OnErr};
ghost use Rattle.ash_disk.specs.DiskImage.{after_write};

use std::alloc::AllocError;

// Writes over what is at an offset, and past the end. An offset past the end means the end.
pub(crate) fn overwrite(file: &mut Vec<u8>, at: usize, bytes: &[u8]) -> Result<(), AllocError>
    ensures ok { OnOk result (file.new.items ≡ after_write file.old.items at bytes.now) }
    ensures err { OnErr result (file.new.items ≡ file.old.items) }
{
    let start = at.min(file.len());
    let over = bytes.len().min(file.len() - start);
    file.extend_from_slice(&bytes[over..])?;
    file[start..start + over].copy_from_slice(&bytes[..over]);
    Ok(())
}
