//! The descriptors of the standard streams, which no file of a store has.
ghost use Rattle.std.specs.Prelude.{◌↔◌, IsTrue};
ghost use Rattle.ash_disk.specs.Standard.{IsStandard};

use std::fs::{File, Files};
use std::os::fd::{AsRawFd, IntoRawFd};

/// The descriptor of standard error. Those of standard input and output are the two below it.
const LAST_STANDARD: i32 = 2;

/// Whether a file has the descriptor of a standard stream, as one that is opened while that stream is closed may have.
pub(crate) fn is_standard(file: &File) -> bool
    ensures answer { IsTrue result ↔ IsStandard file.now }
{
    file.as_raw_fd() <= LAST_STANDARD
}

/// Takes each closed descriptor of the standard streams, to the end of the process: no file that is opened from then
/// on has one. It opens `/dev/null` there for reading alone. So an input that was closed is empty, and a write to an
/// output that was closed fails. Where `/dev/null` can't be opened, the descriptors stay as they are.
pub fn take_closed_streams<R: Files<File = File>>(files: &R) {
    for _ in 0..=LAST_STANDARD {
        match File::open(files, "/dev/null") {
            Ok(null) if is_standard(&null) => {
                let _kept_open = null.into_raw_fd();
            }
            Ok(_) | Err(_) => return,
        }
    }
}
