//! Why a call is refused: one type a call, with the errors that it can answer.

ghost use Rattle.std.specs.Prelude.{◌≡◌};
ghost use Rattle.ash_journal.specs.JournalCodes.{append_code, create_code, install_code, open_code};
ghost use Rattle.ash_journal.specs.declared.error.AppendError.TheVariants as append_errors;
ghost use Rattle.ash_journal.specs.declared.error.CreateFault.TheVariants as create_faults;
ghost use Rattle.ash_journal.specs.declared.error.InstallError.TheVariants as install_errors;
ghost use Rattle.ash_journal.specs.declared.error.OpenFault.TheVariants as open_faults;

use ash_disk::DeviceFailed;
use std::alloc::{AllocError, AllocFailed};
use thiserror::Error;

/// Why no record was added.
#[derive(Clone, Copy, Debug, PartialEq, Eq, Drop, Error)]
pub enum AppendError {
    /// Memory was refused, and nothing has changed.
    #[error("memory was refused")]
    NoMemory,
    /// A device failed: the record may be there or not, and the journal is to be opened again.
    #[error("a device failed")]
    DeviceFailed,
}

impl AppendError {
    /// The code by which it is reported: its number and its name.
    pub fn code(self) -> &'static str
        ensures coded { result.now ≡ append_code self }
    {
        match self {
            AppendError::NoMemory => "509 NoMemory",
            AppendError::DeviceFailed => DeviceFailed.code(),
        }
    }
}

impl From<AllocError> for AppendError {
    ghost from_gives = { λ _ error. error ≡ append_errors.NoMemory };

    fn from(_: AllocError) -> Self {
        Self::NoMemory
    }
}

impl From<DeviceFailed> for AppendError {
    ghost from_gives = { λ _ error. error ≡ append_errors.DeviceFailed };

    fn from(_: DeviceFailed) -> Self {
        AppendError::DeviceFailed
    }
}

/// Why no new generation was installed.
#[derive(Clone, Copy, Debug, PartialEq, Eq, Drop, Error)]
pub enum InstallError {
    /// The generation is the last that a number can have, and nothing has changed.
    #[error("the generation is the last that a number can have")]
    GenerationSpent,
    /// Memory was refused, and nothing has changed.
    #[error("memory was refused")]
    NoMemory,
    /// A device failed: the new generation may be there or not, and the journal is to be opened again.
    #[error("a device failed")]
    DeviceFailed,
}

impl InstallError {
    /// The code by which it is reported: its number and its name.
    pub fn code(self) -> &'static str
        ensures coded { result.now ≡ install_code self }
    {
        match self {
            InstallError::GenerationSpent => "511 GenerationSpent",
            InstallError::NoMemory => "509 NoMemory",
            InstallError::DeviceFailed => DeviceFailed.code(),
        }
    }
}

impl From<AllocError> for InstallError {
    ghost from_gives = { λ _ error. error ≡ install_errors.NoMemory };

    fn from(_: AllocError) -> Self {
        InstallError::NoMemory
    }
}

/// Why two files were not opened.
#[derive(Clone, Copy, Debug, PartialEq, Eq, Drop, Error)]
pub enum OpenFault {
    /// A device failed.
    #[error("a device failed")]
    DeviceFailed,
    /// Neither file is open.
    #[error("neither file is open: nothing was ever stored in them")]
    NoGeneration,
    /// The bytes are no generation: at 0 the magic, the number or the image, elsewhere the record after the gate at
    /// this offset in the current file. A store of states reports so, too, an image or a record that is whole but no
    /// state, or none that its host may be in.
    #[error("the file is damaged at byte {0}")]
    Damaged(u64),
    /// Memory was refused.
    #[error("memory was refused")]
    NoMemory,
}

impl OpenFault {
    /// The code by which it is reported: its number and its name, without the offset.
    pub fn code(self) -> &'static str
        ensures coded { result.now ≡ open_code self }
    {
        match self {
            OpenFault::DeviceFailed => DeviceFailed.code(),
            OpenFault::NoGeneration => "501 NoGeneration",
            OpenFault::Damaged(_) => "503 Damaged",
            OpenFault::NoMemory => "509 NoMemory",
        }
    }
}

impl From<DeviceFailed> for OpenFault {
    ghost from_gives = { λ _ fault. fault ≡ open_faults.DeviceFailed };

    fn from(_: DeviceFailed) -> Self {
        OpenFault::DeviceFailed
    }
}

impl From<AllocError> for OpenFault {
    ghost from_gives = { λ _ fault. fault ≡ open_faults.NoMemory };

    fn from(_: AllocError) -> Self {
        OpenFault::NoMemory
    }
}

impl<T: Drop> From<AllocFailed<T>> for OpenFault {
    ghost from_gives = { λ _ fault. fault ≡ open_faults.NoMemory };

    fn from(_: AllocFailed<T>) -> Self {
        OpenFault::NoMemory
    }
}

/// Why no journal was created.
#[derive(Clone, Copy, Debug, PartialEq, Eq, Drop, Error)]
pub enum CreateFault {
    /// A device failed.
    #[error("a device failed")]
    DeviceFailed,
    /// A file is open. Nothing was written.
    #[error("a file is open already")]
    AlreadyThere,
    /// Memory was refused, and nothing was written.
    #[error("memory was refused")]
    NoMemory,
}

impl CreateFault {
    /// The code by which it is reported: its number and its name.
    pub fn code(self) -> &'static str
        ensures coded { result.now ≡ create_code self }
    {
        match self {
            CreateFault::DeviceFailed => DeviceFailed.code(),
            CreateFault::AlreadyThere => "502 AlreadyThere",
            CreateFault::NoMemory => "509 NoMemory",
        }
    }
}

impl From<DeviceFailed> for CreateFault {
    ghost from_gives = { λ _ fault. fault ≡ create_faults.DeviceFailed };

    fn from(_: DeviceFailed) -> Self {
        CreateFault::DeviceFailed
    }
}

impl From<AllocError> for CreateFault {
    ghost from_gives = { λ _ fault. fault ≡ create_faults.NoMemory };

    fn from(_: AllocError) -> Self {
        CreateFault::NoMemory
    }
}
