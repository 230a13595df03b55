//! Why a run of the code ends before it has its value.

ghost use Rattle.std.specs.Prelude.{◌≡◌};
ghost use Rattle.ash_plain_data.specs.declared.run_error.RunError.TheVariants.{NoMemory};

use ash_meaning::Exception;
use std::alloc::{AllocError, AllocFailed};
use thiserror::Error;

/// Why a run of the code ends before it has its value.
#[derive(Clone, Copy, Debug, Error)]
pub enum RunError {
    /// The script raised an exception.
    #[error("the script raised an exception")]
    Raising(Exception),
    /// A tick was to be taken where none was left.
    #[error("no tick was left for the next step")]
    OutOfTicks,
    /// The meaning has no step: no host answer is left, or the next is of another call, or something is named that is
    /// not there.
    #[error("the meaning of the script has no step here")]
    NoStep,
    /// Memory ran out.
    #[error("memory ran out")]
    NoMemory,
}

/// What a run of the code gives.
pub type RunResult<T> = Result<T, RunError>;

impl From<AllocError> for RunError {
    ghost from_gives = { λ _ error. error ≡ NoMemory };

    fn from(_error: AllocError) -> RunError {
        RunError::NoMemory
    }
}

impl<T: Drop> From<AllocFailed<T>> for RunError {
    ghost from_gives = { λ _ error. error ≡ NoMemory };

    fn from(_error: AllocFailed<T>) -> RunError {
        RunError::NoMemory
    }
}
