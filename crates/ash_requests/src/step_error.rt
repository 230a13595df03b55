//! Why a request comes to no step.

use std::alloc::{AllocError, AllocFailed};
use thiserror::Error;

/// Why a request comes to no step.
#[derive(Clone, Copy, Debug, Error)]
pub enum StepError {
    /// The definitions have no step: hosts gave no answer to a call of the run, or one to another call.
    #[error("the hosts gave no answer to a call of the run, or one to another call")]
    NoStep,
    /// Memory was refused.
    #[error("memory was refused")]
    NoMemory,
}

impl From<AllocError> for StepError {
    ghost use Rattle.std.specs.Prelude.{◌≡◌};
    ghost use Rattle.ash_requests.specs.declared.step_error.StepError.TheVariants as errors;

    ghost from_gives = { λ _ error. error ≡ errors.NoMemory };

    fn from(_error: AllocError) -> StepError {
        StepError::NoMemory
    }
}

impl<T: Drop> From<AllocFailed<T>> for StepError {
    ghost use Rattle.std.specs.Prelude.{◌≡◌};
    ghost use Rattle.ash_requests.specs.declared.step_error.StepError.TheVariants as errors;

    ghost from_gives = { λ _ error. error ≡ errors.NoMemory };

    fn from(_error: AllocFailed<T>) -> StepError {
        StepError::NoMemory
    }
}
