//! The error that ends checking.

ghost use Rattle.std.specs.Prelude.{◌≡◌};
ghost use Rattle.ash_check_names.specs.declared.error.CheckError.TheVariants.{NoMemory};
ghost use Rattle.ash_check_names.specs.Agreement.{error_at};

use ash_type_rules::{Fault, Rule};
use std::alloc::{AllocError, AllocFailed};
use thiserror::Error;

/// Why checking ended.
#[derive(Clone, Copy, Debug, PartialEq, Eq, Error)]
pub enum CheckError {
    /// A rule of typing is broken.
    #[error("{0}")]
    Fault(Fault),
    /// Memory was refused, which says nothing of the script.
    #[error("memory was refused")]
    NoMemory,
}

/// What a check returns.
pub type CheckResult<T> = Result<T, CheckError>;

/// The error of a rule that is broken at this offset.
pub fn fault_at(rule: Rule, at: usize) -> CheckError
    ensures rule_at_offset { result ≡ error_at rule at }
{
    CheckError::Fault(Fault { rule, at })
}

impl From<AllocError> for CheckError {
    ghost from_gives = { λ _ error. error ≡ NoMemory };

    fn from(_error: AllocError) -> CheckError {
        CheckError::NoMemory
    }
}

impl<T: Drop> From<AllocFailed<T>> for CheckError {
    ghost from_gives = { λ _ error. error ≡ NoMemory };

    fn from(_error: AllocFailed<T>) -> CheckError {
        CheckError::NoMemory
    }
}
