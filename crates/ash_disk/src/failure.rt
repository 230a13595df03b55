//! The one error of a device, and its count.
ghost use Rattle.std.specs.Prelude.{◌≡◌, Ok, Some, codes, IsErr, MatchResult};
ghost use Rattle.ash_disk.specs.Failures.{CountsFailure, code_of};

use std::error::Error;
use std::fmt;

/// The device failed in the call. What the call was to do may have been done in part.
#[derive(Clone, Copy, Debug, PartialEq, Eq)]
pub struct DeviceFailed;

impl DeviceFailed {
    /// The code by which it is reported.
    pub fn code(self) -> &'static str
        ensures coded { result.now ≡ code_of self }
    {
        "507 DeviceFailed"
    }
}

impl fmt::Display for DeviceFailed {
    ghost output = { λ _. Some (codes "a device failed") };

    fn fmt<W: fmt::Write>(&self, f: &mut fmt::Formatter<W>) -> fmt::Result {
        f.write_str("a device failed")
    }
}

impl Error for DeviceFailed {}

/// Reports an error as a failure of the device, and counts it. The count stays at 2^64 - 1 once it is there.
pub(crate) fn count_failure<T, E: Drop>(
    outcome: Result<T, E>,
    failures: &mut u64,
) -> Result<T, DeviceFailed>
    ensures same { MatchResult outcome (λ x. result ≡ Ok x) (λ _. IsErr result) }
    ensures cause { CountsFailure result failures.old failures.new }
{
    match outcome {
        Ok(value) => Ok(value),
        Err(_) => {
            *failures = failures.saturating_add(1);
            Err(DeviceFailed)
        }
    }
}
