//! Why a script is refused.

ghost use Rattle.std.specs.Prelude.{◌≡◌};
ghost use Rattle.ash_check.specs.declared.faults.ScriptError.TheVariants.{NoMemory};
ghost use Rattle.ash_check.specs.ScriptFaults.{script_fault_of, code_of, script_error};

use ash_check_names::CheckError;
use ash_type_rules::Fault;
use std::alloc::{AllocError, AllocFailed};
use std::fmt;
use thiserror::Error;

/// Why a script is refused.
#[derive(Debug, PartialEq, Eq, Drop, Error)]
pub enum ScriptFault {
    /// A rule of typing that a phrase breaks, and the byte offset of the token that is reported.
    #[error("{0}")]
    Broken(Fault),
    /// A class that reaches itself: it and the classes on a shortest path back.
    #[error("{0}")]
    Cyclic(ClassNames),
}

impl ScriptFault {
    /// The code by which it is reported: its number and its name, without the offset and the names of classes.
    pub fn code(&self) -> &'static str
        ensures coded { result.now ≡ code_of (script_fault_of self.now) }
    {
        match self {
            ScriptFault::Broken(fault) => fault.rule.code(),
            ScriptFault::Cyclic(_) => "309 CyclicType",
        }
    }
}

/// The names of the classes on a cycle, in order. Printed, they are in a sentence that says how the first reaches
/// itself.
#[derive(Debug, PartialEq, Eq, Drop)]
pub struct ClassNames(pub Vec<String>);

impl fmt::Display for ClassNames {
    fn fmt<W: fmt::Write>(&self, f: &mut fmt::Formatter<W>) -> fmt::Result {
        for (place, name) in self.0.iter().enumerate() {
            match place {
                0 => write!(f, "class {name} reaches itself")?,
                1 => write!(f, " through {name}")?,
                _ => write!(f, ", {name}")?,
            }
        }
        Ok(())
    }
}

/// Why the check of a script fails.
#[derive(Debug, PartialEq, Eq, Drop, Error)]
pub enum ScriptError {
    /// The script is refused.
    #[error("{0}")]
    Fault(ScriptFault),
    /// Memory was refused, which says nothing of the script.
    #[error("memory was refused")]
    NoMemory,
}

impl From<AllocError> for ScriptError {
    ghost from_gives = { λ _ error. error ≡ NoMemory };

    fn from(_error: AllocError) -> ScriptError {
        ScriptError::NoMemory
    }
}

impl<T: Drop> From<AllocFailed<T>> for ScriptError {
    ghost from_gives = { λ _ error. error ≡ NoMemory };

    fn from(_error: AllocFailed<T>) -> ScriptError {
        ScriptError::NoMemory
    }
}

impl From<CheckError> for ScriptError {
    ghost from_gives = { λ part error. error ≡ script_error part };

    fn from(error: CheckError) -> ScriptError {
        match error {
            CheckError::Fault(fault) => ScriptError::Fault(ScriptFault::Broken(fault)),
            CheckError::NoMemory => ScriptError::NoMemory,
        }
    }
}
