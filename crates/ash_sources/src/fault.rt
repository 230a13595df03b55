//! Why a source has no typed tree.

use ash_check::{ScriptError, ScriptFault};
use ash_lex::LexFault;
use ash_parse::ParseFault;
use thiserror::Error;

/// Why a source has no typed tree: the fault of the layer that finds it, whole.
#[derive(Debug, PartialEq, Eq, Drop, Error)]
pub enum SourceFault {
    /// The source has no tokens.
    #[error("{0}")]
    Lexical(LexFault),
    /// Its tokens are no script.
    #[error("{0}")]
    Syntactic(ParseFault),
    /// Its script breaks a rule of typing, or has a class that reaches itself.
    #[error("{0}")]
    Checked(ScriptFault),
}

impl SourceFault {
    ghost use Rattle.std.specs.Prelude.{◌≡◌};
    ghost use Rattle.ash_sources.specs.SourceFaults.{code_of, fault_of};

    /// The code by which it is reported: its number and its name, without what it reports of the source.
    pub fn code(&self) -> &'static str
        ensures coded { result.now ≡ code_of (fault_of self.now) }
    {
        match self {
            SourceFault::Lexical(fault) => fault.code(),
            SourceFault::Syntactic(fault) => fault.code(),
            SourceFault::Checked(fault) => fault.code(),
        }
    }
}

/// Why reading a source fails.
#[derive(Debug, PartialEq, Eq, Drop, Error)]
pub enum SourceError {
    /// The source has no typed tree.
    #[error("{0}")]
    Fault(SourceFault),
    /// Memory was refused, which says nothing of the source.
    #[error("memory was refused")]
    NoMemory,
}

impl From<LexFault> for SourceError {
    ghost use Rattle.std.specs.Prelude.{◌≡◌};
    ghost use Rattle.ash_sources.specs.SourceFaults.{lexical_error};

    ghost from_gives = { λ fault error. error ≡ lexical_error fault };

    fn from(fault: LexFault) -> Self {
        match fault {
            LexFault::NoMemory => SourceError::NoMemory,
            fault => SourceError::Fault(SourceFault::Lexical(fault)),
        }
    }
}

impl From<ParseFault> for SourceError {
    ghost use Rattle.std.specs.Prelude.{◌≡◌};
    ghost use Rattle.ash_sources.specs.SourceFaults.{syntactic_error};

    ghost from_gives = { λ fault error. error ≡ syntactic_error fault };

    fn from(fault: ParseFault) -> Self {
        match fault {
            ParseFault::NoMemory => SourceError::NoMemory,
            fault => SourceError::Fault(SourceFault::Syntactic(fault)),
        }
    }
}

impl From<ScriptError> for SourceError {
    ghost use Rattle.std.specs.Prelude.{◌≡◌};
    ghost use Rattle.ash_sources.specs.SourceFaults.{checked_error};

    ghost from_gives = { λ script error. error ≡ checked_error script };

    fn from(error: ScriptError) -> Self {
        match error {
            ScriptError::Fault(fault) => SourceError::Fault(SourceFault::Checked(fault)),
            ScriptError::NoMemory => SourceError::NoMemory,
        }
    }
}
