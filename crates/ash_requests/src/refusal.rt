//! Why a request is refused.

ghost use Rattle.std.specs.Prelude.{◌≡◌};
ghost use Rattle.ash_requests.specs.declared.refusal.Refusal.TheVariants.{NoMemory};

use std::alloc::{AllocError, AllocFailed};
use std::fmt::Display;
use thiserror::Error;

/// Why a request is refused. A source is refused for its first fault. The last four causes are not in the state.
#[derive(Debug, Drop, Error)]
#[error_bound(F: Display)]
pub enum Refusal<F: Drop> {
    #[error("no sequence number is left for an answer")]
    SequenceSpent,
    #[error("no module can have this name")]
    BadName,
    #[error("a module of this name is loaded already")]
    ModuleTaken,
    #[error("as many modules are loaded as there may be")]
    TooManyModules,
    #[error("{0}")]
    BadSource(F),
    #[error("no module of this name is loaded")]
    NoModule,
    #[error("the module has no function of this name")]
    NoFunction,
    #[error("the function takes or returns what is no primitive")]
    NotCallable,
    #[error("the function does not take these arguments")]
    BadArguments,
    #[error("the module has no global of this name")]
    NoGlobal,
    #[error("no object has this number")]
    NoObject,
    #[error("the host must be opened again")]
    Reopen,
    #[error("a disk failed")]
    DeviceFailed,
    #[error("memory was refused")]
    NoMemory,
    #[error("the number of the store's generation is the greatest")]
    GenerationSpent,
}

impl<F: Drop> Refusal<F> {
    ghost use Rattle.std.specs.Prelude.{◌≡◌};
    ghost use Rattle.ash_requests.specs.RefusalCodes.{code_of, code_seen};
    ghost use Rattle.ash_requests.specs.RequestViews.{refusal_seen};

    /// The code by which it is reported: its number and its name.
    ///
    /// # Errors
    ///
    /// The fault of the source, which has a code of its own.
    pub fn code(&self) -> Result<&'static str, &F>
        ensures coded { code_seen result ≡ code_of (refusal_seen (λ fault. fault) self.now) }
    {
        match self {
            Refusal::BadSource(fault) => Err(fault),
            Refusal::NoModule => Ok("401 NoModule"),
            Refusal::ModuleTaken => Ok("402 ModuleTaken"),
            Refusal::NoFunction => Ok("403 NoFunction"),
            Refusal::NotCallable => Ok("404 NotCallable"),
            Refusal::BadArguments => Ok("405 BadArguments"),
            Refusal::NoGlobal => Ok("406 NoGlobal"),
            Refusal::NoObject => Ok("407 NoObject"),
            Refusal::TooManyModules => Ok("408 TooManyModules"),
            Refusal::BadName => Ok("409 BadName"),
            Refusal::SequenceSpent => Ok("410 SequenceSpent"),
            Refusal::DeviceFailed => Ok("507 DeviceFailed"),
            Refusal::Reopen => Ok("508 Reopen"),
            Refusal::NoMemory => Ok("509 NoMemory"),
            Refusal::GenerationSpent => Ok("511 GenerationSpent"),
        }
    }
}

impl<F: Drop> From<AllocError> for Refusal<F> {
    ghost from_gives = { λ _ refusal. refusal ≡ NoMemory };

    fn from(_error: AllocError) -> Refusal<F> {
        Refusal::NoMemory
    }
}

impl<F: Drop, T: Drop> From<AllocFailed<T>> for Refusal<F> {
    ghost from_gives = { λ _ refusal. refusal ≡ NoMemory };

    fn from(_error: AllocFailed<T>) -> Refusal<F> {
        Refusal::NoMemory
    }
}
