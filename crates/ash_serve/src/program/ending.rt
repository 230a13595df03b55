//! How the program ends: by what it found, or by a fault.

ghost use Rattle.std.specs.Prelude.{◌≡◌};
ghost use Rattle.ash_serve.specs.Program.{end_of, ending_status};

use super::fault::ProgramFault;

/// How the program ends where no fault ends it.
#[derive(Clone, Copy, Debug, PartialEq, Eq)]
pub enum Ending {
    /// What was asked for is done.
    Well,
    /// The script that was checked is refused.
    Refused,
}

impl Ending {
    /// The status that the program ends with: 1 where a script is refused.
    pub fn status(self) -> u8
        ensures status { result ≡ ending_status self }
    {
        match self {
            Ending::Well => 0,
            Ending::Refused => 1,
        }
    }
}

/// How the program ends: its status, and the fault that it writes on standard error, if one ends it.
#[derive(Debug, Drop)]
pub struct ProgramEnd {
    pub status: u8,
    pub fault: Option<ProgramFault>,
}

impl ProgramEnd {
    /// How the program ends by what it did.
    pub fn by(done: Result<Ending, ProgramFault>) -> ProgramEnd
        ensures end { result ≡ end_of done }
    {
        match done {
            Ok(ending) => ProgramEnd {
                status: ending.status(),
                fault: None,
            },
            Err(fault) => ProgramEnd {
                status: fault.status(),
                fault: Some(fault),
            },
        }
    }
}
