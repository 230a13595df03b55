//! How runs end.
ghost use Rattle.std.specs.Prelude.{◌≡◌};
ghost use Rattle.ash_context.specs.Outcomes as outcomes;

use ash_host::Word;
use ash_meaning::Exception;
use ash_run_steps::stop::Stop;

/// How a run ends: at its end, or by an exception or a refused tick, in a function of the code at a line. The place
/// behind the last function is that of the initializers.
#[derive(Clone, Copy, Debug)]
pub enum Outcome {
    /// At its end, with the value of the function.
    Finished(Option<Word>),
    /// By an exception.
    Exception {
        code: Exception,
        function: usize,
        line: u32,
    },
    /// By a refused tick.
    Aborted {
        function: usize,
        line: u32,
    },
}

/// Why a run has no outcome.
#[derive(Clone, Copy, Debug)]
pub enum RunFault {
    /// Memory ran out before the run began. What it found is as it was.
    NotBegun,
    /// Memory ran out once an instruction was begun, a host answered that it had none, or a service was called that the
    /// table lacks.
    /// What it leaves is of no use.
    NoMemory,
    /// The code is not that of a sound module. Compiled code never ends so, if the premises of the contract hold.
    Unsound,
}

// The outcome, if memory was there to end the run.
fn settled(ended: Result<(), Stop>, outcome: Outcome) -> Result<Outcome, RunFault>
    ensures settled { result ≡ outcomes.settled ended outcome }
{
    match ended {
        Ok(()) => Ok(outcome),
        Err(_) => Err(RunFault::NoMemory),
    }
}

/// The outcome of a run that stopped in a function at a line, and was ended.
pub(crate) fn outcome_of(
    end: Result<Option<Word>, Stop>,
    function: usize,
    line: u32,
    ended: Result<(), Stop>,
) -> Result<Outcome, RunFault>
    ensures said { result ≡ outcomes.said_of end function line ended }
{
    match end {
        Ok(value) => settled(ended, Outcome::Finished(value)),
        Err(Stop::Raised(code)) => settled(
            ended,
            Outcome::Exception {
                code,
                function,
                line,
            },
        ),
        Err(Stop::OutOfTicks) => settled(ended, Outcome::Aborted { function, line }),
        Err(Stop::Unsound) => Err(RunFault::Unsound),
        Err(Stop::NoMemory) => Err(RunFault::NoMemory),
    }
}
