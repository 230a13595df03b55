//! What is left after an instruction.
ghost use Rattle.std.specs.Prelude.{◌≡◌};
ghost use Rattle.ash_context.specs.Positions as positions;

use ash_host::Word;
use ash_run_steps::stop::Stop;

/// What is left after an instruction.
#[derive(Clone, Copy)]
pub(crate) enum Turn {
    /// The run goes on from an instruction of the function that runs.
    GoesOn(usize),
    /// The run ends with a value, or without one.
    Finished(Option<Word>),
}

/// The end of a step that has no value, after which the run goes on.
#[inline(always)]
pub(crate) fn going_on(step: Result<(), Stop>, to: usize) -> Result<Turn, Stop>
    ensures going_on { result ≡ positions.going_on step to }
{
    match step {
        Ok(()) => Ok(Turn::GoesOn(to)),
        Err(stop) => Err(stop),
    }
}
