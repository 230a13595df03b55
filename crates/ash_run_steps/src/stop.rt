//! Why a run doesn't go on.

use ash_host::NoMemory;
use ash_meaning::Exception;

/// Why a run doesn't go on.
#[derive(Clone, Copy, Debug)]
pub enum Stop {
    /// An exception was raised.
    Raised(Exception),
    /// No tick was left.
    OutOfTicks,
    /// The code is not that of a sound module. Code that was compiled never stops for this.
    Unsound,
    /// Memory ran out.
    NoMemory,
}

impl From<NoMemory> for Stop {
    ghost use Rattle.std.specs.Prelude.{◌≡◌};
    ghost use Rattle.ash_run_steps.specs.declared.stop.Stop.TheVariants as stops;

    ghost from_gives = { λ _ stop. stop ≡ stops.NoMemory };

    fn from(_error: NoMemory) -> Stop {
        Stop::NoMemory
    }
}
