//! The laws of live states. A function without a body does nothing: its contract is the law.

ghost use Rattle.ash_engine.specs.LiveSteps.{StepsKeepReached, LiveStepsKeepReached};
ghost use Rattle.ash_engine.specs.SavedDrawing.{DrawingsAgree};

use ash_host::HostObject;

/// What a request leads to is what a host may be in, where what it begins with is.
pub fn steps_keep_reached()
    ensures kept { StepsKeepReached }
{}

/// And so it is of the steps of live states, whatever their boxes answer.
pub fn live_steps_keep_reached<B: HostObject>()
    ensures kept { LiveStepsKeepReached B.HostObject }
{}

/// The host objects of a state take the boxes that a table takes for all objects of the state.
pub fn drawings_agree<B: HostObject>()
    ensures same { DrawingsAgree B.HostObject }
{}
