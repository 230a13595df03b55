//! The laws of replaying. A function without a body does nothing: its contract is the law.

ghost use Rattle.ash_replay.specs.Replay.{ContentsLeadToOne};
ghost use Rattle.ash_replay.specs.ReplayedStates.{ContentsHaveOneState, ImagesHaveTheirState};
ghost use Rattle.ash_replay.specs.ReplayedStates.{RecordsLeadOn, StatesFit, StatesHaveNoFault};

/// An image and records lead to one state.
pub fn contents_lead_to_one_state()
    ensures one { ContentsLeadToOne }
{}

/// An image and records are of one state of a host, where these are the registrations.
pub fn contents_have_one_state()
    ensures one { ContentsHaveOneState }
{}

/// An image without records is of its state. A record more leads to the next state. The state has an image in the
/// version of the contents.
pub fn records_lead_on()
    ensures alone { ImagesHaveTheirState }
    ensures more { RecordsLeadOn }
    ensures fit { StatesFit }
{}

/// What has a state of a host is read as that state, unless memory is refused.
pub fn states_have_no_fault()
    ensures only { StatesHaveNoFault }
{}
