//! The laws of the states of hosts. A function without a body does nothing: its contract is the law.

ghost use Rattle.ash_states.specs.HostStates.{FirstIsAdmitted};
ghost use Rattle.ash_states.specs.Images.{IsImageOfOneState};
ghost use Rattle.ash_states.specs.Indexes.{HaveImages};

/// A host may be in the state before any request, where there is the state of each registered service.
pub fn first_state_is_admitted()
    ensures first { FirstIsAdmitted }
{}

/// Bytes are the image of one state of a host, where these are the registrations.
pub fn image_of_one_state()
    ensures one { IsImageOfOneState }
{}

/// Each state that a host may be in has an image in version 2, where the text of what is registered has a spelling, and
/// so have the kinds of services and those that objects name.
pub fn admitted_states_have_images()
    ensures image { HaveImages }
{}
