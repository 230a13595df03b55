//! The laws. A function without a body does nothing: its contract is the law.
ghost use Rattle.ash_change_records.specs.ListedChanges.{ListedChangesLead, ListedChangesLeadTo, BodiesLead};

/// Where names are all that differs between two states, the delta that lists them leads from one to the other. If the
/// one before has an image in version 2, so has the other.
pub fn listed_changes_lead()
    ensures lead { ListedChangesLead }
    ensures lead_to { ListedChangesLeadTo }
{}

/// And its body is that of a record that leads from one to the other, if the one before has an image in version 2.
pub fn bodies_lead()
    ensures lead { BodiesLead }
{}
