//! Where the records after an image lead.

ghost use Rattle.std.specs.Prelude.{◌≡◌, ◌↔◌, ◌∷◌, List, ℕ, None, IsTrue, IfOk, IfSome, IsSome};
ghost use Rattle.ash_image.specs.SnapshotViews.{snapshot_of};
ghost use Rattle.ash_image.specs.Deltas.{deltas_of};
ghost use Rattle.ash_image.specs.Leading.{NamedSnapshot};
ghost use Rattle.ash_image.specs.NamedViews.{state_seen};
ghost use Rattle.ash_image.specs.declared.version.Version.{Version};
ghost use Rattle.ash_replay.specs.Replay.{IsRecordBetween, LeadsByDelta, LeadsByDeltas};
ghost use Rattle.ash_replay.specs.Replay.{LeadsByImage, LeadOneByOne};
ghost use Rattle.ash_replay.specs.ReplaySteps.{LeadsOn, LeadsThrough};

use crate::fault::ReplayFault;
use ash_image::delta::{DELTA_TAG, read_delta};
use ash_image::deltas::{DELTAS_TAG, read_deltas};
use ash_image::image::read_body;
use ash_image::leading::lead;
use ash_image::named_state::NamedState;
use ash_image::naming::named_state;
use ash_image::stored::StoredImage;
use ash_image::stored_delta::StoredDelta;
use ash_image::version::Version;
use ash_journal::Record;
use std::alloc::{AllocError, Global};

/// What follows a tag. `None` if the body has another.
fn bytes_after(tag: u8, body: &[u8]) -> Option<&[u8]>
    ensures tagged { IfSome result (λ bytes. body.now ≡ tag ∷ bytes.now) }
    ensures others { result ≡ None → (bytes : List ℕ) → body.now ≡ tag ∷ bytes → ⊥ }
{
    let (first, bytes) = body.split_first()?;
    if *first == tag { Some(bytes) } else { None }
}

/// Whether what was stored has this version, and this text of what was registered.
fn is_with(stored: &StoredImage, version: Version, registered: &str) -> bool
    ensures exact { IsTrue result ↔ ((stored.now.version ≡ version)
        × ((snapshot_of stored.now.state).registered ≡ registered.now)) }
{
    if stored.version != version {
        return false;
    }
    stored.state.registered.as_str() == registered
}

/// The state of the image that is the body of a record. `None` where it leads nowhere.
fn state_by_image(
    alloc: Global,
    version: Version,
    before: &NamedState,
    body: &[u8],
) -> Result<Option<NamedState>, AllocError>
    ensures leads { IfOk result (λ next. IfSome next (λ after.
        LeadsByImage version body.now (state_seen before.now) (state_seen after))) }
    ensures only { (after : NamedSnapshot)
        → LeadsByImage version body.now (state_seen before.now) after
        → IfOk result (λ next. IsSome next) }
{
    let Some(stored) = read_body(alloc, body)? else {
        return Ok(None);
    };
    if !is_with(&stored, version, &before.registered) {
        return Ok(None);
    }
    Ok(Some(named_state(alloc, stored.state)?))
}

/// The state to which a delta leads. `None` where the bytes are none, or where it leads nowhere.
fn state_by_delta(
    alloc: Global,
    version: Version,
    before: NamedState,
    bytes: &[u8],
) -> Result<Option<NamedState>, AllocError>
    ensures leads { IfOk result (λ next. IfSome next (λ after.
        LeadsByDelta version bytes.now (state_seen before) (state_seen after))) }
    ensures only { (after : NamedSnapshot) → LeadsByDelta version bytes.now (state_seen before) after
        → IfOk result (λ next. IsSome next) }
{
    match read_delta(alloc, version, bytes)? {
        Some(delta) => lead(alloc, before, delta),
        None => Ok(None),
    }
}

/// The state to which deltas lead, one after the other. `None` where one of them leads nowhere.
fn lead_one_by_one(
    alloc: Global,
    before: NamedState,
    deltas: Vec<StoredDelta>,
) -> Result<Option<NamedState>, AllocError>
    ensures leads { IfOk result (λ last. IfSome last (λ after.
        LeadOneByOne (deltas_of deltas.items) (state_seen before) (state_seen after))) }
    ensures only { (after : NamedSnapshot)
        → LeadOneByOne (deltas_of deltas.items) (state_seen before) after
        → IfOk result (λ last. IsSome last) }
{
    let mut state = before;
    for delta in deltas {
        let Some(next) = lead(alloc, state, delta)? else {
            return Ok(None);
        };
        state = next;
    }
    Ok(Some(state))
}

/// The state to which several deltas lead, which version 2 alone has. `None` where the bytes are none, or where they
/// lead nowhere.
fn state_by_deltas(
    alloc: Global,
    version: Version,
    before: NamedState,
    bytes: &[u8],
) -> Result<Option<NamedState>, AllocError>
    ensures leads { IfOk result (λ next. IfSome next (λ after.
        LeadsByDeltas version bytes.now (state_seen before) (state_seen after))) }
    ensures only { (after : NamedSnapshot) → LeadsByDeltas version bytes.now (state_seen before) after
        → IfOk result (λ next. IsSome next) }
{
    if version != Version::Two {
        return Ok(None);
    }
    match read_deltas(alloc, bytes)? {
        Some(deltas) => lead_one_by_one(alloc, before, deltas),
        None => Ok(None),
    }
}

/// The state to which the body of a record leads. `None` where it leads nowhere.
fn state_by_body(
    alloc: Global,
    version: Version,
    before: NamedState,
    body: &[u8],
) -> Result<Option<NamedState>, AllocError>
    ensures leads { IfOk result (λ next. IfSome next (λ after.
        IsRecordBetween version body.now (state_seen before) (state_seen after))) }
    ensures only { (after : NamedSnapshot)
        → IsRecordBetween version body.now (state_seen before) after
        → IfOk result (λ next. IsSome next) }
{
    if let Some(bytes) = bytes_after(DELTA_TAG, body) {
        return state_by_delta(alloc, version, before, bytes);
    }
    match bytes_after(DELTAS_TAG, body) {
        Some(bytes) => state_by_deltas(alloc, version, before, bytes),
        None => state_by_image(alloc, version, &before, body),
    }
}

/// The state to which a record leads; else damage at the gate before it.
fn next_state(
    alloc: Global,
    version: Version,
    before: NamedState,
    next: &Record,
) -> Result<NamedState, ReplayFault>
    ensures leads_on { LeadsOn version (state_seen before) next.now.body.items next.now.gate
        result }
{
    match state_by_body(alloc, version, before, &next.body)? {
        Some(state) => Ok(state),
        None => Err(ReplayFault::Damaged(next.gate)),
    }
}

/// The state to which records lead, one after the other; else damage at the gate before the first that leads nowhere.
pub(crate) fn last_state(
    alloc: Global,
    version: Version,
    first: NamedState,
    records: &[Record],
) -> Result<NamedState, ReplayFault>
    ensures leads_through { LeadsThrough version (state_seen first) records.now result }
{
    let mut state = first;
    for record in records {
        state = next_state(alloc, version, state, record)?;
    }
    Ok(state)
}
