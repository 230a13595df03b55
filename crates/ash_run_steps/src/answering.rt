//! Who answers a call, and what is made of an answer.
ghost use Rattle.std.specs.Prelude.{◌≡◌, ◌≤◌, length, false, IsTrue, IsSomeAnd, IfOk, IsErrOf, None, slice_get};
ghost use Rattle.ash_host.specs.declared.answer.HostAnswer.{HostAnswer};
ghost use Rattle.ash_host.specs.Limits.{max_state_bytes};
ghost use Rattle.ash_host.specs.Objects.{handle};
ghost use Rattle.ash_meaning.specs.Activity.{Activity};
ghost use Rattle.ash_meaning.specs.HostSteps.{is_of as is_of_type, accept};
ghost use Rattle.ash_objects.specs.Responses.{box_at};
ghost use Rattle.ash_run_steps.specs.HostGuards.{IsMade};
ghost use Rattle.ash_run_steps.specs.declared.stop.Stop.{Stop};

use crate::stop::Stop;
use ash_host::{HostAnswer, HostObject, Word};
use ash_meaning::Exception;
use ash_objects::{Body, Objects};
use ash_typed::{IntType, VarType};

/// Whether the object of a number is a host object. The state that it has is then no longer than it may be.
pub(crate) fn is_host<B: HostObject>(table: &Objects<B>, number: u64) -> bool
    ensures host { IsTrue result → IsSomeAnd (box_at number table.now)
        (λ box. length (B.state box) ≤ max_state_bytes) }
    ensures none { result ≡ false → box_at number table.now ≡ None }
{
    match table.body(number) {
        Some(Body::Host(object)) => {
            // `kind` is what says that the state fits before any call.
            object.kind();
            true
        }
        _ => false,
    }
}

/// Whether there is a service at a place. The state that it has is then no longer than it may be.
pub(crate) fn is_service<B: HostObject>(table: &Objects<B>, place: u16) -> bool
    ensures service { IsTrue result → IsSomeAnd (slice_get table.now.services place)
        (λ box. length (B.state box) ≤ max_state_bytes) }
    ensures none { result ≡ false → slice_get table.now.services place ≡ None }
{
    match table.services().get(usize::from(place)) {
        Some(object) => {
            object.kind();
            true
        }
        None => false,
    }
}

/// Whether a word is a value of this type. Hosts give no handles.
fn is_of_type(of: VarType, word: Word) -> bool
    ensures of { result ≡ is_of_type of word }
{
    match (of, word) {
        (VarType::Bool, Word::Bool(_)) => true,
        (VarType::Integer(IntType::Int), Word::Int(_)) => true,
        (VarType::Integer(IntType::Uint), Word::Uint(_)) => true,
        (VarType::Integer(IntType::Int64), Word::Int64(_)) => true,
        (VarType::Integer(IntType::Uint64), Word::Uint64(_)) => true,
        _ => false,
    }
}

/// What is made of an answer where a value of this type is declared, or none. What gives no value gives null. No
/// handle comes of it.
pub(crate) fn accept(declared: Option<VarType>, answer: HostAnswer) -> Result<Word, Stop>
    ensures made { (activity : Activity) → IsMade (accept declared answer activity) result activity }
    ensures plain { IfOk result (λ word. handle word ≡ None) }
    ensures memory { IsErrOf result Stop.NoMemory → answer ≡ HostAnswer.NoMemory }
{
    match (answer, declared) {
        (HostAnswer::Nothing, None) => Ok(Word::Null),
        (HostAnswer::Value(word), Some(of)) if is_of_type(of, word) => Ok(word),
        (HostAnswer::Nothing | HostAnswer::Value(_), _) => {
            Err(Stop::Raised(Exception::BadHostAnswer))
        }
        (HostAnswer::Raise(code), _) => Err(Stop::Raised(Exception::Raised(code))),
        (HostAnswer::NoMemory, _) => Err(Stop::NoMemory),
    }
}
