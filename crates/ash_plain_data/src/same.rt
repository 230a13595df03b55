//! Whether two calls of hosts are one.

ghost use Rattle.std.specs.Prelude.{◌≡◌, nat_eq};
ghost use Rattle.std.specs.Cmp.Lexicographic.{pointwise};
ghost use Rattle.ash_host.specs.Records.{is_same_word, is_same_call, is_same_target, is_of};
ghost use Rattle.ash_plain_data.specs.CallViews.{call_seen, record_seen};

use crate::host_call::{HostCall, HostRecord};
use crate::operators::is_same_word;
use ash_host::{Target, Word};

fn are_same_words(left: &[Word], right: &[Word]) -> bool
    ensures value { result ≡ pointwise is_same_word left.now right.now }
{
    match (left, right) {
        ([], []) => true,
        ([one, left @ ..], [other, right @ ..]) => {
            is_same_word(*one, *other) && are_same_words(left, right)
        }
        _ => false,
    }
}

fn are_same_bytes(left: &[u8], right: &[u8]) -> bool
    ensures value { result ≡ pointwise nat_eq left.now right.now }
{
    match (left, right) {
        ([], []) => true,
        ([one, left @ ..], [other, right @ ..]) => *one == *other && are_same_bytes(left, right),
        _ => false,
    }
}

fn is_same_call(one: &HostCall, other: &HostCall) -> bool
    ensures value { result ≡ is_same_call (call_seen one.now) (call_seen other.now) }
{
    match (one, other) {
        (HostCall::Start { args }, HostCall::Start { args: others }) => {
            are_same_words(args, others)
        }
        (
            HostCall::Invoke { method, args },
            HostCall::Invoke {
                method: other,
                args: others,
            },
        ) => *method == *other && are_same_words(args, others),
        (HostCall::Get { property }, HostCall::Get { property: other }) => *property == *other,
        (
            HostCall::Set { property, value },
            HostCall::Set {
                property: other,
                value: another,
            },
        ) => *property == *other && is_same_word(*value, *another),
        _ => false,
    }
}

fn is_same_target(one: Target, other: Target) -> bool
    ensures value { result ≡ is_same_target one other }
{
    match (one, other) {
        (Target::Object(one), Target::Object(other)) => one == other,
        (Target::Service(one), Target::Service(other)) => one == other,
        _ => false,
    }
}

/// Whether a record is of this call, made at this state.
pub fn is_of(target: Target, call: &HostCall, before: &[u8], record: &HostRecord) -> bool
    ensures same { result ≡ is_of target (call_seen call.now) before.now (record_seen record.now) }
{
    is_same_target(record.target, target)
        && is_same_call(&record.call, call)
        && are_same_bytes(&record.before, before)
}
