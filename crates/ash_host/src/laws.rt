//! The laws of objects as plain data and of what host objects answer, which the crates above cite. A function without a
//! body does nothing: its contract is the law. `M` is what a module is known by.
ghost use Rattle.std.specs.Prelude.{◌≤◌, length};
ghost use Rattle.ash_host.specs.declared.event.Target.{Target};
ghost use Rattle.ash_host.specs.Calls.{Invoke};
ghost use Rattle.ash_host.specs.Limits.{max_state_bytes};
ghost use Rattle.ash_host.specs.ObjectLaws.{ReachIsDecided, SweepIsExact, SweepIsOne};
ghost use Rattle.ash_host.specs.ObjectLaws.{SweepSettles, CascadeIsSweep};
ghost use Rattle.ash_host.specs.ObjectLaws.{CountIsReferences, InsertIsExact, NumbersRise};
ghost use Rattle.ash_host.specs.ObjectLaws.{SweepKeepsLast, RecordIsExact};
ghost use Rattle.ash_host.specs.Records.{IsValidRecord};
ghost use Rattle.ash_host.specs.Words.{IsHostWord, IsAnswer};

use crate::{HostAnswer, HostObject, Word};

/// What is reachable can be computed.
#[tactic(auto, using(crate::proofs::ObjectLaws::reach_is_decided))]
pub fn reach_is_decided<M>()
    ensures decided { ReachIsDecided M }
{}

/// There is one sweep, it can be computed, and it leaves nothing to sweep.
pub fn sweep_is_exact<M>()
    ensures exact { SweepIsExact M }
    ensures one { SweepIsOne M }
    ensures settles { SweepSettles M }
{}

/// Counts that fall to zero find what the sweep takes away, where ranks fall along every reference.
#[tactic(auto, using(crate::proofs::ObjectLaws::cascade_is_sweep))]
pub fn cascade_is_sweep<M>()
    ensures swept { CascadeIsSweep M }
{}

/// A count is above zero exactly where a global is a handle to the object, or an object refers to it.
pub fn count_is_references<M>()
    ensures counted { CountIsReferences M }
{}

/// An object that is inserted at a number changes that number only, and the counts by what it holds.
pub fn insert_is_exact<M>()
    ensures inserted { InsertIsExact M }
{}

/// The number of an object that is made is the last from then on, and a sweep leaves the last number as it is.
pub fn numbers_rise<M>()
    ensures made { NumbersRise M }
    ensures swept { SweepKeepsLast M }
{}

/// A call takes the next record exactly where it is of that call.
pub fn record_is_exact()
    ensures taken { RecordIsExact }
{}

/// Every word has a number that its type has.
pub fn words_have_their_ranges(word: Word)
    ensures in_range { IsHostWord word }
{
    match word {
        Word::Int(_number) => {}
        Word::Uint(_number) => {}
        Word::Int64(_number) => {}
        Word::Uint64(_number) => {}
        Word::Bool(_) | Word::Null | Word::Object(_) => {}
    }
}

/// Every answer has such a word, if it has one.
pub fn answers_have_their_ranges(answer: HostAnswer)
    ensures in_range { IsAnswer answer }
{
    if let HostAnswer::Value(word) = answer {
        words_have_their_ranges(word);
    }
}

/// Runs a method of an object. What it answers makes a valid record, whichever number the object has.
pub fn invoke_is_valid<B: HostObject>(object: &mut B, method: u16, args: &[Word]) -> HostAnswer
    requires bounded { length (B.state object.old) ≤ max_state_bytes }
    ensures valid { (target : Target) → IsValidRecord B.HostObject object.old (record {
      target = target;
      call = Invoke method args.now;
      before = B.state object.old;
      answer = result;
      after = B.state object.new;
    }) }
{
    let answer = object.invoke(method, args);
    answers_have_their_ranges(answer);
    answer
}
