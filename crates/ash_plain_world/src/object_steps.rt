//! Steps on objects: what words an object has, and how one is made.
#![tactic(auto, unfolding(crate::specs::ActivityViews::activity_seen))]

ghost use Rattle.std.specs.Prelude.{◌≡◌, ◌<◌, OnOk};
ghost use Rattle.ash_meaning.specs.Activity.{in_world};
ghost use Rattle.ash_meaning.specs.ObjectSteps.{object_of, words_in, with_object};
ghost use Rattle.ash_meaning.specs.ObjectSteps.{with_words, demand_number};
ghost use Rattle.ash_meaning.specs.ObjectSteps.{max_number, make};
ghost use Rattle.ash_plain_data.specs.ObjectViews.{object_seen};
ghost use Rattle.ash_plain_data.specs.CallRuns.{RunsAs};
ghost use Rattle.ash_plain_world.specs.ActivityViews.{activity_seen};

use crate::activity::Activity;
use ash_host::{MAX_OBJECTS, Word};
use ash_meaning::Exception;
use ash_plain_data::object::Object;
use ash_plain_data::run_error::{RunError, RunResult};
use std::alloc::AllocError;

impl Activity {
    /// The object of a handle; null has none.
    pub fn object_of(&self, word: Word) -> RunResult<u64>
        ensures number { RunsAs (λ n. n) result (activity_seen self.now)
            (object_of word (activity_seen self.now)) }
    {
        match word {
            Word::Object(number) => Ok(number),
            _ => Err(RunError::Raising(Exception::NullPointerAccess)),
        }
    }

    /// The words of an object.
    pub(crate) fn words_at(&self, number: u64) -> &[Word]
        ensures value { result.now ≡ words_in number (activity_seen self.now).world }
    {
        self.world.objects.words(number)
    }

    /// Gives an object other words.
    pub(crate) fn set_words(&mut self, number: u64, words: Vec<Word>) -> Result<(), AllocError>
        ensures value { OnOk result (activity_seen self.new
            ≡ in_world (with_object number (with_words words.items)) (activity_seen self.old)) }
    {
        self.world.objects.change_words(self.alloc, number, words)
    }

    /// Raises an exception where no object can be made: as many live as may, or every number was given.
    pub fn demand_number(&self) -> RunResult<()>
        ensures runs { RunsAs (λ _. tt) result (activity_seen self.now)
            (demand_number (activity_seen self.now)) }
        ensures left { OnOk result ((activity_seen self.now).world.last < max_number) }
    {
        if self.world.objects.len() >= MAX_OBJECTS {
            return Err(RunError::Raising(Exception::ObjectLimit));
        }
        if self.world.last == u64::MAX {
            return Err(RunError::Raising(Exception::NumbersSpent));
        }
        Ok(())
    }

    /// Makes an object, which gets the number after the last.
    pub fn make(&mut self, object: Object) -> RunResult<u64>
        requires left { (activity_seen self.old).world.last < max_number }
        ensures made { RunsAs (λ n. n) result (activity_seen self.new)
            (make (object_seen object) (activity_seen self.old)) }
    {
        let number = self.world.last + 1;
        self.world.objects.insert(number, object)?;
        self.world.last = number;
        Ok(number)
    }
}
