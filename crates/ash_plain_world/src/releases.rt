//! What frames hold, release points, and the locals of blocks.
#![tactic(auto, unfolding(crate::specs::ActivityViews::activity_seen))]

ghost use Rattle.std.specs.Prelude.{◌≡◌, [], ◌∷◌, ◌++◌, map, length, flat_map, IfOk, OnOk};
ghost use Rattle.ash_host.specs.Objects.{handles};
ghost use Rattle.ash_meaning.specs.Activity.{in_frame};
ghost use Rattle.ash_meaning.specs.Releases.{holding, give_held, roots_of_frame};
ghost use Rattle.ash_meaning.specs.Releases.{roots, sweep, release};
ghost use Rattle.ash_meaning.specs.Releases.{end_expression, declaring, keeping};
ghost use Rattle.ash_plain_data.specs.CallRuns.{RunsAs};
ghost use Rattle.ash_plain_world.specs.ActivityViews.{world_seen, frame_seen, activity_seen};

use crate::activity::{Activity, Frame, World};
use crate::objects::push_handles;
use ash_host::Word;
use ash_plain_data::run_error::RunResult;
use std::alloc::{AllocError, Global};

/// The objects that words are handles to, and then those that are held already.
fn held_with(alloc: Global, words: &[Word], held: &[u64]) -> Result<Vec<u64>, AllocError>
    ensures value { IfOk result (λ all. all.items ≡ handles words.now ++ held.now) }
{
    let mut all = Vec::new(alloc);
    push_handles(words, &mut all)?;
    all.extend_from_slice(held)?;
    Ok(all)
}

/// Appends what frames reach by themselves.
fn push_roots(frames: &[Frame], roots: &mut Vec<u64>) -> Result<(), AllocError>
    ensures value { OnOk result (roots.new.items
        ≡ roots.old.items ++ flat_map roots_of_frame (map frame_seen frames.now)) }
{
    for frame in frames {
        frame.push_roots(roots)?;
    }
    Ok(())
}

impl Frame {
    /// Holds what a word is a handle to until the full expression ends.
    pub(crate) fn hold(&mut self, word: Word) -> Result<(), AllocError>
        ensures value { OnOk result (frame_seen self.new
            ≡ holding (handles (word ∷ [])) (frame_seen self.old)) }
    {
        if let Word::Object(number) = word {
            self.held.insert(0, number)?;
        }
        Ok(())
    }

    /// Appends what the frame reaches by itself.
    fn push_roots(&self, roots: &mut Vec<u64>) -> Result<(), AllocError>
        ensures value { OnOk result (roots.new.items
            ≡ roots.old.items ++ roots_of_frame (frame_seen self.now)) }
    {
        push_handles(&[self.this], roots)?;
        push_handles(&self.locals, roots)?;
        roots.extend_from_slice(&self.held)?;
        Ok(())
    }
}

impl World {
    /// The release point at the end of a run: all frames are given up at once.
    #[tactic(auto, unfolding(ash_meaning::specs::Releases::sweep))]
    pub fn give_up_frames(&mut self, alloc: Global) -> Result<(), AllocError>
        ensures swept { OnOk result (world_seen self.new ≡ sweep [] (world_seen self.old)) }
    {
        let mut held = Vec::from_slice(alloc, &self.outside)?;
        push_handles(&self.globals, &mut held)?;
        self.objects.sweep(alloc, &held, &mut self.events)?;
        Ok(())
    }
}

impl Activity {
    /// Holds what these words are handles to until the full expression ends.
    pub(crate) fn hold_all(&mut self, words: &[Word]) -> Result<(), AllocError>
        ensures value { OnOk result (activity_seen self.new
            ≡ in_frame (holding (handles words.now)) (activity_seen self.old)) }
    {
        self.frame.held = held_with(self.alloc, words, &self.frame.held)?;
        Ok(())
    }

    /// Holds what a word is a handle to until the full expression ends.
    pub(crate) fn hold(&mut self, word: Word) -> Result<(), AllocError>
        ensures value { OnOk result (activity_seen self.new
            ≡ in_frame (holding (handles (word ∷ []))) (activity_seen self.old)) }
    {
        self.frame.hold(word)
    }

    /// A value, which is held where it is a handle.
    pub(crate) fn give_held(&mut self, word: Word) -> RunResult<Word>
        ensures run { RunsAs (λ w. w) result (activity_seen self.new)
            (give_held word (activity_seen self.old)) }
    {
        self.hold(word)?;
        Ok(word)
    }

    /// From where everything is reached.
    fn roots(&self) -> Result<Vec<u64>, AllocError>
        ensures value { IfOk result (λ found. found.items
            ≡ roots ((activity_seen self.now).frame ∷ (activity_seen self.now).callers)
            (activity_seen self.now).world) }
    {
        let mut found = Vec::from_slice(self.alloc, &self.world.outside)?;
        push_handles(&self.world.globals, &mut found)?;
        self.frame.push_roots(&mut found)?;
        push_roots(&self.callers, &mut found)?;
        Ok(found)
    }

    /// A release point: what can't be reached goes.
    #[tactic(auto, unfolding(crate::specs::ActivityViews::activity_seen, ash_meaning::specs::Releases::release, ash_meaning::specs::Releases::sweep))]
    pub fn release(&mut self) -> RunResult<()>
        ensures released { RunsAs (λ _. tt) result (activity_seen self.new)
            (release (activity_seen self.old)) }
    {
        let alloc = self.alloc;
        let found = self.roots()?;
        let world = &mut self.world;
        world.objects.sweep(alloc, &found, &mut world.events)?;
        Ok(())
    }

    /// The end of a full expression: nothing is held any more.
    pub fn end_expression(&mut self) -> RunResult<()>
        ensures held_no_more { RunsAs (λ _. tt) result (activity_seen self.new)
            (end_expression (activity_seen self.old)) }
    {
        self.frame.held.clear();
        self.release()
    }

    /// How many locals there are.
    pub fn count_locals(&self) -> usize
        ensures count { result ≡ length (activity_seen self.now).frame.locals }
    {
        self.frame.locals.len()
    }

    /// One more local.
    pub fn declare(&mut self, word: Word) -> Result<(), AllocError>
        ensures declared { OnOk result (activity_seen self.new
            ≡ in_frame (declaring word) (activity_seen self.old)) }
    {
        self.frame.locals.push(word)?;
        Ok(())
    }

    /// Leaves blocks, whose locals are those after the first so many.
    pub fn leave_blocks(&mut self, count: usize)
        ensures truncated { activity_seen self.new
            ≡ in_frame (keeping count) (activity_seen self.old) }
    {
        self.frame.locals.truncate(count);
    }
}
