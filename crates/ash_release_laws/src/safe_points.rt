//! The laws of release points inside a phrase of a sound module. A function without a body does nothing: its contract
//! is the law.
ghost use Rattle.std.specs.Prelude.{ℕ};
ghost use Rattle.ash_soundness.specs.WellFormed.{Context, IsContext};
ghost use Rattle.ash_release_laws.specs.SafePoints.{ReleasePointsAreSafe, SoundPhrasesReleaseSafely};
ghost use Rattle.ash_release_laws.specs.SafePoints.{HandlesLive, LivesExactlyIfReached};

/// What is done at release points keeps a well-formed activity so: to let go of what is held, to leave blocks and
/// frames, and to release.
pub fn release_points_are_safe()
    ensures safe { (c : Context) → ReleasePointsAreSafe c }
{}

/// In a sound module the release points at the ends of full expressions and of blocks and after a `return` are at
/// well-formed activities, and so is that to which a `break` or a `continue` leads. After a statement that goes on from
/// a settled activity an object lives exactly if it can be reached.
pub fn sound_phrases_release_safely()
    ensures safely { (c : Context) (depth : ℕ) → IsContext c → SoundPhrasesReleaseSafely c depth }
{}

/// In a well-formed activity every handle that is held, stored or outside is to an object that lives; so if nothing is
/// left that can't be reached, an object lives exactly if it can be reached.
pub fn handles_live()
    ensures live { (c : Context) → HandlesLive c }
    ensures exactly { (c : Context) → LivesExactlyIfReached c }
{}
