//! That the premises of the laws of ranks can be met. The function does nothing when it runs.
ghost use Rattle.std.specs.Prelude.{◌≡◌, [], ◌∷◌, map};
ghost use Rattle.ash_soundness.specs.WellFormed.{AreObjects};
ghost use Rattle.ash_object_ranks.specs.ObjectRanks.{AreSound, HaveRanks, rank_at};
ghost use Rattle.ash_object_ranks.specs.RankExample.{counting, known, ranks, living};

/// The classes of a small sound module have ranks, there are well-formed objects of it, and these are their ranks.
pub fn worked_ranks()
    ensures sound { AreSound counting known }
    ensures ranked { HaveRanks counting known ranks }
    ensures living { AreObjects known living }
    ensures ranks { map (rank_at known ranks living) (1 ∷ 2 ∷ 3 ∷ 4 ∷ 5 ∷ 6 ∷ 7 ∷ [])
        ≡ 6 ∷ 2 ∷ 4 ∷ 5 ∷ 3 ∷ 1 ∷ 0 ∷ [] }
{}
