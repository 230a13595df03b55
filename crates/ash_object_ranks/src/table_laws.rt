//! The laws of sweeps of a table. The function does nothing: its contract is the law.
ghost use Rattle.ash_object_ranks.specs.ShownTables.{SlotNames};
ghost use Rattle.ash_object_ranks.specs.SweepLaws.{TablesHaveRanks, SweepsTakeTheUnreachable};
ghost use Rattle.ash_object_ranks.specs.SweepLaws.{SweepsAreReleases};

use ash_host::HostObject;

/// A sweep of a table by counts takes exactly what can't be reached, if the table has the objects of modules whose
/// classes have ranks. If they are those of a world, it does what a release point does there.
pub fn sweeps_take_the_unreachable<B: HostObject>()
    ensures ranks { (names : SlotNames) → TablesHaveRanks B.HostObject names }
    ensures exact { (names : SlotNames) → SweepsTakeTheUnreachable B.HostObject names }
    ensures releases { (names : SlotNames) → SweepsAreReleases B.HostObject names }
{}
