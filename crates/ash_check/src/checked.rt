//! What the check returns for a script that it accepts.

ghost use Rattle.std.specs.Prelude.{◌≡◌};
ghost use Rattle.ash_typed.specs.Modules.{module_of};
ghost use Rattle.ash_typed.specs.References.{AreRanks};
ghost use Rattle.ash_typed.specs.Signatures.{signatures_of};
ghost use Rattle.ash_typed.specs.SoundModules.{IsSound};
ghost use Rattle.ash_type_rules.specs.Offered.{offered};

use ash_registrations::Registrations;
use ash_typed::Module;
use std::marker::Model;
use std::snapshot::Snapshot;

/// A script that was checked: its typed module, with a rank for each of its classes. The module is sound where that is
/// registered which it was checked against, so that what walks it meets no place out of range and no value of another
/// type than it awaits; and the ranks fall along what objects of its classes hold of one another.
#[derive(Drop)]
pub struct CheckedScript {
    pub(crate) module: Module,
    pub(crate) ranks: Vec<usize>,
    // What it was checked against, for contracts: it has no bytes.
    pub(crate) registrations: Snapshot<Registrations>,
}

impl Model for CheckedScript {
    ghost use Rattle.std.specs.Coded.{codes};
    ghost use Rattle.ash_registrations.specs.Registered.{registered};
    ghost use Rattle.ash_typed.specs.Modules.{module_of};
    ghost use Rattle.ash_typed.specs.contracts.tree.items.Module as typed_module;
    ghost use Rattle.ash_check.specs.CheckedModules.{CheckedModule, IsChecked};

    ghost Value = { CheckedModule };

    ghost coded = { Prim.hlevel (codes, typed_module.the_row.coded) };

    ghost view = { λ c. record {
      registered = registered c.registrations.value;
      typed = c.module;
      ranks = c.ranks.items;
    } };

    ghost invariant = { λ c. IsChecked (registered c.registrations.value) (module_of c.module)
        c.ranks.items };
}

impl CheckedScript {
    /// What the script declares, typed.
    pub fn module(&self) -> &Module
        ensures tree { result.now ≡ self.now.typed }
        ensures sound { IsSound (offered self.now.registered) (module_of result.now) }
    {
        &self.module
    }

    /// What the script declares, typed, without the ranks.
    pub fn into_module(self) -> Module
        ensures tree { result ≡ self.typed }
        ensures sound { IsSound (offered self.registered) (module_of result) }
    {
        self.module
    }

    /// What the script declares, typed, with a rank for each class by its place in the module's `classes`.
    pub fn into_parts(self) -> (Module, Vec<usize>)
        ensures tree { result.0 ≡ self.typed }
        ensures sound { IsSound (offered self.registered) (module_of result.0) }
        ensures items { result.1.items ≡ self.ranks }
        ensures fall { AreRanks (signatures_of (offered self.registered) (module_of result.0))
            result.1.items }
    {
        (self.module, self.ranks)
    }

    /// A rank for each class, by its place in `module().classes`: a number below that of the classes, and greater than
    /// the rank of each class that it refers to.
    pub fn ranks(&self) -> &[usize]
        ensures items { result.now ≡ self.now.ranks }
        ensures fall { AreRanks
            (signatures_of (offered self.now.registered) (module_of self.now.typed)) result.now }
    {
        &self.ranks
    }
}
