//! Names that are taken, and how many more there may be.

ghost use Rattle.std.specs.Prelude.{◌≡◌, [], ◌∷◌, ◌++◌, not, is_some, if◌then◌else◌, IfOk};
ghost use Rattle.std.specs.List.{list_any};
ghost use Rattle.std.specs.Str.{bytes_eq};
ghost use Rattle.ash_type_rules.specs.Environment.{named_in};
ghost use Rattle.ash_type_rules.specs.ItemRules as definition;
ghost use Rattle.ash_check_names.specs.Agreement.{Agrees};
ghost use Rattle.ash_check_names.specs.NameIndex.{texts};
ghost use Rattle.ash_check.specs.WalkViews.{names_of};

use ash_check_names::{CheckResult, fault_at};
use ash_registrations::Registrations;
use ash_type_rules::Rule;
use indexmap::IndexSet;
use std::alloc::AllocError;

/// The names of a module that are taken: those that are registered, and those of the items before; or those of the
/// members of a class.
#[derive(Drop)]
pub(crate) struct Names<'a> {
    pub(crate) registry: Option<&'a Registrations>,
    pub(crate) taken: IndexSet<&'a str>,
    /// How many more variables of a module, or members of a class, there may be.
    pub(crate) room: usize,
}

/// Inserts a name, unless it is among them: whether it was not.
fn insert_name<'a>(names: &mut IndexSet<&'a str>, name: &'a str) -> Result<bool, AllocError>
    ensures new { IfOk result
        (λ new. new ≡ not (list_any (bytes_eq name.now) (texts names.old.keys))) }
    ensures names { IfOk result (λ new. texts names.new.keys ≡ (if new
        then texts names.old.keys ++ name.now ∷ [] else texts names.old.keys)) }
{
    Ok(names.insert(name)?)
}

impl<'a> Names<'a> {
    fn is_registered(&self, name: &str) -> bool
        ensures value { result ≡ is_some (named_in (names_of self.now).registered name.now) }
    {
        match self.registry {
            Some(registry) => registry.named(name).is_some(),
            None => false,
        }
    }

    /// Takes a name at this offset, which has to be free.
    #[tactic(auto, unfolding(ash_type_rules::specs::ItemRules::untaken))]
    pub(crate) fn take(&mut self, at: usize, name: &'a str) -> CheckResult<()>
        ensures agrees { Agrees (λ _. names_of self.new) result
            (definition.untaken (names_of self.old) at name.now) }
    {
        if self.is_registered(name) || !insert_name(&mut self.taken, name)? {
            return Err(fault_at(Rule::NameTaken, at));
        }
        Ok(())
    }

    /// Counts one more, at this offset.
    #[tactic(auto, unfolding(ash_type_rules::specs::ItemRules::one_more))]
    pub(crate) fn count(&mut self, at: usize) -> CheckResult<()>
        ensures agrees { Agrees (λ _. names_of self.new) result
            (definition.one_more (names_of self.old) at) }
    {
        if self.room == 0 {
            return Err(fault_at(Rule::TooMany, at));
        }
        self.room -= 1;
        Ok(())
    }

    /// Takes a name at this offset, and counts it.
    pub(crate) fn take_counted(&mut self, at: usize, name: &'a str) -> CheckResult<()>
        ensures agrees { Agrees (λ _. names_of self.new) result
            (definition.placed (names_of self.old) at name.now) }
    {
        self.take(at, name)?;
        self.count(at)
    }
}
