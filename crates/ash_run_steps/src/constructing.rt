//! Objects that are made.
ghost use Rattle.std.specs.Prelude.{◌≡◌, IfOk, OnErr};
ghost use Rattle.ash_run_steps.specs.Becoming.{Comes};
ghost use Rattle.ash_run_steps.specs.MakingSteps.{make_script};
ghost use Rattle.ash_run_steps.specs.RunStates.{Names};

use crate::counting::are_alive;
use crate::state::RunState;
use crate::stop::Stop;
use ash_host::{HostObject, NoMemory, Word};
use ash_meaning::Exception;
use ash_objects::{MAX_ELEMENTS, MakeFault, Words};
use std::alloc::Global;

impl From<MakeFault> for Stop {
    ghost use Rattle.std.specs.Prelude.{◌≡◌};
    ghost use Rattle.ash_run_steps.specs.MakingSteps.{stop_of};

    ghost from_gives = { λ fault stop. stop ≡ stop_of fault };

    fn from(fault: MakeFault) -> Stop {
        match fault {
            MakeFault::ObjectLimit => Stop::Raised(Exception::ObjectLimit),
            MakeFault::NumbersSpent => Stop::Raised(Exception::NumbersSpent),
            MakeFault::PoolEmpty => Stop::Raised(Exception::PoolEmpty),
            MakeFault::ArrayLimit => Stop::Raised(Exception::ArrayLimit),
            MakeFault::NoMemory => Stop::NoMemory,
        }
    }
}

/// The words of a new object.
fn copied(alloc: Global, words: &[Word]) -> Result<Words, NoMemory>
    ensures words { IfOk result (λ copy. copy ≡ words.now) }
{
    Ok(Words::new(Vec::from_slice(alloc, words)?))
}

impl<B: HostObject> RunState<B> {
    /// Makes an object of the class at a place in the source of the module in a slot, and gives its number. Nothing
    /// holds it yet. If none is made nothing changes.
    pub fn make_script(&mut self, owner: u8, class: u16, fields: &[Word]) -> Result<u64, Stop>
        ensures made { (names : Names) → Comes B.HostObject names
            (make_script (names.modules owner) class fields.now) self.old result self.new }
        ensures frames { self.new.frames ≡ self.old.frames }
        ensures unchanged { OnErr result (self.new ≡ self.old) }
    {
        if fields.len() > MAX_ELEMENTS {
            return Err(Stop::Unsound);
        }
        if !are_alive(&self.table, fields) {
            return Err(Stop::Unsound);
        }
        self.table.facts();
        let fields = copied(*self.globals.allocator(), fields)?;
        let number = self.table.new_script(owner, class, fields)?;
        Ok(number)
    }
}
