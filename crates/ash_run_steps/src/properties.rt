//! Properties of host objects.
ghost use Rattle.std.specs.Prelude.{◌≡◌, IfOk, IsErrOf, None};
ghost use Rattle.ash_host.specs.Objects.{handle};
ghost use Rattle.ash_run_steps.specs.Becoming.{Comes};
ghost use Rattle.ash_run_steps.specs.HostGuards.{get_property, set_property};
ghost use Rattle.ash_run_steps.specs.RunStates.{Names};
ghost use Rattle.ash_run_steps.specs.declared.stop.Stop.{Stop};

use crate::answering::{accept, is_host};
use crate::state::RunState;
use crate::stop::Stop;
use ash_host::laws::answers_have_their_ranges;
use ash_host::{HostAnswer, HostObject, Word};
use ash_typed::VarType;

impl<B: HostObject> RunState<B> {
    /// Reads a property of a host object. It is of this type, which is no handle. It is `Unsound` if no host
    /// object has the number.
    pub fn get_property(&self, number: u64, property: u16, of: VarType) -> Result<Word, Stop>
        ensures read { (names : Names) → Comes B.HostObject names (get_property number property of)
            self.now result self.now }
        ensures plain { IfOk result (λ word. handle word ≡ None) }
        ensures memory { IsErrOf result Stop.NoMemory → ⊥ }
    {
        if !is_host(&self.table, number) {
            return Err(Stop::Unsound);
        }
        self.table.facts();
        let answer = HostAnswer::Value(self.table.get_prop(number, property));
        answers_have_their_ranges(answer);
        accept(Some(of), answer)
    }

    /// Writes a property of a host object. It is `Unsound` if no host object has the number.
    pub fn set_property(&mut self, number: u64, property: u16, word: Word) -> Result<(), Stop>
        ensures written { (names : Names) → Comes B.HostObject names
            (set_property number property word) self.old result self.new }
        ensures frames { self.new.frames ≡ self.old.frames }
        ensures memory { IsErrOf result Stop.NoMemory → ⊥ }
    {
        if !is_host(&self.table, number) {
            return Err(Stop::Unsound);
        }
        self.table.facts();
        self.table.set_prop(number, property, word);
        Ok(())
    }
}
