//! Boxes that are drawn from the pool, and host objects that are constructed.
ghost use Rattle.std.specs.Prelude.{◌≡◌, ◌≤◌, ◌+◌, ◌∷◌, [], ℕ, List, length, take, drop, IsSome, IfOk, OnOk, OnErr};
ghost use Rattle.ash_host.specs.declared.word.Word.{Word};
ghost use Rattle.ash_host.specs.Objects.{handles};
ghost use Rattle.ash_meaning.specs.HostSteps as hosts;
ghost use Rattle.ash_meaning.specs.Releases as releases;
ghost use Rattle.ash_objects.specs.Responses.{box_at};
ghost use Rattle.ash_run_steps.specs.Becoming.{Comes};
ghost use Rattle.ash_run_steps.specs.Guarded.{plain};
ghost use Rattle.ash_run_steps.specs.HostGuards.{start_host, holding};
ghost use Rattle.ash_run_steps.specs.RunStates.{Names};

use crate::answering::{accept, is_host};
use crate::state::RunState;
use crate::stop::Stop;
use ash_host::laws::answers_have_their_ranges;
use ash_host::{HostObject, NoMemory, Word};
use ash_meaning::Exception;
use ash_objects::MakeFault;

impl<B: HostObject> RunState<B> {
    /// Takes the first free box of a kind from the pool, as the object of the next number. Nothing holds it yet. It
    /// raises what the meaning does if no number is left, as many objects live as may, or no box is free.
    pub fn draw(&mut self, kind: u16) -> Result<u64, Stop>
        ensures drawn { (names : Names) → Comes B.HostObject names (plain (hosts.draw kind)) self.old
            result self.new }
        ensures host { IfOk result (λ number. IsSome (box_at number self.new.table)) }
        ensures frames { self.new.frames ≡ self.old.frames }
    {
        self.table.facts();
        match self.table.draw(kind, &mut self.events) {
            Ok(number) => Ok(number),
            Err(MakeFault::ObjectLimit) => Err(Stop::Raised(Exception::ObjectLimit)),
            Err(MakeFault::NumbersSpent) => Err(Stop::Raised(Exception::NumbersSpent)),
            Err(MakeFault::PoolEmpty) => Err(Stop::Raised(Exception::PoolEmpty)),
            Err(MakeFault::ArrayLimit) => unreachable!(),
            Err(MakeFault::NoMemory) => Err(Stop::NoMemory),
        }
    }

    // Holds a host object until the full expression ends.
    fn hold_host(&mut self, number: u64) -> Result<(), NoMemory>
        requires host { IsSome (box_at number self.old.table) }
        ensures held { OnOk result ((names : Names) → Comes B.HostObject names
            (plain (releases.hold (Word.Object number))) self.old (Ok tt) self.new) }
        ensures host { box_at number self.new.table ≡ box_at number self.old.table }
        ensures frames { OnOk result (self.new.frames ≡ holding (number ∷ []) self.old.frames) }
        ensures unchanged { OnErr result (self.new.frames ≡ self.old.frames) }
    {
        self.stack.facts();
        self.stack.push_held(number)?;
        self.table.hold(number);
        Ok(())
    }

    // Begins the life of a host object. The arguments are in the slots from one on, so many of them.
    fn start(&mut self, number: u64, at: usize, count: usize) -> Result<Word, Stop>
        requires host { IsSome (box_at number self.old.table) }
        requires within { at + count ≤ length self.old.frames.frame.slots }
        ensures started { (names : Names) → Comes B.HostObject names
            (plain (start_host number (take count (drop at self.old.frames.frame.slots)))) self.old
            result self.new }
        ensures frames { self.new.frames ≡ self.old.frames }
    {
        if !is_host(&self.table, number) {
            unreachable!();
        }
        self.table.facts();
        let args = self.stack.slots_from(at, count);
        let answer = self.table.start(number, args);
        answers_have_their_ranges(answer);
        accept(None, answer)
    }

    /// Constructs an object of a registered type, by its kind: a box is drawn, held until the full expression ends, and
    /// then started. Its arguments are in the slots from one on, so many of them. After an error the frame may hold the
    /// object.
    pub fn construct_host(&mut self, kind: u16, at: usize, count: usize) -> Result<Word, Stop>
        requires within { at + count ≤ length self.old.frames.frame.slots }
        ensures constructed { (names : Names) → Comes B.HostObject names
            (plain (hosts.construct_host kind (take count (drop at self.old.frames.frame.slots))))
            self.old result self.new }
        ensures frames { IfOk result (λ word. self.new.frames
            ≡ holding (handles (word ∷ [])) self.old.frames) }
        ensures ended { OnErr result ((numbers : List ℕ)
            × (self.new.frames ≡ holding numbers self.old.frames)) }
    {
        let number = self.draw(kind)?;
        self.hold_host(number)?;
        self.start(number, at, count)?;
        Ok(Word::Object(number))
    }
}
