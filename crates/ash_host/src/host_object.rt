//! The trait of host objects.
ghost use Rattle.std.specs.Prelude.{◌≡◌, ◌≤◌, ◌++◌, ℕ, List, length, OnOk, OnErr, IsErrOf};
ghost use Rattle.ash_host.specs.declared.answer.HostAnswer.{HostAnswer};
ghost use Rattle.ash_host.specs.declared.fault.RestoreFault.{RestoreFault};
ghost use Rattle.ash_host.specs.Calls.{HostCall, Start, Invoke, Get, Set, Relation, SameRelation};
ghost use Rattle.ash_host.specs.Limits.{max_state_bytes};

use crate::{HostAnswer, NoMemory, RestoreFault, Word};

/// An object of the embedding program that scripts hold by handle, or a service whose functions are registered
/// (AngelScript manual, "Registering a reference type").
///
/// It is known by four things, which no code can read and each implementation proves: the kind, which no call
/// changes; the state, at most 1,024 bytes; what it `allows`, a relation of a call, the state before, the answer
/// and the state after, which no call changes either; and which bytes it `refuses` as a state. The bytes of `save`
/// are the state, and `restore` brings it back.
pub trait HostObject: Drop {
    /// The number of its kind, by which a registered type or service finds it.
    ghost kind_of: { Self → ℕ };

    /// Its state in bytes.
    ghost state: { Self → List ℕ };

    /// Whether a call may, from a state, give an answer and leave a state.
    ghost allows: { Self → Relation };

    /// Whether it may refuse these bytes as its state. A kind that may refuse what its own objects have saved is not to
    /// be trusted: that a fresh object of the kind doesn't is `RestoresSaved`.
    ghost refuses: { Self → List ℕ → Type 0 };

    /// The number of its kind. It takes no memory. Before any other call it says that the state is no longer than a
    /// state may be.
    fn kind(&self) -> u16
        ensures kind { result ≡ kind_of self.now }
        ensures bounded { length (state self.now) ≤ max_state_bytes };

    /// Begins its life with the arguments of a factory. `Nothing` is success.
    fn start(&mut self, args: &[Word]) -> HostAnswer
        ensures allowed { allows self.old (Start args.now) (state self.old) result
            (state self.new) }
        ensures same_kind { kind_of self.new ≡ kind_of self.old }
        ensures same_relation { SameRelation (allows self.old) (allows self.new) }
        ensures bounded { length (state self.new) ≤ max_state_bytes };

    /// Runs a method, or a function of a service, by its registered number.
    fn invoke(&mut self, method: u16, args: &[Word]) -> HostAnswer
        ensures allowed { allows self.old (Invoke method args.now) (state self.old) result
            (state self.new) }
        ensures same_kind { kind_of self.new ≡ kind_of self.old }
        ensures same_relation { SameRelation (allows self.old) (allows self.new) }
        ensures bounded { length (state self.new) ≤ max_state_bytes };

    /// The value of a property, by its registered number. It takes no memory.
    fn get(&self, prop: u16) -> Word
        ensures allowed { allows self.now (Get prop) (state self.now) (HostAnswer.Value result)
            (state self.now) };

    /// Writes a property, by its registered number. It takes no memory.
    fn set(&mut self, prop: u16, v: Word)
        ensures allowed { allows self.old (Set prop v) (state self.old) HostAnswer.Nothing
            (state self.new) }
        ensures same_kind { kind_of self.new ≡ kind_of self.old }
        ensures same_relation { SameRelation (allows self.old) (allows self.new) }
        ensures bounded { length (state self.new) ≤ max_state_bytes };

    /// Appends the state. Where memory runs out nothing is appended.
    fn save(&self, out: &mut Vec<u8>) -> Result<(), NoMemory>
        ensures saved { OnOk result (out.new.items ≡ out.old.items ++ state self.now) }
        ensures unchanged { OnErr result (out.new.items ≡ out.old.items) }
        ensures bounded { length (state self.now) ≤ max_state_bytes };

    /// Makes these bytes its state, or answers why not: `Refused`, only for bytes that it `refuses`, or `NoMemory`, for
    /// any bytes, since a kind may need memory to find them bad. It may take bytes that it `refuses`. After an error
    /// its state may be another one.
    fn restore(&mut self, bytes: &[u8]) -> Result<(), RestoreFault>
        ensures restored { OnOk result (state self.new ≡ bytes.now) }
        ensures refused { IsErrOf result RestoreFault.Refused → refuses self.old bytes.now }
        ensures same_kind { kind_of self.new ≡ kind_of self.old }
        ensures same_relation { SameRelation (allows self.old) (allows self.new) }
        ensures bounded { length (state self.new) ≤ max_state_bytes };
}

/// A boxed object is the object in the box.
impl HostObject for Box<dyn HostObject> {
    ghost kind_of = { λ b. (HostObject-box b).kind_of b.value };

    ghost state = { λ b. (HostObject-box b).state b.value };

    ghost allows = { λ b. (HostObject-box b).allows b.value };

    ghost refuses = { λ b. (HostObject-box b).refuses b.value };

    fn kind(&self) -> u16 {
        (**self).kind()
    }

    fn start(&mut self, args: &[Word]) -> HostAnswer {
        (**self).start(args)
    }

    fn invoke(&mut self, method: u16, args: &[Word]) -> HostAnswer {
        (**self).invoke(method, args)
    }

    fn get(&self, prop: u16) -> Word {
        (**self).get(prop)
    }

    fn set(&mut self, prop: u16, v: Word) {
        (**self).set(prop, v)
    }

    fn save(&self, out: &mut Vec<u8>) -> Result<(), NoMemory> {
        (**self).save(out)
    }

    fn restore(&mut self, bytes: &[u8]) -> Result<(), RestoreFault> {
        (**self).restore(bytes)
    }
}
