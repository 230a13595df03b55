//! The kind Counter.
ghost use Rattle.std.specs.Prelude.{◌≡◌, ◌≢◌, ◌≤◌, ◌↔◌, [], ◌∷◌};
ghost use Rattle.std.specs.Prelude.{ℕ, List, pos, length, OnOk, IsErrOf};
ghost use Rattle.ash_host.specs.Calls.{Invoke, SameRelation};
ghost use Rattle.ash_host.specs.Limits.{max_state_bytes};
ghost use Rattle.ash_host.specs.Saved.{RestoresSaved};
ghost use Rattle.ash_host.specs.declared.word.Word.{Word};
ghost use Rattle.ash_host.specs.Ints.{int_bytes};
ghost use Rattle.ash_host.specs.Kinds.{AllowsByInt, counter_step};

use crate::int::{int_from_bytes, low_bits, save_int};
use crate::{HostAnswer, HostObject, NoMemory, RestoreFault, Word};

/// One `int` that scripts count with, 0 when made. Its factory sets it, method 1 `int add(int)` adds to it,
/// wrapping, method 2 `void fail(int)` raises with the low 16 bits of its argument, and property 1 is `int value`.
/// Any other number or arguments answer `Nothing`, a property `Null`, and change nothing.
#[derive(Drop)]
pub struct Counter {
    value: i32,
}

impl Counter {
    /// The number of the kind.
    pub const KIND: u16 = 1;

    /// A counter whose value is 0.
    pub fn new() -> Counter
        ensures kind { ⟦<Counter as HostObject>⟧.kind_of result ≡ 1 }
        ensures zero { ⟦<Counter as HostObject>⟧.state result ≡ int_bytes (pos 0) }
        ensures refuses { (bytes : List ℕ)
            → ⟦<Counter as HostObject>⟧.refuses result bytes ↔ (length bytes ≢ 4) }
        ensures restores { RestoresSaved ⟦<Counter as HostObject>⟧ result }
        ensures exact { SameRelation (⟦<Counter as HostObject>⟧.allows result)
            (AllowsByInt counter_step) }
    {
        Counter { value: 0 }
    }

    // Method 1 at one `int`.
    fn add(&mut self, number: i32) -> HostAnswer
        ensures allowed { AllowsByInt counter_step (Invoke 1 (Word.Int number ∷ []))
            (int_bytes self.old.value) result (int_bytes self.new.value) }
    {
        let sum = Word::Int(self.value).int_sum(Word::Int(number));
        self.value = sum.int();
        HostAnswer::Value(sum)
    }
}

impl HostObject for Counter {
    ghost kind_of = { λ _. 1 };

    ghost state = { λ counter. int_bytes counter.value };

    ghost allows = { λ _. AllowsByInt counter_step };

    ghost refuses = { λ _ bytes. length bytes ≢ 4 };

    fn kind(&self) -> u16 {
        Counter::KIND
    }

    fn start(&mut self, args: &[Word]) -> HostAnswer {
        if let [Word::Int(number)] = args {
            self.value = *number;
        }
        HostAnswer::Nothing
    }

    fn invoke(&mut self, method: u16, args: &[Word]) -> HostAnswer {
        match (method, args) {
            (1, [Word::Int(number)]) => self.add(*number),
            (2, [Word::Int(number)]) => HostAnswer::Raise(low_bits(*number)),
            _ => HostAnswer::Nothing,
        }
    }

    fn get(&self, prop: u16) -> Word {
        match prop {
            1 => Word::Int(self.value),
            _ => Word::Null,
        }
    }

    fn set(&mut self, prop: u16, v: Word) {
        if let (1, Word::Int(number)) = (prop, v) {
            self.value = number;
        }
    }

    fn save(&self, out: &mut Vec<u8>) -> Result<(), NoMemory> {
        save_int(self.value, out)
    }

    fn restore(&mut self, bytes: &[u8]) -> Result<(), RestoreFault>
        ensures restored { OnOk result (int_bytes self.new.value ≡ bytes.now) }
        ensures refused { IsErrOf result RestoreFault.Refused ↔ (length bytes.now ≢ 4) }
        ensures no_memory { IsErrOf result RestoreFault.NoMemory → ⊥ }
    {
        self.value = int_from_bytes(bytes).ok_or(RestoreFault::Refused)?;
        Ok(())
    }
}
