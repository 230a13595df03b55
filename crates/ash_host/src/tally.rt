//! The kind Tally, a service.
ghost use Rattle.std.specs.Prelude.{◌≡◌, ◌≢◌, ◌≤◌, ◌↔◌, [], ◌∷◌};
ghost use Rattle.std.specs.Prelude.{ℕ, List, pos, length, OnOk, IsErrOf};
ghost use Rattle.ash_host.specs.Calls.{Invoke, SameRelation};
ghost use Rattle.ash_host.specs.Limits.{max_state_bytes};
ghost use Rattle.ash_host.specs.Saved.{RestoresSaved};
ghost use Rattle.ash_host.specs.declared.word.Word.{Word};
ghost use Rattle.ash_host.specs.Ints.{int_bytes};
ghost use Rattle.ash_host.specs.Kinds.{AllowsByInt, tally_step};

use crate::int::{int_from_bytes, save_int};
use crate::{HostAnswer, HostObject, NoMemory, RestoreFault, Word};

/// A total that scripts add to, one `int`, 0 when made. Function 1 `int tally(int)` adds to it, wrapping, and
/// answers the total, and function 2 `int total()` answers it. Any other number or arguments answer `Nothing`, a
/// property `Null`, and change nothing.
#[derive(Drop)]
pub struct Tally {
    total: i32,
}

impl Tally {
    /// The number of the kind.
    pub const KIND: u16 = 2;

    /// A tally whose total is 0.
    pub fn new() -> Tally
        ensures kind { ⟦<Tally as HostObject>⟧.kind_of result ≡ 2 }
        ensures zero { ⟦<Tally as HostObject>⟧.state result ≡ int_bytes (pos 0) }
        ensures refuses { (bytes : List ℕ)
            → ⟦<Tally as HostObject>⟧.refuses result bytes ↔ (length bytes ≢ 4) }
        ensures restores { RestoresSaved ⟦<Tally as HostObject>⟧ result }
        ensures exact { SameRelation (⟦<Tally as HostObject>⟧.allows result)
            (AllowsByInt tally_step) }
    {
        Tally { total: 0 }
    }

    // Method 1 at one `int`.
    fn add(&mut self, number: i32) -> HostAnswer
        ensures allowed { AllowsByInt tally_step (Invoke 1 (Word.Int number ∷ []))
            (int_bytes self.old.total) result (int_bytes self.new.total) }
    {
        let sum = Word::Int(self.total).int_sum(Word::Int(number));
        self.total = sum.int();
        HostAnswer::Value(sum)
    }
}

impl HostObject for Tally {
    ghost kind_of = { λ _. 2 };

    ghost state = { λ tally. int_bytes tally.total };

    ghost allows = { λ _. AllowsByInt tally_step };

    ghost refuses = { λ _ bytes. length bytes ≢ 4 };

    fn kind(&self) -> u16 {
        Tally::KIND
    }

    fn start(&mut self, _args: &[Word]) -> HostAnswer {
        HostAnswer::Nothing
    }

    fn invoke(&mut self, method: u16, args: &[Word]) -> HostAnswer {
        match (method, args) {
            (1, [Word::Int(number)]) => self.add(*number),
            (2, []) => HostAnswer::Value(Word::Int(self.total)),
            _ => HostAnswer::Nothing,
        }
    }

    fn get(&self, _prop: u16) -> Word {
        Word::Null
    }

    fn set(&mut self, _prop: u16, _v: Word) {}

    fn save(&self, out: &mut Vec<u8>) -> Result<(), NoMemory> {
        save_int(self.total, out)
    }

    fn restore(&mut self, bytes: &[u8]) -> Result<(), RestoreFault>
        ensures restored { OnOk result (int_bytes self.new.total ≡ bytes.now) }
        ensures refused { IsErrOf result RestoreFault.Refused ↔ (length bytes.now ≢ 4) }
        ensures no_memory { IsErrOf result RestoreFault.NoMemory → ⊥ }
    {
        self.total = int_from_bytes(bytes).ok_or(RestoreFault::Refused)?;
        Ok(())
    }
}
