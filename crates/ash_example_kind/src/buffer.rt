//! A kind whose state grows: bytes that scripts append and take from the end.
ghost use Rattle.std.specs.Prelude.{◌≡◌, ◌<◌, ◌≤◌, ◌↔◌, [], ◌∷◌};
ghost use Rattle.std.specs.Prelude.{ℕ, List, length, vec_len, OnOk, IsErrOf};
ghost use Rattle.ash_host.specs.Calls.{Invoke, SameRelation};
ghost use Rattle.ash_host.specs.Limits.{max_state_bytes};
ghost use Rattle.ash_host.specs.Saved.{RestoresSaved};
ghost use Rattle.ash_host.specs.declared.word.Word.{Word};
ghost use Rattle.ash_example_kind.specs.Buffers.{AllowsBuffer};

use ash_host::{HostAnswer, HostObject, MAX_STATE_BYTES, NoMemory, RestoreFault, Word};
use std::alloc::Global;

/// Bytes that scripts append and take from the end. Method 1 `void put(int)` puts the low 8 bits of its
/// argument, and raises 1 where the buffer is full. Method 2 `int take()` takes the last byte, and raises 2 where
/// there is none. Property 1 `int length` is how many there are, and can't be written. Its factory takes no
/// arguments. Any other number or arguments answer `Nothing`, a property `Null`, and change nothing.
#[derive(Drop)]
pub struct Buffer {
    bytes: Vec<u8>,
    ghost bounded: { vec_len bytes ≤ max_state_bytes },
}

impl Buffer {
    /// The number of the kind.
    pub const KIND: u16 = 3;

    /// An empty buffer.
    pub fn new(alloc: Global) -> Buffer
        ensures kind { ⟦<Buffer as HostObject>⟧.kind_of result ≡ 3 }
        ensures empty { ⟦<Buffer as HostObject>⟧.state result ≡ [] }
        ensures refuses { (bytes : List ℕ)
            → ⟦<Buffer as HostObject>⟧.refuses result bytes ↔ (max_state_bytes < length bytes) }
        ensures restores { RestoresSaved ⟦<Buffer as HostObject>⟧ result }
        ensures exact { SameRelation (⟦<Buffer as HostObject>⟧.allows result) AllowsBuffer }
    {
        Buffer {
            bytes: Vec::new(alloc),
        }
    }

    // Method 1.
    fn put(&mut self, number: i32) -> HostAnswer
        ensures allows_buffer { AllowsBuffer (Invoke 1 (Word.Int number ∷ [])) self.old.bytes.items
            result
            self.new.bytes.items }
    {
        if self.bytes.len() == MAX_STATE_BYTES {
            return HostAnswer::Raise(1);
        }
        match self.bytes.push((number.cast_unsigned() % 256) as u8) {
            Ok(()) => HostAnswer::Nothing,
            Err(_) => HostAnswer::NoMemory,
        }
    }

    // Method 2.
    fn take(&mut self) -> HostAnswer
        ensures allows_buffer { AllowsBuffer (Invoke 2 []) self.old.bytes.items result
            self.new.bytes.items }
    {
        match self.bytes.pop() {
            Some(byte) => HostAnswer::Value(Word::Int(byte.into())),
            None => HostAnswer::Raise(2),
        }
    }
}

impl HostObject for Buffer {
    ghost kind_of = { λ _. 3 };

    ghost state = { λ buffer. buffer.bytes.items };

    ghost allows = { λ _. AllowsBuffer };

    ghost refuses = { λ _ bytes. max_state_bytes < length bytes };

    fn kind(&self) -> u16 {
        Buffer::KIND
    }

    fn start(&mut self, args: &[Word]) -> HostAnswer {
        if args.is_empty() {
            self.bytes.clear();
        }
        HostAnswer::Nothing
    }

    fn invoke(&mut self, method: u16, args: &[Word]) -> HostAnswer {
        match (method, args) {
            (1, [Word::Int(number)]) => self.put(*number),
            (2, []) => self.take(),
            _ => HostAnswer::Nothing,
        }
    }

    fn get(&self, prop: u16) -> Word {
        match prop {
            1 => Word::Int(self.bytes.len() as i32),
            _ => Word::Null,
        }
    }

    fn set(&mut self, _prop: u16, _v: Word) {}

    fn save(&self, out: &mut Vec<u8>) -> Result<(), NoMemory> {
        out.extend_from_slice(&self.bytes)?;
        Ok(())
    }

    fn restore(&mut self, bytes: &[u8]) -> Result<(), RestoreFault>
        ensures restored { OnOk result (self.new.bytes.items ≡ bytes.now) }
        ensures refused { IsErrOf result RestoreFault.Refused
            ↔ (max_state_bytes < length bytes.now) }
        ensures memory { IsErrOf result RestoreFault.NoMemory
            → max_state_bytes < length bytes.now → ⊥ }
    {
        if bytes.len() > MAX_STATE_BYTES {
            return Err(RestoreFault::Refused);
        }
        self.bytes.clear();
        self.bytes.extend_from_slice(bytes)?;
        Ok(())
    }
}
