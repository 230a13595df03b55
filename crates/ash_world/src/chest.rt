//! A kind of the world's own: chests with a capacity.
ghost use Rattle.std.specs.Prelude.{◌≡◌, ◌≤◌, ◌↔◌, [], ◌∷◌, false};
ghost use Rattle.std.specs.Prelude.{ℕ, List, vec_len, OnOk, IsErrOf};
ghost use Rattle.ash.specs.Calls.{Start, Invoke, SameRelation};
ghost use Rattle.ash.specs.Saved.{RestoresSaved};
ghost use Rattle.ash.specs.declared.Word.{Word};
ghost use Rattle.ash_world.specs.Chests.{AllowsChest, byte_of, is_chest};

use ash::{HostAnswer, HostObject, NoMemory, RestoreFault, Word};
use std::alloc::Global;
use std::cell::Cell;
use std::rc::Rc;

/// Items that scripts put in and take out at the end, each a number from 0 to 255, and at most as many as its capacity.
///
/// Its factory takes the capacity, and raises 1 if that is no such number. Method 1 `void put(int)` raises 1 for a
/// number that is no item, and 2 if the chest is full. Method 2 `int take()` raises 3 if it is empty. Property 1 `int
/// count` is how many items there are, and property 2 `int capacity` how many there may be; neither can be written. Any
/// other number or arguments answer `Nothing`, a property `Null`, and change nothing.
#[derive(Drop)]
pub struct Chest {
    capacity: u8,
    items: Vec<u8>,
    /// How many items were put into the chests that share this. The program reads it; no store has it.
    puts: Rc<Cell<u32>>,
    ghost bounded: { vec_len items ≤ capacity },
    ghost short: { vec_len items ≤ 255 },
}

impl Chest {
    /// The number of the kind.
    pub const KIND: u16 = 4;

    /// A chest without room, until its factory says how much there is.
    pub fn new(alloc: Global, puts: Rc<Cell<u32>>) -> Chest
        ensures kind { ⟦<Chest as HostObject>⟧.kind_of result ≡ 4 }
        ensures empty { ⟦<Chest as HostObject>⟧.state result ≡ 0 ∷ [] }
        ensures refuses { (bytes : List ℕ)
            → ⟦<Chest as HostObject>⟧.refuses result bytes ↔ (is_chest bytes ≡ false) }
        ensures restores { RestoresSaved ⟦<Chest as HostObject>⟧ result }
        ensures exact { SameRelation (⟦<Chest as HostObject>⟧.allows result) AllowsChest }
    {
        Chest {
            capacity: 0,
            items: Vec::new(alloc),
            puts,
        }
    }

    // Its factory.
    fn make(&mut self, capacity: i32) -> HostAnswer
        ensures allowed { AllowsChest (Start (Word.Int capacity ∷ []))
            (self.old.capacity ∷ self.old.items.items) result
            (self.new.capacity ∷ self.new.items.items) }
    {
        let Some(capacity) = byte_of(capacity) else {
            return HostAnswer::Raise(1);
        };
        self.items.clear();
        self.capacity = capacity;
        HostAnswer::Nothing
    }

    // Method 1.
    fn put(&mut self, item: i32) -> HostAnswer
        ensures allowed { AllowsChest (Invoke 1 (Word.Int item ∷ []))
            (self.old.capacity ∷ self.old.items.items) result
            (self.new.capacity ∷ self.new.items.items) }
    {
        let Some(item) = byte_of(item) else {
            return HostAnswer::Raise(1);
        };
        if self.items.len() >= self.capacity.into() {
            return HostAnswer::Raise(2);
        }
        match self.items.push(item) {
            Ok(()) => {
                self.puts.set(self.puts.get().saturating_add(1));
                HostAnswer::Nothing
            }
            Err(_) => HostAnswer::NoMemory,
        }
    }

    // Method 2.
    fn take(&mut self) -> HostAnswer
        ensures allowed { AllowsChest (Invoke 2 []) (self.old.capacity ∷ self.old.items.items)
            result (self.new.capacity ∷ self.new.items.items) }
    {
        match self.items.pop() {
            Some(item) => HostAnswer::Value(Word::Int(item.into())),
            None => HostAnswer::Raise(3),
        }
    }
}

/// The byte that a number is, if it is one.
fn byte_of(number: i32) -> Option<u8>
    ensures byte { result ≡ byte_of number }
{
    if number < 0 || number > 255 {
        None
    } else {
        Some(number as u8)
    }
}

impl HostObject for Chest {
    ghost kind_of = { λ _. 4 };

    ghost state = { λ chest. chest.capacity ∷ chest.items.items };

    ghost allows = { λ _. AllowsChest };

    ghost refuses = { λ _ bytes. is_chest bytes ≡ false };

    fn kind(&self) -> u16 {
        Chest::KIND
    }

    fn start(&mut self, args: &[Word]) -> HostAnswer {
        match args {
            [Word::Int(capacity)] => self.make(*capacity),
            _ => HostAnswer::Nothing,
        }
    }

    fn invoke(&mut self, method: u16, args: &[Word]) -> HostAnswer {
        match (method, args) {
            (1, [Word::Int(item)]) => self.put(*item),
            (2, []) => self.take(),
            _ => HostAnswer::Nothing,
        }
    }

    fn get(&self, prop: u16) -> Word {
        match prop {
            1 => Word::Int(self.items.len() as i32),
            2 => Word::Int(self.capacity.into()),
            _ => Word::Null,
        }
    }

    fn set(&mut self, _prop: u16, _v: Word) {}

    fn save(&self, out: &mut Vec<u8>) -> Result<(), NoMemory> {
        out.try_reserve(self.items.len() + 1)?;
        out.push(self.capacity)?;
        out.extend_from_slice(&self.items)?;
        Ok(())
    }

    fn restore(&mut self, bytes: &[u8]) -> Result<(), RestoreFault>
        ensures restored { OnOk result (self.new.capacity ∷ self.new.items.items ≡ bytes.now) }
        ensures refused { IsErrOf result RestoreFault.Refused ↔ (is_chest bytes.now ≡ false) }
    {
        let Some((capacity, items)) = bytes.split_first() else {
            return Err(RestoreFault::Refused);
        };
        if items.len() > (*capacity).into() {
            return Err(RestoreFault::Refused);
        }
        self.items.clear();
        self.capacity = *capacity;
        self.items.extend_from_slice(items)?;
        Ok(())
    }
}
