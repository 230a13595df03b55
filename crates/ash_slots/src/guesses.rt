//! Where to look first for an object of a number.

use std::alloc::{AllocError, Global};

/// How many guesses there are.
const GUESSES: usize = 4096;

/// By the last bits of a number, the slot that was remembered last for a number with these bits.
///
/// Another object may be in it, or none: whoever guesses looks there, and believes what it finds.
#[derive(Drop)]
pub struct Guesses {
    /// None before the first number, and then `GUESSES`.
    slots: Vec<u16>,
}

impl Guesses {
    /// No guesses. It takes no memory.
    pub fn new(alloc: Global) -> Guesses {
        Guesses {
            slots: Vec::new(alloc),
        }
    }

    /// Makes room for all guesses, if there is none.
    pub fn reserve_all(&mut self) -> Result<(), AllocError> {
        if self.slots.is_empty() {
            self.slots.resize(GUESSES, 0)?;
        }
        Ok(())
    }

    /// The slot to look into first. It takes no memory.
    #[inline(always)]
    pub fn guess(&self, number: u64) -> usize {
        match self.slots.get((number % GUESSES as u64) as usize) {
            Some(slot) => *slot as usize,
            None => 0,
        }
    }

    /// Remembers the slot of a number, if 16 bits hold it. It takes no memory.
    pub fn remember(&mut self, number: u64, slot: usize) {
        let Ok(slot) = u16::try_from(slot) else {
            return;
        };
        if let Some(guess) = self.slots.get_mut((number % GUESSES as u64) as usize) {
            *guess = slot;
        }
    }
}
