//! How many handles to each object a state has.

use ash_host::Word;
use ash_image::stored::{StoredState, words_of};
use std::alloc::{AllocError, Global};
use std::collections::BTreeMap;

/// How many handles to each object are held in globals, fields and elements, by the object's number.
#[derive(Drop)]
pub struct Handles {
    counts: BTreeMap<u64, u64>,
}

impl Handles {
    /// The handles of a state.
    pub fn of(alloc: Global, state: &StoredState) -> Result<Handles, AllocError> {
        let mut handles = Handles {
            counts: BTreeMap::new(alloc),
        };
        handles.add_globals(state)?;
        handles.add_members(state)?;
        Ok(handles)
    }

    fn add_globals(&mut self, state: &StoredState) -> Result<(), AllocError> {
        for module in &state.modules {
            self.add(&module.globals)?;
        }
        Ok(())
    }

    fn add_members(&mut self, state: &StoredState) -> Result<(), AllocError> {
        for object in &state.objects {
            self.add(words_of(&object.body))?;
        }
        Ok(())
    }

    /// Counts the handles among words.
    fn add(&mut self, words: &[Word]) -> Result<(), AllocError> {
        for word in words {
            if let Word::Object(number) = word {
                let count = self.counts.entry(*number)?.or_insert(0);
                *count = count.saturating_add(1);
            }
        }
        Ok(())
    }

    /// How many handles there are to an object.
    pub fn count(&self, number: u64) -> u64 {
        match self.counts.get(&number) {
            Some(count) => *count,
            None => 0,
        }
    }
}
