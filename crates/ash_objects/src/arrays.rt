//! Calls of arrays.
ghost use Rattle.std.specs.Prelude.{◌≡◌, ◌<◌, ◌≤◌, ◌-◌, ◌++◌, ◌∷◌, ◌↔◌, ℕ, []};
ghost use Rattle.std.specs.Prelude.{take, length, slice_get, Some, IsSome};
ghost use Rattle.std.specs.Prelude.{IfSome, OnOk, OnErr, IsErrOf};
ghost use Rattle.ash_objects.specs.declared.arrays.LengthFault.{LengthFault};
ghost use Rattle.ash_host.specs.Objects.{IsInOrder};
ghost use Rattle.ash_objects.specs.Table.{slot_of, IsAlive, with_object, with_field};
ghost use Rattle.ash_host.specs.Limits.{max_elements};
ghost use Rattle.ash_objects.specs.Arrays.{elements_at, array_at, HasElementsIn};
ghost use Rattle.ash_objects.specs.Arrays.{IsArrayOfTable, with_elements};
ghost use Rattle.ash_slots.specs.SlotArrays.{lengthened};

use crate::counting::release_words;
use crate::objects::Objects;
use ash_host::{MAX_ELEMENTS, NoMemory, Word};
use ash_slots::{Body, grow_elements, set_elements, take_elements};
use thiserror::Error;

/// An index is not below the length of an array.
#[derive(Clone, Copy, Debug, PartialEq, Eq, Error)]
#[error("the index is not below the length of the array")]
pub struct IndexOutOfBounds;

/// Why an array does not get a length.
#[derive(Clone, Copy, Debug, PartialEq, Eq, Error)]
pub enum LengthFault {
    /// It would have more elements than it may.
    #[error("the array would have more elements than it may")]
    TooLong,
    /// Memory ran out.
    #[error("memory was refused")]
    NoMemory,
}

impl<B> Objects<B> {
    // The elements of the array in a slot, in order.
    fn elements(&self, slot: usize) -> &[Word]
        requires has_elements_in { HasElementsIn slot self.now }
        ensures value { (number : ℕ) → slot_of number self.now ≡ Some slot
            → elements_at number self.now
            ≡ Some result.now }
    {
        match &self.store.item(slot).body {
            Body::Array(array) => array.elements.as_slice(),
            Body::Script(_) => unreachable!(),
            Body::Host(_) => unreachable!(),
        }
    }

    /// How many elements the array in a slot has. It takes no memory.
    pub fn length_at(&self, slot: usize) -> usize
        requires array { HasElementsIn slot self.now }
        ensures length { (number : ℕ) → slot_of number self.now ≡ Some slot
            → IfSome (elements_at number self.now) (λ elements. result ≡ length elements) }
    {
        self.elements(slot).len()
    }

    /// How many elements an array has. It takes no memory.
    pub fn length(&self, number: u64) -> usize
        requires array { IsSome (elements_at number self.now) }
        ensures length { IfSome (elements_at number self.now)
            (λ elements. result ≡ length elements) }
    {
        let Some(slot) = self.slot(number) else {
            unreachable!()
        };
        self.length_at(slot)
    }

    /// The element of the array in a slot at an index, if there is one. It takes no memory.
    pub fn element_at(&self, slot: usize, index: usize) -> Option<Word>
        requires array { HasElementsIn slot self.now }
        ensures element { (number : ℕ) → slot_of number self.now ≡ Some slot
            → IfSome (elements_at number self.now) (λ elements. result ≡ slice_get elements index) }
    {
        self.elements(slot).get(index).copied()
    }

    /// The element of an array at an index, if there is one. It takes no memory.
    pub fn element(&self, number: u64, index: usize) -> Option<Word>
        requires array { IsSome (elements_at number self.now) }
        ensures element { IfSome (elements_at number self.now)
            (λ elements. result ≡ slice_get elements index) }
    {
        let Some(slot) = self.slot(number) else {
            unreachable!()
        };
        self.element_at(slot, index)
    }

    /// Writes the element of the array in a slot at an index. It takes no memory.
    pub fn set_element_at(
        &mut self,
        slot: usize,
        index: usize,
        word: Word,
    ) -> Result<(), IndexOutOfBounds>
        requires array { HasElementsIn slot self.old }
        requires alive { IsAlive word self.old }
        ensures within { OnOk result ((number : ℕ) → slot_of number self.old ≡ Some slot
            → IfSome (elements_at number self.old) (λ elements. index < length elements)) }
        ensures outside { OnErr result ((number : ℕ) → slot_of number self.old ≡ Some slot
            → IfSome (elements_at number self.old) (λ elements. length elements ≤ index)) }
        ensures written { OnOk result ((number : ℕ) → slot_of number self.old ≡ Some slot
            → self.new ≡ with_object number (with_field index word) self.old) }
        ensures unchanged { OnErr result (self.new ≡ self.old) }
    {
        if index >= self.length_at(slot) {
            return Err(IndexOutOfBounds);
        }
        self.set_field_at(slot, index, word);
        Ok(())
    }

    /// Writes the element of an array at an index. It takes no memory.
    pub fn set_element(
        &mut self,
        number: u64,
        index: usize,
        word: Word,
    ) -> Result<(), IndexOutOfBounds>
        requires array { IsSome (elements_at number self.old) }
        requires alive { IsAlive word self.old }
        ensures within { OnOk result (IfSome (elements_at number self.old)
            (λ elements. index < length elements)) }
        ensures outside { OnErr result (IfSome (elements_at number self.old)
            (λ elements. length elements ≤ index)) }
        ensures written { OnOk result
            (self.new ≡ with_object number (with_field index word) self.old) }
        ensures unchanged { OnErr result (self.new ≡ self.old) }
    {
        let Some(slot) = self.slot(number) else {
            unreachable!()
        };
        self.set_element_at(slot, index, word)
    }

    // Appends the initial value of its elements to the array in a slot until there are so many.
    fn lengthen(&mut self, slot: usize, len: usize) -> Result<(), NoMemory>
        requires array { IsArrayOfTable slot self.old }
        requires short { len ≤ max_elements }
        ensures lengthened { OnOk result ((number : ℕ) → slot_of number self.old ≡ Some slot
            → IfSome (array_at number self.old) (λ array. self.new
            ≡ with_object number (with_elements (lengthened len array)) self.old)) }
        ensures unchanged { OnErr result (self.new ≡ self.old) }
        ensures in_order { IsInOrder self.old.objects }
    {
        grow_elements(&mut self.store, slot, len)?;
        self.marks.mark(slot);
        Ok(())
    }

    // Cuts the elements of the array in a slot off from a length on, and gives up what they hold.
    fn shorten(&mut self, slot: usize, len: usize)
        requires array_of_table { IsArrayOfTable slot self.old }
        ensures effect { (number : ℕ) → slot_of number self.old ≡ Some slot
            → IfSome (array_at number self.old) (λ array. self.new
            ≡ with_object number (with_elements (take len array.elements)) self.old) }
    {
        let mut words = take_elements(&mut self.store, slot);
        release_words(&mut self.store, words.suffix(len));
        words.truncate(len);
        set_elements(&mut self.store, slot, words);
        self.marks.mark(slot);
    }

    /// Gives the array in a slot a length: what is beyond it goes, and what it holds is counted once less for each
    /// element that held it; what is added is zero or null. It takes memory only where the array has fewer elements.
    pub fn resize_at(&mut self, slot: usize, len: usize) -> Result<(), LengthFault>
        requires array { IsArrayOfTable slot self.old }
        ensures long { IsErrOf result LengthFault.TooLong ↔ (max_elements < len) }
        ensures shorter { OnOk result ((number : ℕ) → slot_of number self.old ≡ Some slot
            → IfSome (array_at number self.old) (λ array. len ≤ length array.elements
            → self.new ≡ with_object number (with_elements (take len array.elements)) self.old)) }
        ensures longer { OnOk result ((number : ℕ) → slot_of number self.old ≡ Some slot
            → IfSome (array_at number self.old) (λ array. length array.elements < len
            → self.new ≡ with_object number (with_elements (lengthened len array)) self.old)) }
        ensures memory { IsErrOf result LengthFault.NoMemory → (number : ℕ)
            → slot_of number self.old ≡ Some slot → IfSome (array_at number self.old)
            (λ array. length array.elements < len) }
        ensures unchanged { OnErr result (self.new ≡ self.old) }
    {
        if len > MAX_ELEMENTS {
            return Err(LengthFault::TooLong);
        }
        if len <= self.length_at(slot) {
            self.shorten(slot, len);
            return Ok(());
        }
        match self.lengthen(slot, len) {
            Ok(()) => Ok(()),
            Err(_) => Err(LengthFault::NoMemory),
        }
    }

    /// Gives an array a length: what is beyond it goes, and what it holds is counted once less for each element that
    /// held it; what is added is zero or null. It takes memory only where the array has fewer elements.
    pub fn resize(&mut self, number: u64, len: usize) -> Result<(), LengthFault>
        requires array { IsSome (array_at number self.old) }
        ensures long { IsErrOf result LengthFault.TooLong ↔ (max_elements < len) }
        ensures shorter { OnOk result (IfSome (array_at number self.old)
            (λ array. len ≤ length array.elements
            → self.new ≡ with_object number (with_elements (take len array.elements)) self.old)) }
        ensures longer { OnOk result (IfSome (array_at number self.old)
            (λ array. length array.elements < len
            → self.new ≡ with_object number (with_elements (lengthened len array)) self.old)) }
        ensures memory { IsErrOf result LengthFault.NoMemory
            → IfSome (array_at number self.old) (λ array. length array.elements < len) }
        ensures unchanged { OnErr result (self.new ≡ self.old) }
    {
        let Some(slot) = self.slot(number) else {
            unreachable!()
        };
        self.resize_at(slot, len)
    }

    /// Appends an element to the array in a slot. What it is a handle to is counted once more.
    pub fn insert_last_at(&mut self, slot: usize, word: Word) -> Result<(), LengthFault>
        requires array { IsArrayOfTable slot self.old }
        requires alive { IsAlive word self.old }
        ensures long { (number : ℕ) → slot_of number self.old ≡ Some slot
            → IfSome (array_at number self.old) (λ array. IsErrOf result LengthFault.TooLong
            ↔ (max_elements ≤ length array.elements)) }
        ensures inserted { OnOk result ((number : ℕ) → slot_of number self.old ≡ Some slot
            → IfSome (array_at number self.old) (λ array. self.new
            ≡ with_object number (with_elements (array.elements ++ word ∷ [])) self.old)) }
        ensures unchanged { OnErr result (self.new ≡ self.old) }
    {
        let last = self.length_at(slot);
        if last >= MAX_ELEMENTS {
            return Err(LengthFault::TooLong);
        }
        let Ok(()) = self.lengthen(slot, last + 1) else {
            return Err(LengthFault::NoMemory);
        };
        self.set_field_at(slot, last, word);
        Ok(())
    }

    /// Appends an element to an array. What it is a handle to is counted once more.
    pub fn insert_last(&mut self, number: u64, word: Word) -> Result<(), LengthFault>
        requires array { IsSome (array_at number self.old) }
        requires alive { IsAlive word self.old }
        ensures long { IsErrOf result LengthFault.TooLong
            ↔ IfSome (array_at number self.old) (λ array. max_elements ≤ length array.elements) }
        ensures inserted { OnOk result (IfSome (array_at number self.old) (λ array. self.new
            ≡ with_object number (with_elements (array.elements ++ word ∷ [])) self.old)) }
        ensures unchanged { OnErr result (self.new ≡ self.old) }
    {
        let Some(slot) = self.slot(number) else {
            unreachable!()
        };
        self.insert_last_at(slot, word)
    }

    /// Takes the last element of the array in a slot away. What it held is counted once less. It takes no memory.
    pub fn remove_last_at(&mut self, slot: usize) -> Result<(), IndexOutOfBounds>
        requires array { IsArrayOfTable slot self.old }
        ensures empty { OnErr result ((number : ℕ) → slot_of number self.old ≡ Some slot
            → IfSome (array_at number self.old) (λ array. length array.elements ≡ 0)) }
        ensures some { OnOk result ((number : ℕ) → slot_of number self.old ≡ Some slot
            → IfSome (array_at number self.old) (λ array. 0 < length array.elements)) }
        ensures removed { OnOk result ((number : ℕ) → slot_of number self.old ≡ Some slot
            → IfSome (array_at number self.old)
            (λ array. self.new ≡ with_object number
            (with_elements (take (length array.elements - 1) array.elements)) self.old)) }
        ensures unchanged { OnErr result (self.new ≡ self.old) }
    {
        let Some(last) = self.length_at(slot).checked_sub(1) else {
            return Err(IndexOutOfBounds);
        };
        self.shorten(slot, last);
        Ok(())
    }

    /// Takes the last element of an array away. What it held is counted once less. It takes no memory.
    pub fn remove_last(&mut self, number: u64) -> Result<(), IndexOutOfBounds>
        requires array { IsSome (array_at number self.old) }
        ensures empty { OnErr result (IfSome (array_at number self.old)
            (λ array. length array.elements ≡ 0)) }
        ensures some { OnOk result (IfSome (array_at number self.old)
            (λ array. 0 < length array.elements)) }
        ensures removed { OnOk result (IfSome (array_at number self.old)
            (λ array. self.new ≡ with_object number
            (with_elements (take (length array.elements - 1) array.elements)) self.old)) }
        ensures unchanged { OnErr result (self.new ≡ self.old) }
    {
        let Some(slot) = self.slot(number) else {
            unreachable!()
        };
        self.remove_last_at(slot)
    }
}
