//! Arrays.
ghost use Rattle.std.specs.Prelude.{◌≡◌, ◌∷◌, ◌-◌, [], All, ℕ, OnOk, OnErr, IfOk};
ghost use Rattle.std.specs.Prelude.{is_some, IsSome, IsErrOf};
ghost use Rattle.std.specs.Prelude.{length, drop, ◌+◌, ◌<◌, ◌^◌};
ghost use Rattle.ash_host.specs.Objects.{handles, Lives};
ghost use Rattle.ash_meaning.specs.ArraySteps.{natural_of, resize};
ghost use Rattle.ash_objects.specs.Arrays.{array_at};
ghost use Rattle.ash_objects.specs.Table.{holds_of};
ghost use Rattle.ash_object_ranks.specs.ShownTables.{elements_shown};
ghost use Rattle.ash_run_steps.specs.ArrayGuards.{element_at, construct_array};
ghost use Rattle.ash_run_steps.specs.ArrayGuards.{array_length, array_is_empty};
ghost use Rattle.ash_run_steps.specs.ArrayGuards.{resize_array, insert_last, remove_last};
ghost use Rattle.ash_run_steps.specs.Becoming.{Comes, Becomes};
ghost use Rattle.ash_run_steps.specs.Guarded.{give, plain};
ghost use Rattle.ash_run_steps.specs.Keeping.{keeping};
ghost use Rattle.ash_run_steps.specs.PartSteps.{words_at};
ghost use Rattle.ash_run_steps.specs.RunStates.{Names, HoldsMore};
ghost use Rattle.ash_run_steps.specs.declared.stop.Stop.{Stop};

use crate::counting::{handle, hold_word, is_alive};
use crate::holding::push_handle;
use crate::parts::words_at;
use crate::state::RunState;
use crate::stop::Stop;
use ash_host::{HostObject, Word};
use ash_integers::number;
use ash_meaning::Exception;
use ash_objects::{Body, ElementTag, LengthFault, MAX_ELEMENTS, Objects};

/// An element of an array that is there: the array's number, and the index.
#[derive(Clone, Copy, Debug)]
pub struct Element {
    /// The number of the array.
    pub number: u64,
    /// The index.
    pub place: usize,
}

impl From<LengthFault> for Stop {
    ghost use Rattle.std.specs.Prelude.{◌≡◌};
    ghost use Rattle.ash_run_steps.specs.ArrayGuards.{stop_of_length};

    ghost from_gives = { λ fault stop. stop ≡ stop_of_length fault };

    fn from(fault: LengthFault) -> Stop {
        match fault {
            LengthFault::TooLong => Stop::Raised(Exception::ArrayLimit),
            LengthFault::NoMemory => Stop::NoMemory,
        }
    }
}

/// The number that an index or a length is.
fn natural_of(word: Word) -> u64
    ensures natural { result ≡ natural_of word }
{
    let number = number(word);
    if number < 0 {
        (0 - number) as u64
    } else {
        number as u64
    }
}

/// Whether an array lives by this number.
fn is_array<B>(table: &Objects<B>, number: u64) -> bool
    ensures array { result ≡ is_some (array_at number table.now) }
{
    match table.body(number) {
        Some(Body::Array(_)) => true,
        _ => false,
    }
}

/// The words of an object from a place on.
fn words_from<B>(table: &Objects<B>, number: u64, place: usize) -> &[Word]
    ensures words { result.now ≡ drop place (words_at number table.now) }
{
    match words_at(table, number).get(place..) {
        Some(words) => words,
        None => &[],
    }
}

/// The numbers from a place on.
pub(crate) fn numbers_from(numbers: &[u64], place: usize) -> &[u64]
    ensures numbers { result.now ≡ drop place numbers.now }
{
    match numbers.get(place..) {
        Some(numbers) => numbers,
        None => &[],
    }
}

/// Holds these objects once more for each time that they are among them.
#[inline(always)]
pub fn hold_numbers<B: HostObject>(table: &mut Objects<B>, numbers: &[u64])
    requires alive { All (Lives table.old.objects) numbers.now }
    requires few { (number : ℕ) → holds_of number table.old + length numbers.now < 2 ^ 127 }
    ensures held { HoldsMore numbers.now table.old table.new }
{
    for number in numbers {
        table.hold(*number);
    }
}

impl<B: HostObject> RunState<B> {
    /// The element of an array by an index: first null is tested, then the index.
    pub fn element_at(&self, array: Word, index: Word) -> Result<Element, Stop>
        ensures element { (names : Names) → Comes B.HostObject names (element_at array index) self.now
            result self.now }
        ensures memory { IsErrOf result Stop.NoMemory → ⊥ }
    {
        let Some(number) = handle(array) else {
            return Err(Stop::Raised(Exception::NullPointerAccess));
        };
        let place = natural_of(index) as usize;
        if place >= words_at(&self.table, number).len() {
            return Err(Stop::Raised(Exception::IndexOutOfBounds));
        }
        Ok(Element { number, place })
    }

    /// How many elements an array has.
    pub fn array_length(&self, number: u64) -> Word
        ensures length { (names : Names) → Becomes B.HostObject names (array_length number) self.now
            (give result) self.now }
    {
        self.table.facts();
        Word::Uint(words_at(&self.table, number).len() as u32)
    }

    /// Whether an array has no elements.
    pub fn array_is_empty(&self, number: u64) -> Word
        ensures empty { (names : Names) → Becomes B.HostObject names (array_is_empty number) self.now
            (give result) self.now }
    {
        Word::Bool(words_at(&self.table, number).is_empty())
    }

    /// Constructs an array of so many elements, each zero or null. The frame holds it. If none is made nothing
    /// changes.
    pub fn construct_array(&mut self, element: ElementTag, count: Word) -> Result<Word, Stop>
        ensures constructed { (names : Names) → Comes B.HostObject names
            (construct_array (elements_shown names.modules element) count) self.old result self.new }
        ensures frames { IfOk result (λ word. self.new.frames
            ≡ keeping (handles (word ∷ [])) self.old.frames) }
        ensures unchanged { OnErr result (self.new ≡ self.old) }
    {
        self.table.facts();
        self.stack.push_held(0)?;
        match self.table.new_array(element, natural_of(count) as usize) {
            Ok(number) => {
                self.stack.set_latest_held(number);
                self.table.hold(number);
                Ok(Word::Object(number))
            }
            Err(fault) => {
                self.stack.drop_latest_held();
                Err(Stop::from(fault))
            }
        }
    }

    /// Gives an array so many elements. What is taken away is held until the full expression ends, and what is added
    /// is zero or null. If the array doesn't get them nothing changes.
    pub fn resize_array(&mut self, number: u64, count: Word) -> Result<(), Stop>
        ensures resized { (names : Names) → Comes B.HostObject names (resize_array number count) self.old
            result self.new }
        ensures frames { OnOk result (self.new.frames ≡ keeping (handles
            (drop (natural_of count) (words_at number self.old.table))) self.old.frames) }
        ensures unchanged { OnErr result (self.new ≡ self.old) }
    {
        if !is_array(&self.table, number) {
            return Err(Stop::Unsound);
        }
        let count = natural_of(count);
        if count > MAX_ELEMENTS as u64 {
            return Err(Stop::Raised(Exception::ArrayLimit));
        }
        let len = count as usize;
        if len < words_at(&self.table, number).len() {
            return self.shorten(number, len);
        }
        self.table.facts();
        self.table.resize(number, len)?;
        Ok(())
    }

    // Takes the elements of an array from a length on away.
    fn shorten(&mut self, number: u64, len: usize) -> Result<(), Stop>
        requires array { IsSome (array_at number self.old.table) }
        requires fewer { len < length (words_at number self.old.table) }
        ensures shortened { (names : Names) → Comes B.HostObject names (plain (resize number len)) self.old
            result self.new }
        ensures frames { OnOk result (self.new.frames
            ≡ keeping (handles (drop len (words_at number self.old.table))) self.old.frames) }
        ensures unchanged { OnErr result (self.new ≡ self.old) }
    {
        self.table.facts();
        self.stack.facts();
        let before = self.stack.held().len();
        self.stack
            .push_handles(words_from(&self.table, number, len))?;
        let Ok(()) = self.table.resize(number, len) else {
            unreachable!()
        };
        hold_numbers(&mut self.table, numbers_from(self.stack.held(), before));
        Ok(())
    }

    /// Appends an element to an array. If it doesn't get it nothing changes.
    pub fn insert_last(&mut self, number: u64, word: Word) -> Result<(), Stop>
        ensures inserted { (names : Names) → Comes B.HostObject names (insert_last number word) self.old
            result self.new }
        ensures frames { self.new.frames ≡ self.old.frames }
        ensures unchanged { OnErr result (self.new ≡ self.old) }
    {
        if !is_array(&self.table, number) {
            return Err(Stop::Unsound);
        }
        if !is_alive(&self.table, word) {
            return Err(Stop::Unsound);
        }
        self.table.facts();
        self.table.insert_last(number, word)?;
        Ok(())
    }

    /// Takes the last element of an array away. It is held until the full expression ends. If there is none nothing
    /// changes.
    pub fn remove_last(&mut self, number: u64) -> Result<(), Stop>
        ensures removed { (names : Names) → Comes B.HostObject names (remove_last number) self.old
            result self.new }
        ensures frames { OnOk result (self.new.frames ≡ keeping (handles
            (drop (length (words_at number self.old.table) - 1) (words_at number self.old.table)))
            self.old.frames) }
        ensures unchanged { OnErr result (self.new ≡ self.old) }
    {
        if !is_array(&self.table, number) {
            return Err(Stop::Unsound);
        }
        let words = words_at(&self.table, number);
        let Some(last) = words.len().checked_sub(1) else {
            return Err(Stop::Raised(Exception::IndexOutOfBounds));
        };
        let word = words[last];
        self.table.facts();
        self.stack.facts();
        push_handle(&mut self.stack, word)?;
        let Ok(()) = self.table.remove_last(number) else {
            unreachable!()
        };
        hold_word(&mut self.table, word);
        Ok(())
    }
}
