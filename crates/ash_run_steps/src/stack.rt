//! The frames of a run, over one stack of words and one list of held objects.
ghost use Rattle.std.specs.Prelude.{◌≡◌, ◌<◌, ◌≤◌, ◌+◌, ◌^◌, [], ◌∷◌, ◌++◌, length, take, drop, reverse};
ghost use Rattle.std.specs.Prelude.{ℕ, List, OnOk, OnErr, IfOk, slice_set, slice_get, Some, None, IsTrue, false, not};
ghost use Rattle.ash_host.specs.Objects.{handles};
ghost use Rattle.ash_host.specs.declared.word.Word.TheVariants as words;
ghost use Rattle.ash_run_steps.specs.Deferred.{held_by, held_below};
ghost use Rattle.ash_run_steps.specs.FrameChanges.{beginning, beginning_over, in_running, letting_go, holding, leaving};
ghost use Rattle.ash_run_steps.specs.PlainStrips.{scope_in, KeepsScope};
ghost use Rattle.ash_run_steps.specs.Stacks.{StackFrame, with_slots, locals_of, roots_of_frames};

use crate::arrays::numbers_from;
use crate::counting::handle;
use crate::plain::{PlainRun, PlainRunner, Spot};
use ash_host::{HostObject, NoMemory, Word};
use ash_objects::Objects;
use std::alloc::Global;
use std::marker::Model;

/// Where a frame is on the stack, and what it has beside its slots and the objects that it holds.
#[derive(Clone, Copy, Drop)]
struct Frame {
    function: usize,
    line: u32,
    this: Word,
    /// The instruction that its caller goes on from.
    back: usize,
    /// The index of its first slot.
    base: usize,
    /// How many of its slots are locals.
    count: usize,
    /// How many objects the frames below it hold.
    mark: usize,
}

/// The frames of a run. The slots of a frame end where those of the frame above begin; those of the frame that runs
/// end with the stack.
#[derive(Drop)]
pub struct Stack {
    slots: Vec<Word>,
    held: Vec<u64>,
    frame: Frame,
    /// The nearest is the last.
    callers: Vec<Frame>,
}

impl Model for Stack {
    ghost use Rattle.std.specs.Prelude.{◌+◌, ◌≤◌, length, reverse};
    ghost use Rattle.ash_run_steps.specs.Stacks.{Frames, seen_on, AreStacked};

    ghost Value = { Frames };

    ghost view = { λ s. seen_on s.frame s.callers.items s.slots.items s.held.items };

    ghost invariant = { λ s. (s.frame.base + s.frame.count ≤ length s.slots.items)
        × (s.frame.mark ≤ length s.held.items)
        × AreStacked (reverse s.callers.items) s.frame.base s.frame.mark };
}

// Appends what these words are handles to, the last of them first.
fn append_handles(held: &mut Vec<u64>, words: &[Word]) -> Result<(), NoMemory>
    ensures held { OnOk result (held.new.items ≡ held.old.items ++ reverse (handles words.now)) }
    ensures unchanged { OnErr result (held.new.items ≡ held.old.items) }
{
    held.reserve(words.len())?;
    let mut left = words.len();
    while left > 0 {
        left -= 1;
        if let Some(number) = handle(words[left]) {
            held.push_reserved(number);
        }
    }
    Ok(())
}

// The first frame of a run.
fn first_frame(function: usize, line: u32, count: usize) -> Frame
    ensures frame { result ≡ record {
      function = function;
      line = line;
      this = words.Null;
      back = 0;
      base = 0;
      count = count;
      mark = 0;
    } }
{
    Frame {
        function,
        line,
        this: Word::Null,
        back: 0,
        base: 0,
        count,
        mark: 0,
    }
}

// Gives a list so many words at least.
fn make_room(slots: &mut Vec<Word>, count: usize) -> Result<(), NoMemory>
    ensures room { OnOk result (count ≤ length slots.new.items) }
    ensures kept { length slots.old.items ≤ length slots.new.items }
{
    if slots.len() < count {
        slots.resize(count, Word::Null)?;
    }
    Ok(())
}

// Writes words into the first slots.
fn write_first(slots: &mut [Word], words: &[Word])
    requires room { length words.now ≤ length slots.old }
    ensures written { slots.new ≡ words.now ++ drop (length words.now) slots.old }
{
    slots[..words.len()].copy_from_slice(words);
}

// Puts a frame behind the callers, for which there may be no room.
#[inline(never)]
fn grow_by_caller(callers: &mut Vec<Frame>, frame: &Frame) -> Result<(), NoMemory>
    ensures pushed { OnOk result (callers.new.items ≡ callers.old.items ++ frame.now ∷ []) }
    ensures unchanged { OnErr result (callers.new.items ≡ callers.old.items) }
{
    callers.push(*frame)?;
    Ok(())
}

// Puts a frame behind the callers. A run has room for them from its start: what may grow is apart, since it copies the
// frame more than once.
#[inline(always)]
fn push_caller(callers: &mut Vec<Frame>, frame: &Frame) -> Result<(), NoMemory>
    ensures pushed { OnOk result (callers.new.items ≡ callers.old.items ++ frame.now ∷ []) }
    ensures unchanged { OnErr result (callers.new.items ≡ callers.old.items) }
{
    if callers.len() < callers.capacity() {
        callers.push_reserved(*frame);
        Ok(())
    } else {
        grow_by_caller(callers, frame)
    }
}

impl Stack {
    /// A stack without slots. It takes no memory.
    pub fn new(alloc: Global) -> Stack {
        Stack {
            slots: Vec::new(alloc),
            held: Vec::new(alloc),
            frame: first_frame(0, 0, 0),
            callers: Vec::new(alloc),
        }
    }

    /// A stack that has memory for so many slots, and for so many frames beside the first.
    pub fn reserve(alloc: Global, slots: usize, frames: usize) -> Result<Stack, NoMemory>
        ensures reserved { IfOk result (λ stack. stack ≡ beginning 0 0 [] slots) }
    {
        let mut words = Vec::new(alloc);
        words.resize(slots, Word::Null)?;
        let callers = Vec::with_capacity(alloc, frames)?;
        Ok(Stack {
            slots: words,
            held: Vec::new(alloc),
            frame: first_frame(0, 0, 0),
            callers,
        })
    }

    /// Begins with one frame, of a function at a line. Its locals are these words, and there are so many slots at
    /// least. Of what was there words may stay behind the locals. It takes memory only if there are fewer slots.
    pub fn begin(
        &mut self,
        function: usize,
        line: u32,
        locals: &[Word],
        slots: usize,
    ) -> Result<(), NoMemory>
        ensures begun { OnOk result ((rest : List Word) × (self.new ≡ beginning_over function line locals.now rest)
            × (slots ≤ length locals.now + length rest)) }
    {
        let count = locals.len();
        make_room(&mut self.slots, slots)?;
        make_room(&mut self.slots, count)?;
        write_first(&mut self.slots, locals);
        self.held.clear();
        self.callers.clear();
        self.frame = first_frame(function, line, count);
        Ok(())
    }

    /// What holds of every stack. It does nothing.
    #[inline(always)]
    pub fn facts(&self)
        ensures few { length (roots_of_frames self.now) < 2 ^ 66 }
        ensures within { self.now.frame.count ≤ length self.now.frame.slots }
        ensures short { length self.now.frame.slots < 2 ^ 64 }
    {
        let _callers = self.callers.len();
        let _slots = self.slots.len();
        let _held = self.held.len();
    }

    /// How many frames call the one that runs.
    #[inline(always)]
    pub fn depth(&self) -> usize
        ensures depth { result ≡ length self.now.callers }
    {
        self.callers.len()
    }

    /// The instruction that the caller of the frame that runs goes on from.
    #[inline(always)]
    pub fn back(&self) -> usize
        ensures back { result ≡ self.now.frame.back }
    {
        self.frame.back
    }

    /// How many slots of its caller are below those of the frame that runs.
    #[inline(always)]
    pub fn began(&self) -> usize
        requires called { 0 < length self.now.callers }
        ensures began { (caller : StackFrame) × (callers : List StackFrame)
            × (self.now.callers ≡ caller ∷ callers) × (result ≡ length caller.slots)
            × (caller.count ≤ length caller.slots) }
    {
        let Some(caller) = self.callers.last() else {
            unreachable!()
        };
        self.frame.base - caller.base
    }

    /// How many slots the frame that runs has.
    #[inline(always)]
    pub fn slot_count(&self) -> usize
        ensures count { result ≡ length self.now.frame.slots }
    {
        self.slots.len() - self.frame.base
    }

    /// The word in a slot, if there is such a slot.
    #[inline(always)]
    pub fn word(&self, slot: usize) -> Option<Word>
        ensures word { result ≡ slice_get self.now.frame.slots slot }
    {
        let place = self.frame.base.checked_add(slot)?;
        self.slots.get(place).copied()
    }

    /// Writes a word into a slot.
    #[inline(always)]
    pub fn set_word(&mut self, slot: usize, word: Word)
        requires within { slot < length self.old.frame.slots }
        ensures written { self.new ≡ record self.old {
          frame = with_slots (slice_set self.old.frame.slots slot word) self.old.frame;
        } }
    {
        self.slots[self.frame.base + slot] = word;
    }

    /// How many locals there are.
    #[inline(always)]
    pub fn count(&self) -> usize
        ensures count { result ≡ self.now.frame.count }
        ensures within { result ≤ length self.now.frame.slots }
    {
        self.frame.count
    }

    /// Makes the first slots locals, so many of them.
    #[inline(always)]
    pub fn set_count(&mut self, count: usize)
        requires within { count ≤ length self.old.frame.slots }
        ensures count { self.new ≡ record self.old {
          frame = record self.old.frame { count = count };
        } }
    {
        self.frame.count = count;
    }

    /// Stores the line of the frame.
    #[inline(always)]
    pub fn set_line(&mut self, line: u32)
        ensures line { self.new ≡ record self.old {
          frame = record self.old.frame { line = line };
        } }
    {
        self.frame.line = line;
    }

    /// The function and the line of the frame.
    #[inline(always)]
    pub fn place(&self) -> (usize, u32)
        ensures function { result.0 ≡ self.now.frame.function }
        ensures line { result.1 ≡ self.now.frame.line }
    {
        (self.frame.function, self.frame.line)
    }

    /// The object whose method runs.
    #[inline(always)]
    pub fn this(&self) -> Word
        ensures this { result ≡ self.now.frame.this }
    {
        self.frame.this
    }

    /// Holds one more object. Where memory is refused nothing changes.
    #[inline(always)]
    pub fn push_held(&mut self, number: u64) -> Result<(), NoMemory>
        ensures held { OnOk result (self.new ≡ record self.old {
          frame = record self.old.frame { held = number ∷ self.old.frame.held };
        }) }
        ensures unchanged { OnErr result (self.new ≡ self.old) }
    {
        self.held.push(number)?;
        Ok(())
    }

    /// The objects that the frame holds, in the order in which it came to hold them.
    #[inline(always)]
    pub fn held(&self) -> &[u64]
        ensures held { result.now ≡ reverse self.now.frame.held }
    {
        &self.held[self.frame.mark..]
    }

    /// How many objects all frames hold.
    #[inline(always)]
    pub fn held_len(&self) -> usize
        ensures len { result ≡ length (held_by self.now) }
    {
        self.held.len()
    }

    /// The objects that frames hold except for the first, so many, in the order in which they came to hold them.
    #[inline(always)]
    pub fn held_from(&self, count: usize) -> &[u64]
        ensures held { result.now ≡ drop count (reverse (held_by self.now)) }
    {
        numbers_from(&self.held, count)
    }

    /// Whether the callers of the frame that runs hold so many objects at least.
    #[inline(always)]
    pub fn holds_below(&self, count: usize) -> bool
        ensures below { IsTrue result → count ≤ length (held_below self.now) }
    {
        count <= self.frame.mark
    }

    /// Whether the frame holds no object.
    #[inline(always)]
    pub fn holds_nothing(&self) -> bool
        ensures none { IsTrue result → self.now.frame.held ≡ [] }
    {
        self.held().is_empty()
    }

    /// Holds none of them any more.
    #[inline(always)]
    pub fn clear_held(&mut self)
        ensures cleared { self.new ≡ record self.old {
          frame = record self.old.frame { held = [] };
        } }
    {
        self.held.truncate(self.frame.mark);
    }

    /// Leaves the frame neither locals nor objects.
    pub fn clear(&mut self)
        ensures cleared { self.new ≡ record self.old {
          frame = record self.old.frame { this = words.Null; count = 0; held = [] };
        } }
    {
        self.clear_held();
        self.frame.this = Word::Null;
        self.frame.count = 0;
    }

    /// Holds what these words are handles to as well, the first of them last. Where memory is refused nothing changes.
    pub fn push_handles(&mut self, words: &[Word]) -> Result<(), NoMemory>
        ensures held { OnOk result (self.new ≡ record self.old {
          frame = record self.old.frame { held = handles words.now ++ self.old.frame.held };
        }) }
        ensures unchanged { OnErr result (self.new ≡ self.old) }
    {
        append_handles(&mut self.held, words)?;
        Ok(())
    }

    /// Holds another object in place of the one that came last.
    pub fn set_latest_held(&mut self, number: u64)
        requires some { 0 < length self.old.frame.held }
        ensures held { self.new ≡ record self.old {
          frame = record self.old.frame { held = number ∷ drop 1 self.old.frame.held };
        } }
    {
        let last = self.held.len() - 1;
        self.held[last] = number;
    }

    /// Holds the object that came last no more.
    pub fn drop_latest_held(&mut self)
        requires some { 0 < length self.old.frame.held }
        ensures held { self.new ≡ record self.old {
          frame = record self.old.frame { held = drop 1 self.old.frame.held };
        } }
    {
        self.held.truncate(self.held.len() - 1);
    }

    /// The locals.
    #[inline(always)]
    pub fn locals(&self) -> &[Word]
        ensures locals { result.now ≡ locals_of self.now.frame }
    {
        &self.slots[self.frame.base..self.frame.base + self.frame.count]
    }

    /// The word of a local, if there is such a local.
    #[inline(always)]
    pub fn local(&self, slot: usize) -> Option<Word>
        ensures local { result ≡ slice_get (locals_of self.now.frame) slot }
    {
        self.locals().get(slot).copied()
    }

    /// The locals from one on.
    #[inline(always)]
    pub fn locals_from(&self, count: usize) -> &[Word]
        ensures locals { result.now ≡ drop count (locals_of self.now.frame) }
    {
        match self.locals().get(count..) {
            Some(locals) => locals,
            None => &[],
        }
    }

    /// The slots from one on, so many of them.
    #[inline(always)]
    pub fn slots_from(&self, at: usize, count: usize) -> &[Word]
        requires within { at + count ≤ length self.now.frame.slots }
        ensures slots { result.now ≡ take count (drop at self.now.frame.slots) }
    {
        let first = self.frame.base + at;
        &self.slots[first..first + count]
    }

    /// Enters a frame, whose slots are those of its caller from one on. So many of them are its locals. The caller goes
    /// on from an instruction when it is left.
    #[inline(always)]
    pub fn enter(
        &mut self,
        function: usize,
        line: u32,
        this: Word,
        back: usize,
        at: usize,
        count: usize,
    ) -> Result<(), NoMemory>
        requires above { self.old.frame.count ≤ at }
        requires within { at + count ≤ length self.old.frame.slots }
        ensures entered { OnOk result (self.new ≡ record {
          frame = record {
            function = function;
            line = line;
            this = this;
            back = back;
            slots = drop at self.old.frame.slots;
            count = count;
            held = [];
          };
          callers = with_slots (take at self.old.frame.slots) self.old.frame ∷ self.old.callers;
        }) }
        ensures unchanged { OnErr result (self.new ≡ self.old) }
    {
        push_caller(&mut self.callers, &self.frame)?;
        self.frame = Frame {
            function,
            line,
            this,
            back,
            base: self.frame.base + at,
            count,
            mark: self.held.len(),
        };
        Ok(())
    }

    /// Leaves the frame that runs. Its caller gets its slots back behind its own. The frame's objects are given up
    /// before, or pass to the caller.
    #[inline(always)]
    pub fn leave(&mut self)
        requires called { 0 < length self.old.callers }
        ensures left { (caller : StackFrame) × (callers : List StackFrame)
            × (self.old.callers ≡ caller ∷ callers) × (caller.count ≤ length caller.slots)
            × (self.new ≡ record {
              frame = record caller {
                slots = caller.slots ++ self.old.frame.slots;
                held = self.old.frame.held ++ caller.held;
              };
              callers = callers;
            }) }
    {
        let Some(caller) = self.callers.pop() else {
            unreachable!()
        };
        self.frame = caller;
    }

    // Holds an object in place of all that the frame holds, if that takes no memory.
    #[inline(always)]
    fn hold_alone(&mut self, number: u64) -> bool
        ensures held { IsTrue result → self.new ≡ in_running (holding (number ∷ []))
            (in_running letting_go self.old) }
        ensures unchanged { IsTrue (not result) → self.new ≡ self.old }
    {
        let mark = self.frame.mark;
        if mark >= self.held.capacity() {
            return false;
        }
        self.held.truncate(mark);
        self.held.push_reserved(number);
        true
    }

    /// Leaves the frame that runs, whose objects are given up before. Its caller gets its slots back behind its own, and
    /// comes to hold what a word is a handle to. It answers false, and does nothing, if that takes memory.
    #[inline(always)]
    pub fn leave_with(&mut self, word: Word) -> bool
        requires called { 0 < length self.old.callers }
        ensures left { IsTrue result → self.new
            ≡ leaving (handles (word ∷ [])) (in_running letting_go self.old) }
        ensures unchanged { IsTrue (not result) → self.new ≡ self.old }
    {
        match handle(word) {
            Some(number) => {
                if !self.hold_alone(number) {
                    return false;
                }
            }
            None => self.clear_held(),
        }
        self.leave();
        true
    }

    /// Does plain steps on the slots of the frame that runs.
    #[inline(always)]
    pub fn run_plain<B: HostObject, R: PlainRunner<B>>(
        &mut self,
        runner: &R,
        globals: &mut [Word],
        table: &mut Objects<B>,
        ends: bool,
        at: usize,
        ticks: u64,
        most: u64,
    ) -> PlainRun
        ensures ran { R.runs runner.now ends (scope_in at ticks globals.old table.old self.old) result.done
            (scope_in result.spot.at result.spot.ticks globals.new table.new self.new) }
        ensures keeps { KeepsScope ends (scope_in at ticks globals.old table.old self.old)
            (scope_in result.spot.at result.spot.ticks globals.new table.new self.new) }
        ensures within { self.old.frame.count ≤ length self.old.frame.slots }
        ensures frames { self.new ≡ record self.old {
          frame = record self.old.frame {
            slots = self.new.frame.slots;
            count = self.new.frame.count;
            line = self.new.frame.line;
            held = self.new.frame.held;
          };
        } }
        ensures bounded { result.done ≤ most }
    {
        let (count, line) = (self.frame.count, self.frame.line);
        let spot = Spot {
            at,
            count,
            line,
            ticks,
        };
        let slots = &mut self.slots[self.frame.base..];
        let run = runner.run(
            slots,
            globals,
            table,
            &mut self.held,
            &self.frame.this,
            self.frame.mark,
            ends,
            spot,
            most,
        );
        self.frame.count = run.spot.count;
        self.frame.line = run.spot.line;
        run
    }
}
