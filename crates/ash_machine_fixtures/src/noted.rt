//! Boxes that note their calls, what they answer, and that they go.
ghost use Rattle.std.specs.Prelude.{◌≡◌, ◌≤◌, ◌++◌, length, OnOk, OnErr};
ghost use Rattle.ash_host.specs.Limits.{max_state_bytes};
ghost use Rattle.ash_machine_fixtures.specs.Boxes.{kind_in, state_in};

use crate::registered::ODD;
use ash_example_kind::Buffer;
use ash_host::{Counter, HostAnswer, HostObject, NoMemory, RestoreFault, Tally, Target, Word};
use ash_plain_data::host_call::{HostCall, HostRecord};
use std::alloc::{AllocError, Global};
use std::cell::RefCell;
use std::collections::VecDeque;
use std::mem::replace;
use std::rc::Rc;

/// What boxes noted: each call with its answer, whose target has the name of its box in place of a number; the names of
/// those that went; and whether memory was refused to a note.
#[derive(Drop)]
pub struct Notes {
    alloc: Global,
    pub records: VecDeque<HostRecord>,
    pub gone: Vec<u64>,
    pub is_short: bool,
}

/// Where boxes note.
pub type Log = Rc<RefCell<Notes>>;

/// A log in which there is nothing yet.
pub fn new_log(alloc: Global) -> Result<Log, AllocError> {
    let notes = Notes {
        alloc,
        records: VecDeque::new(alloc),
        gone: Vec::new(alloc),
        is_short: false,
    };
    Ok(Rc::new(alloc, RefCell::new(notes))?)
}

/// Takes what was noted so far.
pub fn take_notes(alloc: Global, log: &Log) -> Notes {
    let none = Notes {
        alloc,
        records: VecDeque::new(alloc),
        gone: Vec::new(alloc),
        is_short: false,
    };
    match log.try_borrow_mut() {
        Ok(mut notes) => replace(&mut *notes, none),
        Err(_) => none,
    }
}

/// What is in a box.
#[derive(Drop)]
pub enum Inner {
    Counter(Counter),
    Tally(Tally),
    Buffer(Buffer),
    /// A kind that answers badly. It has no state.
    Odd,
}

/// A box that notes. Its target has its name in place of a number.
pub struct Noted {
    target: Target,
    inner: Inner,
    log: Log,
}

/// A box with such a name, which notes in this log.
pub fn new_box(log: &Log, target: Target, inner: Inner) -> Result<Noted, AllocError> {
    Ok(Noted {
        target,
        inner,
        log: log.clone()?,
    })
}

fn invoke_odd(method: u16, args: &[Word]) -> HostAnswer {
    match (method, args) {
        (1, _) => HostAnswer::Value(Word::Bool(true)),
        (2, _) => HostAnswer::Nothing,
        (3, _) => HostAnswer::Value(Word::Int(3)),
        (4, [Word::Int(number)]) => HostAnswer::Raise((*number & 65535) as u16),
        (5, _) => HostAnswer::NoMemory,
        (_, _) => HostAnswer::Nothing,
    }
}

/// How one that answers badly begins: it raises at 101, gives a value at 102, and has no memory at 103. Else it begins
/// well.
fn start_odd(args: &[Word]) -> HostAnswer {
    match args {
        [Word::Int(101)] => HostAnswer::Raise(77),
        [Word::Int(102)] => HostAnswer::Value(Word::Int(2)),
        [Word::Int(103)] => HostAnswer::NoMemory,
        _ => HostAnswer::Nothing,
    }
}

impl Inner {
    fn kind_of(&self) -> u16
        ensures kind { result ≡ kind_in self.now }
        ensures bounded { length (state_in self.now) ≤ max_state_bytes }
    {
        match self {
            Inner::Counter(_) => Counter::KIND,
            Inner::Tally(_) => Tally::KIND,
            Inner::Buffer(buffer) => buffer.kind(),
            Inner::Odd => ODD,
        }
    }

    fn begin(&mut self, args: &[Word]) -> HostAnswer
        ensures same_kind { kind_in self.new ≡ kind_in self.old }
        ensures bounded { length (state_in self.new) ≤ max_state_bytes }
    {
        match self {
            Inner::Counter(counter) => counter.start(args),
            Inner::Tally(tally) => tally.start(args),
            Inner::Buffer(buffer) => buffer.start(args),
            Inner::Odd => start_odd(args),
        }
    }

    fn call(&mut self, method: u16, args: &[Word]) -> HostAnswer
        ensures same_kind { kind_in self.new ≡ kind_in self.old }
        ensures bounded { length (state_in self.new) ≤ max_state_bytes }
    {
        match self {
            Inner::Counter(counter) => counter.invoke(method, args),
            Inner::Tally(tally) => tally.invoke(method, args),
            Inner::Buffer(buffer) => buffer.invoke(method, args),
            Inner::Odd => invoke_odd(method, args),
        }
    }

    fn read(&self, prop: u16) -> Word {
        match (self, prop) {
            (Inner::Counter(counter), _) => counter.get(prop),
            (Inner::Tally(tally), _) => tally.get(prop),
            (Inner::Buffer(buffer), _) => buffer.get(prop),
            (Inner::Odd, 1) => Word::Bool(true),
            (Inner::Odd, 2) => Word::Int64(-5),
            (Inner::Odd, _) => Word::Null,
        }
    }

    fn write(&mut self, prop: u16, word: Word)
        ensures same_kind { kind_in self.new ≡ kind_in self.old }
        ensures bounded { length (state_in self.new) ≤ max_state_bytes }
    {
        match self {
            Inner::Counter(counter) => counter.set(prop, word),
            Inner::Tally(tally) => tally.set(prop, word),
            Inner::Buffer(buffer) => buffer.set(prop, word),
            Inner::Odd => {}
        }
    }

    fn save_in(&self, out: &mut Vec<u8>) -> Result<(), NoMemory>
        ensures saved { OnOk result (out.new.items ≡ out.old.items ++ state_in self.now) }
        ensures unchanged { OnErr result (out.new.items ≡ out.old.items) }
        ensures bounded { length (state_in self.now) ≤ max_state_bytes }
    {
        match self {
            Inner::Counter(counter) => counter.save(out),
            Inner::Tally(tally) => tally.save(out),
            Inner::Buffer(buffer) => buffer.save(out),
            Inner::Odd => Ok(()),
        }
    }

    fn take(&mut self, bytes: &[u8]) -> Result<(), RestoreFault>
        ensures restored { OnOk result (state_in self.new ≡ bytes.now) }
        ensures same_kind { kind_in self.new ≡ kind_in self.old }
        ensures bounded { length (state_in self.new) ≤ max_state_bytes }
    {
        match self {
            Inner::Counter(counter) => counter.restore(bytes),
            Inner::Tally(tally) => tally.restore(bytes),
            Inner::Buffer(buffer) => buffer.restore(bytes),
            Inner::Odd if bytes.is_empty() => Ok(()),
            Inner::Odd => Err(RestoreFault::Refused),
        }
    }
}

/// The state of what is in a box.
fn state_of(alloc: Global, inner: &Inner) -> Result<Vec<u8>, NoMemory> {
    let mut state = Vec::new(alloc);
    inner.save_in(&mut state)?;
    Ok(state)
}

fn invocation(alloc: Global, method: u16, args: &[Word]) -> Result<HostCall, AllocError> {
    Ok(HostCall::Invoke {
        method,
        args: Vec::from_slice(alloc, args)?,
    })
}

fn beginning(alloc: Global, args: &[Word]) -> Result<HostCall, AllocError> {
    Ok(HostCall::Start {
        args: Vec::from_slice(alloc, args)?,
    })
}

impl Notes {
    fn push(
        &mut self,
        target: Target,
        call: Result<HostCall, AllocError>,
        before: Result<Vec<u8>, NoMemory>,
        answer: HostAnswer,
        after: Result<Vec<u8>, NoMemory>,
    ) -> Result<(), NoMemory> {
        self.records.push_back(HostRecord {
            target,
            call: call?,
            before: before?,
            answer,
            after: after?,
        })?;
        Ok(())
    }
}

impl Noted {
    fn alloc(&self) -> Option<Global> {
        match self.log.try_borrow() {
            Ok(notes) => Some(notes.alloc),
            Err(_) => None,
        }
    }

    fn before(&self) -> Result<Vec<u8>, NoMemory> {
        match self.alloc() {
            Some(alloc) => state_of(alloc, &self.inner),
            None => Err(NoMemory),
        }
    }

    fn note(
        &self,
        call: Result<HostCall, AllocError>,
        before: Result<Vec<u8>, NoMemory>,
        answer: HostAnswer,
    ) {
        let after = self.before();
        if let Ok(mut notes) = self.log.try_borrow_mut() {
            if notes
                .push(self.target, call, before, answer, after)
                .is_err()
            {
                notes.is_short = true;
            }
        }
    }
}

impl Drop for Noted {
    fn drop(self) {
        if let (Target::Object(name), Ok(mut notes)) = (self.target, self.log.try_borrow_mut()) {
            if notes.gone.push(name).is_err() {
                notes.is_short = true;
            }
        }
        let Noted {
            target: _,
            inner: _,
            log: _,
        } = self;
    }
}

impl HostObject for Noted {
    ghost use Rattle.ash_machine_fixtures.specs.Boxes.{kind_in, state_in};

    ghost kind_of = { λ noted. kind_in noted.inner };

    ghost state = { λ noted. state_in noted.inner };

    ghost allows = { λ noted call before answer after. Unit {0} };

    ghost refuses = { λ noted bytes. Unit {0} };

    fn kind(&self) -> u16 {
        self.inner.kind_of()
    }

    fn start(&mut self, args: &[Word]) -> HostAnswer {
        let before = self.before();
        let answer = self.inner.begin(args);
        let call = match self.alloc() {
            Some(alloc) => beginning(alloc, args),
            None => Err(AllocError),
        };
        self.note(call, before, answer);
        answer
    }

    fn invoke(&mut self, method: u16, args: &[Word]) -> HostAnswer {
        let before = self.before();
        let answer = self.inner.call(method, args);
        let call = match self.alloc() {
            Some(alloc) => invocation(alloc, method, args),
            None => Err(AllocError),
        };
        self.note(call, before, answer);
        answer
    }

    fn get(&self, prop: u16) -> Word {
        let before = self.before();
        let word = self.inner.read(prop);
        let call = HostCall::Get { property: prop };
        self.note(Ok(call), before, HostAnswer::Value(word));
        word
    }

    fn set(&mut self, prop: u16, v: Word) {
        let before = self.before();
        self.inner.write(prop, v);
        let call = HostCall::Set {
            property: prop,
            value: v,
        };
        self.note(Ok(call), before, HostAnswer::Nothing);
    }

    fn save(&self, out: &mut Vec<u8>) -> Result<(), NoMemory> {
        self.inner.save_in(out)
    }

    fn restore(&mut self, bytes: &[u8]) -> Result<(), RestoreFault> {
        self.inner.take(bytes)
    }
}
