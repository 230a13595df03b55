//! A box that reports what becomes of it.
ghost use Rattle.std.specs.Prelude.{◌≡◌, ◌⊎◌, IsTrue};

use ash_host::{HostAnswer, HostObject, NoMemory, RestoreFault, Tally, Word};
use std::alloc::{AllocError, Global};
use std::cell::RefCell;
use std::fmt::Write;
use std::rc::Rc;

/// What boxes reported: the states that they took, each after a name, and the names of those that were given up, of
/// which so many were given up before there was a host or a refusal, and so many before the last request was answered.
#[derive(Drop)]
pub struct Reports {
    taken: Vec<(u16, i32)>,
    given_up: Vec<u16>,
    early: usize,
    asked: usize,
}

/// Where boxes report.
pub type Log = Rc<RefCell<Reports>>;

/// A log in which there is nothing yet.
pub fn new_log(alloc: Global) -> Result<Log, AllocError> {
    let reports = Reports {
        taken: Vec::new(alloc),
        given_up: Vec::new(alloc),
        early: 0,
        asked: 0,
    };
    Ok(Rc::new(alloc, RefCell::new(reports))?)
}

/// A box as data, with its name and its kind.
#[derive(Clone, Copy)]
pub enum Named {
    /// One that takes each state of an `int`, and has this one.
    Taking(u16, u16, i32),
    /// One that refuses every state.
    Refusing(u16, u16),
    /// One whose methods all answer this.
    Answering(u16, u16, HostAnswer),
}

/// A box of any kind, whose state is an `int`. What it says of its answers is that they may be any.
pub struct Watched {
    name: u16,
    kind: u16,
    is_refusing: bool,
    /// What its methods answer, if they don't answer as those of a tally.
    answer: Option<HostAnswer>,
    tally: Tally,
    log: Log,
}

/// A tally with this total.
fn tally_of(number: i32) -> Tally {
    let mut tally = Tally::new();
    let _ = tally.restore(&number.to_le_bytes());
    tally
}

/// A box that reports to a log.
pub fn new_box(log: &Log, named: Named) -> Result<Watched, NoMemory> {
    let log = log.clone()?;
    let (name, kind, number, is_refusing, answer) = match named {
        Named::Taking(name, kind, number) => (name, kind, number, false, None),
        Named::Refusing(name, kind) => (name, kind, 0, true, None),
        Named::Answering(name, kind, answer) => (name, kind, 0, false, Some(answer)),
    };
    Ok(Watched {
        name,
        kind,
        is_refusing,
        answer,
        tally: tally_of(number),
        log,
    })
}

/// The number that a state is, if it is one.
fn number_of(bytes: &[u8]) -> i32 {
    match bytes {
        [a, b, c, d] => i32::from_le_bytes([*a, *b, *c, *d]),
        _ => 0,
    }
}

impl Drop for Watched {
    fn drop(self) {
        if let Ok(mut reports) = self.log.try_borrow_mut() {
            let _ = reports.given_up.push(self.name);
        }
        let Watched {
            name: _,
            kind: _,
            is_refusing: _,
            answer: _,
            tally: _,
            log: _,
        } = self;
    }
}

impl HostObject for Watched {
    ghost kind_of = { λ w. w.kind };

    ghost state = { λ w. ⟦<Tally as HostObject>⟧.state w.tally };

    ghost allows = { λ w call before answer after. Unit {0} };

    ghost refuses = { λ w bytes. IsTrue w.is_refusing
        ⊎ ⟦<Tally as HostObject>⟧.refuses w.tally bytes };

    fn kind(&self) -> u16 {
        self.kind
    }

    fn start(&mut self, args: &[Word]) -> HostAnswer {
        self.tally.start(args)
    }

    fn invoke(&mut self, method: u16, args: &[Word]) -> HostAnswer {
        match self.answer {
            Some(answer) => answer,
            None => self.tally.invoke(method, args),
        }
    }

    fn get(&self, prop: u16) -> Word {
        self.tally.get(prop)
    }

    fn set(&mut self, prop: u16, v: Word) {
        self.tally.set(prop, v)
    }

    fn save(&self, out: &mut Vec<u8>) -> Result<(), NoMemory> {
        self.tally.save(out)
    }

    fn restore(&mut self, bytes: &[u8]) -> Result<(), RestoreFault> {
        if self.is_refusing {
            return Err(RestoreFault::Refused);
        }
        self.tally.restore(bytes)?;
        if let Ok(mut reports) = self.log.try_borrow_mut() {
            let _ = reports.taken.push((self.name, number_of(bytes)));
        }
        Ok(())
    }
}

/// Notes that there is a host now, or a refusal.
pub fn note_end(log: &Log) {
    if let Ok(mut reports) = log.try_borrow_mut() {
        reports.early = reports.given_up.len();
        reports.asked = reports.early;
    }
}

/// Notes that the last request was answered.
pub fn note_answers(log: &Log) {
    if let Ok(mut reports) = log.try_borrow_mut() {
        reports.asked = reports.given_up.len();
    }
}

/// The greatest name of a box.
const MAX_NAME: u16 = 9;

/// Writes how often each name is among these.
fn write_names(out: &mut String, names: &[u16]) -> Result<(), AllocError> {
    for name in 0..=MAX_NAME {
        for _ in names.iter().filter(|found| **found == name) {
            write!(out, " {name}")?;
        }
    }
    Ok(())
}

/// Writes each of these names.
fn write_in_order(out: &mut String, names: &[u16]) -> Result<(), AllocError> {
    for name in names {
        write!(out, " {name}")?;
    }
    Ok(())
}

fn write_taken(out: &mut String, taken: &[(u16, i32)]) -> Result<(), AllocError> {
    for (name, number) in taken {
        write!(out, " {name}:{number}")?;
    }
    Ok(())
}

fn write_reports(out: &mut String, reports: &Reports) -> Result<(), AllocError> {
    let names = reports.given_up.as_slice();
    let (early, late) = names.split_at(reports.early.min(names.len()));
    let asked = reports.asked.saturating_sub(reports.early);
    let (asked, last) = late.split_at(asked.min(late.len()));
    write!(out, "taken")?;
    write_taken(out, &reports.taken)?;
    write!(out, " | given up")?;
    write_names(out, early)?;
    write!(out, " | then")?;
    write_in_order(out, asked)?;
    write_names(out, last)
}

/// What was reported: the states that were taken, in order; the names of the boxes that were given up before there was
/// a host or a refusal, ascending; then of those given up while requests were answered, in order, and after that,
/// ascending.
pub fn reports_of(alloc: Global, log: &Log) -> Result<String, AllocError> {
    let mut out = String::new(alloc);
    if let Ok(reports) = log.try_borrow() {
        write_reports(&mut out, &reports)?;
    }
    Ok(out)
}
