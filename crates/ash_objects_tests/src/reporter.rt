//! A Counter that reports its name and its number when its box is given up.

use ash_host::{Counter, HostAnswer, HostObject, NoMemory, RestoreFault, Word};
use std::cell::RefCell;
use std::rc::Rc;

/// The names of counters that were given up, in order, each with its number.
pub type Log = Rc<RefCell<Vec<(u16, i32)>>>;

/// A Counter with a name and a kind of its own, which reports its name and its number when its box is given up.
pub struct Reporter {
    pub name: u16,
    pub kind: u16,
    pub counter: Counter,
    pub log: Log,
}

impl Drop for Reporter {
    fn drop(self) {
        if let Ok(mut log) = self.log.try_borrow_mut() {
            let _ = log.push((self.name, self.counter.get(1).int()));
        }
        let Reporter {
            name: _,
            kind: _,
            counter: _,
            log: _,
        } = self;
    }
}

/// Whether these are the counters that were given up, in this order, with their numbers.
pub fn has_reported(log: &Log, wanted: &[(u16, i32)]) -> bool {
    match log.try_borrow() {
        Ok(found) => found.as_slice() == wanted,
        Err(_) => false,
    }
}

// Whether a counter of this name is among these, with this number if one is named.
fn is_among(found: &[(u16, i32)], name: u16, number: Option<i32>) -> bool {
    found.iter().any(|report| report.0 == name && number.is_none_or(|number| report.1 == number))
}

/// Whether these counters are the ones that were given up after so many others, in any order, each with its number if
/// one is named.
pub fn has_reported_then(log: &Log, many: usize, wanted: &[(u16, Option<i32>)]) -> bool {
    let Ok(found) = log.try_borrow() else {
        return false;
    };
    if found.len() < many {
        return false;
    }
    let found = &found[many..];
    found.len() == wanted.len()
        && wanted
            .iter()
            .all(|report| is_among(found, report.0, report.1))
}

impl HostObject for Reporter {
    ghost kind_of = { λ r. r.kind };

    ghost state = { λ r. ⟦<Counter as HostObject>⟧.state r.counter };

    ghost allows = { λ r. ⟦<Counter as HostObject>⟧.allows r.counter };

    ghost refuses = { λ r. ⟦<Counter as HostObject>⟧.refuses r.counter };

    fn kind(&self) -> u16 {
        self.kind
    }

    fn start(&mut self, args: &[Word]) -> HostAnswer {
        self.counter.start(args)
    }

    fn invoke(&mut self, method: u16, args: &[Word]) -> HostAnswer {
        self.counter.invoke(method, args)
    }

    fn get(&self, prop: u16) -> Word {
        self.counter.get(prop)
    }

    fn set(&mut self, prop: u16, v: Word) {
        self.counter.set(prop, v)
    }

    fn save(&self, out: &mut Vec<u8>) -> Result<(), NoMemory> {
        self.counter.save(out)
    }

    fn restore(&mut self, bytes: &[u8]) -> Result<(), RestoreFault> {
        self.counter.restore(bytes)
    }
}
