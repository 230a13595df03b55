//! What host objects and services answer: as `Counter` and `Tally` do, which are asked themselves.

use ash_host::{Counter, HostAnswer, HostObject, NoMemory, Tally, Target, Word};
use ash_plain_data::host_call::{HostCall, HostRecord};
use ash_script_rows::steps::HostStep;
use std::alloc::{AllocError, Global};
use std::collections::VecDeque;
use std::test::Fail;

/// Those that answer.
#[derive(Drop)]
struct Answerers {
    /// The numbers of the counters.
    numbers: Vec<u64>,
    counters: Vec<Counter>,
    tally: Tally,
}

fn state_of<H: HostObject>(alloc: Global, host: &H) -> Result<Vec<u8>, NoMemory> {
    let mut state = Vec::new(alloc);
    host.save(&mut state)?;
    Ok(state)
}

fn answer_of<H: HostObject>(host: &mut H, call: &HostCall) -> HostAnswer {
    match call {
        HostCall::Start { args } => host.start(args),
        HostCall::Invoke { method, args } => host.invoke(*method, args),
        HostCall::Get { property } => HostAnswer::Value(host.get(*property)),
        HostCall::Set { property, value } => {
            host.set(*property, *value);
            HostAnswer::Nothing
        }
    }
}

/// What one that answers makes of a call.
fn record_of<H: HostObject>(
    alloc: Global,
    host: &mut H,
    target: Target,
    call: HostCall,
) -> Result<HostRecord, NoMemory> {
    let before = state_of(alloc, host)?;
    let answer = answer_of(host, &call);
    let after = state_of(alloc, host)?;
    Ok(HostRecord {
        target,
        call,
        before,
        answer,
        after,
    })
}

fn started(alloc: Global, value: i32) -> Result<HostCall, AllocError> {
    Ok(HostCall::Start {
        args: vec![in alloc; Word::Int(value)]?,
    })
}

fn invoked(alloc: Global, method: u16, value: i32) -> Result<HostCall, AllocError> {
    Ok(HostCall::Invoke {
        method,
        args: vec![in alloc; Word::Int(value)]?,
    })
}

fn invoked_alone(alloc: Global, method: u16) -> HostCall {
    HostCall::Invoke {
        method,
        args: Vec::new(alloc),
    }
}

/// The call that a step is.
fn call_of(alloc: Global, step: HostStep) -> Result<HostCall, AllocError> {
    match step {
        HostStep::Start(_, value) => started(alloc, value),
        HostStep::StartOdd(_, value) => started(alloc, value),
        HostStep::Add(_, value) => invoked(alloc, 1, value),
        HostStep::Tally(value) => invoked(alloc, 1, value),
        HostStep::Fail(_, code) => invoked(alloc, 2, code),
        HostStep::Read(_) => Ok(HostCall::Get { property: 1 }),
        HostStep::Write(_, value) => {
            let value = Word::Int(value);
            Ok(HostCall::Set { property: 1, value })
        }
        HostStep::Total => Ok(invoked_alone(alloc, 2)),
        HostStep::Bad(_) => Ok(invoked_alone(alloc, 1)),
    }
}

/// What a call of an object of the kind 9 comes to. Its state is empty.
fn odd_record(alloc: Global, number: u64, call: HostCall, answer: HostAnswer) -> HostRecord {
    HostRecord {
        target: Target::Object(number),
        call,
        before: Vec::new(alloc),
        answer,
        after: Vec::new(alloc),
    }
}

impl Answerers {
    fn new(alloc: Global) -> Answerers {
        Answerers {
            numbers: Vec::new(alloc),
            counters: Vec::new(alloc),
            tally: Tally::new(),
        }
    }

    /// What a new counter makes of its start.
    fn start(&mut self, alloc: Global, number: u64, call: HostCall) -> Result<HostRecord, Fail> {
        let mut counter = Counter::new();
        let record = record_of(alloc, &mut counter, Target::Object(number), call)?;
        self.numbers.push(number)?;
        self.counters.push(counter)?;
        Ok(record)
    }

    /// What the counter of a number makes of a call. Where there is none there is no answer.
    fn ask(
        &mut self,
        alloc: Global,
        number: u64,
        call: HostCall,
    ) -> Result<Option<HostRecord>, Fail> {
        let Some(place) = self.numbers.iter().position(|other| *other == number) else {
            return Ok(None);
        };
        match self.counters.get_mut(place) {
            Some(counter) => Ok(Some(record_of(alloc, counter, Target::Object(number), call)?)),
            None => Ok(None),
        }
    }

    fn ask_service(&mut self, alloc: Global, call: HostCall) -> Result<HostRecord, NoMemory> {
        record_of(alloc, &mut self.tally, Target::Service(0), call)
    }

    /// What is answered to a step. The object of the kind 9 answers `true` to its method.
    fn answer(&mut self, alloc: Global, step: HostStep) -> Result<Option<HostRecord>, Fail> {
        let call = call_of(alloc, step)?;
        match step {
            HostStep::Start(number, _) => Ok(Some(self.start(alloc, number, call)?)),
            HostStep::Add(number, _)
            | HostStep::Fail(number, _)
            | HostStep::Read(number)
            | HostStep::Write(number, _) => self.ask(alloc, number, call),
            HostStep::Tally(_) | HostStep::Total => Ok(Some(self.ask_service(alloc, call)?)),
            HostStep::StartOdd(number, _) => {
                Ok(Some(odd_record(alloc, number, call, HostAnswer::Nothing)))
            }
            HostStep::Bad(number) => {
                let answer = HostAnswer::Value(Word::Bool(true));
                Ok(Some(odd_record(alloc, number, call, answer)))
            }
        }
    }
}

/// What is answered to these calls, in order.
pub fn answers(alloc: Global, calls: &[HostStep]) -> Result<VecDeque<HostRecord>, Fail> {
    let mut answerers = Answerers::new(alloc);
    let mut answers = VecDeque::new(alloc);
    for call in calls {
        if let Some(record) = answerers.answer(alloc, *call)? {
            answers.push_back(record)?;
        }
    }
    Ok(answers)
}
