//! States as texts: the numbers of the last answer and the last object, the globals of each module, the objects that
//! live, the states of the services, and how many boxes are free and answers are left.

use crate::replies::{write_bytes, write_word};
use ash_host::Word;
use ash_plain_steps::state::{Hosts, PlainState};
use std::alloc::{AllocError, Global};
use std::fmt::Write;

/// The greatest number of an object that is looked for.
const MAX_NUMBER: u64 = 5000;

fn write_globals(out: &mut String, globals: &[Word]) -> Result<(), AllocError> {
    for word in globals {
        write!(out, " ")?;
        write_word(out, *word)?;
    }
    Ok(())
}

fn write_modules(out: &mut String, state: &PlainState) -> Result<(), AllocError> {
    for module in &state.modules {
        write!(out, " | {}", module.name)?;
        write_globals(out, &module.globals)?;
    }
    Ok(())
}

fn write_objects(out: &mut String, state: &PlainState) -> Result<(), AllocError> {
    write!(out, " | objects")?;
    for number in 0..=state.last.min(MAX_NUMBER) {
        if state.objects.get(number).is_some() {
            write!(out, " {number}")?;
        }
    }
    Ok(())
}

fn write_services(out: &mut String, state: &PlainState) -> Result<(), AllocError> {
    write!(out, " | services")?;
    for service in &state.services {
        write!(out, " ")?;
        write_bytes(out, service)?;
    }
    Ok(())
}

/// What is left of a state and of the hosts.
pub fn state_text(alloc: Global, state: &PlainState, hosts: &Hosts) -> Result<String, AllocError> {
    let mut out = format!(in alloc; "seq {} last {}", state.seq, state.last)?;
    write_modules(&mut out, state)?;
    write_objects(&mut out, state)?;
    write_services(&mut out, state)?;
    write!(
        out,
        " | free {} left {}",
        hosts.pool.len(),
        hosts.answers.len()
    )?;
    Ok(out)
}
