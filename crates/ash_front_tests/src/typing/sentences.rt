//! Faults of scripts as a person reads them.

use crate::compare::{NO_MEMORY, check_text, expect_text};
use ash_check::{ClassNames, ScriptError, ScriptFault};
use ash_type_rules::{Fault, Rule};
use std::alloc::Global;
use std::panic::Expect;
use std::process::Abort;

/// These names, as those of a cycle's classes.
fn class_names(rt: &impl Abort, alloc: Global, names: &[&str]) -> ClassNames {
    let mut texts = Vec::new(alloc);
    for name in names {
        let text = expect_text(rt, String::from_str(alloc, name));
        texts.push(text).expect(rt, NO_MEMORY);
    }
    ClassNames(texts)
}

/// Compares the sentence of why a script is refused with the one that is wanted.
fn check_sentence(rt: &impl Abort, alloc: Global, error: &ScriptError, wanted: &str) {
    let found = expect_text(rt, format!(in alloc; "{error}"));
    check_text(rt, found.as_str(), wanted, "a fault");
}

/// Compares the sentence of a fault with the one that is wanted.
fn check_fault(rt: &impl Abort, alloc: Global, fault: ScriptFault, wanted: &str) {
    check_sentence(rt, alloc, &ScriptError::Fault(fault), wanted);
}

/// Compares the sentence of the fault of classes with these names with the one that is wanted.
fn check_cycle(rt: &impl Abort, alloc: Global, names: &[&str], wanted: &str) {
    let names = class_names(rt, alloc, names);
    check_fault(rt, alloc, ScriptFault::Cyclic(names), wanted);
}

// A broken rule, a cycle of one class and one of three, and that memory was refused.
#[test]
fn faults_are_sentences(rt: HostRuntime) {
    let alloc = rt.alloc();
    let broken = Fault {
        rule: Rule::UnknownName,
        at: 8,
    };
    check_fault(
        &rt,
        alloc,
        ScriptFault::Broken(broken),
        "unknown name at byte 8",
    );
    check_cycle(&rt, alloc, &["A"], "class A reaches itself");
    let three = "class A reaches itself through B, C";
    check_cycle(&rt, alloc, &["A", "B", "C"], three);
    check_sentence(&rt, alloc, &ScriptError::NoMemory, "memory was refused");
}
