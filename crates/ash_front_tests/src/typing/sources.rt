//! Rows: each has what is found of a source, counted by hand, a bar, and the source. What is found is how the check of
//! the source ends (`ok`, or its fault with the offset), or what another question asks.

ghost use Rattle.std.specs.Prelude.{IfOk};
ghost use Rattle.ash_tree.specs.TreeViews.{module_of};
ghost use Rattle.ash_type_rules.specs.Nesting.{ItemsDeclareInBlocks};

use crate::compare::check_text;
use crate::registrations::program;
use crate::sources::checks::parts_of;
use crate::typing::cycles::cycle_of;
use crate::typing::expressions::{ValueQuestion, answer_of_value};
use ash_check::{CheckedScript, ScriptError, ScriptFault, check};
use ash_lex::lex;
use ash_parse::parse_module;
use ash_registry::{Registry, RegistryFault};
use ash_tree::Module;
use std::alloc::{AllocError, Global};
use std::fmt::{Display, Write};
use std::process::Abort;

/// A text, or nothing where memory is refused.
pub(crate) fn or_empty(alloc: Global, text: Result<String, AllocError>) -> String {
    match text {
        Ok(text) => text,
        Err(AllocError) => String::new(alloc),
    }
}

/// A value as it is printed, or nothing where memory is refused.
pub(crate) fn printed<F: Display>(alloc: Global, fault: &F) -> String {
    or_empty(alloc, format!(in alloc; "{fault}"))
}

/// Writes names, each after a blank.
fn write_names(out: &mut String, names: &[String]) -> Result<(), AllocError> {
    for name in names {
        write!(out, " {name}")?;
    }
    Ok(())
}

/// Writes a fault by its code, with its offset or its classes.
fn write_fault(out: &mut String, fault: &ScriptFault) -> Result<(), AllocError> {
    out.push_str(fault.code())?;
    match fault {
        ScriptFault::Broken(broken) => write!(out, " {}", broken.at),
        ScriptFault::Cyclic(names) => write_names(out, names.0.as_slice()),
    }
}

/// Writes why the check fails.
fn write_error(out: &mut String, error: &ScriptError) -> Result<(), AllocError> {
    match error {
        ScriptError::Fault(fault) => write_fault(out, fault),
        ScriptError::NoMemory => write!(out, "{error}"),
    }
}

/// Why a check fails: a fault by its code, with its offset or its classes, or that memory was refused. It is cut short
/// where memory is refused for the text itself.
pub(crate) fn coded(alloc: Global, error: &ScriptError) -> String {
    let mut out = String::new(alloc);
    let _ = write_error(&mut out, error);
    out
}

/// The program's registrations, and the type `Plain`, which scripts can't construct.
fn registered(alloc: Global) -> Result<Box<Registry>, RegistryFault> {
    let mut registry = program(alloc)?;
    registry.object_type("Plain", 3)?;
    Ok(registry)
}

/// The tree of a source, or its fault.
#[tactic(auto, using(ash_type_rules::proofs::SoundnessNesting::derived_proper))]
pub(crate) fn tree_of(alloc: Global, source: &str) -> Result<Module, String>
    ensures nested { IfOk result (λ tree. ItemsDeclareInBlocks (module_of tree)) }
{
    let tokens = match lex(alloc, source) {
        Ok(tokens) => tokens,
        Err(fault) => return Err(printed(alloc, &fault)),
    };
    match parse_module(alloc, tokens.as_slice()) {
        Ok(tree) => Ok(tree),
        Err(fault) => Err(printed(alloc, &fault)),
    }
}

/// The typed module of a tree, with the ranks of its classes, or its fault.
fn checked_tree(alloc: Global, script: &Module) -> Result<CheckedScript, String>
    requires nested { ItemsDeclareInBlocks (module_of script.now) }
{
    let registry = match registered(alloc) {
        Ok(registry) => registry,
        Err(fault) => return Err(printed(alloc, &fault)),
    };
    match check(alloc, &registry, script) {
        Ok(found) => Ok(found),
        Err(error) => Err(coded(alloc, &error)),
    }
}

/// The typed module of a source, with the ranks of its classes, or its fault.
pub(crate) fn checked(alloc: Global, source: &str) -> Result<CheckedScript, String> {
    let script = tree_of(alloc, source)?;
    checked_tree(alloc, &script)
}

/// How the check of a source ends.
fn outcome_of(alloc: Global, source: &str) -> String {
    match checked(alloc, source) {
        Ok(_) => printed(alloc, &"ok"),
        Err(fault) => fault,
    }
}

/// What is asked of a source.
#[derive(Clone, Copy)]
pub(crate) enum Question {
    /// How its check ends.
    Outcome,
    /// The type of its value.
    Type,
    /// What the last operator of its value takes its operands for.
    Operands,
    /// The cycle of its classes.
    Cycle,
}

/// The answer to a question, or the fault of the source.
fn answer(rt: &impl Abort, alloc: Global, question: Question, source: &str) -> String {
    match question {
        Question::Outcome => outcome_of(alloc, source),
        Question::Type => answer_of_value(rt, alloc, ValueQuestion::Type, source),
        Question::Operands => answer_of_value(rt, alloc, ValueQuestion::Operands, source),
        Question::Cycle => cycle_of(rt, alloc, source),
    }
}

/// A source, the answer that is wanted of it, and the name by which a test that fails says which it was.
#[derive(Clone, Copy)]
pub(crate) struct Expectation<'a> {
    pub(crate) source: &'a str,
    pub(crate) wanted: &'a str,
    pub(crate) name: &'a str,
}

/// Compares the answer to a question about a source with the one that is wanted.
pub(crate) fn check_answer(
    rt: &impl Abort,
    alloc: Global,
    question: Question,
    expectation: Expectation,
) {
    let found = answer(rt, alloc, question, expectation.source);
    check_text(rt, found.as_str(), expectation.wanted, expectation.name);
}

/// Asks a question about each row's source.
pub(crate) fn check_rows(rt: &impl Abort, alloc: Global, question: Question, rows: &str) {
    for row in rows.trim().lines() {
        let (wanted, source) = parts_of(row);
        let expectation = Expectation {
            source,
            wanted,
            name: source,
        };
        check_answer(rt, alloc, question, expectation);
    }
}
