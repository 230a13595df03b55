//! How fast the lexer, the parser, the checker, the object table, the images of states and the journal are.
//!
//! `ash_bench lex`, `ash_bench parse` and `ash_bench check` take sources, `ash_bench objects` makes objects,
//! `ash_bench image` reads and writes the image of a state, and `ash_bench journal FOLDER` writes records to files in
//! that folder, which should be empty. Each does its work once and prints what it has counted. With a number of rounds
//! after these words the work is done so many times more, and its rates or times are printed too.
#![tactic(auto)]

mod checking;
mod images;
mod journaling;
mod lexing;
mod objects;
mod parsing;
mod rates;
mod sources;
mod words;

use anyhow::Result;
use std::process::ExitCode;
use std::{env, io};
use words::{Bench, Task};

const USAGE: &str =
    "usage: ash_bench lex|parse|check|objects|image [ROUNDS] or ash_bench journal FOLDER [ROUNDS]";

fn main(rt: HostRuntime) -> Result<ExitCode> {
    let words: Vec<String> = env::args(&rt)?.collect(rt.alloc())?;
    let Some(Task { bench, rounds }) = Task::read(&words) else {
        eprintln!(rt; "{USAGE}")?;
        return Ok(ExitCode::from(2));
    };
    match bench {
        Bench::Lex => lexing::run(&rt, rounds)?,
        Bench::Parse => parsing::run(&rt, rounds)?,
        Bench::Check => checking::run(&rt, rounds)?,
        Bench::Objects => objects::run(&rt, rounds)?,
        Bench::Image => images::run(&rt, rounds)?,
        Bench::Journal { folder } => journaling::run(&rt, folder, rounds)?,
    }
    Ok(ExitCode::SUCCESS)
}
