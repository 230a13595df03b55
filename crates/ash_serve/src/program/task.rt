//! What the words of a command line ask for.

use super::fault::ProgramFault;
use ash_lines::MAX_DIGITS;
use clap::error::ErrorKind;
use clap::{Arg, ArgAction, ArgMatches, Command};
use std::alloc::{AllocError, Global};

/// The most host objects of the kind Counter that may be asked for.
const MAX_COUNTERS: u64 = 4096;

/// What the words of a command line ask for.
#[derive(Clone, Copy, Debug)]
pub enum ProgramTask<'a> {
    /// Serve standard input and output, with the store in memory.
    Try { limits: Limits },
    /// Make a store in this folder.
    Create { folder: &'a str },
    /// Serve standard input and output, with the store in this folder.
    Serve { folder: &'a str, limits: Limits },
    /// Check the script in this file.
    Check { file: &'a str },
}

/// What the scripts that are served may use.
#[derive(Clone, Copy, Debug)]
pub struct Limits {
    /// Ticks for each request.
    pub budget: u64,
    /// How many host objects of the kind Counter the host is handed for scripts to construct, 4,096 at the most.
    pub counters: u64,
}

impl<'a> ProgramTask<'a> {
    /// What the words of a command line ask for, the first of them being the program's name.
    pub fn read(alloc: Global, words: &'a [String]) -> Result<ProgramTask<'a>, ProgramFault> {
        let matches = match command(alloc)?.try_get_matches_from(words) {
            Ok(matches) => matches,
            Err(error) => return Err(fault_of_words(error.kind())),
        };
        match matches.subcommand() {
            Some(("try", matches)) => Ok(ProgramTask::Try {
                limits: limits_of(matches)?,
            }),
            Some(("create", matches)) => Ok(ProgramTask::Create {
                folder: folder_of(matches)?,
            }),
            Some(("serve", matches)) => Ok(ProgramTask::Serve {
                folder: folder_of(matches)?,
                limits: limits_of(matches)?,
            }),
            Some(("check", matches)) => Ok(ProgramTask::Check {
                file: file_of(matches)?,
            }),
            _ => Err(ProgramFault::Usage),
        }
    }
}

/// The words that the program takes.
fn command<'a>(alloc: Global) -> Result<Command<'a>, AllocError> {
    Command::new(alloc, "ashd")
        .subcommand_required(true)
        .subcommand(with_limits(alloc, Command::new(alloc, "try"))?)?
        .subcommand(with_folder(alloc, "create")?)?
        .subcommand(with_limits(alloc, with_folder(alloc, "serve")?)?)?
        .subcommand(with_file(alloc, "check")?)
}

fn with_limits<'a>(alloc: Global, command: Command<'a>) -> Result<Command<'a>, AllocError> {
    command
        .arg(limit(alloc, "budget"))?
        .arg(limit(alloc, "counters"))
}

fn limit<'a>(alloc: Global, name: &'a str) -> Arg<'a> {
    Arg::new(alloc, name)
        .long(name)
        .required(true)
        .action(ArgAction::Set)
}

fn with_folder<'a>(alloc: Global, name: &'a str) -> Result<Command<'a>, AllocError> {
    Command::new(alloc, name).arg(folder_word(alloc))
}

fn with_file<'a>(alloc: Global, name: &'a str) -> Result<Command<'a>, AllocError> {
    Command::new(alloc, name).arg(file_word(alloc))
}

fn folder_word<'a>(alloc: Global) -> Arg<'a> {
    Arg::new(alloc, "folder")
        .required(true)
        .action(ArgAction::Set)
}

fn file_word<'a>(alloc: Global) -> Arg<'a> {
    Arg::new(alloc, "file")
        .required(true)
        .action(ArgAction::Set)
}

/// Why words are refused. A request for help is a use of words like any other wrong one.
fn fault_of_words(kind: ErrorKind) -> ProgramFault {
    match kind {
        ErrorKind::OutOfMemory => ProgramFault::NoMemory,
        _ => ProgramFault::Usage,
    }
}

/// The folder that is named. An empty name would mean the root of all folders.
fn folder_of<'a>(matches: &ArgMatches<'a>) -> Result<&'a str, ProgramFault> {
    match matches.get_str("folder") {
        Some(folder) if !folder.is_empty() => Ok(folder),
        _ => Err(ProgramFault::Usage),
    }
}

/// The file that is named. An empty name is one that no file has.
fn file_of<'a>(matches: &ArgMatches<'a>) -> Result<&'a str, ProgramFault> {
    matches.get_str("file").ok_or(ProgramFault::Usage)
}

fn limits_of(matches: &ArgMatches) -> Result<Limits, ProgramFault> {
    let budget = number(matches, "budget")?;
    let counters = number(matches, "counters")?;
    if counters > MAX_COUNTERS {
        return Err(ProgramFault::Usage);
    }
    Ok(Limits { budget, counters })
}

/// The number that an option is given: 1 to 20 digits, below 2^64.
fn number(matches: &ArgMatches, option: &str) -> Result<u64, ProgramFault> {
    let text = matches.get_str(option).ok_or(ProgramFault::Usage)?;
    if text.len() > MAX_DIGITS || !text.bytes().all(|byte| byte.is_ascii_digit()) {
        return Err(ProgramFault::Usage);
    }
    text.parse::<u64>().map_err(|_| ProgramFault::Usage)
}
