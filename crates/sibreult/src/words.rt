//! What the words of a command line ask for.

use clap::builder::ValueParser;
use clap::{Arg, ArgAction, ArgMatches, Command, Error};
use std::alloc::{AllocError, Global};

/// The most Counters that may be asked for.
const MAX_COUNTERS: u64 = 4096;

/// What the words of a command line ask for.
#[derive(Drop)]
pub enum Task<'a> {
    /// Check the scripts in these files.
    Check {
        files: Vec<&'a str>,
    },
    /// Load the script in a file, and call a function of it.
    Run(RunTask<'a>),
    /// Print what a store holds.
    Show {
        folder: &'a str,
        json: bool,
    },
    /// Look for damage in a store.
    Verify {
        folder: &'a str,
    },
    /// Read commands from standard input, with the store in a folder, or else in memory.
    Shell {
        folder: Option<&'a str>,
        limits: Limits,
    },
}

/// A call that is asked for.
#[derive(Drop)]
pub struct RunTask<'a> {
    pub file: &'a str,
    pub function: &'a str,
    pub arguments: Vec<&'a str>,
    /// The folder of the store. Without one it is in memory.
    pub store: Option<&'a str>,
    pub limits: Limits,
}

/// What scripts may use.
#[derive(Clone, Copy, Debug)]
pub struct Limits {
    /// Ticks for each load and each call.
    pub budget: u64,
    /// How many Counters scripts may construct, 4,096 at the most.
    pub counters: u64,
}

/// What the words of a command line ask for, the first of them being the program's name.
///
/// # Errors
///
/// What `clap` prints: what is wrong with the words, or the help or the version that they ask for.
pub fn read_task<'a>(alloc: Global, words: &'a [String]) -> Result<Task<'a>, Error> {
    let mut program = program(alloc)?;
    let matches = program.try_get_matches_from(words)?;
    match matches.subcommand() {
        Some(("check", matches)) => Ok(Task::Check {
            files: texts(alloc, matches, "FILE")?,
        }),
        Some(("run", matches)) => Ok(Task::Run(run_task(alloc, matches)?)),
        Some(("show", matches)) => Ok(Task::Show {
            folder: text(matches, "DIR"),
            json: matches.get_flag("json"),
        }),
        Some(("verify", matches)) => Ok(Task::Verify {
            folder: text(matches, "DIR"),
        }),
        _ => Ok(shell_task(&matches)),
    }
}

/// The call that the words after `run` ask for.
fn run_task<'a>(alloc: Global, matches: &ArgMatches<'a>) -> Result<RunTask<'a>, AllocError> {
    Ok(RunTask {
        file: text(matches, "FILE"),
        function: text(matches, "FUNCTION"),
        arguments: texts(alloc, matches, "ARG")?,
        store: matches.get_str("store"),
        limits: limits_of(matches),
    })
}

/// What the words with `shell` ask for. No other command is left, since one is required.
fn shell_task<'a>(matches: &ArgMatches<'a>) -> Task<'a> {
    match matches.subcommand() {
        Some((_, matches)) => Task::Shell {
            folder: matches.get_str("DIR"),
            limits: limits_of(matches),
        },
        None => Task::Shell {
            folder: None,
            limits: limits_of(matches),
        },
    }
}

/// The value of an argument that is required.
fn text<'a>(matches: &ArgMatches<'a>, id: &str) -> &'a str {
    matches.get_str(id).unwrap_or("")
}

/// The values of an argument that may have many.
fn texts<'a>(
    alloc: Global,
    matches: &ArgMatches<'a>,
    id: &str,
) -> Result<Vec<&'a str>, AllocError> {
    let mut found = Vec::new(alloc);
    for text in matches.get_strs(id).unwrap_or(&[]) {
        found.push(*text)?;
    }
    Ok(found)
}

/// What scripts may use. Both options have a default.
fn limits_of(matches: &ArgMatches) -> Limits {
    Limits {
        budget: matches.get_one::<u64>("budget").unwrap_or(0),
        counters: matches.get_one::<u64>("counters").unwrap_or(0),
    }
}

/// The words that the program takes.
fn program<'a>(alloc: Global) -> Result<Command<'a>, AllocError> {
    Command::new(alloc, "sibreult")
        .about(
            "Checks and runs AngelScript scripts whose state outlives the process, and shows their stores",
        )
        .version("0.2.0")
        .after_help(
            "Status: 0 if all is well, 1 if a script or a store is at fault, 2 if nothing could be done.",
        )
        .subcommand_required(true)
        .subcommand(check_command(alloc)?)?
        .subcommand(run_command(alloc)?)?
        .subcommand(show_command(alloc)?)?
        .subcommand(verify_command(alloc)?)?
        .subcommand(shell_command(alloc)?)
}

fn check_command<'a>(alloc: Global) -> Result<Command<'a>, AllocError> {
    Command::new(alloc, "check")
        .about("Finds the first fault of each script, and shows the place of it")
        .after_help(
            "Nothing is run. The type Counter and the functions tally and total are registered, as for `run`.",
        )
        .arg(
            Arg::new(alloc, "FILE")
                .help("The scripts")
                .required(true)
                .action(ArgAction::Append)
                .num_args(1..),
        )
}

fn run_command<'a>(alloc: Global) -> Result<Command<'a>, AllocError> {
    let command = Command::new(alloc, "run")
        .about("Loads a script and calls a function of it")
        .after_help("The module is named as the file, without its folder and its extension.")
        .arg(
            Arg::new(alloc, "FILE")
                .help("The script")
                .required(true)
                .action(ArgAction::Set),
        )?
        .arg(
            Arg::new(alloc, "FUNCTION")
                .help("The function to call")
                .required(true)
                .action(ArgAction::Set),
        )?
        .arg(
            Arg::new(alloc, "ARG")
                .help("Its arguments: true, false or whole numbers")
                .action(ArgAction::Append)
                .allow_negative_numbers(true)
                .num_args(0..),
        )?
        .arg(
            Arg::new(alloc, "store")
                .long("store")
                .value_name("DIR")
                .help(
                    "The folder of the store, which is made if it is not there; without it the state is in memory",
                )
                .action(ArgAction::Set),
        )?;
    with_limits(alloc, command)
}

fn show_command<'a>(alloc: Global) -> Result<Command<'a>, AllocError> {
    Command::new(alloc, "show")
        .about("Prints what a store holds, and changes nothing")
        .arg(folder(alloc, "The folder of the store").required(true))?
        .arg(
            Arg::new(alloc, "json")
                .long("json")
                .help("Print it as JSON")
                .action(ArgAction::SetTrue),
        )
}

fn verify_command<'a>(alloc: Global) -> Result<Command<'a>, AllocError> {
    Command::new(alloc, "verify")
        .about("Looks for damage in the layout of a store, not in its values")
        .arg(folder(alloc, "The folder of the store").required(true))
}

fn shell_command<'a>(alloc: Global) -> Result<Command<'a>, AllocError> {
    let command = Command::new(alloc, "shell")
        .about("Reads commands from standard input; `help` lists them")
        .arg(folder(
            alloc,
            "The folder of the store; without it the state is in memory",
        ))?;
    with_limits(alloc, command)
}

fn folder<'a>(alloc: Global, help: &'a str) -> Arg<'a> {
    Arg::new(alloc, "DIR").help(help).action(ArgAction::Set)
}

fn with_limits<'a>(alloc: Global, command: Command<'a>) -> Result<Command<'a>, AllocError> {
    command
        .arg(
            Arg::new(alloc, "budget")
                .long("budget")
                .value_name("N")
                .help("Ticks that each load and each call may take")
                .default_value("10000000")
                .value_parser(ValueParser::unsigned(0, u64::MAX))
                .action(ArgAction::Set),
        )?
        .arg(
            Arg::new(alloc, "counters")
                .long("counters")
                .value_name("N")
                .help(
                    "How many objects of the type Counter scripts may construct, 4096 at the most",
                )
                .default_value("16")
                .value_parser(ValueParser::unsigned(0, MAX_COUNTERS))
                .action(ArgAction::Set),
        )
}
