//! The command `check`.

use crate::ending::Ending;
use ash_console::script::{file_trouble, read_script};
use ash_registry::Registry;
use ash_reports::report::report_on;
use ash_serve::program::registrations::registrations;
use std::fs::{File, Files};

/// How many scripts were checked, and what was found.
#[derive(Clone, Copy, Debug)]
struct Count {
    files: usize,
    errors: usize,
    unread: usize,
}

impl Count {
    fn ending(self) -> Ending {
        if self.unread != 0 {
            Ending::Impossible
        } else if self.errors != 0 {
            Ending::AtFault
        } else {
            Ending::Done
        }
    }
}

/// Checks the scripts in files, and prints a verdict on each. Those that can't be read are named on standard error.
pub fn check<R: Files<File = File> + AllocGlobal + Print + Eprint>(
    rt: &R,
    files: &[&str],
) -> anyhow::Result<Ending> {
    let registry = registrations(rt.alloc())?;
    let mut count = Count {
        files: 0,
        errors: 0,
        unread: 0,
    };
    for file in files {
        count = check_file(rt, &registry, file, count)?;
    }
    print_count(rt, count)?;
    Ok(count.ending())
}

/// Checks the script in a file, prints the verdict on it, and counts it.
fn check_file<R: Files<File = File> + AllocGlobal + Print + Eprint>(
    rt: &R,
    registry: &Registry,
    file: &str,
    mut count: Count,
) -> anyhow::Result<Count> {
    count.files = count.files.saturating_add(1);
    let script = match read_script(rt, file) {
        Ok(script) => script,
        Err(error) => {
            let trouble = file_trouble(&error);
            eprintln!(rt; "{file}: {trouble}")?;
            count.unread = count.unread.saturating_add(1);
            return Ok(count);
        }
    };
    match report_on(rt.alloc(), registry, file, &script)? {
        None => println!(rt; "{file}: ok")?,
        Some(report) => {
            let lines = report.lines.as_str();
            print!(rt; "{lines}")?;
            count.errors = count.errors.saturating_add(1);
        }
    }
    Ok(count)
}

/// Prints how many scripts there were, and how many errors.
fn print_count<R: Print>(rt: &R, count: Count) -> anyhow::Result<()> {
    let Count { files, errors, .. } = count;
    let file_word = if files == 1 { "file" } else { "files" };
    let error_word = if errors == 1 { "error" } else { "errors" };
    println!(rt; "{files} {file_word}, {errors} {error_word}")?;
    Ok(())
}
