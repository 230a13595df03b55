//! How the program ends.

pub use ash_console::ending::Ending;

/// How the program ends if its words were not read as a task: well if they ask for help or the version.
pub fn ending_of_words(error: &clap::Error) -> Ending {
    if error.use_stderr() {
        Ending::Impossible
    } else {
        Ending::Done
    }
}
