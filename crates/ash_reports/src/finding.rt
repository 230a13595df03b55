//! What is found in a source, in sentences.

use std::alloc::{AllocError, Global};

/// What is wrong with a source: where, and what can be said of it.
#[derive(Drop)]
pub struct Finding {
    /// The byte at which it is.
    pub at: usize,
    /// Where the mark under it ends.
    pub to: usize,
    pub sentence: String,
    /// What else helps, a line each.
    pub help: Vec<String>,
}

impl Finding {
    /// A finding without help.
    pub fn new(alloc: Global, at: usize, to: usize, sentence: String) -> Finding {
        Finding {
            at,
            to,
            sentence,
            help: Vec::new(alloc),
        }
    }

    /// The finding with one line of help more.
    pub fn with_help(mut self, line: String) -> Result<Finding, AllocError> {
        self.help.push(line)?;
        Ok(self)
    }

    /// The finding with one line of help more, if there is one.
    pub fn with_hint(self, hint: Option<String>) -> Result<Finding, AllocError> {
        match hint {
            Some(line) => self.with_help(line),
            None => Ok(self),
        }
    }
}

/// A line of help as a text that may be missing.
pub fn hint(alloc: Global, text: &str) -> Result<Option<String>, AllocError> {
    Ok(Some(String::from_str(alloc, text)?))
}
