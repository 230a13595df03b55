//! Sentences on sources that have no tokens.

use crate::finding::Finding;
use ash_lex::LexFault;
use std::alloc::{AllocError, Global};

/// What a source is that has no tokens. `text` is its longest part from the beginning that is UTF-8.
pub fn lexical_finding(alloc: Global, text: &str, fault: &LexFault) -> Result<Finding, AllocError> {
    match fault {
        LexFault::BadCharacter { at } => bad_character(alloc, text, *at),
        LexFault::UnclosedComment { at } => Ok(Finding::new(
            alloc,
            *at,
            at.saturating_add(2),
            String::from_str(alloc, "the comment that begins here has no '*/'")?,
        )),
        LexFault::NumberTooLarge { at } => Ok(Finding::new(
            alloc,
            *at,
            at.saturating_add(number_len(text, *at)),
            String::from_str(alloc, "the number is 2^64 or more")?,
        )),
        LexFault::SourceTooLong => Ok(Finding::new(
            alloc,
            0,
            0,
            String::from_str(alloc, "the script has more than 65,536 bytes")?,
        )),
        LexFault::NoMemory => Err(AllocError),
    }
}

/// What a character is that begins no token, or bytes that are no text.
fn bad_character(alloc: Global, text: &str, at: usize) -> Result<Finding, AllocError> {
    let Some(character) = character_at(text, at) else {
        let sentence = String::from_str(alloc, "the script is not UTF-8 from here on")?;
        return Ok(Finding::new(alloc, at, at, sentence));
    };
    let sentence = if character.is_control() {
        let code = u32::from(character);
        format!(in alloc; "a control character (code {code}) begins no token")?
    } else {
        format!(in alloc; "'{character}' begins no token")?
    };
    let finding = Finding::new(alloc, at, at.saturating_add(character.len_utf8()), sentence);
    match help_on_character(character) {
        Some(help) => finding.with_help(String::from_str(alloc, help)?),
        None => Ok(finding),
    }
}

fn character_at(text: &str, at: usize) -> Option<char> {
    text.get(at..)?.chars().next()
}

/// What to do about a character that begins no token.
fn help_on_character(character: char) -> Option<&'static str> {
    match character {
        '"' | '\'' => Some("scripts have no strings: use numbers, and let the program print texts"),
        '#' => Some("scripts have no preprocessor: neither #include nor #if"),
        _ if character.is_ascii() => None,
        _ => Some(
            "names are made of ASCII letters, digits and '_'; comments may hold any character",
        ),
    }
}

/// How many letters and digits a number has that begins at a byte.
fn number_len(text: &str, at: usize) -> usize {
    let bytes = text.as_bytes().get(at..).unwrap_or(&[]);
    bytes
        .iter()
        .take_while(|byte| byte.is_ascii_alphanumeric())
        .count()
}
