//! Faults as a person reads them.

use crate::compare::{check_text, expect_text};
use ash_lex::LexFault;
use ash_parse::{ParseFault, UnsupportedPart};
use ash_registry::RegistryFault;
use std::alloc::{AllocError, Global};

const SENTENCES: &str =
    "no token begins with the character at byte 4; the text is longer than 65,536 bytes; \
    unexpected token or end at byte 12; `**` at byte 7 is not supported; \
    the name, the kind or the number is taken; memory was refused";

/// Faults of each of the three crates, and that memory was refused.
fn sentences(alloc: Global) -> Result<String, AllocError> {
    format!(in alloc;
        "{}; {}; {}; {}; {}; {}",
        LexFault::BadCharacter { at: 4 },
        LexFault::SourceTooLong,
        ParseFault::Unexpected { at: 12 },
        ParseFault::Unsupported {
            word: UnsupportedPart::Power,
            at: 7
        },
        RegistryFault::NameTaken,
        RegistryFault::NoMemory
    )
}

#[test]
fn faults_are_sentences(rt: HostRuntime) {
    let found = expect_text(&rt, sentences(rt.alloc()));
    check_text(&rt, found.as_str(), SENTENCES, "faults");
}
