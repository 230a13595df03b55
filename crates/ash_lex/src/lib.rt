//! The tokens of a script.
//!
//! `lex` cuts a text into its tokens, each with its line and the bytes that it takes, or reports the
//! text's first lexical fault. It uses no other crate of the repository. What it answers are the
//! text's tokens by the definition in `specs/Tokens.antt`; where a text has tokens they are answered, unless
//! memory runs out; and each text has either tokens or a first fault, and never both.
//!
//! In reading order: `tokens`, with the kinds in `signs` and `words`; `faults`; `bytes`, the classes of
//! bytes; `pieces`, the longest piece that begins a text; `numbers`; `lexer`, the pass over the text.
#![tactic(auto)]

mod bytes;
mod faults;
mod lexer;
mod numbers;
mod pieces;
mod signs;
mod tokens;
mod words;

pub use faults::LexFault;
pub use lexer::{MAX_SOURCE_BYTES, lex, one_reading};
pub use signs::Sign;
pub use tokens::{Token, TokenKind};
pub use words::{ReservedWord, UnsupportedWord};
