//! The words that are no names.

ghost use Rattle.std.specs.Prelude.{◌≡◌, ℕ, List, ◌∷◌, Some, find};
ghost use Rattle.std.specs.Str.{bytes_eq};
ghost use Rattle.ash_lex.specs.ReservedWords.{reserved_text, unsupported_text};
ghost use Rattle.ash_lex.specs.Scan.{reserved_word, unsupported_word};

use std::fmt;

/// A word of the language that is no name. `and`, `or`, `xor` and `not` mean `&&`, `||`, `^^` and `!`.
#[derive(Clone, Copy, Debug, PartialEq, Eq, Hash)]
pub enum ReservedWord {
    /// `and`
    And,
    /// `or`
    Or,
    /// `xor`
    Xor,
    /// `not`
    Not,
    /// `is`
    Is,
    /// `null`
    Null,
    /// `true`
    True,
    /// `false`
    False,
    /// `void`
    Void,
    /// `bool`
    Bool,
    /// `int`
    Int,
    /// `int32`
    Int32,
    /// `int64`
    Int64,
    /// `uint`
    Uint,
    /// `uint32`
    Uint32,
    /// `uint64`
    Uint64,
    /// `class`
    Class,
    /// `interface`
    Interface,
    /// `cast`
    Cast,
    /// `array`
    Array,
    /// `this`
    This,
    /// `if`
    If,
    /// `else`
    Else,
    /// `while`
    While,
    /// `do`
    Do,
    /// `for`
    For,
    /// `switch`
    Switch,
    /// `case`
    Case,
    /// `default`
    Default,
    /// `break`
    Break,
    /// `continue`
    Continue,
    /// `return`
    Return,
}

/// A word of AngelScript that this profile doesn't have. It is no name either.
#[derive(Clone, Copy, Debug, PartialEq, Eq, Hash)]
pub enum UnsupportedWord {
    /// `auto`
    Auto,
    /// `catch`
    Catch,
    /// `const`
    Const,
    /// `double`
    Double,
    /// `enum`
    Enum,
    /// `float`
    Float,
    /// `funcdef`
    Funcdef,
    /// `import`
    Import,
    /// `in`
    In,
    /// `inout`
    Inout,
    /// `int8`
    Int8,
    /// `int16`
    Int16,
    /// `mixin`
    Mixin,
    /// `namespace`
    Namespace,
    /// `out`
    Out,
    /// `private`
    Private,
    /// `protected`
    Protected,
    /// `try`
    Try,
    /// `typedef`
    Typedef,
    /// `uint8`
    Uint8,
    /// `uint16`
    Uint16,
}

impl ReservedWord {
    /// The word as it is written.
    pub fn as_str(self) -> &'static str
        ensures text { result.now ≡ reserved_text self }
    {
        match self {
            ReservedWord::And => "and",
            ReservedWord::Or => "or",
            ReservedWord::Xor => "xor",
            ReservedWord::Not => "not",
            ReservedWord::Is => "is",
            ReservedWord::Null => "null",
            ReservedWord::True => "true",
            ReservedWord::False => "false",
            ReservedWord::Void => "void",
            ReservedWord::Bool => "bool",
            ReservedWord::Int => "int",
            ReservedWord::Int32 => "int32",
            ReservedWord::Int64 => "int64",
            ReservedWord::Uint => "uint",
            ReservedWord::Uint32 => "uint32",
            ReservedWord::Uint64 => "uint64",
            ReservedWord::Class => "class",
            ReservedWord::Interface => "interface",
            ReservedWord::Cast => "cast",
            ReservedWord::Array => "array",
            ReservedWord::This => "this",
            ReservedWord::If => "if",
            ReservedWord::Else => "else",
            ReservedWord::While => "while",
            ReservedWord::Do => "do",
            ReservedWord::For => "for",
            ReservedWord::Switch => "switch",
            ReservedWord::Case => "case",
            ReservedWord::Default => "default",
            ReservedWord::Break => "break",
            ReservedWord::Continue => "continue",
            ReservedWord::Return => "return",
        }
    }

    /// Whether the bytes are how the word is written.
    fn is_text(self, bytes: &[u8]) -> bool
        ensures value { result ≡ bytes_eq bytes.now (reserved_text self) }
    {
        bytes == self.as_str().as_bytes()
    }
}

impl fmt::Display for ReservedWord {
    ghost output = { λ w. Some (reserved_text w) };

    fn fmt<W: fmt::Write>(&self, f: &mut fmt::Formatter<W>) -> fmt::Result {
        f.write_str(self.as_str())
    }
}

/// The reserved words that begin with this byte.
fn reserved_words_from(first: u8) -> &'static [ReservedWord]
    ensures value { (after : List ℕ) → find (λ w. bytes_eq (first ∷ after) (reserved_text w))
        result.now ≡ reserved_word (first ∷ after) }
{
    match first {
        b'a' => &[ReservedWord::And, ReservedWord::Array],
        b'b' => &[ReservedWord::Bool, ReservedWord::Break],
        b'c' => &[
            ReservedWord::Class,
            ReservedWord::Cast,
            ReservedWord::Case,
            ReservedWord::Continue,
        ],
        b'd' => &[ReservedWord::Do, ReservedWord::Default],
        b'e' => &[ReservedWord::Else],
        b'f' => &[ReservedWord::False, ReservedWord::For],
        b'i' => &[
            ReservedWord::Is,
            ReservedWord::Int,
            ReservedWord::Int32,
            ReservedWord::Int64,
            ReservedWord::Interface,
            ReservedWord::If,
        ],
        b'n' => &[ReservedWord::Not, ReservedWord::Null],
        b'o' => &[ReservedWord::Or],
        b'r' => &[ReservedWord::Return],
        b's' => &[ReservedWord::Switch],
        b't' => &[ReservedWord::True, ReservedWord::This],
        b'u' => &[
            ReservedWord::Uint,
            ReservedWord::Uint32,
            ReservedWord::Uint64,
        ],
        b'v' => &[ReservedWord::Void],
        b'w' => &[ReservedWord::While],
        b'x' => &[ReservedWord::Xor],
        _ => &[],
    }
}

/// The first of these words that the bytes are.
fn reserved_word_among(words: &[ReservedWord], bytes: &[u8]) -> Option<ReservedWord>
    ensures value { result ≡ find (λ w. bytes_eq bytes.now (reserved_text w)) words.now }
{
    words.iter().copied().find(|word| word.is_text(bytes))
}

/// The reserved word that the bytes are, if they are one.
pub fn reserved_word(bytes: &[u8]) -> Option<ReservedWord>
    ensures which { result ≡ reserved_word bytes.now }
{
    match bytes {
        [first, ..] => reserved_word_among(reserved_words_from(*first), bytes),
        [] => None,
    }
}

impl UnsupportedWord {
    /// The word as it is written.
    pub fn as_str(self) -> &'static str
        ensures text { result.now ≡ unsupported_text self }
    {
        match self {
            UnsupportedWord::Auto => "auto",
            UnsupportedWord::Catch => "catch",
            UnsupportedWord::Const => "const",
            UnsupportedWord::Double => "double",
            UnsupportedWord::Enum => "enum",
            UnsupportedWord::Float => "float",
            UnsupportedWord::Funcdef => "funcdef",
            UnsupportedWord::Import => "import",
            UnsupportedWord::In => "in",
            UnsupportedWord::Inout => "inout",
            UnsupportedWord::Int8 => "int8",
            UnsupportedWord::Int16 => "int16",
            UnsupportedWord::Mixin => "mixin",
            UnsupportedWord::Namespace => "namespace",
            UnsupportedWord::Out => "out",
            UnsupportedWord::Private => "private",
            UnsupportedWord::Protected => "protected",
            UnsupportedWord::Try => "try",
            UnsupportedWord::Typedef => "typedef",
            UnsupportedWord::Uint8 => "uint8",
            UnsupportedWord::Uint16 => "uint16",
        }
    }

    /// Whether the bytes are how the word is written.
    fn is_text(self, bytes: &[u8]) -> bool
        ensures value { result ≡ bytes_eq bytes.now (unsupported_text self) }
    {
        bytes == self.as_str().as_bytes()
    }
}

impl fmt::Display for UnsupportedWord {
    ghost output = { λ w. Some (unsupported_text w) };

    fn fmt<W: fmt::Write>(&self, f: &mut fmt::Formatter<W>) -> fmt::Result {
        f.write_str(self.as_str())
    }
}

/// The unsupported words that begin with this byte.
fn unsupported_words_from(first: u8) -> &'static [UnsupportedWord]
    ensures value { (after : List ℕ) → find (λ w. bytes_eq (first ∷ after) (unsupported_text w))
        result.now ≡ unsupported_word (first ∷ after) }
{
    match first {
        b'a' => &[UnsupportedWord::Auto],
        b'c' => &[UnsupportedWord::Catch, UnsupportedWord::Const],
        b'd' => &[UnsupportedWord::Double],
        b'e' => &[UnsupportedWord::Enum],
        b'f' => &[UnsupportedWord::Float, UnsupportedWord::Funcdef],
        b'i' => &[
            UnsupportedWord::Import,
            UnsupportedWord::In,
            UnsupportedWord::Inout,
            UnsupportedWord::Int8,
            UnsupportedWord::Int16,
        ],
        b'm' => &[UnsupportedWord::Mixin],
        b'n' => &[UnsupportedWord::Namespace],
        b'o' => &[UnsupportedWord::Out],
        b'p' => &[UnsupportedWord::Private, UnsupportedWord::Protected],
        b't' => &[UnsupportedWord::Try, UnsupportedWord::Typedef],
        b'u' => &[UnsupportedWord::Uint8, UnsupportedWord::Uint16],
        _ => &[],
    }
}

/// The first of these words that the bytes are.
fn unsupported_word_among(words: &[UnsupportedWord], bytes: &[u8]) -> Option<UnsupportedWord>
    ensures value { result ≡ find (λ w. bytes_eq bytes.now (unsupported_text w)) words.now }
{
    words.iter().copied().find(|word| word.is_text(bytes))
}

/// The unsupported word that the bytes are, if they are one.
pub fn unsupported_word(bytes: &[u8]) -> Option<UnsupportedWord>
    ensures which { result ≡ unsupported_word bytes.now }
{
    match bytes {
        [first, ..] => unsupported_word_among(unsupported_words_from(*first), bytes),
        [] => None,
    }
}
