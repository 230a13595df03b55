//! The signs: operators, brackets and punctuation.

ghost use Rattle.std.specs.Prelude.{◌≡◌, ◌∷◌, Some};
ghost use Rattle.ash_lex.specs.Bytes.{begins_with_word};
ghost use Rattle.ash_lex.specs.Signs.{sign_text};
ghost use Rattle.ash_lex.specs.Scan.{first_sign};

use crate::bytes::begins_with_word;
use std::fmt;

/// A sign of the language. `**` and `::` are signs of AngelScript that this profile doesn't have: they
/// are tokens of their own here, so that the parser can name them.
#[derive(Clone, Copy, Debug, PartialEq, Eq, Hash)]
pub enum Sign {
    /// `(`
    OpenParenthesis,
    /// `)`
    CloseParenthesis,
    /// `{`
    OpenBrace,
    /// `}`
    CloseBrace,
    /// `[`
    OpenBracket,
    /// `]`
    CloseBracket,
    /// `;`
    Semicolon,
    /// `,`
    Comma,
    /// `:`
    Colon,
    /// `?`
    Question,
    /// `.`
    Dot,
    /// `@`
    Handle,
    /// `~`
    BitNot,
    /// `!`
    LogicalNot,
    /// `!is`
    NotIs,
    /// `=`
    Assign,
    /// `==`
    Equal,
    /// `!=`
    NotEqual,
    /// `<`
    Less,
    /// `<=`
    LessOrEqual,
    /// `>`
    Greater,
    /// `>=`
    GreaterOrEqual,
    /// `+`
    Plus,
    /// `++`
    Increment,
    /// `+=`
    PlusAssign,
    /// `-`
    Minus,
    /// `--`
    Decrement,
    /// `-=`
    MinusAssign,
    /// `*`
    Star,
    /// `*=`
    StarAssign,
    /// `/`
    Slash,
    /// `/=`
    SlashAssign,
    /// `%`
    Percent,
    /// `%=`
    PercentAssign,
    /// `&`
    BitAnd,
    /// `&&`
    LogicalAnd,
    /// `&=`
    BitAndAssign,
    /// `|`
    BitOr,
    /// `||`
    LogicalOr,
    /// `|=`
    BitOrAssign,
    /// `^`
    BitXor,
    /// `^^`
    LogicalXor,
    /// `^=`
    BitXorAssign,
    /// `<<`
    ShiftLeft,
    /// `<<=`
    ShiftLeftAssign,
    /// `>>`
    ShiftRight,
    /// `>>=`
    ShiftRightAssign,
    /// `>>>`
    ShiftRightArithmetic,
    /// `>>>=`
    ShiftRightArithmeticAssign,
    /// `**`
    Power,
    /// `::`
    Scope,
}

impl Sign {
    /// The sign as it is written.
    pub fn as_str(self) -> &'static str
        ensures text { result.now ≡ sign_text self }
    {
        match self {
            Sign::OpenParenthesis => "(",
            Sign::CloseParenthesis => ")",
            Sign::OpenBrace => "{",
            Sign::CloseBrace => "}",
            Sign::OpenBracket => "[",
            Sign::CloseBracket => "]",
            Sign::Semicolon => ";",
            Sign::Comma => ",",
            Sign::Colon => ":",
            Sign::Question => "?",
            Sign::Dot => ".",
            Sign::Handle => "@",
            Sign::BitNot => "~",
            Sign::LogicalNot => "!",
            Sign::NotIs => "!is",
            Sign::Assign => "=",
            Sign::Equal => "==",
            Sign::NotEqual => "!=",
            Sign::Less => "<",
            Sign::LessOrEqual => "<=",
            Sign::Greater => ">",
            Sign::GreaterOrEqual => ">=",
            Sign::Plus => "+",
            Sign::Increment => "++",
            Sign::PlusAssign => "+=",
            Sign::Minus => "-",
            Sign::Decrement => "--",
            Sign::MinusAssign => "-=",
            Sign::Star => "*",
            Sign::StarAssign => "*=",
            Sign::Slash => "/",
            Sign::SlashAssign => "/=",
            Sign::Percent => "%",
            Sign::PercentAssign => "%=",
            Sign::BitAnd => "&",
            Sign::LogicalAnd => "&&",
            Sign::BitAndAssign => "&=",
            Sign::BitOr => "|",
            Sign::LogicalOr => "||",
            Sign::BitOrAssign => "|=",
            Sign::BitXor => "^",
            Sign::LogicalXor => "^^",
            Sign::BitXorAssign => "^=",
            Sign::ShiftLeft => "<<",
            Sign::ShiftLeftAssign => "<<=",
            Sign::ShiftRight => ">>",
            Sign::ShiftRightAssign => ">>=",
            Sign::ShiftRightArithmetic => ">>>",
            Sign::ShiftRightArithmeticAssign => ">>>=",
            Sign::Power => "**",
            Sign::Scope => "::",
        }
    }
}

impl fmt::Display for Sign {
    ghost output = { λ s. Some (sign_text s) };

    fn fmt<W: fmt::Write>(&self, f: &mut fmt::Formatter<W>) -> fmt::Result {
        f.write_str(self.as_str())
    }
}

/// The longest sign that begins with `!`.
fn not_sign(after: &[u8]) -> Sign
    ensures value { Some result ≡ first_sign (33 ∷ after.now) }
{
    match after {
        [b'i', b's', rest @ ..] if !begins_with_word(rest) => Sign::NotIs,
        [b'=', ..] => Sign::NotEqual,
        _ => Sign::LogicalNot,
    }
}

/// The longest sign that begins with `<`.
fn less_sign(after: &[u8]) -> Sign
    ensures value { Some result ≡ first_sign (60 ∷ after.now) }
{
    match after {
        [b'<', b'=', ..] => Sign::ShiftLeftAssign,
        [b'=', ..] => Sign::LessOrEqual,
        [b'<', ..] => Sign::ShiftLeft,
        _ => Sign::Less,
    }
}

/// The longest sign that begins with `>`.
fn greater_sign(after: &[u8]) -> Sign
    ensures value { Some result ≡ first_sign (62 ∷ after.now) }
{
    match after {
        [b'>', b'>', b'=', ..] => Sign::ShiftRightArithmeticAssign,
        [b'>', b'=', ..] => Sign::ShiftRightAssign,
        [b'>', b'>', ..] => Sign::ShiftRightArithmetic,
        [b'=', ..] => Sign::GreaterOrEqual,
        [b'>', ..] => Sign::ShiftRight,
        _ => Sign::Greater,
    }
}

/// The longest sign that begins with `+`.
fn plus_sign(after: &[u8]) -> Sign
    ensures value { Some result ≡ first_sign (43 ∷ after.now) }
{
    match after {
        [b'+', ..] => Sign::Increment,
        [b'=', ..] => Sign::PlusAssign,
        _ => Sign::Plus,
    }
}

/// The longest sign that begins with `-`.
fn minus_sign(after: &[u8]) -> Sign
    ensures value { Some result ≡ first_sign (45 ∷ after.now) }
{
    match after {
        [b'-', ..] => Sign::Decrement,
        [b'=', ..] => Sign::MinusAssign,
        _ => Sign::Minus,
    }
}

/// The longest sign that begins with `*`.
fn star_sign(after: &[u8]) -> Sign
    ensures value { Some result ≡ first_sign (42 ∷ after.now) }
{
    match after {
        [b'=', ..] => Sign::StarAssign,
        [b'*', ..] => Sign::Power,
        _ => Sign::Star,
    }
}

/// The longest sign that begins with `&`.
fn and_sign(after: &[u8]) -> Sign
    ensures value { Some result ≡ first_sign (38 ∷ after.now) }
{
    match after {
        [b'&', ..] => Sign::LogicalAnd,
        [b'=', ..] => Sign::BitAndAssign,
        _ => Sign::BitAnd,
    }
}

/// The longest sign that begins with `|`.
fn or_sign(after: &[u8]) -> Sign
    ensures value { Some result ≡ first_sign (124 ∷ after.now) }
{
    match after {
        [b'|', ..] => Sign::LogicalOr,
        [b'=', ..] => Sign::BitOrAssign,
        _ => Sign::BitOr,
    }
}

/// The longest sign that a byte and what follows it begin with.
fn sign_from(first: u8, after: &[u8]) -> Option<Sign>
    ensures value { result ≡ first_sign (first ∷ after.now) }
{
    let sign = match first {
        b'(' => Sign::OpenParenthesis,
        b')' => Sign::CloseParenthesis,
        b'{' => Sign::OpenBrace,
        b'}' => Sign::CloseBrace,
        b'[' => Sign::OpenBracket,
        b']' => Sign::CloseBracket,
        b';' => Sign::Semicolon,
        b',' => Sign::Comma,
        b'?' => Sign::Question,
        b'.' => Sign::Dot,
        b'@' => Sign::Handle,
        b'~' => Sign::BitNot,
        b'!' => not_sign(after),
        b'<' => less_sign(after),
        b'>' => greater_sign(after),
        b':' => match after {
            [b':', ..] => Sign::Scope,
            _ => Sign::Colon,
        },
        b'=' => match after {
            [b'=', ..] => Sign::Equal,
            _ => Sign::Assign,
        },
        b'+' => plus_sign(after),
        b'-' => minus_sign(after),
        b'*' => star_sign(after),
        b'/' => match after {
            [b'=', ..] => Sign::SlashAssign,
            _ => Sign::Slash,
        },
        b'%' => match after {
            [b'=', ..] => Sign::PercentAssign,
            _ => Sign::Percent,
        },
        b'&' => and_sign(after),
        b'|' => or_sign(after),
        b'^' => match after {
            [b'^', ..] => Sign::LogicalXor,
            [b'=', ..] => Sign::BitXorAssign,
            _ => Sign::BitXor,
        },
        _ => return None,
    };
    Some(sign)
}

/// The longest sign that the bytes begin with.
pub fn sign_at(bytes: &[u8]) -> Option<Sign>
    ensures longest { result ≡ first_sign bytes.now }
{
    match bytes {
        [first, after @ ..] => sign_from(*first, after),
        [] => None,
    }
}
