//! Which tokens begin statements, and which end lists of them.

ghost use Rattle.std.specs.Prelude.{◌≡◌};
ghost use Rattle.ash_lex.specs.Tokens.{meaning_of};
ghost use Rattle.ash_tree.specs.GrammarTokens.{tokens_of};
ghost use Rattle.ash_parse.specs.Readers.{ParsesAs, Fails};
ghost use Rattle.ash_parse.specs.StatementReader as reader;

use crate::cursor::place;
use crate::error::{ParseError, ParseResult};
use crate::operators::begins_expression;
use ash_lex::{ReservedWord, Sign, Token, TokenKind};
use ash_tree::Position;

/// What a token is to a statement.
#[derive(Clone, Copy)]
pub enum StmtToken {
    /// `{`
    Block,
    /// `}`
    End,
    /// `;`
    Empty,
    If,
    Else,
    While,
    Do,
    For,
    Switch,
    Case,
    Default,
    Break,
    Continue,
    Return,
    /// Any other token.
    Other,
}

/// What a token is to a statement.
#[tactic(auto, unfolding(crate::specs::StatementReader::stmt_token))]
pub fn stmt_token(kind: &TokenKind) -> StmtToken
    ensures value { result ≡ reader.stmt_token (meaning_of kind.now) }
{
    match kind {
        TokenKind::Sign(Sign::OpenBrace) => StmtToken::Block,
        TokenKind::Sign(Sign::CloseBrace) => StmtToken::End,
        TokenKind::Sign(Sign::Semicolon) => StmtToken::Empty,
        TokenKind::Reserved(ReservedWord::If) => StmtToken::If,
        TokenKind::Reserved(ReservedWord::Else) => StmtToken::Else,
        TokenKind::Reserved(ReservedWord::While) => StmtToken::While,
        TokenKind::Reserved(ReservedWord::Do) => StmtToken::Do,
        TokenKind::Reserved(ReservedWord::For) => StmtToken::For,
        TokenKind::Reserved(ReservedWord::Switch) => StmtToken::Switch,
        TokenKind::Reserved(ReservedWord::Case) => StmtToken::Case,
        TokenKind::Reserved(ReservedWord::Default) => StmtToken::Default,
        TokenKind::Reserved(ReservedWord::Break) => StmtToken::Break,
        TokenKind::Reserved(ReservedWord::Continue) => StmtToken::Continue,
        TokenKind::Reserved(ReservedWord::Return) => StmtToken::Return,
        _ => StmtToken::Other,
    }
}

/// Whether a token begins a statement.
#[tactic(auto, unfolding(crate::specs::StatementReader::begins_stmt))]
pub fn begins_statement(kind: &TokenKind) -> bool
    ensures value { result ≡ reader.begins_stmt (meaning_of kind.now) }
{
    match stmt_token(kind) {
        StmtToken::Other => begins_expression(kind),
        StmtToken::End | StmtToken::Else | StmtToken::Case | StmtToken::Default => false,
        _ => true,
    }
}

/// Whether the statements of a block go on.
#[tactic(auto, unfolding(crate::specs::StatementReader::goes_on))]
pub fn goes_on(tokens: &[Token]) -> bool
    ensures value { result ≡ reader.goes_on (tokens_of tokens.now) }
{
    let Some((next, _)) = tokens.split_first() else {
        return false;
    };
    !matches!(stmt_token(&next.kind), StmtToken::End)
}

/// Whether the statements after a label go on.
#[tactic(auto, unfolding(crate::specs::StatementReader::case_goes_on))]
pub fn case_goes_on(tokens: &[Token]) -> bool
    ensures value { result ≡ reader.case_goes_on (tokens_of tokens.now) }
{
    let Some((next, _)) = tokens.split_first() else {
        return false;
    };
    !matches!(
        stmt_token(&next.kind),
        StmtToken::End | StmtToken::Case | StmtToken::Default
    )
}

/// Why a statement can't begin where no deeper one may.
#[tactic(auto, unfolding(crate::specs::StatementReader::stmt_limit_at))]
pub fn limit(tokens: &[Token]) -> ParseError
    ensures fails { Fails result (reader.stmt_limit_at (tokens_of tokens.now)) }
{
    let Some((next, _)) = tokens.split_first() else {
        return ParseError::unexpected(tokens);
    };
    if begins_statement(&next.kind) {
        ParseError::too_deep(tokens)
    } else {
        ParseError::unexpected(tokens)
    }
}

/// The word `while`.
#[tactic(auto, unfolding(crate::specs::StatementReader::while_at))]
pub fn expect_while(tokens: &[Token]) -> ParseResult<'_, Position>
    ensures parsed { ParsesAs (λ x. x) result (reader.while_at (tokens_of tokens.now)) }
{
    let Some((next, rest)) = tokens.split_first() else {
        return Err(ParseError::unexpected(tokens));
    };
    if matches!(stmt_token(&next.kind), StmtToken::While) {
        Ok((place(next), rest))
    } else {
        Err(ParseError::unexpected(tokens))
    }
}
