//! Which tokens are operators, and which words name primitive types.

ghost use Rattle.std.specs.Prelude.{◌≡◌, ◌<◌, option_map};
ghost use Rattle.ash_lex.specs.Tokens.{meaning_of};
ghost use Rattle.ash_tree.specs.GrammarTokens.{tokens_of};
ghost use Rattle.ash_tree.specs.Operators as spec;
ghost use Rattle.ash_parse.specs.ExpressionReader as reader;

use ash_lex::{ReservedWord, Sign, Token, TokenKind};
use ash_tree::{AssignOp, BinaryOp, Primitive, UnaryOp};

/// The loosest level of operators.
pub const MAX_LEVEL: u32 = 10;

/// The primitive type that a word names.
#[tactic(auto, unfolding(ash_tree::specs::Operators::primitive))]
pub fn primitive(kind: &TokenKind) -> Option<Primitive>
    ensures value { result ≡ spec.primitive (meaning_of kind.now) }
{
    match kind {
        TokenKind::Reserved(ReservedWord::Bool) => Some(Primitive::Bool),
        TokenKind::Reserved(ReservedWord::Int | ReservedWord::Int32) => Some(Primitive::Int),
        TokenKind::Reserved(ReservedWord::Int64) => Some(Primitive::Int64),
        TokenKind::Reserved(ReservedWord::Uint | ReservedWord::Uint32) => Some(Primitive::Uint),
        TokenKind::Reserved(ReservedWord::Uint64) => Some(Primitive::Uint64),
        _ => None,
    }
}

/// The operator that a token is before its operand.
#[tactic(auto, unfolding(ash_tree::specs::Operators::unary_operator))]
pub fn unary_operator(kind: &TokenKind) -> Option<UnaryOp>
    ensures value { result ≡ spec.unary_operator (meaning_of kind.now) }
{
    match kind {
        TokenKind::Sign(Sign::Plus) => Some(UnaryOp::Plus),
        TokenKind::Sign(Sign::Minus) => Some(UnaryOp::Minus),
        TokenKind::Sign(Sign::LogicalNot) => Some(UnaryOp::Not),
        TokenKind::Reserved(ReservedWord::Not) => Some(UnaryOp::Not),
        TokenKind::Sign(Sign::BitNot) => Some(UnaryOp::BitNot),
        TokenKind::Sign(Sign::Increment) => Some(UnaryOp::Increment),
        TokenKind::Sign(Sign::Decrement) => Some(UnaryOp::Decrement),
        TokenKind::Sign(Sign::Handle) => Some(UnaryOp::Handle),
        _ => None,
    }
}

/// The operator that a token is between two operands.
#[tactic(auto, unfolding(ash_tree::specs::Operators::binary_operator))]
pub fn binary_operator(kind: &TokenKind) -> Option<BinaryOp>
    ensures value { result ≡ spec.binary_operator (meaning_of kind.now) }
{
    let operator = match kind {
        TokenKind::Sign(Sign::Star) => BinaryOp::Multiply,
        TokenKind::Sign(Sign::Slash) => BinaryOp::Divide,
        TokenKind::Sign(Sign::Percent) => BinaryOp::Remainder,
        TokenKind::Sign(Sign::Plus) => BinaryOp::Add,
        TokenKind::Sign(Sign::Minus) => BinaryOp::Subtract,
        TokenKind::Sign(Sign::ShiftLeft) => BinaryOp::ShiftLeft,
        TokenKind::Sign(Sign::ShiftRight) => BinaryOp::ShiftRight,
        TokenKind::Sign(Sign::ShiftRightArithmetic) => BinaryOp::ShiftRightArithmetic,
        TokenKind::Sign(Sign::BitAnd) => BinaryOp::BitAnd,
        TokenKind::Sign(Sign::BitXor) => BinaryOp::BitXor,
        TokenKind::Sign(Sign::BitOr) => BinaryOp::BitOr,
        TokenKind::Sign(Sign::Less) => BinaryOp::Less,
        TokenKind::Sign(Sign::LessOrEqual) => BinaryOp::LessOrEqual,
        TokenKind::Sign(Sign::Greater) => BinaryOp::Greater,
        TokenKind::Sign(Sign::GreaterOrEqual) => BinaryOp::GreaterOrEqual,
        TokenKind::Sign(Sign::Equal) => BinaryOp::Equal,
        TokenKind::Sign(Sign::NotEqual) => BinaryOp::NotEqual,
        TokenKind::Reserved(ReservedWord::Is) => BinaryOp::Is,
        TokenKind::Sign(Sign::NotIs) => BinaryOp::NotIs,
        TokenKind::Sign(Sign::LogicalXor) => BinaryOp::Xor,
        TokenKind::Reserved(ReservedWord::Xor) => BinaryOp::Xor,
        TokenKind::Sign(Sign::LogicalAnd) => BinaryOp::And,
        TokenKind::Reserved(ReservedWord::And) => BinaryOp::And,
        TokenKind::Sign(Sign::LogicalOr) => BinaryOp::Or,
        TokenKind::Reserved(ReservedWord::Or) => BinaryOp::Or,
        _ => return None,
    };
    Some(operator)
}

/// The level of an operator, from 1 for the tightest to 10.
#[tactic(auto, unfolding(ash_tree::specs::Operators::level))]
pub fn level(operator: BinaryOp) -> u32
    ensures value { result ≡ spec.level operator }
{
    match operator {
        BinaryOp::Multiply | BinaryOp::Divide | BinaryOp::Remainder => 1,
        BinaryOp::Add | BinaryOp::Subtract => 2,
        BinaryOp::ShiftLeft | BinaryOp::ShiftRight | BinaryOp::ShiftRightArithmetic => 3,
        BinaryOp::BitAnd => 4,
        BinaryOp::BitXor => 5,
        BinaryOp::BitOr => 6,
        BinaryOp::Less | BinaryOp::LessOrEqual | BinaryOp::Greater | BinaryOp::GreaterOrEqual => 7,
        BinaryOp::Equal | BinaryOp::NotEqual | BinaryOp::Is | BinaryOp::NotIs | BinaryOp::Xor => 8,
        BinaryOp::And => 9,
        BinaryOp::Or => 10,
    }
}

/// The operator that a token is after what it writes to.
#[tactic(auto, unfolding(ash_tree::specs::Operators::assign_operator))]
pub fn assign_operator(kind: &TokenKind) -> Option<AssignOp>
    ensures value { result ≡ spec.assign_operator (meaning_of kind.now) }
{
    let operator = match kind {
        TokenKind::Sign(Sign::Assign) => AssignOp::Assign,
        TokenKind::Sign(Sign::PlusAssign) => AssignOp::Add,
        TokenKind::Sign(Sign::MinusAssign) => AssignOp::Subtract,
        TokenKind::Sign(Sign::StarAssign) => AssignOp::Multiply,
        TokenKind::Sign(Sign::SlashAssign) => AssignOp::Divide,
        TokenKind::Sign(Sign::PercentAssign) => AssignOp::Remainder,
        TokenKind::Sign(Sign::BitAndAssign) => AssignOp::BitAnd,
        TokenKind::Sign(Sign::BitOrAssign) => AssignOp::BitOr,
        TokenKind::Sign(Sign::BitXorAssign) => AssignOp::BitXor,
        TokenKind::Sign(Sign::ShiftLeftAssign) => AssignOp::ShiftLeft,
        TokenKind::Sign(Sign::ShiftRightAssign) => AssignOp::ShiftRight,
        TokenKind::Sign(Sign::ShiftRightArithmeticAssign) => AssignOp::ShiftRightArithmetic,
        _ => return None,
    };
    Some(operator)
}

/// The level of the operator that is next; 0 where none is.
#[tactic(auto, unfolding(crate::specs::ExpressionReader::next_level))]
pub fn next_level(tokens: &[Token]) -> u32
    ensures value { result ≡ reader.next_level (tokens_of tokens.now) }
{
    let Some((next, _)) = tokens.split_first() else {
        return 0;
    };
    match binary_operator(&next.kind) {
        Some(operator) => level(operator),
        None => 0,
    }
}

/// An operator that joins operands of this level.
#[tactic(auto, unfolding(crate::specs::ExpressionReader::operator_at))]
pub fn operator(operands: u32, tokens: &[Token]) -> Option<(BinaryOp, &[Token])>
    requires within { operands < MAX_LEVEL }
    ensures value { option_map (λ x. (x.0, tokens_of x.1.now)) result
        ≡ reader.operator_at operands (tokens_of tokens.now) }
{
    let (next, rest) = tokens.split_first()?;
    let operator = binary_operator(&next.kind)?;
    if level(operator) == operands + 1 {
        Some((operator, rest))
    } else {
        None
    }
}

/// Whether an operator that joins operands of this level is next.
#[tactic(auto, unfolding(crate::specs::ExpressionReader::is_link))]
pub fn begins_link(level: u32, tokens: &[Token]) -> bool
    requires within { level < MAX_LEVEL }
    ensures value { result ≡ reader.is_link level (tokens_of tokens.now) }
{
    operator(level, tokens).is_some()
}

/// Whether the next token begins a suffix: a `.`, a `[`, a `++` or a `--`.
#[tactic(auto, unfolding(crate::specs::ExpressionReader::is_suffix, crate::specs::ExpressionReader::begins_suffix))]
pub fn begins_suffix(tokens: &[Token]) -> bool
    ensures value { result ≡ reader.is_suffix (tokens_of tokens.now) }
{
    let Some((next, _)) = tokens.split_first() else {
        return false;
    };
    matches!(
        &next.kind,
        TokenKind::Sign(Sign::Dot | Sign::OpenBracket | Sign::Increment | Sign::Decrement)
    )
}

/// Whether a token begins an expression.
#[tactic(auto, unfolding(crate::specs::ExpressionReader::begins))]
pub fn begins_expression(kind: &TokenKind) -> bool
    ensures value { result ≡ reader.begins (meaning_of kind.now) }
{
    match kind {
        TokenKind::Name(_)
        | TokenKind::Number(_)
        | TokenKind::Sign(Sign::OpenParenthesis)
        | TokenKind::Reserved(
            ReservedWord::True
            | ReservedWord::False
            | ReservedWord::Null
            | ReservedWord::This
            | ReservedWord::Array
            | ReservedWord::Cast,
        ) => true,
        kind => primitive(kind).is_some() || unary_operator(kind).is_some(),
    }
}
