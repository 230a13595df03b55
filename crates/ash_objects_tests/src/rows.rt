//! Every operator on every type at its extremes, with rows that are worked out by hand.

use crate::checks::expect_all;
use Arithmetic::{Add, BitAnd, BitOr, BitXor, Divide, Multiply, Remainder, Subtract};
use Call::{Calculate, Complement, Convert, Negate, Shifted};
use DivisionFault::{ByZero, Overflow};
use IntType::{Int, Int64, Uint, Uint64};
use ash_host::Word;
use ash_integers::{
    Arithmetic, DivisionFault, IntType, Shift, calculate, complement, convert, negate, number,
    shift_by, word_from,
};

/// The least `int`.
pub const LEAST_INT: i128 = -2_147_483_648;

/// The greatest `int`.
pub const GREATEST_INT: i128 = 2_147_483_647;

/// The greatest `uint`.
pub const GREATEST_UINT: i128 = 4_294_967_295;

/// The least `int64`.
pub const LEAST_INT64: i128 = -9_223_372_036_854_775_808;

/// The greatest `int64`.
pub const GREATEST_INT64: i128 = 9_223_372_036_854_775_807;

/// The greatest `uint64`.
pub const GREATEST_UINT64: i128 = 18_446_744_073_709_551_615;

/// A call of an operator. Its operands are numbers of its type, but for the count of a shift and what is converted.
#[derive(Clone, Copy)]
pub enum Call {
    Calculate(Arithmetic, i128, i128),
    Shifted(Shift, i128, Word),
    Convert(Word),
    Negate(i128),
    Complement(i128),
}

/// A call, its type and its result.
pub type Row = (Call, IntType, Result<i128, DivisionFault>);

fn is_of(of: IntType, word: Word) -> bool {
    match of {
        IntType::Int => matches!(&word, Word::Int(_)),
        IntType::Uint => matches!(&word, Word::Uint(_)),
        IntType::Int64 => matches!(&word, Word::Int64(_)),
        IntType::Uint64 => matches!(&word, Word::Uint64(_)),
    }
}

// Each contract is seen once, here.
fn result(call: Call, of: IntType) -> Result<Word, DivisionFault> {
    match call {
        Calculate(operator, left, right) => {
            calculate(operator, of, word_from(of, left), word_from(of, right))
        }
        Shifted(operator, left, count) => Ok(shift_by(operator, of, word_from(of, left), count)),
        Convert(word) => Ok(convert(of, word)),
        Negate(operand) => Ok(negate(of, word_from(of, operand))),
        Complement(operand) => Ok(complement(of, word_from(of, operand))),
    }
}

/// Whether a word is this number of this type.
pub fn is_number(of: IntType, word: Word, wanted: i128) -> bool {
    is_of(of, word) && number(word) == wanted
}

fn is_met(row: Row) -> bool {
    let (call, of, wanted) = row;
    match (result(call, of), wanted) {
        (Ok(word), Ok(wanted)) => is_number(of, word, wanted),
        (Err(fault), Err(wanted)) => fault == wanted,
        _ => false,
    }
}

/// The place of the first row whose call has another result.
pub fn first_unmet(rows: &[Row]) -> Option<usize> {
    for place in 0..rows.len() {
        if !is_met(rows[place]) {
            return Some(place);
        }
    }
    None
}

static SUMS: [Row; 13] = [
    (Calculate(Add, GREATEST_INT, 1), Int, Ok(LEAST_INT)),
    (Calculate(Add, LEAST_INT, -1), Int, Ok(GREATEST_INT)),
    (Calculate(Add, GREATEST_UINT, 1), Uint, Ok(0)),
    (
        Calculate(Add, 4_000_000_000, 500_000_000),
        Uint,
        Ok(205_032_704),
    ),
    (Calculate(Add, GREATEST_INT64, 1), Int64, Ok(LEAST_INT64)),
    (Calculate(Add, GREATEST_INT, 1), Int64, Ok(2_147_483_648)),
    (Calculate(Add, GREATEST_UINT64, 2), Uint64, Ok(1)),
    (Calculate(Subtract, LEAST_INT, 1), Int, Ok(GREATEST_INT)),
    (Calculate(Subtract, 0, LEAST_INT), Int, Ok(LEAST_INT)),
    (Calculate(Subtract, 0, 1), Uint, Ok(GREATEST_UINT)),
    (Calculate(Subtract, 3, 4_294_967_295), Uint, Ok(4)),
    (
        Calculate(Subtract, LEAST_INT64, 1),
        Int64,
        Ok(GREATEST_INT64),
    ),
    (Calculate(Subtract, 0, 1), Uint64, Ok(GREATEST_UINT64)),
];

#[test]
fn sums_and_differences(rt: HostRuntime) {
    expect_all(&rt, Ok(first_unmet(&SUMS)));
}

static PRODUCTS: [Row; 9] = [
    (Calculate(Multiply, 65_536, 65_536), Int, Ok(0)),
    (Calculate(Multiply, 46_341, 46_341), Int, Ok(-2_147_479_015)),
    (Calculate(Multiply, LEAST_INT, -1), Int, Ok(LEAST_INT)),
    (Calculate(Multiply, 65_536, 65_537), Uint, Ok(65_536)),
    (
        Calculate(Multiply, GREATEST_UINT, GREATEST_UINT),
        Uint,
        Ok(1),
    ),
    (Calculate(Multiply, LEAST_INT64, -1), Int64, Ok(LEAST_INT64)),
    (
        Calculate(Multiply, 4_294_967_296, 2_147_483_648),
        Int64,
        Ok(LEAST_INT64),
    ),
    (
        Calculate(Multiply, GREATEST_UINT64, GREATEST_UINT64),
        Uint64,
        Ok(1),
    ),
    (
        Calculate(Multiply, 4_294_967_296, 4_294_967_297),
        Uint64,
        Ok(4_294_967_296),
    ),
];

#[test]
fn products(rt: HostRuntime) {
    expect_all(&rt, Ok(first_unmet(&PRODUCTS)));
}

static QUOTIENTS: [Row; 25] = [
    (Calculate(Divide, -7, 2), Int, Ok(-3)),
    (Calculate(Divide, 7, -2), Int, Ok(-3)),
    (Calculate(Divide, -7, -2), Int, Ok(3)),
    (Calculate(Divide, 5, 0), Int, Err(ByZero)),
    (Calculate(Divide, LEAST_INT, -1), Int, Err(Overflow)),
    (Calculate(Divide, LEAST_INT, 1), Int, Ok(LEAST_INT)),
    (Calculate(Divide, GREATEST_INT, -1), Int, Ok(-2_147_483_647)),
    (Calculate(Divide, LEAST_INT, 0), Int, Err(ByZero)),
    (Calculate(Divide, 4_000_000_000, 2), Uint, Ok(2_000_000_000)),
    (Calculate(Divide, GREATEST_UINT, 0), Uint, Err(ByZero)),
    (Calculate(Divide, LEAST_INT64, -1), Int64, Err(Overflow)),
    (Calculate(Divide, LEAST_INT, -1), Int64, Ok(2_147_483_648)),
    (Calculate(Divide, 0, 0), Int64, Err(ByZero)),
    (
        Calculate(Divide, GREATEST_UINT64, 10),
        Uint64,
        Ok(1_844_674_407_370_955_161),
    ),
    (Calculate(Divide, 1, 0), Uint64, Err(ByZero)),
    (Calculate(Remainder, -7, 2), Int, Ok(-1)),
    (Calculate(Remainder, 7, -2), Int, Ok(1)),
    (Calculate(Remainder, -8, 2), Int, Ok(0)),
    (Calculate(Remainder, LEAST_INT, -1), Int, Err(Overflow)),
    (Calculate(Remainder, 5, 0), Int, Err(ByZero)),
    (Calculate(Remainder, GREATEST_UINT, 10), Uint, Ok(5)),
    (Calculate(Remainder, 5, 0), Uint, Err(ByZero)),
    (Calculate(Remainder, LEAST_INT64, -1), Int64, Err(Overflow)),
    (Calculate(Remainder, LEAST_INT64, 10), Int64, Ok(-8)),
    (Calculate(Remainder, GREATEST_UINT64, 10), Uint64, Ok(5)),
];

#[test]
fn quotients_and_remainders(rt: HostRuntime) {
    expect_all(&rt, Ok(first_unmet(&QUOTIENTS)));
}

static BITS: [Row; 12] = [
    (Calculate(BitAnd, -1, 12), Int, Ok(12)),
    (Calculate(BitAnd, -4, -6), Int, Ok(-8)),
    (Calculate(BitOr, -8, 3), Int, Ok(-5)),
    (Calculate(BitXor, -1, GREATEST_INT), Int, Ok(LEAST_INT)),
    (
        Calculate(BitAnd, GREATEST_UINT, 2_147_483_648),
        Uint,
        Ok(2_147_483_648),
    ),
    (Calculate(BitOr, 2_147_483_648, 1), Uint, Ok(2_147_483_649)),
    (Calculate(BitXor, GREATEST_UINT, 1), Uint, Ok(4_294_967_294)),
    (Calculate(BitAnd, LEAST_INT64, -1), Int64, Ok(LEAST_INT64)),
    (Calculate(BitOr, 4_294_967_296, 1), Int64, Ok(4_294_967_297)),
    (Calculate(BitXor, -1, 0), Int64, Ok(-1)),
    (Calculate(BitAnd, GREATEST_UINT64, 255), Uint64, Ok(255)),
    (
        Calculate(BitXor, GREATEST_UINT64, GREATEST_UINT64),
        Uint64,
        Ok(0),
    ),
];

#[test]
fn bits(rt: HostRuntime) {
    expect_all(&rt, Ok(first_unmet(&BITS)));
}
