//! Shifts, conversions, operators of one operand and comparisons, at the extremes of each type.

use crate::checks::expect_all;
use crate::rows::{
    Call, GREATEST_INT, GREATEST_INT64, GREATEST_UINT, GREATEST_UINT64, LEAST_INT, LEAST_INT64,
    Row, first_unmet, is_number,
};
use Call::{Complement, Convert, Negate, Shifted};
use Comparison::{Equal, Greater, GreaterOrEqual, Less, LessOrEqual, NotEqual};
use IntType::{Int, Int64, Uint, Uint64};
use Shift::{Left, Right, RightArithmetic};
use ash_host::Word;
use ash_integers::{Arithmetic, Comparison, IntType, Shift, calculate, compare, number};

static SHIFTS: [Row; 18] = [
    (Shifted(Left, 1, Word::Int(33)), Int, Ok(2)),
    (Shifted(Left, 1, Word::Int(31)), Int, Ok(LEAST_INT)),
    (Shifted(Left, 3, Word::Int(31)), Int, Ok(LEAST_INT)),
    (Shifted(Left, 1, Word::Int(-1)), Int, Ok(LEAST_INT)),
    (
        Shifted(Left, GREATEST_UINT, Word::Uint(4)),
        Uint,
        Ok(4_294_967_280),
    ),
    (Shifted(Left, 1, Word::Int(33)), Int64, Ok(8_589_934_592)),
    (Shifted(Left, 1, Word::Uint64(64)), Int64, Ok(1)),
    (
        Shifted(Left, 3, Word::Int64(-1)),
        Uint64,
        Ok(9_223_372_036_854_775_808),
    ),
    (Shifted(Right, -1, Word::Int(28)), Int, Ok(15)),
    (Shifted(Right, -1, Word::Int(32)), Int, Ok(-1)),
    (Shifted(Right, GREATEST_UINT, Word::Int(28)), Uint, Ok(15)),
    (Shifted(Right, -1, Word::Int(60)), Int64, Ok(15)),
    (
        Shifted(Right, GREATEST_UINT64, Word::Uint64(63)),
        Uint64,
        Ok(1),
    ),
    (Shifted(RightArithmetic, -1, Word::Int(28)), Int, Ok(-1)),
    (
        Shifted(RightArithmetic, GREATEST_INT, Word::Int(28)),
        Int,
        Ok(7),
    ),
    (
        Shifted(RightArithmetic, 2_147_483_648, Word::Int(31)),
        Uint,
        Ok(GREATEST_UINT),
    ),
    (
        Shifted(RightArithmetic, LEAST_INT64, Word::Int(62)),
        Int64,
        Ok(-2),
    ),
    (
        Shifted(RightArithmetic, 9_223_372_036_854_775_808, Word::Int(63)),
        Uint64,
        Ok(GREATEST_UINT64),
    ),
];

#[test]
fn shifts(rt: HostRuntime) {
    expect_all(&rt, Ok(first_unmet(&SHIFTS)));
}

static CONVERSIONS: [Row; 16] = [
    (Convert(Word::Uint(4_294_967_295)), Int, Ok(-1)),
    (Convert(Word::Int64(4_294_967_297)), Int, Ok(1)),
    (Convert(Word::Uint64(2_147_483_648)), Int, Ok(LEAST_INT)),
    (Convert(Word::Int(-5)), Int, Ok(-5)),
    (Convert(Word::Int(-1)), Uint, Ok(GREATEST_UINT)),
    (Convert(Word::Int64(-1)), Uint, Ok(GREATEST_UINT)),
    (
        Convert(Word::Uint64(18_446_744_073_709_551_615)),
        Uint,
        Ok(GREATEST_UINT),
    ),
    (Convert(Word::Uint(7)), Uint, Ok(7)),
    (Convert(Word::Int(-1)), Int64, Ok(-1)),
    (Convert(Word::Uint(4_294_967_295)), Int64, Ok(GREATEST_UINT)),
    (
        Convert(Word::Uint64(18_446_744_073_709_551_615)),
        Int64,
        Ok(-1),
    ),
    (Convert(Word::Int64(-9)), Int64, Ok(-9)),
    (Convert(Word::Int(-1)), Uint64, Ok(GREATEST_UINT64)),
    (
        Convert(Word::Uint(4_294_967_295)),
        Uint64,
        Ok(GREATEST_UINT),
    ),
    (
        Convert(Word::Int64(-9_223_372_036_854_775_808)),
        Uint64,
        Ok(9_223_372_036_854_775_808),
    ),
    (Convert(Word::Uint64(1)), Uint64, Ok(1)),
];

#[test]
fn conversions(rt: HostRuntime) {
    expect_all(&rt, Ok(first_unmet(&CONVERSIONS)));
}

static OF_ONE_OPERAND: [Row; 16] = [
    (Negate(LEAST_INT), Int, Ok(LEAST_INT)),
    (Complement(LEAST_INT), Int, Ok(GREATEST_INT)),
    (Negate(5), Int, Ok(-5)),
    (Complement(5), Int, Ok(-6)),
    (Negate(1), Uint, Ok(GREATEST_UINT)),
    (Complement(1), Uint, Ok(4_294_967_294)),
    (Negate(0), Uint, Ok(0)),
    (Complement(0), Uint, Ok(GREATEST_UINT)),
    (Negate(LEAST_INT64), Int64, Ok(LEAST_INT64)),
    (Complement(LEAST_INT64), Int64, Ok(GREATEST_INT64)),
    (Negate(4_294_967_296), Int64, Ok(-4_294_967_296)),
    (Complement(4_294_967_296), Int64, Ok(-4_294_967_297)),
    (Negate(1), Uint64, Ok(GREATEST_UINT64)),
    (Complement(1), Uint64, Ok(18_446_744_073_709_551_614)),
    (Negate(0), Uint64, Ok(0)),
    (Complement(0), Uint64, Ok(GREATEST_UINT64)),
];

#[test]
fn operators_of_one_operand(rt: HostRuntime) {
    expect_all(&rt, Ok(first_unmet(&OF_ONE_OPERAND)));
}

// A comparison, its operands and its result.
type Compared = (Comparison, Word, Word, bool);

fn is_compared(row: Compared) -> bool {
    let (comparison, left, right, wanted) = row;
    compare(comparison, left, right) == wanted
}

fn first_not_compared(rows: &[Compared]) -> Option<usize> {
    for place in 0..rows.len() {
        if !is_compared(rows[place]) {
            return Some(place);
        }
    }
    None
}

static COMPARISONS: [Compared; 30] = [
    (Less, Word::Int(-1), Word::Int(0), true),
    (LessOrEqual, Word::Int(-1), Word::Int(0), true),
    (Greater, Word::Int(-1), Word::Int(0), false),
    (GreaterOrEqual, Word::Int(-1), Word::Int(0), false),
    (Equal, Word::Int(-1), Word::Int(0), false),
    (NotEqual, Word::Int(-1), Word::Int(0), true),
    (Less, Word::Uint(4_294_967_295), Word::Uint(0), false),
    (LessOrEqual, Word::Uint(4_294_967_295), Word::Uint(0), false),
    (Greater, Word::Uint(4_294_967_295), Word::Uint(0), true),
    (
        GreaterOrEqual,
        Word::Uint(4_294_967_295),
        Word::Uint(0),
        true,
    ),
    (Equal, Word::Uint(4_294_967_295), Word::Uint(0), false),
    (NotEqual, Word::Uint(4_294_967_295), Word::Uint(0), true),
    (Less, Word::Int64(7), Word::Int64(7), false),
    (LessOrEqual, Word::Int64(7), Word::Int64(7), true),
    (Greater, Word::Int64(7), Word::Int64(7), false),
    (GreaterOrEqual, Word::Int64(7), Word::Int64(7), true),
    (Equal, Word::Int64(7), Word::Int64(7), true),
    (NotEqual, Word::Int64(7), Word::Int64(7), false),
    (
        Less,
        Word::Int64(-9_223_372_036_854_775_808),
        Word::Int64(9_223_372_036_854_775_807),
        true,
    ),
    (
        LessOrEqual,
        Word::Int64(-9_223_372_036_854_775_808),
        Word::Int64(9_223_372_036_854_775_807),
        true,
    ),
    (
        Greater,
        Word::Int64(-9_223_372_036_854_775_808),
        Word::Int64(9_223_372_036_854_775_807),
        false,
    ),
    (
        GreaterOrEqual,
        Word::Int64(-9_223_372_036_854_775_808),
        Word::Int64(9_223_372_036_854_775_807),
        false,
    ),
    (
        Equal,
        Word::Int64(-9_223_372_036_854_775_808),
        Word::Int64(9_223_372_036_854_775_807),
        false,
    ),
    (
        NotEqual,
        Word::Int64(-9_223_372_036_854_775_808),
        Word::Int64(9_223_372_036_854_775_807),
        true,
    ),
    (
        Less,
        Word::Uint64(18_446_744_073_709_551_615),
        Word::Uint64(9_223_372_036_854_775_808),
        false,
    ),
    (
        LessOrEqual,
        Word::Uint64(18_446_744_073_709_551_615),
        Word::Uint64(9_223_372_036_854_775_808),
        false,
    ),
    (
        Greater,
        Word::Uint64(18_446_744_073_709_551_615),
        Word::Uint64(9_223_372_036_854_775_808),
        true,
    ),
    (
        GreaterOrEqual,
        Word::Uint64(18_446_744_073_709_551_615),
        Word::Uint64(9_223_372_036_854_775_808),
        true,
    ),
    (
        Equal,
        Word::Uint64(18_446_744_073_709_551_615),
        Word::Uint64(9_223_372_036_854_775_808),
        false,
    ),
    (
        NotEqual,
        Word::Uint64(18_446_744_073_709_551_615),
        Word::Uint64(9_223_372_036_854_775_808),
        true,
    ),
];

#[test]
fn comparisons(rt: HostRuntime) {
    expect_all(&rt, Ok(first_not_compared(&COMPARISONS)));
}

#[test]
fn a_word_of_another_type_reads_as_zero(rt: HostRuntime) {
    let is_met = match calculate(Arithmetic::Add, Int, Word::Uint(5), Word::Int(2)) {
        Ok(word) => is_number(Int, word, 2),
        Err(_) => false,
    };
    assert!(rt; is_met);
    assert_eq!(rt; number(Word::Null), 0);
}
