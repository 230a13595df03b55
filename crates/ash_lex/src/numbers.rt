//! The values of numerals.

ghost use Rattle.std.specs.Prelude.{◌≡◌, ◌<◌, ◌≤◌, ◌^◌, SomeIff};
ghost use Rattle.ash_lex.specs.Bytes as spec;

/// What a digit counts, as `10` for `a` and for `A`.
fn digit_value(digit: u8) -> u64
    ensures value { result ≡ spec.digit_value digit }
{
    match digit {
        b'0'..=b'9' => u64::from(digit - b'0'),
        b'a'..=b'f' => u64::from(digit - b'a') + 10,
        b'A'..=b'F' => u64::from(digit - b'A') + 10,
        _ => 0,
    }
}

/// The number that the digits are in a base, if it is below 2^64.
pub fn value_in(base: u64, digits: &[u8]) -> Option<u64>
    requires base { 0 < base }
    ensures value { SomeIff result (spec.value_in base digits.now < 2 ^ 64)
        (spec.value_in base digits.now) }
{
    let mut value: u64 = 0;
    for digit in digits {
        let Some(shifted) = value.checked_mul(base) else {
            return None;
        };
        let Some(sum) = shifted.checked_add(digit_value(*digit)) else {
            return None;
        };
        value = sum;
    }
    Some(value)
}
