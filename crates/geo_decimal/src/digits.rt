//! Arithmetic on the digits of a number.

ghost use Rattle.std.specs.Prelude.{◌≡◌, ◌+◌, ◌*◌, ◌^◌, ◌≤◌, ◌++◌, min, take, slice_index_or, nat_le, if◌then◌else◌};
ghost use Rattle.std.specs.Option.{SomeIff};
ghost use Rattle.std.specs.Str.Parse.{AllDigits, digits_value, digits_value_after};
ghost use Rattle.geo_decimal.specs.Rounding.{front_value, rounded_at};

/// The greatest size of a coordinate: half a turn in nanodegrees.
pub(crate) const LIMIT: u64 = 180_000_000_000;

/// The number that the digits write, and `usize::MAX` where it is greater.
pub(crate) fn capped_value(digits: &[u8]) -> usize
    requires { AllDigits 10 digits.now }
    ensures { result ≡ min (digits_value 10 digits.now) usize.MAX }
{
    let mut value = 0usize;
    for digit in digits {
        value = value
            .saturating_mul(10)
            .saturating_add((*digit - b'0') as usize);
    }
    value
}

/// The number that the first `kept` digits write, filled up with zeros and rounded by the digit behind them, if it is not past the limit.
pub(crate) fn rounded(whole: &[u8], fraction: &[u8], kept: usize) -> Option<u64>
    requires whole { AllDigits 10 whole.now }
    requires fraction { AllDigits 10 fraction.now }
    ensures { let size = rounded_at (whole.now ++ fraction.now) kept in SomeIff result (size ≤ LIMIT) size }
{
    let value = cut_off(whole, fraction, kept)?;
    within_limit(rounded_up(value, digit_at(whole, fraction, kept)))
}

fn cut_off(whole: &[u8], fraction: &[u8], kept: usize) -> Option<u64>
    requires whole { AllDigits 10 whole.now }
    requires fraction { AllDigits 10 fraction.now }
    ensures { let size = front_value (whole.now ++ fraction.now) kept in SomeIff result (size ≤ LIMIT) size }
{
    let behind = kept.saturating_sub(whole.len());
    let value = with_digits(0, front(whole, kept))?;
    let value = with_digits(value, front(fraction, behind))?;
    with_zeros(value, behind.saturating_sub(fraction.len()))
}

fn rounded_up(value: u64, next: u8) -> u64
    requires { value ≤ LIMIT }
    ensures { result ≡ value + (if nat_le 53 next then 1 else 0) }
{
    if next >= b'5' { value + 1 } else { value }
}

fn within_limit(size: u64) -> Option<u64>
    ensures { SomeIff result (size ≤ LIMIT) size }
{
    if size <= LIMIT { Some(size) } else { None }
}

fn front(digits: &[u8], most: usize) -> &[u8]
    ensures { result.now ≡ take most digits.now }
{
    if most < digits.len() {
        &digits[..most]
    } else {
        digits
    }
}

fn digit_at(whole: &[u8], fraction: &[u8], place: usize) -> u8
    ensures { result ≡ slice_index_or (whole.now ++ fraction.now) place 48 }
{
    if place < whole.len() {
        whole[place]
    } else if place - whole.len() < fraction.len() {
        fraction[place - whole.len()]
    } else {
        b'0'
    }
}

fn with_digits(start: u64, digits: &[u8]) -> Option<u64>
    requires digits { AllDigits 10 digits.now }
    requires start { start ≤ LIMIT }
    ensures { let size = digits_value_after 10 start digits.now in SomeIff result (size ≤ LIMIT) size }
{
    let mut value = start;
    for digit in digits {
        value = value * 10 + (*digit - b'0') as u64;
        if value > LIMIT {
            return None;
        }
    }
    Some(value)
}

fn with_zeros(start: u64, count: usize) -> Option<u64>
    requires { start ≤ LIMIT }
    ensures { let size = start * 10 ^ count in SomeIff result (size ≤ LIMIT) size }
{
    let mut value = start;
    let mut zeros = count;
    while zeros > 0 && value > 0 {
        value *= 10;
        zeros -= 1;
        if value > LIMIT {
            return None;
        }
    }
    Some(value)
}
