//! The decimal that the text of a JSON number denotes.
ghost use Rattle.std.specs.Prelude.{◌≡◌, ◌+◌, ◌-◌, ◌*◌, ◌%◌, ◌^◌, ◌<◌, ◌≤◌, ◌++◌, ◌==◌, length, take, drop, min, true};
ghost use Rattle.std.specs.Prelude.{false, pos, ℕ};
ghost use Rattle.std.specs.Prelude.{Some, option_map, IfSome, MatchOption, IsTrue, slice_index, if◌then◌else◌};
ghost use Rattle.std.specs.Option.{SomeIff};
ghost use Rattle.std.specs.Str.Parse.{digits_value, AllDigits};
ghost use Rattle.fast_float.specs.Text.{scan, with_sign};
ghost use Rattle.serde_json.specs.Read.{is_integer};
ghost use Rattle.jskw_value.specs.Decimal.{value};
ghost use Rattle.jskw_text.specs.Tens.{HasTens, HasSignificand, EndsDigits, IsShort, IsTooLarge};
ghost use Rattle.jskw_text.specs.NumberText.{number_of, decimal_from, at_most, at_scale, scaled, scale_of};

use core::dec2flt::{Numeral, digit_at, read_digits, skip_zeros, ten_to};
use jskw_value::Decimal;

/// Returns the decimal that the text of a JSON number denotes, or `None` if there is none.
#[inline(always)]
pub fn parse_decimal(text: &str) -> Option<Decimal>
    ensures { option_map value result ≡ number_of text.now }
{
    let (is_negative, digits) = split_sign(text.as_bytes());
    match few_digits(is_negative, digits) {
        Some(decimal) => Some(decimal),
        None => any_digits(is_negative, digits),
    }
}

// Returns whether a number begins with a minus, and what follows it.
#[inline(always)]
fn split_sign(bytes: &[u8]) -> (bool, &[u8])
    ensures { decimal_from result.0 (scan result.1.now) ≡ number_of bytes.now }
{
    if has_minus(bytes) {
        (true, &bytes[1..])
    } else {
        (false, bytes)
    }
}

// Returns whether the text begins with a minus.
#[inline(always)]
fn has_minus(bytes: &[u8]) -> bool
    ensures value { result ≡ (slice_index bytes.now 0 == 45) }
    ensures len { IsTrue result → 0 < length bytes.now }
{
    !bytes.is_empty() && bytes[0] == b'-'
}

// Returns the decimal of up to 19 bytes without an exponent. Most numbers are such, and nothing but
// their digits is looked at.
#[inline(always)]
fn few_digits(is_negative: bool, bytes: &[u8]) -> Option<Decimal>
    ensures { IfSome result
        (λ decimal. decimal_from is_negative (scan bytes.now) ≡ Some (value decimal)) }
{
    if bytes.is_empty() || bytes.len() > 19 {
        return None;
    }
    let (point, whole) = read_digits(bytes, 0, 0);
    if point == bytes.len() {
        return Decimal::from_parts(is_negative, whole, 0);
    }
    if bytes[point] != b'.' {
        return None;
    }
    let (end, size) = read_digits(bytes, point + 1, whole);
    if end < bytes.len() || end == point + 1 {
        return None;
    }
    Decimal::from_parts(is_negative, size, (end - point - 1) as u8)
}

// Returns the decimal of any bytes.
#[cold]
#[inline(never)]
fn any_digits(is_negative: bool, bytes: &[u8]) -> Option<Decimal>
    ensures { option_map value result ≡ decimal_from is_negative (scan bytes.now) }
{
    decimal_from(is_negative, &scan(bytes))
}

// Returns the parts of the numeral at the front of the bytes.
#[inline(always)]
fn scan(bytes: &[u8]) -> Numeral<'_>
    ensures parts { result ≡ scan bytes.now }
    ensures short { IsShort result }
{
    Numeral::scan(bytes)
}

// Returns the decimal that a sign and a numeral denote.
#[inline(always)]
fn decimal_from(negative: bool, numeral: &Numeral<'_>) -> Option<Decimal>
    requires { IsShort numeral.now }
    ensures { option_map value result ≡ decimal_from negative numeral.now }
{
    let significand = significand_of(numeral)?;
    if is_integer(numeral) {
        at_scale(negative, numeral, significand, 0)
    } else {
        at_most(negative, numeral, significand, scale_of(numeral))
    }
}

// Returns whether there is neither a point nor an exponent.
#[inline(always)]
fn is_integer(numeral: &Numeral<'_>) -> bool
    ensures { result ≡ is_integer numeral.now }
{
    !numeral.whole().is_empty() && !numeral.has_point() && numeral.exponent().is_empty()
}

// Returns the number of digits behind the point, but 1 at least and 18 at most.
fn scale_of(numeral: &Numeral<'_>) -> u8
    ensures value { result ≡ scale_of numeral.now }
    ensures most { result ≤ 18 }
{
    let (up, down) = tens(numeral);
    down.saturating_sub(up).max(1).min(18) as u8
}

// Returns by how many tens the digits are multiplied, and by how many they are divided. An exponent
// beyond 2^64 - 1 counts as that, which is more than any text has digits.
#[inline(always)]
fn tens(numeral: &Numeral<'_>) -> (u128, u128)
    ensures { HasTens numeral.now result.0 result.1 }
{
    let places = numeral.fraction().len() as u128;
    let power = numeral.saturated_exponent() as u128;
    if numeral.is_exponent_negative() {
        (0, places + power)
    } else {
        (power, places)
    }
}

// Returns the decimal with the greatest scale, up to the one given, that has the value.
#[inline(never)]
fn at_most(
    negative: bool,
    numeral: &Numeral<'_>,
    significand: Significand,
    scale: u8,
) -> Option<Decimal>
    requires digits { HasSignificand numeral.now significand.size significand.zeros }
    requires scale { scale ≤ 18 }
    ensures { option_map value result ≡ at_most negative numeral.now scale }
{
    if scale == 0 {
        return None;
    }
    match at_scale(negative, numeral, significand, scale) {
        Some(decimal) => Some(decimal),
        None => at_most(negative, numeral, significand, scale - 1),
    }
}

// Returns the decimal of that scale that has the value.
#[inline(always)]
fn at_scale(
    negative: bool,
    numeral: &Numeral<'_>,
    significand: Significand,
    scale: u8,
) -> Option<Decimal>
    requires digits { HasSignificand numeral.now significand.size significand.zeros }
    requires scale { scale ≤ 18 }
    ensures { option_map value result ≡ at_scale negative numeral.now scale }
{
    let size = scaled(numeral, significand, scale)?;
    let coefficient = with_sign(negative, size);
    Decimal::new(coefficient, scale)
}

// Returns n or -n.
#[inline(always)]
fn with_sign(negative: bool, size: u64) -> i128
    ensures { result ≡ with_sign negative size }
{
    if negative {
        -(size as i128)
    } else {
        size as i128
    }
}

// Returns the number without its sign, times ten to the power of the scale, if that is whole and
// below 2^64.
fn scaled(numeral: &Numeral<'_>, significand: Significand, scale: u8) -> Option<u64>
    requires digits { HasSignificand numeral.now significand.size significand.zeros }
    requires scale { scale ≤ 18 }
    ensures { MatchOption result (IfSome (scaled numeral.now scale) (λ n. 2 ^ 64 ≤ n))
        (λ n. scaled numeral.now scale ≡ Some n) }
{
    if significand.size == 0 {
        return Some(0);
    }
    let (up, down) = tens(numeral);
    let up = up + significand.zeros as u128 + scale as u128;
    if up < down {
        return None;
    }
    let zeros = up - down;
    if zeros > 19 {
        return None;
    }
    significand.size.checked_mul(ten_to(zeros as u64))
}

// All digits of a numeral as one number, without the zeros at its end, and how many these are.
#[derive(Clone, Copy)]
struct Significand {
    size: u64,
    zeros: usize,
}

// Returns the significand of a numeral, or `None` if it is 2^64 or more, so that no scale makes the
// number fit. Each digit is looked at once or twice, whatever the scale.
fn significand_of(numeral: &Numeral<'_>) -> Option<Significand>
    requires { IsShort numeral.now }
    ensures { MatchOption result (IsTooLarge numeral.now)
        (λ s. HasSignificand numeral.now s.size s.zeros) }
{
    let whole = numeral.whole();
    let fraction = numeral.fraction();
    let kept = last_digit(whole, fraction);
    let size = first_digits(whole, fraction, kept)?;
    let zeros = whole.len() + fraction.len() - kept;
    Some(Significand { size, zeros })
}

// Returns how many digits there are up to the last that is not 0.
fn last_digit(whole: &[u8], fraction: &[u8]) -> usize
    requires { AllDigits 10 (whole.now ++ fraction.now) }
    ensures { EndsDigits (whole.now ++ fraction.now) result }
{
    match without_zeros(fraction) {
        0 => without_zeros(whole),
        places => whole.len() + places,
    }
}

// Returns how many digits there are up to the last that is not 0.
fn without_zeros(digits: &[u8]) -> usize
    requires { AllDigits 10 digits.now }
    ensures { EndsDigits digits.now result }
{
    let mut end = digits.len();
    while end > 0 && digits[end - 1] == b'0' {
        end -= 1;
    }
    end
}

// Returns the value of the first digits, or `None` if it is 2^64 or more.
fn first_digits(whole: &[u8], fraction: &[u8], count: usize) -> Option<u64>
    requires digits { AllDigits 10 (whole.now ++ fraction.now) }
    requires within { count ≤ length whole.now + length fraction.now }
    ensures { SomeIff result (digits_value 10 (take count (whole.now ++ fraction.now)) < 2 ^ 64)
        (digits_value 10 (take count (whole.now ++ fraction.now))) }
{
    let mut value = 0u64;
    for at in skip_zeros(whole, fraction, 0).min(count)..count {
        value = value
            .checked_mul(10)?
            .checked_add(digit_at(whole, fraction, at))?;
    }
    Some(value)
}
