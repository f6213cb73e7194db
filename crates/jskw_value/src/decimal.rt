//! Exact decimals.
ghost use Rattle.std.specs.Prelude.{◌≡◌, true, ◌≤◌, ◌<◌, ◌-◌, ◌^◌, ℤ, pos, negsuc, ◌*ℤ◌, ◌≤ℤ◌, ◌<ℤ◌};
ghost use Rattle.std.specs.Prelude.{option_map, Some, None, if◌then◌else◌};
ghost use Rattle.jskw_value.specs.Number.{exact, signed, is_decimal, num_equal, cmp_whole, is_multiple_of};

use crate::json::JsonNumber;
use std::cmp::Ordering;

/// An exact decimal number: a coefficient divided by ten to the power of a scale. It keeps the form
/// in which the number is written: 1.0 has coefficient 10 and scale 1. The coefficient is from
/// -2^63 to 2^64-1, the scale from 0 to 18.
#[derive(Clone, Copy, Debug, Drop)]
pub struct Decimal {
    // The size of the coefficient, and whether it is less than 0: half the room of 128 bits.
    size: u64,
    is_negative: bool,
    scale: u8,
    ghost sign: { is_negative ≡ true → 0 < size },
    ghost word: { size < 2 ^ 64 },
    ghost low: { is_negative ≡ true → size ≤ 2 ^ 63 },
    ghost short: { scale ≤ 18 },
}

impl Decimal {
    ghost use Rattle.jskw_value.specs.Decimal.{coefficient, value};

    /// Returns the number with this coefficient and scale, or `None` if one of them is out of
    /// range.
    pub fn new(coefficient: i128, scale: u8) -> Option<Decimal>
        ensures { option_map value result
            ≡ (if is_decimal coefficient scale then Some (exact coefficient scale) else None) }
    {
        if -(1 << 63) <= coefficient && coefficient < 1 << 64 {
            Decimal::from_parts(coefficient < 0, coefficient.unsigned_abs() as u64, scale)
        } else {
            None
        }
    }

    /// Returns the number with a coefficient of this sign and size, and this scale, or `None` if the
    /// coefficient or the scale is out of range. It is 0 if `size` is, whatever the sign.
    #[inline(always)]
    pub fn from_parts(is_negative: bool, size: u64, scale: u8) -> Option<Decimal>
        ensures { option_map value result
            ≡ (if is_decimal (signed is_negative size) scale
            then Some (exact (signed is_negative size) scale) else None) }
    {
        if scale > 18 || is_negative && size > 1 << 63 {
            None
        } else {
            Some(Decimal {
                size,
                is_negative: is_negative && size > 0,
                scale,
            })
        }
    }

    /// Returns the coefficient, from -2^63 to 2^64-1.
    pub fn coefficient(&self) -> i128
        ensures value { result ≡ coefficient self.now }
        ensures low { negsuc (2 ^ 63 - 1) ≤ℤ result }
        ensures high { result <ℤ pos (2 ^ 64) }
    {
        if self.is_negative {
            -(self.size as i128)
        } else {
            self.size as i128
        }
    }

    /// Returns the scale, from 0 to 18: how many digits are written after the point.
    pub fn scale(&self) -> u8
        ensures value { result ≡ self.now.scale }
        ensures short { result ≤ 18 }
    {
        self.scale
    }

    /// Returns whether both numbers have the same mathematical value (JSON Schema Core 4.2.2).
    #[inline(always)]
    pub fn equals(&self, other: &Decimal) -> bool
        ensures { result ≡ num_equal (value self.now) (value other.now) }
    {
        // most numbers of a list have one scale, and then need no multiplication
        if self.scale == other.scale {
            self.coefficient() == other.coefficient()
        } else {
            self.equals_scaled(other)
        }
    }

    // Returns whether the two have the same mathematical value, whatever their scales.
    #[inline(never)]
    fn equals_scaled(&self, other: &Decimal) -> bool
        ensures { result ≡ num_equal (value self.now) (value other.now) }
    {
        scaled(self.coefficient(), other.scale) == scaled(other.coefficient(), self.scale)
    }

    /// Compares the number with an integer (JSON Schema Validation 6.2.2 to 6.2.5). `whole` must be
    /// from -2^63 to 2^64-1.
    pub fn cmp_whole(&self, whole: i128) -> Ordering
        requires low { negsuc (2 ^ 63 - 1) ≤ℤ whole }
        requires high { whole <ℤ pos (2 ^ 64) }
        ensures { result ≡ cmp_whole (coefficient self.now) self.now.scale whole }
    {
        self.coefficient().cmp(&scaled(whole, self.scale))
    }

    /// Returns whether division by `divisor` gives an integer (JSON Schema Validation 6.2.1).
    /// `divisor` must be greater than 0.
    pub fn is_multiple_of(&self, divisor: u64) -> bool
        requires { 0 < divisor }
        ensures { result ≡ is_multiple_of (coefficient self.now) self.now.scale divisor }
    {
        // words are divided faster than 128 bits
        if self.scale == 0 {
            return self.size % divisor == 0;
        }
        self.size as u128 % (divisor as u128 * ten_to(self.scale) as u128) == 0
    }
}

impl JsonNumber for Decimal {
    ghost use Rattle.jskw_value.specs.Decimal.{value};

    ghost number = { value };

    fn is_lawful(&self) -> bool {
        true
    }

    fn decimal(&self) -> Decimal {
        *self
    }

    fn as_u64(&self) -> Option<u64> {
        if self.scale != 0 || self.is_negative {
            None
        } else {
            Some(self.size)
        }
    }

    fn as_i64(&self) -> Option<i64> {
        if self.scale != 0 {
            return None;
        }
        if self.is_negative {
            return Some(-(self.size as i128) as i64);
        }
        i64::try_from(self.size).ok()
    }

    fn is_integer(&self) -> bool {
        if self.scale == 0 {
            return true;
        }
        self.size % ten_to(self.scale) == 0
    }

    fn is_written_as_integer(&self) -> bool {
        self.scale == 0
    }
}

/// Returns the number with scale 0.
impl From<u64> for Decimal {
    ghost use Rattle.std.specs.Prelude.{zero};
    ghost use Rattle.jskw_value.specs.Decimal.{value};

    ghost from_gives = { λ n d. value d ≡ exact (pos n) zero };

    fn from(unsigned: u64) -> Decimal {
        Decimal {
            size: unsigned,
            is_negative: false,
            scale: 0,
        }
    }
}

/// Returns the number with scale 0.
impl From<i64> for Decimal {
    ghost use Rattle.std.specs.Prelude.{zero};
    ghost use Rattle.jskw_value.specs.Decimal.{value};

    ghost from_gives = { λ z d. value d ≡ exact z zero };

    fn from(signed: i64) -> Decimal {
        Decimal {
            size: signed.unsigned_abs(),
            is_negative: signed < 0,
            scale: 0,
        }
    }
}

// The powers of ten, each at the place of its exponent.
const POWERS: [u64; 19] = [
    1,
    10,
    100,
    1_000,
    10_000,
    100_000,
    1_000_000,
    10_000_000,
    100_000_000,
    1_000_000_000,
    10_000_000_000,
    100_000_000_000,
    1_000_000_000_000,
    10_000_000_000_000,
    100_000_000_000_000,
    1_000_000_000_000_000,
    10_000_000_000_000_000,
    100_000_000_000_000_000,
    1_000_000_000_000_000_000,
];

// Returns ten to the power of a scale.
#[inline(always)]
#[tactic(auto, using(crate::proofs::Powers::power_in_table, crate::proofs::Powers::ten_pow_low, crate::proofs::Powers::ten_pow_high))]
pub(crate) fn ten_to(scale: u8) -> u64
    requires { scale ≤ 18 }
    ensures value { result ≡ 10 ^ scale }
    ensures low { 1 ≤ result }
    ensures high { result ≤ 10 ^ 18 }
{
    POWERS[scale as usize]
}

// Returns a number from -2^63 to 2^64-1 times ten to the power of a scale. The power is taken as a word
// with a sign, so that its product with another such word is one instruction.
#[inline(always)]
fn scaled(whole: i128, scale: u8) -> i128
    requires low { negsuc (2 ^ 63 - 1) ≤ℤ whole }
    requires high { whole <ℤ pos (2 ^ 64) }
    requires short { scale ≤ 18 }
    ensures { result ≡ whole *ℤ pos (10 ^ scale) }
{
    whole * i128::from(ten_to(scale) as i64)
}
