//! Ranges of integers, with a divisor.
ghost use Rattle.std.specs.Prelude.{◌&&◌, ◌*ℤ◌, ◌-◌, ◌<◌, ◌<ℤ◌, ◌^◌, ◌≡◌, ◌≤ℤ◌, ◌≤◌};
ghost use Rattle.std.specs.Prelude.{IfSome, IsTrue, ℕ, ℤ, false, int_le, int_lt, negsuc, pos, true};
ghost use Rattle.jskw_value.specs.Number.{Num, exact, is_exact, is_multiple_of};
ghost use Rattle.jskw_value.specs.Tree.{number};
ghost use Rattle.std.specs.Int.NonZero.{non_zero_u64_get};
ghost use Rattle.jskw_value.specs.Decimal.{value};

use super::number_test::{Ends, Naturals};
use jskw_value::{Decimal, JsonNumber};
use std::num::NonZeroU64;

/// The integers from `low` to `high` that are multiples of the divisor. That is 1 for all of them.
#[derive(Clone, Copy, Debug)]
pub struct IntegerRange {
    pub(super) low: i64,
    pub(super) high: i64,
    pub(super) divisor: NonZeroU64,
}

impl IntegerRange {
    ghost use Rattle.jskw_number.specs.QuickSet.{IsNarrower, divides, encloses, has_number, in_naturals, in_range};

    /// Returns the integers from `low` to `high`.
    #[tactic(auto, using(crate::proofs::QuickSets::all_between))]
    pub fn between(low: i64, high: i64) -> IntegerRange
        ensures integers { (z : ℤ) → in_range result z ≡ (int_le low z && int_le z high) }
        ensures ends { (result.low ≡ low) × (result.high ≡ high) }
    {
        let divisor = NonZeroU64::MIN;
        IntegerRange { low, high, divisor }
    }

    // Returns whether there is nothing between the ends.
    pub(super) fn is_empty(&self) -> bool
        ensures { result ≡ int_lt self.now.high self.now.low }
    {
        self.high < self.low
    }

    // No integer, and nothing between the ends.
    #[tactic(auto, using(crate::proofs::QuickSets::nothing_enclosed))]
    pub(super) fn none() -> IntegerRange
        ensures integers { (z : ℤ) → in_range result z ≡ false }
        ensures enclosed { (n : Num) → encloses result n ≡ false }
        ensures ends { (result.low ≡ i64.MAX) × (result.high ≡ i64.MIN) }
    {
        IntegerRange::between(i64::MAX, i64::MIN)
    }

    // The integers from -2^63 to 2^63-1.
    pub(super) fn all() -> IntegerRange
        ensures { (result.low ≡ i64.MIN) × (result.high ≡ i64.MAX) }
    {
        IntegerRange::between(i64::MIN, i64::MAX)
    }

    /// Returns the integers from `limit` on that are below 2^63. `limit` is -2^63 at least.
    #[tactic(auto, using(crate::proofs::QuickSets::from_low))]
    pub fn at_least(limit: i128) -> IntegerRange
        ensures integers { (z : ℤ) → in_range result z ≡ true → int_le limit z ≡ true }
        ensures enclosed { (c : ℤ) (k : ℕ) → encloses result (exact c k) ≡ true
            → int_le (limit *ℤ pos (10 ^ k)) c ≡ true }
    {
        match i64::try_from(limit) {
            Ok(low) => IntegerRange::between(low, i64::MAX),
            Err(_) => IntegerRange::none(),
        }
    }

    /// Returns the integers from -2^63 to `limit` that are below 2^63.
    #[tactic(auto, using(crate::proofs::QuickSets::to_high))]
    pub fn at_most(limit: i128) -> IntegerRange
        ensures integers { (z : ℤ) → in_range result z ≡ true → int_le z limit ≡ true }
        ensures enclosed { (c : ℤ) (k : ℕ) → encloses result (exact c k) ≡ true
            → int_le c (limit *ℤ pos (10 ^ k)) ≡ true }
    {
        match i64::try_from(limit) {
            Ok(high) => IntegerRange::between(i64::MIN, high),
            Err(_) if limit > 0 => IntegerRange::all(),
            Err(_) => IntegerRange::none(),
        }
    }

    /// Returns the multiples of `divisor` from -2^63 to 2^63-1.
    #[tactic(auto, using(crate::proofs::QuickSets::multiple_whole))]
    pub fn multiples_of(divisor: NonZeroU64) -> IntegerRange
        ensures { (z : ℤ) → in_range result z ≡ true
            → is_multiple_of z 0 (non_zero_u64_get divisor) ≡ true }
    {
        IntegerRange {
            divisor,
            ..IntegerRange::all()
        }
    }

    // Returns whether `number` is in the range. No number is divided by 1.
    #[tactic(auto, using(crate::proofs::QuickSets::one_divides))]
    pub(super) fn contains(&self, number: i64) -> bool
        ensures { result ≡ in_range self.now number }
    {
        if number < self.low || self.high < number {
            return false;
        }
        let divisor = self.divisor.get();
        divisor == 1 || number.unsigned_abs() % divisor == 0
    }

    // Returns whether the ends alone decide which numbers from 0 on are in the range.
    pub(super) fn ends_decide(&self) -> bool
        ensures { result ≡ true
            → (pos 0 ≤ℤ self.now.high) × (non_zero_u64_get self.now.divisor ≡ 1) }
    {
        self.high >= 0 && self.divisor.get() == 1
    }

    // Returns whether the number is in the range, of which the ends alone decide that.
    #[inline(always)]
    #[tactic(auto, using(crate::proofs::QuickSets::all_between))]
    pub(super) fn has_natural(&self, natural: u64) -> bool
        requires high { pos 0 ≤ℤ self.now.high }
        requires divisor { non_zero_u64_get self.now.divisor ≡ 1 }
        ensures is_in { result ≡ in_range self.now (pos natural) }
        ensures word { self.now.high <ℤ pos (2 ^ 63) }
    {
        natural <= self.high as u64 && self.low <= natural as i64
    }

    // Returns whether the number, which must be lawful, is an integer of the range that is written
    // without a fraction.
    #[inline(always)]
    pub(super) fn has<A: JsonNumber>(&self, number: &A) -> bool
        requires { IsTrue (is_exact (A.number number.now)) }
        ensures { result ≡ has_number self.now (A.number number.now) }
    {
        match number.as_i64() {
            Some(number) => self.contains(number),
            None => false,
        }
    }

    // Returns whether the number, which must be lawful, is between the ends of the range, with a
    // fraction or without.
    #[inline(never)]
    pub(super) fn encloses<A: JsonNumber>(&self, number: &A) -> bool
        requires { IsTrue (is_exact (A.number number.now)) }
        ensures { result ≡ encloses self.now (A.number number.now) }
    {
        self.encloses_decimal(number.decimal())
    }

    // Returns `encloses` of a decimal. Both ends, which are words, are compared, whatever the first
    // one tells: a branch between the two would depend on the number.
    #[inline(always)]
    pub(super) fn encloses_decimal(&self, number: Decimal) -> bool
        ensures { result ≡ encloses self.now (value number) }
    {
        number.cmp_whole(i128::from(self.low)).is_ge()
            & number.cmp_whole(i128::from(self.high)).is_le()
    }

    // Returns the numbers between the ends, which are words.
    pub(super) fn ends(self) -> Ends
        ensures range { result.range ≡ self }
        ensures low { negsuc (2 ^ 63 - 1) ≤ℤ self.low }
        ensures high { self.high <ℤ pos (2 ^ 63) }
    {
        Ends { range: self }
    }

    // Returns the integers from 0 on that are between the ends, if there are any.
    pub(super) fn naturals(&self) -> Option<Naturals>
        ensures { IfSome result (λ m. (k : ℕ) → in_naturals m k ≡ true
            → (k < 2 ^ 63) × ((int_le self.now.low (pos k) && int_le (pos k) self.now.high) ≡ true)) }
    {
        let first = if self.low < 0 { 0 } else { self.low };
        if self.high < first {
            return None;
        }
        Some(Naturals {
            first: first as u64,
            last: self.high as u64,
        })
    }

    // The integers of the range that are not below the other.
    fn from(self, other: IntegerRange) -> IntegerRange
        ensures integers { (z : ℤ) → in_range result z ≡ true
            → (in_range self z && int_le other.low z) ≡ true }
        ensures ends { IsNarrower result self × (other.low ≤ℤ result.low) }
    {
        if other.low <= self.low {
            return self;
        }
        IntegerRange {
            low: other.low,
            ..self
        }
    }

    // The integers of the range that are not above the other.
    fn to(self, other: IntegerRange) -> IntegerRange
        ensures integers { (z : ℤ) → in_range result z ≡ true
            → (in_range self z && int_le z other.high) ≡ true }
        ensures ends { IsNarrower result self × (result.high ≤ℤ other.high) }
    {
        if self.high <= other.high {
            return self;
        }
        IntegerRange {
            high: other.high,
            ..self
        }
    }

    // Multiples of the divisor in the range: all of them, unless neither divisor is 1.
    #[tactic(auto, using(crate::proofs::QuickSets::one_divides))]
    fn divided_by(self, divisor: NonZeroU64) -> IntegerRange
        ensures integers { (z : ℤ) → in_range result z ≡ true
            → (in_range self z && divides divisor z) ≡ true }
        ensures ends { IsNarrower result self }
    {
        if divisor.get() == 1 {
            self
        } else if self.divisor.get() == 1 {
            IntegerRange { divisor, ..self }
        } else {
            IntegerRange::none()
        }
    }

    // Integers that are in both ranges: all of them, unless neither divisor is 1.
    pub(super) fn and(self, other: IntegerRange) -> IntegerRange
        ensures integers { (z : ℤ) → in_range result z ≡ true
            → (in_range self z && in_range other z) ≡ true }
        ensures ends { IsNarrower result self × IsNarrower result other }
    {
        let range = self.divided_by(other.divisor);
        range.from(other).to(other)
    }
}
