//! Tests of numbers for loops over items.
ghost use Rattle.std.specs.Prelude.{◌%◌, ◌&&◌, ◌<◌, ◌==◌, ◌≡◌, ◌≤◌, IsTrue, Bool, false};
ghost use Rattle.std.specs.Prelude.{pos, true};
ghost use Rattle.jskw_value.specs.Number.{Num, is_exact};
ghost use Rattle.jskw_value.specs.Tree.{number};

use super::IntegerRange;
use jskw_value::JsonNumber;
use std::num::NonZeroU64;

// A test of numbers for a loop over items, which a comparison or two decide.
pub(super) trait NumberTest {
    // All that pass the test are accepted; some that are accepted may not pass.
    ghost accepts: { Self → Num → Bool };

    // Returns whether the number, which must be lawful, passes the test.
    fn passes<A: JsonNumber>(&self, number: &A) -> bool
        requires { IsTrue (is_exact (A.number number.now)) }
        ensures { result ≡ true → accepts self.now (A.number number.now) ≡ true };
}

// The integers of a range.
#[derive(Clone, Copy, Debug)]
pub(super) struct Integers {
    pub(super) range: IntegerRange,
}

impl NumberTest for Integers {
    ghost use Rattle.jskw_number.specs.QuickSet.{has_number};

    ghost accepts = { λ i. has_number i.range };

    #[inline(always)]
    fn passes<A: JsonNumber>(&self, number: &A) -> bool {
        self.range.has(number)
    }
}

// The integers from `first` to `last`, which one comparison tests.
#[derive(Clone, Copy, Debug)]
pub(super) struct Naturals {
    pub(super) first: u64,
    pub(super) last: u64,
    ghost order: { first ≤ last },
}

impl Naturals {
    ghost use Rattle.jskw_number.specs.QuickSet.{in_naturals};

    // Returns whether the number is one of them.
    #[inline(always)]
    #[tactic(auto, using(crate::proofs::QuickSets::window))]
    fn has(&self, number: u64) -> bool
        ensures { result ≡ in_naturals self.now number }
    {
        number.wrapping_sub(self.first) <= self.last - self.first
    }
}

impl NumberTest for Naturals {
    ghost use Rattle.jskw_number.specs.QuickSet.{has_natural, in_naturals};

    ghost accepts = { λ m. has_natural (in_naturals m) };

    #[inline(always)]
    fn passes<A: JsonNumber>(&self, number: &A) -> bool {
        match number.as_u64() {
            Some(number) => self.has(number),
            None => false,
        }
    }
}

// The multiples of a range's divisor among some integers from 0 on, found by a multiplication by
// `reciprocal`, which should be 2^64 divided by the divisor, rounded up.
#[derive(Clone, Copy, Debug)]
pub(super) struct NaturalMultiples {
    pub(super) naturals: Naturals,
    pub(super) range: IntegerRange,
    pub(super) reciprocal: u64,
}

impl NumberTest for NaturalMultiples {
    ghost use Rattle.jskw_number.specs.QuickSet.{divides, has_natural, in_naturals};

    ghost accepts = { λ m. has_natural (λ k. in_naturals m.naturals k
        && divides m.range.divisor (pos k)) };

    #[inline(always)]
    fn passes<A: JsonNumber>(&self, number: &A) -> bool {
        match number.as_u64() {
            Some(number) => {
                self.naturals.has(number)
                    && is_multiple(number, self.range.divisor.get(), self.reciprocal)
            }
            None => false,
        }
    }
}

// The integers of a range, found by a multiplication as those of `NaturalMultiples` are.
#[derive(Clone, Copy, Debug)]
pub(super) struct Multiples {
    pub(super) range: IntegerRange,
    pub(super) reciprocal: u64,
}

impl NumberTest for Multiples {
    ghost use Rattle.jskw_number.specs.QuickSet.{has_number};

    ghost accepts = { λ m. has_number m.range };

    #[inline(always)]
    fn passes<A: JsonNumber>(&self, number: &A) -> bool {
        match number.as_i64() {
            Some(number) if self.range.low <= number && number <= self.range.high => {
                is_multiple(
                    number.unsigned_abs(),
                    self.range.divisor.get(),
                    self.reciprocal,
                )
            }
            _ => false,
        }
    }
}

// The numbers between the ends of a range, with a fraction or without.
#[derive(Clone, Copy, Debug)]
pub(super) struct Ends {
    pub(super) range: IntegerRange,
}

impl NumberTest for Ends {
    ghost use Rattle.jskw_number.specs.QuickSet.{encloses};

    ghost accepts = { λ e. encloses e.range };

    #[inline(always)]
    fn passes<A: JsonNumber>(&self, number: &A) -> bool {
        self.range.encloses_decimal(number.decimal())
    }
}

// Returns 2^64 divided by the divisor, rounded up, of divisors above 1.
pub(super) fn reciprocal_of(divisor: NonZeroU64) -> u64 {
    (u64::MAX / divisor.get()).wrapping_add(1)
}

// Returns whether the quotient that a multiplication by `reciprocal` gives, times the divisor, is the
// number. Then it is a multiple, whatever `reciprocal` is. If that is 2^64 divided by the divisor,
// rounded up, all multiples are found.
#[inline(always)]
#[tactic(auto, using(crate::proofs::QuickSets::by_quotient))]
fn is_multiple(number: u64, divisor: u64, reciprocal: u64) -> bool
    requires { 0 < divisor }
    ensures { result ≡ true → (number % divisor == 0) ≡ true }
{
    let quotient = (u128::from(number) * u128::from(reciprocal)) >> 64;
    quotient * u128::from(divisor) == u128::from(number)
}
