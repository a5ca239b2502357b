//! Many exact steps with one divisor.
ghost use Rattle.std.specs.Prelude.{◌≡◌, ◌<◌, ◌^◌, ℤ, pos, ◌*ℤ◌, ◌-ℤ◌, ◌≤ℤ◌, ◌↔◌, unsigned_abs, IsTrue};

use crate::inverse::Inverse;
use crate::limits::{FACTOR_BOUND, QUOTIENT_BOUND};
use crate::{are_small, small_product, step};
use std::marker::Model;

/// Factors below this size are short: a difference of two products then has 64 bits.
const SHORT: i128 = 1 << 31;

/// Divisors below this size have an inverse.
const LONG: i128 = 1 << 63;

/// A positive divisor for many exact steps: where factors are small, a step multiplies by the
/// divisor's inverse and divides nothing.
#[derive(Drop)]
pub struct Divisor {
    number: i128,
    inverse: Option<Inverse>,
}

impl Model for Divisor {
    ghost use Rattle.std.specs.Prelude.{ℤ};
    ghost use Rattle.wide_step.specs.Inverse.{IsDivisor};

    ghost Value = { ℤ };

    ghost view = { λ d. d.number };

    ghost invariant = { λ d. IsDivisor d.number d.inverse };
}

impl Divisor {
    ghost use Rattle.wide_step.specs.Quotient.{HasQuotient};

    /// The divisor with this value. It works out the inverse, once for all steps.
    pub fn of(number: i128) -> Divisor
        requires positive { pos 1 ≤ℤ number }
        requires size { unsigned_abs number < FACTOR_BOUND }
        ensures { result ≡ number }
    {
        let inverse = if number < LONG {
            Some(Inverse::of(number as u64))
        } else {
            None
        };
        Divisor { number, inverse }
    }

    /// Its value.
    pub fn number(&self) -> i128
        ensures { result ≡ self.now }
    {
        self.number
    }

    /// The exact quotient of `a * b - c * d`, as `step` gives it.
    ///
    /// Where the divisor is below 2^63 and the four factors are below 2^62 in size it takes a few
    /// instructions, and fewer where they are below 2^31.
    #[inline]
    pub fn step(&self, a: i128, b: i128, c: i128, d: i128) -> i128
        requires a_size { unsigned_abs a < FACTOR_BOUND }
        requires b_size { unsigned_abs b < FACTOR_BOUND }
        requires c_size { unsigned_abs c < FACTOR_BOUND }
        requires d_size { unsigned_abs d < FACTOR_BOUND }
        requires exact { HasQuotient (a *ℤ b -ℤ c *ℤ d) self.now }

        ensures quotient { result *ℤ self.now ≡ a *ℤ b -ℤ c *ℤ d }
        ensures size { unsigned_abs result < QUOTIENT_BOUND }
    {
        if let Some(inverse) = self.inverse {
            if are_short(a, b, c, d) {
                return short_step(a, b, c, d, inverse);
            }
            if are_small(a, b, c, d) {
                return small_step(a, b, c, d, inverse);
            }
        }
        step(a, b, c, d, self.number)
    }
}

ghost use Rattle.wide_step.specs.Quotient.{AreShort, AreSmall};
ghost use Rattle.wide_step.specs.Inverse.{HasInverse};

/// Whether the four factors are short.
#[inline]
fn are_short(a: i128, b: i128, c: i128, d: i128) -> bool
    ensures { IsTrue result ↔ AreShort a b c d }
{
    is_short(a) && is_short(b) && is_short(c) && is_short(d)
}

/// Whether a factor is short.
#[inline]
fn is_short(factor: i128) -> bool
    ensures { IsTrue result ↔ unsigned_abs factor < 2 ^ 31 }
{
    -SHORT < factor && factor < SHORT
}

/// The step on short factors.
#[inline]
fn short_step(a: i128, b: i128, c: i128, d: i128, inverse: Inverse) -> i128
    requires short { AreShort a b c d }
    requires twos { inverse.twos < 64 }
    ensures { (number quotient : ℤ) → HasInverse number inverse.twos inverse.short inverse.long → 0 < unsigned_abs number
        → quotient *ℤ number ≡ a *ℤ b -ℤ c *ℤ d → result ≡ quotient }
{
    i128::from(inverse.short_quotient(short_product(a, b) - short_product(c, d)))
}

/// The step on factors below 2^62.
#[inline]
fn small_step(a: i128, b: i128, c: i128, d: i128, inverse: Inverse) -> i128
    requires small { AreSmall a b c d }
    requires twos { inverse.twos < 64 }
    ensures { (number quotient : ℤ) → HasInverse number inverse.twos inverse.short inverse.long → 0 < unsigned_abs number
        → quotient *ℤ number ≡ a *ℤ b -ℤ c *ℤ d → result ≡ quotient }
{
    inverse.long_quotient(small_product(a, b) - small_product(c, d))
}

/// A product of two short factors.
#[inline]
fn short_product(a: i128, b: i128) -> i64
    requires a_size { unsigned_abs a < 2 ^ 31 }
    requires b_size { unsigned_abs b < 2 ^ 31 }
    ensures product { result ≡ a *ℤ b }
    ensures size { unsigned_abs result < 2 ^ 62 }
{
    a as i64 * b as i64
}
