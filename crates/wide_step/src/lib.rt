//! Exact steps on whole numbers whose products need more than 128 bits, and the greatest common
//! divisor.
//!
//! `step` is the quotient of `a * b - c * d` by `e`. Factors below 2^62 in size are multiplied
//! directly; else each product is formed bit by bit as quotient and remainder by `e` (`divided`),
//! with quotients kept modulo 2^128. A `Divisor` is for many steps: below 2^63 it keeps the
//! inverses of its odd part modulo 2^64 and 2^128 (`inverse`), so that a multiple is divided by a
//! shift and a product; factors below 2^31 take 64-bit numbers, those below 2^62 take 128-bit ones,
//! and all else goes to `step`. `gcd` is never negative, and that of 0 and 0 is 0.
#![tactic(auto)]

ghost use Rattle.std.specs.Prelude.{◌≡◌, ◌<◌, ◌^◌, pos, ◌*ℤ◌, ◌-ℤ◌, ◌≤ℤ◌, ◌↔◌, unsigned_abs, IsTrue};
ghost use Rattle.std.specs.Int.{IsGcd};
ghost use Rattle.wide_step.specs.Quotient.{HasQuotient, AreSmall};

mod divided;
mod divisor;
mod inverse;
mod limits;

use divided::signed_product;
pub use divisor::Divisor;
pub use limits::{FACTOR_BOUND, QUOTIENT_BOUND};

/// Factors below this size are multiplied directly: a product is then below 2^124.
const SMALL: u128 = 1 << 62;

/// The exact quotient `(a * b - c * d) / e`, although the products may need 240 bits.
///
/// Where the four factors are below 2^62 in size it takes two products and one division. For many
/// steps with one divisor there is `Divisor`.
pub fn step(a: i128, b: i128, c: i128, d: i128, e: i128) -> i128
    requires a_size { unsigned_abs a < FACTOR_BOUND }
    requires b_size { unsigned_abs b < FACTOR_BOUND }
    requires c_size { unsigned_abs c < FACTOR_BOUND }
    requires d_size { unsigned_abs d < FACTOR_BOUND }
    requires e_size { unsigned_abs e < FACTOR_BOUND }
    requires divisor { 0 < unsigned_abs e }
    requires exact { HasQuotient (a *ℤ b -ℤ c *ℤ d) e }

    ensures quotient { result *ℤ e ≡ a *ℤ b -ℤ c *ℤ d }
    ensures size { unsigned_abs result < QUOTIENT_BOUND }
{
    if are_small(a, b, c, d) {
        small_step(a, b, c, d, e)
    } else if e < 0 {
        wide_quotient(c, d, a, b, e.unsigned_abs())
    } else {
        wide_quotient(a, b, c, d, e.unsigned_abs())
    }
}

/// Whether the four factors are below 2^62 in size.
#[inline]
fn are_small(a: i128, b: i128, c: i128, d: i128) -> bool
    ensures { IsTrue result ↔ AreSmall a b c d }
{
    a.unsigned_abs() < SMALL
        && b.unsigned_abs() < SMALL
        && c.unsigned_abs() < SMALL
        && d.unsigned_abs() < SMALL
}

/// The step where the products are below 2^124.
#[inline]
fn small_step(a: i128, b: i128, c: i128, d: i128, e: i128) -> i128
    requires small { AreSmall a b c d }
    requires e_size { unsigned_abs e < FACTOR_BOUND }
    requires divisor { 0 < unsigned_abs e }
    requires exact { HasQuotient (a *ℤ b -ℤ c *ℤ d) e }
    ensures quotient { result *ℤ e ≡ a *ℤ b -ℤ c *ℤ d }
    ensures size { unsigned_abs result < QUOTIENT_BOUND }
{
    exact_quotient(small_product(a, b) - small_product(c, d), e)
}

/// A product of two numbers of 64 bits.
fn small_product(a: i128, b: i128) -> i128
    requires a_size { unsigned_abs a < 2 ^ 62 }
    requires b_size { unsigned_abs b < 2 ^ 62 }
    ensures product { result ≡ a *ℤ b }
    ensures size { unsigned_abs result < 2 ^ 124 }
{
    i128::from(a as i64) * i128::from(b as i64)
}

/// The quotient of a multiple of the divisor.
fn exact_quotient(dividend: i128, divisor: i128) -> i128
    requires dividend_size { unsigned_abs dividend < QUOTIENT_BOUND }
    requires divisor_size { unsigned_abs divisor < FACTOR_BOUND }
    requires divisor { 0 < unsigned_abs divisor }
    requires exact { HasQuotient dividend divisor }
    ensures quotient { result *ℤ divisor ≡ dividend }
    ensures size { unsigned_abs result < QUOTIENT_BOUND }
{
    if divisor == 1 {
        dividend
    } else if dividend.unsigned_abs() | divisor.unsigned_abs() < SMALL {
        i128::from(dividend as i64 / divisor as i64)
    } else {
        dividend / divisor
    }
}

/// The exact quotient of `a * b - c * d` by a positive divisor, where the products may be wide.
fn wide_quotient(a: i128, b: i128, c: i128, d: i128, divisor: u128) -> i128
    requires a_size { unsigned_abs a < FACTOR_BOUND }
    requires b_size { unsigned_abs b < FACTOR_BOUND }
    requires c_size { unsigned_abs c < FACTOR_BOUND }
    requires d_size { unsigned_abs d < FACTOR_BOUND }
    requires divisor_size { divisor < FACTOR_BOUND }
    requires divisor { 0 < divisor }
    requires exact { HasQuotient (a *ℤ b -ℤ c *ℤ d) (pos divisor) }
    ensures quotient { result *ℤ pos divisor ≡ a *ℤ b -ℤ c *ℤ d }
    ensures size { unsigned_abs result < QUOTIENT_BOUND }
{
    let first = signed_product(a, b, divisor);
    let second = signed_product(c, d, divisor);
    first.quotient.wrapping_sub(second.quotient).cast_signed()
}

/// The greatest common divisor, never negative; that of 0 and 0 is 0.
pub fn gcd(a: i128, b: i128) -> i128
    requires a_size { unsigned_abs a < QUOTIENT_BOUND }
    requires b_size { unsigned_abs b < QUOTIENT_BOUND }
    ensures never_negative { pos 0 ≤ℤ result }
    ensures greatest { IsGcd (unsigned_abs a) (unsigned_abs b) (unsigned_abs result) }
    ensures zero { a ≡ pos 0 → b ≡ pos 0 → result ≡ pos 0 }
    ensures size { unsigned_abs result < QUOTIENT_BOUND }
{
    gcd_of_sizes(a.unsigned_abs(), b.unsigned_abs()) as i128
}

/// The greatest common divisor, by Euclid's algorithm.
fn gcd_of_sizes(a: u128, b: u128) -> u128
    requires a_size { a < QUOTIENT_BOUND }
    requires b_size { b < QUOTIENT_BOUND }
    ensures greatest { IsGcd a b result }
    ensures size { result < QUOTIENT_BOUND }
{
    let mut x = a;
    let mut y = b;
    while y != 0 {
        let rest = x % y;
        x = y;
        y = rest;
    }
    x
}

#[cfg(test)]
mod tests;
