//! Numbers of any size by their quotient and remainder.
ghost use Rattle.std.specs.Prelude.{◌<◌, ◌*◌, ℤ, pos, neg_ℤ, ◌+ℤ◌, ◌*ℤ◌, unsigned_abs};

use crate::limits::FACTOR_BOUND;

/// A whole number by a divisor: the low 128 bits of the quotient, and the remainder.
#[derive(Clone, Copy)]
pub struct Divided {
    pub quotient: u128,
    pub remainder: u128,
}

impl Divided {
    ghost use Rattle.wide_step.specs.Divided.{IsDivided};

    /// The number itself.
    fn of(number: u128, divisor: u128) -> Divided
        requires { 0 < divisor }
        ensures { IsDivided (pos number) divisor result }
    {
        Divided {
            quotient: number / divisor,
            remainder: number % divisor,
        }
    }

    /// The sum of two numbers.
    fn plus(self, other: Divided, divisor: u128) -> Divided
        requires room { divisor < FACTOR_BOUND }
        requires below { self.remainder < divisor }
        requires other_below { other.remainder < divisor }
        ensures { (x y : ℤ) → IsDivided x divisor self → IsDivided y divisor other
            → IsDivided (x +ℤ y) divisor result }
    {
        let quotient = self.quotient.wrapping_add(other.quotient);
        let remainder = self.remainder + other.remainder;
        if remainder < divisor {
            Divided {
                quotient,
                remainder,
            }
        } else {
            Divided {
                quotient: quotient.wrapping_add(1),
                remainder: remainder - divisor,
            }
        }
    }

    /// The number with its sign changed.
    fn negated(self, divisor: u128) -> Divided
        requires { self.remainder < divisor }
        ensures { (x : ℤ) → IsDivided x divisor self → IsDivided (neg_ℤ x) divisor result }
    {
        if self.remainder == 0 {
            Divided {
                quotient: self.quotient.wrapping_neg(),
                remainder: 0,
            }
        } else {
            Divided {
                quotient: u128::MAX - self.quotient,
                remainder: divisor - self.remainder,
            }
        }
    }

    /// The product of two numbers, bit by bit of the second.
    fn product(factor: u128, times: u128, divisor: u128) -> Divided
        requires room { divisor < FACTOR_BOUND }
        requires divisor { 0 < divisor }
        ensures { IsDivided (pos (factor * times)) divisor result }
    {
        let mut sum = Divided::of(0, divisor);
        let mut unit = Divided::of(factor, divisor);
        let mut rest = times;
        while rest > 0 {
            if rest % 2 == 1 {
                sum = sum.plus(unit, divisor);
            }
            unit = unit.plus(unit, divisor);
            rest /= 2;
        }
        sum
    }
}

ghost use Rattle.wide_step.specs.Divided.{IsDivided};

/// The product of two signed numbers.
pub fn signed_product(a: i128, b: i128, divisor: u128) -> Divided
    requires room { divisor < FACTOR_BOUND }
    requires divisor { 0 < divisor }
    ensures { IsDivided (a *ℤ b) divisor result }
{
    let size = Divided::product(a.unsigned_abs(), b.unsigned_abs(), divisor);
    if (a < 0) == (b < 0) {
        size
    } else {
        size.negated(divisor)
    }
}
