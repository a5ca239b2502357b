//! Greatest common divisors of lists, and lists over a divisor.
ghost use Rattle.std.specs.Prelude.{ℕ, ◌≡◌, ◌<◌, All, pos, ◌≤ℤ◌, unsigned_abs};
ghost use Rattle.std.specs.Int.{◌∣◌};
ghost use Rattle.criteria_model.specs.Lists.{IsVector};
ghost use Rattle.row_laws.specs.Rows.{times};

use criteria_model::{MAX_INCREMENTS, Vector};
use wide_step::{QUOTIENT_BOUND, gcd};

/// The greatest common divisor of the values; 0 where each is 0.
pub fn common_divisor(values: &[i128]) -> i128
    requires { All (λ x. unsigned_abs x < QUOTIENT_BOUND) values.now }
    ensures never_negative { pos 0 ≤ℤ result }
    ensures divides { All (λ x. unsigned_abs result ∣ unsigned_abs x) values.now }
    ensures greatest { (d : ℕ) → All (λ x. d ∣ unsigned_abs x) values.now → d ∣ unsigned_abs result }
    ensures size { unsigned_abs result < QUOTIENT_BOUND }
{
    let mut divisor = 0;
    for value in values {
        divisor = gcd(divisor, *value);
    }
    divisor
}

/// The values over a positive number that divides each.
pub fn divided(values: &[i128], divisor: i128) -> Vector
    requires vector { IsVector values.now }
    requires positive { pos 1 ≤ℤ divisor }
    requires size { unsigned_abs divisor < QUOTIENT_BOUND }
    requires divides { All (λ x. unsigned_abs divisor ∣ unsigned_abs x) values.now }
    ensures { values.now ≡ times divisor result }
{
    let mut cells = [0; MAX_INCREMENTS];
    for place in 0..values.len() {
        cells[place] = values[place] / divisor;
    }
    Vector::of(&cells[..values.len()])
}
