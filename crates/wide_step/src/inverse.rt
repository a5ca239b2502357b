//! Divisions that leave no remainder, by a shift and a product (Granlund and Montgomery 1994).
ghost use Rattle.std.specs.Prelude.{◌≡◌, ℕ, ◌+◌, ◌*◌, ◌%◌, ◌<◌, ◌^◌, ℤ, pos, ◌*ℤ◌, unsigned_abs};
ghost use Rattle.std.specs.Int.{w64, w128, int_wrap};
ghost use Rattle.wide_step.specs.Inverse.{HasInverse, IsInverseUpTo};

/// An odd number times a power of two, by the odd number's inverses.
#[derive(Clone, Copy)]
pub struct Inverse {
    /// The power of two.
    pub twos: u32,
    /// The inverse modulo 2^64.
    pub short: i64,
    /// The inverse modulo 2^128.
    pub long: i128,
}

impl Inverse {
    /// That of a number.
    pub fn of(number: u64) -> Inverse
        requires some { 0 < number }
        requires size { number < 2 ^ 63 }
        ensures { HasInverse (pos number) result.twos result.short result.long }
    {
        let (odd, twos) = odd_part(number);
        let short = inverse_of(odd as i64);
        let long = refined_long(i128::from(odd), i128::from(short));
        Inverse { twos, short, long }
    }

    /// The quotient of a multiple of the number that has 64 bits.
    #[inline]
    pub fn short_quotient(self, multiple: i64) -> i64
        requires { self.twos < 64 }
        ensures { (number quotient : ℤ) → HasInverse number self.twos self.short self.long → quotient *ℤ number ≡ multiple
            → unsigned_abs quotient < 2 ^ 63 → result ≡ quotient }
    {
        (multiple >> self.twos).wrapping_mul(self.short)
    }

    /// The quotient of a multiple of the number.
    #[inline]
    pub fn long_quotient(self, multiple: i128) -> i128
        requires { self.twos < 64 }
        ensures { (number quotient : ℤ) → HasInverse number self.twos self.short self.long → quotient *ℤ number ≡ multiple
            → unsigned_abs quotient < 2 ^ 127 → result ≡ quotient }
    {
        (multiple >> self.twos).wrapping_mul(self.long)
    }
}

/// A number as an odd number times a power of two: the odd number, and how often it was halved.
fn odd_part(number: u64) -> (u64, u32)
    requires some { 0 < number }
    requires size { number < 2 ^ 63 }
    ensures odd { result.0 % 2 ≡ 1 }
    ensures size { result.0 < 2 ^ 63 }
    ensures twos { result.1 < 64 }
    ensures product { result.0 * 2 ^ result.1 ≡ number }
{
    let mut odd = number;
    let mut twos = 0;
    while odd % 2 == 0 {
        odd /= 2;
        twos += 1;
    }
    (odd, twos)
}

/// The inverse of an odd number modulo 2^64, by rounds of Newton's: each doubles the bits that are right.
fn inverse_of(odd: i64) -> i64
    requires { unsigned_abs odd % 2 ≡ 1 }
    ensures { int_wrap w64 (odd *ℤ result) ≡ pos 1 }
{
    let mut inverse = 1;
    for _ in 0..6_u32 {
        inverse = refined(odd, inverse);
    }
    inverse
}

/// A round of Newton's: what was an inverse modulo a number is one modulo its square.
fn refined(odd: i64, inverse: i64) -> i64
    ensures { (modulus : ℕ) → IsInverseUpTo w64 odd inverse modulus → IsInverseUpTo w64 odd result (modulus * modulus) }
{
    inverse.wrapping_mul(2_i64.wrapping_sub(odd.wrapping_mul(inverse)))
}

/// The same round on 128 bits.
fn refined_long(odd: i128, inverse: i128) -> i128
    ensures { (modulus : ℕ) → IsInverseUpTo w128 odd inverse modulus → IsInverseUpTo w128 odd result (modulus * modulus) }
{
    inverse.wrapping_mul(2_i128.wrapping_sub(odd.wrapping_mul(inverse)))
}
