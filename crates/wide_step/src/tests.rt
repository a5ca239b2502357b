ghost use Rattle.std.specs.Prelude.{◌≡◌, ◌<◌, ◌*ℤ◌, ◌-ℤ◌, unsigned_abs};

use super::*;
use std::process::Abort;

/// That the step gives this quotient, and where the divisor is positive so does a kept divisor.
fn assert_step(rt: &impl Abort, a: i128, b: i128, c: i128, d: i128, e: i128, quotient: i128)
    requires a_size { unsigned_abs a < FACTOR_BOUND }
    requires b_size { unsigned_abs b < FACTOR_BOUND }
    requires c_size { unsigned_abs c < FACTOR_BOUND }
    requires d_size { unsigned_abs d < FACTOR_BOUND }
    requires e_size { unsigned_abs e < FACTOR_BOUND }
    requires divisor { 0 < unsigned_abs e }
    requires exact { quotient *ℤ e ≡ a *ℤ b -ℤ c *ℤ d }
    requires size { unsigned_abs quotient < QUOTIENT_BOUND }
{
    assert_eq!(rt; step(a, b, c, d, e), quotient);
    if e > 0 {
        let divisor = Divisor::of(e);
        assert_eq!(rt; divisor.number(), e);
        assert_eq!(rt; divisor.step(a, b, c, d), quotient);
    }
}

#[test]
fn wide_steps(rt: HostRuntime) {
    assert_step(&rt, 1 << 90, 1 << 90, 0, 0, 1 << 90, 1 << 90);
    assert_step(&rt, 1 << 100, 1 << 100, 1 << 100, 1 << 100, 1, 0);
    assert_step(&rt, 1 << 100, 3, 1 << 100, 2, 1 << 100, 1);
}

const SHORT: i128 = 1 << 31;

const EDGE: i128 = 1 << 62;

const LONG: i128 = 1 << 63;

const WIDE: i128 = (1 << 120) - 1;

// The steps that bench/wide_steps.py prints.

#[test]
fn steps_around_31_bits(rt: HostRuntime) {
    assert_step(
        &rt,
        SHORT - 1,
        SHORT - 1,
        1 - SHORT,
        SHORT - 1,
        2,
        4611686014132420609,
    );
    assert_step(
        &rt,
        1 - SHORT,
        SHORT - 1,
        SHORT - 1,
        SHORT - 1,
        SHORT - 1,
        -4294967294,
    );
    assert_step(&rt, SHORT, SHORT, -SHORT, SHORT, SHORT, 4294967296);
    assert_step(&rt, SHORT - 1, 12, SHORT - 1, -12, 24, 2147483647);
    assert_step(&rt, 7, SHORT - 2, -21, 0, 14, 1073741823);
}

#[test]
fn steps_around_62_bits(rt: HostRuntime) {
    assert_step(
        &rt,
        EDGE - 1,
        EDGE - 1,
        1,
        1 - EDGE,
        EDGE - 1,
        4611686018427387904,
    );
    assert_step(&rt, EDGE, EDGE - 1, 0, 5, -EDGE, -4611686018427387903);
    assert_step(
        &rt,
        EDGE,
        EDGE,
        -EDGE,
        EDGE,
        -2,
        -21267647932558653966460912964485513216,
    );
    assert_step(
        &rt,
        1 - EDGE,
        EDGE - 1,
        EDGE - 1,
        EDGE - 1,
        1,
        -42535295865117307914475081855261474818,
    );
    assert_step(
        &rt,
        LONG - 1,
        EDGE - 1,
        LONG - 1,
        1 - EDGE,
        LONG - 1,
        9223372036854775806,
    );
    assert_step(&rt, SHORT - 1, 0, 0, 1 - SHORT, LONG, 0);
    assert_step(&rt, SHORT, SHORT, -SHORT, SHORT, LONG, 1);
    assert_step(&rt, EDGE, EDGE, 0, 0, EDGE, 4611686018427387904);
}

#[test]
fn steps_around_120_bits(rt: HostRuntime) {
    assert_step(&rt, WIDE, WIDE, WIDE, WIDE - 1, WIDE, 1);
    assert_step(
        &rt,
        WIDE,
        WIDE - 1,
        -WIDE,
        1,
        -WIDE,
        -1329227995784915872903807060280344575,
    );
    assert_step(
        &rt,
        -WIDE,
        WIDE - 6,
        WIDE - 6,
        7,
        WIDE - 6,
        -1329227995784915872903807060280344582,
    );
    assert_step(
        &rt,
        WIDE,
        WIDE,
        WIDE - 2,
        WIDE,
        2,
        1329227995784915872903807060280344575,
    );
    assert_step(
        &rt,
        WIDE,
        2 * LONG + 1,
        -WIDE,
        2 * LONG - 1,
        LONG / 4,
        21267647932558653966460912964485513200,
    );
}

#[test]
fn divisors(rt: HostRuntime) {
    assert_eq!(rt; gcd(0, 0), 0);
    assert_eq!(rt; gcd(-12, 18), 6);
    assert_eq!(rt; gcd(0, -(1 << 125)), 1 << 125);
    assert_eq!(rt; gcd(7 << 100, -(21 << 90)), 7 << 90);
}
