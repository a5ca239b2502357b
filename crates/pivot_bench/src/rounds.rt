//! What is timed.
ghost use Rattle.std.specs.Prelude.{◌≡◌, ◌+◌, ◌<◌, ◌≤◌, ◌^◌, length, unsigned_abs};

use criteria_model::Row;
use fraction_free::Dictionary;
use wide_step::{FACTOR_BOUND, step};

/// Which rows a dictionary is filled with.
#[derive(Clone, Copy)]
pub enum Rows {
    /// -1, 0 and 1 in any order: entries stay short through a few pivots.
    Mixed,
    /// -1 and 1; the first 24 rows make a minor of 24^12, the largest of such a square (Paley 1933).
    Largest,
}

/// Adds `rows` rows.
pub fn fill(work: &mut Dictionary, rows: u32, kind: Rows)
    requires room { length work.old.loaded + rows ≤ work.old.room_rows }
    requires columns { work.old.columns ≡ 24 }
{
    let mut seed: u64 = 1;
    for row in 0..rows {
        seed = seed
            .wrapping_mul(6_364_136_223_846_793_005)
            .wrapping_add(1_442_695_040_888_963_407);
        work.add_row(&row_of(seed ^ u64::from(row), row, kind), 1);
    }
}

/// The row at a place, counted from 0.
fn row_of(seed: u64, row: u32, kind: Rows) -> Row
    ensures { length result ≡ 24 }
{
    let mut cells = [0; 24];
    let mut rest = seed;
    for place in 0..24 {
        cells[place] = match kind {
            Rows::Mixed => digit(rest),
            Rows::Largest if row < 24 => residue(row, place as u32),
            Rows::Largest => sign(rest % 3 == 0),
        };
        rest /= 3;
    }
    Row::of(&cells)
}

/// -1, 0 or 1 by the last digit to base 3.
fn digit(number: u64) -> i8
    ensures { unsigned_abs result ≤ 1 }
{
    match number % 3 {
        0 => -1,
        1 => 0,
        _ => 1,
    }
}

/// A cell of Paley's square: whether row and column differ by a square modulo 23, within a border.
fn residue(row: u32, column: u32) -> i8
    requires row { row < 24 }
    requires column { column < 24 }
    ensures { unsigned_abs result ≤ 1 }
{
    let apart = (row + 23 - column) % 23;
    sign(row == 0 || column > 0 && (0..12_u32).any(|root| root * root % 23 == apart))
}

/// 1, or -1.
fn sign(is_positive: bool) -> i8
    ensures { unsigned_abs result ≤ 1 }
{
    if is_positive { 1 } else { -1 }
}

/// Pivots in each column, on as many rows from one on, where the entry is not 0; and the number of
/// entries and constants that they wrote.
pub fn pivots(work: &mut Dictionary, first: u32) -> u64 {
    let mut entries: u64 = 0;
    for col in 1..=work.cols() {
        let row = first.saturating_add(u32::from(col));
        if row <= work.rows() && work.entry(row, col) != 0 {
            work.pivot(row, col);
            entries = entries.wrapping_add(u64::from(work.rows()) * (u64::from(work.cols()) + 1));
        }
    }
    entries
}

/// The most bits that an entry or constant has.
pub fn most_bits(work: &Dictionary) -> u32 {
    let mut size: u128 = 0;
    for row in 1..=work.rows() {
        size |= work.constant(row).unsigned_abs();
        for col in 1..=work.cols() {
            size |= work.entry(row, col).unsigned_abs();
        }
    }
    u128::BITS - size.leading_zeros()
}

/// Exact steps whose products need about 200 bits, and their number.
pub fn wide_steps(count: u32) -> u64 {
    let mut sum: u64 = 0;
    for turn in 0..count {
        let number = (1 << 100) + i128::from(turn);
        let other = (1 << 99) - i128::from(turn);
        if products_apart(number, other) == number - other {
            sum = sum.wrapping_add(1);
        }
    }
    sum
}

/// The difference of a number's square and its product with another, divided by the number.
fn products_apart(number: i128, other: i128) -> i128
    requires size { unsigned_abs number < FACTOR_BOUND }
    requires other_size { unsigned_abs other < FACTOR_BOUND }
    requires divisor { 0 < unsigned_abs number }
{
    step(number, number, other, number, number)
}
