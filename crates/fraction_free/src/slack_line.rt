//! The line of a new row in the terms of the present basic variables.
ghost use Rattle.std.specs.Prelude.{◌≡◌, ◌⊎◌, ℕ, ◌+◌, ◌<◌, ◌≤◌, ◌^◌, List, length, slice_index_or, [], pos, unsigned_abs};
ghost use Rattle.criteria_model.specs.Lists.{IsRow};
ghost use Rattle.minors.specs.Combination.{IsCombination};
ghost use Rattle.fraction_free.specs.declared.loaded.LoadedRow.{LoadedRow};
ghost use Rattle.row_laws.specs.Rows.{entry};
ghost use Rattle.fraction_free.specs.Dictionary.{IsLoadable};
ghost use Rattle.fraction_free.specs.Representation.{AreMinors, row_of, slack_constant, square_of, factors_at, IsAdded, CanCombine};

use crate::limits::NUMBER_BOUND;
use crate::lines::Line;
use crate::places::Places;
use criteria_model::Row;

/// The line of a row's slack: the sum, over the increments, of the coefficient times the
/// increment's own line.
pub fn slack_line(
    lines: &[Line],
    places: &Places,
    scale: i128,
    columns: u8,
    coefficients: &Row,
    least: i8,
) -> Line
    requires can { CanCombine columns scale places.now.order lines.now }
    requires len { length coefficients.now ≡ columns }
    requires least { (least ≡ pos 0) ⊎ (least ≡ pos 1) }
    ensures row { IsLoadable columns (record { coefficients = coefficients.now; least = least }) }
    ensures line { (loaded : List LoadedRow) → AreMinors columns loaded scale places.now.order lines.now
        → IsCombination scale (row_of (record { coefficients = coefficients.now; least = least })) result (square_of columns loaded places.now.order) }
{
    let width = usize::from(columns) + 1;
    let mut line = Line::zeros(width);
    let constant = constant_of(coefficients, least);
    add_variable(&mut line, lines, width - 1, scale, constant);
    for variable in 1..width {
        let coefficient = i128::from(coefficients.item(variable));
        let place = places.place(variable);
        add_variable(&mut line, lines, place, scale, coefficient);
    }
    line
}

/// Adds a multiple of the line of the variable at a place: of a column, or of a row.
fn add_variable(line: &mut Line, lines: &[Line], place: usize, scale: i128, times: i128)
    requires place { place < length line.old + length lines.now }
    requires len { (row : ℕ) → row < length lines.now → length (slice_index_or lines.now row []) ≡ length line.old }
    requires times { unsigned_abs times ≤ 25 }
    requires scale_size { unsigned_abs scale < NUMBER_BOUND }
    requires sizes { (at : ℕ) → unsigned_abs (entry line.old at) < 2 ^ 100 }
    requires line_sizes { (row at : ℕ) → unsigned_abs (entry (slice_index_or lines.now row []) at) < NUMBER_BOUND }
    ensures { IsAdded times line.old (factors_at scale lines.now (length line.old) place) line.new }
{
    if times == 0 {
        return;
    }
    let width = line.len();
    if place < width {
        let number = line.get(place) + times * scale;
        line.set(place, number);
    } else {
        let other = &lines[place - width];
        line.add(other, times);
    }
}

/// The constant of a row's slack, which is its value where each increment is 1.
fn constant_of(coefficients: &Row, least: i8) -> i128
    requires least { unsigned_abs least ≤ 1 }
    ensures value { result ≡ slack_constant (record { coefficients = coefficients.now; least = least }) }
    ensures size { unsigned_abs result ≤ 25 }
    ensures range { IsRow coefficients.now }
{
    let mut sum = -i128::from(least);
    for coefficient in coefficients.as_slice() {
        sum += i128::from(*coefficient);
    }
    sum
}
