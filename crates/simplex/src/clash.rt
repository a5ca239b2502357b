//! The clash of a row that no nonbasic variable helps.
ghost use Rattle.std.specs.Prelude.{ℕ, ◌≡◌, ◌+◌, ◌-◌, ◌<◌, ◌≤◌, List, length, count_by, not, All, MatchOption, slice_index_or, ℤ, pos, ◌<ℤ◌, unsigned_abs};
ghost use Rattle.fraction_free.specs.Dictionary.{IsDictionary, constant_in};
ghost use Rattle.simplex.specs.Rows.{MeetsRows};
ghost use Rattle.simplex.specs.Weights.{is_weight, AreRowWeights};
ghost use Rattle.simplex.specs.Choice.{IsBlocked};
ghost use Rattle.simplex.specs.Equation.{variable_at, weight_at, weight_of, how_many, has_slack, IsNextWeight, HasNoNextWeight, HasSlackWeights, IsClashOf};
ghost use Rattle.simplex.specs.Results.{IsClash};

use crate::found::Clash;
use crate::row_weights::RowWeights;
use criteria_model::{CERTIFICATE_BOUND, MAX_INCREMENTS, Vector};
use fraction_free::Dictionary;

/// The weights of a row's equation: the scale on its basic variable, and on the nonbasic ones their
/// entries with the sign turned.
pub fn clash_of(work: &Dictionary, row: u32) -> Clash
    requires low { 1 ≤ row }
    requires high { row ≤ length work.now.loaded }
    requires negative { constant_in work.now (row - 1) <ℤ pos 0 }
    requires blocked { IsBlocked work.now (row - 1) }
    ensures clash { IsClash work.now.columns work.now.loaded result }
    ensures weights { IsClashOf work.now (row - 1) result }
    ensures unmet { (vector : List ℤ) → ¬ MeetsRows work.now.columns work.now.loaded vector }
{
    Clash {
        increments: increment_weights(work, row),
        rows: slack_weights(work, row),
    }
}

/// The variable at a place of the row's equation, and its weight.
fn weighted_variable(work: &Dictionary, row: u32, place: u8) -> (u32, i128)
    requires low { 1 ≤ row }
    requires high { row ≤ length work.now.loaded }
    requires place { place ≤ work.now.columns }
    ensures variable { result.0 ≡ variable_at work.now (row - 1) place }
    ensures weight { result.1 ≡ weight_at work.now (row - 1) place }
    ensures variable_low { 1 ≤ result.0 }
    ensures variable_high { result.0 ≤ work.now.columns + length work.now.loaded }
    ensures size { unsigned_abs result.1 < CERTIFICATE_BOUND }
{
    let scale = work.scale();
    if place == 0 {
        (work.basic(row), scale)
    } else {
        (work.nonbasic(place), -work.entry(row, place))
    }
}

/// The weight of each increment.
fn increment_weights(work: &Dictionary, row: u32) -> Vector
    requires low { 1 ≤ row }
    requires high { row ≤ length work.now.loaded }
    ensures dictionary { IsDictionary work.now }
    ensures len { length result ≡ work.now.columns }
    ensures weights { (column : ℕ) → column < work.now.columns → slice_index_or result column (pos 0) ≡ weight_of work.now (row - 1) (column + 1) }
    ensures few { count_by is_weight result ≤ how_many (λ place. not (has_slack work.now (row - 1) place)) (work.now.columns + 1) }
{
    let columns = usize::from(work.cols());
    let mut cells = [0; MAX_INCREMENTS];
    for place in 0..work.cols() + 1 {
        let (variable, weight) = weighted_variable(work, row, place);
        let number = variable as usize;
        if number <= columns {
            cells[number - 1] = weight;
        }
    }
    Vector::of(&cells[..columns])
}

/// The slack above `above` of least number with a positive weight.
fn next_slack(work: &Dictionary, row: u32, above: u32) -> Option<(u32, i128)>
    requires low { 1 ≤ row }
    requires high { row ≤ length work.now.loaded }
    ensures { MatchOption result
        (HasNoNextWeight work.now (row - 1) above)
        (λ found. (place : ℕ) × IsNextWeight work.now (row - 1) above place
        × (found.0 ≡ variable_at work.now (row - 1) place) × (found.1 ≡ weight_at work.now (row - 1) place)) }
{
    let mut found = None;
    let mut least = u32::MAX;
    for place in 0..work.cols() + 1 {
        let (variable, weight) = weighted_variable(work, row, place);
        if above < variable && weight > 0 && variable < least {
            found = Some((variable, weight));
            least = variable;
        }
    }
    found
}

/// The rows whose slacks have a positive weight, in ascending order.
fn slack_weights(work: &Dictionary, row: u32) -> RowWeights
    requires low { 1 ≤ row }
    requires high { row ≤ length work.now.loaded }
    requires blocked { IsBlocked work.now (row - 1) }
    ensures weights { AreRowWeights result }
    ensures loaded_rows { All (λ item. item.row ≤ length work.now.loaded) result }
    ensures sums { HasSlackWeights work.now (row - 1) (work.now.columns + 1 + length work.now.loaded) result }
    ensures few { length result ≤ how_many (has_slack work.now (row - 1)) (work.now.columns + 1) }
{
    let columns = u32::from(work.cols());
    let mut rows = RowWeights::none();
    let mut above = columns;
    'slacks: while let Some((variable, weight)) = next_slack(work, row, above) {
        rows.push(variable - columns, weight);
        above = variable;
    }
    rows
}
