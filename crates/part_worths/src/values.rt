//! The values of a model's levels.
ghost use Rattle.std.specs.Prelude.{◌≡◌, ◌-◌, ◌<◌, ◌≤◌, ◌+◌, ◌*◌, All, length, slice_index, sum, unsigned_abs};
ghost use Rattle.criteria_model.specs.Lists.{IsVector};
ghost use Rattle.criteria_model.specs.Worth.{IsValueVector};
ghost use Rattle.part_worths.specs.Apportionment.{shares_of};
ghost use Rattle.part_worths.specs.Values.{total as sum_of, value_of_level, increments_before as increments_up_to, best_values, best_value as best_of};

use crate::apportionment::Shares;
use criteria_model::{CERTIFICATE_BOUND, MAX_INCREMENTS, Model, Vector};

#[cfg(test)]
mod tests;

/// The value of a level, the sum of the values of its criterion's increments below it. Criteria and
/// levels count from 1.
pub fn level_value(model: &Model, vector: &Vector, criterion: u8, level: u8) -> i128
    requires vector { IsValueVector model.now.levels vector.now }
    requires low { 1 ≤ criterion }
    requires high { criterion ≤ length model.now.levels }
    requires lowest { 1 ≤ level }
    requires best { level ≤ slice_index model.now.levels (criterion - 1) }
    ensures { result ≡ value_of_level model.now.levels vector.now criterion level }
{
    value_below(model, vector.as_slice(), criterion, level)
}

/// The share of each criterion: how much of the sum of all values its best level has.
pub fn shares(model: &Model, vector: &Vector) -> Shares
    requires { IsValueVector model.now.levels vector.now }
    ensures { result ≡ shares_of (best_values model.now.levels vector.now) }
{
    let count = usize::from(model.criteria());
    let increments = vector.as_slice();
    let mut values = [0; MAX_INCREMENTS];
    for place in 0..count {
        values[place] = best_value(model, increments, place as u8 + 1);
    }
    Shares::of(&values[..count])
}

// The value of the criterion's best level.
fn best_value(model: &Model, increments: &[i128], criterion: u8) -> u128
    requires vector { IsVector increments.now }
    requires values { IsValueVector model.now.levels increments.now }
    requires low { 1 ≤ criterion }
    requires high { criterion ≤ length model.now.levels }
    ensures { result ≡ best_of model.now.levels increments.now criterion }
{
    value_below(model, increments, criterion, model.levels(criterion)).unsigned_abs()
}

// The sum of the values of the criterion's increments below the level.
fn value_below(model: &Model, increments: &[i128], criterion: u8, level: u8) -> i128
    requires vector { IsVector increments.now }
    requires values { IsValueVector model.now.levels increments.now }
    requires low { 1 ≤ criterion }
    requires high { criterion ≤ length model.now.levels }
    requires lowest { 1 ≤ level }
    requires best { level ≤ slice_index model.now.levels (criterion - 1) }
    ensures { result ≡ value_of_level model.now.levels increments.now criterion level }
{
    let first = increments_before(model, criterion);
    total(&increments[first..first + usize::from(level) - 1])
}

// How many increments the criteria before this one have.
fn increments_before(model: &Model, criterion: u8) -> usize
    requires low { 1 ≤ criterion }
    requires high { criterion ≤ length model.now.levels }
    ensures { result ≡ increments_up_to model.now.levels criterion }
{
    let mut before = 0;
    for earlier in 1..criterion {
        before += usize::from(model.levels(earlier)) - 1;
    }
    before
}

// The sum of the values.
fn total(values: &[i128]) -> i128
    requires few { length values.now ≤ MAX_INCREMENTS }
    requires small { All (λ x. unsigned_abs x < CERTIFICATE_BOUND) values.now }
    ensures { result ≡ sum_of values.now }
{
    let mut sum = 0;
    for value in values {
        sum += *value;
    }
    sum
}
