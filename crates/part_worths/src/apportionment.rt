//! A whole shared out over a list of numbers by the largest remainders.
ghost use Rattle.std.specs.Prelude.{◌≡◌, ◌*◌, ◌-◌, ◌^◌, ◌<◌, ◌≤◌, Some, length, sum, slice_get};
ghost use Rattle.part_worths.specs.Apportionment.{IsShares, shares_of, remainders, rounded_down as part_of, missing as missing_of, count_before as places_before, is_before as comes_before};

use criteria_model::MAX_INCREMENTS;
use std::marker::Model;

#[cfg(test)]
mod tests;

/// What shares add up to: a share is a number of ten-thousandths.
pub const WHOLE: u32 = 10_000;

/// The shares of 1 to [`MAX_INCREMENTS`] criteria, in ten-thousandths, which add up to [`WHOLE`].
// The cells after the items hold 0, so that equal lists are equal values.
#[derive(Clone, Copy, PartialEq, Eq, Debug)]
pub struct Shares {
    items: [u32; MAX_INCREMENTS],
    len: u8,
}

// Clauses see the list.
impl Model for Shares {
    ghost use Rattle.std.specs.Prelude.{ℕ, List, length, take};
    ghost use Rattle.criteria_model.specs.declared.limits.TheConstants.{MAX_INCREMENTS};
    ghost use Rattle.row_laws.specs.Padded.{IsPadded, padded, padded-take, length-padded};
    ghost use Rattle.part_worths.specs.Apportionment.{IsShares};

    ghost Value = { List ℕ };

    ghost view = { λ s. take s.len s.items };

    ghost invariant = { λ s. IsPadded MAX_INCREMENTS 0 s.len s.items × IsShares (take s.len s.items) };

    ghost inverse = { λ items. record { items = padded MAX_INCREMENTS 0 items; len = length items } };

    ghost inverse_ok = { λ s h i. record {
      items = padded-take MAX_INCREMENTS 0 s.len s.items h.0 i;
      len = length-padded MAX_INCREMENTS 0 s.len s.items h.0 i;
    } };
}

impl Shares {
    /// The shares of values, by their part of the sum: each is rounded down, and what is then missing
    /// to [`WHOLE`] goes by ones to the largest remainders, of equal ones to the lower place.
    pub fn of(values: &[u128]) -> Shares
        requires some { 1 ≤ length values.now }
        requires most { length values.now ≤ MAX_INCREMENTS }
        requires positive { 1 ≤ sum values.now }
        requires small { WHOLE * sum values.now < 2 ^ 128 }
        ensures { result ≡ shares_of values.now }
    {
        let total = values.iter().sum();
        let mut cells = [0; MAX_INCREMENTS];
        let left_over = &mut cells[..values.len()];
        fill_remainders(values, total, left_over);
        let missing = missing(values, total);
        let mut items = [0; MAX_INCREMENTS];
        for place in 0..values.len() {
            let more = count_before(left_over, place) < missing;
            items[place] = rounded_down(total, values[place]) + u32::from(more);
        }
        Shares::with_items(&items[..values.len()])
    }

    /// The share of a criterion; criteria count from 1.
    pub fn share(&self, criterion: u8) -> u32
        requires low { 1 ≤ criterion }
        requires high { criterion ≤ length self.now }
        ensures value { slice_get self.now (criterion - 1) ≡ Some result }
        ensures range { result ≤ WHOLE }
    {
        self.as_slice()[usize::from(criterion) - 1]
    }

    /// The shares, criterion by criterion.
    pub fn as_slice(&self) -> &[u32]
        ensures value { result.now ≡ self.now }
        ensures range { IsShares result.now }
    {
        &self.items[..usize::from(self.len)]
    }

    fn with_items(items: &[u32]) -> Shares
        requires { IsShares items.now }
        ensures { result ≡ items.now }
    {
        let count = items.len();
        let mut cells = [0; MAX_INCREMENTS];
        cells[..count].copy_from_slice(items);
        Shares {
            items: cells,
            len: count as u8,
        }
    }
}

// The part of the whole that the value has of the total, rounded down.
fn rounded_down(total: u128, value: u128) -> u32
    requires part { value ≤ total }
    requires positive { 1 ≤ total }
    requires small { WHOLE * total < 2 ^ 128 }
    ensures value { result ≡ part_of total value }
    ensures range { result ≤ WHOLE }
{
    (u128::from(WHOLE) * value / total) as u32
}

// Writes what is left over of each value where its part is rounded down.
fn fill_remainders(values: &[u128], total: u128, left_over: &mut [u128])
    requires same { length left_over.old ≡ length values.now }
    requires sum { total ≡ sum values.now }
    requires positive { 1 ≤ total }
    requires small { WHOLE * total < 2 ^ 128 }
    ensures { left_over.new ≡ remainders values.now }
{
    for (place, value) in values.iter().enumerate() {
        left_over[place] = u128::from(WHOLE) * value % total;
    }
}

// What is missing to the whole, where each part is rounded down.
fn missing(values: &[u128], total: u128) -> u32
    requires sum { total ≡ sum values.now }
    requires positive { 1 ≤ total }
    requires small { WHOLE * total < 2 ^ 128 }
    ensures { result ≡ missing_of values.now }
{
    let mut missing = WHOLE;
    for value in values {
        missing -= rounded_down(total, *value);
    }
    missing
}

// How many places come before this one.
fn count_before(numbers: &[u128], place: usize) -> u32
    requires place { place < length numbers.now }
    requires few { length numbers.now ≤ MAX_INCREMENTS }
    ensures { result ≡ places_before numbers.now place }
{
    (0..numbers.len())
        .filter(|other| is_before(numbers, place, *other))
        .count() as u32
}

// Whether the other place comes before this one: its number is larger, or as large and it is the lower place.
fn is_before(numbers: &[u128], place: usize, other: usize) -> bool
    requires place { place < length numbers.now }
    requires other { other < length numbers.now }
    ensures { result ≡ comes_before numbers.now place other }
{
    numbers[place] < numbers[other] || numbers[place] == numbers[other] && other < place
}
