ghost use Rattle.std.specs.Prelude.{◌≡◌, ◌-◌, ◌*◌, ◌<◌, ◌≤◌, Some, length, slice_get, unsigned_abs};
ghost use Rattle.criteria_model.specs.Lists.{IsVector};
ghost use Rattle.row_laws.specs.Rows.{dot as sum_of_products};

use crate::limits::{CERTIFICATE_BOUND, MAX_INCREMENTS};
use crate::rows::Row;
use std::marker::Model;

/// A list of 1 to [`MAX_INCREMENTS`] whole numbers below [`CERTIFICATE_BOUND`] in size, as the values
/// of a model's increments.
// The cells after the items hold 0, so that equal lists are equal values.
#[derive(Clone, Copy, PartialEq, Eq, Debug)]
pub struct Vector {
    items: [i128; MAX_INCREMENTS],
    len: u8,
}

impl Model for Vector {
    ghost use Rattle.std.specs.Prelude.{ℤ, pos, List, length, take};
    ghost use Rattle.criteria_model.specs.declared.limits.TheConstants.{MAX_INCREMENTS};
    ghost use Rattle.criteria_model.specs.Lists.{IsVector};
    ghost use Rattle.row_laws.specs.Padded.{IsPadded, padded, padded-take, length-padded};

    ghost Value = { List ℤ };

    ghost view = { λ t. take t.len t.items };

    ghost invariant = { λ t. IsPadded MAX_INCREMENTS (pos 0) t.len t.items × IsVector (take t.len t.items) };

    ghost inverse = { λ items. record { items = padded MAX_INCREMENTS (pos 0) items; len = length items } };

    ghost inverse_ok = { λ t h i. record {
      items = padded-take MAX_INCREMENTS (pos 0) t.len t.items h.0 i;
      len = length-padded MAX_INCREMENTS (pos 0) t.len t.items h.0 i;
    } };
}

impl Vector {
    /// The list of these items.
    pub fn of(items: &[i128]) -> Vector
        requires { IsVector items.now }
        ensures { result ≡ items.now }
    {
        let count = items.len();
        let mut cells = [0; MAX_INCREMENTS];
        cells[..count].copy_from_slice(items);
        Vector {
            items: cells,
            len: count as u8,
        }
    }

    /// The number of items.
    pub fn len(&self) -> usize
        ensures value { result ≡ length self.now }
        ensures range { IsVector self.now }
    {
        usize::from(self.len)
    }

    /// The item at a place; places count from 1.
    pub fn item(&self, place: usize) -> i128
        requires low { 1 ≤ place }
        requires high { place ≤ length self.now }
        ensures value { slice_get self.now (place - 1) ≡ Some result }
        ensures range { unsigned_abs result < CERTIFICATE_BOUND }
    {
        self.as_slice()[place - 1]
    }

    /// The sum of the products with a row's items, place by place.
    pub fn dot(&self, row: &Row) -> i128
        requires { length row.now ≡ length self.now }
        ensures value { result ≡ sum_of_products self.now row.now }
        ensures range { unsigned_abs result ≤ MAX_INCREMENTS * CERTIFICATE_BOUND }
    {
        let values = self.as_slice();
        let factors = row.as_slice();
        let mut sum = 0;
        for place in 0..values.len() {
            sum += values[place] * i128::from(factors[place]);
        }
        sum
    }

    /// The items, in order.
    pub fn as_slice(&self) -> &[i128]
        ensures value { result.now ≡ self.now }
        ensures range { IsVector result.now }
    {
        &self.items[..usize::from(self.len)]
    }
}
