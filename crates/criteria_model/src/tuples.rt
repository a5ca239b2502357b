ghost use Rattle.std.specs.Prelude.{◌≡◌, ◌-◌, ◌≤◌, Some, length, slice_get};
ghost use Rattle.criteria_model.specs.Lists.{IsTuple};

use crate::limits::{MAX_INCREMENTS, MAX_LEVEL};
use std::marker::Model;

/// A list of 1 to [`MAX_INCREMENTS`] numbers up to [`MAX_LEVEL`], as the levels of an alternative.
// The cells after the items hold 0, so that equal lists are equal values.
#[derive(Clone, Copy, PartialEq, Eq, Debug)]
pub struct Tuple {
    items: [u8; MAX_INCREMENTS],
    len: u8,
}

impl Model for Tuple {
    ghost use Rattle.std.specs.Prelude.{ℕ, List, length, take};
    ghost use Rattle.criteria_model.specs.declared.limits.TheConstants.{MAX_INCREMENTS};
    ghost use Rattle.criteria_model.specs.Lists.{IsTuple};
    ghost use Rattle.row_laws.specs.Padded.{IsPadded, padded, padded-take, length-padded};

    ghost Value = { List ℕ };

    ghost view = { λ t. take t.len t.items };

    ghost invariant = { λ t. IsPadded MAX_INCREMENTS 0 t.len t.items × IsTuple (take t.len t.items) };

    ghost inverse = { λ items. record { items = padded MAX_INCREMENTS 0 items; len = length items } };

    ghost inverse_ok = { λ t h i. record {
      items = padded-take MAX_INCREMENTS 0 t.len t.items h.0 i;
      len = length-padded MAX_INCREMENTS 0 t.len t.items h.0 i;
    } };
}

impl Tuple {
    /// The list of these items.
    pub fn of(items: &[u8]) -> Tuple
        requires { IsTuple items.now }
        ensures { result ≡ items.now }
    {
        let count = items.len();
        let mut cells = [0; MAX_INCREMENTS];
        cells[..count].copy_from_slice(items);
        Tuple {
            items: cells,
            len: count as u8,
        }
    }

    /// The number of items.
    pub fn len(&self) -> usize
        ensures value { result ≡ length self.now }
        ensures range { IsTuple self.now }
    {
        usize::from(self.len)
    }

    /// The item at a place; places count from 1.
    pub fn item(&self, place: usize) -> u8
        requires low { 1 ≤ place }
        requires high { place ≤ length self.now }
        ensures value { slice_get self.now (place - 1) ≡ Some result }
        ensures range { result ≤ MAX_LEVEL }
    {
        self.as_slice()[place - 1]
    }

    /// The items, in order.
    pub fn as_slice(&self) -> &[u8]
        ensures value { result.now ≡ self.now }
        ensures range { IsTuple result.now }
    {
        &self.items[..usize::from(self.len)]
    }
}
