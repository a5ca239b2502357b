ghost use Rattle.std.specs.Prelude.{◌≡◌, ◌-◌, ◌≤◌, Some, length, slice_get, unsigned_abs};
ghost use Rattle.criteria_model.specs.Lists.{IsRow};

use crate::limits::MAX_INCREMENTS;
use std::marker::Model;

/// A list of 1 to [`MAX_INCREMENTS`] of -1, 0 and 1: for each increment, what one side of a pair has
/// more than the other.
// The cells after the items hold 0, so that equal lists are equal values.
#[derive(Clone, Copy, PartialEq, Eq, Debug)]
pub struct Row {
    items: [i8; MAX_INCREMENTS],
    len: u8,
}

impl Model for Row {
    ghost use Rattle.std.specs.Prelude.{ℤ, pos, List, length, take};
    ghost use Rattle.criteria_model.specs.declared.limits.TheConstants.{MAX_INCREMENTS};
    ghost use Rattle.criteria_model.specs.Lists.{IsRow};
    ghost use Rattle.row_laws.specs.Padded.{IsPadded, padded, padded-take, length-padded};

    ghost Value = { List ℤ };

    ghost view = { λ t. take t.len t.items };

    ghost invariant = { λ t. IsPadded MAX_INCREMENTS (pos 0) t.len t.items × IsRow (take t.len t.items) };

    ghost inverse = { λ items. record { items = padded MAX_INCREMENTS (pos 0) items; len = length items } };

    ghost inverse_ok = { λ t h i. record {
      items = padded-take MAX_INCREMENTS (pos 0) t.len t.items h.0 i;
      len = length-padded MAX_INCREMENTS (pos 0) t.len t.items h.0 i;
    } };
}

impl Row {
    /// The list of these items.
    pub fn of(items: &[i8]) -> Row
        requires { IsRow items.now }
        ensures { result ≡ items.now }
    {
        let count = items.len();
        let mut cells = [0; MAX_INCREMENTS];
        cells[..count].copy_from_slice(items);
        Row {
            items: cells,
            len: count as u8,
        }
    }

    /// The number of items.
    pub fn len(&self) -> usize
        ensures value { result ≡ length self.now }
        ensures range { IsRow self.now }
    {
        usize::from(self.len)
    }

    /// The item at a place; places count from 1.
    pub fn item(&self, place: usize) -> i8
        requires low { 1 ≤ place }
        requires high { place ≤ length self.now }
        ensures value { slice_get self.now (place - 1) ≡ Some result }
        ensures range { unsigned_abs result ≤ 1 }
    {
        self.as_slice()[place - 1]
    }

    /// The items, in order.
    pub fn as_slice(&self) -> &[i8]
        ensures value { result.now ≡ self.now }
        ensures range { IsRow result.now }
    {
        &self.items[..usize::from(self.len)]
    }
}
