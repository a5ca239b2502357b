//! Weights on loaded rows.
ghost use Rattle.std.specs.Prelude.{◌≡◌, ◌-◌, ◌<◌, ◌≤◌, List, [], ◌∷◌, ◌++◌, length, All, slice_index_or, pos, ◌<ℤ◌, unsigned_abs};
ghost use Rattle.simplex.specs.Weights.{AreRowWeights, no_weight};

use criteria_model::CERTIFICATE_BOUND;
use std::marker::Model;

/// The most rows of a clash: the basic variable's and one for each increment.
pub const MAX_ROW_WEIGHTS: usize = 25;

/// A row, by its number, and its weight.
#[derive(Clone, Copy, PartialEq, Eq, Debug)]
pub struct RowWeight {
    pub row: u32,
    pub weight: i128,
}

/// At most [`MAX_ROW_WEIGHTS`] rows, ascending, each with a positive weight below
/// [`CERTIFICATE_BOUND`].
// The cells after the items hold no row, so that equal lists are equal values.
#[derive(Clone, Copy, PartialEq, Eq, Debug)]
pub struct RowWeights {
    items: [RowWeight; MAX_ROW_WEIGHTS],
    len: u8,
}

impl Model for RowWeights {
    ghost use Rattle.std.specs.Prelude.{List, length, take};
    ghost use Rattle.simplex.specs.declared.row_weights.RowWeight.{RowWeight};
    ghost use Rattle.simplex.specs.declared.row_weights.TheConstants.{MAX_ROW_WEIGHTS};
    ghost use Rattle.simplex.specs.Weights.{AreRowWeights, no_weight};
    ghost use Rattle.row_laws.specs.Padded.{IsPadded, padded, padded-take, length-padded};

    ghost Value = { List RowWeight };

    ghost view = { λ t. take t.len t.items };

    ghost invariant = { λ t. IsPadded MAX_ROW_WEIGHTS no_weight t.len t.items × AreRowWeights (take t.len t.items) };

    ghost inverse = { λ items. record { items = padded MAX_ROW_WEIGHTS no_weight items; len = length items } };

    ghost inverse_ok = { λ t h i. record {
      items = padded-take MAX_ROW_WEIGHTS no_weight t.len t.items h.0 i;
      len = length-padded MAX_ROW_WEIGHTS no_weight t.len t.items h.0 i;
    } };
}

const NO_WEIGHT: RowWeight = RowWeight { row: 0, weight: 0 };

impl RowWeights {
    /// No rows.
    pub fn none() -> RowWeights
        ensures { result ≡ [] }
    {
        RowWeights {
            items: [NO_WEIGHT; MAX_ROW_WEIGHTS],
            len: 0,
        }
    }

    /// Adds a row after the others.
    pub fn push(&mut self, row: u32, weight: i128)
        requires room { length self.old < MAX_ROW_WEIGHTS }
        requires numbered { 1 ≤ row }
        requires after { All (λ item. item.row < row) self.old }
        requires positive { pos 0 <ℤ weight }
        requires within { unsigned_abs weight < CERTIFICATE_BOUND }
        ensures { self.new ≡ self.old ++ (record { row = row; weight = weight }) ∷ [] }
    {
        let cells = &mut self.items;
        cells[usize::from(self.len)] = RowWeight { row, weight };
        self.len += 1;
    }

    /// The number of rows.
    pub fn len(&self) -> u32
        ensures value { result ≡ length self.now }
        ensures range { AreRowWeights self.now }
    {
        u32::from(self.len)
    }

    /// The number of the row at a place; places count from 1.
    pub fn row(&self, place: u32) -> u32
        requires low { 1 ≤ place }
        requires high { place ≤ length self.now }
        ensures { result ≡ (slice_index_or self.now (place - 1) no_weight).row }
    {
        let items = self.as_slice();
        items[place as usize - 1].row
    }

    /// The weight of the row at a place; places count from 1.
    pub fn weight(&self, place: u32) -> i128
        requires low { 1 ≤ place }
        requires high { place ≤ length self.now }
        ensures { result ≡ (slice_index_or self.now (place - 1) no_weight).weight }
    {
        let items = self.as_slice();
        items[place as usize - 1].weight
    }

    /// The weighted rows, in order.
    pub fn as_slice(&self) -> &[RowWeight]
        ensures value { result.now ≡ self.now }
        ensures range { AreRowWeights result.now }
    {
        &self.items[..usize::from(self.len)]
    }
}
