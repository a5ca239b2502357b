//! What the solver finds.
use crate::row_weights::RowWeights;
use criteria_model::Vector;

/// Weights on increments and on rows whose sum shows that no positive vector meets the rows.
#[derive(Clone, Copy, PartialEq, Eq, Debug)]
pub struct Clash {
    /// One weight for each increment.
    pub increments: Vector,
    pub rows: RowWeights,
}

/// A vector that meets the rows, or a clash.
#[derive(Clone, Copy, PartialEq, Eq, Debug)]
pub enum Found {
    Point(Vector),
    Clash(Clash),
}
