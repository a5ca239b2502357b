//! Rows as they are loaded.
use criteria_model::Row;

/// A row that the vector must meet: the coefficients times the vector are at least `least`.
#[derive(Drop, Clone, Copy)]
pub struct LoadedRow {
    /// One coefficient for each increment.
    pub coefficients: Row,
    /// 0 or 1.
    pub least: i8,
}
