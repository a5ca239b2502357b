//! Rows of whole numbers, lists that lie in a fixed number of cells, and laws of both.
//!
//! The definitions stand in `specs/`, the lemmas on whole numbers, lists and rows in `proofs/`. No
//! function here computes anything: each states laws, which hold by its contract for all rows.
#![tactic(auto)]

ghost use Rattle.row_laws.specs.Laws.{EntryOfSum, EntryOfDifference, EntryOfMultiple, DotOfSum, DotOfDifference, DotOfMultiple, DotOfExchanged, DotOfJoined, DotOfPadded};

/// Rows are added, subtracted and multiplied place by place.
pub fn rows_add_place_by_place()
    ensures sum { EntryOfSum }
    ensures difference { EntryOfDifference }
    ensures multiple { EntryOfMultiple }
{}

/// The product of two rows is linear in each of them.
pub fn dot_is_linear()
    ensures sum { DotOfSum }
    ensures difference { DotOfDifference }
    ensures multiple { DotOfMultiple }
    ensures exchanged { DotOfExchanged }
{}

/// The product of rows put together is the sum of the parts' products, and zeros after a row add
/// nothing to it.
pub fn dot_adds_up()
    ensures joined { DotOfJoined }
    ensures padded { DotOfPadded }
{}
