//! The solver's loop.
ghost use Rattle.simplex.specs.Choice.{IsReached};
ghost use Rattle.simplex.specs.Results.{IsFound, IsEnd, KeepsRows};
ghost use Rattle.fraction_free.specs.Dictionary.{IsDictionary};

use crate::choice::{entering_column, leaving_row};
use crate::clash::clash_of;
use crate::found::Found;
use crate::point::point_of;
use fraction_free::Dictionary;

/// A positive vector that meets each loaded row, with greatest common divisor 1, or, exactly where
/// none meets them, a clash. Pivots by the least-index rule, from any dictionary.
pub fn solve(work: &mut Dictionary) -> Found
    ensures found { IsFound work.old.columns work.old.loaded result }
    ensures pivots { IsReached work.old work.new }
    ensures end { IsEnd result work.new }
    ensures rows { KeepsRows work.old work.new }
    ensures dictionary { IsDictionary work.new }
{
    'pivots: loop {
        let Some(row) = leaving_row(work) else {
            return Found::Point(point_of(work));
        };
        let Some(col) = entering_column(work, row) else {
            return Found::Clash(clash_of(work, row));
        };
        work.pivot(row, col);
    }
}
