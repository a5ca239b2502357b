//! The least-index rule's choice.
ghost use Rattle.std.specs.Prelude.{◌-◌, ◌<◌, ◌≤◌, length, MatchOption};
ghost use Rattle.fraction_free.specs.Dictionary.{IsDictionary};
ghost use Rattle.simplex.specs.Choice.{IsFeasible, IsLeavingRow, IsBlocked, IsEnteringColumn};

use fraction_free::Dictionary;

/// The row of the least basic variable that is below 0 where the nonbasic ones are 0.
pub fn leaving_row(work: &Dictionary) -> Option<u32>
    ensures choice { MatchOption result (IsFeasible work.now) (λ row. (1 ≤ row) × IsLeavingRow work.now (row - 1)) }
    ensures dictionary { IsDictionary work.now }
{
    let mut found = None;
    let mut least = u32::MAX;
    for at in 0..work.rows() {
        let row = at + 1;
        let variable = work.basic(row);
        if work.constant(row) < 0 && variable < least {
            found = Some(row);
            least = variable;
        }
    }
    found
}

/// The column of the least nonbasic variable with which the row's variable rises.
pub fn entering_column(work: &Dictionary, row: u32) -> Option<u8>
    requires low { 1 ≤ row }
    requires high { row ≤ length work.now.loaded }
    ensures { MatchOption result (IsBlocked work.now (row - 1)) (λ col. (1 ≤ col) × IsEnteringColumn work.now (row - 1) (col - 1)) }
{
    let mut found = None;
    let mut least = u32::MAX;
    for at in 0..work.cols() {
        let col = at + 1;
        let variable = work.nonbasic(col);
        if work.entry(row, col) > 0 && variable < least {
            found = Some(col);
            least = variable;
        }
    }
    found
}
