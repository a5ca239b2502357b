//! The combination that a clash gives.
ghost use Rattle.std.specs.Prelude.{◌≡◌, ◌+◌, ◌<◌, ◌≤◌, ◌∷◌, ◌++◌, length, map, All, pos, ◌≤ℤ◌, unsigned_abs};
ghost use Rattle.std.specs.Int.{◌∣◌};
ghost use Rattle.simplex.specs.Rows.{IsCoprime};
ghost use Rattle.simplex.specs.Weights.{AreRowWeights};
ghost use Rattle.decider.specs.Decisions.{numbers_of};
ghost use Rattle.decider.specs.Combining.{rows_in, AreFrom, TakesRow, TakesRanking, CitesRows, IsGreatestDivisor, times_cites, EndsWithTried, Combines};

use crate::cite_list::CiteList;
use crate::rows::row_count;
use answer_rows::Answers;
use criteria_model::{CERTIFICATE_BOUND, Side, Vector};
use farkas_check::{Cites, Combination, MAX_CITES};
use fraction_free::MAX_ROWS;
use simplex::{Clash, RowWeight, common_divisor, divided};
use wide_step::{QUOTIENT_BOUND, gcd};

/// The combination of a clash with a row that was tried after the rows of the answers: the scale is
/// that row's weight, each answer has the weight of its rows, and all is over the greatest common divisor.
pub fn combination_of(answers: &Answers, clash: &Clash) -> Combination
    requires tried { EndsWithTried answers.now.answers clash.now.rows }
    requires small { rows_in answers.now.answers ≤ MAX_ROWS }
    ensures combines { Combines answers.now.answers clash.now result }
    ensures reduced { IsCoprime (numbers_of result) }
    ensures scale { unsigned_abs result.scale < CERTIFICATE_BOUND }
{
    let weighted = clash.rows.as_slice();
    let tried = weighted.len() - 1;
    let scale = weighted[tried].weight;
    let cites = cited(answers, &weighted[..tried]);
    let divisor = divisor_of(scale, &clash.increments, &cites);
    Combination {
        scale: scale / divisor,
        increments: divided(clash.increments.as_slice(), divisor),
        answers: divided_cites(&cites, divisor),
    }
}

/// The cites of the answers whose rows are weighted.
fn cited(answers: &Answers, rows: &[RowWeight]) -> Cites
    requires rows { AreRowWeights rows.now }
    requires few { length rows.now ≤ MAX_CITES }
    requires small { rows_in answers.now.answers ≤ MAX_ROWS }
    requires within { All (λ item. item.row ≤ rows_in answers.now.answers) rows.now }
    ensures { CitesRows answers.now.answers rows.now result }
{
    let listed = answers.as_slice();
    let mut list = CiteList::none();
    let mut taken = 0;
    let mut row = 1;
    for at in 0..answers.len() {
        let side = listed[at as usize].side;
        let (weight, more) = ranking_weight(rows, taken, row, side);
        list.add(at + 1, weight);
        taken += more;
        row += row_count(side);
    }
    list.cites()
}

/// What the rows of a ranking weigh, and how many of the weighted rows they are. Its first row has
/// the number `row`, and the weighted rows after the first `taken` are not before it.
fn ranking_weight(rows: &[RowWeight], taken: usize, row: u32, side: Side) -> (i128, usize)
    requires rows { AreRowWeights rows.now }
    requires numbered { 1 ≤ row }
    requires small { row ≤ MAX_ROWS + 1 }
    requires within { taken ≤ length rows.now }
    requires from { AreFrom rows.now taken row }
    ensures { TakesRanking rows.now taken row side result.0 result.1 }
{
    let (weight, more) = row_weight(rows, taken, row);
    match side {
        Side::Equal => {
            let (turned, others) = row_weight(rows, taken + more, row + 1);
            (weight - turned, more + others)
        }
        _ => (weight, more),
    }
}

/// The weight of a row, and how many of the weighted rows it is. Those after the first `taken` are
/// not before it.
fn row_weight(rows: &[RowWeight], taken: usize, row: u32) -> (i128, usize)
    requires rows { AreRowWeights rows.now }
    requires within { taken ≤ length rows.now }
    requires from { AreFrom rows.now taken row }
    ensures { TakesRow rows.now taken row result.0 result.1 }
{
    if taken < rows.len() && rows[taken].row == row {
        (rows[taken].weight, 1)
    } else {
        (0, 0)
    }
}

/// The greatest common divisor of a positive scale and the weights.
fn divisor_of(scale: i128, increments: &Vector, cites: &Cites) -> i128
    requires positive { pos 1 ≤ℤ scale }
    requires size { unsigned_abs scale < CERTIFICATE_BOUND }
    ensures { IsGreatestDivisor (scale ∷ increments.now ++ map (λ cite. cite.weight) cites.now) result }
{
    let weighted = cites.as_slice();
    let mut divisor = gcd(scale, common_divisor(increments.as_slice()));
    for cite in weighted {
        divisor = gcd(divisor, cite.weight);
    }
    divisor
}

/// The cites with their weights over a divisor of each.
fn divided_cites(cites: &Cites, divisor: i128) -> Cites
    requires positive { pos 1 ≤ℤ divisor }
    requires size { unsigned_abs divisor < QUOTIENT_BOUND }
    requires divides { All (λ cite. unsigned_abs divisor ∣ unsigned_abs cite.weight) cites.now }
    ensures { cites.now ≡ times_cites divisor result }
{
    let weighted = cites.as_slice();
    let mut list = CiteList::none();
    for cite in weighted {
        list.add(cite.answer, cite.weight / divisor);
    }
    list.cites()
}
