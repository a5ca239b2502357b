//! The rows of a ranking.
ghost use Rattle.std.specs.Prelude.{◌≡◌, ◌↔◌, ℕ, ◌+◌, ◌≤◌, List, ◌++◌, length, IsTrue};
ghost use Rattle.criteria_model.specs.declared.pairs.Pair.{Pair};
ghost use Rattle.criteria_model.specs.Worth.{increments};
ghost use Rattle.criteria_model.specs.Pairs.{IsFit};
ghost use Rattle.fraction_free.specs.Dictionary.{IsDictionary};
ghost use Rattle.decider.specs.Standing.{rows_of, HasRow, BeginsAt, KeepsRoom, RisesAtMost};

use criteria_model::{Model, Pair, Row, Side};
use fraction_free::{Dictionary, MAX_ROWS};

/// The number of its rows.
pub fn row_count(side: Side) -> u32
    ensures { (levels : List ℕ) (pair : Pair) → result ≡ length (rows_of levels pair side) }
{
    match side {
        Side::Equal => 2,
        _ => 1,
    }
}

/// Whether the dictionary has a row after the first `before`, and it has these coefficients and this least.
fn is_row(work: &Dictionary, before: u32, coefficients: &Row, least: i8) -> bool
    requires { before ≤ length work.now.loaded + 1 }
    ensures { IsTrue result ↔ HasRow work.now.loaded before (record { coefficients = coefficients.now; least = least }) }
{
    if before >= work.rows() {
        return false;
    }
    let (held, bound) = work.loaded(before + 1);
    held.as_slice() == coefficients.as_slice() && bound == least
}

/// Whether the dictionary's rows after the first `from` begin with those of the ranking.
pub fn has_rows(model: &Model, pair: &Pair, side: Side, work: &Dictionary, from: u32) -> bool
    requires fits { IsFit model.now.levels pair.now }
    requires from { from ≤ length work.now.loaded }
    requires small { from ≤ MAX_ROWS }
    ensures { IsTrue result ↔ BeginsAt work.now.loaded (rows_of model.now.levels pair.now side) from }
{
    match side {
        Side::Equal => {
            is_row(work, from, &model.gain(pair, Side::Left), 0)
                && is_row(work, from + 1, &model.gain(pair, Side::Right), 0)
        }
        _ => is_row(work, from, &model.gain(pair, side), 1),
    }
}

/// Adds the rows of the ranking.
pub fn add_rows(model: &Model, pair: &Pair, side: Side, work: &mut Dictionary)
    requires fits { IsFit model.now.levels pair.now }
    requires columns { work.old.columns ≡ increments model.now.levels }
    requires room { length work.old.loaded + 2 ≤ work.old.room_rows }
    ensures loaded { work.new.loaded ≡ work.old.loaded ++ rows_of model.now.levels pair.now side }
    ensures columns { work.new.columns ≡ work.old.columns }
    ensures room { KeepsRoom work.old work.new }
    ensures loads { work.new.loads ≡ work.old.loads }
    ensures added { RisesAtMost work.old.added work.new.added (length (rows_of model.now.levels pair.now side)) }
    ensures dictionary { IsDictionary work.new }
{
    match side {
        Side::Equal => {
            work.add_row(&model.gain(pair, Side::Left), 0);
            work.add_row(&model.gain(pair, Side::Right), 0);
        }
        _ => work.add_row(&model.gain(pair, side), 1),
    }
}
