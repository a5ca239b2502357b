//! A ranking tried beside the answers.
ghost use Rattle.std.specs.Prelude.{ℤ, ◌≡◌, ◌+◌, ◌<◌, ◌≤◌, List, ◌++◌, length};
ghost use Rattle.criteria_model.specs.Worth.{increments};
ghost use Rattle.criteria_model.specs.Pairs.{IsFit};
ghost use Rattle.fraction_free.specs.Dictionary.{IsDictionary};
ghost use Rattle.simplex.specs.Rows.{MeetsRows, IsCoprime};
ghost use Rattle.simplex.specs.Results.{IsFound, KeepsRows};
ghost use Rattle.decider.specs.Standing.{rows_of};
ghost use Rattle.decider.specs.Trying.{against, IsTried};

use crate::rows::{add_rows, row_count};
use criteria_model::{Model, Pair, Side, Vector};
use fraction_free::Dictionary;
use simplex::{Found, settle, solve, solve_last};

/// The ranking that is tried against this one.
pub fn other_side(verdict: Side) -> Side
    ensures { result ≡ against verdict }
{
    match verdict {
        Side::Right => Side::Left,
        _ => Side::Right,
    }
}

/// What the solver finds with the rows of the ranking added; they are dropped afterwards. A single row is raised from
/// a feasible dictionary, which stays so.
pub fn try_side(model: &Model, pair: &Pair, side: Side, work: &mut Dictionary) -> Found
    requires fits { IsFit model.now.levels pair.now }
    requires columns { work.old.columns ≡ increments model.now.levels }
    requires room { length work.old.loaded + 2 ≤ work.old.room_rows }
    ensures found { IsFound work.old.columns (work.old.loaded ++ rows_of model.now.levels pair.now side) result }
    ensures tried { IsTried work.old work.new (length (rows_of model.now.levels pair.now side)) }
    ensures dictionary { IsDictionary work.new }
{
    settle(work);
    add_rows(model, pair, side, work);
    let found = solve_tried(side, work);
    work.drop_last();
    if row_count(side) == 2 {
        work.drop_last();
    }
    found
}

/// What the solver finds. Of the two rows of an equal ranking neither is raised by itself.
fn solve_tried(side: Side, work: &mut Dictionary) -> Found
    requires { 0 < length work.old.loaded }
    ensures found { IsFound work.old.columns work.old.loaded result }
    ensures rows { KeepsRows work.old work.new }
    ensures dictionary { IsDictionary work.new }
{
    match side {
        Side::Equal => solve(work),
        _ => solve_last(work),
    }
}

/// A vector that meets the dictionary's rows and ranks the pair so, where there is one.
pub fn point_for(model: &Model, pair: &Pair, side: Side, work: &mut Dictionary) -> Vector
    requires fits { IsFit model.now.levels pair.now }
    requires columns { work.old.columns ≡ increments model.now.levels }
    requires room { length work.old.loaded + 2 ≤ work.old.room_rows }
    requires some { (vector : List ℤ) × MeetsRows work.old.columns (work.old.loaded ++ rows_of model.now.levels pair.now side) vector }
    ensures meets { MeetsRows work.old.columns (work.old.loaded ++ rows_of model.now.levels pair.now side) result }
    ensures reduced { IsCoprime result }
    ensures tried { IsTried work.old work.new (length (rows_of model.now.levels pair.now side)) }
    ensures dictionary { IsDictionary work.new }
{
    match try_side(model, pair, side, work) {
        Found::Point(vector) => vector,
        Found::Clash(_) => unreachable!(),
    }
}
