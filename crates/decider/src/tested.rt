//! Decisions by a dictionary as it stands, tested against the answers.
ghost use Rattle.std.specs.Prelude.{◌≡◌, ◌-◌, ◌≤◌, List, ◌++◌, length, take, IsTrue, IfSome, All};
ghost use Rattle.criteria_model.specs.Worth.{increments};
ghost use Rattle.criteria_model.specs.Criteria.{IsModel};
ghost use Rattle.criteria_model.specs.Pairs.{IsFit};
ghost use Rattle.criteria_model.specs.Answers.{Ranks, MeetsAll};
ghost use Rattle.fraction_free.specs.declared.loaded.LoadedRow.{LoadedRow};
ghost use Rattle.simplex.specs.Rows.{MeetsRows, IsCoprime};
ghost use Rattle.simplex.specs.Results.{IsClash};
ghost use Rattle.decider.specs.Standing.{rows_of, HasRoomForRows, KeepsRoom};
ghost use Rattle.decider.specs.Combining.{rows_in, row_at};
ghost use Rattle.decider.specs.Decisions.{IsDecision, HasFewWeights};
ghost use Rattle.decider.specs.Trying.{against};

use crate::combination::combination_of;
use crate::decision::Decision;
use crate::rows::{add_rows, row_count};
use crate::trial::{other_side, try_side};
use answer_rows::Answers;
use criteria_model::{Model, Pair, Side, Vector};
use farkas_check::proves;
use fraction_free::{Dictionary, MAX_ROWS};
use simplex::{Clash, Found, RowWeights, reduced};
use witness_check::meets;

/// What the dictionary as it stands finds, with the rows of the last answers where it has too few, if that decides the
/// pair: each combination is tested by its sums, and each vector on all answers. So nobody has to see first whether
/// the rows are those of the answers; `None` where they can't be, by their number, or where a test fails. `point` meets the answers and ranks the pair as `verdict` says.
pub fn tested_decision(
    model: &Model,
    answers: &Answers,
    point: &Vector,
    pair: &Pair,
    verdict: Side,
    work: &mut Dictionary,
) -> Option<Decision>
    requires answers_fit { All (λ answer. IsFit model.now.levels answer.pair) answers.now.answers }
    requires pair_fits { IsFit model.now.levels pair.now }
    requires meets { MeetsAll model.now.levels answers.now.answers point.now }
    requires ranked { Ranks model.now.levels point.now pair.now verdict }
    requires room { HasRoomForRows model.now.levels answers.now.answers work.old }
    ensures decision { IfSome result (λ made. IsDecision model.now.levels answers.now.answers pair.now made) }
    ensures few { IfSome result HasFewWeights }
    ensures room { KeepsRoom work.old work.new }
{
    if work.cols() != model.increments() {
        return None;
    }
    let Some(held) = held_with(answers, work.rows()) else {
        return None;
    };
    add_rest(model, answers, held, work);
    let rows = work.rows();
    match try_side(model, pair, other_side(verdict), work) {
        Found::Clash(clash) => implied_by(model, answers, pair, verdict, &clash, rows),
        Found::Point(other) => opened_by(model, answers, point, pair, verdict, &other),
    }
}

/// How many answers, from the first on, have as many rows as these; `None` where there is no such number.
fn held_with(answers: &Answers, rows: u32) -> Option<u32>
    ensures { IfSome result (λ held. (held ≤ length answers.now.answers) × (rows_in (take held answers.now.answers) ≡ rows)) }
{
    let listed = answers.as_slice();
    let mut left = rows;
    for at in 0..answers.len() {
        if left == 0 {
            return Some(at);
        }
        let count = row_count(listed[at as usize].side);
        if left < count {
            return None;
        }
        left -= count;
    }
    if left == 0 { Some(answers.len()) } else { None }
}

/// Adds the rows of the answers after the first `held`.
fn add_rest(model: &Model, answers: &Answers, held: u32, work: &mut Dictionary)
    requires fit { All (λ answer. IsFit model.now.levels answer.pair) answers.now.answers }
    requires room { HasRoomForRows model.now.levels answers.now.answers work.old }
    requires columns { work.old.columns ≡ increments model.now.levels }
    requires within { held ≤ length answers.now.answers }
    requires rows { length work.old.loaded ≡ rows_in (take held answers.now.answers) }
    ensures rows { length work.new.loaded ≡ rows_in answers.now.answers }
    ensures columns { work.new.columns ≡ work.old.columns }
    ensures room { KeepsRoom work.old work.new }
{
    for at in held..answers.len() {
        let answer = answers.answer(at + 1);
        add_rows(model, &answer.pair, answer.side, work);
    }
}

/// The ranking, where the combination of the clash proves it. `rows` is how many rows the answers have.
fn implied_by(
    model: &Model,
    answers: &Answers,
    pair: &Pair,
    verdict: Side,
    clash: &Clash,
    rows: u32,
) -> Option<Decision>
    requires answers_fit { All (λ answer. IsFit model.now.levels answer.pair) answers.now.answers }
    requires pair_fits { IsFit model.now.levels pair.now }
    requires model { IsModel model.now }
    requires rows { rows ≡ rows_in answers.now.answers }
    requires small { rows ≤ MAX_ROWS }
    requires clash { (loaded : List LoadedRow) × IsClash (increments model.now.levels) loaded clash.now }
    ensures decision { IfSome result (λ made. IsDecision model.now.levels answers.now.answers pair.now made) }
    ensures few { IfSome result HasFewWeights }
{
    if !ends_with_row(&clash.rows, rows + 1) {
        return None;
    }
    let combination = combination_of(answers, clash);
    if !proves(model, answers, &combination, pair, verdict) {
        return None;
    }
    Some(Decision::Implied {
        verdict,
        combination,
    })
}

/// Whether the last weighted row has this number.
fn ends_with_row(rows: &RowWeights, row: u32) -> bool
    ensures some { IsTrue result → 1 ≤ length rows.now }
    ensures last { IsTrue result → row_at rows.now (length rows.now - 1) ≡ row }
{
    let count = rows.len();
    count > 0 && rows.row(count) == row
}

/// The point and the found vector, which ranks the pair against it, where that meets all answers; `None` where the point
/// ranks the pair equal.
fn opened_by(
    model: &Model,
    answers: &Answers,
    point: &Vector,
    pair: &Pair,
    verdict: Side,
    other: &Vector,
) -> Option<Decision>
    requires fit { All (λ answer. IsFit model.now.levels answer.pair) answers.now.answers }
    requires meets { MeetsAll model.now.levels answers.now.answers point.now }
    requires ranked { Ranks model.now.levels point.now pair.now verdict }
    requires other { (loaded : List LoadedRow) × MeetsRows (increments model.now.levels) (loaded ++ rows_of model.now.levels pair.now (against verdict)) other.now }
    requires coprime { IsCoprime other.now }
    ensures decision { IfSome result (λ made. IsDecision model.now.levels answers.now.answers pair.now made) }
    ensures few { IfSome result HasFewWeights }
{
    if !meets(model, answers, other) {
        return None;
    }
    match verdict {
        Side::Left => Some(Decision::Undecided {
            plus: reduced(point.as_slice()),
            minus: *other,
        }),
        Side::Right => Some(Decision::Undecided {
            plus: *other,
            minus: reduced(point.as_slice()),
        }),
        Side::Equal => None,
    }
}
