//! The answers for which a dictionary stands.
ghost use Rattle.std.specs.Prelude.{ℕ, ◌≤◌, ◌+◌, length, take, All, MatchOption};
ghost use Rattle.criteria_model.specs.Worth.{increments};
ghost use Rattle.criteria_model.specs.Pairs.{IsFit};
ghost use Rattle.fraction_free.specs.Dictionary.{IsDictionary};
ghost use Rattle.decider.specs.Standing.{StandsFor, HasRoomForRows, BringsUp};

use crate::rows::{add_rows, has_rows, row_count};
use answer_rows::Answers;
use criteria_model::Model;
use fraction_free::Dictionary;

/// For how many of the answers, from the first on, the dictionary stands; `None` where its rows are not
/// those of the first answers.
pub fn standing(model: &Model, answers: &Answers, work: &Dictionary) -> Option<u32>
    requires { All (λ answer. IsFit model.now.levels answer.pair) answers.now.answers }
    ensures standing { MatchOption result
        ((held : ℕ) → held ≤ length answers.now.answers → ¬ StandsFor model.now.levels (take held answers.now.answers) work.now)
        (λ held. (held ≤ length answers.now.answers) × StandsFor model.now.levels (take held answers.now.answers) work.now) }
    ensures dictionary { IsDictionary work.now }
{
    if work.cols() != model.increments() {
        return None;
    }
    let mut row = 0;
    let mut held = 0;
    'answers: while row < work.rows() && held < answers.len() {
        let answer = answers.answer(held + 1);
        if !has_rows(model, &answer.pair, answer.side, work, row) {
            return None;
        }
        row += row_count(answer.side);
        held += 1;
    }
    if row == work.rows() { Some(held) } else { None }
}

/// Makes the dictionary stand for the answers, by the rows that it lacks.
pub fn bring_up(model: &Model, answers: &Answers, work: &mut Dictionary)
    requires fit { All (λ answer. IsFit model.now.levels answer.pair) answers.now.answers }
    requires room { HasRoomForRows model.now.levels answers.now.answers work.old }
    ensures up { BringsUp model.now.levels answers.now.answers 0 work.old work.new }
    ensures dictionary { IsDictionary work.new }
{
    let held = match standing(model, answers, work) {
        Some(held) => held,
        None => {
            work.load(model.increments());
            0
        }
    };
    for at in held..answers.len() {
        let answer = answers.answer(at + 1);
        add_rows(model, &answer.pair, answer.side, work);
    }
}

#[cfg(test)]
mod tests;
