//! Decisions on pairs.
ghost use Rattle.std.specs.Prelude.{ℤ, ◌≡◌, ◌+◌, ◌≤◌, List, ◌++◌, length, All};
ghost use Rattle.criteria_model.specs.declared.pairs.Side.TheVariants.{Left, Equal};
ghost use Rattle.criteria_model.specs.Worth.{increments};
ghost use Rattle.criteria_model.specs.Pairs.{IsFit};
ghost use Rattle.criteria_model.specs.Answers.{Ranks, MeetsAll};
ghost use Rattle.fraction_free.specs.Dictionary.{IsDictionary};
ghost use Rattle.simplex.specs.Rows.{MeetsRows, IsCoprime};
ghost use Rattle.decider.specs.Standing.{rows_of, HasRoomForRows, BringsUp};
ghost use Rattle.decider.specs.Decisions.{IsDecision, IsExact, HasFewWeights};
ghost use Rattle.decider.specs.Trying.{against, OpensRows, IsTried};

use crate::combination::combination_of;
use crate::decision::Decision;
use crate::standing::bring_up;
use crate::trial::{other_side, point_for, try_side};
use answer_rows::Answers;
use criteria_model::{Model, Pair, Side, Vector};
use fraction_free::Dictionary;
use simplex::{Found, reduced};

/// What the answers say of the pair: two vectors that open it, or its ranking with a combination that
/// proves it. `point` meets the answers.
///
/// One solve decides, of a ranking that the point does not give. A second one finds a vector for left
/// where the point ranks the pair equal and right is possible.
pub fn decide(
    model: &Model,
    answers: &Answers,
    point: &Vector,
    pair: &Pair,
    work: &mut Dictionary,
) -> Decision
    requires answers_fit { All (λ answer. IsFit model.now.levels answer.pair) answers.now.answers }
    requires pair_fits { IsFit model.now.levels pair.now }
    requires meets { MeetsAll model.now.levels answers.now.answers point.now }
    requires room { HasRoomForRows model.now.levels answers.now.answers work.old }
    ensures decision { IsDecision model.now.levels answers.now.answers pair.now result }
    ensures exact { IsExact model.now.levels answers.now.answers pair.now result }
    ensures few { HasFewWeights result }
    ensures up { BringsUp model.now.levels answers.now.answers 2 work.old work.new }
    ensures dictionary { IsDictionary work.new }
{
    bring_up(model, answers, work);
    let verdict = model.ranking(point, pair);
    match try_side(model, pair, other_side(verdict), work) {
        Found::Clash(clash) => Decision::Implied {
            verdict,
            combination: combination_of(answers, &clash),
        },
        Found::Point(other) => {
            let (plus, minus) = opening(model, point, pair, verdict, &other, work);
            Decision::Undecided { plus, minus }
        }
    }
}

/// Two vectors that meet the rows, by which the left side is worth more, and less. `point` ranks the
/// pair as `verdict` says, and `other` against it, or right where that is equal.
fn opening(
    model: &Model,
    point: &Vector,
    pair: &Pair,
    verdict: Side,
    other: &Vector,
    work: &mut Dictionary,
) -> (Vector, Vector)
    requires fits { IsFit model.now.levels pair.now }
    requires columns { work.old.columns ≡ increments model.now.levels }
    requires room { length work.old.loaded + 2 ≤ work.old.room_rows }
    requires point { MeetsRows work.old.columns work.old.loaded point.now }
    requires ranked { Ranks model.now.levels point.now pair.now verdict }
    requires other { MeetsRows work.old.columns (work.old.loaded ++ rows_of model.now.levels pair.now (against verdict)) other.now }
    requires reduced { IsCoprime other.now }
    requires mirrored { verdict ≡ Equal → (vector : List ℤ) × MeetsRows work.old.columns (work.old.loaded ++ rows_of model.now.levels pair.now Left) vector }
    requires dictionary { IsDictionary work.old }
    ensures opens { OpensRows model.now.levels work.old.columns work.old.loaded pair.now result.0 result.1 }
    ensures tried { IsTried work.old work.new 1 }
    ensures dictionary { IsDictionary work.new }
{
    match verdict {
        Side::Left => (reduced(point.as_slice()), *other),
        Side::Right => (*other, reduced(point.as_slice())),
        Side::Equal => (point_for(model, pair, Side::Left, work), *other),
    }
}

#[cfg(test)]
mod tests;
