//! The point for one more answer.
ghost use Rattle.std.specs.Prelude.{[], ◌∷◌, ◌++◌, All};
ghost use Rattle.criteria_model.specs.Pairs.{IsFit};
ghost use Rattle.criteria_model.specs.Answers.{MeetsAll, Opens};
ghost use Rattle.fraction_free.specs.Dictionary.{IsDictionary};
ghost use Rattle.simplex.specs.Rows.{IsCoprime};
ghost use Rattle.decider.specs.Standing.{HasRoomForRows, BringsUp};

use crate::standing::bring_up;
use crate::trial::point_for;
use answer_rows::Answers;
use criteria_model::{Model, Pair, Side, Vector};
use fraction_free::Dictionary;
use simplex::reduced;

/// A vector that meets the answers and ranks the pair so. Two vectors open the pair, so there is one: the first
/// for left, the second for right, and one between them for equal. The dictionary stands for the answers
/// afterwards.
pub fn point_with(
    model: &Model,
    answers: &Answers,
    plus: &Vector,
    minus: &Vector,
    pair: &Pair,
    side: Side,
    work: &mut Dictionary,
) -> Vector
    requires answers_fit { All (λ answer. IsFit model.now.levels answer.pair) answers.now.answers }
    requires pair_fits { IsFit model.now.levels pair.now }
    requires opens { Opens model.now.levels answers.now.answers pair.now plus.now minus.now }
    requires room { HasRoomForRows model.now.levels answers.now.answers work.old }
    ensures meets { MeetsAll model.now.levels (answers.now.answers ++ (record { pair = pair.now; side = side }) ∷ []) result }
    ensures reduced { IsCoprime result }
    ensures up { BringsUp model.now.levels answers.now.answers 2 work.old work.new }
    ensures dictionary { IsDictionary work.new }
{
    bring_up(model, answers, work);
    match side {
        Side::Left => reduced(plus.as_slice()),
        Side::Right => reduced(minus.as_slice()),
        Side::Equal => point_for(model, pair, Side::Equal, work),
    }
}
