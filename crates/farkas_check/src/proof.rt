ghost use Rattle.std.specs.Prelude.{◌≡◌, ◌↔◌, ◌<◌, length, All, IsTrue, unsigned_abs};
ghost use Rattle.criteria_model.specs.Worth.{increments};
ghost use Rattle.criteria_model.specs.Pairs.{IsFit};
ghost use Rattle.farkas_check.specs.Flaws.{IsFirstFlaw};
ghost use Rattle.farkas_check.specs.Proof.{Proves};

use crate::combination::Combination;
use crate::flaws::Flaw;
use crate::parts::{has_cited, has_nonnegative_increments, has_weights, is_strict_enough};
use crate::sums::has_sums;
use answer_rows::Answers;
use criteria_model::{CERTIFICATE_BOUND, Model, Pair, Side};

/// The first part that the combination lacks to prove the verdict on the pair, each part tested over the whole
/// combination; `None` where it proves the verdict.
pub fn flaw(
    model: &Model,
    answers: &Answers,
    combination: &Combination,
    pair: &Pair,
    verdict: Side,
) -> Option<Flaw>
    requires len { length combination.now.increments ≡ increments model.now.levels }
    requires scale { unsigned_abs combination.now.scale < CERTIFICATE_BOUND }
    requires answers_fit { All (λ answer. IsFit model.now.levels answer.pair) answers.now.answers }
    requires pair_fits { IsFit model.now.levels pair.now }
    ensures { IsFirstFlaw model.now.levels answers.now.answers combination.now pair.now verdict result }
{
    let listed = answers.as_slice();
    if combination.scale < 1 {
        return Some(Flaw::Scale);
    }
    if !has_nonnegative_increments(combination) {
        return Some(Flaw::Increment);
    }
    if !has_cited(listed, combination) {
        return Some(Flaw::Cite);
    }
    if !has_weights(listed, combination) {
        return Some(Flaw::Weight);
    }
    if !has_sums(model, answers, combination, pair, verdict) {
        return Some(Flaw::Sum);
    }
    if !is_strict_enough(listed, combination, verdict) {
        return Some(Flaw::Strict);
    }
    None
}

/// Whether the combination proves the verdict on the pair. Then every value vector that meets the answers ranks the
/// pair so: see [`proved_is_ranked`](crate::laws::proved_is_ranked).
pub fn proves(
    model: &Model,
    answers: &Answers,
    combination: &Combination,
    pair: &Pair,
    verdict: Side,
) -> bool
    requires len { length combination.now.increments ≡ increments model.now.levels }
    requires scale { unsigned_abs combination.now.scale < CERTIFICATE_BOUND }
    requires answers_fit { All (λ answer. IsFit model.now.levels answer.pair) answers.now.answers }
    requires pair_fits { IsFit model.now.levels pair.now }
    ensures { IsTrue result ↔ Proves model.now.levels answers.now.answers combination.now pair.now verdict }
{
    match flaw(model, answers, combination, pair, verdict) {
        None => true,
        Some(_) => false,
    }
}

#[cfg(test)]
mod tests;
