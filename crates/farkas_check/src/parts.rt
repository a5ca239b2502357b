//! The parts of a proof, each tested over the whole combination.
ghost use Rattle.std.specs.Prelude.{◌↔◌, IsTrue};
ghost use Rattle.criteria_model.specs.declared.pairs.Side.TheVariants.{Equal};
ghost use Rattle.farkas_check.specs.Sums.{cited_side};
ghost use Rattle.farkas_check.specs.Proof.{MayWeigh, IsStrict, IsThere, HasNonnegativeIncrements, HasCited, HasWeights, HasStrict, IsStrictEnough};

use crate::cites::{Cite, Cites};
use crate::combination::Combination;
use answer_rows::{Answer, Answers};
use criteria_model::{Side, Vector};

/// Whether no increment has a negative weight.
pub fn has_nonnegative_increments(combination: &Combination) -> bool
    ensures { IsTrue result ↔ HasNonnegativeIncrements combination.now }
{
    let weights = combination.increments.as_slice();
    weights.iter().all(|weight| *weight >= 0)
}

/// Whether each cited answer is there.
pub fn has_cited(answers: &[Answer], combination: &Combination) -> bool
    ensures { IsTrue result ↔ HasCited answers.now combination.now }
{
    let cites = combination.answers.as_slice();
    cites.iter().all(|cite| cite.answer >= 1 && cite.answer as usize <= answers.len())
}

/// Whether each cited answer may have its weight.
pub fn has_weights(answers: &[Answer], combination: &Combination) -> bool
    requires { HasCited answers.now combination.now }
    ensures { IsTrue result ↔ HasWeights answers.now combination.now }
{
    let cites = combination.answers.as_slice();
    cites.iter().all(|cite| may_weigh(answers, cite))
}

/// Whether the cited answer may have this weight: only one that is equal may have a negative weight.
fn may_weigh(answers: &[Answer], cite: &Cite) -> bool
    requires { IsThere answers.now cite.now }
    ensures { IsTrue result ↔ MayWeigh (cited_side answers.now cite.now) cite.now.weight }
{
    match answers[cite.answer as usize - 1].side {
        Side::Equal => true,
        _ => cite.weight >= 0,
    }
}

/// Whether something strict has a positive weight exactly where the verdict wants it.
pub fn is_strict_enough(answers: &[Answer], combination: &Combination, verdict: Side) -> bool
    requires { HasCited answers.now combination.now }
    ensures { IsTrue result ↔ IsStrictEnough answers.now combination.now verdict }
{
    let strict = has_strict(answers, combination);
    match verdict {
        Side::Equal => !strict,
        _ => strict,
    }
}

/// Whether some increment, or some answer that isn't equal, has a positive weight.
fn has_strict(answers: &[Answer], combination: &Combination) -> bool
    requires { HasCited answers.now combination.now }
    ensures { IsTrue result ↔ HasStrict answers.now combination.now }
{
    let weights = combination.increments.as_slice();
    let cites = combination.answers.as_slice();
    weights.iter().any(|weight| *weight > 0) || cites.iter().any(|cite| is_strict(answers, cite))
}

/// Whether the cited answer isn't equal, and its weight is positive.
fn is_strict(answers: &[Answer], cite: &Cite) -> bool
    requires { IsThere answers.now cite.now }
    ensures { IsTrue result ↔ IsStrict (cited_side answers.now cite.now) cite.now.weight }
{
    match answers[cite.answer as usize - 1].side {
        Side::Equal => false,
        _ => cite.weight > 0,
    }
}
