//! What follows from one answer and the increments.
ghost use Rattle.std.specs.Prelude.{◌≡◌, ◌↔◌, ◌-◌, ◌≤◌, ℤ, count_by, List, length, slice_get, IsTrue, IfSome, IfNone, All, Some, pos};
ghost use Rattle.criteria_model.specs.declared.pairs.Answer.{Answer};
ghost use Rattle.criteria_model.specs.Lists.{IsRow};
ghost use Rattle.row_laws.specs.Rows.{minus};
ghost use Rattle.criteria_model.specs.Worth.{IsValueVector};
ghost use Rattle.criteria_model.specs.Pairs.{IsFit};
ghost use Rattle.criteria_model.specs.Answers.{Meets, IsSatisfiable};
ghost use Rattle.farkas_check.specs.Proof.{Proves};
ghost use Rattle.simplex.specs.Weights.{is_weight};
ghost use Rattle.decider.specs.declared.decision.Decision.TheVariants.{Implied};
ghost use Rattle.decider.specs.Decisions.{weights_of, IsDecision, HasFewWeights};
ghost use Rattle.decider.specs.OneAnswer.{CoversAt, CoversOnEach, CoversAnswer, Suffices};

use answer_rows::{Answer, Answers};
use criteria_model::{MAX_INCREMENTS, Model, Pair, Row, Side, Vector};
use farkas_check::{Cite, Cites, Combination};

/// A combination of one answer and the increments that proves the verdict; `None` where no answer suffices.
pub fn implied_by_one(
    model: &Model,
    answers: &Answers,
    pair: &Pair,
    verdict: Side,
) -> Option<Combination>
    requires answers_fit { All (λ answer. IsFit model.now.levels answer.pair) answers.now.answers }
    requires pair_fits { IsFit model.now.levels pair.now }
    requires satisfiable { IsSatisfiable model.now.levels answers.now.answers }
    ensures implied { IfSome result (λ combination. IsDecision model.now.levels answers.now.answers pair.now (Implied verdict combination)) }
    ensures few { IfSome result (λ combination. HasFewWeights (Implied verdict combination)) }
    ensures none { IfNone result (All (λ answer. ¬ Suffices model.now.levels answer pair.now verdict) answers.now.answers) }
{
    let listed = answers.as_slice();
    for at in 0..answers.len() {
        let answer = &listed[at as usize];
        if suffices(model, answer, pair, verdict) {
            return Some(combination_with(model, at + 1, answer, pair, verdict));
        }
    }
    None
}

/// The numbered answer with weight 1, and by how much the pair's gain is above its gain.
fn combination_with(
    model: &Model,
    number: u32,
    answer: &Answer,
    pair: &Pair,
    verdict: Side,
) -> Combination
    requires numbered { 1 ≤ number }
    requires answer_fits { IsFit model.now.levels answer.now.pair }
    requires pair_fits { IsFit model.now.levels pair.now }
    requires suffices { Suffices model.now.levels answer.now pair.now verdict }
    ensures proves { (answers : List Answer) → slice_get answers (number - 1) ≡ Some answer.now → Proves model.now.levels answers result pair.now verdict }
    ensures scale { result.scale ≡ pos 1 }
    ensures few { (values : List ℤ) → IsValueVector model.now.levels values → Meets model.now.levels values answer.now → count_by is_weight (weights_of result) ≤ MAX_INCREMENTS }
{
    let gain = model.gain(pair, verdict);
    let increments = excess(&gain, &model.gain(&answer.pair, answer.side));
    let cite = Cite {
        answer: number,
        weight: 1,
    };
    match Cites::of(&[cite]) {
        Some(answers) => Combination {
            scale: 1,
            increments,
            answers,
        },
        None => unreachable!(),
    }
}

/// By how much the first row is above the second, increment by increment.
fn excess(row: &Row, other: &Row) -> Vector
    requires { length row.now ≡ length other.now }
    ensures value { result ≡ minus row.now other.now }
    ensures row { IsRow row.now }
{
    let items = row.as_slice();
    let others = other.as_slice();
    let mut cells = [0; MAX_INCREMENTS];
    for place in 0..items.len() {
        cells[place] = i128::from(items[place]) - i128::from(others[place]);
    }
    Vector::of(&cells[..items.len()])
}

/// Whether the answer gives the ranking together with the increments.
fn suffices(model: &Model, answer: &Answer, pair: &Pair, verdict: Side) -> bool
    requires answer_fits { IsFit model.now.levels answer.now.pair }
    requires pair_fits { IsFit model.now.levels pair.now }
    ensures { IsTrue result ↔ Suffices model.now.levels answer.now pair.now verdict }
{
    let left = pair.left.as_slice();
    let right = pair.right.as_slice();
    match verdict {
        Side::Left => covers_answer(left, right, answer),
        Side::Right => covers_answer(right, left, answer),
        Side::Equal => false,
    }
}

/// Whether the answer isn't equal, and from `low` to `high` is gained at least as much as from its loser to its winner.
fn covers_answer(high: &[u8], low: &[u8], answer: &Answer) -> bool
    requires high_len { length high.now ≡ length answer.now.pair.left }
    requires low_len { length low.now ≡ length answer.now.pair.left }
    requires right_len { length answer.now.pair.right ≡ length answer.now.pair.left }
    ensures { IsTrue result ↔ CoversAnswer high.now low.now answer.now.pair answer.now.side }
{
    let left = answer.pair.left.as_slice();
    let right = answer.pair.right.as_slice();
    match answer.side {
        Side::Left => covers(high, low, left, right),
        Side::Right => covers(high, low, right, left),
        Side::Equal => false,
    }
}

/// Whether on each criterion from `low` to `high` is gained at least as much as from `other_low` to `other_high`.
fn covers(high: &[u8], low: &[u8], other_high: &[u8], other_low: &[u8]) -> bool
    requires low_len { length low.now ≡ length high.now }
    requires other_high_len { length other_high.now ≡ length high.now }
    requires other_low_len { length other_low.now ≡ length high.now }
    ensures { IsTrue result ↔ CoversOnEach high.now low.now other_high.now other_low.now }
{
    for place in 0..high.len() {
        if !covers_at(high[place], low[place], other_high[place], other_low[place]) {
            return false;
        }
    }
    true
}

/// Whether from `low` to `high` is gained at least as much as from `other_low` to `other_high`, on one criterion.
fn covers_at(high: u8, low: u8, other_high: u8, other_low: u8) -> bool
    ensures { IsTrue result ↔ CoversAt high low other_high other_low }
{
    (other_high <= high && low <= other_low) || (other_high <= other_low && low <= high)
}
