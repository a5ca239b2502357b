//! What a combination sums to at each increment.
ghost use Rattle.std.specs.Prelude.{◌≡◌, ◌↔◌, ℕ, ◌+◌, ◌<◌, ◌≤◌, length, All, IsTrue, unsigned_abs, ◌+ℤ◌, ◌-ℤ◌, ◌*ℤ◌};
ghost use Rattle.row_laws.specs.Rows.{entry, plus, minus, times};
ghost use Rattle.criteria_model.specs.Worth.{increments, has, has_on, lies_above};
ghost use Rattle.criteria_model.specs.Criteria.{IsModel};
ghost use Rattle.criteria_model.specs.Pairs.{IsFit};
ghost use Rattle.criteria_model.specs.Answers.{gain};
ghost use Rattle.farkas_check.specs.Sums.{sum_of_cites};
ghost use Rattle.farkas_check.specs.Cited.{AreCites};
ghost use Rattle.farkas_check.specs.Proof.{HasCited, HasSums, IsThere};

use crate::cites::Cite;
use crate::combination::Combination;
use answer_rows::{Answer, Answers};
use criteria_model::{CERTIFICATE_BOUND, MAX_INCREMENTS, Model, Pair, Side};

// What each sum is below in size while another cite may come.
const SUM_BOUND: u128 = 1 << 120;

/// Whether scale times the verdict's gain is the sum of the cites and the own weight, at each increment.
pub fn has_sums(
    model: &Model,
    answers: &Answers,
    combination: &Combination,
    pair: &Pair,
    verdict: Side,
) -> bool
    requires len { length combination.now.increments ≡ increments model.now.levels }
    requires scale { unsigned_abs combination.now.scale < CERTIFICATE_BOUND }
    requires answers_fit { All (λ answer. IsFit model.now.levels answer.pair) answers.now.answers }
    requires pair_fits { IsFit model.now.levels pair.now }
    requires cited { HasCited answers.now.answers combination.now }
    ensures { IsTrue result ↔ HasSums model.now.levels answers.now.answers combination.now pair.now verdict }
{
    let own = combination.increments.as_slice();
    let mut cells = [0; MAX_INCREMENTS];
    let sums = &mut cells[..usize::from(model.increments())];
    sums.copy_from_slice(own);
    add_cites(
        sums,
        model,
        answers.as_slice(),
        combination.answers.as_slice(),
    );
    let gain = model.gain(pair, verdict);
    let row = gain.as_slice();
    is_multiple(combination.scale, row, sums)
}

/// Adds to each sum weight times what the winner has more, over the cited answers.
fn add_cites(sums: &mut [i128], model: &Model, answers: &[Answer], cites: &[Cite])
    requires model { IsModel model.now }
    requires len { length sums.old ≡ increments model.now.levels }
    requires sums { All (λ x. unsigned_abs x < CERTIFICATE_BOUND) sums.old }
    requires cites { AreCites cites.now }
    requires there { All (IsThere answers.now) cites.now }
    requires answers_fit { All (λ answer. IsFit model.now.levels answer.pair) answers.now }
    ensures { (place : ℕ) → entry sums.new place ≡ sum_of_cites model.now.levels answers.now cites.now place +ℤ entry sums.old place }
{
    for cite in cites {
        let answer = &answers[cite.answer as usize - 1];
        add_answer(sums, model, answer, cite.weight);
    }
}

/// Adds weight times what the winner of the answer has more than its loser.
fn add_answer(sums: &mut [i128], model: &Model, answer: &Answer, weight: i128)
    requires len { length sums.old ≡ increments model.now.levels }
    requires fits { IsFit model.now.levels answer.now.pair }
    requires sums { All (λ x. unsigned_abs x < SUM_BOUND) sums.old }
    requires weight { unsigned_abs weight < CERTIFICATE_BOUND }
    ensures { sums.new ≡ plus sums.old (times weight (gain model.now.levels answer.now.pair answer.now.side)) }
{
    let left = answer.pair.left.as_slice();
    let right = answer.pair.right.as_slice();
    match answer.side {
        Side::Right => add_lead(sums, model, right, left, weight),
        _ => add_lead(sums, model, left, right, weight),
    }
}

/// Adds weight at each increment that only the winner has, and takes it away at each that only the loser has.
fn add_lead(sums: &mut [i128], model: &Model, winner: &[u8], loser: &[u8], weight: i128)
    requires len { length sums.old ≡ increments model.now.levels }
    requires winner { length winner.now ≡ length model.now.levels }
    requires loser { length loser.now ≡ length model.now.levels }
    requires sums { All (λ x. unsigned_abs x < SUM_BOUND) sums.old }
    requires weight { unsigned_abs weight < CERTIFICATE_BOUND }
    ensures { sums.new ≡ plus sums.old (times weight (minus (has model.now.levels winner.now) (has model.now.levels loser.now))) }
{
    let mut at = 0;
    for place in 0..model.criteria() {
        let steps = usize::from(model.levels(place + 1)) - 1;
        let high = winner[usize::from(place)];
        let low = loser[usize::from(place)];
        add_on_criterion(&mut sums[at..at + steps], high, low, weight);
        at += steps;
    }
}

/// The same on the increments of one criterion, from its lowest on.
fn add_on_criterion(sums: &mut [i128], winner: u8, loser: u8, weight: i128)
    requires sums { All (λ x. unsigned_abs x < SUM_BOUND) sums.old }
    requires weight { unsigned_abs weight < CERTIFICATE_BOUND }
    ensures { sums.new
        ≡ plus sums.old (times weight (minus (has_on (length sums.old + 1) winner) (has_on (length sums.old + 1) loser))) }
{
    if winner == loser {
        return;
    }
    for place in 0..sums.len() {
        sums[place] += change_of(weight, winner, loser, place + 1);
    }
}

/// What the weight adds at one increment of a criterion.
fn change_of(weight: i128, winner: u8, loser: u8, increment: usize) -> i128
    requires { unsigned_abs weight < CERTIFICATE_BOUND }
    ensures value { result ≡ weight *ℤ (lies_above winner increment -ℤ lies_above loser increment) }
    ensures size { unsigned_abs result < CERTIFICATE_BOUND }
{
    match (
        increment < usize::from(winner),
        increment < usize::from(loser),
    ) {
        (true, false) => weight,
        (false, true) => -weight,
        _ => 0,
    }
}

/// Whether the sums are scale times the row, place by place.
fn is_multiple(scale: i128, row: &[i8], sums: &[i128]) -> bool
    requires len { length row.now ≡ length sums.now }
    requires scale { unsigned_abs scale < CERTIFICATE_BOUND }
    requires row { All (λ x. unsigned_abs x ≤ 1) row.now }
    ensures { IsTrue result ↔ ((place : ℕ) → place < length row.now → scale *ℤ entry row.now place ≡ entry sums.now place) }
{
    for (place, x) in row.iter().enumerate() {
        if scale * i128::from(*x) != sums[place] {
            return false;
        }
    }
    true
}
