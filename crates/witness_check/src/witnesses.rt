ghost use Rattle.std.specs.Prelude.{◌↔◌, ◌≤◌, length, drop, All, IsTrue};
ghost use Rattle.criteria_model.specs.Worth.{IsValueVector};
ghost use Rattle.criteria_model.specs.Pairs.{IsFit};
ghost use Rattle.criteria_model.specs.Answers.{Ranks, MeetsAll, IsOpen, Opens};

use answer_rows::{Answer, Answers};
use criteria_model::{Model, Pair, Side, Vector};

/// Whether the vector meets the answers. It has a positive number for each increment.
pub fn meets(model: &Model, answers: &Answers, vector: &Vector) -> bool
    requires vector { IsValueVector model.now.levels vector.now }
    requires fit { All (λ answer. IsFit model.now.levels answer.pair) answers.now.answers }
    ensures { IsTrue result ↔ MeetsAll model.now.levels answers.now.answers vector.now }
{
    all_met(model, answers.as_slice(), vector)
}

/// Whether the vector meets the answers after the first `from`. It has a positive number for each increment.
pub fn meets_from(model: &Model, answers: &Answers, from: u32, vector: &Vector) -> bool
    requires vector { IsValueVector model.now.levels vector.now }
    requires fit { All (λ answer. IsFit model.now.levels answer.pair) answers.now.answers }
    requires from { from ≤ length answers.now.answers }
    ensures { IsTrue result ↔ MeetsAll model.now.levels (drop from answers.now.answers) vector.now }
{
    all_met(model, &answers.as_slice()[from as usize..], vector)
}

/// Whether both vectors meet the answers and the pair's left side is worth more by `plus` and less by `minus`. Both
/// have a positive number for each increment. A pair that two vectors open is ranked in no way by the answers.
pub fn opens(model: &Model, answers: &Answers, pair: &Pair, plus: &Vector, minus: &Vector) -> bool
    requires plus { IsValueVector model.now.levels plus.now }
    requires minus { IsValueVector model.now.levels minus.now }
    requires answers_fit { All (λ answer. IsFit model.now.levels answer.pair) answers.now.answers }
    requires pair_fits { IsFit model.now.levels pair.now }
    ensures opens { IsTrue result ↔ Opens model.now.levels answers.now.answers pair.now plus.now minus.now }
    ensures open { IsTrue result → IsOpen model.now.levels answers.now.answers pair.now }
{
    ranks(model, plus, pair, Side::Left)
        && ranks(model, minus, pair, Side::Right)
        && meets(model, answers, plus)
        && meets(model, answers, minus)
}

fn all_met(model: &Model, answers: &[Answer], vector: &Vector) -> bool
    requires vector { IsValueVector model.now.levels vector.now }
    requires fit { All (λ answer. IsFit model.now.levels answer.pair) answers.now }
    ensures { IsTrue result ↔ MeetsAll model.now.levels answers.now vector.now }
{
    answers
        .iter()
        .all(|answer| ranks(model, vector, &answer.pair, answer.side))
}

/// Whether the vector ranks the pair so.
fn ranks(model: &Model, vector: &Vector, pair: &Pair, side: Side) -> bool
    requires vector { IsValueVector model.now.levels vector.now }
    requires fits { IsFit model.now.levels pair.now }
    ensures { IsTrue result ↔ Ranks model.now.levels vector.now pair.now side }
{
    model.ranking(vector, pair) == side
}

#[cfg(test)]
mod tests;
