//! What a decision works with, and the way to a decision that looks first and solves last.
ghost use Rattle.std.specs.Prelude.{◌≡◌, [], replicate, IfOk, IfSome, All, pos};
ghost use Rattle.criteria_model.specs.Worth.{increments};
ghost use Rattle.criteria_model.specs.Pairs.{IsFit};
ghost use Rattle.criteria_model.specs.Answers.{Ranks, MeetsAll, Opens};
ghost use Rattle.fraction_free.specs.Dictionary.{IsDictionary};
ghost use Rattle.simplex.specs.Rows.{IsCoprime};
ghost use Rattle.decider.specs.Standing.{StandsFor, HasRoomForRows, KeepsRoom};
ghost use Rattle.decider.specs.Decisions.{IsDecision, IsExact, HasFewWeights};
ghost use Rattle.decider.specs.Reserved.{IsReserved};
ghost use Rattle.decider.specs.ToolDecisions.{AreReady, Decides};

use crate::decision::Decision;
use crate::decisions::decide;
use crate::one_answer::implied_by_one;
use crate::tested::tested_decision;
use crate::witnesses::Witnesses;
use answer_rows::Answers;
use criteria_model::{MAX_INCREMENTS, Model, Pair, Side, Vector};
use fraction_free::{Dictionary, NoMemory};
use simplex::reduced;
use std::alloc::Global;

/// Answers, a vector that meets them, and a number that says how often they changed.
#[derive(Drop)]
pub struct Snapshot {
    pub answers: Answers,
    pub point: Vector,
    pub version: u32,
}

/// A snapshot, and the dictionary for decisions on it. Beside them, vectors that earlier decisions found.
#[derive(Drop)]
pub struct Tools {
    pub snapshot: Snapshot,
    pub work: Dictionary,
    witnesses: Witnesses,
}

impl Tools {
    /// Tools with no answers and the vector of ones, with the rooms that a model needs.
    ///
    /// # Errors
    ///
    /// Where there is no memory.
    pub fn reserve(alloc: Global, model: &Model) -> Result<Tools, NoMemory>
        ensures answers { IfOk result (λ tools. tools.snapshot.answers.answers ≡ []) }
        ensures point { IfOk result (λ tools. tools.snapshot.point ≡ replicate (increments model.now.levels) (pos 1)) }
        ensures version { IfOk result (λ tools. tools.snapshot.version ≡ 0) }
        ensures stands { IfOk result (λ tools. StandsFor model.now.levels [] tools.work) }
        ensures reserved { IfOk result (λ tools. IsReserved model.now tools) }
        ensures dictionary { IfOk result (λ tools. IsDictionary tools.work) }
    {
        let answers = Answers::reserve(alloc, model.class_count())?;
        let work = Dictionary::reserve(alloc, model.increments(), 2 * model.class_count() + 2)?;
        let witnesses = Witnesses::reserve(alloc, model)?;
        let ones = [1; MAX_INCREMENTS];
        let snapshot = Snapshot {
            answers,
            point: Vector::of(&ones[..usize::from(model.increments())]),
            version: 0,
        };
        Ok(Tools {
            snapshot,
            work,
            witnesses,
        })
    }

    /// What the snapshot's answers say of the pair, as [`decide`] gives it. Looks for one answer that gives the
    /// ranking, then for two known vectors that open the pair, and only then solves: so the dictionary may be as it
    /// was, and stand for fewer answers.
    pub fn decide(&mut self, model: &Model, pair: &Pair) -> Decision
        requires ready { AreReady model.now self.old }
        requires fits { IsFit model.now.levels pair.now }
        ensures { Decides model.now self.old self.new pair.now result }
    {
        let verdict = model.ranking(&self.snapshot.point, pair);
        match implied_by_one(model, &self.snapshot.answers, pair, verdict) {
            Some(combination) => Decision::Implied {
                verdict,
                combination,
            },
            None => self.open_or_solve(model, pair, verdict),
        }
    }

    /// The decision by two known vectors, else by the dictionary.
    fn open_or_solve(&mut self, model: &Model, pair: &Pair, verdict: Side) -> Decision
        requires ready { AreReady model.now self.old }
        requires fits { IsFit model.now.levels pair.now }
        requires ranked { Ranks model.now.levels self.old.snapshot.point pair.now verdict }
        ensures { Decides model.now self.old self.new pair.now result }
    {
        match opened(model, &self.snapshot, &mut self.witnesses, pair, verdict) {
            Some((plus, minus)) => Decision::Undecided { plus, minus },
            None => self.solve(model, pair, verdict),
        }
    }

    /// The decision by the dictionary. The vectors that it finds are kept.
    fn solve(&mut self, model: &Model, pair: &Pair, verdict: Side) -> Decision
        requires ready { AreReady model.now self.old }
        requires fits { IsFit model.now.levels pair.now }
        requires ranked { Ranks model.now.levels self.old.snapshot.point pair.now verdict }
        ensures { Decides model.now self.old self.new pair.now result }
    {
        let snapshot = &self.snapshot;
        let decision = solved(model, snapshot, pair, verdict, &mut self.work);
        keep_found(
            model,
            &snapshot.answers,
            pair,
            verdict,
            &decision,
            &mut self.witnesses,
        );
        decision
    }
}

/// The decision by the dictionary as it stands, else by one that stands for the answers. The point ranks the pair as
/// `verdict` says.
fn solved(
    model: &Model,
    snapshot: &Snapshot,
    pair: &Pair,
    verdict: Side,
    work: &mut Dictionary,
) -> Decision
    requires answers_fit { All (λ answer. IsFit model.now.levels answer.pair) snapshot.now.answers.answers }
    requires pair_fits { IsFit model.now.levels pair.now }
    requires meets { MeetsAll model.now.levels snapshot.now.answers.answers snapshot.now.point }
    requires ranked { Ranks model.now.levels snapshot.now.point pair.now verdict }
    requires room { HasRoomForRows model.now.levels snapshot.now.answers.answers work.old }
    ensures decision { IsDecision model.now.levels snapshot.now.answers.answers pair.now result }
    ensures exact { IsExact model.now.levels snapshot.now.answers.answers pair.now result }
    ensures few { HasFewWeights result }
    ensures room { KeepsRoom work.old work.new }
{
    let answers = &snapshot.answers;
    let point = &snapshot.point;
    match tested_decision(model, answers, point, pair, verdict, work) {
        Some(decision) => decision,
        None => decide(model, answers, point, pair, work),
    }
}

/// Two vectors that open the pair, which the point ranks as `verdict` says: the point and a known one against it, or
/// two known ones where that is equal.
fn opened(
    model: &Model,
    snapshot: &Snapshot,
    witnesses: &mut Witnesses,
    pair: &Pair,
    verdict: Side,
) -> Option<(Vector, Vector)>
    requires answers_fit { All (λ answer. IsFit model.now.levels answer.pair) snapshot.now.answers.answers }
    requires pair_fits { IsFit model.now.levels pair.now }
    requires meets { MeetsAll model.now.levels snapshot.now.answers.answers snapshot.now.point }
    requires ranked { Ranks model.now.levels snapshot.now.point pair.now verdict }
    ensures { IfSome result (λ found. Opens model.now.levels snapshot.now.answers.answers pair.now found.0 found.1 × IsCoprime found.0 × IsCoprime found.1) }
{
    let answers = &snapshot.answers;
    match verdict {
        Side::Left => match witnesses.find(model, answers, pair, Side::Right) {
            Some(minus) => Some((reduced(snapshot.point.as_slice()), minus)),
            None => None,
        },
        Side::Right => match witnesses.find(model, answers, pair, Side::Left) {
            Some(plus) => Some((plus, reduced(snapshot.point.as_slice()))),
            None => None,
        },
        Side::Equal => {
            let Some(plus) = witnesses.find(model, answers, pair, Side::Left) else {
                return None;
            };
            match witnesses.find(model, answers, pair, Side::Right) {
                Some(minus) => Some((plus, minus)),
                None => None,
            }
        }
    }
}

/// Keeps the vectors of a decision, without the point, which ranks the pair as `verdict` says.
fn keep_found(
    model: &Model,
    answers: &Answers,
    pair: &Pair,
    verdict: Side,
    decision: &Decision,
    witnesses: &mut Witnesses,
)
    requires { IsDecision model.now.levels answers.now.answers pair.now decision.now }
{
    if let Decision::Undecided { plus, minus } = decision {
        if verdict != Side::Left {
            witnesses.keep(model, answers, plus);
        }
        if verdict != Side::Right {
            witnesses.keep(model, answers, minus);
        }
    }
}

#[cfg(test)]
mod tests;
