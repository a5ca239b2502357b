//! A run of decisions along answers.
ghost use Rattle.std.specs.Prelude.{◌≡◌, ◌-◌, ◌≤◌, length, All, IfSome, pos, ◌≤ℤ◌};
ghost use Rattle.criteria_model.specs.Worth.{increments};
ghost use Rattle.criteria_model.specs.Pairs.{IsFit};
ghost use Rattle.criteria_model.specs.Answers.{MeetsAll};
ghost use Rattle.decider.specs.Decisions.{IsDecision};
ghost use Rattle.decider.specs.Reserved.{IsReserved};
ghost use Rattle.decider.specs.Standing.{KeepsRoom};
ghost use Rattle.decider.specs.ToolDecisions.{AreReady};
ghost use Rattle.decision_bench.specs.Run.{IsUnderway};

use crate::tally::Tally;
use criteria_model::{Answer, MAX_INCREMENTS, Model, Pair, Side, Vector};
use decider::{Decision, Snapshot, Tools, decide, implied_by_one, point_with};
use pair_enumeration::Classes;

/// How a decision is come to.
#[derive(Clone, Copy, PartialEq, Eq, Debug)]
pub enum Start {
    /// By `Tools::decide`, which solves last.
    Tools,
    /// By one answer that suffices, else by a solve with the dictionary of the decision before.
    OneAnswer,
    /// By a solve with the dictionary of the decision before.
    Warm,
    /// By a solve with a dictionary of no rows.
    Cold,
}

impl Start {
    /// Its word in the output.
    pub fn word(self) -> &'static str {
        match self {
            Start::Tools => "tools",
            Start::OneAnswer => "one",
            Start::Warm => "warm",
            Start::Cold => "cold",
        }
    }
}

/// Decides all classes in each of `rounds` rounds.
pub fn decide_rounds(
    classes: &Classes,
    hidden: &Vector,
    start: Start,
    rounds: u32,
    tools: &mut Tools,
    tally: &mut Tally,
)
    requires hidden { length hidden.now ≡ increments classes.now.criteria.levels }
    requires reserved { IsReserved classes.now.criteria tools.old }
{
    for _ in 0..rounds {
        decide_all(classes, hidden, start, tools, tally);
    }
}

/// Decides each class in order, from no answers on, and answers those that are open by the hidden values.
fn decide_all(
    classes: &Classes,
    hidden: &Vector,
    start: Start,
    tools: &mut Tools,
    tally: &mut Tally,
)
    requires hidden { length hidden.now ≡ increments classes.now.criteria.levels }
    requires reserved { IsReserved classes.now.criteria tools.old }
    ensures { IsReserved classes.now.criteria tools.new }
{
    tools.snapshot.answers.cut(0);
    tools.snapshot.point = ones(classes.model().increments());
    for at in 0..classes.count() {
        decide_next(classes, at + 1, hidden, start, tools, tally);
    }
}

/// Decides the class at a place, and answers it by the hidden values where it is open.
fn decide_next(
    classes: &Classes,
    place: u32,
    hidden: &Vector,
    start: Start,
    tools: &mut Tools,
    tally: &mut Tally,
)
    requires low { 1 ≤ place }
    requires high { place ≤ length classes.now.classes }
    requires hidden { length hidden.now ≡ increments classes.now.criteria.levels }
    requires underway { IsUnderway classes.now.criteria (place - 1) tools.old }
    ensures { IsUnderway classes.now.criteria place tools.new }
{
    let model = classes.model();
    let _count = classes.count();
    let pair = classes.class(place);
    let rows = tools.work.added();
    let decision = decide_from(&model, &pair, start, tools);
    tally.count(&decision, tools.work.added() != rows);
    if let Decision::Undecided { plus, minus } = decision {
        let side = model.ranking(hidden, &pair);
        tools.snapshot.point = point_with(
            &model,
            &tools.snapshot.answers,
            &plus,
            &minus,
            &pair,
            side,
            &mut tools.work,
        );
        tools.snapshot.answers.push(Answer { pair, side });
    }
}

/// What the answers say of the pair.
fn decide_from(model: &Model, pair: &Pair, start: Start, tools: &mut Tools) -> Decision
    requires ready { AreReady model.now tools.old }
    requires fits { IsFit model.now.levels pair.now }
    ensures decision { IsDecision model.now.levels tools.old.snapshot.answers.answers pair.now result }
    ensures snapshot { tools.new.snapshot ≡ tools.old.snapshot }
    ensures room { KeepsRoom tools.old.work tools.new.work }
{
    if start == Start::Tools {
        return tools.decide(model, pair);
    }
    if start == Start::OneAnswer {
        if let Some(decision) = by_one_answer(model, pair, &tools.snapshot) {
            return decision;
        }
    }
    if start == Start::Cold {
        tools.work.load(model.increments());
    }
    let snapshot = &tools.snapshot;
    decide(
        model,
        &snapshot.answers,
        &snapshot.point,
        pair,
        &mut tools.work,
    )
}

/// What one answer says of the pair, where it suffices.
fn by_one_answer(model: &Model, pair: &Pair, snapshot: &Snapshot) -> Option<Decision>
    requires answers_fit { All (λ answer. IsFit model.now.levels answer.pair) snapshot.now.answers.answers }
    requires meets { MeetsAll model.now.levels snapshot.now.answers.answers snapshot.now.point }
    requires fits { IsFit model.now.levels pair.now }
    ensures { IfSome result (λ decision. IsDecision model.now.levels snapshot.now.answers.answers pair.now decision) }
{
    let verdict = model.ranking(&snapshot.point, pair);
    match implied_by_one(model, &snapshot.answers, pair, verdict) {
        Some(combination) => Some(Decision::Implied {
            verdict,
            combination,
        }),
        None => None,
    }
}

/// A vector of `count` ones.
fn ones(count: u8) -> Vector
    requires some { 1 ≤ count }
    requires most { count ≤ MAX_INCREMENTS }
    ensures len { length result ≡ count }
    ensures positive { All (λ x. pos 1 ≤ℤ x) result }
{
    Vector::of(&[1; MAX_INCREMENTS][..usize::from(count)])
}
