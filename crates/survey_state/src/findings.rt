//! What is found out of a class, beside the turns of a call.
ghost use Rattle.std.specs.Prelude.{◌≡◌, ◌∷◌, ◌++◌, [], All, IsTrue};
ghost use Rattle.criteria_model.specs.Pairs.{IsFit};
ghost use Rattle.criteria_model.specs.Answers.{MeetsAll, Opens};
ghost use Rattle.decider.specs.Standing.{KeepsRoom};
ghost use Rattle.survey_state.specs.Findings.{OpensByFirst, IsShown, IsFinding, IsReadyFor};

use answer_rows::Answers;
use criteria_model::{Model, Pair, Side, Vector};
use decider::{Decision, Tools, point_with};
use farkas_check::Combination;
use question_queue::Kept;
use witness_check::meets_from;

/// A class that is to be looked at, and what the state had for it.
#[derive(Drop)]
pub(crate) struct Look {
    /// How many events the journal had.
    pub at: u32,
    pub place: u32,
    pub model: Model,
    pub pair: Pair,
    pub kept: Option<Kept>,
}

/// What was found out of a class.
#[derive(Drop)]
pub(crate) enum Finding {
    /// Two vectors open it. The point would go with the answer that is asked for.
    Open {
        plus: Vector,
        minus: Vector,
        point: Vector,
    },
    /// A combination proves its ranking.
    Ranked {
        verdict: Side,
        combination: Combination,
    },
}

/// What was found out of the class at a place, by the journal's first `at` events.
#[derive(Drop)]
pub(crate) struct Found {
    pub at: u32,
    pub place: u32,
    pub finding: Finding,
}

/// Finds out of a class whether it is open. The point for an answer to this side comes with it.
pub(crate) fn find(tools: &mut Tools, side: Side, look: &Look) -> Finding
    requires { IsReadyFor look.now tools.old }
    ensures finding { IsFinding look.now.model.levels tools.old.snapshot.answers.answers look.now.pair side result }
    ensures snapshot { tools.new.snapshot ≡ tools.old.snapshot }
    ensures room { KeepsRoom tools.old.work tools.new.work }
{
    match decided(tools, look) {
        Decision::Undecided { plus, minus } => {
            let point = point_for(tools, side, look, &plus, &minus);
            Finding::Open { plus, minus, point }
        }
        Decision::Implied {
            verdict,
            combination,
        } => Finding::Ranked {
            verdict,
            combination,
        },
    }
}

/// The decision by the vectors that were kept, where they still meet the answers, else by the tools.
fn decided(tools: &mut Tools, look: &Look) -> Decision
    requires { IsReadyFor look.now tools.old }
    ensures shown { IsShown look.now.model.levels tools.old.snapshot.answers.answers look.now.pair result }
    ensures snapshot { tools.new.snapshot ≡ tools.old.snapshot }
    ensures room { KeepsRoom tools.old.work tools.new.work }
{
    match &look.kept {
        Some(kept) if still_open(&look.model, &tools.snapshot.answers, &look.pair, kept) => {
            Decision::Undecided {
                plus: kept.plus,
                minus: kept.minus,
            }
        }
        _ => tools.decide(&look.model, &look.pair),
    }
}

/// Whether vectors that open the pair by the first answers meet the others too.
fn still_open(model: &Model, answers: &Answers, pair: &Pair, kept: &Kept) -> bool
    requires fit { All (λ answer. IsFit model.now.levels answer.pair) answers.now.answers }
    requires opens { OpensByFirst model.now.levels answers.now.answers pair.now kept.now }
    ensures { IsTrue result → Opens model.now.levels answers.now.answers pair.now kept.now.plus kept.now.minus }
{
    meets_from(model, answers, kept.met, &kept.plus)
        && meets_from(model, answers, kept.met, &kept.minus)
}

/// A point that meets the answers and ranks the class to this side.
fn point_for(tools: &mut Tools, side: Side, look: &Look, plus: &Vector, minus: &Vector) -> Vector
    requires ready { IsReadyFor look.now tools.old }
    requires opens { Opens look.now.model.levels tools.old.snapshot.answers.answers look.now.pair plus.now minus.now }
    ensures meets { MeetsAll look.now.model.levels (tools.old.snapshot.answers.answers ++ record { pair = look.now.pair; side = side } ∷ []) result }
    ensures snapshot { tools.new.snapshot ≡ tools.old.snapshot }
    ensures room { KeepsRoom tools.old.work tools.new.work }
{
    match side {
        Side::Left => *plus,
        Side::Right => *minus,
        Side::Equal => point_with(
            &look.model,
            &tools.snapshot.answers,
            plus,
            minus,
            &look.pair,
            side,
            &mut tools.work,
        ),
    }
}
