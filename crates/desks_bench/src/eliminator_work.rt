//! What an eliminator does.
ghost use Rattle.std.specs.Prelude.{◌≡◌};
ghost use Rattle.shared_survey.specs.Passes.{survey_listed};
ghost use Rattle.desks_bench.specs.Runs.{IsSingle};
ghost use Rattle.desks_bench.specs.Eliminators.{IsEliminator};

use crate::hand_ins::{CountingBench, HandIns};
use criteria_model::Model;
use decider::Tools;
use edges::Gate;
use eliminators::{Benches, JobEnd, worker};
use shared_survey::{Pass, Survey, SurveyBench};
use std::alloc::Global;
use std::sync::Wait;

/// What an eliminator works with, but for its pass.
#[derive(Drop)]
pub struct Eliminator {
    pub number: u8,
    pub tools: Tools,
    pub end: JobEnd,
}

/// Works at the one survey of the line until it is told to stop. Does nothing where there is no memory.
pub fn eliminate<'a, R: Wait + Sync, G: Gate>(
    rt: &'a R,
    alloc: Global,
    survey: &'a Survey,
    model: &Model,
    pass: Pass,
    eliminator: Eliminator,
    gate: &G,
) -> (Pass, HandIns)
    requires model { model.now ≡ (survey_listed survey.now).criteria }
    requires pass { IsSingle survey.now pass }
    requires eliminator { IsEliminator model.now eliminator }
    ensures pass { IsSingle survey.now result.0 }
{
    let Eliminator {
        number,
        mut tools,
        mut end,
    } = eliminator;
    let Ok(mut benches) = Benches::reserve(alloc, 1) else {
        return (pass, HandIns::none());
    };
    let bench = SurveyBench::hold(rt, survey, pass, number);
    benches.push(CountingBench::over(bench));
    worker(rt, &mut benches, number, model, &mut tools, &mut end, gate);
    let Some(counting) = benches.pop() else {
        unreachable!()
    };
    let hand_ins = counting.hand_ins;
    let pass = counting.into_bench().into_pass();
    (pass, hand_ins)
}
