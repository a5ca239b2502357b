//! What eliminators are to do, and what they bring back.
use decider::Tools;
use eliminators::JobEnd;
use shared_survey::{Pass, Survey};
use std::snapshot::Snapshot;
use std::thread::{Promise, PromisedHandle};

/// An eliminator with a pass of each survey, its tools and its end of the line.
#[derive(Drop)]
pub(crate) struct WorkerJob {
    pub(crate) number: u8,
    pub(crate) passes: Vec<Pass>,
    /// Where the passes come back to.
    pub(crate) back: Vec<Pass>,
    pub(crate) tools: Tools,
    pub(crate) jobs: JobEnd,
}

/// What an eliminator's thread brings back, for contracts.
#[derive(Drop)]
pub(crate) struct WorkerPromise {
    pub(crate) surveys: Snapshot<Vec<Survey>>,
    pub(crate) worker: u8,
}

impl Promise<Vec<Pass>> for WorkerPromise {
    ghost use Rattle.survey_run.specs.Workers.{IsStack};

    ghost kept_by = { λ p passes. IsStack p.worker p.surveys.value.items passes };
}

/// An eliminator that runs, or was left out.
#[derive(Drop)]
pub(crate) enum Working {
    Thread(PromisedHandle<Vec<Pass>, WorkerPromise>),
    LeftOut(Vec<Pass>),
}
