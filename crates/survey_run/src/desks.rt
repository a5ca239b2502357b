//! What a desk is to do, and what it brings back.
use eliminators::JobEnd;
use json_forms::{NoMemory, Reply};
use shared_survey::{Pass, Survey};
use std::snapshot::Snapshot;
use std::thread::{Promise, PromisedHandle};
use survey_script::Script;

/// What a desk is to do. A desk without sessions has a pass of no desk.
#[derive(Drop)]
pub(crate) struct DeskJob {
    pub(crate) pass: Pass,
    pub(crate) desk: u8,
    /// Where eliminators work, an end of their line.
    pub(crate) jobs: Option<JobEnd>,
    /// For the replies of each session of the script; no memory is needed for another desk's.
    pub(crate) rooms: Vec<Vec<Reply>>,
    pub(crate) told: Vec<Vec<Reply>>,
}

/// What a desk brings back: its pass, and the replies of each session of the script.
#[derive(Drop)]
pub(crate) struct Spoken {
    pub(crate) pass: Pass,
    pub(crate) told: Result<Vec<Vec<Reply>>, NoMemory>,
}

/// What a desk's thread brings back, for contracts.
#[derive(Drop)]
pub(crate) struct DeskPromise {
    pub(crate) survey: Snapshot<Survey>,
    pub(crate) script: Snapshot<Script>,
    pub(crate) respondent: u32,
    pub(crate) desk: u8,
}

impl Promise<Spoken> for DeskPromise {
    ghost use Rattle.survey_run.specs.Desks.{HasSpoken};

    ghost kept_by = { λ p spoken. HasSpoken p.survey.value p.respondent p.desk p.script.value.sessions spoken };
}

/// A desk that runs, or has run.
#[derive(Drop)]
pub(crate) enum Running {
    Thread(PromisedHandle<Spoken, DeskPromise>),
    Done(Spoken),
}
