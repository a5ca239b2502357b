//! The desks of all surveys at once, beside the eliminators.
ghost use Rattle.std.specs.Prelude.{◌≡◌, ℕ, ◌+◌, ◌≤◌, [], List, All, length, vec_len, vec_capacity};
ghost use Rattle.std.specs.List.{AllByRecursion};
ghost use Rattle.criteria_model.specs.Criteria.{Criteria};
ghost use Rattle.json_forms.specs.DefinitionViews.{model_of};
ghost use Rattle.pair_enumeration.specs.Listed.{IsListed};
ghost use Rattle.shared_survey.specs.declared.survey.Survey.{Survey as SurveySeen};
ghost use Rattle.shared_survey.specs.Passes.{survey_listed};
ghost use Rattle.survey_script.specs.ScriptViews.{ScriptSessionView};
ghost use Rattle.survey_run.specs.Desks.{IsJobFor};
ghost use Rattle.survey_run.specs.Each.{EachFrom, EachZipFrom, StackFrom};
ghost use Rattle.survey_run.specs.Plans.{IsPlanFor, JobAt, PlanAt};
ghost use Rattle.survey_run.specs.Workers.{WorkAt};
ghost use Rattle.survey_run.specs.Joins.{HasRoomFor, HasRooms, IsRunningOf, IsSpokenOf, RunAt, RunningAt, SpeechAt, SpokenAt, WorkedAt, WorkingAt};

use crate::desk_threads::{finish, start};
use crate::desks::{DeskJob, Running, Spoken};
use crate::plans::{DeskTold, SurveyPlan};
use crate::worker_threads::{finish_worker, start_worker};
use crate::workers::{WorkerJob, Working};
use criteria_model::Model;
use edges::Gate;
use eliminators::JobEnd;
use json_forms::MAX_RESPONDENTS;
use shared_survey::{Pass, Survey};
use std::alloc::Global;
use std::sync::Wait;
use std::sync::atomic::AtomicBool;
use std::thread::{Scope, Threads};
use survey_core::MAX_WORKERS;
use survey_script::Script;

/// The desks of a survey while they run, and room for what comes of them.
#[derive(Drop)]
pub(crate) struct SurveyRunning {
    pub(crate) whole: Pass,
    pub(crate) running: Vec<Running>,
    pub(crate) spoken: Vec<Spoken>,
    pub(crate) told: Vec<DeskTold>,
}

/// What the desks of a survey brought back.
#[derive(Drop)]
pub(crate) struct SurveySpoken {
    pub(crate) whole: Pass,
    pub(crate) spoken: Vec<Spoken>,
    pub(crate) told: Vec<DeskTold>,
}

impl DeskJob {
    /// The same, with no line where no eliminator runs.
    fn beside(mut self, workers: bool) -> DeskJob
        ensures { (survey : SurveySeen) (respondent desk : ℕ) (sessions : List ScriptSessionView) → IsJobFor survey respondent desk sessions self
            → IsJobFor survey respondent desk sessions result }
    {
        if !workers {
            self.jobs = None;
        }
        self
    }
}

/// Starts each desk of a survey. What runs is put into the room.
fn start_desks<'s, E: 's, R: Wait + Sync, G: Gate + Sync>(
    scope: &Scope<'s, E>,
    rt: &'s R,
    survey: &'s Survey,
    script: &'s Script,
    respondent: u32,
    desks: Vec<DeskJob>,
    workers: bool,
    gate: &'s G,
    mut running: Vec<Running>,
) -> Vec<Running>
    requires listed { IsListed (survey_listed survey.now) }
    requires model { (survey_listed survey.now).criteria ≡ model_of script.now.definition }
    requires desks { EachFrom (JobAt survey.now respondent script.now.sessions) 0 desks.items }
    requires room { (running.items ≡ []) × (vec_len desks ≤ vec_capacity running) }
    ensures { EachFrom (RunAt survey.now respondent script.now.sessions) 0 result.items × (vec_len result ≡ vec_len desks) }
{
    for job in desks {
        let job = job.beside(workers);
        running.push_reserved(start(scope, rt, survey, script, respondent, job, gate));
    }
    running
}

/// Starts the desks of a survey by its plan, and hands on its pass and the other rooms.
fn start_survey<'s, E: 's, R: Wait + Sync, G: Gate + Sync>(
    scope: &Scope<'s, E>,
    rt: &'s R,
    survey: &'s Survey,
    script: &'s Script,
    respondent: u32,
    plan: SurveyPlan,
    workers: bool,
    gate: &'s G,
) -> SurveyRunning
    requires listed { IsListed (survey_listed survey.now) }
    requires model { (survey_listed survey.now).criteria ≡ model_of script.now.definition }
    requires plan { IsPlanFor survey.now respondent script.now.sessions plan }
    ensures { IsRunningOf survey.now respondent script.now.sessions result }
{
    let SurveyPlan {
        whole,
        desks,
        running,
        spoken,
        told,
    } = plan;
    let running = start_desks(
        scope, rt, survey, script, respondent, desks, workers, gate, running,
    );
    SurveyRunning {
        whole,
        running,
        spoken,
        told,
    }
}

/// Starts the desks of all surveys.
pub(crate) fn start_surveys<'s, E: 's, R: Wait + Sync, G: Gate + Sync>(
    scope: &Scope<'s, E>,
    rt: &'s R,
    surveys: &'s Vec<Survey>,
    script: &'s Script,
    plans: Vec<SurveyPlan>,
    workers: bool,
    gate: &'s G,
    mut running: Vec<SurveyRunning>,
    count: u32,
) -> Vec<SurveyRunning>
    requires plans { EachZipFrom (PlanAt (model_of script.now.definition) count script.now.sessions) 0 surveys.now.items plans.items }
    requires few { vec_len plans ≤ MAX_RESPONDENTS }
    requires room { (running.items ≡ []) × (vec_len plans ≤ vec_capacity running) }
    ensures { EachZipFrom (RunningAt (model_of script.now.definition) count script.now.sessions) 0 surveys.now.items result.items }
{
    for plan in plans {
        let place = running.len();
        let survey = &surveys[place];
        running.push_reserved(start_survey(
            scope,
            rt,
            survey,
            script,
            place as u32 + 1,
            plan,
            workers,
            gate,
        ));
    }
    running
}

/// Waits for each desk. What it brought back is put into the room.
fn finish_desks<R: Threads>(rt: &R, running: Vec<Running>, mut spoken: Vec<Spoken>) -> Vec<Spoken>
    requires room { (spoken.items ≡ []) × (vec_len running ≤ vec_capacity spoken) }
    ensures spoken { (survey : SurveySeen) (respondent : ℕ) (sessions : List ScriptSessionView) → EachFrom (RunAt survey respondent sessions) 0 running.items
        → EachFrom (SpeechAt survey respondent sessions) 0 result.items }
    ensures count { vec_len result ≡ vec_len running }
{
    for one in running {
        spoken.push_reserved(finish(rt, one));
    }
    spoken
}

/// Waits for the desks of a survey, and hands on its pass and the other room.
fn finish_survey<R: Threads>(rt: &R, running: SurveyRunning) -> SurveySpoken
    requires room { HasRoomFor running }
    ensures { (survey : SurveySeen) (respondent : ℕ) (sessions : List ScriptSessionView) → IsRunningOf survey respondent sessions running
        → IsSpokenOf survey respondent sessions result }
{
    let SurveyRunning {
        whole,
        running,
        spoken,
        told,
    } = running;
    let spoken = finish_desks(rt, running, spoken);
    SurveySpoken {
        whole,
        spoken,
        told,
    }
}

/// Waits for the desks of all surveys. What those of the first brought back is on top.
fn finish_surveys<R: Threads>(
    rt: &R,
    mut running: Vec<SurveyRunning>,
    mut spoken: Vec<SurveySpoken>,
) -> Vec<SurveySpoken>
    requires rooms { AllByRecursion HasRoomFor running.items }
    requires room { (spoken.items ≡ []) × (vec_len running ≤ vec_capacity spoken) }
    ensures { (criteria : Criteria) (workers : ℕ) (surveys : List SurveySeen) (sessions : List ScriptSessionView)
        → EachZipFrom (RunningAt criteria workers sessions) 0 surveys running.items → StackFrom (SpokenAt criteria workers sessions) 0 surveys result.items }
{
    while let Some(one) = running.pop() {
        spoken.push_reserved(finish_survey(rt, one));
    }
    spoken
}

/// Starts each eliminator.
pub(crate) fn start_workers<'s, E: 's, R: Wait + Sync, G: Gate + Sync>(
    scope: &Scope<'s, E>,
    rt: &'s R,
    alloc: Global,
    surveys: &'s Vec<Survey>,
    model: &'s Model,
    works: Vec<WorkerJob>,
    flags: &'s [AtomicBool],
    gate: &'s G,
    mut working: Vec<Working>,
) -> Vec<Working>
    requires models { All (λ survey. (survey_listed survey).criteria ≡ model.now) surveys.now.items }
    requires works { EachFrom (WorkAt model.now (vec_len surveys.now) surveys.now.items) 0 works.items }
    requires flags { vec_len works ≤ length flags.now }
    requires room { (working.items ≡ []) × (vec_len works ≤ vec_capacity working) }
    ensures { EachFrom (WorkingAt surveys.now.items) 0 result.items × (vec_len result ≡ vec_len works) }
{
    for job in works {
        let flag = &flags[working.len()];
        working.push_reserved(start_worker(scope, rt, alloc, surveys, model, job, flag, gate));
    }
    working
}

/// How many eliminators have threads.
pub(crate) fn started(working: &[Working]) -> usize {
    working
        .iter()
        .filter(|one| matches!(one, Working::Thread(_)))
        .count()
}

/// Tells this number of eliminators to stop.
pub(crate) fn stop_all<R: Wait>(rt: &R, line: &JobEnd, count: usize) {
    for _ in 0..count {
        line.stop(rt);
    }
}

/// Waits for each eliminator.
pub(crate) fn finish_workers<R: Threads>(
    rt: &R,
    working: Vec<Working>,
    mut worked: Vec<Vec<Pass>>,
) -> Vec<Vec<Pass>>
    requires room { (worked.items ≡ []) × (vec_len working ≤ vec_capacity worked) }
    ensures each { (surveys : List SurveySeen) → EachFrom (WorkingAt surveys) 0 working.items → EachFrom (WorkedAt surveys) 0 result.items }
    ensures count { vec_len result ≡ vec_len working }
{
    for one in working {
        worked.push_reserved(finish_worker(rt, one));
    }
    worked
}

/// Room for what threads bring back.
#[derive(Drop)]
pub(crate) struct Rooms {
    pub(crate) running: Vec<SurveyRunning>,
    pub(crate) spoken: Vec<SurveySpoken>,
    pub(crate) working: Vec<Working>,
    pub(crate) worked: Vec<Vec<Pass>>,
}

/// What the threads brought back.
#[derive(Drop)]
pub(crate) struct Finished {
    pub(crate) spoken: Vec<SurveySpoken>,
    pub(crate) worked: Vec<Vec<Pass>>,
}

/// Runs the desks beside the eliminators. Each thread is joined. Eliminators are stopped when all desks are done; where
/// none has a thread, desks send no jobs, since nobody would take them.
pub(crate) fn run_beside<'s, E: 's, R: Threads + Wait + Sync, G: Gate + Sync>(
    scope: &Scope<'s, E>,
    rt: &'s R,
    alloc: Global,
    surveys: &'s Vec<Survey>,
    script: &'s Script,
    model: &'s Model,
    plans: Vec<SurveyPlan>,
    works: Vec<WorkerJob>,
    line: JobEnd,
    flags: &'s [AtomicBool],
    gate: &'s G,
    rooms: Rooms,
) -> Finished
    requires plans { EachZipFrom (PlanAt (model_of script.now.definition) (vec_len works) script.now.sessions) 0 surveys.now.items plans.items }
    requires model { model.now ≡ model_of script.now.definition }
    requires few { (vec_len plans ≤ MAX_RESPONDENTS) × (vec_len works ≤ MAX_WORKERS) }
    requires works { EachFrom (WorkAt (model_of script.now.definition) (vec_len surveys.now) surveys.now.items) 0 works.items }
    requires flags { vec_len works ≤ length flags.now }
    requires rooms { HasRooms (vec_len plans) (vec_len works) rooms }
    ensures spoken { StackFrom (SpokenAt (model_of script.now.definition) (vec_len works) script.now.sessions) 0 surveys.now.items result.spoken.items }
    ensures worked { EachFrom (WorkedAt surveys.now.items) 0 result.worked.items × (vec_len result.worked ≡ vec_len works) }
{
    let Rooms {
        running,
        spoken,
        working,
        worked,
    } = rooms;
    let working = start_workers(
        scope, rt, alloc, surveys, model, works, flags, gate, working,
    );
    let count = started(working.as_slice());
    let running = start_surveys(
        scope,
        rt,
        surveys,
        script,
        plans,
        count > 0,
        gate,
        running,
        working.len() as u32,
    );
    let spoken = finish_surveys(rt, running, spoken);
    stop_all(rt, &line, count);
    let worked = finish_workers(rt, working, worked);
    Finished { spoken, worked }
}
