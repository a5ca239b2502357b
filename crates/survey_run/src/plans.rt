//! What a run is begun with. All its memory is taken here, before the first session.
ghost use Rattle.std.specs.Prelude.{◌≡◌, ◌≢◌, ℕ, ◌+◌, ◌<◌, ◌≤◌, List, [], ◌∷◌, ◌++◌, length, vec_capacity, IfOk};
ghost use Rattle.std.specs.List.{AllByRecursion, AllZip, list_any};
ghost use Rattle.criteria_model.specs.Criteria.{Criteria};
ghost use Rattle.eliminators.specs.Jobs.{IsWorker};
ghost use Rattle.survey_core.specs.Legal.{IsDesk};
ghost use Rattle.shared_survey.specs.declared.survey.Survey.{Survey as SurveySeen};
ghost use Rattle.shared_survey.specs.Passes.{IsPassOf, desk_of, pass_seen, pass_weight};
ghost use Rattle.survey_replies.specs.Calls.{unseen};
ghost use Rattle.survey_run.specs.Desks.{HasNoSession, HasSessionRoom, IsJobFor, is_at};
ghost use Rattle.survey_run.specs.Each.{EachFrom};
ghost use Rattle.survey_run.specs.Plans.{IsPlan, IsPlanFor, JobAt};
ghost use Rattle.survey_run.specs.Workers.{IsFreshPass, IsWorkFor, WorkAt};

use crate::desks::{DeskJob, Running, Spoken};
use crate::speaking::is_session_at;
use crate::workers::WorkerJob;
use criteria_model::Model;
use decider::Tools;
use eliminators::JobEnd;
use json_forms::{NoMemory, Reply};
use shared_survey::{Pass, Survey};
use std::alloc::Global;
use survey_core::{MAX_DESKS, MAX_WORKERS};
use survey_script::{Script, ScriptSession};

/// The replies that a desk gave in each session of the script.
#[derive(Drop)]
pub(crate) struct DeskTold {
    pub(crate) sessions: Vec<Vec<Reply>>,
}

/// What the desks of a survey are to do, the pass that theirs are joined into, and room for what comes of them.
#[derive(Drop)]
pub(crate) struct SurveyPlan {
    pub(crate) whole: Pass,
    pub(crate) desks: Vec<DeskJob>,
    pub(crate) running: Vec<Running>,
    pub(crate) spoken: Vec<Spoken>,
    pub(crate) told: Vec<DeskTold>,
}

/// What a run is begun with: the surveys, and what desks and eliminators are to do at them.
#[derive(Drop)]
pub(crate) struct Plan {
    pub(crate) surveys: Vec<Survey>,
    pub(crate) plans: Vec<SurveyPlan>,
    pub(crate) works: Vec<WorkerJob>,
}

/// Whether some session is the desk's.
fn has_session(sessions: &[ScriptSession], respondent: u32, desk: u8) -> bool
    ensures { result ≡ list_any (is_at respondent desk) sessions.now }
{
    sessions
        .iter()
        .any(|session| is_session_at(session, respondent, desk))
}

/// A pass for the desk: of no desk where it has no session.
fn desk_pass(
    alloc: Global,
    survey: &Survey,
    whole: &mut Pass,
    sessions: &[ScriptSession],
    respondent: u32,
    desk: u8,
) -> Result<Pass, NoMemory>
    requires whole { IsPassOf survey.now whole.old × (2 ≤ pass_weight whole.old) }
    requires desk { IsDesk desk }
    ensures new { IfOk result (λ pass. IsPassOf survey.now pass × (pass_weight pass ≡ 1)) }
    ensures seen { IfOk result (λ pass. pass_seen whole.old ≡ unseen → pass_seen pass ≡ unseen) }
    ensures sits { IfOk result (λ pass. desk_of pass ≢ 0 → desk_of pass ≡ desk) }
    ensures idle { IfOk result (λ pass. desk_of pass ≡ 0 → HasNoSession respondent desk sessions.now) }
    ensures whole { IfOk result (λ _. IsPassOf survey.now whole.new × (pass_weight whole.new + 1 ≡ pass_weight whole.old) × (pass_seen whole.new ≡ pass_seen whole.old)) }
{
    if has_session(sessions, respondent, desk) {
        survey.pass(alloc, whole, desk)
    } else {
        Ok(survey.worker_pass(whole))
    }
}

/// Room for the replies of a session, where it is the desk's.
fn session_room(
    alloc: Global,
    session: &ScriptSession,
    respondent: u32,
    desk: u8,
) -> Result<Vec<Reply>, NoMemory>
    ensures { IfOk result (λ room. HasSessionRoom respondent desk session.now room) }
{
    if is_session_at(session, respondent, desk) {
        Vec::with_capacity(alloc, session.messages().len() + 1)
    } else {
        Ok(Vec::new(alloc))
    }
}

/// Room for the replies of each session.
fn session_rooms(
    alloc: Global,
    sessions: &[ScriptSession],
    respondent: u32,
    desk: u8,
) -> Result<Vec<Vec<Reply>>, NoMemory>
    ensures { IfOk result (λ rooms. AllZip (HasSessionRoom respondent desk) sessions.now rooms.items) }
{
    let mut rooms = Vec::with_capacity(alloc, sessions.len())?;
    for session in sessions {
        rooms.push_reserved(session_room(alloc, session, respondent, desk)?);
    }
    Ok(rooms)
}

/// The job of a desk.
fn desk_job(
    alloc: Global,
    survey: &Survey,
    whole: &mut Pass,
    sessions: &[ScriptSession],
    respondent: u32,
    desk: u8,
    line: &JobEnd,
) -> Result<DeskJob, NoMemory>
    requires whole { IsPassOf survey.now whole.old × (2 ≤ pass_weight whole.old) × (pass_seen whole.old ≡ unseen) }
    requires desk { IsDesk desk }
    requires line { (1 ≤ respondent) × (respondent ≤ line.now.surveys) }
    ensures job { IfOk result (λ job. IsJobFor survey.now respondent desk sessions.now job) }
    ensures whole { IfOk result (λ _. IsPassOf survey.now whole.new × (pass_weight whole.new + 1 ≡ pass_weight whole.old) × (pass_seen whole.new ≡ unseen)) }
{
    let rooms = session_rooms(alloc, sessions, respondent, desk)?;
    let told = Vec::with_capacity(alloc, sessions.len())?;
    let jobs = Some(line.another(alloc)?);
    let pass = desk_pass(alloc, survey, whole, sessions, respondent, desk)?;
    Ok(DeskJob {
        pass,
        desk,
        jobs,
        rooms,
        told,
    })
}

/// The jobs of all desks of a survey.
fn desk_jobs(
    alloc: Global,
    survey: &Survey,
    whole: &mut Pass,
    sessions: &[ScriptSession],
    respondent: u32,
    line: &JobEnd,
) -> Result<Vec<DeskJob>, NoMemory>
    requires whole { IsPassOf survey.now whole.old × (1 + MAX_DESKS ≤ pass_weight whole.old) × (pass_seen whole.old ≡ unseen) }
    requires line { (1 ≤ respondent) × (respondent ≤ line.now.surveys) }
    ensures jobs { IfOk result (λ jobs. EachFrom (JobAt survey.now respondent sessions.now) 0 jobs.items × (length jobs.items ≡ MAX_DESKS)) }
    ensures whole { IfOk result (λ _. IsPassOf survey.now whole.new × (pass_weight whole.new + MAX_DESKS ≡ pass_weight whole.old) × (pass_seen whole.new ≡ unseen)) }
{
    let mut jobs = Vec::with_capacity(alloc, usize::from(MAX_DESKS))?;
    for place in 0..MAX_DESKS {
        jobs.push_reserved(desk_job(alloc, survey, whole, sessions, respondent, place + 1, line)?);
    }
    Ok(jobs)
}

/// The plan of a survey, by the pass that has the weight of all desks and more.
fn survey_plan(
    alloc: Global,
    survey: &Survey,
    mut whole: Pass,
    sessions: &[ScriptSession],
    respondent: u32,
    line: &JobEnd,
) -> Result<SurveyPlan, NoMemory>
    requires whole { IsPassOf survey.now whole × (pass_weight whole ≡ 1 + MAX_DESKS) × (pass_seen whole ≡ unseen) }
    requires line { (1 ≤ respondent) × (respondent ≤ line.now.surveys) }
    ensures { IfOk result (λ plan. IsPlanFor survey.now respondent sessions.now plan) }
{
    let desks = desk_jobs(alloc, survey, &mut whole, sessions, respondent, line)?;
    let running = Vec::with_capacity(alloc, usize::from(MAX_DESKS))?;
    let spoken = Vec::with_capacity(alloc, usize::from(MAX_DESKS))?;
    let told = Vec::with_capacity(alloc, usize::from(MAX_DESKS))?;
    Ok(SurveyPlan {
        whole,
        desks,
        running,
        spoken,
        told,
    })
}

/// The job of an eliminator, without passes so far.
fn worker_job(
    alloc: Global,
    model: &Model,
    number: u8,
    count: u32,
    line: &JobEnd,
) -> Result<WorkerJob, NoMemory>
    requires number { IsWorker number }
    requires line { line.now.surveys ≡ count }
    ensures { IfOk result (λ job. IsWorkFor model.now count [] number job) }
{
    Ok(WorkerJob {
        number,
        passes: Vec::with_capacity(alloc, count as usize)?,
        back: Vec::with_capacity(alloc, count as usize)?,
        tools: Tools::reserve(alloc, model)?,
        jobs: line.another(alloc)?,
    })
}

/// The jobs of this number of eliminators, without passes so far.
pub(crate) fn worker_jobs(
    alloc: Global,
    model: &Model,
    workers: u32,
    count: u32,
    line: &JobEnd,
) -> Result<Vec<WorkerJob>, NoMemory>
    requires workers { workers ≤ MAX_WORKERS }
    requires line { line.now.surveys ≡ count }
    ensures { IfOk result (λ jobs. EachFrom (WorkAt model.now count []) 0 jobs.items × (length jobs.items ≡ workers)) }
{
    let mut jobs = Vec::with_capacity(alloc, workers as usize)?;
    for place in 0..workers {
        jobs.push_reserved(worker_job(alloc, model, place as u8 + 1, count, line)?);
    }
    Ok(jobs)
}

impl WorkerJob {
    /// The job with a pass of one survey more.
    fn with_pass(mut self, pass: Pass) -> WorkerJob
        requires { length self.passes.items < vec_capacity self.passes }
        ensures { (criteria : Criteria) (count worker : ℕ) (surveys : List SurveySeen) (survey : SurveySeen) → IsWorkFor criteria count surveys worker self
            → IsFreshPass survey pass → IsWorkFor criteria count (surveys ++ survey ∷ []) worker result }
    {
        self.passes.push_reserved(pass);
        self
    }
}

/// Gives each eliminator a pass of one survey more.
pub(crate) fn give_passes(
    alloc: Global,
    survey: &Survey,
    whole: &mut Pass,
    works: Vec<WorkerJob>,
) -> Result<Vec<WorkerJob>, NoMemory>
    requires whole { IsPassOf survey.now whole.old × (1 + length works.items ≤ pass_weight whole.old) × (pass_seen whole.old ≡ unseen) }
    requires room { AllByRecursion (λ job. length job.passes.items < vec_capacity job.passes) works.items }
    ensures works { IfOk result (λ given. (criteria : Criteria) (count : ℕ) (surveys : List SurveySeen) → EachFrom (WorkAt criteria count surveys) 0 works.items
        → EachFrom (WorkAt criteria count (surveys ++ survey.now ∷ [])) 0 given.items) }
    ensures count { IfOk result (λ given. length given.items ≡ length works.items) }
    ensures whole { IfOk result (λ _. IsPassOf survey.now whole.new × (pass_weight whole.new + length works.items ≡ pass_weight whole.old) × (pass_seen whole.new ≡ unseen)) }
{
    let mut given = Vec::with_capacity(alloc, works.len())?;
    for job in works {
        let pass = survey.worker_pass(whole);
        given.push_reserved(job.with_pass(pass));
    }
    Ok(given)
}

/// Surveys for all respondents, and what desks and eliminators are to do at them.
pub(crate) fn plan_run(
    alloc: Global,
    script: &Script,
    workers: u32,
    line: &JobEnd,
) -> Result<Plan, NoMemory>
    requires workers { workers ≤ MAX_WORKERS }
    requires line { line.now.surveys ≡ length script.now.definition.respondents }
    ensures { IfOk result (λ plan. IsPlan script.now workers plan.surveys.items plan.plans.items plan.works.items) }
{
    let model = script.definition().model();
    let count = script.definition().respondents();
    let mut surveys = Vec::with_capacity(alloc, count as usize)?;
    let mut plans = Vec::with_capacity(alloc, count as usize)?;
    let mut works = worker_jobs(alloc, &model, workers, count, line)?;
    for place in 0..count {
        let passes = 1 + u32::from(MAX_DESKS) + workers;
        let (survey, mut whole) = Survey::build(alloc, &model, passes)?;
        works = give_passes(alloc, &survey, &mut whole, works)?;
        let sessions = script.sessions();
        plans.push_reserved(survey_plan(alloc, &survey, whole, sessions, place + 1, line)?);
        surveys.push_reserved(survey);
    }
    Ok(Plan {
        surveys,
        plans,
        works,
    })
}
