//! The threads of the desks.
ghost use Rattle.std.specs.Prelude.{◌≡◌, ◌≢◌, ℕ, List};
ghost use Rattle.std.specs.Thread.{IsSync};
ghost use Rattle.json_forms.specs.DefinitionViews.{model_of};
ghost use Rattle.pair_enumeration.specs.Listed.{IsListed};
ghost use Rattle.shared_survey.specs.declared.survey.Survey.{Survey as SurveySeen};
ghost use Rattle.shared_survey.specs.Passes.{desk_of, survey_listed};
ghost use Rattle.survey_script.specs.ScriptViews.{ScriptSessionView};
ghost use Rattle.survey_run.specs.Desks.{HasSpoken, IsJobFor};
ghost use Rattle.survey_run.specs.DeskRuns.{RunsFor};

use crate::desks::{DeskJob, DeskPromise, Running, Spoken};
use crate::speaking::speak_all;
use edges::Gate;
use shared_survey::{Desk, Survey};
use std::snapshot::Snapshot;
use std::sync::Wait;
use std::thread::{Scope, Threads};
use survey_script::Script;

/// What a desk's thread does.
fn speak<R: Wait + Sync, G: Gate>(
    rt: &R,
    survey: &Survey,
    script: &Script,
    respondent: u32,
    job: DeskJob,
    gate: &G,
) -> Spoken
    requires listed { IsListed (survey_listed survey.now) }
    requires model { (survey_listed survey.now).criteria ≡ model_of script.now.definition }
    requires job { IsJobFor survey.now respondent job.desk script.now.sessions job }
    requires sits { desk_of job.pass ≢ 0 }
    ensures { HasSpoken survey.now respondent job.desk script.now.sessions result }
{
    let DeskJob {
        mut pass,
        desk,
        jobs,
        rooms,
        told,
    } = job;
    let classes = script.definition().model().class_count();
    let told = {
        let mut by = Desk::lend(rt, survey, &mut pass, jobs.as_ref(), respondent, gate);
        speak_all(
            &mut by,
            respondent,
            desk,
            script.sessions(),
            classes,
            rooms,
            told,
        )
    };
    Spoken { pass, told }
}

/// What a desk without sessions brings back.
fn keep_silent(job: DeskJob) -> Spoken
    requires idle { desk_of job.pass ≡ 0 }
    ensures { (survey : SurveySeen) (respondent desk : ℕ) (sessions : List ScriptSessionView) → IsJobFor survey respondent desk sessions job
        → HasSpoken survey respondent desk sessions result }
{
    let DeskJob {
        pass,
        desk: _,
        jobs: _,
        rooms,
        told: _,
    } = job;
    Spoken {
        pass,
        told: Ok(rooms),
    }
}

/// Starts the thread of a desk with sessions, or runs it where no thread can be made.
fn start_thread<'s, E: 's, R: Wait + Sync, G: Gate + Sync>(
    scope: &Scope<'s, E>,
    rt: &'s R,
    survey: &'s Survey,
    script: &'s Script,
    respondent: u32,
    job: DeskJob,
    gate: &'s G,
) -> Running
    requires listed { IsListed (survey_listed survey.now) }
    requires model { (survey_listed survey.now).criteria ≡ model_of script.now.definition }
    requires job { IsJobFor survey.now respondent job.desk script.now.sessions job }
    requires sits { desk_of job.pass ≢ 0 }
    ensures { RunsFor survey.now respondent job.desk script.now.sessions result }
{
    let promise = DeskPromise {
        survey: Snapshot::of(survey),
        script: Snapshot::of(script),
        respondent,
        desk: job.desk,
    };
    let task = move || -> Spoken
        requires { IsSync R.row × IsListed (survey_listed survey.now) × ((survey_listed survey.now).criteria ≡ model_of script.now.definition)
            × IsJobFor survey.now respondent job.desk script.now.sessions job × (desk_of job.pass ≢ 0) }
        ensures { HasSpoken survey.entry.now respondent job.desk script.entry.now.sessions result }
    { speak(rt, survey, script, respondent, job, gate) };
    match scope.spawn_with(promise, task) {
        Ok(handle) => Running::Thread(handle),
        Err(refused) => Running::Done((refused.value)()),
    }
}

/// Starts a desk. One without sessions is done at once.
pub(crate) fn start<'s, E: 's, R: Wait + Sync, G: Gate + Sync>(
    scope: &Scope<'s, E>,
    rt: &'s R,
    survey: &'s Survey,
    script: &'s Script,
    respondent: u32,
    job: DeskJob,
    gate: &'s G,
) -> Running
    requires listed { IsListed (survey_listed survey.now) }
    requires model { (survey_listed survey.now).criteria ≡ model_of script.now.definition }
    requires job { IsJobFor survey.now respondent job.desk script.now.sessions job }
    ensures { RunsFor survey.now respondent job.desk script.now.sessions result }
{
    if job.pass.desk() == 0 {
        return Running::Done(keep_silent(job));
    }
    start_thread(scope, rt, survey, script, respondent, job, gate)
}

/// Waits for a desk.
pub(crate) fn finish<R: Threads>(rt: &R, running: Running) -> Spoken
    ensures { (survey : SurveySeen) (respondent desk : ℕ) (sessions : List ScriptSessionView) → RunsFor survey respondent desk sessions running
        → HasSpoken survey respondent desk sessions result }
{
    match running {
        Running::Thread(handle) => handle.join(rt),
        Running::Done(spoken) => spoken,
    }
}
