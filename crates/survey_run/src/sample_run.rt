//! A sample survey beside eliminators.
ghost use Rattle.std.specs.Prelude.{◌≡◌, ◌+◌, ◌≤◌, [], ◌∷◌, All, length, vec_len, vec_capacity, IfOk};
ghost use Rattle.std.specs.Option.{ForSome};
ghost use Rattle.std.specs.Thread.{IsSync};
ghost use Rattle.sample_survey.specs.Samples.{IsSampleOf};
ghost use Rattle.shared_survey.specs.Passes.{IsPassOf, desk_of, pass_seen, pass_weight, survey_listed, survey_weight};
ghost use Rattle.survey_core.specs.Legal.{IsDesk};
ghost use Rattle.survey_replies.specs.Calls.{unseen};
ghost use Rattle.survey_replies.specs.PlainLaws.{IsAlone};
ghost use Rattle.survey_run.specs.Each.{EachFrom};
ghost use Rattle.survey_run.specs.Joins.{WorkedAt};
ghost use Rattle.survey_run.specs.SampleRuns.{IsSampleReady, SamplesAlone};
ghost use Rattle.survey_run.specs.Workers.{WorkAt};

use crate::ends::join_workers;
use crate::plans::{give_passes, worker_jobs};
use crate::runs::{finish_workers, start_workers, started, stop_all};
use crate::script_run::make_flags;
use crate::workers::{WorkerJob, Working};
use criteria_model::Model;
use edges::Gate;
use eliminators::{JobEnd, job_line};
use json_forms::NoMemory;
use sample_survey::{Summary, sample_by};
use shared_survey::{Desk, Pass, Survey};
use std::alloc::Global;
use std::sync::Wait;
use std::sync::atomic::AtomicBool;
use std::thread;
use std::thread::{Scope, Threads};
use survey_core::MAX_WORKERS;

/// The desk of a sample survey.
const SAMPLE_DESK: u8 = 1;

/// All that the eliminators of a sample survey need.
#[derive(Drop)]
pub(crate) struct SampleWorks {
    pub(crate) works: Vec<WorkerJob>,
    pub(crate) line: JobEnd,
    pub(crate) working: Vec<Working>,
    pub(crate) worked: Vec<Vec<Pass>>,
}

/// A survey, the pass of the desk and the one that the others are joined into, and what the eliminators need.
#[derive(Drop)]
pub(crate) struct SampleReady {
    pub(crate) surveys: Vec<Survey>,
    pub(crate) whole: Pass,
    pub(crate) pass: Pass,
    pub(crate) works: SampleWorks,
    pub(crate) flags: Vec<AtomicBool>,
}

/// What came of a sample survey: the desk's pass, what was counted, and the passes of the eliminators.
#[derive(Drop)]
pub(crate) struct Sampled {
    pub(crate) pass: Pass,
    pub(crate) summary: Summary,
    pub(crate) worked: Vec<Vec<Pass>>,
}

/// Samples at the desk of the pass.
fn sample_at<R: Wait + Sync, G: Gate>(
    rt: &R,
    survey: &Survey,
    pass: &mut Pass,
    line: Option<&JobEnd>,
    seed: u32,
    model: &Model,
    gate: &G,
) -> Summary
    requires pass { IsPassOf survey.now pass.old × (pass_weight pass.old ≡ 1) × (pass_seen pass.old ≡ unseen) }
    requires desk { IsDesk (desk_of pass.old) }
    requires model { model.now ≡ (survey_listed survey.now).criteria }
    requires line { ForSome line (λ end. 1 ≤ end.now.surveys) }
    ensures pass { IsPassOf survey.now pass.new × (pass_weight pass.new ≡ 1) }
    ensures sample { SamplesAlone (survey_listed survey.now) seed (pass_seen pass.new) result }
{
    let mut desk = Desk::lend(rt, survey, pass, line, 1, gate);
    sample_by(&mut desk, seed, model)
}

/// Samples beside the eliminators. Each thread is joined. Where none has a thread, the desk sends no jobs.
fn sample_beside<'s, E: 's, R: Threads + Wait + Sync, G: Gate + Sync>(
    scope: &Scope<'s, E>,
    rt: &'s R,
    alloc: Global,
    surveys: &'s Vec<Survey>,
    survey: &'s Survey,
    mut pass: Pass,
    works: SampleWorks,
    flags: &'s [AtomicBool],
    seed: u32,
    model: &'s Model,
    gate: &'s G,
) -> Sampled
    requires pass { IsPassOf survey.now pass × (pass_weight pass ≡ 1) × (pass_seen pass ≡ unseen) }
    requires desk { IsDesk (desk_of pass) }
    requires model { model.now ≡ (survey_listed survey.now).criteria }
    requires models { All (λ survey. (survey_listed survey).criteria ≡ model.now) surveys.now.items }
    requires works { EachFrom (WorkAt model.now (vec_len surveys.now) surveys.now.items) 0 works.works.items }
    requires line { 1 ≤ works.line.surveys }
    requires flags { vec_len works.works ≤ length flags.now }
    requires working { (works.working.items ≡ []) × (vec_len works.works ≤ vec_capacity works.working) }
    requires worked { (works.worked.items ≡ []) × (vec_len works.works ≤ vec_capacity works.worked) }
    ensures pass { IsPassOf survey.now result.pass × (pass_weight result.pass ≡ 1) }
    ensures sample { SamplesAlone (survey_listed survey.now) seed (pass_seen result.pass) result.summary }
    ensures worked { EachFrom (WorkedAt surveys.now.items) 0 result.worked.items × (vec_len result.worked ≡ vec_len works.works) }
{
    let SampleWorks {
        works,
        line,
        working,
        worked,
    } = works;
    let working = start_workers(
        scope, rt, alloc, surveys, model, works, flags, gate, working,
    );
    let count = started(working.as_slice());
    let jobs = if count > 0 { Some(&line) } else { None };
    let summary = sample_at(rt, survey, &mut pass, jobs, seed, model, gate);
    stop_all(rt, &line, count);
    let worked = finish_workers(rt, working, worked);
    Sampled {
        pass,
        summary,
        worked,
    }
}

/// Joins all passes and ends the survey: the desk was alone on it, but for eliminations.
fn close_sample(survey: Survey, mut whole: Pass, pass: Pass, mut worked: Vec<Vec<Pass>>)
    requires whole { IsPassOf survey whole × (pass_weight whole ≡ 1) × (pass_seen whole ≡ unseen) }
    requires pass { IsPassOf survey pass × (pass_weight pass ≡ 1) }
    requires worked { EachFrom (WorkedAt (survey ∷ [])) 0 worked.items }
    requires weight { survey_weight survey ≡ 2 + vec_len worked }
    ensures { IsAlone (pass_seen pass) }
{
    join_workers(&survey, &mut whole, &mut worked);
    survey.join(&mut whole, pass);
    survey.close(whole);
}

/// A survey of the model, with what a sample of it needs beside this number of eliminators.
fn sample_ready(alloc: Global, model: &Model, workers: u32) -> Result<SampleReady, NoMemory>
    requires { workers ≤ MAX_WORKERS }
    ensures { IfOk result (λ ready. IsSampleReady model.now workers ready) }
{
    let line = job_line(alloc, 1)?;
    let jobs = worker_jobs(alloc, model, workers, 1, &line)?;
    let (survey, mut whole) = Survey::build(alloc, model, 2 + workers)?;
    let works = give_passes(alloc, &survey, &mut whole, jobs)?;
    let pass = survey.pass(alloc, &mut whole, SAMPLE_DESK)?;
    let flags = make_flags(alloc, works.len())?;
    let working = Vec::with_capacity(alloc, works.len())?;
    let worked = Vec::with_capacity(alloc, works.len())?;
    let mut surveys = Vec::with_capacity(alloc, 1)?;
    surveys.push_reserved(survey);
    let works = SampleWorks {
        works,
        line,
        working,
        worked,
    };
    Ok(SampleReady {
        surveys,
        whole,
        pass,
        works,
        flags,
    })
}

/// The sample of a seed in a survey with this number of eliminators beside the desk.
///
/// # Errors
///
/// Out of memory.
pub fn run_sample<R: Threads + Wait + Sync, G: Gate + Sync>(
    rt: &R,
    alloc: Global,
    workers: u32,
    seed: u32,
    model: &Model,
    gate: &G,
) -> Result<Summary, NoMemory>
    requires { workers ≤ MAX_WORKERS }
    ensures { IfOk result (λ summary. IsSampleOf model.now seed summary) }
{
    let ready = sample_ready(alloc, model, workers)?;
    let SampleReady {
        mut surveys,
        whole,
        pass,
        works,
        flags,
    } = ready;
    let lent = &surveys;
    let survey = &lent[0];
    let down = flags.as_slice();
    let Sampled {
        pass,
        summary,
        worked,
    } = thread::scope(
        thread::scope_env(),
        rt,
        |scope| -> Sampled
            requires pass { IsPassOf survey.now pass × (pass_weight pass ≡ 1) × (pass_seen pass ≡ unseen) }
            requires desk { IsDesk (desk_of pass) }
            requires model { model.now ≡ (survey_listed survey.now).criteria }
            requires models { All (λ survey. (survey_listed survey).criteria ≡ model.now) lent.now.items }
            requires works { EachFrom (WorkAt model.now (vec_len lent.now) lent.now.items) 0 works.works.items }
            requires line { 1 ≤ works.line.surveys }
            requires flags { vec_len works.works ≤ length down.now }
            requires working { (works.working.items ≡ []) × (vec_len works.works ≤ vec_capacity works.working) }
            requires worked { (works.worked.items ≡ []) × (vec_len works.works ≤ vec_capacity works.worked) }
            requires sync { IsSync R.row × IsSync G.row }
            ensures pass { IsPassOf survey.entry.now result.pass × (pass_weight result.pass ≡ 1) }
            ensures sample { SamplesAlone (survey_listed survey.entry.now) seed (pass_seen result.pass) result.summary }
            ensures worked { EachFrom (WorkedAt lent.entry.now.items) 0 result.worked.items × (vec_len result.worked ≡ vec_len works.works) }
        {
            sample_beside(
                scope, rt, alloc, lent, survey, pass, works, down, seed, model, gate,
            )
        },
    );
    let Some(survey) = surveys.pop() else {
        unreachable!()
    };
    close_sample(survey, whole, pass, worked);
    Ok(summary)
}
