//! The threads of the eliminators.
ghost use Rattle.std.specs.Prelude.{◌≡◌, ℕ, ◌≤◌, [], List, All, length, vec_len, vec_capacity};
ghost use Rattle.std.specs.List.{AllZip};
ghost use Rattle.eliminators.specs.Jobs.{IsWorker};
ghost use Rattle.std.specs.Thread.{IsSync};
ghost use Rattle.shared_survey.specs.declared.survey.Survey.{Survey as SurveySeen};
ghost use Rattle.shared_survey.specs.Passes.{survey_listed};
ghost use Rattle.survey_run.specs.Workers.{HasWorkedAt, HoldsFresh, IsFreshPass, IsStack, IsWorkFor};
ghost use Rattle.survey_run.specs.WorkerRuns.{WorksFor};

use crate::workers::{WorkerJob, WorkerPromise, Working};
use criteria_model::Model;
use edges::Gate;
use eliminators::{Benches, worker};
use shared_survey::{Pass, Survey, SurveyBench};
use std::alloc::Global;
use std::snapshot::Snapshot;
use std::sync::Wait;
use std::sync::atomic::{AtomicBool, Ordering};
use std::thread::{Scope, Threads};

/// The passes with the first on top.
fn turned(mut passes: Vec<Pass>, mut back: Vec<Pass>) -> Vec<Pass>
    requires room { (back.items ≡ []) × (vec_len passes ≤ vec_capacity back) }
    ensures { (worker : ℕ) (surveys : List SurveySeen) → AllZip IsFreshPass surveys passes.items → IsStack worker surveys result }
{
    while let Some(pass) = passes.pop() {
        back.push_reserved(pass);
    }
    back
}

/// A bench of each survey, by its pass.
fn hold_all<'s, R: Wait + Sync>(
    rt: &'s R,
    surveys: &'s Vec<Survey>,
    passes: Vec<Pass>,
    number: u8,
    mut benches: Benches<SurveyBench<'s, R>>,
) -> Benches<SurveyBench<'s, R>>
    requires number { IsWorker number }
    requires passes { AllZip IsFreshPass surveys.now.items passes.items }
    requires empty { benches.list.items ≡ [] }
    requires room { vec_len surveys.now ≤ vec_capacity benches.list }
    ensures { AllZip (HoldsFresh number) surveys.now.items result.list.items }
{
    let mut place = 0usize;
    for pass in passes {
        benches.push(SurveyBench::hold(rt, &surveys[place], pass, number));
        place += 1;
    }
    benches
}

/// The passes of the benches, the first on top.
fn give_back<'s, R: Wait + Sync>(
    mut benches: Benches<SurveyBench<'s, R>>,
    mut back: Vec<Pass>,
) -> Vec<Pass>
    requires room { (back.items ≡ []) × (length benches.list.items ≤ vec_capacity back) }
    ensures { (worker : ℕ) (surveys : List SurveySeen) → AllZip (HasWorkedAt worker) surveys benches.entry.list.items → IsStack worker surveys result }
{
    while let Some(bench) = benches.pop() {
        back.push_reserved(bench.into_pass());
    }
    back
}

/// What an eliminator's thread does, with room for its benches. One that was left out does nothing.
fn work<'s, R: Wait + Sync, G: Gate>(
    rt: &'s R,
    surveys: &'s Vec<Survey>,
    model: &Model,
    job: WorkerJob,
    benches: Benches<SurveyBench<'s, R>>,
    left_out: &AtomicBool,
    gate: &G,
) -> Vec<Pass>
    requires models { All (λ survey. (survey_listed survey).criteria ≡ model.now) surveys.now.items }
    requires job { IsWorkFor model.now (vec_len surveys.now) surveys.now.items job.number job }
    requires empty { benches.list.items ≡ [] }
    requires room { vec_len surveys.now ≤ vec_capacity benches.list }
    ensures { IsStack job.number surveys.now.items result }
{
    let WorkerJob {
        number,
        passes,
        back,
        mut tools,
        mut jobs,
    } = job;
    if left_out.load(Ordering::SeqCst) {
        return turned(passes, back);
    }
    let mut benches = hold_all(rt, surveys, passes, number, benches);
    worker(rt, &mut benches, number, model, &mut tools, &mut jobs, gate);
    give_back(benches, back)
}

/// Starts the thread of an eliminator with room for its benches, or leaves it out where no thread can be made.
fn start_thread<'s, E: 's, R: Wait + Sync, G: Gate + Sync>(
    scope: &Scope<'s, E>,
    rt: &'s R,
    surveys: &'s Vec<Survey>,
    model: &'s Model,
    job: WorkerJob,
    benches: Benches<SurveyBench<'s, R>>,
    left_out: &'s AtomicBool,
    gate: &'s G,
) -> Working
    requires models { All (λ survey. (survey_listed survey).criteria ≡ model.now) surveys.now.items }
    requires job { IsWorkFor model.now (vec_len surveys.now) surveys.now.items job.number job }
    requires empty { benches.list.items ≡ [] }
    requires room { vec_len surveys.now ≤ vec_capacity benches.list }
    ensures { WorksFor surveys.now.items job.number result }
{
    let promise = WorkerPromise {
        surveys: Snapshot::of(surveys),
        worker: job.number,
    };
    let task = move || -> Vec<Pass>
        requires { IsSync R.row × All (λ survey. (survey_listed survey).criteria ≡ model.now) surveys.now.items
            × IsWorkFor model.now (vec_len surveys.now) surveys.now.items job.number job
            × (benches.list.items ≡ []) × (vec_len surveys.now ≤ vec_capacity benches.list) }
        ensures { IsStack job.number surveys.entry.now.items result }
    { work(rt, surveys, model, job, benches, left_out, gate) };
    match scope.spawn_with(promise, task) {
        Ok(handle) => Working::Thread(handle),
        Err(refused) => {
            left_out.store(true, Ordering::SeqCst);
            Working::LeftOut((refused.value)())
        }
    }
}

/// Starts an eliminator, or leaves it out where there is no memory for its benches or no thread can be made.
pub(crate) fn start_worker<'s, E: 's, R: Wait + Sync, G: Gate + Sync>(
    scope: &Scope<'s, E>,
    rt: &'s R,
    alloc: Global,
    surveys: &'s Vec<Survey>,
    model: &'s Model,
    job: WorkerJob,
    left_out: &'s AtomicBool,
    gate: &'s G,
) -> Working
    requires models { All (λ survey. (survey_listed survey).criteria ≡ model.now) surveys.now.items }
    requires job { IsWorkFor model.now (vec_len surveys.now) surveys.now.items job.number job }
    ensures { WorksFor surveys.now.items job.number result }
{
    let Ok(benches) = Benches::reserve(alloc, surveys.len() as u32) else {
        let WorkerJob {
            number: _,
            passes,
            back,
            tools: _,
            jobs: _,
        } = job;
        return Working::LeftOut(turned(passes, back));
    };
    start_thread(scope, rt, surveys, model, job, benches, left_out, gate)
}

/// Waits for an eliminator.
pub(crate) fn finish_worker<R: Threads>(rt: &R, working: Working) -> Vec<Pass>
    ensures { (surveys : List SurveySeen) (worker : ℕ) → WorksFor surveys worker working → IsStack worker surveys result }
{
    match working {
        Working::Thread(handle) => handle.join(rt),
        Working::LeftOut(passes) => passes,
    }
}
