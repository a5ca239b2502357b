//! The run of a script's sessions.
ghost use Rattle.std.specs.Prelude.{◌≡◌, ◌≤◌, length, vec_len, IfOk};
ghost use Rattle.std.specs.Thread.{IsSync};
ghost use Rattle.json_forms.specs.DefinitionViews.{model_of};
ghost use Rattle.survey_script.specs.ScriptViews.{line_count};
ghost use Rattle.survey_run.specs.Each.{EachFrom, EachZipFrom, StackFrom};
ghost use Rattle.survey_run.specs.Joins.{HasRooms, SpokenAt, WorkedAt};
ghost use Rattle.survey_run.specs.Plans.{PlanAt};
ghost use Rattle.survey_run.specs.Prepared.{HasEndRooms, IsPrepared};
ghost use Rattle.survey_run.specs.Runs.{IsRun};
ghost use Rattle.survey_run.specs.Workers.{WorkAt};

use crate::collect::{collect_replies, collect_states};
use crate::ends::{SurveyEnd, close_surveys};
use crate::plans::{Plan, plan_run};
use crate::run_end::RunEnd;
use crate::runs::{Finished, Rooms, run_beside};
use edges::Gate;
use eliminators::{JobEnd, job_line};
use json_forms::{MAX_RESPONDENTS, NoMemory, Reply};
use shared_survey::Survey;
use std::alloc::Global;
use std::sync::Wait;
use std::sync::atomic::AtomicBool;
use std::thread;
use std::thread::Threads;
use survey_core::MAX_WORKERS;
use survey_script::{MAX_SCRIPT_LINES, Script, ScriptSession};
use survey_state::State;

/// Room for what is left of a run.
#[derive(Drop)]
pub(crate) struct EndRooms {
    pub(crate) ends: Vec<SurveyEnd>,
    pub(crate) states: Vec<State>,
    pub(crate) replies: Vec<Reply>,
}

/// All that a run needs.
#[derive(Drop)]
pub(crate) struct Prepared {
    pub(crate) plan: Plan,
    pub(crate) line: JobEnd,
    pub(crate) rooms: Rooms,
    pub(crate) flags: Vec<AtomicBool>,
    pub(crate) end_rooms: EndRooms,
}

/// Room for what these numbers of surveys and eliminators bring back.
fn make_rooms(alloc: Global, surveys: usize, workers: usize) -> Result<Rooms, NoMemory>
    ensures { IfOk result (λ rooms. HasRooms surveys workers rooms) }
{
    Ok(Rooms {
        running: Vec::with_capacity(alloc, surveys)?,
        spoken: Vec::with_capacity(alloc, surveys)?,
        working: Vec::with_capacity(alloc, workers)?,
        worked: Vec::with_capacity(alloc, workers)?,
    })
}

/// This number of flags, all down.
pub(crate) fn make_flags(alloc: Global, count: usize) -> Result<Vec<AtomicBool>, NoMemory>
    ensures { IfOk result (λ flags. vec_len flags ≡ count) }
{
    let mut flags = Vec::with_capacity(alloc, count)?;
    for _made in 0..count {
        flags.push_reserved(AtomicBool::new(false));
    }
    Ok(flags)
}

/// How many lines the sessions have, with their hellos.
fn count_lines(sessions: &[ScriptSession]) -> usize
    requires { line_count sessions.now ≤ MAX_SCRIPT_LINES }
    ensures { result ≡ line_count sessions.now }
{
    let mut count = 0usize;
    for session in sessions {
        count += session.messages().len() + 1;
    }
    count
}

/// Room for the ends of the surveys, and the replies to the lines.
fn make_end_rooms(alloc: Global, surveys: usize, lines: usize) -> Result<EndRooms, NoMemory>
    ensures { IfOk result (λ rooms. HasEndRooms surveys lines rooms) }
{
    Ok(EndRooms {
        ends: Vec::with_capacity(alloc, surveys)?,
        states: Vec::with_capacity(alloc, surveys)?,
        replies: Vec::with_capacity(alloc, lines)?,
    })
}

/// Takes all memory that a run needs, but what a withdrawal does.
fn prepare(alloc: Global, script: &Script, workers: u32) -> Result<Prepared, NoMemory>
    requires { workers ≤ MAX_WORKERS }
    ensures { IfOk result (λ prepared. IsPrepared script.now workers prepared) }
{
    let line = job_line(alloc, script.definition().respondents())?;
    let plan = plan_run(alloc, script, workers, &line)?;
    let rooms = make_rooms(alloc, plan.plans.len(), plan.works.len())?;
    let flags = make_flags(alloc, plan.works.len())?;
    let lines = count_lines(script.sessions());
    let end_rooms = make_end_rooms(alloc, plan.surveys.len(), lines)?;
    Ok(Prepared {
        plan,
        line,
        rooms,
        flags,
        end_rooms,
    })
}

/// Ends the surveys when all threads are done, and puts the replies into input order.
fn end_run(
    script: &Script,
    surveys: Vec<Survey>,
    finished: Finished,
    rooms: EndRooms,
) -> Result<RunEnd, NoMemory>
    requires surveys { (vec_len surveys ≡ length script.now.definition.respondents) × (vec_len surveys ≤ MAX_RESPONDENTS) }
    requires spoken { StackFrom (SpokenAt (model_of script.now.definition) (vec_len finished.worked) script.now.sessions) 0 surveys.items finished.spoken.items }
    requires worked { EachFrom (WorkedAt surveys.items) 0 finished.worked.items }
    requires rooms { HasEndRooms (vec_len surveys) (line_count script.now.sessions) rooms }
    ensures { IfOk result (λ end. IsRun script.now (vec_len finished.worked) end) }
{
    // For its clause: the script is whole.
    script.sessions();
    let EndRooms {
        ends,
        states,
        replies,
    } = rooms;
    let ends = close_surveys(surveys, finished.spoken, finished.worked, ends)?;
    let replies = collect_replies(script, ends.as_slice(), replies);
    let states = collect_states(ends, states);
    Ok(RunEnd::of(states, replies))
}

/// Runs the sessions of a script: those of one desk in input order, different desks at once, beside this number of eliminators.
///
/// All memory is taken before the first session runs, but what a withdrawal needs. A thread that can't be started is done without:
/// the desk's sessions are held by the caller, and the eliminator is left out.
///
/// # Errors
///
/// Out of memory.
pub fn run_sessions<R: Threads + Wait + Sync, G: Gate + Sync>(
    rt: &R,
    alloc: Global,
    script: &Script,
    workers: u32,
    gate: &G,
) -> Result<RunEnd, NoMemory>
    requires { workers ≤ MAX_WORKERS }
    ensures { IfOk result (λ end. IsRun script.now workers end) }
{
    let prepared = prepare(alloc, script, workers)?;
    let Prepared {
        plan,
        line,
        rooms,
        flags,
        end_rooms,
    } = prepared;
    let Plan {
        surveys,
        plans,
        works,
    } = plan;
    let script_model = script.definition().model();
    let model = &script_model;
    let lent = &surveys;
    let down = flags.as_slice();
    let finished = thread::scope(
        thread::scope_env(),
        rt,
        |scope| -> Finished
            requires plans { EachZipFrom (PlanAt (model_of script.now.definition) (vec_len works) script.now.sessions) 0 lent.now.items plans.items }
            requires model { model.now ≡ model_of script.now.definition }
            requires few { (vec_len plans ≤ MAX_RESPONDENTS) × (vec_len works ≤ MAX_WORKERS) }
            requires works { EachFrom (WorkAt (model_of script.now.definition) (vec_len lent.now) lent.now.items) 0 works.items }
            requires flags { vec_len works ≤ length down.now }
            requires rooms { HasRooms (vec_len plans) (vec_len works) rooms }
            requires sync { IsSync R.row × IsSync G.row }
            ensures spoken { StackFrom (SpokenAt (model_of script.entry.now.definition) (vec_len result.worked) script.entry.now.sessions) 0 lent.entry.now.items result.spoken.items }
            ensures worked { EachFrom (WorkedAt lent.entry.now.items) 0 result.worked.items }
            ensures count { vec_len result.worked ≡ vec_len works }
        {
            run_beside(
                scope, rt, alloc, lent, script, model, plans, works, line, down, gate, rooms,
            )
        },
    );
    end_run(script, surveys, finished, end_rooms)
}
