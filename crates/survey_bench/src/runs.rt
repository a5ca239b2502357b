//! Runs of surveys.
ghost use Rattle.std.specs.Prelude.{◌≡◌, length};
ghost use Rattle.criteria_model.specs.Worth.{increments};
ghost use Rattle.survey_bench.specs.Desks.{IsOf};

use crate::exchanges::exchange;
use crate::output::Output;
use crate::requests::Request;
use crate::timings::Call;
use criteria_model::{Model, Vector};
use json_forms::Reply;
use sample_values::Draws;
use std::alloc::Global;
use std::io;
use std::time::CpuClock;
use survey_replies::{NextReply, Respondent};

/// Answers each new question by hidden values, until none comes, and gives what each `next` took.
pub fn answer_all<R: Respondent, P: Print + CpuClock>(
    rt: &P,
    alloc: Global,
    desk: &mut R,
    model: &Model,
    hidden: &Vector,
    output: &mut Output,
) -> io::Result<Vec<Call>>
    requires waits { R.can_wait }
    requires desk { IsOf model.now (R.listed (R.about desk.old)) }
    requires hidden { length hidden.now ≡ increments model.now.levels }
    ensures desk { IsOf model.now (R.listed (R.about desk.new)) }
{
    let mut calls = Vec::new(alloc);
    for _ in 0..u64::from(model.class_count()) + 1 {
        let (start, length) = (rt.thread_cpu_time()?, desk.length());
        let reply = exchange(rt, desk, model, Request::Next, output)?;
        let time = rt.thread_cpu_time()?.saturating_sub(start);
        let events = desk.length().saturating_sub(length);
        calls.push(Call { time, events })?;
        let Reply::Next(NextReply::Question { number, pair, .. }) = reply else {
            return Ok(calls);
        };
        let answer = Request::Answer {
            question: number,
            side: model.ranking(hidden, &pair),
        };
        exchange(rt, desk, model, answer, output)?;
    }
    Ok(calls)
}

/// Makes requests at random.
pub fn ask_at_random<R: Respondent, P: Print>(
    rt: &P,
    desk: &mut R,
    model: &Model,
    draws: &mut Draws,
    count: u32,
    output: &mut Output,
) -> io::Result<()>
    requires waits { R.can_wait }
    requires desk { IsOf model.now (R.listed (R.about desk.old)) }
    ensures desk { IsOf model.now (R.listed (R.about desk.new)) }
{
    let mut asked = 0;
    for _ in 0..count {
        let request = Request::random(draws, asked);
        let reply = exchange(rt, desk, model, request, output)?;
        if let Reply::Next(NextReply::Question { number, .. }) = reply {
            asked = number;
        }
    }
    Ok(())
}
