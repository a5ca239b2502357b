//! An eliminator that works at a survey by a pass.
ghost use Rattle.std.specs.Prelude.{◌≡◌, Some, IfSome};
ghost use Rattle.answer_rows.specs.Room.{room_of};
ghost use Rattle.decider.specs.Decisions.{IsDecision};
ghost use Rattle.decider.specs.Reserved.{IsReservedSnapshot};
ghost use Rattle.pair_enumeration.specs.Listed.{IsListed};
ghost use Rattle.survey_core.specs.Histories.{class_at};
ghost use Rattle.survey_core.specs.Legal.{IsLegal};
ghost use Rattle.survey_replies.specs.Calls.{Watches};
ghost use Rattle.eliminators.specs.HandIns.{HandsIn};
ghost use Rattle.eliminators.specs.Jobs.{IsJob, IsReadySnapshot, IsWorker};
ghost use Rattle.shared_survey.specs.Passes.{IsPassOf, StaysPass, pass_seen, pass_weight, survey_listed};

use crate::pass::Pass;
use crate::survey::Survey;
use decider::{Decision, Snapshot};
use eliminators::{Bench, HandIn, Job, hand_in_to, take_from};
use std::collections::LinkedList;
use std::snapshot::Snapshot as Past;
use std::sync::Wait;
use std::thread;

/// What a bench stands for, for contracts. No value of it is made.
pub struct BenchAbout {
    pub survey: Survey,
    pub worker: u8,
    pub weight: u64,
    // The own places that the pass had when it was taken hold of.
    pub had: LinkedList<u64>,
}

/// The bench of an eliminator at a survey: it holds a pass.
#[derive(Drop)]
pub struct SurveyBench<'a, R: Wait + Sync> {
    rt: &'a R,
    survey: &'a Survey,
    pass: Pass,
    worker: u8,
    taken: u32,
    handed_in: u32,
    none_left: u32,
    // The pass as it was taken hold of.
    had: Past<Pass>,
    ghost of: { IsPassOf survey.now pass },
    ghost weight: { pass_weight pass ≡ pass_weight had.value },
    ghost numbered: { IsWorker worker },
}

impl<'a, R: Wait + Sync> SurveyBench<'a, R> {
    ghost use Rattle.shared_survey.specs.Benches.{bench_about, bench_counts, bench_seen};

    /// Takes hold of a pass, to work by it as this worker.
    pub fn hold(rt: &'a R, survey: &'a Survey, pass: Pass, worker: u8) -> SurveyBench<'a, R>
        requires pass { IsPassOf survey.now pass }
        requires worker { IsWorker worker }
        ensures about { bench_about result ≡ record { survey = survey.now; worker = worker; weight = pass_weight pass; had = (pass_seen pass).own } }
        ensures seen { bench_seen result ≡ pass_seen pass }
        ensures counts { bench_counts result ≡ record { taken = 0; handed_in = 0; none_left = 0 } }
    {
        let had = Past::of(&pass);
        SurveyBench {
            rt,
            survey,
            pass,
            worker,
            taken: 0,
            handed_in: 0,
            none_left: 0,
            had,
        }
    }

    /// Gives the pass back, with all that it has seen and made.
    pub fn into_pass(self) -> Pass
        ensures pass { IsPassOf (bench_about self.entry).survey result }
        ensures weight { pass_weight result ≡ (bench_about self.entry).weight }
        ensures seen { pass_seen result ≡ bench_seen self.entry }
    {
        let SurveyBench {
            rt: _,
            survey: _,
            pass,
            worker: _,
            taken: _,
            handed_in: _,
            none_left: _,
            had: _,
        } = self;
        pass
    }
}

impl<'a, R: Wait + Sync> Bench for SurveyBench<'a, R> {
    ghost use Rattle.std.specs.Thread.{IsSync};
    ghost use Rattle.shared_survey.specs.Benches.{bench_about, bench_counts, bench_seen};

    type About = BenchAbout;

    ghost about = { bench_about };

    ghost listed = { λ about. survey_listed about.survey };

    ghost worker = { λ about. about.worker };

    ghost seen = { bench_seen };

    ghost counts = { bench_counts };

    ghost can_wait = { IsSync R.row };

    fn take(&mut self, snapshot: &mut Snapshot) -> Option<Job> {
        let job = take_by(self.rt, self.survey, &mut self.pass, snapshot);
        match job {
            Some(_) => self.taken = self.taken.saturating_add(1),
            None => self.none_left = self.none_left.saturating_add(1),
        }
        job
    }

    fn hand_in(&mut self, job: Job, snapshot: &Snapshot, decision: Decision) -> HandIn {
        self.handed_in = self.handed_in.saturating_add(1);
        hand_in_by(
            self.rt,
            self.survey,
            &mut self.pass,
            self.worker,
            job,
            snapshot,
            decision,
        )
    }
}

// How often an eliminator looks whether the state is free before it waits in line.
const LOOKS: u32 = 256;

// Lets others go first, for a while, since each seat that waits in line makes those after it wait as well.
fn give_way(survey: &Survey) {
    for _ in 0..LOOKS {
        if !survey.turn.is_busy() {
            return;
        }
        thread::yield_now();
    }
}

// Takes a job in a turn of the pass.
fn take_by<R: Wait + Sync>(
    rt: &R,
    survey: &Survey,
    pass: &mut Pass,
    snapshot: &mut Snapshot,
) -> Option<Job>
    requires pass { IsPassOf survey.now pass.old }
    requires reserved { IsReservedSnapshot (survey_listed survey.now).criteria snapshot.old }
    ensures job { IfSome result (λ job. IsJob (survey_listed survey.now) (pass_seen pass.new).journal job) }
    ensures ready { IsReadySnapshot (survey_listed survey.now) (pass_seen pass.new).journal snapshot.new }
    ensures room { room_of snapshot.new.answers ≡ room_of snapshot.old.answers }
    ensures watches { Watches (pass_seen pass.old) (pass_seen pass.new) }
    ensures legal { IsListed (survey_listed survey.now) × IsLegal (survey_listed survey.now) (pass_seen pass.new).journal }
    ensures pass { StaysPass survey.now pass.old pass.new }
{
    give_way(survey);
    let mut state = pass.seat.enter(rt, &survey.turn);
    let job = take_from(&mut state, snapshot);
    pass.seat.leave(&survey.turn, state);
    job
}

// Hands a job in, in a turn of the pass.
fn hand_in_by<R: Wait + Sync>(
    rt: &R,
    survey: &Survey,
    pass: &mut Pass,
    worker: u8,
    job: Job,
    snapshot: &Snapshot,
    decision: Decision,
) -> HandIn
    requires pass { IsPassOf survey.now pass.old }
    requires worker { IsWorker worker }
    requires reserved { IsReservedSnapshot (survey_listed survey.now).criteria snapshot.now }
    requires class { class_at (survey_listed survey.now).classes job.place ≡ Some job.pair }
    requires decision { IsDecision (survey_listed survey.now).criteria.levels snapshot.now.answers.answers job.pair decision }
    ensures handed_in { HandsIn (survey_listed survey.now) worker job decision (pass_seen pass.old) (pass_seen pass.new) result }
    ensures legal { IsLegal (survey_listed survey.now) (pass_seen pass.new).journal }
    ensures pass { StaysPass survey.now pass.old pass.new }
{
    give_way(survey);
    let mut state = pass.seat.enter(rt, &survey.turn);
    let answer = hand_in_to(&mut state, worker, job, snapshot, decision);
    pass.seat.leave(&survey.turn, state);
    answer
}
