//! Work at one bench.
ghost use Rattle.std.specs.Prelude.{◌≡◌, MatchOption};
ghost use Rattle.decider.specs.Reserved.{IsReserved};
ghost use Rattle.survey_core.specs.Legal.{IsLegal};
ghost use Rattle.survey_replies.specs.Calls.{Watches};
ghost use Rattle.survey_state.specs.Findings.{KeepsTools};
ghost use Rattle.eliminators.specs.Jobs.{IsWorker, with_taken, with_handed_in, with_none_left};
ghost use Rattle.eliminators.specs.Work.{DoesJob, WorksUntilIdle, AddsUp, counted};

use crate::bench::Bench;
use crate::job::HandIn;
use criteria_model::Model;
use decider::Tools;
use edges::{Gate, GatePoint};
use std::sync::Wait;

/// How many jobs came to what. A number stands still at its last value.
#[derive(Clone, Copy, PartialEq, Eq, Debug)]
pub struct Tally {
    pub recorded: u32,
    pub kept: u32,
    pub stale: u32,
}

impl Tally {
    fn count(&mut self, answer: HandIn)
        ensures { self.new ≡ counted self.old answer }
    {
        match answer {
            HandIn::Recorded => self.recorded = self.recorded.saturating_add(1),
            HandIn::Kept => self.kept = self.kept.saturating_add(1),
            HandIn::Stale(_) => self.stale = self.stale.saturating_add(1),
        }
    }
}

/// Does one job after another, until none is left. Nothing is held between taking a job and handing it in.
pub fn work_until_idle<R: Wait, B: Bench, G: Gate>(
    rt: &R,
    bench: &mut B,
    worker: u8,
    model: &Model,
    tools: &mut Tools,
    gate: &G,
) -> Tally
    requires waits { B.can_wait }
    requires worker { IsWorker worker }
    requires model { model.now ≡ (B.listed (B.about bench.old)).criteria }
    requires reserved { IsReserved model.now tools.old }
    ensures works { WorksUntilIdle (B.listed (B.about bench.old)) (B.worker (B.about bench.old)) (B.seen bench.old) (B.seen bench.new)
        (B.counts bench.old) (B.counts bench.new) result }
    ensures adds_up { AddsUp (B.counts bench.old) (B.counts bench.new) result }
    ensures legal { IsLegal (B.listed (B.about bench.old)) (B.seen bench.new).journal }
    ensures same { B.about bench.new ≡ B.about bench.old }
    ensures rooms { KeepsTools tools.old tools.new }
{
    let mut tally = Tally {
        recorded: 0,
        kept: 0,
        stale: 0,
    };
    for _ in rt.forever() {
        match work_once(bench, worker, model, tools, gate) {
            Some(answer) => tally.count(answer),
            None => return tally,
        }
    }
    unreachable!()
}

/// Does one job, if there is one.
fn work_once<B: Bench, G: Gate>(
    bench: &mut B,
    worker: u8,
    model: &Model,
    tools: &mut Tools,
    gate: &G,
) -> Option<HandIn>
    requires waits { B.can_wait }
    requires model { model.now ≡ (B.listed (B.about bench.old)).criteria }
    requires reserved { IsReserved model.now tools.old }
    ensures job { MatchOption result
        (Watches (B.seen bench.old) (B.seen bench.new) × (B.counts bench.new ≡ with_none_left (B.counts bench.old)))
        (λ answer. DoesJob (B.listed (B.about bench.old)) (B.worker (B.about bench.old)) (B.seen bench.old) (B.seen bench.new) answer
        × (B.counts bench.new ≡ with_handed_in (with_taken (B.counts bench.old)))) }
    ensures legal { IsLegal (B.listed (B.about bench.old)) (B.seen bench.new).journal }
    ensures same { B.about bench.new ≡ B.about bench.old }
    ensures rooms { KeepsTools tools.old tools.new }
{
    let job = bench.take(&mut tools.snapshot)?;
    let place = job.place;
    gate.pass(GatePoint::JobTaken { worker, place });
    let decision = tools.decide(model, &job.pair);
    let answer = bench.hand_in(job, &tools.snapshot, decision);
    gate.pass(GatePoint::HandedIn {
        worker,
        place,
        eliminated: answer == HandIn::Recorded,
    });
    Some(answer)
}
