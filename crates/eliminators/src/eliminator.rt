//! An eliminator.
ghost use Rattle.std.specs.Prelude.{◌≡◌, length, All};
ghost use Rattle.std.specs.List.{AllZip};
ghost use Rattle.decider.specs.Reserved.{IsReserved};
ghost use Rattle.survey_state.specs.Findings.{KeepsTools};
ghost use Rattle.eliminators.specs.Jobs.{IsWorker};
ghost use Rattle.eliminators.specs.Work.{Stays};

use crate::bench::Bench;
use crate::benches::Benches;
use crate::line::JobEnd;
use criteria_model::Model;
use decider::Tools;
use edges::Gate;
use std::sync::Wait;

/// Works at the bench of each survey that comes by the line, until it is told to stop or the other ends are gone.
pub fn worker<R: Wait, B: Bench, G: Gate>(
    rt: &R,
    benches: &mut Benches<B>,
    number: u8,
    model: &Model,
    tools: &mut Tools,
    jobs: &mut JobEnd,
    gate: &G,
)
    requires waits { B.can_wait }
    requires many { length benches.old.list.items ≡ jobs.old.surveys }
    requires number { IsWorker number }
    requires models { All (λ bench. (B.listed (B.about bench)).criteria ≡ model.now) benches.old.list.items }
    requires reserved { IsReserved model.now tools.old }
    ensures each { AllZip (Stays B.about B.listed B.worker B.seen) benches.old.list.items benches.new.list.items }
    ensures jobs { jobs.new.surveys ≡ jobs.old.surveys }
    ensures rooms { KeepsTools tools.old tools.new }
{
    for _ in rt.forever() {
        let Some(survey) = jobs.next(rt) else {
            return;
        };
        benches.work_at(rt, survey, number, model, tools, gate);
    }
    unreachable!()
}
