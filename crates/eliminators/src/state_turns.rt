//! What a bench does to the state of its turn.
ghost use Rattle.std.specs.Prelude.{◌≡◌, ◌↔◌, ◌≤◌, length, take, All, Some, IfSome, IsTrue};
ghost use Rattle.std.specs.Option.{option_map};
ghost use Rattle.criteria_model.specs.Pairs.{IsFit};
ghost use Rattle.criteria_model.specs.Answers.{Opens};
ghost use Rattle.answer_rows.specs.Room.{room_of};
ghost use Rattle.decider.specs.Decisions.{IsDecision};
ghost use Rattle.decider.specs.Reserved.{IsReservedSnapshot};
ghost use Rattle.question_queue.specs.Pools.{first_place, is_job};
ghost use Rattle.survey_core.specs.declared.events.Event.TheVariants.{Eliminate};
ghost use Rattle.survey_core.specs.Histories.{class_at};
ghost use Rattle.survey_core.specs.Legal.{IsEvent, IsPlace, IsUnranked};
ghost use Rattle.survey_state.specs.States.{version_of, with_pool, with_given};
ghost use Rattle.eliminators.specs.Jobs.{IsWorker, IsJob, IsReadySnapshot};
ghost use Rattle.eliminators.specs.HandIns.{IsHandedIn, ChangesState, IsEliminated, IsKeptOpen};

use crate::job::{HandIn, Job};
use answer_rows::{Answers, common_front};
use criteria_model::{Model, Pair, Side, Vector};
use decider::{Decision, Snapshot};
use farkas_check::Combination;
use survey_core::{Broken, Event};
use survey_state::{Offer, State};
use witness_check::meets_from;

/// Gives out the first class that no event ranks and that wasn't given out since the answers changed last, and brings the
/// snapshot to the answers.
pub fn take_from(state: &mut State, snapshot: &mut Snapshot) -> Option<Job>
    requires { IsReservedSnapshot state.old.listed.criteria snapshot.old }
    ensures place { option_map (λ job. job.place) result ≡ first_place (is_job (version_of state.old.journal)) state.old.pool.marks }
    ensures job { IfSome result (λ job. IsJob state.old.listed state.old.journal job) }
    ensures given { state.new ≡ with_pool state.old (with_given state.old.pool (version_of state.old.journal)) }
    ensures ready { IsReadySnapshot state.old.listed state.old.journal snapshot.new }
    ensures room { room_of snapshot.new.answers ≡ room_of snapshot.old.answers }
{
    copy_answers(state, snapshot);
    let place = state.job()?;
    Some(job_at(state, place))
}

/// Brings the snapshot to all answers of the state.
fn copy_answers(state: &State, snapshot: &mut Snapshot)
    requires { IsReservedSnapshot state.now.listed.criteria snapshot.old }
    ensures ready { IsReadySnapshot state.now.listed state.now.journal snapshot.new }
    ensures room { room_of snapshot.new.answers ≡ room_of snapshot.old.answers }
{
    let core = state.core();
    let enough = core.answers().len() <= core.model().class_count();
    prove!(enough);
    state.snapshot_into(snapshot);
}

/// The job of a class that no event ranks.
fn job_at(state: &State, place: u32) -> Job
    requires place { IsPlace state.now.listed place }
    requires unranked { IsUnranked state.now.journal place }
    ensures job { IsJob state.now.listed state.now.journal result }
    ensures place { result.place ≡ place }
{
    Job {
        place,
        pair: state.core().class(place),
        version: state.version(),
    }
}

/// Hands in what the snapshot's answers say of a job's class.
pub fn hand_in_to(
    state: &mut State,
    worker: u8,
    job: Job,
    snapshot: &Snapshot,
    decision: Decision,
) -> HandIn
    requires worker { IsWorker worker }
    requires reserved { IsReservedSnapshot state.old.listed.criteria snapshot.now }
    requires class { class_at state.old.listed.classes job.place ≡ Some job.pair }
    requires decision { IsDecision state.old.listed.criteria.levels snapshot.now.answers.answers job.pair decision }
    ensures handed_in { IsHandedIn state.old.listed worker job decision state.old.journal state.new.journal result }
    ensures changes { ChangesState worker job decision state.old state.new result }
    ensures listed { state.new.listed ≡ state.old.listed }
{
    match decision {
        Decision::Undecided { plus, minus } => keep_open(state, &job, snapshot, plus, minus),
        Decision::Implied {
            verdict,
            combination,
        } => eliminate(state, worker, job.place, verdict, combination),
    }
}

/// Records an implied ranking where its elimination may follow the journal.
fn eliminate(
    state: &mut State,
    worker: u8,
    place: u32,
    verdict: Side,
    combination: Combination,
) -> HandIn
    requires { IsEvent state.old.listed.criteria.levels (Eliminate worker place verdict combination) }
    ensures { IsEliminated state.old state.new (Eliminate worker place verdict combination) result }
{
    let event = Event::Eliminate {
        worker,
        place,
        verdict,
        combination,
    };
    match state.offer(event) {
        Offer::Done => HandIn::Recorded,
        Offer::Stale(broken) => HandIn::Stale(broken),
    }
}

/// Keeps two vectors where they open the class by the answers as they are now.
fn keep_open(
    state: &mut State,
    job: &Job,
    snapshot: &Snapshot,
    plus: Vector,
    minus: Vector,
) -> HandIn
    requires class { class_at state.old.listed.classes job.now.place ≡ Some job.now.pair }
    requires opens { Opens state.old.listed.criteria.levels snapshot.now.answers.answers job.now.pair plus minus }
    ensures { IsKeptOpen state.old state.new job.now plus minus result }
{
    let core = state.core();
    let model = core.model();
    let answers = core.answers();
    let count = answers.len();
    let known = common_front(snapshot.answers.as_slice(), answers.as_slice()) as u32;
    if still_opens(&model, answers, known, &job.pair, &plus, &minus) {
        state.keep_met(job.place, count, plus, minus);
        HandIn::Kept
    } else {
        HandIn::Stale(Broken::Vectors)
    }
}

/// Whether two vectors that open the pair by the first `known` answers open it by all of them.
fn still_opens(
    model: &Model,
    answers: &Answers,
    known: u32,
    pair: &Pair,
    plus: &Vector,
    minus: &Vector,
) -> bool
    requires fit { All (λ answer. IsFit model.now.levels answer.pair) answers.now.answers }
    requires within { known ≤ length answers.now.answers }
    requires opens { Opens model.now.levels (take known answers.now.answers) pair.now plus.now minus.now }
    ensures { IsTrue result ↔ Opens model.now.levels answers.now.answers pair.now plus.now minus.now }
{
    meets_from(model, answers, known, plus) && meets_from(model, answers, known, minus)
}
